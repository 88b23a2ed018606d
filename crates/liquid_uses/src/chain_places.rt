//! What may be asked of the value of a chain, filter after filter.
ghost use Rattle.std.specs.Prelude.{◌≡◌, true, false, map};
ghost use Rattle.liquid_core.specs.ExpressionView.{expression_view};
ghost use Rattle.liquid_evaluation.specs.ChainView.{chain_filter_view};
ghost use Rattle.liquid_meaning.specs.FilterNeeds.{items_each, items_or_itself, one_field};
ghost use Rattle.liquid_meaning.specs.FilterNeeds.{by_property, compact_needs};
ghost use Rattle.liquid_meaning.specs.FilterNeeds.{literal_first_argument};
ghost use Rattle.liquid_meaning.specs.FilterNeeds.{with_field};
ghost use Rattle.liquid_model.specs.Uses.{asks_whether, everything, is_place, items_wanted, join};
ghost use Rattle.liquid_model.specs.Uses.{nothing, present, there};
ghost use Rattle.liquid_uses.specs.inside.Chains.{takes, sees, CoversCall, KindPasses};
ghost use Rattle.liquid_uses.specs.inside.Placing.{gives, option_use};

use crate::place_pairs::Pair;
use crate::places::Place;
use crate::properties::property_name;
use liquid_core::{Expression, Use};
use liquid_evaluation::{ChainFilter, StoredFilter};
use liquid_filters::FilterKind;

/// Where the value that reaches a filter stands among the uses.
#[derive(Clone, Copy, Drop)]
pub(crate) enum ChainPlace<'u> {
    /// The value itself.
    Value(Pair<'u>),
    /// It is a list, and these are its items.
    Items(Pair<'u>),
}

impl<'u> ChainPlace<'u> {
    /// A value that no filter has changed.
    pub(crate) fn of(place: Place<'u>) -> ChainPlace<'u>
        ensures { (v : _) → sees result v ≡ true → gives place.entry v ≡ true }
    {
        ChainPlace::Value(Pair {
            first: place,
            second: Place::Whole,
            plain: false,
        })
    }

    fn refused() -> ChainPlace<'u>
        ensures { (v : _) → sees result v ≡ false }
    {
        ChainPlace::Value(Pair::refused())
    }

    /// Whether anything may be asked.
    pub(crate) fn is_whole(self) -> bool
        ensures { (v : _) → result ≡ true → sees self.entry v ≡ true }
    {
        match self {
            ChainPlace::Value(pair) => pair.is_free(),
            ChainPlace::Items(pair) => pair.is_free(),
        }
    }

    /// Whether this may be asked; without a use nothing is.
    pub(crate) fn sees(self, asked: Option<&Use>) -> bool
        ensures { result ≡ true → sees self.entry (option_use asked.entry) ≡ true }
    {
        match self {
            ChainPlace::Value(pair) => pair.takes_found(asked),
            ChainPlace::Items(pair) => pair.takes_found_wanted(asked),
        }
    }

    /// The place of which it is also asked whether there is a value: of a list that is known.
    pub(crate) fn present(self) -> ChainPlace<'u>
        ensures { (v : _) → sees result v ≡ true → sees self.entry (present v) ≡ true }
    {
        match self {
            ChainPlace::Value(pair) => ChainPlace::Value(pair.present()),
            ChainPlace::Items(_) => self,
        }
    }

    /// Where the answer of a filter stands.
    pub(crate) fn after(self, filter: &ChainFilter) -> ChainPlace<'u>
        ensures { CoversCall self.entry (chain_filter_view filter.now) result }
    {
        if self.is_whole() {
            return self;
        }
        match &filter.filter {
            StoredFilter::Kind(kind) => self.after_kind(*kind, &filter.arguments),
            StoredFilter::Host(_) => ChainPlace::refused(),
        }
    }

    fn after_kind(self, kind: FilterKind, arguments: &[Expression]) -> ChainPlace<'u>
        ensures { KindPasses self.entry kind (map expression_view arguments.now) result }
    {
        match kind {
            FilterKind::Size => self.after_size(),
            FilterKind::First => self.after_end("first"),
            FilterKind::Last => self.after_end("last"),
            FilterKind::Reverse => ChainPlace::Items(self.items()),
            FilterKind::Concat => ChainPlace::Items(self.items()),
            FilterKind::Map => self.after_map(arguments),
            FilterKind::Where => self.after_order(arguments),
            FilterKind::Sort => self.after_order(arguments),
            FilterKind::SortNatural => self.after_order(arguments),
            FilterKind::Compact => self.after_compact(arguments),
            FilterKind::Default => self.after_default(),
            _ => ChainPlace::refused(),
        }
    }

    /// The items of a list.
    fn items(self) -> Pair<'u>
        ensures { (u : _) → takes result u ≡ true → sees self.entry (items_each u) ≡ true }
    {
        match self {
            ChainPlace::Value(pair) => pair.items(),
            ChainPlace::Items(pair) => pair,
        }
    }

    /// The number of items is a value of its own.
    fn after_size(self) -> ChainPlace<'u>
        ensures { (w : _) → sees result w ≡ true → sees self.entry (items_each nothing) ≡ true }
    {
        if self.items().is_open() {
            ChainPlace::of(Place::Whole)
        } else {
            ChainPlace::refused()
        }
    }

    /// The item that a step by this text finds, `first` or `last`.
    fn after_end(self, key: &str) -> ChainPlace<'u>
        ensures { (w : _) → is_place key.now ≡ true → sees result w ≡ true
            → sees self.entry (one_field key.now w) ≡ true }
    {
        match self {
            ChainPlace::Value(pair) => ChainPlace::Value(pair.member(key)),
            ChainPlace::Items(pair) => ChainPlace::Value(pair),
        }
    }

    /// The properties of the items.
    fn after_map(self, arguments: &[Expression]) -> ChainPlace<'u>
        ensures { (w : _) → sees result w ≡ true
            → sees self.entry (present (by_property
            (literal_first_argument (map expression_view arguments.now))
            (λ name. items_each (one_field name (present (items_wanted w)))))) ≡ true }
    {
        match property_name(arguments) {
            Some(name) => ChainPlace::Items(self.items().member(name).present()),
            None => ChainPlace::refused(),
        }
    }

    /// The items of a list, or a map as the list of itself, each chosen or put into order by a
    /// property.
    fn after_order(self, arguments: &[Expression]) -> ChainPlace<'u>
        ensures { (w : _) → sees result w ≡ true
            → sees self.entry (present (by_property
            (literal_first_argument (map expression_view arguments.now))
            (λ name. items_or_itself (with_field name everything (items_wanted w))))) ≡ true }
    {
        match property_name(arguments) {
            Some(name) => ChainPlace::Items(self.items_or_itself().with_whole(name)),
            None => ChainPlace::refused(),
        }
    }

    /// The items of a list, or a map as the list of itself.
    fn items_or_itself(self) -> Pair<'u>
        ensures { (u : _) → asks_whether u ≡ true → takes result u ≡ true
            → sees self.entry (items_or_itself u) ≡ true }
    {
        match self {
            ChainPlace::Value(pair) => pair.items_or_itself(),
            ChainPlace::Items(pair) => pair.plainly(),
        }
    }

    /// The items that aren't nil, or those whose property isn't.
    fn after_compact(self, arguments: &[Expression]) -> ChainPlace<'u>
        ensures { (w : _) → sees result w ≡ true
            → sees self.entry (present (compact_needs (map expression_view arguments.now) w))
            ≡ true }
    {
        let items = self.items();
        match property_name(arguments) {
            Some(name) => ChainPlace::Items(items.with_present(name)),
            None => if arguments.is_empty() {
                ChainPlace::Items(items.present())
            } else {
                ChainPlace::refused()
            },
        }
    }

    /// The value, of which it is also asked whether it is empty.
    fn after_default(self) -> ChainPlace<'u>
        ensures { (w : _) → sees result w ≡ true
            → sees self.entry (present (join (items_each nothing) w)) ≡ true }
    {
        match self {
            ChainPlace::Value(pair) => if pair.items().is_open() {
                self
            } else {
                ChainPlace::refused()
            },
            ChainPlace::Items(_) => self,
        }
    }
}
