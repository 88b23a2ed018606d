//! Two places of which the same is asked.
ghost use Rattle.std.specs.Prelude.{◌≡◌, ◌||◌, true, false, cond, not};
ghost use Rattle.liquid_meaning.specs.FilterNeeds.{items_each, items_or_itself, one_field};
ghost use Rattle.liquid_meaning.specs.FilterNeeds.{with_field};
ghost use Rattle.liquid_model.specs.Uses.{everything, nothing, there, items_wanted, of_places};
ghost use Rattle.liquid_model.specs.Uses as seen;
ghost use Rattle.liquid_model.specs.Uses.{asks_whether, parts, present, use_of_each};
ghost use Rattle.liquid_model.specs.UseViews.{members_view, turns_view, use_view};
ghost use Rattle.liquid_uses.specs.inside.Chains as spec;
ghost use Rattle.liquid_uses.specs.inside.Chains.{are_unplaced_fields, takes};
ghost use Rattle.liquid_uses.specs.inside.Placing.{option_use};

use crate::places::Place;
use liquid_core::{ItemUse, Use, Uses, whole_of};

/// Two places. What is asked of the pair is asked of both: a value that is a list or a map counts
/// as the list's items, or as the map itself.
#[derive(Clone, Copy, Drop)]
pub(crate) struct Pair<'u> {
    pub first: Place<'u>,
    pub second: Place<'u>,
    /// Nothing may be asked of items, neither of all nor of one.
    pub plain: bool,
}

impl<'u> Pair<'u> {
    /// A pair of which nothing may be asked.
    pub(crate) fn refused() -> Pair<'u>
        ensures { (u : _) → takes result u ≡ false }
    {
        Pair {
            first: Place::Refused,
            second: Place::Refused,
            plain: false,
        }
    }

    /// Whether neither is refused.
    pub(crate) fn is_open(self) -> bool
        ensures { result ≡ true → takes self.entry nothing ≡ true }
    {
        let first = self.first.is_open();
        let second = self.second.is_open();
        first && second
    }

    /// Whether it may be asked if there is a value.
    pub(crate) fn is_present(self) -> bool
        ensures { result ≡ true → takes self.entry there ≡ true }
    {
        let first = self.first.is_present();
        let second = self.second.is_present();
        first && second
    }

    /// Whether everything may be asked.
    pub(crate) fn is_whole(self) -> bool
        ensures { result ≡ true → takes self.entry everything ≡ true }
    {
        let first = self.first.is_whole();
        let second = self.second.is_whole();
        first && second
    }

    /// Whether anything may be asked.
    pub(crate) fn is_free(self) -> bool
        ensures { (u : _) → result ≡ true → takes self.entry u ≡ true }
    {
        if self.plain { false } else { self.is_whole() }
    }

    /// Whether this may be asked.
    pub(crate) fn takes(self, asked: &Use) -> bool
        ensures { result ≡ true → takes self.entry (use_view asked.now) ≡ true }
    {
        if !self.allows(asked) {
            return false;
        }
        let first = self.first.includes(asked);
        let second = self.second.includes(asked);
        first && second
    }

    /// Whether this is plain where it has to be.
    fn allows(self, asked: &Use) -> bool
        ensures { result ≡ true → (not self.entry.plain || spec.is_plain (use_view asked.now))
            ≡ true }
    {
        if self.plain { is_plain(asked) } else { true }
    }

    /// Whether the key is no place where that would not be plain.
    fn allows_key(self, key: &str) -> bool
        ensures { result ≡ true → (not self.entry.plain || not (seen.is_place key.now)) ≡ true }
    {
        if self.plain { !is_place(key) } else { true }
    }

    /// Whether all may be asked that this asks of an item of a list.
    pub(crate) fn takes_wanted(self, asked: &Use) -> bool
        ensures { result ≡ true → takes self.entry (items_wanted (use_view asked.now)) ≡ true }
    {
        match asked {
            Use::Nothing => self.is_open(),
            Use::Everything => self.is_whole(),
            Use::Parts { members, items } => {
                let each = self.takes_each(items);
                let places = self.takes_places(members);
                each && places
            }
        }
    }

    /// Whether this may be asked; without a use nothing is.
    pub(crate) fn takes_found(self, found: Option<&Use>) -> bool
        ensures { result ≡ true → takes self.entry (option_use found.entry) ≡ true }
    {
        match found {
            Some(asked) => self.takes(asked),
            None => self.is_open(),
        }
    }

    /// Whether all may be asked that this asks of an item of a list; without a use nothing is.
    pub(crate) fn takes_found_wanted(self, found: Option<&Use>) -> bool
        ensures { result ≡ true → takes self.entry (items_wanted (option_use found.entry)) ≡ true }
    {
        match found {
            Some(asked) => self.takes_wanted(asked),
            None => self.is_open(),
        }
    }

    fn takes_each(self, items: &Option<ItemUse>) -> bool
        ensures { result ≡ true → takes self.entry (use_of_each (turns_view items.now)) ≡ true }
    {
        match items {
            None => self.is_open(),
            Some(asked) => self.takes(&asked.each),
        }
    }

    /// The members that are found by their place.
    fn takes_places(self, members: &Uses) -> bool
        ensures { result ≡ true → takes self.entry (of_places (members_view
            members.now.entries)) ≡ true }
    {
        for (key, asked) in members.iter() {
            if !self.takes_place(key.as_str(), asked) {
                return false;
            }
        }
        self.is_open()
    }

    /// A member, where it is found by its place.
    fn takes_place(self, key: &str, asked: &Use) -> bool
        ensures { result ≡ true → takes self.entry (cond (seen.is_place key.now) (use_view
            asked.now) nothing) ≡ true }
    {
        if is_place(key) {
            self.takes(asked)
        } else {
            self.is_open()
        }
    }

    /// The pair of which it is also asked whether there is a value.
    pub(crate) fn present(self) -> Pair<'u>
        ensures { (u : _) → takes result u ≡ true → takes self.entry (present u) ≡ true }
    {
        let first = self.first.if_present();
        let second = self.second.if_present();
        Pair {
            first,
            second,
            plain: self.plain,
        }
    }

    /// The member of this key.
    pub(crate) fn member(self, key: &str) -> Pair<'u>
        ensures { (u : _) → takes result u ≡ true → takes self.entry (one_field key.now u) ≡ true }
    {
        if !self.allows_key(key) {
            return Pair::refused();
        }
        let first = self.first.member(key);
        let second = self.second.member(key);
        Pair {
            first,
            second,
            plain: false,
        }
    }

    /// The items of both.
    pub(crate) fn items(self) -> Pair<'u>
        ensures { (u : _) → takes result u ≡ true → takes self.entry (items_each u) ≡ true }
    {
        if self.plain {
            return Pair::refused();
        }
        let first = self.first.each();
        let second = self.second.each();
        Pair {
            first,
            second,
            plain: false,
        }
    }

    /// The pair, of which nothing may be asked of items.
    pub(crate) fn plainly(self) -> Pair<'u>
        ensures { (u : _) → asks_whether u ≡ true → takes result u ≡ true
            → takes self.entry (items_wanted (items_or_itself u)) ≡ true }
    {
        Pair {
            first: self.first,
            second: self.second,
            plain: true,
        }
    }

    /// The items of a list, or a map as the list of itself.
    pub(crate) fn items_or_itself(self) -> Pair<'u>
        ensures { (u : _) → asks_whether u ≡ true → takes result u ≡ true
            → takes self.entry (items_or_itself u) ≡ true }
    {
        if self.plain {
            return Pair::refused();
        }
        match self.second {
            Place::Whole => {
                let second = self.first.each();
                Pair {
                    first: self.first,
                    second,
                    plain: true,
                }
            }
            _ => Pair::refused(),
        }
    }

    /// The pair, where the member of this key is whole.
    pub(crate) fn with_whole(self, key: &str) -> Pair<'u>
        ensures { (u : _) → takes result u ≡ true → takes self.entry (with_field key.now everything
            u) ≡ true }
    {
        if self.member(key).is_whole() {
            self
        } else {
            Pair::refused()
        }
    }

    /// The pair, where it may be asked whether there is a member of this key.
    pub(crate) fn with_present(self, key: &str) -> Pair<'u>
        ensures { (u : _) → takes result u ≡ true → takes self.entry (with_field key.now there u)
            ≡ true }
    {
        if self.member(key).is_present() {
            self
        } else {
            Pair::refused()
        }
    }
}

/// Whether a step by this text finds one item of a list.
pub(crate) fn is_place(key: &str) -> bool
    ensures { result ≡ seen.is_place key.now }
{
    whole_of(key).is_some() || key == "first" || key == "last"
}

/// Whether nothing is asked of items, neither of all nor of one.
pub(crate) fn is_plain(asked: &Use) -> bool
    ensures { result ≡ spec.is_plain (use_view asked.now) }
{
    match asked {
        Use::Nothing => true,
        Use::Everything => true,
        Use::Parts { members, items } => are_plain(members, items),
    }
}

fn are_plain(members: &Uses, items: &Option<ItemUse>) -> bool
    ensures { result ≡ spec.is_plain (parts (members_view members.now.entries) (turns_view
        items.now)) }
{
    match items {
        Some(_) => false,
        None => has_no_place(members),
    }
}

fn has_no_place(members: &Uses) -> bool
    ensures { result ≡ are_unplaced_fields (members_view members.now.entries) }
{
    for (key, _) in members.iter() {
        if is_place(key.as_str()) {
            return false;
        }
    }
    true
}
