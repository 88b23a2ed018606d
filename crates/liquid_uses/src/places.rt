//! Where an expression leads among the uses of names.
ghost use Rattle.std.specs.Prelude.{◌≡◌, true};
ghost use Rattle.liquid_core.specs.Expression.{literal};
ghost use Rattle.liquid_model.specs.Data.{text};
ghost use Rattle.liquid_model.specs.View.{view};
ghost use Rattle.liquid_meaning.specs.FilterNeeds.{items_each, one_field};
ghost use Rattle.liquid_meaning.specs.Reading.{Uses, grants};
ghost use Rattle.liquid_core.specs.ExpressionView.{expression_view, steps_view, variable_view};
ghost use Rattle.liquid_model.specs.Uses.{everything, includes, no_fields, nothing, there, parts};
ghost use Rattle.liquid_model.specs.Uses.{present, up_to};
ghost use Rattle.liquid_model.specs.UseViews.{uses_view, use_view};
ghost use Rattle.liquid_uses.specs.inside.Placing.{gives, option_use, use_place, whole_if};
ghost use Rattle.liquid_uses.specs.inside.Placing.{IsReached, IsReachedAlong, Leads};

use liquid_core::{Expression, Use, Uses, Value, Variable, member_of};

/// What is asked of the value that an expression leads to.
#[derive(Clone, Copy, Drop)]
pub(crate) enum Place<'u> {
    /// Everything, or the value is a literal's, which is always seen.
    Whole,
    /// What the uses say of it.
    Asked(&'u Use),
    /// Nothing: the uses don't name it.
    Unnamed,
    /// A step isn't known before the run, and not everything is asked where it is taken.
    Refused,
}

impl<'u> Place<'u> {
    /// The place that a use stands for; without one nothing is asked.
    pub(crate) fn of(found: Option<&'u Use>) -> Place<'u>
        ensures { result ≡ use_place found.entry }
    {
        match found {
            Some(asked) => Place::Asked(asked),
            None => Place::Unnamed,
        }
    }

    /// Whether everything is asked.
    pub(crate) fn is_whole(self) -> bool
        ensures { result ≡ gives self.entry everything }
    {
        match self {
            Place::Whole => true,
            Place::Asked(asked) => matches!(asked, Use::Everything),
            Place::Unnamed | Place::Refused => false,
        }
    }

    /// Whether it is asked if there is a value.
    pub(crate) fn is_present(self) -> bool
        ensures { result ≡ gives self.entry there }
    {
        match self {
            Place::Whole => true,
            Place::Asked(asked) => !matches!(asked, Use::Nothing),
            Place::Unnamed | Place::Refused => false,
        }
    }

    /// Whether it isn't refused: then nothing may be asked at least.
    pub(crate) fn is_open(self) -> bool
        ensures { result ≡ gives self.entry nothing }
    {
        match self {
            Place::Whole | Place::Asked(_) | Place::Unnamed => true,
            Place::Refused => false,
        }
    }

    /// Whether all is asked that this use asks.
    pub(crate) fn includes(self, other: &Use) -> bool
        ensures { result ≡ gives self.entry (use_view other.now) }
    {
        match self {
            Place::Whole => true,
            Place::Asked(asked) => asked.includes(other),
            Place::Unnamed => matches!(other, Use::Nothing),
            Place::Refused => false,
        }
    }

    /// Whether of each item up to a limit all is asked that this use asks, and without a limit the
    /// number of items too.
    pub(crate) fn includes_each(self, limit: Option<usize>, other: Option<&Use>) -> bool
        ensures { result ≡ true → gives self.entry (parts no_fields (up_to limit (option_use
            other.entry))) ≡ true }
    {
        match self {
            Place::Whole => true,
            Place::Asked(asked) => asks_each(asked, limit, other),
            Place::Unnamed | Place::Refused => false,
        }
    }

    /// The place, where it is asked if there is a value.
    pub(crate) fn if_present(self) -> Place<'u>
        ensures { (u : _) → gives result u ≡ true → gives self.entry (present u) ≡ true }
    {
        if self.is_present() {
            self
        } else {
            Place::Refused
        }
    }

    /// What is asked of the member that the step of this text finds.
    pub(crate) fn member(self, key: &str) -> Place<'u>
        ensures { (u : _) → gives result u ≡ true → gives self.entry (one_field key.now u) ≡ true }
    {
        if self.is_present() {
            self.at(key)
        } else {
            Place::Refused
        }
    }

    /// What is asked of each item. It is refused where not every item is asked.
    pub(crate) fn each(self) -> Place<'u>
        ensures { (u : _) → gives result u ≡ true → gives self.entry (items_each u) ≡ true }
    {
        match self {
            Place::Whole => Place::Whole,
            Place::Asked(asked) => each_of(asked),
            Place::Unnamed | Place::Refused => Place::Refused,
        }
    }

    /// Where the step of this text leads.
    fn at(self, key: &str) -> Place<'u>
        ensures { (U : Uses) → Leads U self.entry (literal (text key.now)) result }
    {
        match self {
            Place::Whole => Place::Whole,
            Place::Asked(asked) => member_at(asked, key),
            Place::Unnamed => Place::Unnamed,
            Place::Refused => Place::Refused,
        }
    }
}

/// Where the step of this text leads from what a use asks.
fn member_at<'u>(asked: &'u Use, key: &str) -> Place<'u>
    ensures { (U : Uses) → Leads U (use_place (Some asked.entry)) (literal (text key.now)) result }
{
    match asked {
        Use::Nothing => Place::Unnamed,
        Use::Everything => Place::Whole,
        Use::Parts { members, items: _ } => Place::of(member_of(members, key)),
    }
}

/// Whether of each item up to a limit all is asked that the other use asks.
fn asks_each(asked: &Use, limit: Option<usize>, other: Option<&Use>) -> bool
    ensures { result ≡ true → includes (use_view asked.now) (parts no_fields (up_to limit
        (option_use other.entry))) ≡ true }
{
    match asked {
        Use::Nothing => false,
        Use::Everything => true,
        Use::Parts { members: _, items } => match items {
            None => false,
            Some(found) => { found.reaches(limit) && includes_found(&found.each, other) }
        },
    }
}

/// Whether all is asked that the other use asks.
fn includes_found(asked: &Use, other: Option<&Use>) -> bool
    ensures { result ≡ includes (use_view asked.now) (option_use other.entry) }
{
    match other {
        None => true,
        Some(other) => asked.includes(other),
    }
}

/// What a use asks of each item, where it asks every item.
fn each_of<'u>(asked: &'u Use) -> Place<'u>
    ensures { (u : _) → gives result u ≡ true → includes (use_view asked.now) (items_each u)
        ≡ true }
{
    match asked {
        Use::Nothing => Place::Refused,
        Use::Everything => Place::Whole,
        Use::Parts { members: _, items } => match items {
            None => Place::Refused,
            Some(found) => match found.limit {
                None => Place::Asked(&found.each),
                Some(_) => Place::Refused,
            },
        },
    }
}

/// Where the expression leads.
#[cycle(reached)]
pub(crate) fn reached<'u>(expression: &Expression, uses: &'u Uses) -> Place<'u>
    ensures { IsReached result (uses_view uses.now) (expression_view expression.now) }
{
    match expression {
        Expression::Literal(_) => Place::Whole,
        Expression::Variable(variable) => reached_variable(variable, uses),
    }
}

#[cycle(reached)]
fn reached_variable<'u>(variable: &Variable, uses: &'u Uses) -> Place<'u>
    ensures { IsReached result (uses_view uses.now) (variable_view variable.now) }
{
    let first = Place::of(member_of(uses, variable.name.as_str()));
    reached_along(&variable.indexes, first, uses)
}

/// Where the steps lead from a place.
#[cycle(reached)]
fn reached_along<'u>(steps: &Vec<Expression>, first: Place<'u>, uses: &'u Uses) -> Place<'u>
    ensures { IsReachedAlong result (uses_view uses.now) first.entry (steps_view steps.now.items) }
{
    let mut place = first;
    for step in steps {
        let seen = reached(step, uses).is_whole();
        place = led(place, step, seen);
    }
    place
}

/// Where a step leads from a place. One that is a literal text is known; any other, whose value
/// has to be seen, wants everything at its place.
fn led<'u>(place: Place<'u>, step: &Expression, seen: bool) -> Place<'u>
    ensures { (U : Uses) → (seen ≡ true → grants U (expression_view step.now) everything ≡ true)
        → Leads U place.entry (expression_view step.now) result }
{
    match step {
        Expression::Literal(value) => led_by(place, value),
        Expression::Variable(_) => if_whole(place, seen),
    }
}

fn led_by<'u>(place: Place<'u>, value: &Value) -> Place<'u>
    ensures { (U : Uses) → Leads U place.entry (literal (view value.now)) result }
{
    match value {
        Value::Text(key) => place.at(key.as_str()),
        _ => if_whole(place, true),
    }
}

/// The place, where everything is asked there and the step is seen.
fn if_whole(place: Place<'_>, seen: bool) -> Place<'_>
    ensures { result ≡ whole_if place.entry seen }
{
    if seen && place.is_whole() {
        Place::Whole
    } else {
        Place::Refused
    }
}
