//! Which of a loop's items are asked for.
ghost use Rattle.std.specs.Prelude.{◌≡◌, ◌≤◌, option_map, Some, None};
ghost use Rattle.liquid_model.specs.Answer.{Answers};
ghost use Rattle.liquid_model.specs.ErrorKinds.{IsKindOrMemory};
ghost use Rattle.liquid_model.specs.View.{view};
ghost use Rattle.liquid_model.specs.Whole.{whole};
ghost use Rattle.liquid_model.specs.declared.error.ErrorKind.TheVariants.{UnexpectedValue};
ghost use Rattle.liquid_core.specs.ExpressionView.{expression_view};
ghost use Rattle.liquid_core.specs.Expressions.{needed_whole, sought_whole, whole_found};
ghost use Rattle.liquid_core.specs.States.{environment_of};
ghost use Rattle.liquid_evaluation.specs.Evaluation.{amount, count_within_limit};
ghost use Rattle.liquid_evaluation.specs.Evaluation.{selected_count, skipped};

use liquid_core::{Error, ErrorKind, Expression, Missing, Quoted, Result, Spelled, State, Value};
use std::alloc::Global;

/// The items of a source that are asked for, by how many are left out before them and how many they
/// are.
#[derive(Clone, Copy, Debug, PartialEq, Eq, Drop)]
pub struct Window {
    /// How many of the source's items are left out.
    pub from: usize,
    /// How many items there are. They may reach past the source's end: what isn't there is nil.
    pub count: usize,
}

impl Window {
    /// The window of a limit and an offset over a source of `length` items. A negative number
    /// counts as huge.
    pub fn new(length: usize, limit: Option<i64>, offset: Option<i64>) -> Window
        ensures from { result.from ≡ skipped length offset }
        ensures count { result.count ≡ selected_count length (skipped length offset) limit }
        ensures within { (result.from ≤ length) × (result.count ≤ length) }
    {
        let from = match offset {
            Some(offset) => at_most(length, offset),
            None => 0,
        };
        let count = match limit {
            Some(limit) => at_most(length, limit),
            None => length - from,
        };
        Window { from, count }
    }
}

/// As many as the number says, and at most all of them; a negative number counts as huge.
fn at_most(all: usize, number: i64) -> usize
    ensures value { result ≡ count_within_limit all number }
    ensures within { result ≤ all }
{
    if number < 0 {
        all
    } else {
        all.min(number as usize)
    }
}

/// The whole number of a `limit`, an `offset` or a number of columns, where one is given.
///
/// `UnknownVariable` where the expression has no value, `UnexpectedValue` where its value has no
/// whole number. Where a missing value is nil in this state, it and nil are as if none were given.
#[tactic(auto, unfolding(crate::specs::Evaluation::amount))]
pub fn evaluate_amount(
    alloc: Global,
    given: &Option<Expression>,
    state: &State<'_>,
) -> Result<Option<i64>>
    ensures { Answers (λ n. n) result (amount (option_map expression_view given.now)
        (environment_of state.now)) }
{
    match given {
        Some(expression) => sought_whole(alloc, expression, state),
        None => Ok(None),
    }
}

/// The whole number of the expression's value, or `None` where that is missing or nil and no fault.
/// The faults are those of `evaluate_amount`.
#[tactic(auto, unfolding(liquid_core::specs::Expressions::sought_whole))]
fn sought_whole(alloc: Global, expression: &Expression, state: &State<'_>) -> Result<Option<i64>>
    ensures { Answers (λ n. n) result (sought_whole (expression_view expression.now)
        (environment_of state.now)) }
{
    match expression.sought(alloc, state)? {
        Some(value) => match value.as_value().to_integer() {
            Some(number) => Ok(Some(number)),
            None => without_whole(alloc, expression, value.as_value(), state.missing()),
        },
        None => Ok(None),
    }
}

/// The same, with 0 in place of `None`.
#[tactic(auto, unfolding(liquid_core::specs::Expressions::needed_whole))]
pub(crate) fn evaluate_whole(
    alloc: Global,
    expression: &Expression,
    state: &State<'_>,
) -> Result<i64>
    ensures { Answers (λ n. n) result (needed_whole (expression_view expression.now)
        (environment_of state.now)) }
{
    match sought_whole(alloc, expression, state)? {
        Some(number) => Ok(number),
        None => Ok(0),
    }
}

/// What stands for a value that is no whole number: nothing for nil, where a missing value is nil,
/// and else a fault.
fn without_whole(
    alloc: Global,
    expression: &Expression,
    value: &Value,
    missing: Missing,
) -> Result<Option<i64>>
    requires { whole (view value.now) ≡ None }
    ensures { Answers (λ n. n) result (whole_found missing (Some (view value.now))) }
{
    match value {
        Value::Nil => match missing {
            Missing::IsNil => Ok(None),
            Missing::IsFault => Err(no_whole(alloc, expression, value)),
        },
        _ => Err(no_whole(alloc, expression, value)),
    }
}

/// The fault of an expression whose value is no whole number.
fn no_whole(alloc: Global, expression: &Expression, value: &Value) -> Error
    ensures { IsKindOrMemory UnexpectedValue result.kind }
{
    match (Spelled { expression }).to_string(alloc) {
        Ok(spelled) => unlike_whole(alloc, spelled.as_str(), value),
        Err(refused) => Error::from(refused),
    }
}

/// The fault of a value, by how it is spelled and what it is in place of a whole number.
fn unlike_whole(alloc: Global, spelled: &str, value: &Value) -> Error
    ensures { IsKindOrMemory UnexpectedValue result.kind }
{
    let quoted = Quoted { text: spelled };
    let found = match value {
        Value::Text(text) => {
            let text = Quoted {
                text: text.as_str(),
            };
            return Error::formatted(
                alloc,
                ErrorKind::UnexpectedValue,
                format_args!("`{quoted}` must be a whole number, not the text `{text}`"),
            );
        }
        Value::Nil => "nil",
        Value::Bool(_) => "a truth value",
        Value::Integer(_) => "a number",
        Value::Array(_) => "a list",
        Value::Object(_) => "a map",
    };
    Error::formatted(
        alloc,
        ErrorKind::UnexpectedValue,
        format_args!("`{quoted}` must be a whole number, not {found}"),
    )
}
