//! The values of a call's arguments.
ghost use Rattle.std.specs.Prelude.{◌≡◌, ℕ, length, map, IfOk, IfSome, Ok};
ghost use Rattle.liquid_model.specs.Answer.{Answers};
ghost use Rattle.liquid_model.specs.Cow.{cow_view};
ghost use Rattle.liquid_model.specs.View.{view};
ghost use Rattle.liquid_core.specs.ExpressionView.{expression_view};
ghost use Rattle.liquid_core.specs.States.{environment_of};
ghost use Rattle.liquid_evaluation.specs.Calls.{taken_argument, taken_arguments};
ghost use Rattle.liquid_evaluation.specs.inside.Arguments.{arguments_view};

use liquid_core::{DirectValue, Expression, Result, State, Value, ValueCow};
use std::alloc::Global;
use std::slice;

/// The values of a call's arguments: a single one, borrowed, or a list of copies. Most calls
/// have one argument or none, and then nothing is copied.
pub(crate) enum Arguments<'x> {
    One(ValueCow<'x>),
    Many(Vec<Value>),
}

/// Drops what it holds. Written by hand, so that each early return drops the value by one call
/// to prove.
impl Drop for Arguments<'_> {
    fn drop(self) {
        match self {
            Arguments::One(_) => {}
            Arguments::Many(_) => {}
        }
    }
}

impl Arguments<'_> {
    pub(crate) fn as_slice(&self) -> &[Value]
        ensures { map view result.now ≡ arguments_view self.now }
    {
        match self {
            Arguments::One(value) => slice::from_ref(value.as_value()),
            Arguments::Many(values) => values.as_slice(),
        }
    }
}

/// The values of the expressions, where there is none, or a single one that a value holds; then it
/// doesn't matter how many are required.
pub(crate) fn borrowed_arguments<'x>(
    expressions: &'x [Expression],
    state: &'x State<'_>,
) -> Option<&'x [Value]>
    ensures values { (n : ℕ) → IfSome result (λ values.
        taken_arguments n (map expression_view expressions.now) (environment_of state.now) ≡
        Ok (map view values.now)) }
    ensures count { IfSome result (λ values. length values.now ≡ length expressions.now) }
{
    match expressions {
        [] => Some(&[]),
        [expression] => match expression.direct_value(state) {
            DirectValue::Held(value) => Some(slice::from_ref(value)),
            _ => None,
        },
        _ => None,
    }
}

/// The values of the expressions, from left to right, of which the first are required.
pub(crate) fn evaluate_all<'x>(
    alloc: Global,
    expressions: &'x [Expression],
    required: usize,
    state: &'x State<'_>,
) -> Result<Arguments<'x>>
    ensures values { Answers arguments_view result
        (taken_arguments required (map expression_view expressions.now)
        (environment_of state.now)) }
    ensures count { IfOk result (λ a. length (arguments_view a) ≡ length expressions.now) }
{
    match expressions {
        [expression] => Ok(Arguments::One(argument(alloc, expression, required, state)?)),
        _ => Ok(Arguments::Many(evaluate_each(alloc, expressions, required, state)?)),
    }
}

/// Copies of the values of the expressions, from left to right, of which the first are required.
fn evaluate_each(
    alloc: Global,
    expressions: &[Expression],
    required: usize,
    state: &State<'_>,
) -> Result<Vec<Value>>
    ensures values { Answers (λ v. map view v.items) result
        (taken_arguments required (map expression_view expressions.now)
        (environment_of state.now)) }
    ensures count { IfOk result (λ v. length v.items ≡ length expressions.now) }
{
    let mut values = Vec::with_capacity(alloc, expressions.len())?;
    let mut left = required;
    for expression in expressions {
        values.push(argument(alloc, expression, left, state)?.into_owned(alloc)?)?;
        left = left.saturating_sub(1);
    }
    Ok(values)
}

/// The value of an argument, where the next `required` are required; nil where it isn't, and is
/// missing.
fn argument<'x>(
    alloc: Global,
    expression: &'x Expression,
    required: usize,
    state: &'x State<'_>,
) -> Result<ValueCow<'x>>
    ensures { Answers cow_view result
        (taken_argument required (expression_view expression.now) (environment_of state.now)) }
{
    if required > 0 {
        return expression.evaluate(alloc, state);
    }
    match expression.try_evaluate(alloc, state)? {
        Some(value) => Ok(value),
        None => Ok(ValueCow::Owned(Value::Nil)),
    }
}
