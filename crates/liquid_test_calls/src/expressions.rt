//! Outputs: their expressions, variables and chains; and conditions.
use crate::faults::no_call;
use liquid_core::{Expression, Result, State, Value, Variable};
use liquid_syntax::{Condition, FilterChain};
use liquid_test_refusals::{WorkedRow, flag, found, owned, text};
use std::alloc::Global;

/// A call of a part of an output: of its chain, its expression, or the variable that this is.
pub(crate) fn part_call(
    alloc: Global,
    row: &WorkedRow,
    chain: &FilterChain,
    state: &State<'_>,
) -> Result<Value> {
    match row.kind() {
        "FilterChain" => chain.evaluate(alloc, state, None),
        "Expression" => expression_call(alloc, row.name(), &chain.entry, state),
        "Variable" => match &chain.entry {
            Expression::Variable(variable) => variable_call(alloc, row.name(), variable, state),
            Expression::Literal(_) => no_call(alloc),
        },
        _ => no_call(alloc),
    }
}

fn expression_call(
    alloc: Global,
    name: &str,
    expression: &Expression,
    state: &State<'_>,
) -> Result<Value> {
    match name {
        "evaluate" => owned(alloc, expression.evaluate(alloc, state)),
        "try_evaluate" => found(expression.try_evaluate(alloc, state)),
        "copy" => copied(alloc, expression),
        "to_string" => written(alloc, expression),
        "append_written_form" => text(written_after(alloc, expression)),
        _ => no_call(alloc),
    }
}

/// The written form of the expression.
fn written(alloc: Global, expression: &Expression) -> Result<Value> {
    Ok(Value::Text(expression.to_string(alloc)?))
}

/// The written form of the expression's copy.
fn copied(alloc: Global, expression: &Expression) -> Result<Value> {
    written(alloc, &expression.copy(alloc)?)
}

/// The written form of the expression after a text.
fn written_after(alloc: Global, expression: &Expression) -> Result<String> {
    let mut out = String::from_str(alloc, "cycle ")?;
    expression.append_written_form(&mut out)?;
    Ok(out)
}

fn variable_call(
    alloc: Global,
    name: &str,
    variable: &Variable,
    state: &State<'_>,
) -> Result<Value> {
    match name {
        "evaluate" => owned(alloc, variable.evaluate(alloc, state)),
        "try_evaluate" => found(variable.try_evaluate(alloc, state)),
        "copy" => variable_copied(alloc, variable),
        _ => no_call(alloc),
    }
}

/// The written form of the variable's copy.
fn variable_copied(alloc: Global, variable: &Variable) -> Result<Value> {
    Ok(Value::Text(variable.copy(alloc)?.to_string(alloc)?))
}

pub(crate) fn condition_call(
    alloc: Global,
    row: &WorkedRow,
    condition: &Condition,
    state: &State<'_>,
) -> Result<Value> {
    match row.name() {
        "holds" => flag(condition.holds(alloc, state)),
        "to_string" => Ok(Value::Text(condition.to_string(alloc)?)),
        _ => no_call(alloc),
    }
}
