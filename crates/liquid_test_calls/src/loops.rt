//! What loops go over, and which of its items are asked for.
use crate::faults::no_call;
use liquid_core::{Result, State, Value};
use liquid_syntax::{For, Range, RangeExpression, Window, WindowExpression, evaluate_amount};
use liquid_test_refusals::{WorkedRow, number, owned};
use std::alloc::Global;

/// A call of a part of the loop's head.
pub(crate) fn loop_call(
    alloc: Global,
    row: &WorkedRow,
    head: &For,
    state: &State<'_>,
) -> Result<Value> {
    match row.kind() {
        "RangeExpression" => source_call(alloc, row.name(), &head.source, state),
        "Range" => range_call(alloc, row, &head.source, state),
        "Window" => window_call(alloc, row, &head.window, state),
        _ => no_call(alloc),
    }
}

/// The written form of a source, and of its copy.
fn source_call(
    alloc: Global,
    name: &str,
    source: &RangeExpression,
    state: &State<'_>,
) -> Result<Value> {
    match name {
        "to_string" => written(alloc, source),
        "copy" => written(alloc, &source.copy(alloc)?),
        "evaluate" => is_counted(source.evaluate(alloc, state)),
        _ => no_call(alloc),
    }
}

fn written(alloc: Global, source: &RangeExpression) -> Result<Value> {
    Ok(Value::Text(source.to_string(alloc)?))
}

fn is_counted(range: Result<Range<'_>>) -> Result<Value> {
    Ok(Value::Bool(matches!(range?, Range::Counted(_, _))))
}

/// The items of the range that the source comes to, all or the one at the row's place, and how many
/// they are.
fn range_call(
    alloc: Global,
    row: &WorkedRow,
    source: &RangeExpression,
    state: &State<'_>,
) -> Result<Value> {
    of_range(alloc, row, &source.evaluate(alloc, state)?)
}

fn of_range(alloc: Global, row: &WorkedRow, range: &Range<'_>) -> Result<Value> {
    match row.name() {
        "evaluate" => listed(alloc, range),
        "count" => counted(range.count(alloc)?),
        "item" => owned(alloc, range.item(alloc, place(&row.on))),
        "copy" => listed(alloc, &range.copy(alloc)?),
        _ => no_call(alloc),
    }
}

/// The items of the range as a list.
fn listed(alloc: Global, range: &Range<'_>) -> Result<Value> {
    let mut list = Vec::new(alloc);
    for item in range.evaluate(alloc)? {
        list.push(item.into_owned(alloc)?)?;
    }
    Ok(Value::Array(list))
}

fn counted(count: usize) -> Result<Value> {
    Ok(number(i64::try_from(count).ok()))
}

fn place(value: &Value) -> usize {
    match value {
        Value::Integer(place) => usize::try_from(*place).unwrap_or(0),
        _ => 0,
    }
}

/// The amounts that a `for` asks for, and its window over as many items as the row's `on` says.
fn window_call(
    alloc: Global,
    row: &WorkedRow,
    asked: &WindowExpression,
    state: &State<'_>,
) -> Result<Value> {
    let limit = evaluate_amount(alloc, &asked.limit, state)?;
    let offset = evaluate_amount(alloc, &asked.offset, state)?;
    let window = Window::new(place(&row.on), limit, offset);
    match row.name() {
        "limit" => Ok(number(limit)),
        "from" => counted(window.from),
        "count" => counted(window.count),
        _ => no_call(alloc),
    }
}
