//! Which item of a tag a fault is about: of loops, of `case` and `cycle`, and of tags that run a
//! partial.
use crate::fault_item::{first_missing, is_missing};
use liquid_core::{ErrorKind, Expression, Missing, Result, State, Value};
use liquid_syntax::{
    Arm, Binding, Each, For, Node, PieceItem, RangeExpression, TableRow, WindowExpression,
};
use std::alloc::Global;

/// The source of a loop after its variable and `in`, and that of a `render` after `for`.
const SOURCE: usize = 2;

/// The item of a `case`: its target, or the first value of a `when` that is missing.
pub(crate) fn item_of_case(
    alloc: Global,
    target: &Expression,
    arms: &[Arm],
    state: &State<'_>,
) -> Result<PieceItem> {
    if is_missing(alloc, target, state)? {
        return Ok(PieceItem::At(0));
    }
    for (index, arm) in arms.iter().enumerate() {
        if let Some(value) = first_missing(alloc, &arm.values, state)? {
            return Ok(PieceItem::WhenValue(index, value));
        }
    }
    Ok(PieceItem::Whole)
}

/// The item of a `for`: its source, then its limit, then its offset.
pub(crate) fn item_of_for(
    alloc: Global,
    head: &For,
    state: &State<'_>,
    kind: ErrorKind,
) -> Result<PieceItem> {
    match item_of_source(alloc, &head.source, state, kind)? {
        Some(item) => Ok(item),
        None => item_of_window(alloc, &head.window, state),
    }
}

/// The item of a `tablerow`: its source, then its columns, then its limit, then its offset.
pub(crate) fn item_of_tablerow(
    alloc: Global,
    head: &TableRow,
    state: &State<'_>,
    kind: ErrorKind,
) -> Result<PieceItem> {
    if matches!(kind, ErrorKind::ZeroColumns) {
        return Ok(PieceItem::Part("cols"));
    }
    if let Some(item) = item_of_source(alloc, &head.source, state, kind)? {
        return Ok(item);
    }
    if is_no_amount(alloc, &head.cols, state)? {
        return Ok(PieceItem::Part("cols"));
    }
    item_of_window(alloc, &head.window, state)
}

/// The source of a loop, or the value of its range, where it ends by a fault of this kind.
fn item_of_source(
    alloc: Global,
    source: &RangeExpression,
    state: &State<'_>,
    kind: ErrorKind,
) -> Result<Option<PieceItem>> {
    if matches!(kind, ErrorKind::RangeTooLong) {
        return Ok(Some(PieceItem::At(SOURCE)));
    }
    match source {
        RangeExpression::Array(value) => Ok(if has_items(alloc, value, state)? {
            None
        } else {
            Some(PieceItem::At(SOURCE))
        }),
        RangeExpression::Counted(first, last) => {
            if !is_whole(alloc, first, state)? {
                return Ok(Some(PieceItem::First(SOURCE)));
            }
            if !is_whole(alloc, last, state)? {
                return Ok(Some(PieceItem::Last(SOURCE)));
            }
            Ok(None)
        }
    }
}

fn item_of_window(
    alloc: Global,
    window: &WindowExpression,
    state: &State<'_>,
) -> Result<PieceItem> {
    if is_no_amount(alloc, &window.limit, state)? {
        return Ok(PieceItem::Part("limit"));
    }
    if is_no_amount(alloc, &window.offset, state)? {
        return Ok(PieceItem::Part("offset"));
    }
    Ok(PieceItem::Whole)
}

/// Whether a loop goes over the value of an expression. Where a missing value is nil, it goes over
/// none.
fn has_items(alloc: Global, expression: &Expression, state: &State<'_>) -> Result<bool> {
    Ok(match expression.try_evaluate(alloc, state)? {
        Some(found) => matches!(
            found.as_value(),
            Value::Nil | Value::Array(_) | Value::Object(_)
        ),
        None => is_lenient(state),
    })
}

/// Whether an expression is given that has no whole number.
fn is_no_amount(alloc: Global, given: &Option<Expression>, state: &State<'_>) -> Result<bool> {
    match given {
        Some(expression) => Ok(!is_whole(alloc, expression, state)?),
        None => Ok(false),
    }
}

/// Whether an expression has a whole number. Where a missing value is nil, it may also be that.
fn is_whole(alloc: Global, expression: &Expression, state: &State<'_>) -> Result<bool> {
    Ok(match expression.try_evaluate(alloc, state)? {
        Some(found) => match found.as_value() {
            Value::Nil => is_lenient(state),
            value => value.to_integer().is_some(),
        },
        None => is_lenient(state),
    })
}

/// Whether a missing value is nil.
fn is_lenient(state: &State<'_>) -> bool {
    matches!(state.missing(), Missing::IsNil)
}

/// The value of a `cycle` without a value. The index of its group has moved on by one.
pub(crate) fn item_of_cycle(
    group: &str,
    count: usize,
    state: &State<'_>,
    kind: ErrorKind,
) -> PieceItem {
    if !matches!(kind, ErrorKind::UnknownVariable) {
        return PieceItem::Whole;
    }
    match state.cycles.get(group) {
        None => PieceItem::Whole,
        Some(0) => PieceItem::CycleValue(count.saturating_sub(1)),
        Some(next) => PieceItem::CycleValue(next.saturating_sub(1)),
    }
}

/// The item of a tag that runs a partial: its name, what it runs for, or the value of a pair; and
/// the name of a counter.
pub(crate) fn item_of_other(
    alloc: Global,
    node: &Node,
    state: &State<'_>,
    kind: ErrorKind,
) -> Result<PieceItem> {
    match node {
        Node::Include(name, pairs) | Node::Render(name, pairs) => {
            item_of_call(alloc, name, pairs, state, kind)
        }
        Node::RenderEach(name, each, pairs) => {
            item_of_each(alloc, name, each, pairs, state, kind)
        }
        Node::JekyllInclude(_, pairs) => {
            if matches!(kind, ErrorKind::UnknownVariable) {
                return item_of_pairs(alloc, pairs, state);
            }
            Ok(PieceItem::At(0))
        }
        Node::Increment(_) | Node::Decrement(_) => Ok(PieceItem::At(0)),
        // the filters of a block of the host don't stand in its tag
        _ => Ok(PieceItem::Whole),
    }
}

fn item_of_call(
    alloc: Global,
    name: &Expression,
    pairs: &[Binding],
    state: &State<'_>,
    kind: ErrorKind,
) -> Result<PieceItem> {
    if !matches!(kind, ErrorKind::UnknownVariable) {
        return Ok(PieceItem::At(0));
    }
    if is_missing(alloc, name, state)? {
        return Ok(PieceItem::At(0));
    }
    item_of_pairs(alloc, pairs, state)
}

fn item_of_each(
    alloc: Global,
    name: &Expression,
    each: &Each,
    pairs: &[Binding],
    state: &State<'_>,
    kind: ErrorKind,
) -> Result<PieceItem> {
    let of_source = matches!(
        kind,
        ErrorKind::UnknownVariable | ErrorKind::UnexpectedValue | ErrorKind::RangeTooLong
    );
    if !of_source {
        return Ok(PieceItem::At(0));
    }
    if is_missing(alloc, name, state)? {
        return Ok(PieceItem::At(0));
    }
    match item_of_source(alloc, &each.source, state, kind)? {
        Some(item) => Ok(item),
        None => item_of_pairs(alloc, pairs, state),
    }
}

/// The value of the first pair that has none.
fn item_of_pairs(alloc: Global, pairs: &[Binding], state: &State<'_>) -> Result<PieceItem> {
    for (index, pair) in pairs.iter().enumerate() {
        if is_missing(alloc, &pair.value, state)? {
            return Ok(PieceItem::Pair(index));
        }
    }
    Ok(PieceItem::Whole)
}
