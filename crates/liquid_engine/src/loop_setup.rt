//! What is evaluated before the first turn of a loop, and what ends the loop.
ghost use Rattle.std.specs.Prelude.{◌≡◌, ◌<◌, ◌≤◌, List, IfOk, IfSome, None, codes, length};
ghost use Rattle.std.specs.Prelude.{option_map, string_bytes};
ghost use Rattle.liquid_model.specs.Answer.{Answers, IsValueOrMemory};
ghost use Rattle.liquid_model.specs.Data.{Datum};
ghost use Rattle.liquid_model.specs.View.{view};
ghost use Rattle.liquid_core.specs.ExpressionView.{expression_view};
ghost use Rattle.liquid_core.specs.States.{environment_of, layers_of, loops_of, with_interrupt};
ghost use Rattle.liquid_core.specs.LoopFrames.{parent_of};
ghost use Rattle.liquid_evaluation.specs.Evaluation.{selected_items};
ghost use Rattle.liquid_evaluation.specs.SourceView.{source_view};
ghost use Rattle.liquid_syntax.specs.Flats.{window_view};
ghost use Rattle.liquid_engine.specs.inside.LoopTurns.{AreRows, IsFor, cells_asked, cells_of};
ghost use Rattle.liquid_engine.specs.inside.LoopTurns.{items_asked, window_values, some_columns};
ghost use Rattle.liquid_engine.specs.inside.LoopTurns.{loop_values};
ghost use Rattle.liquid_meaning.specs.Effects.{is_break, variable_or_nil};
ghost use Rattle.liquid_meaning.specs.Loops.{columns_of};

use liquid_core::{
    Columns, Error, ErrorKind, Interrupt, LoopFrame, LoopKind, Result, State, Value,
};
use liquid_syntax::{For, TableRow, Window, WindowExpression, evaluate_amount};
use std::alloc::Global;

/// The first turn of a `for`, or nothing where no items are asked for. The source is evaluated
/// before the window.
#[inline(never)]
pub(crate) fn for_frame<'d>(
    alloc: Global,
    head: &'d For,
    state: &State<'d>,
) -> Result<Option<LoopFrame<'d>>>
    ensures items { Answers loop_values result (items_asked (source_view head.now.source)
        (window_view head.now.window) (environment_of state.now)) }
    ensures begins { IfOk result (λ t.
        IfSome t (IsFor (string_bytes head.now.variable) (environment_of state.now))) }
{
    let all = head.source.items(alloc, state)?;
    let window = evaluate_window(alloc, &head.window, all.count, state)?;
    if window.count == 0 {
        return Ok(None);
    }
    let parent = forloop_elsewhere(alloc, state)?;
    Ok(Some(LoopFrame {
        name: head.variable.as_str(),
        items: all.items,
        from: window.from,
        count: window.count,
        reversed: head.window.reversed,
        at: 0,
        kind: LoopKind::For(parent),
    }))
}

/// The first turn of a `tablerow` and its columns, or nothing where no items are asked for. The
/// source is evaluated first, then the number of columns, then the window; `ZeroColumns` where
/// there are items and no column.
#[inline(never)]
pub(crate) fn row_frame<'d>(
    alloc: Global,
    head: &'d TableRow,
    state: &State<'d>,
) -> Result<Option<(LoopFrame<'d>, Columns)>>
    ensures items { Answers cells_of result (cells_asked (source_view head.now.source)
        (window_view head.now.window) (option_map expression_view head.now.cols)
        (environment_of state.now)) }
    ensures begins { IfOk result (AreRows (string_bytes head.now.variable)) }
{
    let all = head.source.items(alloc, state)?;
    let asked = evaluate_amount(alloc, &head.cols, state)?;
    let window = evaluate_window(alloc, &head.window, all.count, state)?;
    if window.count == 0 {
        return Ok(None);
    }
    let columns = checked_columns(alloc, asked, window.count)?;
    let frame = LoopFrame {
        name: head.variable.as_str(),
        items: all.items,
        from: window.from,
        count: window.count,
        reversed: head.window.reversed,
        at: 0,
        kind: LoopKind::TableRow(columns),
    };
    Ok(Some((frame, columns)))
}

/// Which of `total` items are asked for. The limit is evaluated before the offset.
fn evaluate_window(
    alloc: Global,
    asked: &WindowExpression,
    total: usize,
    state: &State<'_>,
) -> Result<Window>
    ensures items { (ds : List Datum) → length ds ≡ total →
        Answers (λ w. window_values ds w.from w.count asked.now.reversed) result
        (selected_items (window_view asked.now) ds (environment_of state.now)) }
    ensures within { IfOk result (λ w. (w.from ≤ total) × (w.count ≤ total)) }
{
    let limit = evaluate_amount(alloc, &asked.limit, state)?;
    let offset = evaluate_amount(alloc, &asked.offset, state)?;
    Ok(Window::new(total, limit, offset))
}

/// What `forloop` is outside of any loop that is under way, for the `parentloop` of one that
/// begins.
fn forloop_elsewhere(alloc: Global, state: &State<'_>) -> Result<Value>
    ensures { IsValueOrMemory (λ v. parent_of ((environment_of state.now).local (codes "forloop"))
        (view v)) result (variable_or_nil (codes "forloop") (environment_of state.now)) }
{
    match state.look_up("forloop") {
        Some(value) => value.copy(alloc),
        None => Ok(Value::Nil),
    }
}

/// The number of columns for `total` items, or `ZeroColumns` where it is 0.
fn checked_columns(alloc: Global, asked: Option<i64>, total: usize) -> Result<Columns>
    requires { total ≤ 9223372036854775807 }
    ensures { Answers (λ c. c.count) result (some_columns (columns_of total asked)) }
{
    let count = column_count(asked, total);
    if count == 0 {
        return Err(Error::new(
            alloc,
            ErrorKind::ZeroColumns,
            "a `tablerow` with items needs a column",
        ));
    }
    Ok(Columns { count })
}

/// The number of columns that is asked for, or `total` where none or a negative one is.
fn column_count(asked: Option<i64>, total: usize) -> usize
    requires { total ≤ 9223372036854775807 }
    ensures columns { result ≡ columns_of total asked }
    ensures within { result ≤ 9223372036854775807 }
{
    match asked {
        Some(columns) => { if columns < 0 { total } else { columns as usize } }
        None => total,
    }
}

/// Clears the interrupt, as the end of each turn of a `for` does: whether it was a break.
pub(crate) fn takes_break(state: &mut State<'_>) -> bool
    ensures was { result ≡ is_break (environment_of state.old).registers.interrupt }
    ensures cleared { layers_of state.new ≡ with_interrupt None (layers_of state.old) }
    ensures loops { loops_of state.new ≡ loops_of state.old }
{
    ends_items(state.interrupt.take())
}

/// Whether the interrupt that the run for one item leaves ends the others.
pub(crate) fn ends_items(interrupt: Option<Interrupt>) -> bool
    ensures { result ≡ is_break interrupt }
{
    matches!(interrupt, Some(Interrupt::Break))
}
