//! Runs of `for` and `tablerow`.
ghost use Rattle.std.specs.Prelude.{◌≡◌, ◌≤◌, ◌+◌, List, option_map, string_bytes};
ghost use Rattle.liquid_core.specs.ExpressionView.{expression_view};
ghost use Rattle.liquid_core.specs.States.{loops_of};
ghost use Rattle.liquid_core.specs.LoopFrames.{without_innermost};
ghost use Rattle.liquid_core.specs.declared.frame.Scope.{Scope};
ghost use Rattle.liquid_core.specs.declared.frame.LoopFrame.{LoopFrame};
ghost use Rattle.liquid_evaluation.specs.Names.{node_names, nodes_names};
ghost use Rattle.liquid_evaluation.specs.SourceView.{source_view};
ghost use Rattle.liquid_evaluation.specs.Tree as tree;
ghost use Rattle.liquid_syntax.specs.Flats.{Maker, IsForestAt, IsNodeRange, nodes_of, window_view};
ghost use Rattle.liquid_syntax.specs.Forest.{Forest};
ghost use Rattle.liquid_engine.specs.inside.Engine.{setting_of, node_in, nodes_in};
ghost use Rattle.liquid_engine.specs.StateKept.{Keeps};
ghost use Rattle.liquid_engine.specs.inside.LoopRuns.{KeepsEnclosing, StartsAt, cells_meant};
ghost use Rattle.liquid_engine.specs.inside.LoopRuns.{enclosing_configuration, enclosing_names};
ghost use Rattle.liquid_engine.specs.inside.LoopRuns.{turns_meant};
ghost use Rattle.liquid_engine.specs.inside.Reserves.{limited_in, reserve_in};
ghost use Rattle.liquid_engine.specs.Performs.{Performs, configuration_of};

use super::run_range;
use crate::blocks::Row;
use crate::context::RunContext;
use crate::counted::CountedWrite;
use crate::loop_setup::{for_frame, row_frame, takes_break};
use crate::output::Output;
use liquid_core::{NamedFilters, Result, State};
use liquid_syntax::{BodyEnds, For, Node, TableRow};
use std::alloc::Global;

/// Runs the body for each item, or the nodes of `else` where there is none.
#[cycle(run)]
#[inline(never)]
pub(super) fn run_for<'d, W: CountedWrite, H: NamedFilters>(
    alloc: Global,
    context: &RunContext<'d, H>,
    nodes: &'d [Node],
    at: usize,
    head: &'d For,
    bodies: BodyEnds,
    out: &mut Output<'_, W>,
    state: &mut State<'d>,
) -> Result<()>
    requires body { IsNodeRange nodes.now (at + 1) bodies.first_end }
    requires otherwise { IsNodeRange nodes.now bodies.first_end bodies.last_end }
    ensures performs { (b d : Forest Maker) → IsForestAt nodes.now (at + 1) b bodies.first_end →
        IsForestAt nodes.now bodies.first_end d bodies.last_end →
        Performs result (node_in H.named context.now (tree.for_each (string_bytes head.now.variable)
        (source_view head.now.source) (window_view head.now.window) (nodes_of b)
        (nodes_of d)))
        (configuration_of W.contents W.failure_count out.old state.old)
        (configuration_of W.contents W.failure_count out.new state.new) }
    ensures same_writer { out.new.writer.ghost_name ≡ out.old.writer.ghost_name }
    ensures bounded { reserve_in W.left out.new ≤ reserve_in W.left out.old }
    ensures limited { limited_in W.left out.new ≡ limited_in W.left out.old }
    ensures kept { (b d : Forest Maker) → IsForestAt nodes.now (at + 1) b bodies.first_end →
        IsForestAt nodes.now bodies.first_end d bodies.last_end →
        Keeps (node_names (tree.for_each (string_bytes head.now.variable)
        (source_view head.now.source) (window_view head.now.window) (nodes_of b)
        (nodes_of d))) (setting_of H.named context.now) state.old state.new }
    ensures loops { loops_of state.new ≡ loops_of state.old }
{
    let Some(frame) = for_frame(alloc, head, state)? else {
        return run_range(
            alloc,
            context,
            nodes,
            bodies.first_end,
            bodies.last_end,
            out,
            state,
        );
    };
    let count = frame.count;
    state.push_frame(frame)?;
    let answer = run_turns(
        alloc,
        context,
        nodes,
        at + 1,
        bodies.first_end,
        count,
        out,
        state,
    );
    state.pop_scope();
    answer
}

/// Runs a range for each item of the innermost loop, up to one that leaves a break.
#[cycle(run)]
#[inline(never)]
fn run_turns<'d, W: CountedWrite, H: NamedFilters>(
    alloc: Global,
    context: &RunContext<'d, H>,
    nodes: &'d [Node],
    from: usize,
    to: usize,
    count: usize,
    out: &mut Output<'_, W>,
    state: &mut State<'d>,
) -> Result<()>
    requires range { IsNodeRange nodes.now from to }
    requires start { (before : List Scope) × ((t : LoopFrame) × StartsAt count state.old before t) }
    ensures performs { (f : Forest Maker) → IsForestAt nodes.now from f to →
        (before : List Scope) (t : LoopFrame) → StartsAt count state.old before t →
        Performs result
        (turns_meant t (enclosing_names state.old) (nodes_in H.named context.now (nodes_of f)))
        (enclosing_configuration W.contents W.failure_count out.old state.old)
        (enclosing_configuration W.contents W.failure_count out.new state.new) }
    ensures same_writer { out.new.writer.ghost_name ≡ out.old.writer.ghost_name }
    ensures bounded { reserve_in W.left out.new ≤ reserve_in W.left out.old }
    ensures limited { limited_in W.left out.new ≡ limited_in W.left out.old }
    ensures kept { (f : Forest Maker) → IsForestAt nodes.now from f to →
        KeepsEnclosing (nodes_names (nodes_of f)) (setting_of H.named context.now) state.old
        state.new }
    ensures loops { without_innermost (loops_of state.new) ≡
        without_innermost (loops_of state.old) }
{
    let mut place = 0;
    'turns: loop {
        run_range(alloc, context, nodes, from, to, out, state)?;
        if takes_break(state) {
            return Ok(());
        }
        place += 1;
        if place == count {
            return Ok(());
        }
        state.advance();
    }
}

/// Runs the body for each item, in rows of cells.
#[cycle(run)]
#[inline(never)]
pub(super) fn run_tablerow<'d, W: CountedWrite, H: NamedFilters>(
    alloc: Global,
    context: &RunContext<'d, H>,
    nodes: &'d [Node],
    at: usize,
    head: &'d TableRow,
    end: usize,
    out: &mut Output<'_, W>,
    state: &mut State<'d>,
) -> Result<()>
    requires { IsNodeRange nodes.now (at + 1) end }
    ensures performs { (b : Forest Maker) → IsForestAt nodes.now (at + 1) b end →
        Performs result (node_in H.named context.now (tree.tablerow (string_bytes head.now.variable)
        (source_view head.now.source) (window_view head.now.window)
        (option_map expression_view head.now.cols) (nodes_of b)))
        (configuration_of W.contents W.failure_count out.old state.old)
        (configuration_of W.contents W.failure_count out.new state.new) }
    ensures same_writer { out.new.writer.ghost_name ≡ out.old.writer.ghost_name }
    ensures bounded { reserve_in W.left out.new ≤ reserve_in W.left out.old }
    ensures limited { limited_in W.left out.new ≡ limited_in W.left out.old }
    ensures kept { (b : Forest Maker) → IsForestAt nodes.now (at + 1) b end →
        Keeps (node_names (tree.tablerow (string_bytes head.now.variable)
        (source_view head.now.source) (window_view head.now.window)
        (option_map expression_view head.now.cols) (nodes_of b)))
        (setting_of H.named context.now) state.old state.new }
    ensures loops { loops_of state.new ≡ loops_of state.old }
{
    let Some((frame, columns)) = row_frame(alloc, head, state)? else {
        return Ok(());
    };
    let row = Row {
        count: frame.count,
        columns,
    };
    state.push_frame(frame)?;
    let answer = run_cells(alloc, context, nodes, at + 1, end, row, out, state);
    state.pop_scope();
    answer
}

/// Runs a range for each item of the innermost loop, each in a cell of its own.
#[cycle(run)]
#[inline(never)]
fn run_cells<'d, W: CountedWrite, H: NamedFilters>(
    alloc: Global,
    context: &RunContext<'d, H>,
    nodes: &'d [Node],
    from: usize,
    to: usize,
    row: Row,
    out: &mut Output<'_, W>,
    state: &mut State<'d>,
) -> Result<()>
    requires range { IsNodeRange nodes.now from to }
    requires start { (before : List Scope) ×
        ((t : LoopFrame) × StartsAt row.count state.old before t) }
    ensures performs { (f : Forest Maker) → IsForestAt nodes.now from f to →
        (before : List Scope) (t : LoopFrame) → StartsAt row.count state.old before t →
        Performs result (cells_meant t row.columns.count (enclosing_names state.old)
        (nodes_in H.named context.now (nodes_of f)))
        (enclosing_configuration W.contents W.failure_count out.old state.old)
        (enclosing_configuration W.contents W.failure_count out.new state.new) }
    ensures same_writer { out.new.writer.ghost_name ≡ out.old.writer.ghost_name }
    ensures bounded { reserve_in W.left out.new ≤ reserve_in W.left out.old }
    ensures limited { limited_in W.left out.new ≡ limited_in W.left out.old }
    ensures kept { (f : Forest Maker) → IsForestAt nodes.now from f to →
        KeepsEnclosing (nodes_names (nodes_of f)) (setting_of H.named context.now) state.old
        state.new }
    ensures loops { without_innermost (loops_of state.new) ≡
        without_innermost (loops_of state.old) }
{
    let mut place = 0;
    'cells: loop {
        row.open(alloc, place, out)?;
        run_range(alloc, context, nodes, from, to, out, state)?;
        row.close(alloc, place, out)?;
        place += 1;
        if place == row.count {
            return Ok(());
        }
        state.advance();
    }
}
