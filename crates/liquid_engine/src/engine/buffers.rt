//! Runs of blocks whose body is written into a buffer: `capture`, `ifchanged` and a host's.
ghost use Rattle.std.specs.Prelude.{◌≡◌, ◌≤◌, ◌+◌, map};
ghost use Rattle.liquid_core.specs.States.{loops_of};
ghost use Rattle.liquid_evaluation.specs.ChainView.{chain_filter_view};
ghost use Rattle.liquid_evaluation.specs.Names.{node_names};
ghost use Rattle.liquid_evaluation.specs.Tree as tree;
ghost use Rattle.liquid_syntax.specs.Flats.{Maker, IsForestAt, IsNodeRange, nodes_of};
ghost use Rattle.liquid_syntax.specs.Forest.{Forest};
ghost use Rattle.liquid_engine.specs.inside.Engine.{setting_of, node_in};
ghost use Rattle.liquid_engine.specs.inside.Reserves.{limited_in, reserve_in};
ghost use Rattle.liquid_engine.specs.StateKept.{Keeps};
ghost use Rattle.liquid_engine.specs.Performs.{Performs, configuration_of};

use super::run_range;
use crate::context::RunContext;
use crate::counted::CountedWrite;
use crate::filtered::write_filtered;
use crate::ifchanged::show_if_changed;
use crate::output::Output;
use liquid_core::{NamedFilters, Result, State, Value};
use liquid_syntax::{ChainFilter, Node};
use std::alloc::Global;

/// Runs the body into a buffer, and sets an assigned variable to its text.
#[cycle(run)]
#[inline(never)]
pub(super) fn run_capture<'d, W: CountedWrite, H: NamedFilters>(
    alloc: Global,
    context: &RunContext<'d, H>,
    nodes: &'d [Node],
    at: usize,
    name: &str,
    end: usize,
    out: &mut Output<'_, W>,
    state: &mut State<'d>,
) -> Result<()>
    requires body { IsNodeRange nodes.now (at + 1) end }
    ensures performs { (b : Forest Maker) → IsForestAt nodes.now (at + 1) b end →
        Performs result (node_in H.named context.now (tree.capture name.now (nodes_of b)))
        (configuration_of W.contents W.failure_count out.old state.old)
        (configuration_of W.contents W.failure_count out.new state.new) }
    ensures same_writer { out.new.writer.ghost_name ≡ out.old.writer.ghost_name }
    ensures bounded { reserve_in W.left out.new ≤ reserve_in W.left out.old }
    ensures limited { limited_in W.left out.new ≡ limited_in W.left out.old }
    ensures kept { (b : Forest Maker) → IsForestAt nodes.now (at + 1) b end →
        Keeps (node_names (tree.capture name.now (nodes_of b))) (setting_of H.named context.now)
        state.old state.new }
    ensures loops { loops_of state.new ≡ loops_of state.old }
{
    let outer = out.open(alloc);
    let answer = run_range(alloc, context, nodes, at + 1, end, out, state);
    let text = out.close(outer);
    answer?;
    state.set_global(String::from_str(alloc, name)?, Value::Text(text))
}

/// Runs the body into a buffer, and writes its text where it differs from the last one, as the body
/// left that.
#[cycle(run)]
#[inline(never)]
pub(super) fn run_ifchanged<'d, W: CountedWrite, H: NamedFilters>(
    alloc: Global,
    context: &RunContext<'d, H>,
    nodes: &'d [Node],
    at: usize,
    end: usize,
    out: &mut Output<'_, W>,
    state: &mut State<'d>,
) -> Result<()>
    requires { IsNodeRange nodes.now (at + 1) end }
    ensures performs { (b : Forest Maker) → IsForestAt nodes.now (at + 1) b end →
        Performs result (node_in H.named context.now (tree.ifchanged (nodes_of b)))
        (configuration_of W.contents W.failure_count out.old state.old)
        (configuration_of W.contents W.failure_count out.new state.new) }
    ensures same_writer { out.new.writer.ghost_name ≡ out.old.writer.ghost_name }
    ensures bounded { reserve_in W.left out.new ≤ reserve_in W.left out.old }
    ensures limited { limited_in W.left out.new ≡ limited_in W.left out.old }
    ensures kept { (b : Forest Maker) → IsForestAt nodes.now (at + 1) b end →
        Keeps (node_names (tree.ifchanged (nodes_of b))) (setting_of H.named context.now) state.old
        state.new }
    ensures loops { loops_of state.new ≡ loops_of state.old }
{
    let outer = out.open(alloc);
    let ended = run_range(alloc, context, nodes, at + 1, end, out, state);
    let text = out.close(outer);
    ended?;
    show_if_changed(alloc, text, out, state)
}

/// Runs the body into a buffer, and writes what its text becomes through the filters.
#[cycle(run)]
#[inline(never)]
pub(super) fn run_filtered<'d, W: CountedWrite, H: NamedFilters>(
    alloc: Global,
    context: &RunContext<'d, H>,
    nodes: &'d [Node],
    at: usize,
    filters: &[ChainFilter],
    end: usize,
    out: &mut Output<'_, W>,
    state: &mut State<'d>,
) -> Result<()>
    requires { IsNodeRange nodes.now (at + 1) end }
    ensures performs { (b : Forest Maker) → IsForestAt nodes.now (at + 1) b end →
        Performs result (node_in H.named context.now
        (tree.filtered (map chain_filter_view filters.now) (nodes_of b)))
        (configuration_of W.contents W.failure_count out.old state.old)
        (configuration_of W.contents W.failure_count out.new state.new) }
    ensures same_writer { out.new.writer.ghost_name ≡ out.old.writer.ghost_name }
    ensures bounded { reserve_in W.left out.new ≤ reserve_in W.left out.old }
    ensures limited { limited_in W.left out.new ≡ limited_in W.left out.old }
    ensures kept { (b : Forest Maker) → IsForestAt nodes.now (at + 1) b end →
        Keeps (node_names (tree.filtered (map chain_filter_view filters.now) (nodes_of b)))
        (setting_of H.named context.now) state.old state.new }
    ensures loops { loops_of state.new ≡ loops_of state.old }
{
    let outer = out.open(alloc);
    let ran = run_range(alloc, context, nodes, at + 1, end, out, state);
    let text = out.close(outer);
    ran?;
    write_filtered(alloc, context, filters, text, out, state)
}
