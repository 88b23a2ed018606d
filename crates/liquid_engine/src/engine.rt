//! Runs of nodes.
//!
//! These calls recurse as deep as the nodes are nested, through blocks and partials. To keep a
//! level small on the stack, `#[inline(never)]` keeps everything but the recursive calls out of
//! the frames of [run_range], [run_node] and [run_chosen].
ghost use Rattle.std.specs.Prelude.{◌≡◌, ℕ, ◌<◌, ◌≤◌, IfOk, IsOk};
ghost use Rattle.liquid_core.specs.ExpressionView.{expression_view};
ghost use Rattle.liquid_core.specs.States.{environment_of, layers_of, loops_of};
ghost use Rattle.liquid_syntax.specs.Flats.{Maker, IsForestAt, IsNodeRange, NodeAt, IsNode};
ghost use Rattle.liquid_syntax.specs.Flats.{bindings_view, nodes_of};
ghost use Rattle.liquid_syntax.specs.Forest.{Forest};
ghost use Rattle.liquid_evaluation.specs.Names.{node_names, nodes_names};
ghost use Rattle.liquid_evaluation.specs.Tree as tree;
ghost use Rattle.liquid_engine.specs.inside.Choices.{NodeComesTo};
ghost use Rattle.liquid_engine.specs.inside.Engine.{setting_of, node_in, nodes_in};
ghost use Rattle.liquid_engine.specs.inside.Reserves.{limited_in, reserve_in};
ghost use Rattle.liquid_engine.specs.StateKept.{Keeps, IsRenderNode, AreRenderNodes};
ghost use Rattle.liquid_engine.specs.Performs.{Performs, configuration_of};
ghost use Rattle.liquid_engine.specs.Silent.{AreSilent, IsDoneOrStopped, IsSilent};
ghost use Rattle.liquid_engine.specs.Sinks.{sink_of};

mod buffers;
mod loops;
mod renders;

use crate::choice::{case_range, chosen_range, unless_range};
use crate::context::RunContext;
use crate::counted::CountedWrite;
use crate::counters::{run_decrement, run_increment};
use crate::cycle::run_cycle;
use crate::fault_location::{in_partial, located};
use crate::node_ends::next_after;
use crate::node_grants::grant_node;
use crate::node_turns::run_no_nodes;
use crate::output::{Output, Turns};
use crate::output_and_assign::{run_assign, run_output, run_raw, run_text};
use crate::partial::{enter_include, enter_jekyll_include};
use buffers::{run_capture, run_filtered, run_ifchanged};
use liquid_core::{Expression, Interrupt, NamedFilters, Result, State};
use liquid_syntax::{Binding, Node};
use loops::{run_for, run_tablerow};
use renders::{run_render, run_render_each};
use std::alloc::Global;

/// Runs the nodes of a range in order, up to the first fault or interrupt. The first node runs
/// whatever the interrupt was.
#[cycle(run)]
pub(crate) fn run_range<'d, W: CountedWrite, H: NamedFilters>(
    alloc: Global,
    context: &RunContext<'d, H>,
    nodes: &'d [Node],
    from: usize,
    to: usize,
    out: &mut Output<'_, W>,
    state: &mut State<'d>,
) -> Result<()>
    requires { IsNodeRange nodes.now from to }
    ensures performs { (f : Forest Maker) → IsForestAt nodes.now from f to →
        Performs result (nodes_in H.named context.now (nodes_of f))
        (configuration_of W.contents W.failure_count out.old state.old)
        (configuration_of W.contents W.failure_count out.new state.new) }
    ensures same_writer { out.new.writer.ghost_name ≡ out.old.writer.ghost_name }
    ensures bounded { reserve_in W.left out.new ≤ reserve_in W.left out.old }
    ensures limited { limited_in W.left out.new ≡ limited_in W.left out.old }
    ensures kept { (f : Forest Maker) → IsForestAt nodes.now from f to →
        Keeps (nodes_names (nodes_of f)) (setting_of H.named context.now) state.old state.new }
    ensures alone { (f : Forest Maker) → IsForestAt nodes.now from f to →
        AreRenderNodes (nodes_of f) →
        layers_of state.new ≡ layers_of state.old }
    ensures silent { (f : Forest Maker) → IsForestAt nodes.now from f to → AreSilent (nodes_of f) →
        IsDoneOrStopped result
        (sink_of W.contents W.failure_count out.old).failures
        (sink_of W.contents W.failure_count out.new).failures }
    ensures loops { loops_of state.new ≡ loops_of state.old }
{
    if from == to {
        return run_no_nodes(alloc, out);
    }
    let mut at = from;
    while at < to {
        if let Node::Text(text) = &nodes[at] {
            // a text ends by `Memory` or `Write` alone, and these have no location
            run_text(alloc, context, text.as_str(), out, state)?;
            if state.interrupt.is_some() {
                return Ok(());
            }
            at += 1;
            continue;
        }
        let turns = grant_node(alloc, nodes, at, to, out, state)?;
        if let Err(fault) = run_node(alloc, context, nodes, at, to, turns, out, state) {
            return Err(located(alloc, context, nodes, at, state, fault));
        }
        if state.interrupt.is_some() {
            return Ok(());
        }
        at = next_after(nodes, at, to);
    }
    Ok(())
}

/// Runs one node, in the turns that were granted to it.
#[cycle(run)]
fn run_node<'d, W: CountedWrite, H: NamedFilters>(
    alloc: Global,
    context: &RunContext<'d, H>,
    nodes: &'d [Node],
    at: usize,
    to: usize,
    _: Turns,
    out: &mut Output<'_, W>,
    state: &mut State<'d>,
) -> Result<()>
    requires { IsNode nodes.now at to }
    ensures performs { (n : tree.Node) (next : ℕ) → NodeAt nodes.now at n next →
        Performs result (node_in H.named context.now n)
        (configuration_of W.contents W.failure_count out.old state.old)
        (configuration_of W.contents W.failure_count out.new state.new) }
    ensures same_writer { out.new.writer.ghost_name ≡ out.old.writer.ghost_name }
    ensures bounded { reserve_in W.left out.new ≤ reserve_in W.left out.old }
    ensures limited { limited_in W.left out.new ≡ limited_in W.left out.old }
    ensures kept { (n : tree.Node) (next : ℕ) → NodeAt nodes.now at n next →
        Keeps (node_names n) (setting_of H.named context.now) state.old state.new }
    ensures alone { (n : tree.Node) (next : ℕ) → NodeAt nodes.now at n next → IsRenderNode n →
        layers_of state.new ≡
        layers_of state.old }
    ensures silent { (n : tree.Node) (next : ℕ) → NodeAt nodes.now at n next →
        IsSilent n → IsOk result }
    ensures loops { loops_of state.new ≡ loops_of state.old }
{
    match &nodes[at] {
        Node::Text(text) => run_text(alloc, context, text.as_str(), out, state),
        Node::Output(chain) => run_output(alloc, context, chain, out, state),
        Node::Assign(name, chain) => run_assign(alloc, context, name.as_str(), chain, out, state),
        Node::Raw(text) => run_raw(alloc, context, text.as_str(), out, state),
        Node::Comment => Ok(()),
        Node::If(condition, bodies) => {
            let chosen = chosen_range(alloc, nodes, at, condition, *bodies, &context.places, state);
            run_chosen(alloc, context, nodes, at, to, chosen, out, state)
        }
        Node::Unless(condition, bodies) => {
            let chosen = unless_range(alloc, nodes, at, condition, *bodies, state);
            run_chosen(alloc, context, nodes, at, to, chosen, out, state)
        }
        Node::Break => {
            state.interrupt = Some(Interrupt::Break);
            Ok(())
        }
        Node::Continue => {
            state.interrupt = Some(Interrupt::Continue);
            Ok(())
        }
        Node::Increment(name) => run_increment(alloc, context, name.as_str(), out, state),
        Node::Decrement(name) => run_decrement(alloc, context, name.as_str(), out, state),
        Node::IfChanged(end) => run_ifchanged(alloc, context, nodes, at, *end, out, state),
        Node::Capture(name, end) => run_capture(
            alloc,
            context,
            nodes,
            at,
            name.as_str(),
            *end,
            out,
            state,
        ),
        Node::Filtered(filters, end) => run_filtered(
            alloc, context, nodes, at, filters, *end, out, state,
        ),
        Node::Include(name, bindings) => { run_include(alloc, context, name, bindings, out, state) }
        Node::JekyllInclude(name, bindings) => run_jekyll_include(
            alloc,
            context,
            name.as_str(),
            bindings,
            out,
            state,
        ),
        Node::Render(name, bindings) => run_render(alloc, context, name, &*bindings, out, &*state),
        Node::RenderEach(name, each, bindings) => {
            run_render_each(alloc, context, name, each, &*bindings, out, &*state)
        }
        Node::Cycle(group, values) => run_cycle(alloc, context, group.as_str(), values, out, state),
        Node::Case(target, arms, last) => {
            let chosen = case_range(alloc, nodes, at, target, arms, *last, state);
            run_chosen(alloc, context, nodes, at, to, chosen, out, state)
        }
        Node::For(head, bodies) => { run_for(alloc, context, nodes, at, head, *bodies, out, state) }
        Node::TableRow(head, end) => {
            run_tablerow(alloc, context, nodes, at, head, *end, out, state)
        }
    }
}

/// Runs the nodes that an `if`, an `unless` or a `case` came to, after `at`, or ends as its choice
/// did.
#[cycle(run)]
fn run_chosen<'d, W: CountedWrite, H: NamedFilters>(
    alloc: Global,
    context: &RunContext<'d, H>,
    nodes: &'d [Node],
    at: usize,
    to: usize,
    chosen: Result<(usize, usize)>,
    out: &mut Output<'_, W>,
    state: &mut State<'d>,
) -> Result<()>
    requires { IfOk chosen (λ range. (at < range.0) × (range.1 ≤ to) ×
        IsNodeRange nodes.now range.0 range.1) }
    ensures performs { (n : tree.Node) → NodeComesTo nodes.now (environment_of state.old) n chosen →
        Performs result (node_in H.named context.now n)
        (configuration_of W.contents W.failure_count out.old state.old)
        (configuration_of W.contents W.failure_count out.new state.new) }
    ensures same_writer { out.new.writer.ghost_name ≡ out.old.writer.ghost_name }
    ensures bounded { reserve_in W.left out.new ≤ reserve_in W.left out.old }
    ensures limited { limited_in W.left out.new ≡ limited_in W.left out.old }
    ensures kept { (n : tree.Node) → NodeComesTo nodes.now (environment_of state.old) n chosen →
        Keeps (node_names n) (setting_of H.named context.now) state.old state.new }
    ensures loops { loops_of state.new ≡ loops_of state.old }
{
    match chosen {
        Ok(range) => run_range(alloc, context, nodes, range.0, range.1, out, state),
        Err(fault) => Err(fault),
    }
}

/// Runs a partial over the caller's names, with the pairs as a scope.
#[cycle(run)]
#[inline(never)]
fn run_include<'d, W: CountedWrite, H: NamedFilters>(
    alloc: Global,
    context: &RunContext<'d, H>,
    name: &Expression,
    bindings: &[Binding],
    out: &mut Output<'_, W>,
    state: &mut State<'d>,
) -> Result<()>
    ensures performs { Performs result
        (node_in H.named context.now (tree.include (expression_view name.now)
        (bindings_view bindings.now)))
        (configuration_of W.contents W.failure_count out.old state.old)
        (configuration_of W.contents W.failure_count out.new state.new) }
    ensures same_writer { out.new.writer.ghost_name ≡ out.old.writer.ghost_name }
    ensures bounded { reserve_in W.left out.new ≤ reserve_in W.left out.old }
    ensures limited { limited_in W.left out.new ≡ limited_in W.left out.old }
    ensures kept { Keeps
        (node_names (tree.include (expression_view name.now) (bindings_view bindings.now)))
        (setting_of H.named context.now) state.old state.new }
    ensures loops { loops_of state.new ≡ loops_of state.old }
{
    let (called, inner) = enter_include(alloc, context, name, bindings, state)?;
    let nodes = inner.partial.nodes();
    let answer = run_range(alloc, &inner.context, nodes, 0, nodes.len(), out, state);
    state.pop_scope();
    in_partial(alloc, called.as_str(), answer)
}

/// Runs a partial over the caller's names, with the pairs in one object as a scope.
#[cycle(run)]
#[inline(never)]
fn run_jekyll_include<'d, W: CountedWrite, H: NamedFilters>(
    alloc: Global,
    context: &RunContext<'d, H>,
    name: &str,
    bindings: &[Binding],
    out: &mut Output<'_, W>,
    state: &mut State<'d>,
) -> Result<()>
    ensures performs { Performs result
        (node_in H.named context.now
        (tree.jekyll_include name.now (bindings_view bindings.now)))
        (configuration_of W.contents W.failure_count out.old state.old)
        (configuration_of W.contents W.failure_count out.new state.new) }
    ensures same_writer { out.new.writer.ghost_name ≡ out.old.writer.ghost_name }
    ensures bounded { reserve_in W.left out.new ≤ reserve_in W.left out.old }
    ensures limited { limited_in W.left out.new ≡ limited_in W.left out.old }
    ensures kept { Keeps (node_names (tree.jekyll_include name.now (bindings_view bindings.now)))
        (setting_of H.named context.now) state.old state.new }
    ensures loops { loops_of state.new ≡ loops_of state.old }
{
    let inner = enter_jekyll_include(alloc, context, name, bindings, state)?;
    let nodes = inner.partial.nodes();
    let answer = run_range(alloc, &inner.context, nodes, 0, nodes.len(), out, state);
    state.pop_scope();
    in_partial(alloc, name, answer)
}
