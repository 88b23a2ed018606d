//! The turns of a node, which a run asks for before the node runs.
ghost use Rattle.std.specs.Prelude.{◌≡◌, ◌≤◌, ℕ, ◌+◌, [], OnOk, OnErr};
ghost use Rattle.liquid_evaluation.specs.ConditionView.{condition_view};
ghost use Rattle.liquid_evaluation.specs.Tree as tree;
ghost use Rattle.liquid_syntax.specs.Flats.{Maker, IsForestAt, IsNode, IsNodeRange, NodeAt};
ghost use Rattle.liquid_syntax.specs.Flats.{arm_values, nodes_of};
ghost use Rattle.liquid_syntax.specs.Forest.{Forest};
ghost use Rattle.liquid_engine.specs.Failures.{OneFailed};
ghost use Rattle.liquid_engine.specs.Limits.{TakesTurns};
ghost use Rattle.liquid_engine.specs.Performs.{Cut, WritesText};
ghost use Rattle.liquid_engine.specs.Silent.{IsDoneOrStopped};
ghost use Rattle.liquid_engine.specs.Sinks.{sink_of};
ghost use Rattle.liquid_engine.specs.inside.NodeTurns.{comparisons, counted_turns};
ghost use Rattle.liquid_engine.specs.inside.NodeTurns.{elsif_comparisons, listed_values};
ghost use Rattle.liquid_engine.specs.inside.NodeTurns.{node_turns};
ghost use Rattle.liquid_engine.specs.inside.Reserves.{limited_in, reserve_in};

use crate::counted::CountedWrite;
use crate::output::{Output, Turns};
use liquid_core::Result;
use liquid_syntax::{Arm, Condition, Node};
use std::alloc::Global;

/// Asks the writer for the turns of a node: `Write` where it refuses them. How many they are isn't
/// counted where nothing limits them.
pub(crate) fn turns_of_node<W: CountedWrite>(
    alloc: Global,
    nodes: &[Node],
    at: usize,
    to: usize,
    out: &mut Output<'_, W>,
) -> Result<Turns>
    requires { IsNode nodes.now at to }
    ensures goes_on { OnOk result (sink_of W.contents W.failure_count out.new ≡
        sink_of W.contents W.failure_count out.old) }
    ensures takes { OnOk result ((n : tree.Node) (next : ℕ) → NodeAt nodes.now at n next →
        TakesTurns (counted_turns (node_turns n)) (W.left out.old.writer.now)
        (W.left out.new.writer.now)) }
    ensures refused { OnErr result (Cut result []
        (sink_of W.contents W.failure_count out.old)
        (sink_of W.contents W.failure_count out.new)) }
    ensures stopped { OnErr result (OneFailed
        (sink_of W.contents W.failure_count out.old).failures
        (sink_of W.contents W.failure_count out.new).failures) }
    ensures same_writer { out.new.writer.ghost_name ≡ out.old.writer.ghost_name }
    ensures bounded { reserve_in W.left out.new ≤ reserve_in W.left out.old }
    ensures limited { limited_in W.left out.new ≡ limited_in W.left out.old }
{
    let count = if out.counts_turns() {
        turns_at(nodes, at, to)
    } else {
        1
    };
    out.turns(alloc, count)
}

/// Runs a list without nodes: it takes one turn, so that a loop with an empty body ends too.
pub(crate) fn run_no_nodes<W: CountedWrite>(alloc: Global, out: &mut Output<'_, W>) -> Result<()>
    ensures writes { WritesText result []
        (sink_of W.contents W.failure_count out.old)
        (sink_of W.contents W.failure_count out.new) }
    ensures takes { OnOk result
        (TakesTurns 1 (W.left out.old.writer.now) (W.left out.new.writer.now)) }
    ensures stopped { IsDoneOrStopped result
        (sink_of W.contents W.failure_count out.old).failures
        (sink_of W.contents W.failure_count out.new).failures }
    ensures same_writer { out.new.writer.ghost_name ≡ out.old.writer.ghost_name }
    ensures bounded { reserve_in W.left out.new ≤ reserve_in W.left out.old }
    ensures limited { limited_in W.left out.new ≡ limited_in W.left out.old }
{
    out.turns(alloc, 1)?;
    Ok(())
}

/// How many turns the node at an index takes.
#[inline(never)]
fn turns_at(nodes: &[Node], at: usize, to: usize) -> u64
    requires { IsNode nodes.now at to }
    ensures { (n : tree.Node) (next : ℕ) → NodeAt nodes.now at n next →
        result ≡ counted_turns (node_turns n) }
{
    match &nodes[at] {
        Node::Text(_)
        | Node::Raw(_)
        | Node::Comment
        | Node::Break
        | Node::Continue
        | Node::Increment(_)
        | Node::Decrement(_)
        | Node::Cycle(_, _)
        | Node::Capture(_, _)
        | Node::IfChanged(_) => 1,
        // each item takes its own turns
        Node::For(_, _) => 1,
        Node::TableRow(_, _) => 1,
        Node::RenderEach(_, _, _) => 1,
        Node::Output(chain) => one_and(chain.filters.len() as u64),
        Node::Assign(_, chain) => one_and(chain.filters.len() as u64),
        Node::Filtered(filters, _) => one_and(filters.len() as u64),
        Node::If(condition, bodies) => {
            let others = comparisons_of_elsifs(nodes, bodies.first_end, bodies.last_end);
            one_and(added(comparisons_of(condition), others))
        }
        Node::Unless(condition, _) => one_and(comparisons_of(condition)),
        Node::Case(_, arms, _) => one_and(values_of(arms)),
        Node::Include(_, bindings) => one_and(bindings.len() as u64),
        Node::JekyllInclude(_, bindings) => one_and(bindings.len() as u64),
        Node::Render(_, bindings) => one_and(bindings.len() as u64),
    }
}

/// The sum of two counts, up to the greatest one.
fn added(count: u64, more: u64) -> u64
    ensures { (a b : ℕ) → count ≡ counted_turns a → more ≡ counted_turns b →
        result ≡ counted_turns (a + b) }
{
    count.saturating_add(more)
}

/// One turn and these.
fn one_and(more: u64) -> u64
    ensures { (a : ℕ) → more ≡ counted_turns a → result ≡ counted_turns (1 + a) }
{
    more.saturating_add(1)
}

/// How many comparisons a condition has.
fn comparisons_of(condition: &Condition) -> u64
    ensures { result ≡ counted_turns (comparisons (condition_view condition.now)) }
{
    let mut count = 0u64;
    for conjunction in &condition.conjunctions {
        count = count.saturating_add(conjunction.len() as u64);
    }
    count
}

/// How many comparisons the `elsif`s of an `if` have, of which these are the nodes of `else`.
fn comparisons_of_elsifs(nodes: &[Node], from: usize, to: usize) -> u64
    requires { IsNodeRange nodes.now from to }
    ensures { (f : Forest Maker) → IsForestAt nodes.now from f to →
        result ≡ counted_turns (elsif_comparisons (nodes_of f)) }
{
    let mut count = 0u64;
    let mut at = from;
    while at < to {
        let Node::If(condition, bodies) = &nodes[at] else {
            return count;
        };
        if bodies.last_end != to {
            return count;
        }
        count = added(count, comparisons_of(condition));
        at = bodies.first_end;
    }
    count
}

/// How many values the `when` parts have.
fn values_of(arms: &[Arm]) -> u64
    ensures { result ≡ counted_turns (listed_values (arm_values arms.now)) }
{
    let mut count = 0u64;
    for arm in arms {
        count = count.saturating_add(arm.values.len() as u64);
    }
    count
}
