//! What a run asks for before a node runs: its turns, and the bytes of what it copies for the
//! nodes that it runs in turn, which are the values of pairs and the lists of loops.
ghost use Rattle.std.specs.Prelude.{◌≡◌, ◌≤◌, [], OnOk, OnErr};
ghost use Rattle.liquid_syntax.specs.Flats.{IsNode};
ghost use Rattle.liquid_engine.specs.Failures.{OneFailed};
ghost use Rattle.liquid_engine.specs.Performs.{Cut};
ghost use Rattle.liquid_engine.specs.Sinks.{sink_of};
ghost use Rattle.liquid_engine.specs.inside.Reserves.{limited_in, reserve_in};

use crate::counted::CountedWrite;
use crate::node_turns::turns_of_node;
use crate::output::{Output, Turns};
use liquid_core::{Expression, Result, State};
use liquid_syntax::{Binding, Node, RangeExpression};
use std::alloc::Global;

/// Asks the writer for the turns of a node, and for the bytes of what it copies: `Write` where it
/// refuses them.
pub(crate) fn grant_node<W: CountedWrite>(
    alloc: Global,
    nodes: &[Node],
    at: usize,
    to: usize,
    out: &mut Output<'_, W>,
    state: &State<'_>,
) -> Result<Turns>
    requires { IsNode nodes.now at to }
    ensures goes_on { OnOk result (sink_of W.contents W.failure_count out.new ≡
        sink_of W.contents W.failure_count out.old) }
    ensures refused { OnErr result (Cut result []
        (sink_of W.contents W.failure_count out.old)
        (sink_of W.contents W.failure_count out.new)) }
    ensures stopped { OnErr result (OneFailed
        (sink_of W.contents W.failure_count out.old).failures
        (sink_of W.contents W.failure_count out.new).failures) }
    ensures same_writer { out.new.writer.ghost_name ≡ out.old.writer.ghost_name }
    ensures bounded { reserve_in W.left out.new ≤ reserve_in W.left out.old }
    ensures limited { limited_in W.left out.new ≡ limited_in W.left out.old }
{
    match take_copies(alloc, nodes, at, out, state) {
        Ok(()) => turns_of_node(alloc, nodes, at, to, out),
        Err(fault) => Err(fault),
    }
}

/// Takes the bytes of what a node copies, where they are counted.
fn take_copies<W: CountedWrite>(
    alloc: Global,
    nodes: &[Node],
    at: usize,
    out: &mut Output<'_, W>,
    state: &State<'_>,
) -> Result<()>
    ensures goes_on { OnOk result (sink_of W.contents W.failure_count out.new ≡
        sink_of W.contents W.failure_count out.old) }
    ensures refused { OnErr result (Cut result []
        (sink_of W.contents W.failure_count out.old)
        (sink_of W.contents W.failure_count out.new)) }
    ensures stopped { OnErr result (OneFailed
        (sink_of W.contents W.failure_count out.old).failures
        (sink_of W.contents W.failure_count out.new).failures) }
    ensures same_writer { out.new.writer.ghost_name ≡ out.old.writer.ghost_name }
    ensures bounded { reserve_in W.left out.new ≤ reserve_in W.left out.old }
    ensures limited { limited_in W.left out.new ≡ limited_in W.left out.old }
{
    if !out.counts_bytes() {
        return Ok(());
    }
    match nodes.get(at) {
        Some(
            Node::Include(_, bindings)
            | Node::JekyllInclude(_, bindings)
            | Node::Render(_, bindings)
            | Node::RenderEach(_, _, bindings),
        ) => take_pairs(alloc, bindings, out, state),
        Some(Node::For(head, _)) => take_list(alloc, &head.source, out, state),
        Some(Node::TableRow(head, _)) => take_list(alloc, &head.source, out, state),
        _ => Ok(()),
    }
}

/// Takes the bytes of the values of pairs.
fn take_pairs<W: CountedWrite>(
    alloc: Global,
    bindings: &[Binding],
    out: &mut Output<'_, W>,
    state: &State<'_>,
) -> Result<()>
    ensures goes_on { OnOk result (sink_of W.contents W.failure_count out.new ≡
        sink_of W.contents W.failure_count out.old) }
    ensures refused { OnErr result (Cut result []
        (sink_of W.contents W.failure_count out.old)
        (sink_of W.contents W.failure_count out.new)) }
    ensures stopped { OnErr result (OneFailed
        (sink_of W.contents W.failure_count out.old).failures
        (sink_of W.contents W.failure_count out.new).failures) }
    ensures same_writer { out.new.writer.ghost_name ≡ out.old.writer.ghost_name }
    ensures bounded { reserve_in W.left out.new ≤ reserve_in W.left out.old }
    ensures limited { limited_in W.left out.new ≡ limited_in W.left out.old }
{
    for binding in bindings {
        match take_value_of(alloc, &binding.value, out, state) {
            Ok(()) => {}
            Err(fault) => return Err(fault),
        }
    }
    Ok(())
}

/// Takes the bytes of the list that a loop goes over, unless it lies in the data: then it isn't
/// copied.
fn take_list<W: CountedWrite>(
    alloc: Global,
    source: &RangeExpression,
    out: &mut Output<'_, W>,
    state: &State<'_>,
) -> Result<()>
    ensures goes_on { OnOk result (sink_of W.contents W.failure_count out.new ≡
        sink_of W.contents W.failure_count out.old) }
    ensures refused { OnErr result (Cut result []
        (sink_of W.contents W.failure_count out.old)
        (sink_of W.contents W.failure_count out.new)) }
    ensures stopped { OnErr result (OneFailed
        (sink_of W.contents W.failure_count out.old).failures
        (sink_of W.contents W.failure_count out.new).failures) }
    ensures same_writer { out.new.writer.ghost_name ≡ out.old.writer.ghost_name }
    ensures bounded { reserve_in W.left out.new ≤ reserve_in W.left out.old }
    ensures limited { limited_in W.left out.new ≡ limited_in W.left out.old }
{
    let RangeExpression::Array(list) = source else {
        return Ok(());
    };
    if list.borrowed_value(state).is_some() {
        return Ok(());
    }
    take_value_of(alloc, list, out, state)
}

/// Takes the bytes of the value of an expression. Where it has none, or no memory is to be had for
/// it, whoever evaluates it for the node answers the fault.
fn take_value_of<W: CountedWrite>(
    alloc: Global,
    expression: &Expression,
    out: &mut Output<'_, W>,
    state: &State<'_>,
) -> Result<()>
    ensures goes_on { OnOk result (sink_of W.contents W.failure_count out.new ≡
        sink_of W.contents W.failure_count out.old) }
    ensures refused { OnErr result (Cut result []
        (sink_of W.contents W.failure_count out.old)
        (sink_of W.contents W.failure_count out.new)) }
    ensures stopped { OnErr result (OneFailed
        (sink_of W.contents W.failure_count out.old).failures
        (sink_of W.contents W.failure_count out.new).failures) }
    ensures same_writer { out.new.writer.ghost_name ≡ out.old.writer.ghost_name }
    ensures bounded { reserve_in W.left out.new ≤ reserve_in W.left out.old }
    ensures limited { limited_in W.left out.new ≡ limited_in W.left out.old }
{
    match expression.try_evaluate(alloc, state) {
        Ok(Some(value)) => out.take_value(alloc, value.as_value()),
        _ => Ok(()),
    }
}
