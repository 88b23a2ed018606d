//! Runs of text, outputs and `assign`.
ghost use Rattle.std.specs.Prelude.{◌≡◌, ◌≤◌, ◌+◌, IfOk, OnOk};
ghost use Rattle.liquid_model.specs.ValueSizes.{counted_size, value_size};
ghost use Rattle.liquid_core.specs.States.{environment_of, loops_of};
ghost use Rattle.liquid_evaluation.specs.ChainView.{chain_view};
ghost use Rattle.liquid_evaluation.specs.Evaluation.{answers_with, chain_value};
ghost use Rattle.liquid_evaluation.specs.Names.{node_names};
ghost use Rattle.liquid_evaluation.specs.Tree as tree;
ghost use Rattle.liquid_engine.specs.inside.ChainBytes.{chain_bytes};
ghost use Rattle.liquid_engine.specs.inside.Engine.{setting_of, node_in};
ghost use Rattle.liquid_engine.specs.inside.Reserves.{limited_in, reserve_in};
ghost use Rattle.liquid_engine.specs.Limits.{Takes, TakesBytes};
ghost use Rattle.liquid_engine.specs.StateKept.{Keeps};
ghost use Rattle.liquid_engine.specs.Performs.{Performs, configuration_of};

use crate::chain_within::chain_within;
use crate::context::RunContext;
use crate::counted::CountedWrite;
use crate::output::Output;
use crate::push_value::{push_number, push_value};
use liquid_core::{DirectValue, NamedFilters, Result, State};
use liquid_syntax::FilterChain;
use std::alloc::Global;

/// Writes a text, in a turn of its own.
pub(crate) fn run_text<W: CountedWrite, H: NamedFilters>(
    alloc: Global,
    context: &RunContext<'_, H>,
    text: &str,
    out: &mut Output<'_, W>,
    state: &mut State<'_>,
) -> Result<()>
    ensures performs { Performs result (node_in H.named context.now (tree.plain text.now))
        (configuration_of W.contents W.failure_count out.old state.old)
        (configuration_of W.contents W.failure_count out.new state.new) }
    // of a writer with a limit it takes one of the turns that are left
    ensures takes { OnOk result (Takes 1 (W.left out.old.writer.now).turns
        (W.left out.new.writer.now).turns) }
    ensures same_writer { out.new.writer.ghost_name ≡ out.old.writer.ghost_name }
    ensures bounded { reserve_in W.left out.new ≤ reserve_in W.left out.old }
    ensures limited { limited_in W.left out.new ≡ limited_in W.left out.old }
    ensures kept { Keeps (node_names (tree.plain text.now)) (setting_of H.named context.now)
        state.old
        state.new }
    ensures loops { loops_of state.new ≡ loops_of state.old }
{
    out.turns(alloc, 1)?;
    out.push_text(alloc, text)
}

/// Writes the body of a `raw`.
pub(crate) fn run_raw<W: CountedWrite, H: NamedFilters>(
    alloc: Global,
    context: &RunContext<'_, H>,
    text: &str,
    out: &mut Output<'_, W>,
    state: &mut State<'_>,
) -> Result<()>
    ensures performs { Performs result (node_in H.named context.now (tree.raw text.now))
        (configuration_of W.contents W.failure_count out.old state.old)
        (configuration_of W.contents W.failure_count out.new state.new) }
    ensures same_writer { out.new.writer.ghost_name ≡ out.old.writer.ghost_name }
    ensures bounded { reserve_in W.left out.new ≤ reserve_in W.left out.old }
    ensures limited { limited_in W.left out.new ≡ limited_in W.left out.old }
    ensures kept { Keeps (node_names (tree.raw text.now)) (setting_of H.named context.now) state.old
        state.new }
    ensures loops { loops_of state.new ≡ loops_of state.old }
{
    out.push_text(alloc, text)
}

/// Writes the text of a chain's value.
#[inline(never)]
pub(crate) fn run_output<W: CountedWrite, H: NamedFilters>(
    alloc: Global,
    context: &RunContext<'_, H>,
    chain: &FilterChain,
    out: &mut Output<'_, W>,
    state: &mut State<'_>,
) -> Result<()>
    ensures performs { Performs result
        (node_in H.named context.now (tree.output (chain_view chain.now)))
        (configuration_of W.contents W.failure_count out.old state.old)
        (configuration_of W.contents W.failure_count out.new state.new) }
    ensures same_writer { out.new.writer.ghost_name ≡ out.old.writer.ghost_name }
    ensures bounded { reserve_in W.left out.new ≤ reserve_in W.left out.old }
    ensures limited { limited_in W.left out.new ≡ limited_in W.left out.old }
    ensures kept { Keeps (node_names (tree.output (chain_view chain.now)))
        (setting_of H.named context.now)
        state.old state.new }
    ensures loops { loops_of state.new ≡ loops_of state.old }
{
    match chain.direct_value(state) {
        DirectValue::Held(value) => push_value(alloc, value, out),
        DirectValue::Number(n) => push_number(alloc, n, out),
        _ => run_chain(alloc, context, chain, out, state),
    }
}

/// Writes the text of a chain's value, which a filter makes, or no value holds.
#[inline(never)]
fn run_chain<W: CountedWrite, H: NamedFilters>(
    alloc: Global,
    context: &RunContext<'_, H>,
    chain: &FilterChain,
    out: &mut Output<'_, W>,
    state: &mut State<'_>,
) -> Result<()>
    ensures performs { Performs result
        (node_in H.named context.now (tree.output (chain_view chain.now)))
        (configuration_of W.contents W.failure_count out.old state.old)
        (configuration_of W.contents W.failure_count out.new state.new) }
    ensures same_writer { out.new.writer.ghost_name ≡ out.old.writer.ghost_name }
    ensures bounded { reserve_in W.left out.new ≤ reserve_in W.left out.old }
    ensures limited { limited_in W.left out.new ≡ limited_in W.left out.old }
    ensures kept { Keeps (node_names (tree.output (chain_view chain.now)))
        (setting_of H.named context.now)
        state.old state.new }
    ensures loops { loops_of state.new ≡ loops_of state.old }
{
    let value = chain_within(alloc, chain, context.host, out, state)?;
    push_value(alloc, value.as_value(), out)
}

/// Sets an assigned variable to a chain's value, which takes its bytes.
#[inline(never)]
pub(crate) fn run_assign<W: CountedWrite, H: NamedFilters>(
    alloc: Global,
    context: &RunContext<'_, H>,
    name: &str,
    chain: &FilterChain,
    out: &mut Output<'_, W>,
    state: &mut State<'_>,
) -> Result<()>
    ensures performs { Performs result
        (node_in H.named context.now (tree.assign name.now (chain_view chain.now)))
        (configuration_of W.contents W.failure_count out.old state.old)
        (configuration_of W.contents W.failure_count out.new state.new) }
    // of a writer with a limit it takes what the filters make, and the bytes of what is stored
    ensures takes { OnOk result (IfOk (chain_value (answers_with (H.named context.now.host.now))
        (chain_view chain.now) (environment_of state.old)) (λ d. TakesBytes
        (chain_bytes (answers_with (H.named context.now.host.now)) (chain_view chain.now)
        (environment_of state.old) + counted_size (value_size d))
        (W.left out.old.writer.now) (W.left out.new.writer.now))) }
    ensures same_writer { out.new.writer.ghost_name ≡ out.old.writer.ghost_name }
    ensures bounded { reserve_in W.left out.new ≤ reserve_in W.left out.old }
    ensures limited { limited_in W.left out.new ≡ limited_in W.left out.old }
    ensures kept { Keeps (node_names (tree.assign name.now (chain_view chain.now)))
        (setting_of H.named context.now) state.old state.new }
    ensures loops { loops_of state.new ≡ loops_of state.old }
{
    let found = chain_within(alloc, chain, context.host, out, state)?;
    out.take_value(alloc, found.as_value())?;
    let value = found.into_owned(alloc)?;
    state.assign(alloc, name, value)
}
