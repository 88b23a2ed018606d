//! Chains, of which each filter's answer takes its bytes of a limit.
ghost use Rattle.std.specs.Prelude.{◌≡◌, ◌≤◌, OnOk, map};
ghost use Rattle.liquid_model.specs.Cow.{cow_view};
ghost use Rattle.liquid_core.specs.States.{environment_of};
ghost use Rattle.liquid_evaluation.specs.ChainView.{chain_filter_view, chain_view};
ghost use Rattle.liquid_evaluation.specs.Evaluation.{answers_with, chain_value, through};
ghost use Rattle.liquid_meaning.specs.Runs.{evaluate};
ghost use Rattle.liquid_engine.specs.Limits.{TakesBytes};
ghost use Rattle.liquid_engine.specs.Performs.{Meets, configuration_of};
ghost use Rattle.liquid_engine.specs.inside.ChainBytes.{chain_bytes, through_bytes};
ghost use Rattle.liquid_engine.specs.inside.Reserves.{limited_in, reserve_in};

use crate::counted::CountedWrite;
use crate::output::Output;
use crate::room_ahead::room_ahead;
use liquid_core::{NamedFilters, Result, State, ValueCow};
use liquid_syntax::{ChainFilter, FilterChain};
use std::alloc::Global;

/// The value of a chain, as by `FilterChain::evaluate_cow`, of which each filter's answer takes its
/// bytes of the writer's limit: `Write` where it refuses them, and then no filter runs any more.
pub(crate) fn chain_within<'a, W: CountedWrite, H: NamedFilters>(
    alloc: Global,
    chain: &'a FilterChain,
    host: &H,
    out: &mut Output<'_, W>,
    state: &'a State<'_>,
) -> Result<ValueCow<'a>>
    ensures value { Meets cow_view result
        (evaluate (chain_value (answers_with (H.named host.now)) (chain_view chain.now)))
        (configuration_of W.contents W.failure_count out.old state.now)
        (configuration_of W.contents W.failure_count out.new state.now) }
    ensures takes { OnOk result (TakesBytes
        (chain_bytes (answers_with (H.named host.now)) (chain_view chain.now)
        (environment_of state.now)) (W.left out.old.writer.now) (W.left out.new.writer.now)) }
    ensures same_writer { out.new.writer.ghost_name ≡ out.old.writer.ghost_name }
    ensures bounded { reserve_in W.left out.new ≤ reserve_in W.left out.old }
    ensures limited { limited_in W.left out.new ≡ limited_in W.left out.old }
{
    let entry = chain.evaluate_entry(alloc, state)?;
    filters_within(alloc, &chain.filters, entry, host, out, state)
}

/// What a value becomes through filters in order, of which each one's answer takes its bytes, as in
/// a chain.
pub(crate) fn filters_within<'a, W: CountedWrite, H: NamedFilters>(
    alloc: Global,
    filters: &[ChainFilter],
    mut value: ValueCow<'a>,
    host: &H,
    out: &mut Output<'_, W>,
    state: &State<'_>,
) -> Result<ValueCow<'a>>
    ensures value { Meets cow_view result
        (evaluate (through (answers_with (H.named host.now)) (map chain_filter_view filters.now)
        (cow_view value.entry)))
        (configuration_of W.contents W.failure_count out.old state.now)
        (configuration_of W.contents W.failure_count out.new state.now) }
    ensures takes { OnOk result (TakesBytes
        (through_bytes (answers_with (H.named host.now)) (map chain_filter_view filters.now)
        (cow_view value.entry) (environment_of state.now))
        (W.left out.old.writer.now) (W.left out.new.writer.now)) }
    ensures same_writer { out.new.writer.ghost_name ≡ out.old.writer.ghost_name }
    ensures bounded { reserve_in W.left out.new ≤ reserve_in W.left out.old }
    ensures limited { limited_in W.left out.new ≡ limited_in W.left out.old }
{
    for stored in filters {
        let input = value.as_value();
        room_ahead(alloc, stored, input, out, state)?;
        let next = stored.apply_named(alloc, input, state, host)?;
        out.take_value(alloc, &next)?;
        value = ValueCow::Owned(next);
    }
    Ok(value)
}
