//! What a block of a host does with the text of its body.
ghost use Rattle.std.specs.Prelude.{◌≡◌, ◌≤◌, map, string_bytes};
ghost use Rattle.liquid_evaluation.specs.ChainView.{chain_filter_view};
ghost use Rattle.liquid_evaluation.specs.Evaluation.{answers_with};
ghost use Rattle.liquid_engine.specs.inside.Filtered.{written_through};
ghost use Rattle.liquid_engine.specs.inside.Reserves.{limited_in, reserve_in};
ghost use Rattle.liquid_engine.specs.Performs.{Performs, configuration_of};

use crate::chain_within::filters_within;
use crate::context::RunContext;
use crate::counted::CountedWrite;
use crate::output::Output;
use crate::push_value::push_value;
use liquid_core::{NamedFilters, Result, State, Value, ValueCow};
use liquid_syntax::ChainFilter;
use std::alloc::Global;

/// Writes what the text becomes through the filters.
#[inline(never)]
pub(crate) fn write_filtered<W: CountedWrite, H: NamedFilters>(
    alloc: Global,
    context: &RunContext<'_, H>,
    filters: &[ChainFilter],
    text: String,
    out: &mut Output<'_, W>,
    state: &State<'_>,
) -> Result<()>
    ensures performs { Performs result (written_through
        (answers_with (H.named context.now.host.now)) (map chain_filter_view filters.now)
        (string_bytes text))
        (configuration_of W.contents W.failure_count out.old state.now)
        (configuration_of W.contents W.failure_count out.new state.now) }
    ensures same_writer { out.new.writer.ghost_name ≡ out.old.writer.ghost_name }
    ensures bounded { reserve_in W.left out.new ≤ reserve_in W.left out.old }
    ensures limited { limited_in W.left out.new ≡ limited_in W.left out.old }
{
    let input = ValueCow::Owned(Value::Text(text));
    let answer = filters_within(alloc, filters, input, context.host, out, state)?;
    push_value(alloc, answer.as_value(), out)
}
