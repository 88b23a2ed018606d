//! Room for answers that may be far longer than what their filters are given, asked for before they
//! are made.
ghost use Rattle.std.specs.Prelude.{◌≡◌, ◌≤◌, [], IfErr, OnOk, OnErr};
ghost use Rattle.liquid_model.specs.declared.error.ErrorKind.TheVariants.{Memory};
ghost use Rattle.liquid_engine.specs.Performs.{Cut};
ghost use Rattle.liquid_engine.specs.Sinks.{sink_of};
ghost use Rattle.liquid_engine.specs.inside.Reserves.{limited_in, reserve_in};

use crate::counted::CountedWrite;
use crate::output::Output;
use liquid_core::{Result, State, Value};
use liquid_filters::FilterKind;
use liquid_model::text_of;
use liquid_syntax::{ChainFilter, StoredFilter};
use std::alloc::Global;

/// Needs room for the text that `join` or `replace` writes again and again: `Write` where the
/// writer has less, and `Memory` where that text can't be made. It takes none of the room, since
/// the answer takes its bytes as it is made.
///
/// What any other filter answers has at most some hundred times the bytes of its input and its
/// arguments, which took theirs before.
pub(crate) fn room_ahead<W: CountedWrite>(
    alloc: Global,
    stored: &ChainFilter,
    input: &Value,
    out: &mut Output<'_, W>,
    state: &State<'_>,
) -> Result<()>
    ensures goes_on { OnOk result (sink_of W.contents W.failure_count out.new ≡
        sink_of W.contents W.failure_count out.old) }
    ensures kept { OnOk result (W.left out.new.writer.now ≡ W.left out.old.writer.now) }
    ensures refused { OnErr result (Cut result []
        (sink_of W.contents W.failure_count out.old)
        (sink_of W.contents W.failure_count out.new)) }
    ensures same_writer { out.new.writer.ghost_name ≡ out.old.writer.ghost_name }
    ensures bounded { reserve_in W.left out.new ≤ reserve_in W.left out.old }
    ensures limited { limited_in W.left out.new ≡ limited_in W.left out.old }
{
    if !out.counts_bytes() {
        return Ok(());
    }
    let bytes = bytes_ahead(alloc, stored, input, out, state)?;
    out.need_room(alloc, bytes)
}

/// How many bytes a filter writes again and again, or more where the writer has room for more.
fn bytes_ahead<W: CountedWrite>(
    alloc: Global,
    stored: &ChainFilter,
    input: &Value,
    out: &Output<'_, W>,
    state: &State<'_>,
) -> Result<usize>
    ensures memory { IfErr result (λ e. e.kind ≡ Memory) }
{
    match &stored.filter {
        StoredFilter::Kind(FilterKind::Join) => joined_bytes(alloc, stored, input, state),
        StoredFilter::Kind(FilterKind::Replace) => {
            let most = most_replaced_bytes(alloc, stored, input, state)?;
            // what it finds is counted only where there may be too much of it
            if out.has_room(most) {
                return Ok(most);
            }
            replaced_bytes(alloc, stored, input, state)
        }
        _ => Ok(0),
    }
}

/// How many bytes `join` writes between the items.
fn joined_bytes(
    alloc: Global,
    stored: &ChainFilter,
    input: &Value,
    state: &State<'_>,
) -> Result<usize>
    ensures memory { IfErr result (λ e. e.kind ≡ Memory) }
{
    match input {
        Value::Array(items) => {
            let separator = argument_length(alloc, stored, 0, state)?;
            Ok(items.len().saturating_sub(1).saturating_mul(separator))
        }
        _ => Ok(0),
    }
}

/// How many bytes `replace` writes in place of what it finds, if it finds that everywhere.
fn most_replaced_bytes(
    alloc: Global,
    stored: &ChainFilter,
    input: &Value,
    state: &State<'_>,
) -> Result<usize>
    ensures memory { IfErr result (λ e. e.kind ≡ Memory) }
{
    let length = text_length(alloc, input)?;
    let most = match argument_length(alloc, stored, 0, state)? {
        // the empty text is found before each character and at the end
        0 => length.saturating_add(1),
        sought => length / sought,
    };
    Ok(most.saturating_mul(argument_length(alloc, stored, 1, state)?))
}

/// How many bytes `replace` writes in place of what it finds.
fn replaced_bytes(
    alloc: Global,
    stored: &ChainFilter,
    input: &Value,
    state: &State<'_>,
) -> Result<usize>
    ensures memory { IfErr result (λ e. e.kind ≡ Memory) }
{
    let times = times_found(alloc, stored, input, state)?;
    Ok(times.saturating_mul(argument_length(alloc, stored, 1, state)?))
}

/// How often the first argument's text stands in the input's.
fn times_found(
    alloc: Global,
    stored: &ChainFilter,
    input: &Value,
    state: &State<'_>,
) -> Result<usize>
    ensures memory { IfErr result (λ e. e.kind ≡ Memory) }
{
    let text = text_of(alloc, input)?;
    let Some(expression) = stored.arguments.first() else {
        return Ok(0);
    };
    match expression.try_evaluate(alloc, state)? {
        Some(value) => {
            let sought = text_of(alloc, value.as_value())?;
            Ok(text.as_str().matches(sought.as_str()).count())
        }
        None => Ok(text.as_str().matches("").count()),
    }
}

/// The length of an argument's text, or 0 where it has no value.
fn argument_length(
    alloc: Global,
    stored: &ChainFilter,
    index: usize,
    state: &State<'_>,
) -> Result<usize>
    ensures memory { IfErr result (λ e. e.kind ≡ Memory) }
{
    let Some(expression) = stored.arguments.get(index) else {
        return Ok(0);
    };
    match expression.try_evaluate(alloc, state)? {
        Some(value) => text_length(alloc, value.as_value()),
        None => Ok(0),
    }
}

/// The length of a value's text.
fn text_length(alloc: Global, value: &Value) -> Result<usize>
    ensures memory { IfErr result (λ e. e.kind ≡ Memory) }
{
    Ok(text_of(alloc, value)?.as_str().len())
}
