//! The texts of values, written piece by piece.
ghost use Rattle.std.specs.Prelude.{◌≡◌, ◌≤◌, ◌++◌, decimal};
ghost use Rattle.liquid_model.specs.Data.{truth as truth_datum, number, text_of, items_text};
ghost use Rattle.liquid_model.specs.Data.{pairs_text};
ghost use Rattle.liquid_model.specs.View.{view, items_view, pairs_view};
ghost use Rattle.liquid_engine.specs.Performs.{WritesText};
ghost use Rattle.liquid_engine.specs.Sinks.{sink_of};
ghost use Rattle.liquid_engine.specs.inside.Reserves.{limited_in, reserve_in};

use crate::counted::CountedWrite;
use crate::output::Output;
use itoa::Buffer;
use liquid_core::{Object, Result, Value};
use std::alloc::Global;

/// Writes the text of a value, without making it anywhere: a text as it stands, a number from the
/// stack, lists and maps item by item.
#[cycle(push_value)]
pub fn push_value<W: CountedWrite>(
    alloc: Global,
    value: &Value,
    out: &mut Output<'_, W>,
) -> Result<()>
    ensures writes { WritesText result (text_of (view value.now))
        (sink_of W.contents W.failure_count out.old)
        (sink_of W.contents W.failure_count out.new) }
    ensures same_writer { out.new.writer.ghost_name ≡ out.old.writer.ghost_name }
    ensures bounded { reserve_in W.left out.new ≤ reserve_in W.left out.old }
    ensures limited { limited_in W.left out.new ≡ limited_in W.left out.old }
{
    match value {
        Value::Nil => Ok(()),
        Value::Bool(truth) => out.push_text(alloc, truth_text(*truth)),
        Value::Integer(n) => push_number(alloc, *n, out),
        Value::Text(text) => out.push_text(alloc, text.as_str()),
        Value::Array(items) => push_items(alloc, items, out),
        Value::Object(pairs) => push_pairs(alloc, pairs, out),
    }
}

fn truth_text(truth: bool) -> &'static str
    ensures { result.now ≡ text_of (truth_datum truth) }
{
    if truth { "true" } else { "false" }
}

/// Writes the digits of a number.
pub fn push_number<W: CountedWrite>(alloc: Global, n: i64, out: &mut Output<'_, W>) -> Result<()>
    ensures writes { WritesText result (text_of (number n))
        (sink_of W.contents W.failure_count out.old)
        (sink_of W.contents W.failure_count out.new) }
    ensures same_writer { out.new.writer.ghost_name ≡ out.old.writer.ghost_name }
    ensures bounded { reserve_in W.left out.new ≤ reserve_in W.left out.old }
    ensures limited { limited_in W.left out.new ≡ limited_in W.left out.old }
{
    let mut digits = Buffer::new();
    out.push_text(alloc, digits.format(n))
}

/// Writes a text, a number and a text.
pub(crate) fn push_numbered<W: CountedWrite>(
    alloc: Global,
    before: &str,
    number: usize,
    after: &str,
    out: &mut Output<'_, W>,
) -> Result<()>
    ensures writes { WritesText result (before.now ++ (decimal number ++ after.now))
        (sink_of W.contents W.failure_count out.old)
        (sink_of W.contents W.failure_count out.new) }
    ensures same_writer { out.new.writer.ghost_name ≡ out.old.writer.ghost_name }
    ensures bounded { reserve_in W.left out.new ≤ reserve_in W.left out.old }
    ensures limited { limited_in W.left out.new ≡ limited_in W.left out.old }
{
    out.push_text(alloc, before)?;
    out.push_text(alloc, Buffer::new().format(number))?;
    out.push_text(alloc, after)
}

#[cycle(push_value)]
fn push_items<W: CountedWrite>(
    alloc: Global,
    items: &Vec<Value>,
    out: &mut Output<'_, W>,
) -> Result<()>
    ensures writes { WritesText result (items_text (items_view items.now.items))
        (sink_of W.contents W.failure_count out.old)
        (sink_of W.contents W.failure_count out.new) }
    ensures same_writer { out.new.writer.ghost_name ≡ out.old.writer.ghost_name }
    ensures bounded { reserve_in W.left out.new ≤ reserve_in W.left out.old }
    ensures limited { limited_in W.left out.new ≡ limited_in W.left out.old }
{
    for item in items {
        push_value(alloc, item, out)?;
    }
    Ok(())
}

#[cycle(push_value)]
fn push_pairs<W: CountedWrite>(alloc: Global, pairs: &Object, out: &mut Output<'_, W>) -> Result<()>
    ensures writes { WritesText result (pairs_text (pairs_view pairs.now.entries))
        (sink_of W.contents W.failure_count out.old)
        (sink_of W.contents W.failure_count out.new) }
    ensures same_writer { out.new.writer.ghost_name ≡ out.old.writer.ghost_name }
    ensures bounded { reserve_in W.left out.new ≤ reserve_in W.left out.old }
    ensures limited { limited_in W.left out.new ≡ limited_in W.left out.old }
{
    for (key, value) in pairs.iter() {
        out.push_text(alloc, key.as_str())?;
        push_value(alloc, value, out)?;
    }
    Ok(())
}
