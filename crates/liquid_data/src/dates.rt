//! Data whose texts of ISO 8601 are in the spelling that the filter `date` reads.
ghost use Rattle.std.specs.Prelude.{◌≡◌, string_bytes};
ghost use Rattle.liquid_model.specs.Answer.{IsValueOrMemory};
ghost use Rattle.liquid_model.specs.View.{view, items_view, pairs_view};
ghost use Rattle.liquid_data.specs.Dates as spec;

use crate::instant::date_spelling;
use liquid_model::{Object, Result, Value};
use std::alloc::Global;
use std::collections::BTreeMap;

/// The data in which each text that is a day or an instant of ISO 8601 has the spelling that the
/// filter `date` reads, by `date_spelling`; what else there is stays. The answer is `Memory` where
/// a growth was refused, and no other kind.
#[cycle(dated_value)]
pub fn dated(alloc: Global, data: Object) -> Result<Object>
    ensures { IsValueOrMemory (λ m. pairs_view m.entries) result
        (spec.dated_pairs (pairs_view «data».entries)) }
{
    let mut found: Object = BTreeMap::new(alloc);
    for (name, value) in data {
        drop(found.insert(name, dated_value(alloc, value)?)?);
    }
    Ok(found)
}

/// The value in which each text so has the spelling that the filter `date` reads, as in `dated`.
#[cycle(dated_value)]
pub fn dated_value(alloc: Global, value: Value) -> Result<Value>
    ensures { IsValueOrMemory view result (spec.dated_datum (view value)) }
{
    match value {
        Value::Nil => Ok(Value::Nil),
        Value::Bool(b) => Ok(Value::Bool(b)),
        Value::Integer(n) => Ok(Value::Integer(n)),
        Value::Text(text) => Ok(Value::Text(dated_text(alloc, text)?)),
        Value::Array(items) => Ok(Value::Array(dated_items(alloc, items)?)),
        Value::Object(pairs) => Ok(Value::Object(dated(alloc, pairs)?)),
    }
}

#[cycle(dated_value)]
fn dated_items(alloc: Global, items: Vec<Value>) -> Result<Vec<Value>>
    ensures { IsValueOrMemory (λ v. items_view v.items) result
        (spec.dated_items (items_view items.items)) }
{
    let mut found = Vec::with_capacity(alloc, items.len())?;
    for item in items {
        found.push(dated_value(alloc, item)?)?;
    }
    Ok(found)
}

/// The spelling of a text, or the text where it is no date.
fn dated_text(alloc: Global, text: String) -> Result<String>
    ensures { IsValueOrMemory string_bytes result (spec.dated_text (string_bytes text)) }
{
    match date_spelling(alloc, text.as_str())? {
        Some(spelling) => Ok(spelling),
        None => Ok(text),
    }
}
