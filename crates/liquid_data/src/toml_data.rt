//! Data from TOML.
ghost use Rattle.std.specs.Prelude.{◌≡◌, IfOk, string_bytes};
ghost use Rattle.liquid_model.specs.Answer.{Answers, IsValueOrMemory};
ghost use Rattle.liquid_model.specs.View.{items_view, pairs_view, view};
ghost use Rattle.liquid_data.specs.TomlData.{toml_document_data, toml_datum, toml_list_items};
ghost use Rattle.liquid_data.specs.TomlData.{toml_pairs, unless_float};
ghost use Rattle.toml.specs.View.{items_view as toml_items, table_view, view as toml_view};
ghost use Rattle.toml_datetime.specs.Text.{datetime_text};

use crate::fault::{float_fault, no_toml};
use crate::floats::{add_float_path, has_floats};
use liquid_model::{Error, Object, Result, Value};
use std::alloc::{AllocError, Global};
use std::collections::BTreeMap;
use toml::Table;
use toml::value::Datetime;

/// The data that a document of TOML gives. A date or a time is the text of its spelling in ISO
/// 8601, as `2026-11-27` or `2026-11-27T04:34:00Z`.
///
/// The text is refused where it is no TOML, by `InvalidInput`, and where a number in it is a
/// float, by `Float`: its reader keeps no spelling of one. `Memory` where a growth was refused.
pub fn data_from_toml(alloc: Global, text: &str) -> Result<Object>
    ensures { Answers (λ m. pairs_view m.entries) result (toml_document_data text.now) }
{
    match toml::table_from_str(alloc, text) {
        Ok(table) => data_in(alloc, table),
        Err(refused) => if refused.is_memory() {
            Err(Error::from(AllocError))
        } else {
            Err(no_toml(alloc, text, &refused))
        },
    }
}

fn data_in(alloc: Global, table: Table) -> Result<Object>
    ensures { Answers (λ m. pairs_view m.entries) result (unless_float (table_view table)) }
{
    if has_floats(&table) {
        let mut path = String::new(alloc);
        add_float_path(&mut path, &table)?;
        return Err(float_fault(alloc, path.as_str()));
    }
    pairs_of(alloc, table)
}

#[cycle(value_of)]
fn value_of(alloc: Global, value: toml::Value) -> Result<Value>
    ensures { IsValueOrMemory view result (toml_datum (toml_view value)) }
{
    match value {
        toml::Value::String(text) => Ok(Value::Text(text)),
        toml::Value::Integer(number) => Ok(Value::Integer(number)),
        toml::Value::Float(_) => Ok(Value::Nil),
        toml::Value::Boolean(truth) => Ok(Value::Bool(truth)),
        toml::Value::Datetime(date) => Ok(Value::Text(date_text(alloc, date)?)),
        toml::Value::Array(items) => Ok(Value::Array(items_of(alloc, items)?)),
        toml::Value::Table(members) => Ok(Value::Object(pairs_of(alloc, members)?)),
    }
}

fn date_text(alloc: Global, date: Datetime) -> std::result::Result<String, AllocError>
    ensures { IfOk result (λ text. string_bytes text ≡ datetime_text date) }
{
    format!(in alloc; "{date}")
}

#[cycle(value_of)]
fn items_of(alloc: Global, items: Vec<toml::Value>) -> Result<Vec<Value>>
    ensures { IsValueOrMemory (λ v. items_view v.items) result
        (toml_list_items (toml_items items.items)) }
{
    let mut values = Vec::with_capacity(alloc, items.len())?;
    for item in items {
        values.push(value_of(alloc, item)?)?;
    }
    Ok(values)
}

#[cycle(value_of)]
fn pairs_of(alloc: Global, members: Table) -> Result<Object>
    ensures { IsValueOrMemory (λ m. pairs_view m.entries) result
        (toml_pairs (table_view members)) }
{
    let mut pairs: Object = BTreeMap::new(alloc);
    for (key, member) in members {
        drop(pairs.insert(key, value_of(alloc, member)?)?);
    }
    Ok(pairs)
}
