//! Whether a document has numbers that aren't whole.
ghost use Rattle.std.specs.Prelude.{◌≡◌};
ghost use Rattle.liquid_data.specs.Floats.{are_floats, have_floats, is_float};
ghost use Rattle.toml.specs.View.{items_view, table_view, view};

use std::alloc::AllocError;
use std::fmt::Write;
use toml::{Table, Value};

/// Whether a float is among the members, or inside one of them.
#[cycle(floats)]
pub(crate) fn has_floats(members: &Table) -> bool
    ensures { result ≡ have_floats (table_view members.now) }
{
    for (_, value) in members.iter() {
        if is_float(value) {
            return true;
        }
    }
    false
}

#[cycle(floats)]
fn is_float(value: &Value) -> bool
    ensures { result ≡ is_float (view value.now) }
{
    match value {
        Value::Float(_) => true,
        Value::Array(items) => are_floats(items),
        Value::Table(members) => has_floats(members),
        _ => false,
    }
}

#[cycle(floats)]
fn are_floats(items: &Vec<Value>) -> bool
    ensures { result ≡ are_floats (items_view items.now.items) }
{
    for item in items {
        if is_float(item) {
            return true;
        }
    }
    false
}

/// Adds the path of the first float among the members, or inside one of them.
#[cycle(float_paths)]
pub(crate) fn add_float_path(path: &mut String, members: &Table) -> Result<(), AllocError> {
    for (key, value) in members.iter() {
        if is_float(value) {
            let sign = if path.is_empty() { "" } else { "." };
            write!(path, "{sign}{key}")?;
            return add_path_in(path, value);
        }
    }
    Ok(())
}

#[cycle(float_paths)]
fn add_path_in(path: &mut String, value: &Value) -> Result<(), AllocError> {
    match value {
        Value::Array(items) => add_path_of_item(path, items),
        Value::Table(members) => add_float_path(path, members),
        _ => Ok(()),
    }
}

#[cycle(float_paths)]
fn add_path_of_item(path: &mut String, items: &Vec<Value>) -> Result<(), AllocError> {
    let mut place: usize = 0;
    for item in items {
        if is_float(item) {
            write!(path, "[{place}]")?;
            return add_path_in(path, item);
        }
        place = place.saturating_add(1);
    }
    Ok(())
}
