//! Paths in data.
ghost use Rattle.std.specs.Prelude.{◌≡◌, [], ◌++◌, length, option_map, string_bytes, IfOk, OnOk};
ghost use Rattle.liquid_model.specs.Answer.{IsValueOrMemory};
ghost use Rattle.liquid_model.specs.Find.{value_at};
ghost use Rattle.liquid_model.specs.View.{view, items_view, pairs_view};
ghost use Rattle.liquid_warnings.specs.DataPaths.{first_lack, in_items, in_member, lack_at};
ghost use Rattle.liquid_warnings.specs.DataPaths.{lack_of};
ghost use Rattle.liquid_warnings.specs.DataPaths.{of_each_item, of_found, values_along};
ghost use Rattle.liquid_warnings.specs.DataPaths.{values_at_path};
ghost use Rattle.liquid_warnings.specs.Views.{lack_view, values_view};

use liquid_model::{Object, Result, Value, look_up};
use std::alloc::{AllocError, Global};

/// A step of a path in data.
#[derive(Drop)]
pub enum Step {
    /// To what a map has at this key.
    Key(String),
    /// To each item of a list.
    Each,
}

/// A path in data.
#[derive(Drop)]
pub struct DataPath {
    /// The first name.
    pub name: String,
    /// What leads on from its value.
    pub steps: Vec<Step>,
}

impl DataPath {
    /// The path that is a name alone.
    pub fn of_name(alloc: Global, name: &str) -> std::result::Result<DataPath, AllocError>
        ensures name { IfOk result (λ p. string_bytes p.name ≡ name.now) }
        ensures steps { IfOk result (λ p. p.steps.items ≡ []) }
    {
        Ok(DataPath {
            name: String::from_str(alloc, name)?,
            steps: Vec::new(alloc),
        })
    }
}

/// Where data lacks a path: a map on the way that hasn't the key of the next step.
#[derive(Clone, Copy)]
pub struct Lack<'d> {
    /// How many steps follow that key.
    pub left: usize,
    /// The map.
    pub among: &'d Object,
}

/// Where the way along a path in data first comes to a map that hasn't the key of the next step,
/// item by item. Nothing is found past a value that is no map where a key is wanted, or no list
/// where its items are; and each map has a `size`.
///
/// It takes no memory.
pub fn lacking<'d>(data: &'d Object, path: &DataPath) -> Option<Lack<'d>>
    ensures { option_map lack_view result ≡ lack_of path.now (pairs_view «data».now.entries) }
{
    lacking_member(data, path.name.as_str(), &path.steps)
}

#[cycle(lacking)]
fn lacking_below<'d>(value: &'d Value, path: &[Step]) -> Option<Lack<'d>>
    ensures { option_map lack_view result ≡ first_lack path.now (view value.now) }
{
    match path {
        [Step::Key(key), rest @ ..] => match value {
            Value::Object(pairs) => lacking_member(pairs, key.as_str(), rest),
            _ => None,
        },
        [Step::Each, rest @ ..] => match value {
            Value::Array(items) => lacking_item(items, rest),
            _ => None,
        },
        [] => None,
    }
}

/// A map without this key, or what is found at it.
#[cycle(lacking)]
fn lacking_member<'d>(pairs: &'d Object, key: &str, rest: &[Step]) -> Option<Lack<'d>>
    ensures { option_map lack_view result ≡ in_member (first_lack rest.now)
        (lack_at key.now (length rest.now) (pairs_view pairs.now.entries))
        (value_at key.now (pairs_view pairs.now.entries)) }
{
    match look_up(pairs, key) {
        Some(value) => lacking_below(value, rest),
        None => lack_at(pairs, key, rest.len()),
    }
}

/// What is found at the first of the items at which something is.
#[cycle(lacking)]
fn lacking_item<'d>(items: &'d [Value], rest: &[Step]) -> Option<Lack<'d>>
    ensures { option_map lack_view result ≡ in_items (first_lack rest.now) (items_view items.now) }
{
    for item in items {
        if let Some(lack) = lacking_below(item, rest) {
            return Some(lack);
        }
    }
    None
}

fn lack_at<'d>(pairs: &'d Object, key: &str, left: usize) -> Option<Lack<'d>>
    ensures { option_map lack_view result
        ≡ lack_at key.now left (pairs_view pairs.now.entries) }
{
    if key == "size" {
        return None;
    }
    Some(Lack { left, among: pairs })
}

/// The values that a path in data leads to, in order.
///
/// The answer is `Memory` where a growth was refused, and no other kind.
pub fn values_at<'d>(alloc: Global, data: &'d Object, path: &DataPath) -> Result<Vec<&'d Value>>
    ensures { IsValueOrMemory values_view result
        (values_at_path path.now (pairs_view «data».now.entries)) }
{
    let mut found = Vec::new(alloc);
    add_member(data, path.name.as_str(), &path.steps, &mut found)?;
    Ok(found)
}

#[cycle(values)]
fn add_values<'d>(
    value: &'d Value,
    path: &[Step],
    found: &mut Vec<&'d Value>,
) -> std::result::Result<(), AllocError>
    ensures { OnOk result (values_view found.new
        ≡ values_view found.old ++ values_along path.now (view value.now)) }
{
    match path {
        [Step::Key(key), rest @ ..] => match value {
            Value::Object(pairs) => add_member(pairs, key.as_str(), rest, found),
            _ => Ok(()),
        },
        [Step::Each, rest @ ..] => match value {
            Value::Array(items) => add_items(items, rest, found),
            _ => Ok(()),
        },
        [] => Ok(found.push(value)?),
    }
}

/// Adds the values that the rest of a path leads to from what a map has at a key.
#[cycle(values)]
fn add_member<'d>(
    pairs: &'d Object,
    key: &str,
    rest: &[Step],
    found: &mut Vec<&'d Value>,
) -> std::result::Result<(), AllocError>
    ensures { OnOk result (values_view found.new ≡ values_view found.old
        ++ of_found (values_along rest.now) (value_at key.now (pairs_view pairs.now.entries))) }
{
    match look_up(pairs, key) {
        Some(value) => add_values(value, rest, found),
        None => Ok(()),
    }
}

/// Adds the values that the rest of a path leads to from each item.
#[cycle(values)]
fn add_items<'d>(
    items: &'d [Value],
    rest: &[Step],
    found: &mut Vec<&'d Value>,
) -> std::result::Result<(), AllocError>
    ensures { OnOk result (values_view found.new ≡ values_view found.old
        ++ of_each_item (values_along rest.now) (items_view items.now)) }
{
    for item in items {
        add_values(item, rest, found)?;
    }
    Ok(())
}

/// The same path once more.
pub(crate) fn copy_of(alloc: Global, path: &DataPath) -> std::result::Result<DataPath, AllocError> {
    let mut copy = DataPath::of_name(alloc, path.name.as_str())?;
    for step in &path.steps {
        copy.steps.push(match step {
            Step::Key(key) => Step::Key(String::from_str(alloc, key.as_str())?),
            Step::Each => Step::Each,
        })?;
    }
    Ok(copy)
}
