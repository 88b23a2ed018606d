//! What Liquid for Ruby does otherwise with data.
ghost use Rattle.std.specs.Prelude.{◌≡◌, map};
ghost use Rattle.std.specs.List.{list_any};
ghost use Rattle.liquid_model.specs.Answer.{IsValueOrMemory};
ghost use Rattle.liquid_model.specs.Find.{value_at};
ghost use Rattle.liquid_model.specs.View.{view, items_view, pairs_view};
ghost use Rattle.liquid_filters.specs.Keeping.{is_nil};
ghost use Rattle.liquid_warnings.specs.DataDifferences.{any_to_nil, difference_of};
ghost use Rattle.liquid_warnings.specs.DataDifferences.{is_key_of_its_own, leads_to_nil};
ghost use Rattle.liquid_warnings.specs.DataDifferences.{member_to_nil, path_to_nil, shows_order};

use crate::data_path::{DataPath, Step, values_at};
use crate::doubt::Want;
use liquid_model::{Object, Result, Value, look_up};
use std::alloc::Global;

/// What Liquid for Ruby does otherwise with the values at a path.
#[derive(Clone, Copy, Drop)]
pub enum Difference {
    /// A loop goes over a map of two members or more: here by the bytes of its keys, there by the
    /// order of the file.
    KeyOrder,
    /// `contains` may look into nil, or into what isn't there: here a fault, there false.
    NilSearched,
    /// `contains` may look for nil, which every text contains here, and none there.
    NilContained,
}

/// What Liquid for Ruby does otherwise with the values at a path in data. A path leads to nil also
/// past nil, and where a map on the way hasn't the key of the next step; past another value that is
/// no map nothing is known.
///
/// The answer is `Memory` where a growth was refused, and no other kind.
pub fn difference_of(
    alloc: Global,
    data: &Object,
    path: &DataPath,
    want: Want,
) -> Result<Option<Difference>>
    ensures { IsValueOrMemory (λ o. o) result
        (difference_of want path.now (pairs_view «data».now.entries)) }
{
    match want {
        Want::Items(_) => {
            let values = values_at(alloc, data, path)?;
            Ok(any_shows_order(&values).then_some(Difference::KeyOrder))
        }
        Want::Searched => Ok(path_to_nil(data, path).then_some(Difference::NilSearched)),
        Want::Contained => {
            let values = values_at(alloc, data, path)?;
            Ok(any_is_nil(&values).then_some(Difference::NilContained))
        }
        Want::Present | Want::Perhaps | Want::Tested => Ok(None),
        Want::Date | Want::Number | Want::Truth => Ok(None),
        Want::NumberWord | Want::TruthWord | Want::Word => Ok(None),
        Want::Shown | Want::Defaulted | Want::Keyed | Want::Sized => Ok(None),
    }
}

fn any_shows_order(values: &[&Value]) -> bool
    ensures { result ≡ list_any shows_order (map (λ r. view r.now) values.now) }
{
    for value in values {
        if shows_order(*value) {
            return true;
        }
    }
    false
}

fn any_is_nil(values: &[&Value]) -> bool
    ensures { result ≡ list_any is_nil (map (λ r. view r.now) values.now) }
{
    for value in values {
        if is_nil(*value) {
            return true;
        }
    }
    false
}

fn is_nil(value: &Value) -> bool
    ensures { result ≡ is_nil (view value.now) }
{
    matches!(value, Value::Nil)
}

/// Whether a value is a map of two members or more.
fn shows_order(value: &Value) -> bool
    ensures { result ≡ shows_order (view value.now) }
{
    match value {
        Value::Object(pairs) => pairs.len() >= 2,
        _ => false,
    }
}

fn path_to_nil(data: &Object, path: &DataPath) -> bool
    ensures { result ≡ path_to_nil path.now (pairs_view «data».now.entries) }
{
    member_to_nil(data, path.name.as_str(), &path.steps)
}

/// Whether steps lead from a value to nil, or to what isn't there.
#[cycle(nil)]
fn leads_to_nil(value: &Value, path: &[Step]) -> bool
    ensures { result ≡ leads_to_nil path.now (view value.now) }
{
    match path {
        [Step::Key(key), rest @ ..] => match value {
            Value::Object(pairs) => member_to_nil(pairs, key.as_str(), rest),
            Value::Nil => true,
            _ => false,
        },
        [Step::Each, rest @ ..] => match value {
            Value::Array(items) => any_to_nil(items, rest),
            _ => false,
        },
        [] => matches!(value, Value::Nil),
    }
}

/// A map hasn't this key, or the rest of the path leads from what it has there to nil.
#[cycle(nil)]
fn member_to_nil(pairs: &Object, key: &str, rest: &[Step]) -> bool
    ensures { result ≡ member_to_nil (leads_to_nil rest.now) (is_key_of_its_own key.now)
        (value_at key.now (pairs_view pairs.now.entries)) }
{
    match look_up(pairs, key) {
        Some(value) => leads_to_nil(value, rest),
        None => is_key_of_its_own(key),
    }
}

/// Whether the rest of a path leads from any of the items to nil.
#[cycle(nil)]
fn any_to_nil(items: &[Value], rest: &[Step]) -> bool
    ensures { result ≡ any_to_nil (leads_to_nil rest.now) (items_view items.now) }
{
    for item in items {
        if leads_to_nil(item, rest) {
            return true;
        }
    }
    false
}

/// Whether a map may lack a key: each has a `size`.
fn is_key_of_its_own(key: &str) -> bool
    ensures { result ≡ is_key_of_its_own key.now }
{
    key != "size"
}
