//! What a value takes of a limit on bytes.
ghost use Rattle.std.specs.Prelude.{◌≡◌};
ghost use Rattle.liquid_model.specs.ValueSizes.{counted_size, value_size, items_size};
ghost use Rattle.liquid_model.specs.ValueSizes.{pairs_size};
ghost use Rattle.liquid_model.specs.View.{view, items_view, pairs_view};

use crate::value::{Object, Value};

/// What each item of a list and each pair of a map takes beside its texts, for its place in memory.
const PLACE: usize = 32;

/// How many bytes a value takes of a limit, up to the greatest number: those of its texts and of
/// the keys of its maps, and 32 more for each item of a list and each pair of a map. It takes no
/// memory.
#[cycle(value_size)]
pub fn value_size(value: &Value) -> usize
    ensures size { result ≡ counted_size (value_size (view value.now)) }
{
    match value {
        Value::Nil | Value::Bool(_) | Value::Integer(_) => 0,
        Value::Text(text) => text.len(),
        Value::Array(items) => items_size(items),
        Value::Object(pairs) => pairs_size(pairs),
    }
}

#[cycle(value_size)]
fn items_size(items: &Vec<Value>) -> usize
    ensures { result ≡ counted_size (items_size (items_view items.now.items)) }
{
    let mut size = 0usize;
    for item in items {
        size = size.saturating_add(PLACE).saturating_add(value_size(item));
    }
    size
}

#[cycle(value_size)]
fn pairs_size(pairs: &Object) -> usize
    ensures { result ≡ counted_size (pairs_size (pairs_view pairs.now.entries)) }
{
    let mut size = 0usize;
    for (key, value) in pairs.iter() {
        size = size.saturating_add(PLACE).saturating_add(key.len());
        size = size.saturating_add(value_size(value));
    }
    size
}
