//! Values as lists of items, and the properties of maps.
ghost use Rattle.std.specs.Prelude.{◌≡◌, option_map};
ghost use Rattle.liquid_model.specs.Lists.{list_of};
ghost use Rattle.liquid_model.specs.View.{view, items_view};
ghost use Rattle.liquid_filters.specs.Sequences.{all_maps, property, sequence};

use liquid_model::{Value, look_up};
use std::slice;

/// The sequence of a value: a list's items, nothing for nil, else the value alone.
pub fn sequence(value: &Value) -> &[Value]
    ensures { list_of (items_view result.now) ≡ sequence (view value.now) }
{
    match value {
        Value::Array(items) => items,
        Value::Nil => &[],
        _ => slice::from_ref(value),
    }
}

/// Whether each item is a map.
pub fn all_maps(items: &[Value]) -> bool
    ensures { result ≡ all_maps (list_of (items_view items.now)) }
{
    for item in items {
        if !matches!(item, Value::Object(_)) {
            return false;
        }
    }
    true
}

/// The value of a map's property.
pub fn property<'a>(item: &'a Value, name: &str) -> Option<&'a Value>
    ensures { option_map (λ v. view v.now) result ≡ property name.now (view item.now) }
{
    match item {
        Value::Object(pairs) => look_up(pairs, name),
        _ => None,
    }
}
