//! Values: copies, texts and paths, tests, and orders.
use crate::faults::no_call;
use liquid_core::{Object, Result, Value, ValueCow, copy_items, store};
use liquid_test_refusals::{WorkedRow, found, items, number, owned, text};
use std::alloc::Global;
use std::cmp::Ordering;
use std::hash::{DefaultHasher, Hash, Hasher};

/// A call of the row's value.
pub(crate) fn value_call(alloc: Global, name: &str, row: &WorkedRow) -> Result<Value> {
    let (value, path) = (&row.on, items(&row.with));
    match name {
        "copy" => value.copy(alloc),
        "copy_items" => items_copied(alloc, value),
        "text" => text(value.text(alloc)),
        "append_text" => text(appended(alloc, row.source.as_str(), value)),
        "find" => led_to(alloc, value, path),
        "leads" => found(value.find(alloc, path)),
        "into_owned" => ValueCow::Borrowed(value).into_owned(alloc),
        "store" => stored(alloc, row.source.as_str(), value),
        _ => no_call(alloc),
    }
}

/// A copy of the list that the value is.
fn items_copied(alloc: Global, value: &Value) -> Result<Value> {
    match value {
        Value::Array(items) => Ok(Value::Array(copy_items(alloc, items)?)),
        _ => no_call(alloc),
    }
}

/// What the path leads to, or nil.
fn led_to(alloc: Global, value: &Value, path: &[Value]) -> Result<Value> {
    match value.find(alloc, path)? {
        Some(found) => found.into_owned(alloc),
        None => Ok(Value::Nil),
    }
}

/// The value's text after another one.
fn appended(alloc: Global, front: &str, value: &Value) -> Result<String> {
    let mut out = String::from_str(alloc, front)?;
    value.append_text(&mut out)?;
    Ok(out)
}

/// A map of the value, put twice under the key.
fn stored(alloc: Global, key: &str, value: &Value) -> Result<Value> {
    let mut object = Object::new(alloc);
    put(alloc, &mut object, key, &Value::Nil)?;
    put(alloc, &mut object, key, value)?;
    Ok(Value::Object(object))
}

/// Puts a copy of the value in under the key.
fn put(alloc: Global, object: &mut Object, key: &str, value: &Value) -> Result<()> {
    let key = String::from_str(alloc, key)?;
    let value = value.copy(alloc)?;
    store(object, key, value)
}

/// What the value says of itself by its tests.
pub(crate) fn test_call(alloc: Global, name: &str, value: &Value) -> Result<Value> {
    match name {
        "is_truthy" => Ok(Value::Bool(value.is_truthy())),
        "is_default" => Ok(Value::Bool(value.is_default())),
        "is_scalar" => Ok(Value::Bool(value.is_scalar())),
        "to_integer" => Ok(number(value.to_integer())),
        _ => no_call(alloc),
    }
}

/// How the values stand to one another.
pub(crate) fn order_call(alloc: Global, name: &str, left: &Value, right: &Value) -> Result<Value> {
    match name {
        "eq" => Ok(Value::Bool(*left == *right)),
        "hash" => Ok(Value::Bool(hashed(left) == hashed(right))),
        "cmp" => Ok(ordering(Some(left.cmp(right)))),
        "compare" => Ok(ordering(left.compare(right))),
        _ => no_call(alloc),
    }
}

fn hashed(value: &Value) -> u64 {
    let mut hasher = DefaultHasher::new();
    value.hash(&mut hasher);
    hasher.finish()
}

/// An ordering as -1, 0 or 1.
fn ordering(order: Option<Ordering>) -> Value {
    match order {
        Some(Ordering::Less) => Value::Integer(-1),
        Some(Ordering::Equal) => Value::Integer(0),
        Some(Ordering::Greater) => Value::Integer(1),
        None => Value::Nil,
    }
}
