//! Values of templates.
ghost use Rattle.std.specs.Prelude.{◌≡◌, map};
ghost use Rattle.liquid_model.specs.Answer.{IsValueOrMemory};
ghost use Rattle.liquid_model.specs.Data.{truthy, is_default_datum, scalar};
ghost use Rattle.liquid_model.specs.Lists.{list_of};
ghost use Rattle.liquid_model.specs.View.{view, items_view, pairs_view};

use crate::error::Result;
use std::alloc::Global;
use std::collections::BTreeMap;

/// A map from texts to values, in the order of the keys' bytes.
pub type Object = BTreeMap<String, Value>;

/// A value: nil, a truth value, a whole number, a text, a list or a map.
#[derive(Drop)]
pub enum Value {
    /// No value, written `nil`.
    Nil,
    /// True or false.
    Bool(bool),
    /// A whole number of 64 bits.
    Integer(i64),
    /// A text in UTF-8.
    Text(String),
    /// A list.
    Array(Vec<Value>),
    /// A map.
    Object(Object),
}

impl Value {
    /// An equal value that owns its parts.
    pub fn copy(&self, alloc: Global) -> Result<Value>
        ensures { IsValueOrMemory view result (view self.now) }
    {
        copied(alloc, self)
    }

    /// Whether the value counts as true: all do but nil and false.
    pub fn is_truthy(&self) -> bool
        ensures { result ≡ truthy (view self.now) }
    {
        match self {
            Value::Nil => false,
            Value::Bool(b) => *b,
            _ => true,
        }
    }

    /// Whether the filter `default` replaces the value: nil, false and the empty text, list and
    /// map.
    pub fn is_default(&self) -> bool
        ensures { result ≡ is_default_datum (view self.now) }
    {
        match self {
            Value::Nil => true,
            Value::Bool(b) => !*b,
            Value::Integer(_) => false,
            Value::Text(s) => s.is_empty(),
            Value::Array(items) => items.is_empty(),
            Value::Object(pairs) => pairs.is_empty(),
        }
    }

    /// Whether the value is a truth value, a number or a text.
    pub fn is_scalar(&self) -> bool
        ensures { result ≡ scalar (view self.now) }
    {
        matches!(self, Value::Bool(_) | Value::Integer(_) | Value::Text(_))
    }
}

#[cycle(copied)]
fn copied(alloc: Global, value: &Value) -> Result<Value>
    ensures { IsValueOrMemory view result (view value.now) }
{
    match value {
        Value::Nil => Ok(Value::Nil),
        Value::Bool(b) => Ok(Value::Bool(*b)),
        Value::Integer(n) => Ok(Value::Integer(*n)),
        Value::Text(text) => Ok(Value::Text(String::from_str(alloc, text.as_str())?)),
        Value::Array(items) => Ok(Value::Array(copied_items(alloc, items)?)),
        Value::Object(pairs) => Ok(Value::Object(copied_pairs(alloc, pairs)?)),
    }
}

#[cycle(copied)]
fn copied_items(alloc: Global, items: &Vec<Value>) -> Result<Vec<Value>>
    ensures { IsValueOrMemory (λ v. items_view v.items) result (items_view items.now.items) }
{
    let mut copies = Vec::with_capacity(alloc, items.len())?;
    for item in items {
        copies.push(copied(alloc, item)?)?;
    }
    Ok(copies)
}

#[cycle(copied)]
fn copied_pairs(alloc: Global, pairs: &Object) -> Result<Object>
    ensures { IsValueOrMemory (λ m. pairs_view m.entries) result (pairs_view pairs.now.entries) }
{
    let mut copies: Object = BTreeMap::new(alloc);
    for (key, value) in pairs.iter() {
        let name = String::from_str(alloc, key.as_str())?;
        drop(copies.insert(name, copied(alloc, value)?)?);
    }
    Ok(copies)
}

/// Equal items that own their parts.
#[tactic(auto, using(crate::proofs::Views::list_of_view))]
pub fn copy_items(alloc: Global, list: &Vec<Value>) -> Result<Vec<Value>>
    ensures { IsValueOrMemory (λ v. map view v.items) result (list_of (items_view list.now.items)) }
{
    copied_items(alloc, list)
}

/// An equal map that owns its parts.
pub fn copy_object(alloc: Global, object: &Object) -> Result<Object>
    ensures { IsValueOrMemory (λ m. pairs_view m.entries) result (pairs_view object.now.entries) }
{
    copied_pairs(alloc, object)
}
