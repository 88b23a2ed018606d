//! Data as far as they are asked for.
//!
//! Uses stand in a row's `with`, as a map from names. Of a value `null` asks nothing, `true`
//! everything, and a map its members. A list has what is asked of each item that a loop goes over,
//! after it the members, and after these the most items that are seen.
use crate::faults::no_call;
use liquid_core::{ItemUse, Object, Result, Use, Uses, Value};
use liquid_json::data_for;
use liquid_test_refusals::WorkedRow;
use std::alloc::Global;

/// A call over the row's uses.
pub(crate) fn asked_call(alloc: Global, name: &str, row: &WorkedRow) -> Result<Value> {
    let uses = uses_of(alloc, &row.with)?;
    match name {
        "data_for" => Ok(Value::Object(data_for(alloc, row.source.as_str(), &uses)?)),
        _ => no_call(alloc),
    }
}

/// The uses that the map has, or none.
#[cycle(use_of)]
fn uses_of(alloc: Global, value: &Value) -> Result<Uses> {
    match value {
        Value::Object(named) => named_uses(alloc, named),
        _ => Ok(Uses::new(alloc)),
    }
}

#[cycle(use_of)]
fn named_uses(alloc: Global, named: &Object) -> Result<Uses> {
    let mut uses = Uses::new(alloc);
    for (name, value) in named.iter() {
        let name = String::from_str(alloc, name.as_str())?;
        drop(uses.insert(name, use_of(alloc, value)?)?);
    }
    Ok(uses)
}

#[cycle(use_of)]
fn use_of(alloc: Global, value: &Value) -> Result<Use> {
    match value {
        Value::Nil => Ok(Use::Nothing),
        Value::Object(named) => {
            let members = named_uses(alloc, named)?;
            Ok(Use::Parts {
                members,
                items: None,
            })
        }
        Value::Array(parts) => looped_use(alloc, parts),
        _ => Ok(Use::Everything),
    }
}

/// What is asked of a value that a loop goes over.
#[cycle(use_of)]
fn looped_use(alloc: Global, parts: &Vec<Value>) -> Result<Use> {
    let item = match parts.first() {
        Some(value) => use_of(alloc, value)?,
        None => Use::Nothing,
    };
    let members = match parts.get(1) {
        Some(value) => uses_of(alloc, value)?,
        None => Uses::new(alloc),
    };
    let items = ItemUse {
        limit: limit_of(parts),
        each: Box::new(alloc, item)?,
    };
    Ok(Use::Parts {
        members,
        items: Some(items),
    })
}

fn limit_of(parts: &Vec<Value>) -> Option<usize> {
    match parts.get(2) {
        Some(Value::Integer(most)) if *most >= 0 => Some(*most as usize),
        _ => None,
    }
}
