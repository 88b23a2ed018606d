//! Steps of a row: what a call changes in a state, or in a runtime.
use crate::reporter::optional;
use crate::row::{member, text_member};
use liquid_model::{Object, Result, Value};
use std::alloc::Global;

/// What a call changes in a state or a runtime.
#[derive(Drop)]
pub enum StateChange {
    /// `set_index`.
    Index(String, Value),
    /// `set_global`.
    Global(String, Value),
    /// `push_scope`.
    Push(Object),
    /// `pop_scope`.
    Pop,
}

/// What the step's call changes, or none where it looks something up. A step is a list of the
/// call's name, a name, and a value.
pub fn step_of(alloc: Global, step: &Value) -> Result<Option<StateChange>> {
    match text_member(step, 0) {
        "set_index" => index(alloc, step),
        "set_global" => global(alloc, step),
        "push_scope" => Ok(Some(StateChange::Push(scope(alloc, step)?))),
        "pop_scope" => Ok(Some(StateChange::Pop)),
        _ => Ok(None),
    }
}

fn index(alloc: Global, step: &Value) -> Result<Option<StateChange>> {
    let name = String::from_str(alloc, text_member(step, 1))?;
    Ok(Some(StateChange::Index(name, given(alloc, step)?)))
}

fn global(alloc: Global, step: &Value) -> Result<Option<StateChange>> {
    let name = String::from_str(alloc, text_member(step, 1))?;
    Ok(Some(StateChange::Global(name, given(alloc, step)?)))
}

/// The value that the call is given.
fn given(alloc: Global, step: &Value) -> Result<Value> {
    optional(alloc, member(step, 2))
}

/// The map that the call is given.
fn scope(alloc: Global, step: &Value) -> Result<Object> {
    match given(alloc, step)? {
        Value::Object(scope) => Ok(scope),
        _ => Ok(Object::new(alloc)),
    }
}
