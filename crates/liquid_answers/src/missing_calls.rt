//! The calls that a run met and its table lacks.
use liquid_core::{Object, Value};
use std::alloc::Global;
use std::cell::RefCell;
use std::collections::BTreeMap;

/// The most calls that one run lists.
pub(crate) const MOST_CALLS: usize = 1000;

/// The most bytes of the kept calls, and of their text. Once one of the two has this many, no
/// further call is kept or listed.
pub(crate) const MOST_BYTES: usize = 1048576;

/// Calls, each once, as far as there is room.
#[derive(Drop)]
pub(crate) struct MissingCalls {
    calls: BTreeMap<Value, ()>,
    bytes: u64,
}

impl MissingCalls {
    /// None yet.
    pub(crate) fn new(alloc: Global) -> MissingCalls {
        MissingCalls {
            calls: BTreeMap::new(alloc),
            bytes: 0,
        }
    }

    /// The calls, in order.
    pub(crate) fn into_calls(self) -> BTreeMap<Value, ()> {
        let MissingCalls { calls, bytes: _ } = self;
        calls
    }

    /// Keeps a call, where there is room.
    fn keep(&mut self, call: Value) {
        if self.calls.len() >= MOST_CALLS || self.bytes >= MOST_BYTES as u64 {
            drop(call);
            return;
        }
        let size = size_of(&call);
        if let Ok(None) = self.calls.insert(call, ()) {
            self.bytes = self.bytes.saturating_add(size);
        }
    }
}

/// Keeps a call in a cell that nobody else uses meanwhile.
pub(crate) fn note(asked: &RefCell<MissingCalls>, call: Value) {
    match asked.try_borrow_mut() {
        Ok(mut asked) => asked.keep(call),
        Err(_) => drop(call),
    }
}

/// About how many bytes a value takes.
#[cycle(size_of)]
fn size_of(value: &Value) -> u64 {
    match value {
        Value::Nil | Value::Bool(_) | Value::Integer(_) => 32,
        Value::Text(text) => (text.len() as u64).saturating_add(32),
        Value::Array(items) => size_of_items(items),
        Value::Object(pairs) => size_of_pairs(pairs),
    }
}

#[cycle(size_of)]
fn size_of_items(items: &Vec<Value>) -> u64 {
    let mut size: u64 = 32;
    for item in items {
        size = size.saturating_add(size_of(item));
    }
    size
}

#[cycle(size_of)]
fn size_of_pairs(pairs: &Object) -> u64 {
    let mut size: u64 = 32;
    for (key, value) in pairs.iter() {
        size = size.saturating_add(key.len() as u64);
        size = size.saturating_add(size_of(value));
    }
    size
}
