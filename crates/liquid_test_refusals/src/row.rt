//! A row, as a line of JSON.
use liquid_json::data_from_json;
use liquid_model::{Object, Result, Value};
use std::alloc::Global;

/// A call, what it is made with, and how it must end.
pub struct WorkedRow {
    /// The call, as its type and its name.
    pub call: String,
    /// A template's source, or another text.
    pub source: String,
    /// The value that is called.
    pub on: Value,
    /// A second value, or a list of what else the call takes.
    pub with: Value,
    /// What the call answers.
    pub answer: Value,
    /// The kind of the fault that it answers in place of that, or an empty text.
    pub fault: String,
}

/// Drops the fields. Written by hand, so that each early return drops the value by one call to
/// prove.
impl Drop for WorkedRow {
    fn drop(self) {
        let WorkedRow {
            call: _,
            source: _,
            on: _,
            with: _,
            answer: _,
            fault: _,
        } = self;
    }
}

impl WorkedRow {
    /// The type of the call, or the whole call where no name follows a `::`.
    pub fn kind(&self) -> &str {
        match self.call.as_str().split_once("::") {
            Some((kind, _)) => kind,
            None => self.call.as_str(),
        }
    }

    /// The name of the call after its type, or an empty one.
    pub fn name(&self) -> &str {
        match self.call.as_str().split_once("::") {
            Some((_, name)) => name,
            None => "",
        }
    }
}

/// The row that the line holds, and the data of its state. A field that it lacks is nil, or empty.
pub fn read_row(alloc: Global, line: &str) -> Result<(WorkedRow, Object)> {
    let mut fields = data_from_json(alloc, line)?;
    let data = taken_object(alloc, &mut fields, "data");
    let row = WorkedRow {
        call: taken(alloc, &mut fields, "call"),
        source: taken(alloc, &mut fields, "source"),
        on: fields.remove("on").unwrap_or(Value::Nil),
        with: fields.remove("with").unwrap_or(Value::Nil),
        answer: fields.remove("answer").unwrap_or(Value::Nil),
        fault: taken(alloc, &mut fields, "fault"),
    };
    Ok((row, data))
}

/// The map of the name, taken out of the fields.
fn taken_object(alloc: Global, fields: &mut Object, name: &str) -> Object {
    match fields.remove(name) {
        Some(Value::Object(pairs)) => pairs,
        _ => Object::new(alloc),
    }
}

/// The text of the name, taken out of the fields.
fn taken(alloc: Global, fields: &mut Object, name: &str) -> String {
    match fields.remove(name) {
        Some(Value::Text(text)) => text,
        _ => String::new(alloc),
    }
}

/// What the list has at the place.
pub fn member(list: &Value, place: usize) -> Option<&Value> {
    match list {
        Value::Array(items) => items.get(place),
        _ => None,
    }
}

/// The text that the list has at the place, or an empty one.
pub fn text_member(list: &Value, place: usize) -> &str {
    match member(list, place) {
        Some(value) => text_of(value),
        None => "",
    }
}

/// The items of the list that the list has at the place, or none.
pub fn items_member(list: &Value, place: usize) -> &[Value] {
    match member(list, place) {
        Some(inner) => items(inner),
        None => &[],
    }
}

/// The text that the value is, or an empty one.
pub fn text_of(value: &Value) -> &str {
    match value {
        Value::Text(text) => text.as_str(),
        _ => "",
    }
}

/// The items of a list, or none.
pub fn items(list: &Value) -> &[Value] {
    match list {
        Value::Array(items) => items.as_slice(),
        _ => &[],
    }
}
