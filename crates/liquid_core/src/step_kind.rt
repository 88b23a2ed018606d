//! What a value is to a step, for messages.
use crate::resolved::Resolved;
use liquid_model::{Found, Object, Value};

/// What a value is to a step.
#[derive(Clone, Copy)]
pub(crate) enum Kind<'a> {
    Nil,
    Truth,
    Number(i64),
    Text(&'a str),
    List(usize),
    Map(&'a Object),
    Loop,
}

/// What a found value is to a step.
pub(crate) fn kind_of<'a>(resolved: &Resolved<'a, '_>) -> Kind<'a> {
    match resolved {
        Resolved::Borrowed(found) => kind_of_found(found),
        Resolved::Local(found) => kind_of_found(found),
        Resolved::Loop(_, _) => Kind::Loop,
    }
}

fn kind_of_found<'a>(found: &Found<'a>) -> Kind<'a> {
    match found {
        Found::Held(value) => kind_of_value(*value),
        Found::Integer(n) => Kind::Number(*n),
        Found::Bool(_) => Kind::Truth,
        Found::Nil => Kind::Nil,
    }
}

fn kind_of_value<'a>(value: &'a Value) -> Kind<'a> {
    match value {
        Value::Nil => Kind::Nil,
        Value::Bool(_) => Kind::Truth,
        Value::Integer(n) => Kind::Number(*n),
        Value::Text(text) => Kind::Text(text.as_str()),
        Value::Array(items) => Kind::List(items.len()),
        Value::Object(object) => Kind::Map(object),
    }
}

/// What a value is, in a word with its article.
pub(crate) fn kind_word(kind: Kind<'_>) -> &'static str {
    match kind {
        Kind::Nil => "nil",
        Kind::Truth => "a truth value",
        Kind::Number(_) => "a number",
        Kind::Text(_) => "a text",
        Kind::List(_) => "a list",
        Kind::Map(_) | Kind::Loop => "a map",
    }
}
