//! The readers of arguments and of dates.
use crate::faults::no_call;
use liquid_core::{Result, Value};
use liquid_filters::read_date;
use liquid_model::{lower_case, text_argument, whole_argument};
use liquid_test_refusals::{WorkedRow, text, text_of};
use std::alloc::Global;

/// What a reader of arguments answers.
pub(crate) fn argument_call(alloc: Global, name: &str, row: &WorkedRow) -> Result<Value> {
    match name {
        "text" => text(text_argument(alloc, &row.on)),
        "whole" => Ok(Value::Integer(whole_argument(alloc, &row.on)?)),
        "lower_case" => text(lower_case(alloc, text_of(&row.on))),
        "date" => date(alloc, text_of(&row.on)),
        "is_date" => Ok(Value::Bool(read_date(text_of(&row.on))?.is_some())),
        _ => no_call(alloc),
    }
}

/// The date that the text is, as jiff writes it with its offset and its zone, or nil.
fn date(alloc: Global, text: &str) -> Result<Value> {
    match read_date(text)? {
        Some(date) => Ok(Value::Text(date.to_string(alloc)?)),
        None => Ok(Value::Nil),
    }
}
