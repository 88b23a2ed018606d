//! Faults.
use liquid_core::{Error, ErrorKind, Location, Origin, Result, Value};
use liquid_test_refusals::WorkedRow;
use std::alloc::Global;

/// What a row answers whose call there isn't.
pub(crate) fn no_call(alloc: Global) -> Result<Value> {
    Err(unknown(alloc))
}

/// The fault of a row whose call there isn't: no row has it.
pub(crate) fn unknown(alloc: Global) -> Error {
    Error::with_message(ErrorKind::UnknownPartial, String::new(alloc))
}

/// The fault of the kind that a division by zero is, with the message of the row, as it is printed.
pub(crate) fn fault_call(alloc: Global, name: &str, row: &WorkedRow) -> Result<Value> {
    let message = row.source.as_str();
    match name {
        "new" => as_text(alloc, divided(alloc, message)),
        "formatted" => as_text(alloc, formatted(alloc, message)),
        "with_message" => with_message(alloc, message),
        "located" => as_text(alloc, located(alloc, message)),
        "in_partial" => as_text(
            alloc,
            located(alloc, message).in_partial(alloc, "a partial"),
        ),
        _ => no_call(alloc),
    }
}

fn divided(alloc: Global, message: &str) -> Error {
    Error::new(alloc, ErrorKind::DivideByZero, message)
}

fn formatted(alloc: Global, message: &str) -> Error {
    Error::formatted(
        alloc,
        ErrorKind::DivideByZero,
        format_args!("{message} and {}", -1),
    )
}

fn with_message(alloc: Global, message: &str) -> Result<Value> {
    let message = String::from_str(alloc, message)?;
    as_text(alloc, Error::with_message(ErrorKind::DivideByZero, message))
}

/// The fault at the second column of a template.
fn located(alloc: Global, message: &str) -> Error {
    let second_column = Location {
        origin: Origin::Template,
        line: 1,
        column: 2,
    };
    divided(alloc, message).located(alloc, second_column)
}

/// The fault as a text, unless it is that of memory.
fn as_text(alloc: Global, fault: Error) -> Result<Value> {
    if fault.kind == ErrorKind::Memory {
        return Err(fault);
    }
    Ok(Value::Text(fault.to_string(alloc)?))
}
