//! Where the data has a fault, and its message with that place. The data is read once more for it,
//! so that data without a fault pays nothing.
ghost use Rattle.liquid_model.specs.ErrorKinds.{IsKindOrMemory};

use crate::flaw::{Flaw, message_of};
use crate::grammar::{Wants, first_flaw};
use crate::scalars::number_flaw;
use liquid_model::{Error, ErrorKind, Location, Origin};
use std::alloc::Global;

/// The fault of a text that is no JSON, where data or a value is wanted, with where it stops being
/// JSON.
pub fn no_json(alloc: Global, text: &str, wants: Wants) -> Error
    ensures { IsKindOrMemory ErrorKind.InvalidInput result.kind }
{
    let flaw = match first_flaw(text, wants) {
        Some(flaw) => flaw,
        None => Flaw::plain(text, "the data is no JSON"),
    };
    error_at(alloc, text, ErrorKind::InvalidInput, &flaw)
}

/// The fault of data that is JSON, with where it stands: at a number that isn't whole, or else at
/// the first value.
pub fn with_place(alloc: Global, text: &str, error: Error) -> Error
    ensures { IsKindOrMemory error.kind result.kind }
{
    let flaw = match error.kind {
        ErrorKind::Memory => return error,
        ErrorKind::Float => number_flaw(text),
        _ => no_object(text),
    };
    error_at(alloc, text, error.kind, &flaw)
}

/// A fault of this kind that says what is wrong, and where.
fn error_at(alloc: Global, text: &str, kind: ErrorKind, flaw: &Flaw<'_>) -> Error
    ensures { IsKindOrMemory kind result.kind }
{
    match message_of(alloc, flaw) {
        Ok(message) => Error::with_message(kind, message).located(
            alloc,
            location(text, flaw.from.len()),
        ),
        Err(refused) => Error::from(refused),
    }
}

/// Data that is JSON and no object.
fn no_object(text: &str) -> Flaw<'_> {
    let from = text.trim_start();
    let words = match from.chars().next() {
        Some('[') => "the data is a list, and has to be an object, as `{\"items\": []}`",
        Some('"') => "the data is a text, and has to be an object, as `{\"name\": \"Ada\"}`",
        Some('t' | 'f') => "the data is a boolean, and has to be an object, as `{\"shown\": true}`",
        Some('n') => "the data is null, and has to be an object, as `{}`",
        _ => "the data is a number, and has to be an object, as `{\"count\": 1}`",
    };
    Flaw::plain(from, words)
}

/// The location of the place `remaining` bytes before the end of the data.
fn location(text: &str, remaining: usize) -> Location {
    let place = liquid_model::location(text, remaining);
    Location {
        origin: Origin::Data,
        line: place.line,
        column: place.column,
    }
}
