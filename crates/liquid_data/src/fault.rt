//! Why a text gives no data.
ghost use Rattle.liquid_model.specs.ErrorKinds.{IsKindOrMemory};

use liquid_model::{Error, ErrorKind, Location, Origin, Quoted, location};
use std::alloc::Global;

/// The fault of a text that is no TOML, with where it stops being TOML.
pub(crate) fn no_toml(alloc: Global, text: &str, refused: &toml::de::Error) -> Error
    ensures { IsKindOrMemory ErrorKind.InvalidInput result.kind }
{
    let why = refused.message();
    let start = match refused.span() {
        Some(span) => span.start,
        None => 0,
    };
    match format!(in alloc; "the data is no TOML: {why}") {
        Ok(message) => Error::with_message(ErrorKind::InvalidInput, message).located(
            alloc,
            in_data(text, start),
        ),
        Err(refused) => Error::from(refused),
    }
}

/// The place in the data after the first `start` bytes.
fn in_data(text: &str, start: usize) -> Location {
    let Location { line, column, .. } = location(text, text.len().saturating_sub(start));
    Location {
        origin: Origin::Data,
        line,
        column,
    }
}

/// The fault of a document with a float, at this path.
pub(crate) fn float_fault(alloc: Global, path: &str) -> Error
    ensures { IsKindOrMemory ErrorKind.Float result.kind }
{
    let path = Quoted { text: path };
    let message = format!(in alloc;
        "`{path}` isn't a whole number, and numbers are whole here: count in a smaller unit, \
         such as cents, or write it as a text, in quotes"
    );
    match message {
        Ok(message) => Error::with_message(ErrorKind::Float, message),
        Err(refused) => Error::from(refused),
    }
}
