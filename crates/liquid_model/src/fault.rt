//! Faults of filters, with what was wanted and what was found.
ghost use Rattle.std.specs.Prelude.{IsTrue, Some, codes};
ghost use Rattle.liquid_model.specs.Errors.{HasMessageUnlessMemory};
ghost use Rattle.liquid_model.specs.Quotes.{is_line, most_bytes};
ghost use Rattle.liquid_model.specs.ErrorKinds.{IsKindOrMemory};
ghost use Rattle.liquid_model.specs.View.{view};
ghost use Rattle.liquid_model.specs.declared.error.ErrorKind.TheVariants.{InvalidArgument};
ghost use Rattle.liquid_model.specs.declared.error.ErrorKind.TheVariants.{InvalidInput};
ghost use Rattle.liquid_model.specs.Faults.{found_name, must_be};

use crate::{Error, ErrorKind, Quoted, Value};
use std::alloc::Global;
use std::fmt;
use std::fmt::{Formatter, Write};

/// The fault of an input that isn't what is wanted, which a few words with an article name.
pub fn invalid_input(alloc: Global, wanted: &str, found: &Value) -> Error
    ensures kind_or_memory { IsKindOrMemory InvalidInput result.kind }
    ensures message { IsTrue
        (is_line most_bytes (must_be (codes "the input") wanted.now (view found.now)))
        → HasMessageUnlessMemory (must_be (codes "the input") wanted.now (view found.now)) result }
{
    let found = FoundValue { value: found };
    Error::formatted(
        alloc,
        ErrorKind::InvalidInput,
        format_args!("the input must be {wanted}, not {found}"),
    )
}

/// The fault of an argument that isn't what is wanted, which a few words with an article name.
pub fn invalid_argument(alloc: Global, wanted: &str, found: &Value) -> Error
    ensures kind_or_memory { IsKindOrMemory InvalidArgument result.kind }
    ensures message { IsTrue
        (is_line most_bytes (must_be (codes "the argument") wanted.now (view found.now)))
        → HasMessageUnlessMemory (must_be (codes "the argument") wanted.now (view found.now))
        result }
{
    let found = FoundValue { value: found };
    Error::formatted(
        alloc,
        ErrorKind::InvalidArgument,
        format_args!("the argument must be {wanted}, not {found}"),
    )
}

/// A value as a message names it: what it is, and of a text its beginning.
#[derive(Clone, Copy)]
pub struct FoundValue<'v> {
    /// The value.
    pub value: &'v Value,
}

impl fmt::Display for FoundValue<'_> {
    ghost output = { λ f. Some (found_name (view f.value.now)) };

    fn fmt<W: Write>(&self, f: &mut Formatter<W>) -> fmt::Result {
        match self.value {
            Value::Nil => f.write_str("nil"),
            Value::Bool(_) => f.write_str("a truth value"),
            Value::Integer(_) => f.write_str("a number"),
            Value::Text(text) => {
                let text = text.as_str();
                write!(f, "the text `{}`", Quoted { text })
            }
            Value::Array(_) => f.write_str("a list"),
            Value::Object(_) => f.write_str("a map"),
        }
    }
}
