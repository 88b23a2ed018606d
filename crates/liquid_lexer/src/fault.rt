//! Why a source could not be read.
ghost use Rattle.std.specs.Prelude.{◌≡◌, ◌≤◌, length};
ghost use Rattle.liquid_model.specs.ErrorKinds.{number_of};
ghost use Rattle.liquid_lexer.specs.Readers.{kind_of};
ghost use Rattle.liquid_lexer.specs.declared.fault.ParseError.TheVariants.{Memory};

use crate::expectation::Expectation;
use liquid_model::ErrorKind;
use std::alloc::{AllocError, AllocFailed};

/// What kind of fault a source has.
#[derive(Clone, Copy, Debug, PartialEq, Eq)]
pub enum FaultKind {
    /// The source ends inside an output, a tag or a quote.
    Unclosed,
    /// What stands where an item is wanted is none.
    BadItem,
    /// A number is beyond 64 bits.
    NumberLiteral,
    /// A decimal number.
    FloatLiteral,
    /// One of the words `empty` and `blank`, which this library leaves out.
    StateWord,
    /// No tag or block of the name.
    UnknownTag,
    /// No filter of the name.
    UnknownFilter,
    /// A filter with more or fewer arguments than it takes.
    FilterArguments,
    /// Another item is wanted, or none.
    Expected,
    /// The source ends inside a block.
    MissingEnd,
    /// Blocks or brackets are nested more than 200 deep.
    TooNested,
}

impl FaultKind {
    /// The kind of the error that tells the fault: one of those of a source.
    pub fn kind(self) -> ErrorKind
        ensures kind { result ≡ kind_of self }
        ensures of_a_source { (21 ≤ number_of result) × (number_of result ≤ 31) }
    {
        match self {
            FaultKind::Unclosed => ErrorKind::Unclosed,
            FaultKind::BadItem => ErrorKind::BadItem,
            FaultKind::NumberLiteral => ErrorKind::NumberLiteral,
            FaultKind::FloatLiteral => ErrorKind::FloatLiteral,
            FaultKind::StateWord => ErrorKind::StateWord,
            FaultKind::UnknownTag => ErrorKind::UnknownTag,
            FaultKind::UnknownFilter => ErrorKind::UnknownFilter,
            FaultKind::FilterArguments => ErrorKind::FilterArguments,
            FaultKind::Expected => ErrorKind::Expected,
            FaultKind::MissingEnd => ErrorKind::MissingEnd,
            FaultKind::TooNested => ErrorKind::TooNested,
        }
    }
}

/// What is wrong, where, and what was expected there.
#[derive(Clone, Copy, Debug, PartialEq, Eq)]
pub struct Fault {
    pub kind: FaultKind,
    /// How many bytes of the source remain from the place on: where an item can't be read, or
    /// else where the piece opens.
    pub remaining: usize,
    /// What was expected here.
    pub expected: Expectation,
    /// Of a piece whose items are read but aren't allowed: how many of them remain from the one
    /// that is wrong. With 0 it is the closer, before which another is wanted.
    pub items_remaining: usize,
}

impl Fault {
    /// A fault where the rest of the source is `text`.
    pub fn new(kind: FaultKind, text: &str, expected: Expectation) -> Fault
        ensures kind { result.kind ≡ kind }
        ensures place { result.remaining ≡ length text.now }
    {
        Fault {
            kind,
            remaining: text.len(),
            expected,
            items_remaining: 0,
        }
    }
}

/// Why reading a source stopped: memory was refused, or the source has a fault.
#[derive(Debug, Drop)]
pub enum ParseError {
    Memory,
    Fault(Fault),
}

impl From<AllocError> for ParseError {
    ghost from_gives = { λ _ e. e ≡ Memory };

    fn from(_refused: AllocError) -> ParseError {
        ParseError::Memory
    }
}

impl<T: Drop> From<AllocFailed<T>> for ParseError {
    ghost from_gives = { λ _ e. e ≡ Memory };

    fn from(_refused: AllocFailed<T>) -> ParseError {
        ParseError::Memory
    }
}
