//! Faults: what kind one is, and a message for who reads it.
ghost use Rattle.std.specs.Prelude.{◌≡◌, ◌⊎◌, ◌||◌, true, false, Some, IfSome, IsSomeAnd, IsTrue};
ghost use Rattle.std.specs.Prelude.{is_some, string_bytes};
ghost use Rattle.std.specs.Option.{option_map, option_map_or};
ghost use Rattle.liquid_model.specs.ErrorKinds.{IsKindOrMemory, is_memory, number_of, name_of};
ghost use Rattle.liquid_model.specs.Quotes.{is_message};
ghost use Rattle.liquid_model.specs.declared.error.ErrorKind.TheVariants.{Memory};

use crate::line::line_of;
use crate::origin::Location;
use std::alloc::{AllocError, AllocFailed, Global};
use std::fmt;

/// The most bytes that a message has.
const MOST_BYTES: usize = 1000;

/// What a call answers that can meet a fault.
pub type Result<T> = std::result::Result<T, Error>;

/// What kind of fault an `Error` is.
#[derive(Clone, Copy, Debug, PartialEq, Eq, Drop)]
pub enum ErrorKind {
    /// A variable has no value where one is needed.
    UnknownVariable,
    /// The input of a filter, or the data, isn't of the kind that is needed.
    InvalidInput,
    /// An argument of a filter isn't of the kind that is needed.
    InvalidArgument,
    /// A value of another kind is needed, as a whole number or a list.
    UnexpectedValue,
    /// A whole number is beyond 64 bits.
    NumberRange,
    /// A division by 0.
    DivideByZero,
    /// A decimal number, which templates do not compute with.
    Float,
    /// A `cycle` without the value that its group stands at.
    CycleBounds,
    /// A `tablerow` with items and 0 columns.
    ZeroColumns,
    /// A loop's source with more than 9223372036854775807 items.
    RangeTooLong,
    /// No partial has the name.
    UnknownPartial,
    /// The name of a partial is no scalar.
    PartialName,
    /// Partials are nested beyond the runtime's depth.
    TooDeep,
    /// A pattern that `date` can't print.
    DateFormat,
    /// A time zone beyond 23 hours.
    TimezoneRange,
    /// What this library leaves out.
    Unsupported,
    /// No memory was to be had.
    Memory,
    /// The writer refused what was written.
    Write,
    /// The source ends inside an output, a tag or a quote.
    Unclosed,
    /// Something that is no item stands where one is wanted.
    BadItem,
    /// A number in the source is beyond 64 bits.
    NumberLiteral,
    /// A decimal number in the source.
    FloatLiteral,
    /// The words `empty` and `blank`, which this library leaves out.
    StateWord,
    /// No tag or block of the name.
    UnknownTag,
    /// No filter of the name.
    UnknownFilter,
    /// A filter with more or fewer arguments than it takes.
    FilterArguments,
    /// Another item is wanted, or none.
    Expected,
    /// The source ends inside a block.
    MissingEnd,
    /// Blocks or brackets are nested more than 200 deep.
    TooNested,
}

impl ErrorKind {
    /// The number of the kind: 1 to 18 of a run, 21 to 31 of a source.
    pub fn number(self) -> u8
        ensures { result ≡ number_of self }
    {
        match self {
            ErrorKind::UnknownVariable => 1,
            ErrorKind::InvalidInput => 2,
            ErrorKind::InvalidArgument => 3,
            ErrorKind::UnexpectedValue => 4,
            ErrorKind::NumberRange => 5,
            ErrorKind::DivideByZero => 6,
            ErrorKind::Float => 7,
            ErrorKind::CycleBounds => 8,
            ErrorKind::ZeroColumns => 9,
            ErrorKind::RangeTooLong => 10,
            ErrorKind::UnknownPartial => 11,
            ErrorKind::PartialName => 12,
            ErrorKind::TooDeep => 13,
            ErrorKind::DateFormat => 14,
            ErrorKind::TimezoneRange => 15,
            ErrorKind::Unsupported => 16,
            ErrorKind::Memory => 17,
            ErrorKind::Write => 18,
            ErrorKind::Unclosed => 21,
            ErrorKind::BadItem => 22,
            ErrorKind::NumberLiteral => 23,
            ErrorKind::FloatLiteral => 24,
            ErrorKind::StateWord => 25,
            ErrorKind::UnknownTag => 26,
            ErrorKind::UnknownFilter => 27,
            ErrorKind::FilterArguments => 28,
            ErrorKind::Expected => 29,
            ErrorKind::MissingEnd => 30,
            ErrorKind::TooNested => 31,
        }
    }

    /// The name of the kind, as it is written here.
    pub fn name(self) -> &'static str
        ensures { result.now ≡ name_of self }
    {
        match self {
            ErrorKind::UnknownVariable => "UnknownVariable",
            ErrorKind::InvalidInput => "InvalidInput",
            ErrorKind::InvalidArgument => "InvalidArgument",
            ErrorKind::UnexpectedValue => "UnexpectedValue",
            ErrorKind::NumberRange => "NumberRange",
            ErrorKind::DivideByZero => "DivideByZero",
            ErrorKind::Float => "Float",
            ErrorKind::CycleBounds => "CycleBounds",
            ErrorKind::ZeroColumns => "ZeroColumns",
            ErrorKind::RangeTooLong => "RangeTooLong",
            ErrorKind::UnknownPartial => "UnknownPartial",
            ErrorKind::PartialName => "PartialName",
            ErrorKind::TooDeep => "TooDeep",
            ErrorKind::DateFormat => "DateFormat",
            ErrorKind::TimezoneRange => "TimezoneRange",
            ErrorKind::Unsupported => "Unsupported",
            ErrorKind::Memory => "Memory",
            ErrorKind::Write => "Write",
            ErrorKind::Unclosed => "Unclosed",
            ErrorKind::BadItem => "BadItem",
            ErrorKind::NumberLiteral => "NumberLiteral",
            ErrorKind::FloatLiteral => "FloatLiteral",
            ErrorKind::StateWord => "StateWord",
            ErrorKind::UnknownTag => "UnknownTag",
            ErrorKind::UnknownFilter => "UnknownFilter",
            ErrorKind::FilterArguments => "FilterArguments",
            ErrorKind::Expected => "Expected",
            ErrorKind::MissingEnd => "MissingEnd",
            ErrorKind::TooNested => "TooNested",
        }
    }
}

/// A fault: its kind, a message that says what was found and what is wanted, and where it stands,
/// where that is known. `Memory` alone may lack a message. A message is one line of at most 1,000
/// bytes without control characters, and shows at most 60 characters of what a stranger wrote at a
/// place. Of `Write` alone, which a host makes, it may be any text.
#[derive(Debug)]
pub struct Error {
    pub kind: ErrorKind,
    pub message: Option<String>,
    /// In a box, since most answers are no faults and shouldn't be larger for it.
    pub location: Option<Box<Location>>,
    // There is a message unless the kind is `Memory`.
    pub ghost has_message: { (is_memory kind || is_some message) ≡ true },
    // It is a short line, unless the kind is `Write`.
    pub ghost is_short: { option_map_or (λ m. is_message kind (string_bytes m)) message true ≡
        true },
}

/// Drops the fields. Written by hand, so that each early return drops the value by one call to
/// prove.
impl Drop for Error {
    fn drop(self) {
        let Error {
            kind: _,
            message: _,
            location: _,
        } = self;
    }
}

impl Error {
    ghost use Rattle.liquid_model.specs.Errors.{HasMessageUnlessMemory, location_text};
    ghost use Rattle.liquid_model.specs.Errors.{message_text, partial_location_text};

    /// A fault of this kind with this message, or `Memory` where there is no room for the message.
    /// A message that is no short line is cut to its beginning that is one (`line_of`).
    pub fn new(alloc: Global, kind: ErrorKind, message: &str) -> Error
        ensures kind_or_memory { IsKindOrMemory kind result.kind }
        ensures message { IsTrue (is_message kind message.now) →
            HasMessageUnlessMemory message.now result }
    {
        match String::from_str(alloc, message) {
            Ok(text) => Error::with_message(kind, text),
            Err(refused) => Error::from(refused),
        }
    }

    /// A fault of this kind with this message. A message that is no short line is cut to its
    /// beginning that is one (`line_of`).
    pub fn with_message(kind: ErrorKind, message: String) -> Error
        ensures kind { result.kind ≡ kind }
        ensures message { IsTrue (is_message kind (string_bytes message)) → result.message ≡
            Some message }
    {
        Error {
            kind,
            message: Some(message_of(kind, message)),
            location: None,
        }
    }

    /// The same fault with this message in place of its own, as by `with_message`.
    pub fn reworded(self, message: String) -> Error
        ensures kind { result.kind ≡ self.kind }
        ensures message { IsTrue (is_message self.kind (string_bytes message)) → result.message ≡
            Some message }
        ensures location { result.location ≡ self.location }
    {
        let Error {
            kind,
            message: _,
            location,
        } = self;
        Error {
            kind,
            message: Some(message_of(kind, message)),
            location,
        }
    }

    /// A fault of this kind with a message that is written out, as a `format_args!` is, or `Memory`
    /// where there is no room for the message. A message that is no short line is cut to its
    /// beginning that is one (`line_of`).
    pub fn formatted<M: fmt::Display + Drop>(alloc: Global, kind: ErrorKind, message: M) -> Error
        ensures kind_or_memory { IsKindOrMemory kind result.kind }
        ensures message { IfSome (M.output message) (λ written. IsTrue (is_message kind written) →
            HasMessageUnlessMemory written result) }
    {
        match message.to_string(alloc) {
            Ok(written) => Error::with_message(kind, written),
            Err(refused) => Error::from(refused),
        }
    }

    /// Its message, or an empty text.
    pub fn message_text(&self) -> &str
        ensures { result.now ≡ message_text self.now.message }
    {
        match &self.message {
            Some(message) => message.as_str(),
            None => "",
        }
    }

    /// The same fault with where it stands. One that says where it stands already keeps that.
    /// `Memory`, without a message, where there is no room for the location.
    pub fn located(self, alloc: Global, location: Location) -> Error
        ensures kind_or_memory { IsKindOrMemory self.kind result.kind }
        ensures whole { is_memory result.kind ≡ false → (result.message ≡ self.message)
            × IsSomeAnd result.location (λ known. (self.location ≡ Some known) ⊎
            (known.value ≡ location)) }
        ensures kept { IfSome self.location (λ known. result ≡ self) }
    {
        if self.location.is_some() {
            return self;
        }
        let Error {
            kind,
            message,
            location: _,
        } = self;
        match Box::new(alloc, location) {
            Ok(location) => Error {
                kind,
                message,
                location: Some(location),
            },
            Err(refused) => Error::from(refused),
        }
    }

    /// The same fault, reported by the partial of this name: where it stands in the partial's own
    /// text, its location says so now.
    /// `Memory`, without a message, where there is no room for that.
    pub fn in_partial(self, alloc: Global, name: &str) -> Error
        ensures kind_or_memory { IsKindOrMemory self.kind result.kind }
        ensures message { is_memory result.kind ≡ false → result.message ≡ self.message }
        ensures location { is_memory result.kind ≡ false →
            option_map (λ l. location_text l.value) result.location ≡
            option_map (λ l. partial_location_text name.now l.value) self.location }
    {
        let Error {
            kind,
            message,
            location,
        } = self;
        let Some(location) = location else {
            return Error {
                kind,
                message,
                location: None,
            };
        };
        let moved = match Box::into_inner(location).in_partial(alloc, name) {
            Ok(moved) => moved,
            Err(refused) => return Error::from(refused),
        };
        match Box::new(alloc, moved) {
            Ok(location) => Error {
                kind,
                message,
                location: Some(location),
            },
            Err(refused) => Error::from(refused),
        }
    }
}

/// What a fault of this kind keeps of a text as its message.
fn message_of(kind: ErrorKind, text: String) -> String
    ensures message { IsTrue (is_message kind (string_bytes result)) }
    ensures same { IsTrue (is_message kind (string_bytes text)) → result ≡ text }
{
    if matches!(kind, ErrorKind::Write) {
        text
    } else {
        line_of(MOST_BYTES, text)
    }
}

/// The name of the kind.
impl fmt::Display for ErrorKind {
    ghost output = { λ kind. Some (name_of kind) };

    fn fmt<W: fmt::Write>(&self, f: &mut fmt::Formatter<W>) -> fmt::Result {
        f.write_str(self.name())
    }
}

/// `KIND: LOCATION: MESSAGE`, without the parts that the fault doesn't have.
impl fmt::Display for Error {
    ghost use Rattle.liquid_model.specs.Errors.{error_text};

    ghost output = { λ e. Some (error_text e) };

    fn fmt<W: fmt::Write>(&self, f: &mut fmt::Formatter<W>) -> fmt::Result {
        f.write_str(self.kind.name())?;
        if let Some(location) = &self.location {
            write!(f, ": {location}")?;
        }
        match &self.message {
            Some(message) => write!(f, ": {message}"),
            None => Ok(()),
        }
    }
}

impl std::error::Error for Error {}

impl From<AllocError> for Error {
    ghost from_gives = { λ _ e. e.kind ≡ Memory };

    fn from(_refused: AllocError) -> Error {
        Error {
            kind: ErrorKind::Memory,
            message: None,
            location: None,
        }
    }
}

impl<T: Drop> From<AllocFailed<T>> for Error {
    ghost from_gives = { λ _ e. e.kind ≡ Memory };

    fn from(_refused: AllocFailed<T>) -> Error {
        Error {
            kind: ErrorKind::Memory,
            message: None,
            location: None,
        }
    }
}
