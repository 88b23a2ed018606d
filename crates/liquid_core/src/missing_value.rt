//! What becomes of a value that is missing.

/// What a run does where it needs a value that is missing.
#[derive(Clone, Copy, Debug, PartialEq, Eq, Drop)]
pub enum Missing {
    /// It ends by `UnknownVariable`.
    IsFault,
    /// It goes on as if the value were nil.
    IsNil,
}
