//! Kinds of characters.

pub(crate) fn is_quote(c: char) -> bool {
    c == '\'' || c == '"'
}

pub(crate) fn is_sign(c: char) -> bool {
    c == '-' || c == '+'
}

pub(crate) fn is_digit(c: char) -> bool {
    c.is_ascii_digit()
}

pub(crate) fn is_letter(c: char) -> bool {
    c.is_ascii_alphabetic()
}

/// A letter that stands in no name.
pub(crate) fn is_letter_beyond(c: char) -> bool {
    !c.is_ascii() && c.is_alphabetic()
}

/// What a word goes on with.
pub(crate) fn is_in_word(c: char) -> bool {
    c.is_ascii_alphanumeric() || c == '_' || c == '-'
}

/// What a text, a number or a name begins with.
pub(crate) fn begins_value(c: char) -> bool {
    c.is_ascii_alphanumeric() || is_quote(c)
}

/// What a value that can have steps, or a number, ends with.
pub(crate) fn ends_value(c: char) -> bool {
    is_in_word(c) || is_quote(c) || c == ']' || c == ')'
}

/// What follows the `.` of a step, or of one with white space in it.
pub(crate) fn follows_dot(c: char) -> bool {
    is_letter(c) || c == '_' || c == ' '
}
