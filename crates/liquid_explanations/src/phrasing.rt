//! What the message says of a fault, before it is a message: its words, and the texts that stand in
//! them.
use liquid_model::{excerpt, location};
use std::alloc::{AllocError, Global};
use std::fmt::Write;

/// What the message says of a place of a source. In the words `…` stands for a text that is quoted
/// as an `excerpt`, `¤` for a text as it is, `¹` and `²` for the numbers, and `§` for another
/// place, as `line 2, column 3`.
#[derive(Clone, Copy)]
pub struct Phrasing<'s> {
    /// The source from the place on.
    pub from: &'s str,
    pub words: &'static str,
    /// The texts that stand in the words.
    pub first: &'s str,
    pub second: &'s str,
    pub third: &'s str,
    /// The numbers that stand in the words.
    pub numbers: (usize, usize),
    /// The words after these, in which no text stands.
    pub then: &'static str,
    /// The source from the other place on.
    pub other: &'s str,
}

impl<'s> Phrasing<'s> {
    /// Words in which no text stands.
    pub(crate) fn plain(from: &'s str, words: &'static str) -> Phrasing<'s> {
        Phrasing::quoting(from, words, "", "")
    }

    /// Words in which two texts stand at most.
    pub(crate) fn quoting(
        from: &'s str,
        words: &'static str,
        first: &'s str,
        second: &'s str,
    ) -> Phrasing<'s> {
        Phrasing {
            from,
            words,
            first,
            second,
            third: "",
            numbers: (0, 0),
            then: "",
            other: "",
        }
    }

    /// The text that comes after the first `count` texts.
    fn text(&self, count: usize) -> &'s str {
        match count {
            0 => self.first,
            1 => self.second,
            _ => self.third,
        }
    }
}

/// The message that says it.
pub(crate) fn message_of(
    alloc: Global,
    source: &str,
    phrasing: &Phrasing<'_>,
) -> Result<String, AllocError> {
    let mut message = String::new(alloc);
    let mut count: usize = 0;
    for sign in phrasing.words.chars().chain(phrasing.then.chars()) {
        match sign {
            '§' => push_place(&mut message, source, phrasing.other)?,
            '¹' => push_number(&mut message, phrasing.numbers.0)?,
            '²' => push_number(&mut message, phrasing.numbers.1)?,
            '…' | '¤' => {
                push_text(alloc, &mut message, sign, phrasing.text(count))?;
                count = count.saturating_add(1);
            }
            _ => message.push(sign)?,
        }
    }
    Ok(message)
}

/// Adds a text, quoted or as it is.
fn push_text(
    alloc: Global,
    message: &mut String,
    sign: char,
    text: &str,
) -> Result<(), AllocError> {
    if sign == '¤' {
        return message.push_str(text);
    }
    let quoted = excerpt(alloc, text)?;
    message.push_str(quoted.as_str())
}

fn push_number(message: &mut String, number: usize) -> Result<(), AllocError> {
    write!(message, "{number}")
}

/// Adds where the source from a place on begins.
fn push_place(message: &mut String, source: &str, from: &str) -> Result<(), AllocError> {
    let place = location(source, from.len());
    write!(message, "{place}")
}
