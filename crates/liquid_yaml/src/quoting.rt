//! Texts in quotes: where they end, and what their escapes mean.
ghost use Rattle.std.specs.Prelude.{◌≡◌, ◌≤◌, ◌<◌, ◌++◌, ◌==◌, length, slice_index};
ghost use Rattle.std.specs.Prelude.{option_map, string_bytes};
ghost use Rattle.std.specs.Option.{option_to_list};
ghost use Rattle.std.specs.Str.{encode_utf8_all};
ghost use Rattle.liquid_model.specs.Answer.{IsValueOrMemory};
ghost use Rattle.liquid_yaml.specs.Quotings as spec;

use crate::scan::begins_with_byte;
use liquid_model::Result;
use std::alloc::Global;

/// Digits to the base of 16, of which so many are still to come.
#[derive(Clone, Copy, Drop)]
pub(crate) struct Digits {
    pub left: u32,
    pub code: u32,
}

/// Where the next character of a text in quotes stands.
#[derive(Clone, Copy, Drop)]
pub(crate) enum Escape {
    /// In no escape.
    Outside,
    /// After the sign that begins one.
    Sign,
    /// Among the digits of one.
    Digits(Digits),
}

/// Where the next character stands, and the character that is shown so far.
#[derive(Clone, Copy, Drop)]
pub(crate) struct Shown {
    pub after: Escape,
    pub letter: Option<char>,
}

/// Whether a byte before others begins an escape.
pub(crate) fn begins_escape(quote: u8, byte: u8, after: &[u8]) -> bool
    ensures { result ≡ spec.begins_escape quote byte after.now }
{
    if quote == b'"' {
        byte == b'\\'
    } else {
        byte == quote && begins_with_byte(quote, after)
    }
}

/// Whether the byte after this one is one of an escape.
fn escape_after(quote: u8, is_escaped: bool, byte: u8, after: &[u8]) -> bool
    ensures { result ≡ spec.escape_after quote is_escaped byte after.now }
{
    !is_escaped && begins_escape(quote, byte, after)
}

/// Whether a byte is the quote that ends a text.
fn ends_quoting(quote: u8, is_escaped: bool, byte: u8, after: &[u8]) -> bool
    ensures { result ≡ spec.ends_quoting quote is_escaped byte after.now }
{
    !is_escaped && !begins_escape(quote, byte, after) && byte == quote
}

/// How many bytes stand before the quote that ends a text.
pub(crate) fn quoting_len(quote: u8, bytes: &[u8]) -> usize
    ensures value { result ≡ spec.quoting_len quote bytes.now }
    ensures within { result ≤ length bytes.now }
    ensures ends { result < length bytes.now → slice_index bytes.now result ≡ quote }
{
    let mut is_escaped = false;
    let mut n = 0;
    while n < bytes.len() && !ends_quoting(quote, is_escaped, bytes[n], &bytes[n + 1..]) {
        is_escaped = escape_after(quote, is_escaped, bytes[n], &bytes[n + 1..]);
        n += 1;
    }
    n
}

/// The text of what stands between two quotes, or none where an escape isn't known. The answer is
/// `Memory` where a growth was refused, and no other kind.
pub(crate) fn quoted_text(alloc: Global, quote: u8, text: &str) -> Result<Option<String>>
    ensures { IsValueOrMemory (λ o. option_map string_bytes o) result
        (spec.quoted_text quote text.now) }
{
    let mut read = String::new(alloc);
    let mut place = Escape::Outside;
    let mut rest = text.chars();
    while let Some(letter) = rest.next() {
        match place.after(quote, letter) {
            Some(shown) => {
                push_letter(&mut read, shown.letter)?;
                place = shown.after;
            }
            None => return Ok(None),
        }
    }
    if place.is_outside() {
        Ok(Some(read))
    } else {
        Ok(None)
    }
}

fn push_letter(text: &mut String, letter: Option<char>) -> Result<()>
    ensures { IsValueOrMemory (λ _. string_bytes text.new) result
        (string_bytes text.old ++ encode_utf8_all (option_to_list letter)) }
{
    match letter {
        Some(letter) => Ok(text.push(letter)?),
        None => Ok(()),
    }
}

impl Escape {
    /// What one more character shows, where one may stand here.
    fn after(self, quote: u8, letter: char) -> Option<Shown>
        ensures { result ≡ spec.after_character quote self letter }
    {
        match self {
            Escape::Outside if letter == escape_sign(quote) => shown_later(Escape::Sign),
            Escape::Outside => shown_as(letter),
            Escape::Sign => escaped_as(quote, letter),
            Escape::Digits(digits) => match escape_digit(letter) {
                Some(digit) => digits.with(digit),
                None => None,
            },
        }
    }

    fn is_outside(self) -> bool
        ensures { result ≡ spec.is_outside_escapes self }
    {
        matches!(self, Escape::Outside)
    }
}

impl Digits {
    /// What one more digit shows.
    fn with(self, digit: u32) -> Option<Shown>
        ensures { result ≡ spec.more_digits self (spec.with_digit self.code digit) }
    {
        let code = self.code.saturating_mul(16).saturating_add(digit);
        if self.left > 1 {
            return shown_later(Escape::Digits(Digits {
                left: self.left - 1,
                code,
            }));
        }
        character_of(code)
    }
}

fn character_of(code: u32) -> Option<Shown>
    ensures { result ≡ spec.character_of code }
{
    match char::from_u32(code) {
        Some(letter) => shown_as(letter),
        None => None,
    }
}

fn shown_as(letter: char) -> Option<Shown>
    ensures { result ≡ spec.shown_as letter }
{
    Some(Shown {
        after: Escape::Outside,
        letter: Some(letter),
    })
}

fn shown_later(after: Escape) -> Option<Shown>
    ensures { result ≡ spec.shown_later after }
{
    Some(Shown {
        after,
        letter: None,
    })
}

fn escape_sign(quote: u8) -> char
    ensures { result ≡ spec.escape_sign quote }
{
    if quote == b'"' {
        '\\'
    } else {
        char::from(quote)
    }
}

fn escaped_as(quote: u8, letter: char) -> Option<Shown>
    ensures { result ≡ spec.escaped_as quote letter }
{
    if quote == b'"' {
        named_escape(letter)
    } else if letter == char::from(quote) {
        shown_as(letter)
    } else {
        None
    }
}

fn named_escape(letter: char) -> Option<Shown>
    ensures { result ≡ spec.named_escape letter }
{
    match letter {
        '"' | '\\' | '/' => shown_as(letter),
        'n' => shown_as('\n'),
        't' => shown_as('\t'),
        'r' => shown_as('\r'),
        'u' => shown_later(Escape::Digits(Digits { left: 4, code: 0 })),
        _ => None,
    }
}

fn escape_digit(letter: char) -> Option<u32>
    ensures { result ≡ spec.escape_digit letter }
{
    match letter {
        '0'..='9' => Some(letter as u32 - 48),
        'a'..='f' => Some(letter as u32 - 87),
        'A'..='F' => Some(letter as u32 - 55),
        _ => None,
    }
}
