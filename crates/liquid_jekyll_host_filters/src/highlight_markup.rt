//! The markup of Jekyll's block `highlight`: a language and options.
ghost use Rattle.std.specs.List.{prefix_len};
ghost use Rattle.std.specs.Prelude.{◌≡◌, ◌≤◌, length, string_bytes};
ghost use Rattle.liquid_model.specs.Answer.{IsValueOrMemory};
ghost use Rattle.liquid_jekyll_host_filters.specs.Highlight.{code_language, gap_after};
ghost use Rattle.liquid_jekyll_host_filters.specs.Highlight.{in_language, in_option, is_markup};
ghost use Rattle.liquid_jekyll_host_filters.specs.Highlight.{is_ruby_space, may_end};
ghost use Rattle.liquid_jekyll_host_filters.specs.Highlight.{next_in_markup};

use liquid_model::{Result, lower_case};
use std::alloc::Global;

/// Where in a markup a byte stands.
#[derive(Clone, Copy)]
enum MarkupPlace {
    /// Before the language.
    Start,
    /// In the language.
    Language,
    /// In white space, which an option follows.
    Gap,
    /// In the name of an option.
    Name,
    /// After the `=` of an option.
    Equals,
    /// In a value without quotes.
    Value,
    /// In quotes, where a number begins.
    Quote,
    /// In a number in quotes.
    Number,
    /// After the closing quote.
    Closed,
    /// After what no markup has there.
    Refused,
}

/// Space, tab, LF, VT, FF and CR.
pub(crate) fn is_ruby_space(byte: u8) -> bool
    ensures { result ≡ is_ruby_space byte }
{
    byte == b' ' || (9 <= byte && byte <= 13)
}

fn in_language(byte: u8) -> bool
    ensures { result ≡ in_language byte }
{
    byte.is_ascii_alphanumeric()
        || byte == b'.'
        || byte == b'+'
        || byte == b'#'
        || byte == b'_'
        || byte == b'-'
}

fn in_option(byte: u8) -> bool
    ensures { result ≡ in_option byte }
{
    byte.is_ascii_alphanumeric() || byte == b'_'
}

fn gap_after(byte: u8) -> MarkupPlace
    ensures { result ≡ gap_after byte }
{
    if is_ruby_space(byte) {
        MarkupPlace::Gap
    } else {
        MarkupPlace::Refused
    }
}

/// Where the markup is after the byte.
fn next_in_markup(place: MarkupPlace, byte: u8) -> MarkupPlace
    ensures { result ≡ next_in_markup place byte }
{
    match place {
        MarkupPlace::Start if in_language(byte) => MarkupPlace::Language,
        MarkupPlace::Language if in_language(byte) => MarkupPlace::Language,
        MarkupPlace::Gap if in_option(byte) => MarkupPlace::Name,
        MarkupPlace::Name if in_option(byte) => MarkupPlace::Name,
        MarkupPlace::Name if byte == b'=' => MarkupPlace::Equals,
        MarkupPlace::Equals if in_option(byte) => MarkupPlace::Value,
        MarkupPlace::Equals if byte == b'"' => MarkupPlace::Quote,
        MarkupPlace::Value if in_option(byte) => MarkupPlace::Value,
        MarkupPlace::Quote if byte.is_ascii_digit() => MarkupPlace::Number,
        MarkupPlace::Number if byte.is_ascii_digit() => MarkupPlace::Number,
        MarkupPlace::Number if byte == b'"' => MarkupPlace::Closed,
        MarkupPlace::Number if is_ruby_space(byte) => MarkupPlace::Quote,
        MarkupPlace::Language
        | MarkupPlace::Gap
        | MarkupPlace::Name
        | MarkupPlace::Value
        | MarkupPlace::Closed => gap_after(byte),
        _ => MarkupPlace::Refused,
    }
}

/// Whether a markup may end there.
fn may_end(place: MarkupPlace) -> bool
    ensures { result ≡ may_end place }
{
    matches!(
        place,
        MarkupPlace::Language | MarkupPlace::Name | MarkupPlace::Value | MarkupPlace::Closed
    )
}

/// Whether the text is a language with options or none, each after white space.
pub(crate) fn is_markup(text: &str) -> bool
    ensures { result ≡ is_markup text.now }
{
    may_end(text.bytes().fold(MarkupPlace::Start, next_in_markup))
}

/// How many bytes the language takes at the front.
fn language_len(text: &[u8]) -> usize
    ensures value { result ≡ prefix_len in_language text.now }
    ensures within { result ≤ length text.now }
{
    text.iter().take_while(|byte| in_language(**byte)).count()
}

/// The language at the front of a markup, in lower case.
pub(crate) fn code_language(alloc: Global, markup: &str) -> Result<String>
    ensures { IsValueOrMemory (λ s. string_bytes s) result (code_language markup.now) }
{
    let (language, _) = markup.split_at(language_len(markup.as_bytes()));
    lower_case(alloc, language)
}
