//! The filter that makes slugs.
ghost use Rattle.std.specs.Prelude.{◌≡◌, ◌++◌, ◌<◌, MatchOption, false, length, nat_le};
ghost use Rattle.std.specs.Prelude.{string_bytes};
ghost use Rattle.std.specs.Str.{chars, encode_utf8_all};
ghost use Rattle.liquid_model.specs.Answer.{Answers, IsValueOrMemory};
ghost use Rattle.liquid_model.specs.View.{view};
ghost use Rattle.liquid_filters.specs.Slugs.{hyphened, is_pretty, keeps, mode_named};
ghost use Rattle.liquid_filters.specs.Slugs.{slug, slug_character, slug_in};
ghost use Rattle.liquid_filters.specs.Slugs.{without_outer};
ghost use Rattle.liquid_filters.specs.Slugs.{slugify_answer, without_first};
ghost use Rattle.liquid_filters.specs.Slugs.{without_last};

use liquid_model::{Error, ErrorKind, Filter, Result, Value, text_of};
use std::alloc::Global;
use unicode::properties::is_alphabetic;

/// `slugify`: the input's text without the white space at its ends, with a `-` for each longest run
/// of characters that the mode doesn't keep, without the `-` at both ends, in lower case.
#[derive(Clone, Copy, Drop)]
pub struct Slugify;

impl Filter for Slugify {
    ghost counts = { λ _ n. nat_le n 1 };

    ghost answer = { λ _. slugify_answer };

    fn accepts(&self, count: usize) -> bool {
        count <= 1
    }

    /// `Unsupported` where the mode is `latin`.
    fn evaluate(&self, alloc: Global, input: &Value, args: &[Value]) -> Result<Value> {
        let mode = match args.first() {
            None => Mode::Default,
            Some(name) => mode_named(alloc, text_of(alloc, name)?.as_str())?,
        };
        slugified(alloc, input, mode)
    }
}

/// Which characters are kept.
#[derive(Clone, Copy, Drop)]
pub(crate) enum Mode {
    /// Alphabetic characters and digits.
    Default,
    /// All but white space.
    Raw,
    /// Those of the default mode, and some signs that stand in addresses.
    Pretty,
    /// ASCII letters and digits.
    Ascii,
    /// All: nothing is replaced.
    Nothing,
}

fn mode_named(alloc: Global, name: &str) -> Result<Mode>
    ensures { Answers (λ m. m) result (mode_named name.now) }
{
    match name {
        "raw" => Ok(Mode::Raw),
        "pretty" => Ok(Mode::Pretty),
        "ascii" => Ok(Mode::Ascii),
        "none" => Ok(Mode::Nothing),
        "latin" => Err(Error::new(
            alloc,
            ErrorKind::Unsupported,
            "the mode `latin` is left out",
        )),
        _ => Ok(Mode::Default),
    }
}

fn slugified(alloc: Global, input: &Value, mode: Mode) -> Result<Value>
    ensures { Answers view result (slug_in (view input.now) mode) }
{
    let text = text_of(alloc, input)?;
    Ok(Value::Text(slug(alloc, text.as_str(), mode)?))
}

fn slug(alloc: Global, text: &str, mode: Mode) -> Result<String>
    ensures { IsValueOrMemory (λ s. string_bytes s) result (slug mode text.now) }
{
    let all = hyphened(alloc, text.trim(), mode)?;
    Ok(inner(all.as_str()).to_ascii_lowercase(alloc)?)
}

fn keeps(mode: Mode, letter: char) -> bool
    ensures { result ≡ keeps mode letter }
{
    match mode {
        Mode::Default => is_alphabetic(letter) || letter.is_ascii_digit(),
        Mode::Raw => !letter.is_whitespace(),
        Mode::Pretty => is_alphabetic(letter) || letter.is_ascii_digit() || is_pretty(letter),
        Mode::Ascii => letter.is_ascii_alphanumeric(),
        Mode::Nothing => true,
    }
}

fn is_pretty(letter: char) -> bool
    ensures { result ≡ is_pretty letter }
{
    matches!(
        letter,
        '.' | '_' | '~' | '!' | '$' | '&' | '\'' | '(' | ')' | '+' | ',' | ';' | '=' | '@'
    )
}

/// A text with each longest run of characters that aren't kept as one hyphen.
fn hyphened(alloc: Global, text: &str, mode: Mode) -> Result<String>
    ensures { IsValueOrMemory (λ s. string_bytes s) result
        (encode_utf8_all (hyphened (keeps mode) false (chars text.now))) }
{
    let mut out = String::with_capacity(alloc, text.len())?;
    let mut rest = text.chars();
    let mut after = false;
    while let Some(letter) = rest.next() {
        let kept = keeps(mode, letter);
        push_shown(&mut out, letter, kept, after)?;
        after = !kept;
    }
    Ok(out)
}

/// Appends a character that is kept, or a hyphen where none was put for the character before it.
fn push_shown(out: &mut String, letter: char, kept: bool, after: bool) -> Result<()>
    ensures { IsValueOrMemory (λ _. string_bytes out.new) result (string_bytes out.old ++
        encode_utf8_all (slug_character kept after letter)) }
{
    if kept {
        return Ok(out.push(letter)?);
    }
    if after {
        return Ok(());
    }
    Ok(out.push('-')?)
}

/// A text without the hyphens at both ends.
fn inner(text: &str) -> &str
    ensures { chars result.now ≡ without_outer (chars text.now) }
{
    without_last(without_first(text))
}

fn without_first(text: &str) -> &str
    ensures { chars result.now ≡ without_first (chars text.now) }
{
    let mut rest = text;
    'hyphens: while let Some(after) = past_hyphen(rest) {
        rest = after;
    }
    rest
}

fn without_last(text: &str) -> &str
    ensures { chars result.now ≡ without_last (chars text.now) }
{
    let mut rest = text;
    'hyphens: while let Some(before) = before_hyphen(rest) {
        rest = before;
    }
    rest
}

/// What follows a hyphen, where a text begins with it.
fn past_hyphen(text: &str) -> Option<&str>
    ensures { MatchOption result (without_first (chars text.now) ≡ chars text.now)
        (λ rest. (without_first (chars text.now) ≡ without_first (chars rest.now)) ×
        (length rest.now < length text.now)) }
{
    let mut letters = text.chars();
    match letters.next() {
        Some(letter) => {
            let rest = letters.as_str();
            if letter == '-' { Some(rest) } else { None }
        }
        None => None,
    }
}

/// What stands before a hyphen, where a text ends with it.
fn before_hyphen(text: &str) -> Option<&str>
    ensures { MatchOption result (without_last (chars text.now) ≡ chars text.now)
        (λ rest. (without_last (chars text.now) ≡ without_last (chars rest.now)) ×
        (length rest.now < length text.now)) }
{
    let mut letters = text.chars();
    match letters.next_back() {
        Some(letter) => {
            let rest = letters.as_str();
            if letter == '-' { Some(rest) } else { None }
        }
        None => None,
    }
}
