//! Texts that are made of the words of others.
ghost use Rattle.std.specs.Prelude.{◌≡◌, ◌++◌, string_bytes};
ghost use Rattle.std.specs.Str.{encode_utf8_all};
ghost use Rattle.liquid_model.specs.Answer.{IsValueOrMemory};
ghost use Rattle.liquid_shopify_host_filters.specs.Words.{after, is_left_out, is_space};
ghost use Rattle.liquid_shopify_host_filters.specs.Words.{is_word_character};
ghost use Rattle.liquid_shopify_host_filters.specs.Words.{lead, character_role, separator, shaped};
ghost use Rattle.liquid_shopify_host_filters.specs.Words.{worded_character};
ghost use Rattle.liquid_shopify_host_filters.specs.Words.{worded_text};

use liquid_model::Result;
use std::alloc::Global;

/// What is made of a text's words.
#[derive(Clone, Copy, Drop)]
pub(crate) enum Wording {
    /// Words of ASCII letters, digits and `_` in lower case, with a hyphen between them; quotes and
    /// brackets are left out.
    Handle,
    /// Words between hyphens, underscores and spaces, each with its first letter in upper case,
    /// joined by nothing.
    Camel,
    /// Words between white space, with a space between them.
    Squish,
}

/// What a character is to a wording.
#[derive(Clone, Copy, Drop)]
pub(crate) enum Place {
    /// A part of a word.
    Word,
    /// It stands between words.
    Between,
    /// It is left out.
    Nowhere,
}

/// Where in a text a wording is.
#[derive(Clone, Copy, Drop)]
pub(crate) enum State {
    /// Before the first word.
    Before,
    /// In a word.
    Inside,
    /// After a word.
    Past,
}

/// What the wording makes of the text's words.
pub(crate) fn worded(alloc: Global, wording: Wording, text: &str) -> Result<String>
    ensures { IsValueOrMemory (λ s. string_bytes s) result (worded_text wording text.now) }
{
    let mut out = String::with_capacity(alloc, text.len())?;
    let mut rest = text.chars();
    let mut state = State::Before;
    while let Some(letter) = rest.next() {
        push_shown(&mut out, wording, state, letter)?;
        state = after(wording, state, letter);
    }
    Ok(out)
}

/// Appends what is written of a character: of a word's, itself in its shape, and before a further
/// word what stands between words.
fn push_shown(out: &mut String, wording: Wording, state: State, letter: char) -> Result<()>
    ensures { IsValueOrMemory (λ _. string_bytes out.new) result
        (string_bytes out.old ++ encode_utf8_all (worded_character wording state letter)) }
{
    match place_of(wording, letter) {
        Place::Word => {
            out.push_str(lead(wording, state))?;
            Ok(out.push(shaped(wording, state, letter))?)
        }
        Place::Between | Place::Nowhere => Ok(()),
    }
}

/// Where the wording is after a character.
fn after(wording: Wording, state: State, letter: char) -> State
    ensures { result ≡ after wording state letter }
{
    match (place_of(wording, letter), state) {
        (Place::Word, _) => State::Inside,
        (Place::Between, State::Inside) => State::Past,
        _ => state,
    }
}

/// What stands between the word before and the next one.
fn lead(wording: Wording, state: State) -> &'static str
    ensures { result.now ≡ lead wording state }
{
    match state {
        State::Past => separator(wording),
        State::Before | State::Inside => "",
    }
}

fn separator(wording: Wording) -> &'static str
    ensures { result.now ≡ separator wording }
{
    match wording {
        Wording::Handle => "-",
        Wording::Camel => "",
        Wording::Squish => " ",
    }
}

/// A word's character, as it is written.
fn shaped(wording: Wording, state: State, letter: char) -> char
    ensures { result ≡ shaped wording state letter }
{
    match (wording, state) {
        (Wording::Handle, _) => letter.to_ascii_lowercase(),
        (Wording::Camel, State::Before | State::Past) => letter.to_ascii_uppercase(),
        _ => letter,
    }
}

fn place_of(wording: Wording, letter: char) -> Place
    ensures { result ≡ character_role wording letter }
{
    match wording {
        Wording::Handle if is_word(letter) => Place::Word,
        Wording::Handle if is_left_out(letter) => Place::Nowhere,
        Wording::Camel if !matches!(letter, '-' | '_' | ' ') => Place::Word,
        Wording::Squish if !is_space(letter) => Place::Word,
        _ => Place::Between,
    }
}

fn is_word(letter: char) -> bool
    ensures { result ≡ is_word_character letter }
{
    letter.is_ascii_alphanumeric() || letter == '_'
}

fn is_left_out(letter: char) -> bool
    ensures { result ≡ is_left_out letter }
{
    matches!(letter, '\'' | '"' | '(' | ')' | '[' | ']')
}

fn is_space(letter: char) -> bool
    ensures { result ≡ is_space letter }
{
    matches!(letter, ' ' | '\t' | '\n' | '\u{b}' | '\u{c}' | '\r')
}
