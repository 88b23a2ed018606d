//! The names of a table's columns as templates can write them.
ghost use Rattle.std.specs.Prelude.{◌≡◌, ◌++◌, IfOk, OnOk, string_bytes};
ghost use Rattle.std.specs.Str.{encode_utf8_all};
ghost use Rattle.liquid_data.specs.Names as spec;

use crate::form::NameForm;
use liquid_model::word;
use std::alloc::{AllocError, Global};

/// Where in a name the next character stands.
#[derive(Clone, Copy, Debug, Drop)]
pub(crate) enum NamePlace {
    /// Before its first word.
    Before,
    /// In a word.
    Inside,
    /// After a word.
    Past,
}

/// The name of a column that is written so, in this form. `AllocError` where there is no room for
/// it, and nowhere else.
pub fn column_name(alloc: Global, name: &str, form: NameForm) -> Result<String, AllocError>
    ensures { IfOk result (λ s. string_bytes s ≡ spec.column_name form name.now) }
{
    match form {
        NameForm::AsWritten => String::from_str(alloc, name),
        NameForm::Snake => snake_name(alloc, name),
    }
}

/// Whether a template can write the name of a variable so: a word that is no literal. It takes no
/// memory.
pub fn is_writable(name: &str) -> bool
    ensures { result ≡ spec.is_writable name.now }
{
    match word(name) {
        Some((_, rest)) => rest.is_empty() && !is_literal(name),
        None => false,
    }
}

fn is_literal(name: &str) -> bool
    ensures { result ≡ spec.is_literal name.now }
{
    matches!(name, "nil" | "null" | "true" | "false" | "empty" | "blank")
}

fn snake_name(alloc: Global, name: &str) -> Result<String, AllocError>
    ensures { IfOk result (λ s. string_bytes s ≡ spec.snake_name name.now) }
{
    let words = snake_words(alloc, name)?;
    if is_writable(words.as_str()) {
        return Ok(words);
    }
    let mut led = String::from_str(alloc, "_")?;
    led.push_str(words.as_str())?;
    Ok(led)
}

/// The words of a name in lower case, with `_` between them.
fn snake_words(alloc: Global, name: &str) -> Result<String, AllocError>
    ensures { IfOk result (λ s. string_bytes s ≡ spec.snake_words name.now) }
{
    let mut words = String::with_capacity(alloc, name.len())?;
    let mut rest = name.chars();
    let mut place = NamePlace::Before;
    while let Some(letter) = rest.next() {
        push_shown(&mut words, place, letter)?;
        place = place_after(place, letter);
    }
    Ok(words)
}

/// Appends what is written of a character.
fn push_shown(words: &mut String, place: NamePlace, letter: char) -> Result<(), AllocError>
    ensures { OnOk result (string_bytes words.new
        ≡ string_bytes words.old ++ encode_utf8_all (spec.letter_shown place letter)) }
{
    if !letter.is_ascii_alphanumeric() {
        return Ok(());
    }
    words.push_str(lead(place))?;
    words.push(letter.to_ascii_lowercase())
}

/// What stands between the word before and the next one.
fn lead(place: NamePlace) -> &'static str
    ensures { result.now ≡ spec.between_words place }
{
    match place {
        NamePlace::Past => "_",
        NamePlace::Before | NamePlace::Inside => "",
    }
}

fn place_after(place: NamePlace, letter: char) -> NamePlace
    ensures { result ≡ spec.name_place_after place letter }
{
    if letter.is_ascii_alphanumeric() {
        return NamePlace::Inside;
    }
    match place {
        NamePlace::Before => NamePlace::Before,
        NamePlace::Inside | NamePlace::Past => NamePlace::Past,
    }
}
