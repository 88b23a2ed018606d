//! The values that a call gives.
ghost use Rattle.std.specs.Prelude.{◌≡◌, option_map};
ghost use Rattle.liquid_commands.specs.Words.{named_value, value_named, value_of_parts, value_view};

use crate::inputs::WordFault;
use crate::words::{Gap, split_at_equals};
use clap::ArgMatches;
use std::alloc::Global;

/// A value of a call, under its name.
#[derive(Clone, Copy, Drop)]
pub struct NamedValue<'w> {
    pub name: &'w str,
    /// A text, or the JSON of a value.
    pub word: &'w str,
    pub is_json: bool,
}

/// What a word NAME=TEXT or NAME:=JSON gives. It is parted at its first `=`, so any other sign may
/// stand in the name. None where there is no `=`, or no name before it. It takes no memory.
pub fn named_value(word: &str) -> Option<NamedValue<'_>>
    ensures { option_map value_view result ≡ named_value word.now }
{
    match split_at_equals(word) {
        Some((before, after)) => value_of_parts(before, after),
        None => None,
    }
}

fn value_of_parts<'w>(before: &'w str, word: &'w str) -> Option<NamedValue<'w>>
    ensures { option_map value_view result ≡ value_of_parts before.now word.now }
{
    match before.strip_suffix(":") {
        Some(name) => value_named(name, word, true),
        None => value_named(before, word, false),
    }
}

fn value_named<'w>(name: &'w str, word: &'w str, is_json: bool) -> Option<NamedValue<'w>>
    ensures { option_map value_view result ≡ value_named is_json name.now word.now }
{
    if name.is_empty() {
        return None;
    }
    Some(NamedValue {
        name,
        word,
        is_json,
    })
}

/// The values of a call, in the order in which the later wins.
pub(crate) fn values_of<'w>(
    alloc: Global,
    given: &ArgMatches<'w>,
) -> Result<Vec<NamedValue<'w>>, WordFault> {
    let mut values = Vec::new(alloc);
    for word in given.get_strs("define").unwrap_or_default() {
        let Some(value) = named_value(word) else {
            let word = String::from_str(alloc, word)?;
            return Err(WordFault::Lacking("-D", word, Gap::Value));
        };
        values.push(value)?;
    }
    Ok(values)
}
