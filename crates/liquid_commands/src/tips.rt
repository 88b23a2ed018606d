//! What is said where a file stands in the place of a command.
ghost use Rattle.std.specs.Prelude.{◌≡◌, option_map};
ghost use Rattle.std.specs.List.{list_all, list_any};
ghost use Rattle.liquid_commands.specs.Words.{is_plain_word, is_plain_byte, is_path_byte};
ghost use Rattle.liquid_commands.specs.Words.{habit_tip, is_template_path};

use crate::commands::program;
use crate::words::is_template_name;
use clap::Error;
use clap::error::ErrorKind;
use std::alloc::{AllocError, Global};

/// What is said where a shell's completions are asked for.
const COMPLETIONS: &str = "completions are those of a shell\n\n  tip: write `bikleinu \
                           completions bash`, `zsh` or `fish`";

/// What is wrong where the first word of a call names a file, and no command: `render` is likely
/// meant. None where it names none. `AllocError` where there is no room for it, and nowhere else.
pub fn command_fault(alloc: Global, words: &[String]) -> Result<Option<Error>, AllocError> {
    let [_, first, ..] = words else {
        return Ok(None);
    };
    if matches!(first.as_str(), "completions" | "completion") {
        return Ok(Some(no_command(alloc, COMPLETIONS)?));
    }
    if !is_template_path(first.as_str()) {
        return Ok(None);
    }
    let message = with_tip(alloc, first.as_str(), words)?;
    Ok(Some(no_command(alloc, message.as_str())?))
}

/// Says that a word is no command, and how to render a template with these words.
fn with_tip(alloc: Global, word: &str, words: &[String]) -> Result<String, AllocError> {
    let call = render_call(alloc, words)?;
    format!(in alloc;
        "unrecognized subcommand '{word}'\n\n  tip: to render a template, write '{call}'"
    )
}

/// What is wrong where an option isn't known and a word of the call is one that other programs
/// have, with the option for it, or where several words name templates. None where neither is so.
/// `AllocError` where there is no room for it, and nowhere else.
pub fn option_fault(alloc: Global, words: &[String]) -> Result<Option<Error>, AllocError> {
    for word in words {
        let word = word.as_str();
        if let Some(tip) = habit_tip(word) {
            let message = format!(in alloc; "unexpected argument '{word}' found\n\n  tip: {tip}")?;
            let fault = program(alloc)?.error(ErrorKind::UnknownArgument, message.as_str())?;
            return Ok(Some(fault));
        }
    }
    if count_templates(words) < 2 {
        return Ok(None);
    }
    let message = "one template is rendered a call\n\n  tip: call it for each, as \
                   'for t in *.liquid; do bikleinu render \"$t\" data.json; done'";
    Ok(Some(program(alloc)?.error(ErrorKind::UnknownArgument, message)?))
}

/// How many words name a template.
fn count_templates(words: &[String]) -> usize {
    let mut count: usize = 0;
    for word in words {
        count = count.saturating_add(is_template_name(word.as_str()) as usize);
    }
    count
}

/// What stands here for an option that other programs have. It takes no memory.
pub fn habit_tip(word: &str) -> Option<&'static str>
    ensures { option_map (λ t. t.now) result ≡ habit_tip word.now }
{
    match word {
        "--var" | "--set" | "--arg" => Some("-D NAME=TEXT gives a value"),
        "-v" => Some("-V prints the version"),
        _ => None,
    }
}

fn no_command(alloc: Global, message: &str) -> Result<Error, AllocError> {
    program(alloc)?.error(ErrorKind::InvalidSubcommand, message)
}

/// The call of `render` with these words.
fn render_call(alloc: Global, words: &[String]) -> Result<String, AllocError> {
    let mut call = String::from_str(alloc, "bikleinu render")?;
    for word in words.iter().skip(1) {
        if !is_plain(word.as_str()) {
            return String::from_str(alloc, "bikleinu render TEMPLATE [DATA]");
        }
        call.push(' ')?;
        call.push_str(word.as_str())?;
    }
    Ok(call)
}

/// Whether a word is the path of a file rather than the name of a command: each of its characters
/// may stand in a path that no shell reads otherwise, and a dot or a slash is among them. It takes
/// no memory.
pub fn is_template_path(word: &str) -> bool
    ensures { result ≡ is_template_path word.now }
{
    is_plain(word) && has_path_byte(word.as_bytes())
}

fn has_path_byte(bytes: &[u8]) -> bool
    ensures { result ≡ list_any is_path_byte bytes.now }
{
    for byte in bytes {
        if is_path_byte(*byte) {
            return true;
        }
    }
    false
}

fn is_path_byte(byte: u8) -> bool
    ensures { result ≡ is_path_byte byte }
{
    byte == b'.' || byte == b'/'
}

fn is_plain(word: &str) -> bool
    ensures { result ≡ is_plain_word word.now }
{
    are_plain(word.as_bytes())
}

fn are_plain(bytes: &[u8]) -> bool
    ensures { result ≡ list_all is_plain_byte bytes.now }
{
    for byte in bytes {
        if !is_plain_byte(*byte) {
            return false;
        }
    }
    true
}

fn is_plain_byte(byte: u8) -> bool
    ensures { result ≡ is_plain_byte byte }
{
    matches!(byte, b'+'..=b':' | b'=' | b'@'..=b'Z' | b'_' | b'a'..=b'z')
}
