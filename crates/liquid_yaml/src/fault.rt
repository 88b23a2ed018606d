//! Why YAML is refused.
ghost use Rattle.liquid_model.specs.ErrorKinds.{IsKindOrMemory};

use crate::quoting::quoting_len;
use crate::scan::is_rest;
use crate::value::is_numeric;
use liquid_model::{Error, ErrorKind, Location, Origin};
use std::alloc::Global;

/// The fault of front matter that no line ends.
pub(crate) fn no_end(alloc: Global) -> Error
    ensures { IsKindOrMemory ErrorKind.InvalidInput result.kind }
{
    Error::new(
        alloc,
        ErrorKind::InvalidInput,
        "the front matter has no end: write a line `---` after its last member",
    )
    .located(
        alloc,
        Location {
            origin: Origin::Template,
            line: 1,
            column: 1,
        },
    )
}

/// The fault of YAML that is no map.
pub(crate) fn no_map(alloc: Global) -> Error
    ensures { IsKindOrMemory ErrorKind.InvalidInput result.kind }
{
    Error::new(
        alloc,
        ErrorKind::InvalidInput,
        "the YAML is a list where members `key: value` are expected",
    )
}

/// The fault of a text that ends with a carriage return.
pub(crate) fn lone_return(alloc: Global) -> Error
    ensures { IsKindOrMemory ErrorKind.InvalidInput result.kind }
{
    Error::new(
        alloc,
        ErrorKind::InvalidInput,
        "the YAML ends with a carriage return: write a line feed after it",
    )
}

/// The fault of a line that isn't read.
pub(crate) fn bad_line(alloc: Global, line: &str, at: Location) -> Error
    ensures { IsKindOrMemory ErrorKind.InvalidInput result.kind }
{
    Error::new(alloc, ErrorKind::InvalidInput, reason(line)).located(alloc, at)
}

/// What is wrong with a line.
fn reason(line: &str) -> &'static str {
    if line.contains('\t') {
        return "this line of YAML has a tab: write spaces";
    }
    if let Some(words) = habit(line) {
        return words;
    }
    "this line of YAML isn't read: it is no `key: value` or `- value` at the column of those \
     before it, or its value wants quotes"
}

/// What is said of a line of a document after the first, of another form of data, or with more of
/// YAML than is read.
fn habit(line: &str) -> Option<&'static str> {
    let line = line.trim();
    if line.starts_with("---") || line == "..." {
        return Some("this line begins another document, and one is read: leave the others out");
    }
    let member = line.strip_prefix("- ").unwrap_or(line);
    match member.split_once(": ") {
        Some((_, value)) => of_value(value.trim_start()),
        None => of_word(member),
    }
}

/// What is said of a line without a `: `.
fn of_word(line: &str) -> Option<&'static str> {
    if line.starts_with("//") {
        return Some("a comment of YAML begins with `#`");
    }
    match line.split_once(':') {
        Some((key, value)) if is_key(key) && !value.is_empty() && !value.starts_with("//") => {
            Some("this line of YAML has no space after its `:`: write one")
        }
        None if line.contains(" = ") => {
            Some("this line is of TOML: in YAML a member is `key: value`")
        }
        _ => None,
    }
}

/// Whether a text has letters, digits and `_` alone, and one of the letters.
fn is_key(text: &str) -> bool {
    text.bytes().any(|byte| byte.is_ascii_alphabetic())
        && text
            .bytes()
            .all(|byte| byte.is_ascii_alphanumeric() || byte == b'_')
}

/// What is said of a value, by its first sign.
fn of_value(value: &str) -> Option<&'static str> {
    match value.as_bytes().first() {
        Some(b'&' | b'*') => Some(
            "this line of YAML has an anchor or an alias, which isn't read: write the value \
             itself, or quotes around a text",
        ),
        Some(b'!') => Some(
            "this line of YAML has a type, which isn't read: leave it out, or write quotes \
             around a text",
        ),
        Some(quote @ (b'"' | b'\'')) => of_quoted(*quote, value),
        Some(b'[' | b'{') => of_flow(value),
        Some(_) if is_numeric(value) && value.bytes().any(|b| b.is_ascii_digit()) => Some(
            "this line of YAML has a number that isn't whole, or a clock: write quotes around it, \
             and it is a text",
        ),
        Some(_) if value.contains(": ") => Some(
            "this line of YAML has a `: ` in its value: write quotes around the value",
        ),
        _ => None,
    }
}

/// What is said of a text in quotes.
fn of_quoted(quote: u8, value: &str) -> Option<&'static str> {
    if !is_closed(value, quote) {
        return Some(UNCLOSED);
    }
    if quote == b'"' && value.contains('\\') {
        return Some(
            "this line of YAML has an escape that isn't known: `\\\"`, `\\\\`, `\\/`, `\\n`, \
             `\\r`, `\\t` and `\\u00e9` are; or put the text between two `'`",
        );
    }
    None
}

/// What is said of a list in brackets or a map in braces.
fn of_flow(value: &str) -> Option<&'static str> {
    let value = value.trim();
    if !value.ends_with(']') && !value.ends_with('}') && !value.contains('#') {
        return Some(
            "this line of YAML has a list or map that no sign closes on it: write all of it on \
             one line, or a member or an item a line, without brackets and braces",
        );
    }
    Some(
        "this line of YAML has a list or map that isn't read: write it as `[a, b]` or \
         `{a: 1, b: c}`, with quotes around texts that have signs",
    )
}

/// What is said of a text in quotes that doesn't end as its line does.
const UNCLOSED: &str = "this line of YAML has a quote that ends before the line or not at all: \
                        close it, or put the text between the other quotes";

/// Whether a text that begins with a quote ends with it, before a comment at most.
fn is_closed(text: &str, quote: u8) -> bool {
    match text.as_bytes() {
        [] => false,
        [_, inside @ ..] => match &inside[quoting_len(quote, inside)..] {
            [] => false,
            [_, after @ ..] => is_rest(true, after),
        },
    }
}
