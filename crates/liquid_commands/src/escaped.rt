//! A stranger's text, as a format can hold it.
ghost use Rattle.std.specs.Prelude.{◌≡◌, ◌++◌, ◌<◌, OnOk, option_map, string_bytes};
ghost use Rattle.liquid_commands.specs.Escapes.{control_escape, escaped_for, hex_digit};
ghost use Rattle.liquid_commands.specs.Escapes.{line_escape, message_escape, property_escape};
ghost use Rattle.liquid_commands.specs.Escapes.{shown_in, shown_in_json, shown_or};

use std::alloc::AllocError;

/// Where a text is written.
#[derive(Clone, Copy, Drop)]
pub(crate) enum Place {
    /// A line for people.
    Line,
    /// A text of JSON, between its quotes.
    Json,
    /// The message of a command of GitHub's.
    Message,
    /// A property of one, before the message.
    Property,
}

/// Appends a text as it is written in this place.
pub(crate) fn push_escaped(out: &mut String, text: &str, place: Place) -> Result<(), AllocError>
    ensures { OnOk result (string_bytes out.new ≡ string_bytes out.old
        ++ escaped_for place text.now) }
{
    let mut rest = text.chars();
    while let Some(letter) = rest.next() {
        push_shown(out, letter, place)?;
    }
    Ok(())
}

/// Appends a character as it is written in this place.
fn push_shown(out: &mut String, letter: char, place: Place) -> Result<(), AllocError>
    ensures { OnOk result
        (string_bytes out.new ≡ string_bytes out.old ++ shown_in place letter) }
{
    match place {
        Place::Json => push_in_json(out, letter),
        Place::Line => push_or(out, letter, line_escape(letter)),
        Place::Message => push_or(out, letter, message_escape(letter)),
        Place::Property => push_or(out, letter, property_escape(letter)),
    }
}

/// Appends what stands for a character, or else the character itself.
fn push_or(out: &mut String, letter: char, escape: Option<&str>) -> Result<(), AllocError>
    ensures { OnOk result (string_bytes out.new
        ≡ string_bytes out.old ++ shown_or letter (option_map (λ e. e.now) escape.entry)) }
{
    match escape {
        Some(escape) => out.push_str(escape),
        None => out.push(letter),
    }
}

/// What stands for a character in a line.
fn line_escape(letter: char) -> Option<&'static str>
    ensures { option_map (λ e. e.now) result ≡ line_escape letter }
{
    if letter.is_control() { Some("?") } else { None }
}

/// What stands for a character in the message of a command.
fn message_escape(letter: char) -> Option<&'static str>
    ensures { option_map (λ e. e.now) result ≡ message_escape letter }
{
    match letter {
        '%' => Some("%25"),
        '\r' => Some("%0D"),
        '\n' => Some("%0A"),
        _ => None,
    }
}

/// What stands for a character in a property of a command.
fn property_escape(letter: char) -> Option<&'static str>
    ensures { option_map (λ e. e.now) result ≡ property_escape letter }
{
    match letter {
        ':' => Some("%3A"),
        ',' => Some("%2C"),
        _ => message_escape(letter),
    }
}

/// Appends a character as it stands in a text of JSON.
fn push_in_json(out: &mut String, letter: char) -> Result<(), AllocError>
    ensures { OnOk result
        (string_bytes out.new ≡ string_bytes out.old ++ shown_in_json letter) }
{
    if letter.is_control() {
        return push_control(out, letter);
    }
    match letter {
        '"' => out.push_str("\\\""),
        '\\' => out.push_str("\\\\"),
        _ => out.push(letter),
    }
}

/// Appends a control character by its number.
fn push_control(out: &mut String, letter: char) -> Result<(), AllocError>
    ensures { OnOk result
        (string_bytes out.new ≡ string_bytes out.old ++ control_escape letter) }
{
    let number = letter as u32;
    out.push_str("\\u00")?;
    out.push(hex_digit(number / 16 % 16))?;
    out.push(hex_digit(number % 16))
}

fn hex_digit(digit: u32) -> char
    requires { digit < 16 }
    ensures { result ≡ hex_digit digit }
{
    let byte = if digit < 10 {
        48 + digit as u8
    } else {
        87 + digit as u8
    };
    byte as char
}
