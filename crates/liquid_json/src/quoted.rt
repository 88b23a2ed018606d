//! Texts of the data: where one ends, and what is wrong within it.
use crate::flaw::Flaw;

/// How many bytes the text at the front takes, with its quotes.
pub fn text_length(from: &str) -> Result<usize, Flaw<'_>> {
    let mut end: usize = 1;
    for (at, sign) in from.char_indices() {
        if at < end {
            continue;
        }
        let rest = from.get(at..).unwrap_or("");
        match sign {
            '"' => return Ok(at.saturating_add(1)),
            '\\' => end = at.saturating_add(escape_length(rest)?),
            '\0'..='\u{1f}' => return Err(raw_control(rest, sign)),
            _ => {}
        }
    }
    Err(Flaw::plain(from, "the text that begins here has no `\"` at its end"))
}

/// The text at the front up to its quote, or up to the end of its line.
pub fn text_front(from: &str) -> &str {
    let mut escaped = true;
    for (at, sign) in from.char_indices() {
        if sign == '"' && !escaped {
            return from.get(..at.saturating_add(1)).unwrap_or(from);
        }
        if sign == '\n' || sign == '\r' {
            return from.get(..at).unwrap_or(from);
        }
        escaped = at == 0 || (sign == '\\' && !escaped);
    }
    from
}

/// A control character that stands in a text as it is.
fn raw_control(from: &str, sign: char) -> Flaw<'_> {
    match sign {
        '\n' | '\r' => Flaw::plain(
            from,
            "the line ends within a text; close the text by `\"`, or write `\\n` for the line end",
        ),
        '\t' => Flaw::plain(from, "a tab stands in a text; write `\\t`"),
        _ => Flaw::quoting(
            from,
            "found `…` in a text; write it by `\\u` and four hex digits",
            front_chars(from, 1),
        ),
    }
}

/// How many bytes the escape at the front takes. What ends the text in it, or the line, is looked
/// at on its own.
fn escape_length(from: &str) -> Result<usize, Flaw<'_>> {
    match from.chars().nth(1) {
        Some('"' | '\\' | '/' | 'b' | 'f' | 'n' | 'r' | 't') => Ok(2),
        Some('u') => code_length(from),
        Some('\0'..='\u{1f}') | None => Ok(1),
        Some('\'') => Err(Flaw::quoting(
            from,
            "found `…` in a text, which is no escape; a `'` stands without a backslash",
            front_chars(from, 2),
        )),
        Some(_) => Err(Flaw::quoting(
            from,
            "found `…` in a text, which is no escape; a backslash is written `\\\\`",
            front_chars(from, 2),
        )),
    }
}

/// How many bytes the escape at the front takes, which begins with `\u`: that of a letter, or the
/// two that make one.
fn code_length(from: &str) -> Result<usize, Flaw<'_>> {
    let Some(code) = code_of(from) else {
        return Err(Flaw::quoting(
            from,
            "found `…` in a text; four hex digits follow `\\u`",
            code_front(from),
        ));
    };
    let half = Flaw::quoting(
        from,
        "found `…` in a text, which is half of a letter; write the letter itself",
        front_chars(from, 6),
    );
    if is_second_half(code) {
        return Err(half);
    }
    if !is_first_half(code) {
        return Ok(6);
    }
    match code_of(from.get(6..).unwrap_or("")) {
        Some(other) if is_second_half(other) => Ok(12),
        _ => Err(half),
    }
}

/// The four hex digits of the escape at the front.
fn code_of(from: &str) -> Option<&str> {
    let code = from.strip_prefix("\\u")?.get(..4)?;
    if code.chars().all(|digit| digit.is_ascii_hexdigit()) {
        Some(code)
    } else {
        None
    }
}

/// The escape at the front, up to its last hex digit.
fn code_front(from: &str) -> &str {
    for (at, sign) in from.char_indices().skip(2) {
        if at >= 6 || !sign.is_ascii_hexdigit() {
            return from.get(..at).unwrap_or(from);
        }
    }
    from
}

fn is_first_half(code: &str) -> bool {
    is_between(code, '8', 'b')
}

fn is_second_half(code: &str) -> bool {
    is_between(code, 'c', 'f')
}

/// Whether the code begins with a `d` and a digit from the least to the greatest.
fn is_between(code: &str, least: char, greatest: char) -> bool {
    let mut digits = code.chars();
    match (digits.next(), digits.next()) {
        (Some('d' | 'D'), Some(digit)) => {
            let small = digit.to_ascii_lowercase();
            small >= least && small <= greatest
        }
        _ => false,
    }
}

/// The first `most` characters, or the whole text where it has fewer.
fn front_chars(from: &str, most: usize) -> &str {
    match from.char_indices().nth(most) {
        Some((at, _)) => from.get(..at).unwrap_or(from),
        None => from,
    }
}
