//! Numbers and words of the data, and what is wrong with one.
use crate::flaw::Flaw;
use json::is_number;
use liquid_model::whole_of;

/// Whether a number or a word goes on with it.
pub fn is_in_word(sign: char) -> bool {
    sign.is_alphanumeric() || matches!(sign, '_' | '+' | '-' | '.')
}

/// The number or the word at the front.
pub fn word_front(from: &str) -> &str {
    match from.find(ends_word) {
        Some(end) => from.get(..end).unwrap_or(from),
        None => from,
    }
}

fn ends_word(sign: char) -> bool {
    !is_in_word(sign)
}

/// How many bytes the value at the front takes, which is a number or a word.
pub fn scalar_length(from: &str) -> Result<usize, Flaw<'_>> {
    let word = word_front(from);
    if matches!(word, "true" | "false" | "null") {
        return Ok(word.len());
    }
    if !is_number(word) {
        return Err(Flaw::quoting(from, words_of(word), word));
    }
    if is_too_large(word) {
        return Err(Flaw::quoting(
            from,
            "found `…`, a number that is too large; write the text `\"…\"`",
            word,
        ));
    }
    Ok(word.len())
}

/// Whether a number is beyond all floats, where the reader of JSON stops.
fn is_too_large(number: &str) -> bool {
    match fast_float::parse::<f64, &[u8]>(number.as_bytes()) {
        Ok(float) => !float.is_finite(),
        Err(_) => false,
    }
}

/// What to write in place of a word that is no value.
fn words_of(word: &str) -> &'static str {
    match word {
        "True" | "TRUE" | "tru" | "yes" | "Yes" => "found `…`; write `true`",
        "False" | "FALSE" | "fasle" | "flase" | "no" | "No" => "found `…`; write `false`",
        "None" | "nil" | "undefined" | "Null" | "NULL" | "nul" => "found `…`; write `null`",
        "NaN" | "nan" | "Infinity" | "-Infinity" | "inf" | "-inf" => {
            "found `…`, which is no number of JSON; write `null`, or the text `\"…\"`"
        }
        _ => if word.starts_with(begins_number) {
            number_words(word)
        } else {
            "found `…` where a value is wanted; a text stands in double quotes, as `\"…\"`"
        },
    }
}

fn begins_number(sign: char) -> bool {
    sign.is_ascii_digit() || matches!(sign, '+' | '-' | '.')
}

/// What to write in place of what begins as a number and is none.
fn number_words(word: &str) -> &'static str {
    let digits = word.strip_prefix('-').unwrap_or(word);
    if word.starts_with('+') {
        "found `…`; a number has no `+` before it"
    } else if digits.starts_with("0x") {
        "found `…`; a number is written in decimal digits"
    } else if is_digits(digits) {
        "found `…`; a number has no `0` before its digits"
    } else if is_decimal(digits) {
        FRACTION
    } else {
        "found `…`, which is no number; a text stands in double quotes, as `\"…\"`"
    }
}

/// What to write in place of a number that isn't whole.
const FRACTION: &str = "found `…`, and numbers are whole here: \
    count in a smaller unit, such as cents, or write the text `\"…\"`";

fn is_digits(text: &str) -> bool {
    !text.is_empty() && text.chars().all(|sign| sign.is_ascii_digit())
}

/// Whether it is made of digits and a point, with some digit.
fn is_decimal(text: &str) -> bool {
    text.split_once('.').is_some()
        && text
            .chars()
            .all(|sign| sign.is_ascii_digit() || sign == '.')
        && text.chars().any(|sign| sign.is_ascii_digit())
}

/// What is wrong with the first number, outside of texts, that isn't whole or past 64 bits.
pub fn number_flaw(text: &str) -> Flaw<'_> {
    let from = past_whole_numbers(text);
    let word = word_front(from);
    let words = if word == "-0" {
        "found `…`; write `0`"
    } else if word.contains(['.', 'e', 'E']) {
        FRACTION
    } else {
        "found `…`, which is beyond 64 bits; write the text `\"…\"`"
    };
    Flaw::quoting(from, words, word)
}

/// The text from its first number on, outside of texts, that isn't whole or past 64 bits.
fn past_whole_numbers(text: &str) -> &str {
    let mut quoted = false;
    let mut escaped = false;
    let mut begins = true;
    for (at, c) in text.char_indices() {
        if quoted {
            quoted = escaped || c != '"';
            escaped = c == '\\' && !escaped;
        } else {
            let rest = text.get(at..).unwrap_or("");
            if begins && (c.is_ascii_digit() || c == '-') && !is_whole(word_front(rest)) {
                return rest;
            }
            begins = !is_in_word(c);
            quoted = c == '"';
        }
    }
    text
}

/// Whether a number is whole and within 64 bits. `-0` is none of the whole numbers.
fn is_whole(number: &str) -> bool {
    number != "-0" && whole_of(number).is_some()
}
