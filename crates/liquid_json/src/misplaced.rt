//! What stands where it can't, and what to write in its place.
use crate::flaw::Flaw;
use crate::grammar::Wants;
use crate::quoted::text_front;
use crate::scalars::{is_in_word, word_front};

/// Signs that JSON hasn't, and what is said of each: `SIGN¦WORDS`, the first that fits.
static SIGNS: &str = "\
//¦found `//`; JSON has no comments: leave it out
/*¦found `/*`; JSON has no comments: leave it out
---¦found `---`; the data is JSON, as `{\"name\": \"Ada\"}`, and no YAML
#¦found `#`; JSON has no comments: leave it out
<!--¦found `<!--`; JSON has no comments: leave it out
“¦found `“`; a text stands in plain double quotes, `\"`
”¦found `”`; a text stands in plain double quotes, `\"`
„¦found `„`; a text stands in plain double quotes, `\"`
‘¦found `‘`; a text stands in plain double quotes, `\"`
’¦found `’`; a text stands in plain double quotes, `\"`
«¦found `«`; a text stands in plain double quotes, `\"`
\0¦found `\\0`; is the file UTF-16? Save it as UTF-8
\u{a0}¦a no-break space stands here; write a plain one
\u{200b}¦a space without width stands here; leave it out
\u{feff}¦a byte order mark stands here; leave it out
\u{2028}¦a line separator (U+2028) stands here; write a plain line end
";

/// What is said of data that begins with a mark that many editors don't show.
const BYTE_ORDER_MARK: &str =
    "the data begins with a byte order mark; save the file as UTF-8 without one";

/// What is wrong where something stands that isn't wanted.
pub fn misplaced(from: &str, sign: char, wants: Wants, in_list: bool) -> Flaw<'_> {
    if wants == Wants::Data && sign == '\u{feff}' {
        return Flaw::plain(from, BYTE_ORDER_MARK);
    }
    if let Some(words) = words_of_sign(from) {
        return Flaw::plain(from, words);
    }
    if sign.is_whitespace() && sign != ' ' {
        return Flaw::plain(
            from,
            "a space of another kind stands here; write a plain one",
        );
    }
    let takes_text = wants.takes_value() || wants.takes_key();
    if takes_text && (sign == '\'' || sign == '`') {
        return other_quotes(from, sign);
    }
    let first = found(from);
    Flaw {
        first,
        second: first,
        wanted: wants.words(in_list),
        ..Flaw::plain(from, words_of(from, sign, wants))
    }
}

/// What is said of a sign that JSON hasn't.
fn words_of_sign(from: &str) -> Option<&'static str> {
    for line in SIGNS.lines() {
        if let Some((sign, words)) = line.split_once('¦')
            && from.starts_with(sign)
        {
            return Some(words);
        }
    }
    None
}

/// A text between quotes that aren't double.
fn other_quotes(from: &str, quote: char) -> Flaw<'_> {
    let rest = from.get(1..).unwrap_or("");
    let line = rest.lines().next().unwrap_or("");
    match line.split_once(quote) {
        Some((text, _)) => Flaw {
            second: text,
            ..Flaw::quoting(
                from,
                "found `…`; a text stands in double quotes, as `\"…\"`",
                from.get(..text.len().saturating_add(2)).unwrap_or(from),
            )
        },
        None => Flaw::quoting(
            from,
            "found `…`; a text stands in double quotes, `\"`",
            from.get(..1).unwrap_or(from),
        ),
    }
}

fn words_of(from: &str, sign: char, wants: Wants) -> &'static str {
    match wants {
        Wants::Data => "found `…` where ¤ is wanted, as `{\"name\": \"Ada\"}`",
        Wants::Nothing if sign == ':' => {
            "found `…` after the end of the data; an object stands between `{` and `}`"
        }
        Wants::Nothing if begins_part(sign) || sign == ',' => {
            "found `…` after the end of the data, which is one object"
        }
        Wants::Nothing => "found `…` after the end of the data",
        Wants::Key if sign.is_ascii_digit() => {
            "found `…` where ¤ is wanted; a number has no `,` in it"
        }
        Wants::Key | Wants::KeyOrEnd if is_in_word(sign) => {
            "found `…` where ¤ is wanted; a key stands in double quotes, as `\"…\"`"
        }
        Wants::CommaOrEnd if begins_part(sign) => {
            "found `…` where ¤ is wanted; is a `,` missing before it?"
        }
        _ if wants.takes_value() && !matches!(sign, ',' | ':' | '}' | ']' | '=') => {
            "found `…` where ¤ is wanted; a text stands in double quotes"
        }
        _ => "found `…` where ¤ is wanted",
    }
}

/// What a value or a key begins with.
fn begins_part(sign: char) -> bool {
    sign.is_ascii_digit() || matches!(sign, '-' | '"' | '{' | '[')
}

/// What stands at the front: a text, a number, a word, or a sign.
fn found(from: &str) -> &str {
    if from.starts_with('"') {
        return text_front(from);
    }
    let word = word_front(from);
    if !word.is_empty() {
        return word;
    }
    match from.chars().next() {
        Some(sign) => from.get(..sign.len_utf8()).unwrap_or(from),
        None => "",
    }
}
