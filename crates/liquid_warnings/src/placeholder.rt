//! Placeholders of other template languages, in a text.

/// What a stranger to this language meant by a part of a text.
#[derive(Clone, Copy)]
pub(crate) enum Meant<'s> {
    /// A value: the placeholder, and the path in it.
    Value(&'s str, &'s str),
    /// A tag, which begins like this.
    Tag(&'static str),
    /// A comment.
    Comment,
}

/// How a placeholder of a value opens and closes.
static FORMS: [(&str, &str); 10] = [
    ("${", "}"),
    ("#{", "}"),
    ("%{", "}"),
    ("{", "}"),
    ("[[", "]]"),
    ("<%=", "%>"),
    ("<%-", "%>"),
    ("<<", ">>"),
    ("\u{ab}", "\u{bb}"),
    ("%(", ")s"),
];

/// The words by which tags of other languages begin.
static TAGS: [&str; 6] = ["if", "for", "else", "elsif", "end", "unless"];

/// The place of the next sign by which a placeholder, a script or a style begins.
pub(crate) fn next_sign(text: &str) -> Option<usize> {
    text.find(['{', '[', '<', '%', '#', '$', '\u{ab}'])
}

/// Whether what stands after a text that begins with a sign is code, where that text says so: it
/// opens or closes a script or a style.
pub(crate) fn code_after(text: &str) -> Option<bool> {
    if text.starts_with("<script") || text.starts_with("<style") {
        Some(true)
    } else if text.starts_with("</script") || text.starts_with("</style") {
        Some(false)
    } else {
        None
    }
}

/// What is meant by the beginning of a text, before which another text stands.
pub(crate) fn meant_by<'s>(before: &str, text: &'s str) -> Option<Meant<'s>> {
    if let Some(after) = text.strip_prefix("{#") {
        return comment_in(after);
    }
    if let Some(after) = text.strip_prefix("{ %") {
        return tag_in(after, "{ %");
    }
    if let Some(after) = text.strip_prefix("<%") {
        if let Some(tag) = tag_in(after, "<%") {
            return Some(tag);
        }
    }
    value_in(before, text)
}

/// A comment, after its opener: the next sign closes it, or nothing but a piece follows.
fn comment_in<'s>(after: &str) -> Option<Meant<'s>> {
    if !after.starts_with(' ') {
        return None;
    }
    let closes = match after.find(['#', '{']) {
        Some(end) => after.get(end..)?.starts_with("#}"),
        // a piece follows
        None => after.trim_start().is_empty(),
    };
    if closes { Some(Meant::Comment) } else { None }
}

/// A tag, after its opener: the word of one stands there.
fn tag_in<'s>(after: &str, opener: &'static str) -> Option<Meant<'s>> {
    let inside = after.strip_prefix('-').unwrap_or(after);
    if !inside.starts_with(' ') {
        return None;
    }
    let word = word_of(inside.trim_start());
    if TAGS.contains(&word) {
        Some(Meant::Tag(opener))
    } else {
        None
    }
}

/// A value, between an opener and its closer.
fn value_in<'s>(before: &str, text: &'s str) -> Option<Meant<'s>> {
    for (opener, closer) in &FORMS {
        if let Some(after) = text.strip_prefix(*opener) {
            return value_between(before, text, after, closer);
        }
    }
    of_percent(text)
}

/// A value after its opener. A brace alone opens none after a letter or a sign of code.
fn value_between<'s>(
    before: &str,
    text: &'s str,
    after: &'s str,
    closer: &str,
) -> Option<Meant<'s>> {
    if text.starts_with('{') && !may_open(before) {
        return None;
    }
    let inside = after.trim_start_matches(' ');
    let path = path_of(inside);
    let rest = inside.get(path.len()..)?.trim_start_matches(' ');
    let past = rest.strip_prefix(closer)?;
    let whole = text.get(..text.len().saturating_sub(past.len()))?;
    Some(Meant::Value(whole, path))
}

/// `%name%`
fn of_percent(text: &str) -> Option<Meant<'_>> {
    let after = text.strip_prefix('%')?;
    let path = path_of(after);
    let past = after.get(path.len()..)?.strip_prefix('%')?;
    let whole = text.get(..text.len().saturating_sub(past.len()))?;
    Some(Meant::Value(whole, path))
}

/// Whether a brace that opens a placeholder may stand after this text.
fn may_open(before: &str) -> bool {
    match before.as_bytes().last() {
        Some(byte) => matches!(
            *byte,
            b' ' | b'\t' | b'\n' | b'\r' | b'>' | b'"' | b'\'' | b'(' | b',' | b'/' | b'-'
        ),
        None => true,
    }
}

/// The path that a text begins with: names with dots between them, of which none begins with a
/// digit; or nothing.
fn path_of(text: &str) -> &str {
    if !text.starts_with(is_letter) {
        return "";
    }
    let end = text.find(is_no_part).unwrap_or(text.len());
    text.get(..end).unwrap_or("")
}

/// The first name of a path.
pub(crate) fn first_name(path: &str) -> &str {
    match path.split_once('.') {
        Some((name, _)) => name,
        None => path,
    }
}

/// The letters that a text begins with.
fn word_of(text: &str) -> &str {
    let end = text.find(is_no_letter).unwrap_or(text.len());
    text.get(..end).unwrap_or("")
}

fn is_letter(letter: char) -> bool {
    letter.is_ascii_alphabetic() || letter == '_'
}

fn is_no_letter(letter: char) -> bool {
    !is_letter(letter)
}

fn is_no_part(letter: char) -> bool {
    !(letter.is_ascii_alphanumeric() || letter == '_' || letter == '.')
}
