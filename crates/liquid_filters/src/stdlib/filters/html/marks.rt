//! Marks of HTML, which open and close what is cut: found in characters, in either case.
ghost use Rattle.std.specs.Prelude.{◌≡◌, ◌++◌, ◌<◌, ◌≤◌, IfSome, IsTrue, MatchOption, drop, false};
ghost use Rattle.std.specs.Prelude.{length, option_map, string_bytes, true};
ghost use Rattle.std.specs.Cow.{cow_str_bytes};
ghost use Rattle.std.specs.Str.{chars, encode_utf8_all};
ghost use Rattle.liquid_model.specs.Answer.{IsValueOrMemory};
ghost use Rattle.liquid_filters.specs.Tags.{SplitsAtFirst, begins_mark, is_mark, is_opener};
ghost use Rattle.liquid_filters.specs.Tags.{stands_for, strip_html, without_pairs};

use liquid_model::Result;
use std::alloc::Global;
use std::borrow::CowStr;

const SCRIPT: [char; 7] = ['<', 's', 'c', 'r', 'i', 'p', 't'];

const SCRIPT_END: [char; 9] = ['<', '/', 's', 'c', 'r', 'i', 'p', 't', '>'];

const STYLE: [char; 6] = ['<', 's', 't', 'y', 'l', 'e'];

const STYLE_END: [char; 8] = ['<', '/', 's', 't', 'y', 'l', 'e', '>'];

const COMMENT: [char; 4] = ['<', '!', '-', '-'];

const COMMENT_END: [char; 3] = ['-', '-', '>'];

const TAG: [char; 1] = ['<'];

const TAG_END: [char; 1] = ['>'];

/// The text without scripts, then without styles, comments and tags. Each of them ends by a `>`, so
/// a text without one stays.
pub fn without_tags(alloc: Global, text: &str) -> Result<String>
    ensures { IsValueOrMemory (λ s. string_bytes s) result (strip_html text.now) }
{
    if !text.contains('>') {
        return Ok(String::from_str(alloc, text)?);
    }
    let no_scripts = without_pairs(alloc, text, &SCRIPT, &SCRIPT_END)?;
    let no_styles = without_pairs(alloc, &no_scripts, &STYLE, &STYLE_END)?;
    let no_comments = without_pairs(alloc, &no_styles, &COMMENT, &COMMENT_END)?;
    let no_tags = without_pairs(alloc, &no_comments, &TAG, &TAG_END)?;
    Ok(no_tags.into_owned(alloc)?)
}

/// One pass: each opener is cut with what follows it, up to the end of the first closer after it. A
/// text without a pair of them is borrowed.
fn without_pairs<'a>(
    alloc: Global,
    text: &'a str,
    opener: &[char],
    closer: &[char],
) -> Result<CowStr<'a>>
    requires opens { IsTrue (is_opener opener.now) }
    requires closes { IsTrue (is_mark closer.now) }
    ensures { IsValueOrMemory (λ s. cow_str_bytes s) result
        (encode_utf8_all (without_pairs opener.now closer.now (chars text.now))) }
{
    let Some((before, after)) = split_at_pair(text, opener, closer) else {
        return Ok(CowStr::Borrowed(text));
    };
    let mut out = String::with_capacity(alloc, text.len())?;
    out.push_str(before)?;
    push_without_pairs(&mut out, after, opener, closer)?;
    Ok(CowStr::Owned(out))
}

/// Appends what a pass leaves of a text.
fn push_without_pairs(out: &mut String, text: &str, opener: &[char], closer: &[char]) -> Result<()>
    requires opens { IsTrue (is_opener opener.now) }
    requires closes { IsTrue (is_mark closer.now) }
    ensures { IsValueOrMemory (λ _. string_bytes out.new) result (string_bytes out.old ++
        encode_utf8_all (without_pairs opener.now closer.now (chars text.now))) }
{
    let mut rest = text;
    while let Some((before, after)) = split_at_pair(rest, opener, closer) {
        out.push_str(before)?;
        rest = after;
    }
    Ok(out.push_str(rest)?)
}

/// The text before the first opener and the text after the first closer that follows it. Where none
/// follows the first opener, none follows a later one, so the search ends there.
fn split_at_pair<'a>(text: &'a str, opener: &[char], closer: &[char]) -> Option<(&'a str, &'a str)>
    requires opens { IsTrue (is_opener opener.now) }
    requires closes { IsTrue (is_mark closer.now) }
    ensures cases { MatchOption result (without_pairs opener.now closer.now (chars text.now) ≡
        chars text.now)
        (λ p. without_pairs opener.now closer.now (chars text.now) ≡ chars p.0.now ++
        without_pairs opener.now closer.now (chars p.1.now)) }
    ensures shorter { IfSome result (λ p. length p.1.now < length text.now) }
{
    match split_at_mark(text, opener) {
        Some((before, body)) => match split_at_mark(body, closer) {
            Some((_, rest)) => Some((before, rest)),
            None => None,
        },
        None => None,
    }
}

/// The text before the first place of the mark, and what follows the mark there. Only where the
/// mark's first character stands is the rest of it looked for.
fn split_at_mark<'a>(text: &'a str, mark: &[char]) -> Option<(&'a str, &'a str)>
    requires { IsTrue (is_mark mark.now) }
    ensures splits { SplitsAtFirst mark.now (chars text.now)
        (option_map (λ p. (chars p.0.now, chars p.1.now)) result) }
    ensures shorter { IfSome result (λ p. length p.1.now < length text.now) }
{
    let (first, others) = mark.split_first()?;
    let mut rest = text;
    while let Some((_, after)) = rest.split_once(*first) {
        if let Some(left) = after_mark(after, others) {
            let (before, _) = text.split_at(text.len() - after.len() - 1);
            return Some((before, left));
        }
        rest = after;
    }
    None
}

/// What follows the mark, where the text begins with it.
fn after_mark<'a>(text: &'a str, mark: &[char]) -> Option<&'a str>
    ensures cases { MatchOption result (begins_mark mark.now (chars text.now) ≡ false)
        (λ r. (begins_mark mark.now (chars text.now) ≡ true) ×
        (chars r.now ≡ drop (length mark.now) (chars text.now))) }
    ensures within { IfSome result (λ r. length r.now ≤ length text.now) }
{
    let mut rest = text.chars();
    for wanted in mark {
        match rest.next() {
            Some(found) if stands_for(*wanted, found) => {}
            _ => return None,
        }
    }
    Some(rest.as_str())
}

/// Whether a character of a mark stands for this one.
fn stands_for(mark: char, found: char) -> bool
    ensures { result ≡ stands_for mark found }
{
    found.to_ascii_lowercase() == mark || (mark == 's' && found == '\u{17f}')
}
