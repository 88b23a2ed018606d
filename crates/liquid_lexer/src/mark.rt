//! Marks, and the bodies of `raw` and `comment`, which run up to one.
ghost use Rattle.std.specs.Prelude.{◌≡◌, length, drop};
ghost use Rattle.std.specs.Option.{option_map};
ghost use Rattle.liquid_lexer.specs.SourceReading.{mark_at, mark_after, skip_dash};
ghost use Rattle.liquid_lexer.specs.SourceReading.{goes_on, in_body};
ghost use Rattle.liquid_lexer.specs.SourceReading.{in_comment, raw_at, comment_at};
ghost use Rattle.liquid_model.specs.Front.{past_byte, run_len};
ghost use Rattle.liquid_lexer.specs.PieceView.{mark_view};

use crate::item::{Delimiter, closer};
use crate::piece::Body;
use liquid_model::{past_byte, past_white, word};

/// A mark: a tag that is its name alone.
#[derive(Clone, Copy, Debug, PartialEq, Eq)]
pub struct Mark<'s> {
    pub name: &'s str,
    /// Whether it strips the text before it.
    pub before: bool,
    /// Whether it strips the text after it.
    pub after: bool,
}

/// Whether the text begins with a dash, and what follows it.
pub fn skip_dash(text: &str) -> (bool, &str)
    ensures { (result.0, result.1.now) ≡ skip_dash text.now (past_byte 45 text.now) }
{
    match past_byte(text, b'-') {
        Some(rest) => (true, rest),
        None => (false, text),
    }
}

/// The mark at the front, and what follows it.
#[tactic(auto, unfolding(crate::specs::SourceReading::mark_at))]
fn read_mark(text: &str) -> Option<(Mark, &str)>
    ensures { option_map (λ x. (mark_view x.0, x.1.now)) result ≡ mark_at text.now }
{
    let (before, inside) = skip_dash(past_byte(past_byte(text, b'{')?, b'%')?);
    mark_after(before, inside)
}

/// The mark after its opener, and what follows it; `before` tells whether the opener has a dash.
fn mark_after(before: bool, inside: &str) -> Option<(Mark, &str)>
    ensures { option_map (λ x. (mark_view x.0, x.1.now)) result ≡ mark_after (before, inside.now) }
{
    let (name, rest) = word(past_white(inside))?;
    let (after, rest) = closer(past_white(rest), Delimiter::Tag)?;
    Some((
        Mark {
            name,
            before,
            after,
        },
        rest,
    ))
}

/// Whether the body goes on where the text begins: no mark that counts in it stands there.
#[tactic(auto, unfolding(crate::specs::SourceReading::in_raw, crate::specs::SourceReading::in_comment))]
fn goes_on(text: &str, body: Body) -> bool
    ensures { result ≡ goes_on body text.now }
{
    let Some((mark, _)) = read_mark(text) else {
        return true;
    };
    match body {
        Body::Raw => mark.name != "endraw",
        Body::Comment => !matches!(mark.name, "comment" | "raw" | "endcomment"),
    }
}

/// How many bytes stand before the first mark that counts in the body, or before the end where
/// there is none.
fn body_len(text: &str, body: Body) -> usize
    ensures { result ≡ run_len (in_body body) text.now }
{
    let bytes = text.as_bytes();
    let mut n = 0;
    while n < bytes.len() && (bytes[n] != b'{' || goes_on(&text[n..], body)) {
        n += 1;
    }
    n
}

/// The text up to the first mark `endraw`, that mark, and what follows it.
#[tactic(auto, unfolding(crate::specs::SourceReading::raw_at), using(crate::proofs::MarkCuts::body_cut))]
pub fn read_raw(text: &str) -> Option<(&str, Mark, &str)>
    ensures { option_map (λ x. (x.0.now, mark_view x.1, x.2.now)) result ≡ raw_at text.now }
{
    let (body, rest) = text.split_at(body_len(text, Body::Raw));
    let (mark, rest) = read_mark(rest)?;
    Some((body, mark, rest))
}

/// The text from the first mark on that counts in a comment.
#[tactic(auto, using(crate::proofs::MarkCuts::body_cut))]
fn past_comment(text: &str) -> &str
    ensures { result.now ≡ drop (run_len in_comment text.now) text.now }
{
    &text[body_len(text, Body::Comment)..]
}

/// What follows the mark `endcomment` that closes the comment, and whether that mark strips it.
pub fn read_comment(text: &str) -> Option<(bool, &str)>
    ensures { option_map (λ x. (x.0, x.1.now)) result ≡ comment_at (length text.now) 0 text.now }
{
    let mut inner: usize = 0;
    let mut rest = text;
    'marks: loop {
        let (mark, after) = read_mark(past_comment(rest))?;
        if mark.name == "comment" {
            inner += 1;
            rest = after;
        } else if mark.name == "raw" {
            let (_, _, after) = read_raw(after)?;
            rest = after;
        } else if inner == 0 {
            return Some((mark.after, after));
        } else {
            inner -= 1;
            rest = after;
        }
    }
}
