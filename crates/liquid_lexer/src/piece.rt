//! Outputs and tags, and the bodies after tags that aren't read.
ghost use Rattle.std.specs.Prelude.{◌≡◌, [], length};
ghost use Rattle.std.specs.Option.{option_map};
ghost use Rattle.liquid_lexer.specs.SourceReading.{opener_at, markup_at, bare_name, tag_name};
ghost use Rattle.liquid_lexer.specs.SourceReading.{body_at, name_at};
ghost use Rattle.liquid_lexer.specs.Readers.{Parses};
ghost use Rattle.liquid_lexer.specs.PieceView.{piece_view, markup_view};

use crate::cut::stripped;
use crate::expectation::Expectation;
use crate::fault::{Fault, FaultKind, ParseError};
use crate::item::{Delimiter, Item, read_items};
use crate::mark::{read_comment, read_raw, skip_dash};
use crate::style::{Style, read_styled};
use crate::value::unexpected;
use liquid_model::{past_byte, past_white, word};
use std::alloc::Global;
use std::collections::VecDeque;

/// A part of a source between its texts.
#[derive(Drop)]
pub enum Piece<'s> {
    /// An output and its items.
    Output(VecDeque<Item<'s>>),
    /// A tag's name and its items.
    Tag(&'s str, VecDeque<Item<'s>>),
    /// A tag's name and the verbatim body after it, stripped.
    Raw(&'s str, &'s str),
    /// The name of a tag after which a comment was skipped.
    Comment(&'s str),
}

/// An output or a tag, and whether it strips the text before it and the text after it.
#[derive(Drop)]
pub struct Markup<'s> {
    pub before: bool,
    pub piece: Piece<'s>,
    pub after: bool,
}

/// A body that isn't read.
#[derive(Clone, Copy, Debug, PartialEq, Eq)]
pub enum Body {
    /// It runs up to the first mark `endraw`, and is kept.
    Raw,
    /// It runs up to the mark `endcomment` that closes it, and is dropped.
    Comment,
}

pub(crate) fn opener(text: &str) -> Option<(Delimiter, &str)>
    ensures { option_map (λ x. (x.0, x.1.now)) result ≡ opener_at text.now }
{
    if let Some(rest) = past_byte(text, b'{') {
        return Some((Delimiter::Output, rest));
    }
    Some((Delimiter::Tag, past_byte(text, b'%')?))
}

/// The name of the tag after a `{`, where one begins there.
#[tactic(auto, unfolding(crate::specs::SourceReading::name_at))]
pub fn name_after(text: &str) -> Option<&str>
    ensures { option_map (λ w. w.now) result ≡ name_at text.now }
{
    let (kind, rest) = opener(text)?;
    let (_, inside) = skip_dash(rest);
    match kind {
        Delimiter::Output => None,
        Delimiter::Tag => {
            let (name, _) = word(past_white(inside))?;
            Some(name)
        }
    }
}

/// The output or tag after a `{`, a tag in the style, and what follows it.
#[tactic(auto, unfolding(crate::specs::SourceReading::markup_at))]
pub fn read_markup<'s>(
    alloc: Global,
    text: &'s str,
    style: Style,
) -> Result<(Markup<'s>, &'s str), ParseError>
    ensures { Parses (λ x. (markup_view x.0, x.1.now)) result (markup_at (λ w. style) text.now) }
{
    let Some((kind, rest)) = opener(text) else {
        return Err(ParseError::Fault(unexpected(text, Expectation::Opener)));
    };
    let (before, inside) = skip_dash(rest);
    match kind {
        Delimiter::Output => {
            let (items, after, rest) = read_items(alloc, inside, kind)?;
            let piece = Piece::Output(items);
            Ok((
                Markup {
                    before,
                    piece,
                    after,
                },
                rest,
            ))
        }
        Delimiter::Tag => {
            let inside = past_white(inside);
            let Some((name, rest)) = word(inside) else {
                return Err(ParseError::Fault(no_name(inside)));
            };
            let (items, after, rest) = read_styled(alloc, rest, style)?;
            let piece = Piece::Tag(name, items);
            Ok((
                Markup {
                    before,
                    piece,
                    after,
                },
                rest,
            ))
        }
    }
}

/// The fault of a tag without a name: `Unclosed` where nothing is left, else `Expected`.
fn no_name(text: &str) -> Fault
    ensures unclosed { text.now ≡ [] → result.kind ≡ FaultKind.Unclosed }
    ensures expected { (text.now ≡ [] → ⊥) → result.kind ≡ FaultKind.Expected }
    ensures place { result.remaining ≡ length text.now }
{
    if text.is_empty() {
        Fault::new(FaultKind::Unclosed, text, Expectation::TagName)
    } else {
        Fault::new(FaultKind::Expected, text, Expectation::TagName)
    }
}

/// The name of a tag without items, after which alone a body may stand.
pub fn bare_name<'s>(piece: &Piece<'s>) -> Option<&'s str>
    ensures { option_map (λ w. w.now) result ≡ bare_name (piece_view piece.now) }
{
    match piece {
        Piece::Tag(name, items) => { if items.is_empty() { Some(*name) } else { None } }
        Piece::Output(_) => None,
        Piece::Raw(_, _) => None,
        Piece::Comment(_) => None,
    }
}

/// The name of a tag; other pieces have an empty one.
fn tag_name<'s>(piece: Piece<'s>) -> &'s str
    ensures { result.now ≡ tag_name (piece_view piece.entry) }
{
    match piece {
        Piece::Tag(name, _) => name,
        Piece::Output(_) => "",
        Piece::Raw(_, _) => "",
        Piece::Comment(_) => "",
    }
}

/// The fault of a body that doesn't end, at the end of the source.
fn without_end(end: Expectation) -> Fault
    ensures kind { result.kind ≡ FaultKind.MissingEnd }
    ensures place { result.remaining ≡ 0 }
{
    Fault::new(FaultKind::MissingEnd, "", end)
}

/// A tag with the verbatim body after it, where it is to have one.
pub fn read_body<'s>(
    body: Option<Body>,
    markup: Markup<'s>,
    text: &'s str,
) -> Result<(Markup<'s>, &'s str), ParseError>
    ensures { Parses (λ x. (markup_view x.0, x.1.now)) result
        (body_at body (markup_view markup.entry) text.now) }
{
    let Some(kind) = body else {
        return Ok((markup, text));
    };
    let before = markup.before;
    match kind {
        Body::Raw => {
            let Some((inside, end, rest)) = read_raw(text) else {
                return Err(ParseError::Fault(without_end(Expectation::End("endraw"))));
            };
            let inside = stripped(markup.after, inside, end.before);
            let piece = Piece::Raw(tag_name(markup.piece), inside);
            Ok((
                Markup {
                    before,
                    piece,
                    after: end.after,
                },
                rest,
            ))
        }
        Body::Comment => {
            let Some((after, rest)) = read_comment(text) else {
                return Err(ParseError::Fault(without_end(Expectation::End("endcomment"))));
            };
            let piece = Piece::Comment(tag_name(markup.piece));
            Ok((
                Markup {
                    before,
                    piece,
                    after,
                },
                rest,
            ))
        }
    }
}
