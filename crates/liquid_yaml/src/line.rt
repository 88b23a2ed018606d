//! The lines of YAML.
ghost use Rattle.std.specs.Prelude.{◌≡◌, ◌≤◌, length, option_map};
ghost use Rattle.std.specs.List.{prefix_len};
ghost use Rattle.liquid_yaml.specs.Lines as spec;
ghost use Rattle.liquid_yaml.specs.Lines.{line_view, setting_view};

use crate::scan::{
    begins_with_byte, is_ended, is_key_byte, is_letter, spaces_in, trimmed, without_spaces,
};
use crate::value::is_word;

/// How far to the right a member or an item may begin.
const WIDEST: usize = 200;

/// A value under a key, after so many bytes of its line.
#[derive(Clone, Copy, Drop)]
pub(crate) struct Member<'t> {
    pub column: usize,
    pub key: &'t str,
    pub value: &'t str,
}

/// An item of a list, a value, or a part of a text, after so many spaces.
#[derive(Clone, Copy, Drop)]
pub(crate) struct Part<'t> {
    pub column: usize,
    pub value: &'t str,
}

/// An item of a list, after so many spaces, that is a map and stands before its first member.
#[derive(Clone, Copy, Drop)]
pub(crate) struct MapItem<'t> {
    pub column: usize,
    pub first: Member<'t>,
}

/// What a line says.
#[derive(Clone, Copy, Drop)]
pub(crate) enum Line<'t> {
    /// Nothing: it is blank.
    Blank,
    /// Nothing: it is a comment.
    Note,
    /// A member of a map.
    Sets(Member<'t>),
    /// An item of a list.
    Adds(Part<'t>),
    /// An item of a list that is a map.
    AddsMap(MapItem<'t>),
    /// A value, or a part of a text.
    Spells(Part<'t>),
}

/// Whether a line opens front matter, where it is the first.
pub(crate) fn opens(line: &str) -> bool
    ensures { result ≡ spec.opens_front line.now }
{
    trimmed(line) == "---"
}

/// Whether a line ends front matter.
pub(crate) fn closes(line: &str) -> bool
    ensures { result ≡ spec.ends_front line.now }
{
    matches!(trimmed(line), "---" | "...")
}

/// What a line says that is trimmed at its end, where it says something that is read here.
pub(crate) fn said(line: &str) -> Option<Line<'_>>
    ensures { option_map line_view result ≡ spec.said line.now }
{
    let column = spaces_in(line);
    if column > WIDEST {
        return None;
    }
    Some(said_after(column, without_spaces(line)))
}

#[tactic(auto, using(liquid_model::proofs::Cuts::past_first))]
fn said_after(column: usize, text: &str) -> Line<'_>
    requires { column ≤ spec.widest }
    ensures { line_view result ≡ spec.said_after column text.now }
{
    match text.as_bytes() {
        [] => Line::Blank,
        [b'#', ..] => Line::Note,
        [b'-', after @ ..] if is_ended(after) => item_of(column, &text[1..]),
        _ => match member_of(false, column, text) {
            Some(member) => Line::Sets(member),
            None => Line::Spells(Part {
                column,
                value: text,
            }),
        },
    }
}

/// What follows a `-`.
fn item_of(column: usize, text: &str) -> Line<'_>
    requires { column ≤ spec.widest }
    ensures { line_view result ≡ spec.item_said column text.now }
{
    let value = without_spaces(text);
    match first_member(column, spaces_in(text), value) {
        Some(first) => Line::AddsMap(MapItem { column, first }),
        None => Line::Adds(Part { column, value }),
    }
}

/// The member that begins a map after a `-` and a gap.
fn first_member(column: usize, gap: usize, text: &str) -> Option<Member<'_>>
    requires { column ≤ spec.widest }
    ensures { option_map setting_view result ≡ spec.first_member column gap text.now }
{
    if gap > WIDEST {
        return None;
    }
    member_of(false, column + 1 + gap, text)
}

/// The member that a text says, of a map by lines, or of one in braces.
#[tactic(auto, using(liquid_model::proofs::Cuts::past_first))]
pub(crate) fn member_of(in_flow: bool, column: usize, text: &str) -> Option<Member<'_>>
    ensures { option_map setting_view result ≡ spec.member_of in_flow column text.now }
{
    match text.as_bytes() {
        [] => None,
        [quote @ (b'"' | b'\''), ..] => quoted_member(in_flow, column, *quote, &text[1..]),
        _ => plain_member(column, text),
    }
}

#[tactic(auto, using(crate::proofs::Cuts::key_cut))]
fn plain_member(column: usize, text: &str) -> Option<Member<'_>>
    ensures { option_map setting_view result ≡ spec.plain_member column text.now }
{
    let (key, rest) = text.split_at(key_len(text.as_bytes()));
    if !is_key(key) {
        return None;
    }
    value_of(false, column, key, without_spaces(rest))
}

/// A key after a quote, the quote, and a value.
#[tactic(auto, using(crate::proofs::Cuts::quoted_key_cut))]
fn quoted_member(in_flow: bool, column: usize, quote: u8, text: &str) -> Option<Member<'_>>
    requires { quote ≤ 127 }
    ensures { option_map setting_view result ≡ spec.quoted_member in_flow column quote text.now }
{
    let (key, rest) = text.split_at(quoted_key_len(quote, text.as_bytes()));
    quoted_member_by(in_flow, column, quote, key, rest)
}

#[tactic(auto, using(liquid_model::proofs::Cuts::past_first))]
fn quoted_member_by<'t>(
    in_flow: bool,
    column: usize,
    quote: u8,
    key: &'t str,
    rest: &'t str,
) -> Option<Member<'t>>
    requires { quote ≤ 127 }
    ensures { option_map setting_view result
        ≡ spec.quoted_member_by in_flow column quote key.now rest.now }
{
    if !begins_with_byte(quote, rest.as_bytes()) || key == "<<" {
        return None;
    }
    value_of(in_flow, column, key, without_spaces(&rest[1..]))
}

/// What follows a key and spaces.
#[tactic(auto, using(liquid_model::proofs::Cuts::past_first))]
fn value_of<'t>(is_tight: bool, column: usize, key: &'t str, text: &'t str) -> Option<Member<'t>>
    ensures { option_map setting_view result
        ≡ spec.member_said is_tight column key.now text.now }
{
    match text.as_bytes() {
        [b':', after @ ..] if is_tight || is_ended(after) => Some(Member {
            column,
            key,
            value: without_spaces(&text[1..]),
        }),
        _ => None,
    }
}

fn is_in_quoted_key(quote: u8, byte: u8) -> bool
    ensures { result ≡ spec.in_quoted_key quote byte }
{
    byte != quote && !(quote == b'"' && byte == b'\\')
}

fn quoted_key_len(quote: u8, bytes: &[u8]) -> usize
    ensures value { result ≡ prefix_len (spec.in_quoted_key quote) bytes.now }
    ensures within { result ≤ length bytes.now }
{
    let mut n = 0;
    while n < bytes.len() && is_in_quoted_key(quote, bytes[n]) {
        n += 1;
    }
    n
}

fn key_len(bytes: &[u8]) -> usize
    ensures value { result ≡ spec.key_len bytes.now }
    ensures within { result ≤ length bytes.now }
{
    let mut n = 0;
    while n < bytes.len() && is_key_byte(bytes[n]) {
        n += 1;
    }
    n
}

fn is_key(text: &str) -> bool
    ensures { result ≡ spec.is_key text.now }
{
    begins_with_letter(text.as_bytes()) && !is_word(text)
}

fn begins_with_letter(bytes: &[u8]) -> bool
    ensures { result ≡ spec.begins_with_letter bytes.now }
{
    match bytes {
        [first, ..] => is_letter(*first),
        [] => false,
    }
}
