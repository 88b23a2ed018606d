//! The parts of a list in brackets or a map in braces.
ghost use Rattle.std.specs.Prelude.{◌≡◌, ◌≤◌, ◌<◌, ◌==◌, length, slice_index, [], is_some};
ghost use Rattle.std.specs.Prelude.{option_map};
ghost use Rattle.liquid_yaml.specs.Bytes.{first_part_view};
ghost use Rattle.liquid_yaml.specs.Flows as spec;

use crate::quoting::begins_escape;
use crate::scan::{is_rest, trimmed, without_spaces};

/// Where the next byte of a list or map stands.
#[derive(Clone, Copy, Drop)]
pub(crate) struct Spot {
    /// How many lists and maps are open within.
    pub depth: usize,
    pub place: FlowPlace,
}

/// Where the next byte of a value stands.
#[derive(Clone, Copy, Drop)]
pub(crate) enum FlowPlace {
    /// Before it, where a quote begins a text.
    Start,
    /// In it or after it, outside of quotes.
    Inside,
    /// Between these quotes.
    Quoted(u8),
    /// After the sign of an escape between these quotes.
    Escaped(u8),
}

fn is_quote_sign(byte: u8) -> bool
    ensures { result ≡ spec.is_quote_sign byte }
{
    byte == b'"' || byte == b'\''
}

/// Whether a sign begins a list or a map.
pub(crate) fn opens_flow(byte: u8) -> bool
    ensures { result ≡ spec.opens_flow byte }
{
    byte == b'[' || byte == b'{'
}

fn closes_flow(byte: u8) -> bool
    ensures { result ≡ spec.closes_flow byte }
{
    byte == b']' || byte == b'}'
}

fn depth_after(depth: usize, byte: u8) -> usize
    ensures { result ≡ spec.depth_after depth byte }
{
    if opens_flow(byte) {
        depth.saturating_add(1)
    } else if closes_flow(byte) {
        depth.saturating_sub(1)
    } else {
        depth
    }
}

fn starts_after(byte: u8) -> bool
    ensures { result ≡ spec.starts_after byte }
{
    opens_flow(byte) || byte == b',' || byte == b':'
}

fn outer_place(byte: u8) -> FlowPlace
    ensures { result ≡ spec.outer_place byte }
{
    if starts_after(byte) {
        FlowPlace::Start
    } else {
        FlowPlace::Inside
    }
}

fn place_from_start(byte: u8) -> FlowPlace
    ensures { result ≡ spec.place_from_start byte }
{
    if is_quote_sign(byte) {
        FlowPlace::Quoted(byte)
    } else if byte == b' ' {
        FlowPlace::Start
    } else {
        outer_place(byte)
    }
}

fn in_quotes_after(quote: u8, byte: u8, after: &[u8]) -> FlowPlace
    ensures { result ≡ spec.in_quotes_after quote byte after.now }
{
    if begins_escape(quote, byte, after) {
        FlowPlace::Escaped(quote)
    } else if byte == quote {
        FlowPlace::Inside
    } else {
        FlowPlace::Quoted(quote)
    }
}

impl Spot {
    /// Before the first byte.
    fn first() -> Spot
        ensures { result ≡ spec.first_spot }
    {
        Spot {
            depth: 0,
            place: FlowPlace::Start,
        }
    }

    /// After a byte, which stands before others.
    fn after(self, byte: u8, after: &[u8]) -> Spot
        ensures { result ≡ spec.spot_after self byte after.now }
    {
        match self.place {
            FlowPlace::Start => outside_spot(self.depth, byte, place_from_start(byte)),
            FlowPlace::Inside => outside_spot(self.depth, byte, outer_place(byte)),
            FlowPlace::Quoted(quote) => Spot {
                depth: self.depth,
                place: in_quotes_after(quote, byte, after),
            },
            FlowPlace::Escaped(quote) => Spot {
                depth: self.depth,
                place: FlowPlace::Quoted(quote),
            },
        }
    }

    /// Whether the byte ends the whole, or else a part of it.
    fn stops(self, is_whole: bool, byte: u8) -> bool
        ensures { result ≡ spec.stops_flow is_whole self byte [] }
    {
        self.depth == 0 && self.place.is_outside_quotes() && is_end_sign(is_whole, byte)
    }
}

impl FlowPlace {
    fn is_outside_quotes(self) -> bool
        ensures { result ≡ spec.is_outside_quotes self }
    {
        matches!(self, FlowPlace::Start | FlowPlace::Inside)
    }
}

fn outside_spot(depth: usize, byte: u8, place: FlowPlace) -> Spot
    ensures { result ≡ spec.outside_spot depth byte place }
{
    Spot {
        depth: depth_after(depth, byte),
        place,
    }
}

fn is_end_sign(is_whole: bool, byte: u8) -> bool
    ensures { result ≡ spec.end_sign is_whole byte }
{
    if is_whole {
        closes_flow(byte)
    } else {
        byte == b','
    }
}

/// How many bytes stand before the sign that ends the whole, or else its first part.
fn flow_len(is_whole: bool, bytes: &[u8]) -> usize
    ensures value { result ≡ spec.flow_len is_whole bytes.now }
    ensures within { result ≤ length bytes.now }
    ensures ends { result < length bytes.now → slice_index bytes.now result < 128 }
{
    let mut spot = Spot::first();
    let mut n = 0;
    while n < bytes.len() && !spot.stops(is_whole, bytes[n]) {
        spot = spot.after(bytes[n], &bytes[n + 1..]);
        n += 1;
    }
    n
}

/// The first part of a list or map, and what follows its comma.
#[tactic(auto, using(crate::proofs::Cuts::flow_cut, crate::proofs::Cuts::after_flow_cut))]
pub(crate) fn first_flow_part(text: &str) -> (&str, Option<&str>)
    ensures { first_part_view result ≡ spec.first_flow_part text.now }
{
    let n = flow_len(false, text.as_bytes());
    if n < text.len() {
        (&text[..n], Some(&text[n + 1..]))
    } else {
        (text, None)
    }
}

fn is_closed_by(may_note: bool, sign: u8, rest: &[u8]) -> bool
    ensures { result ≡ is_some (spec.closed_by may_note sign [] rest.now) }
{
    match rest {
        [] => false,
        [first, after @ ..] => *first == sign && is_rest(may_note, after),
    }
}

/// What stands before the closing sign, which ends the text, but for a comment.
#[tactic(auto, using(crate::proofs::Cuts::flow_cut))]
pub(crate) fn closed_flow(may_note: bool, sign: u8, text: &str) -> Option<&str>
    ensures { option_map (λ s. s.now) result ≡ spec.closed_flow may_note sign text.now }
{
    let (inside, rest) = text.split_at(flow_len(true, text.as_bytes()));
    if is_closed_by(may_note, sign, rest.as_bytes()) {
        Some(inside)
    } else {
        None
    }
}

/// A text without spaces around it.
pub(crate) fn trimmed_around(text: &str) -> &str
    ensures { result.now ≡ spec.trimmed_around text.now }
{
    trimmed(without_spaces(text))
}
