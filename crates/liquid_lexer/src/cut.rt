//! Parts of a text between its pieces: each borrows from the text, and nothing is copied.
ghost use Rattle.std.specs.Prelude.{◌≡◌, List, ℕ, ◌++◌};
ghost use Rattle.liquid_lexer.specs.ValueReading.{text_at, without_trailing_white};
ghost use Rattle.liquid_lexer.specs.ItemReading.{before};
ghost use Rattle.liquid_lexer.specs.Pieces.{stripped};

use crate::scan::{plain_len, white_end};
use liquid_model::past_white;

/// The text up to the leftmost opener, and what follows it.
#[tactic(auto, using(crate::proofs::Cuts::plain_cut))]
pub fn text_before(text: &str) -> (&str, &str)
    ensures { (result.0.now, result.1.now) ≡ text_at text.now }
{
    let bytes = text.as_bytes();
    text.split_at(plain_len(bytes))
}

/// What a text has before its rest.
#[tactic(auto, using(crate::proofs::Cuts::seam_cut))]
pub fn before<'s>(text: &'s str, rest: &str) -> &'s str
    requires { (front : List ℕ) × (text.now ≡ front ++ rest.now) }
    ensures { result.now ≡ before text.now rest.now }
{
    &text[..text.len() - rest.len()]
}

#[tactic(auto, using(crate::proofs::Cuts::trim_cut))]
fn trimmed(text: &str) -> &str
    ensures { result.now ≡ without_trailing_white text.now }
{
    let bytes = text.as_bytes();
    &text[..bytes.len() - white_end(bytes)]
}

/// A text without the whitespace that a mark before it and a mark after it strip.
pub fn stripped(front: bool, text: &str, back: bool) -> &str
    ensures { result.now ≡ stripped front text.now back }
{
    let text = if front { past_white(text) } else { text };
    if back { trimmed(text) } else { text }
}
