//! Parts of a text, cut at its front: each borrows from the text, and nothing is copied.
ghost use Rattle.std.specs.Prelude.{◌≡◌, ◌≤◌, option_map};
ghost use Rattle.liquid_model.specs.Front.{past_white, past_byte, word_at, until_quote};
ghost use Rattle.liquid_model.specs.Front.{quoted_at};

use crate::scan::{is_letter, unquoted_len, white_len, word_len};

/// The text without the whitespace at its front.
#[tactic(auto, unfolding(crate::specs::Front::past_white), using(crate::proofs::Cuts::white_cut))]
pub fn past_white(text: &str) -> &str
    ensures { result.now ≡ past_white text.now }
{
    &text[white_len(text.as_bytes())..]
}

/// What follows the byte, where the text begins with it.
#[tactic(auto, using(crate::proofs::Cuts::past_first))]
pub fn past_byte(text: &str, byte: u8) -> Option<&str>
    requires { byte ≤ 127 }
    ensures { option_map (λ x. x.now) result ≡ past_byte byte text.now }
{
    match text.as_bytes() {
        [first, ..] if *first == byte => Some(&text[1..]),
        _ => None,
    }
}

/// A word: a letter or `_`, then letters, digits, `_` and `-`.
#[tactic(auto, unfolding(crate::specs::Front::word_at), using(crate::proofs::Cuts::word_cut))]
pub fn word(text: &str) -> Option<(&str, &str)>
    ensures { option_map (λ x. (x.0.now, x.1.now)) result ≡ word_at text.now }
{
    let bytes = text.as_bytes();
    match bytes {
        [first, ..] if is_letter(*first) => Some(text.split_at(word_len(bytes))),
        _ => None,
    }
}

#[tactic(auto, unfolding(crate::specs::Front::until_quote), using(crate::proofs::Cuts::quote_cut))]
fn until_quote(text: &str, quote: u8) -> Option<(&str, &str)>
    requires { quote ≤ 127 }
    ensures { option_map (λ x. (x.0.now, x.1.now)) result ≡ until_quote quote text.now }
{
    let bytes = text.as_bytes();
    let (inside, rest) = text.split_at(unquoted_len(bytes, quote));
    Some((inside, past_byte(rest, quote)?))
}

/// A text in quotes, without them.
#[tactic(auto, unfolding(crate::specs::Front::quoted_at), using(crate::proofs::Cuts::past_first))]
pub fn quoted(text: &str) -> Option<(&str, &str)>
    ensures { option_map (λ x. (x.0.now, x.1.now)) result ≡ quoted_at text.now }
{
    match text.as_bytes() {
        [quote @ (b'"' | b'\''), ..] => until_quote(&text[1..], *quote),
        _ => None,
    }
}
