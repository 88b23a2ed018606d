//! Parts of texts.
ghost use Rattle.std.specs.Prelude.{◌≡◌, ◌++◌, List, ℕ, drop, string_bytes, take};
ghost use Rattle.std.specs.Str.{chars, encode_utf8_all};
ghost use Rattle.liquid_model.specs.Answer.{IsValueOrMemory};

use liquid_model::Result;
use std::alloc::Global;

/// The first text, then the last.
pub fn joined(alloc: Global, first: &str, last: &str) -> Result<String>
    ensures { IsValueOrMemory (λ s. string_bytes s) result (first.now ++ last.now) }
{
    let mut both = String::with_capacity(alloc, first.len().saturating_add(last.len()))?;
    both.push_str(first)?;
    both.push_str(last)?;
    Ok(both)
}

/// What stands in a text before its end.
pub fn before<'a>(text: &'a str, end: &str) -> &'a str
    requires { (front : List ℕ) × (text.now ≡ front ++ end.now) }
    ensures { text.now ≡ result.now ++ end.now }
{
    &text[..text.len() - end.len()]
}

/// What follows the first characters of a text, or the empty text where there are no more.
pub fn after_characters(text: &str, count: usize) -> &str
    ensures { result.now ≡ encode_utf8_all (drop count (chars text.now)) }
{
    let mut rest = text.chars();
    for _i in 0..count {
        let Some(_character) = rest.next() else {
            return "";
        };
    }
    rest.as_str()
}

/// The first characters of a text, as many as there are.
pub fn first_characters(text: &str, count: usize) -> &str
    ensures { result.now ≡ encode_utf8_all (take count (chars text.now)) }
{
    before(text, after_characters(text, count))
}
