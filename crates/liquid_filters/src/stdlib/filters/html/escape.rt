//! Filters that write the letters with a meaning in HTML by their escapes.
ghost use Rattle.std.specs.Prelude.{◌≡◌, ◌<◌, ◌≤◌, ◌∷◌, ◌++◌, All, IfNone, IfSome, IsSome, IsTrue};
ghost use Rattle.std.specs.Prelude.{None, length, map, nat_eq, option_map, slice_index};
ghost use Rattle.std.specs.Prelude.{string_bytes, take};
ghost use Rattle.liquid_model.specs.Answer.{IsValueOrMemory, Answers};
ghost use Rattle.liquid_filters.specs.Escapes.{ends_escape, escape_answer, escape_of};
ghost use Rattle.liquid_filters.specs.Escapes.{escape_once_answer, escaped_bytes, escaped_once};
ghost use Rattle.liquid_filters.specs.Escapes.{once_byte};
ghost use Rattle.liquid_model.specs.View.{view};
ghost use Rattle.liquid_model.specs.Satisfies.{Satisfies};
ghost use Rattle.liquid_filters.specs.HtmlLaws.{EscapesOnce, EscapesText};

use liquid_model::{Filter, Result, Value, text_of};
use std::alloc::Global;

/// `escape`: the input's text with `&lt;`, `&gt;`, `&#39;`, `&quot;` and `&amp;` for `<`, `>`, `'`,
/// `"` and `&`. Nil stays.
#[derive(Clone, Copy, Drop)]
pub struct Escape;

impl Filter for Escape {
    ghost counts = { λ _ n. nat_eq n 0 };

    ghost answer = { λ _. escape_answer };

    fn accepts(&self, count: usize) -> bool {
        count == 0
    }

    fn evaluate(&self, alloc: Global, input: &Value, args: &[Value]) -> Result<Value>
        requires { IsTrue (nat_eq (length args.now) 0) }
        ensures answer { Answers view result (escape_answer (view input.now) (map view args.now)) }
        ensures relation { Satisfies (EscapesText (view input.now)) result }
    {
        escape_answer(alloc, input, args)
    }
}

fn escape_answer(alloc: Global, input: &Value, _args: &[Value]) -> Result<Value>
    requires { IsTrue (nat_eq (length _args.now) 0) }
    ensures { Answers view result (escape_answer (view input.now) (map view _args.now)) }
{
    match input {
        Value::Nil => Ok(Value::Nil),
        _ => {
            let text = text_of(alloc, input)?;
            Ok(Value::Text(escaped(alloc, text.as_str())?))
        }
    }
}

/// `escape_once`: as `escape`, but an `&` that begins one of the five escapes stays.
#[derive(Clone, Copy, Drop)]
pub struct EscapeOnce;

impl Filter for EscapeOnce {
    ghost counts = { λ _ n. nat_eq n 0 };

    ghost answer = { λ _. escape_once_answer };

    fn accepts(&self, count: usize) -> bool {
        count == 0
    }

    fn evaluate(&self, alloc: Global, input: &Value, args: &[Value]) -> Result<Value>
        requires { IsTrue (nat_eq (length args.now) 0) }
        ensures answer { Answers view result (escape_once_answer (view input.now)
            (map view args.now)) }
        ensures relation { Satisfies (EscapesOnce (view input.now)) result }
    {
        escape_once_answer(alloc, input, args)
    }
}

fn escape_once_answer(alloc: Global, input: &Value, _args: &[Value]) -> Result<Value>
    requires { IsTrue (nat_eq (length _args.now) 0) }
    ensures { Answers view result (escape_once_answer (view input.now) (map view _args.now)) }
{
    match input {
        Value::Nil => Ok(Value::Nil),
        _ => {
            let text = text_of(alloc, input)?;
            Ok(Value::Text(escaped_once(alloc, text.as_str())?))
        }
    }
}

/// The text with the escapes of `escape`. `Memory` alone where it can't be made.
pub fn escaped(alloc: Global, text: &str) -> Result<String>
    ensures { IsValueOrMemory (λ s. string_bytes s) result (escaped_bytes text.now) }
{
    let mut out = String::with_capacity(alloc, text.len())?;
    let mut rest = text;
    while let Some((plain, mark, after)) = split_at_mark(rest) {
        out.push_str(plain)?;
        out.push_str(escape_of_mark(mark))?;
        rest = after;
    }
    out.push_str(rest)?;
    Ok(out)
}

fn escaped_once(alloc: Global, text: &str) -> Result<String>
    ensures { IsValueOrMemory (λ s. string_bytes s) result (escaped_once text.now) }
{
    let mut out = String::with_capacity(alloc, text.len())?;
    let mut rest = text;
    while let Some((plain, mark, after)) = split_at_mark(rest) {
        out.push_str(plain)?;
        out.push_str(mark_before(mark, after))?;
        rest = after;
    }
    out.push_str(rest)?;
    Ok(out)
}

/// The text before the first byte that has an escape, that byte, and the text after it. Texts with
/// few marks and texts of little else both cost a few instructions for each byte.
fn split_at_mark(text: &str) -> Option<(&str, u8, &str)>
    ensures none { IfNone result (All (λ b. escape_of b ≡ None) text.now) }
    ensures splits { IfSome result (λ p. text.now ≡ p.0.now ++ (p.1 ∷ p.2.now)) }
    ensures plain { IfSome result (λ p. All (λ b. escape_of b ≡ None) p.0.now) }
    ensures mark { IfSome result (λ p. IsSome (escape_of p.1)) }
{
    let bytes = text.as_bytes();
    let at = plain_len(bytes);
    if at == bytes.len() {
        return None;
    }
    let (plain, marked) = text.split_at(at);
    let (_, after) = marked.split_at(1);
    Some((plain, bytes[at], after))
}

/// How many bytes stand before the first that has an escape.
fn plain_len(bytes: &[u8]) -> usize
    ensures within { result ≤ length bytes.now }
    ensures plain { All (λ b. escape_of b ≡ None) (take result bytes.now) }
    ensures mark { result < length bytes.now → IsSome (escape_of (slice_index bytes.now result)) }
{
    for i in 0..bytes.len() {
        if escape_of(bytes[i]).is_some() {
            return i;
        }
    }
    bytes.len()
}

/// The escape of a byte that has one.
#[inline(always)]
fn escape_of(byte: u8) -> Option<&'static str>
    ensures { option_map (λ s. s.now) result ≡ escape_of byte }
{
    match byte {
        b'<' => Some("&lt;"),
        b'>' => Some("&gt;"),
        b'\'' => Some("&#39;"),
        b'"' => Some("&quot;"),
        b'&' => Some("&amp;"),
        _ => None,
    }
}

/// The escape of a byte that has one, without the choice.
fn escape_of_mark(mark: u8) -> &'static str
    ensures { IfSome (escape_of mark) (λ e. result.now ≡ e) }
{
    escape_of(mark).unwrap_or("")
}

/// What stands for a byte with an escape, before the text after it.
fn mark_before(mark: u8, after: &str) -> &'static str
    ensures { IfSome (escape_of mark) (λ e. result.now ≡ once_byte mark after.now) }
{
    if mark == b'&' {
        and_before(after)
    } else {
        escape_of_mark(mark)
    }
}

/// What stands for an `&`: itself where it begins an escape with the text after it, and else its
/// own escape.
fn and_before(after: &str) -> &'static str
    ensures { result.now ≡ once_byte 38 after.now }
{
    if ends_escape(after) { "&" } else { "&amp;" }
}

/// Whether the text begins with what follows the `&` of an escape.
fn ends_escape(after: &str) -> bool
    ensures { result ≡ ends_escape after.now }
{
    after.starts_with("lt;")
        || after.starts_with("gt;")
        || after.starts_with("#39;")
        || after.starts_with("quot;")
        || after.starts_with("amp;")
}
