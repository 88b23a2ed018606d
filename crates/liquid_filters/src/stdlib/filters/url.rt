//! Filters over URLs.
ghost use Rattle.std.specs.Prelude.{◌≡◌, ◌==◌, if◌then◌else◌, map, nat_eq, string_bytes, IsTrue};
ghost use Rattle.std.specs.Prelude.{length};
ghost use Rattle.liquid_model.specs.Answer.{Answers, IsValueOrMemory};
ghost use Rattle.liquid_filters.specs.Urls.{plus_to_space, text_of_bytes, unescaped};
ghost use Rattle.liquid_filters.specs.Urls.{url_decode_answer, url_encode_answer, url_escaped};
ghost use Rattle.liquid_model.specs.View.{view};
ghost use Rattle.liquid_model.specs.Satisfies.{Satisfies};
ghost use Rattle.liquid_filters.specs.UrlLaws.{EncodesUrl, UrlDecodes};

use liquid_model::{Error, ErrorKind, Filter, Result, Value, text_of};
use percent_encoding::{AsciiSet, DecodeError, NON_ALPHANUMERIC, percent_decode, percent_encode};
use std::alloc::Global;

/// All bytes but ASCII letters, digits, `-`, `.` and `_`.
const ESCAPED: AsciiSet = percent_encoding::ascii_set!(
    NON_ALPHANUMERIC.remove(b'-').remove(b'.').remove(b'_')
);

/// `url_encode`: the input's text, in which each byte but ASCII letters, digits, `-`, `.` and `_`
/// is `%` and two upper-case hexadecimal digits. Nil stays.
#[derive(Clone, Copy, Drop)]
pub struct UrlEncode;

impl Filter for UrlEncode {
    ghost counts = { λ _ n. nat_eq n 0 };

    ghost answer = { λ _. url_encode_answer };

    fn accepts(&self, count: usize) -> bool {
        count == 0
    }

    fn evaluate(&self, alloc: Global, input: &Value, args: &[Value]) -> Result<Value>
        requires { IsTrue (nat_eq (length args.now) 0) }
        ensures answer { Answers view result (url_encode_answer (view input.now)
            (map view args.now)) }
        ensures relation { Satisfies (EncodesUrl (view input.now)) result }
    {
        url_encode_answer(alloc, input, args)
    }
}

fn url_encode_answer(alloc: Global, input: &Value, _args: &[Value]) -> Result<Value>
    requires { IsTrue (nat_eq (length _args.now) 0) }
    ensures { Answers view result (url_encode_answer (view input.now) (map view _args.now)) }
{
    match input {
        Value::Nil => Ok(Value::Nil),
        _ => {
            let text = text_of(alloc, input)?;
            Ok(Value::Text(escaped(alloc, text.as_str())?))
        }
    }
}

/// `url_decode`: the input's text, in which `+` is a space and `%` with two hexadecimal digits a
/// byte. Nil stays.
#[derive(Clone, Copy, Drop)]
pub struct UrlDecode;

impl Filter for UrlDecode {
    ghost counts = { λ _ n. nat_eq n 0 };

    ghost answer = { λ _. url_decode_answer };

    fn accepts(&self, count: usize) -> bool {
        count == 0
    }

    /// `InvalidInput` where the bytes aren't UTF-8.
    fn evaluate(&self, alloc: Global, input: &Value, args: &[Value]) -> Result<Value>
        requires { IsTrue (nat_eq (length args.now) 0) }
        ensures answer { Answers view result (url_decode_answer (view input.now)
            (map view args.now)) }
        ensures relation { Satisfies (UrlDecodes (view input.now)) result }
    {
        url_decode_answer(alloc, input, args)
    }
}

fn url_decode_answer(alloc: Global, input: &Value, _args: &[Value]) -> Result<Value>
    requires { IsTrue (nat_eq (length _args.now) 0) }
    ensures { Answers view result (url_decode_answer (view input.now) (map view _args.now)) }
{
    match input {
        Value::Nil => Ok(Value::Nil),
        _ => {
            let text = text_of(alloc, input)?;
            Ok(Value::Text(unescaped(alloc, text.as_str())?))
        }
    }
}

fn escaped(alloc: Global, text: &str) -> Result<String>
    ensures { IsValueOrMemory (λ s. string_bytes s) result (url_escaped text.now) }
{
    let mut out = String::new(alloc);
    percent_encode(text.as_bytes(), ESCAPED).append_to(&mut out)?;
    Ok(out)
}

/// A space for `+`, and any other byte itself.
fn plus_as_space(byte: u8) -> u8
    ensures { result ≡ (if byte == 43 then 32 else byte) }
{
    if byte == b'+' { b' ' } else { byte }
}

fn spaced(alloc: Global, text: &str) -> Result<Vec<u8>>
    ensures { IsValueOrMemory (λ v. v.items) result (plus_to_space text.now) }
{
    let mut bytes = Vec::with_capacity(alloc, text.len())?;
    for byte in text.as_bytes() {
        bytes.push(plus_as_space(*byte))?;
    }
    Ok(bytes)
}

fn unescaped(alloc: Global, text: &str) -> Result<String>
    ensures { Answers (λ s. string_bytes s) result (text_of_bytes (unescaped text.now)) }
{
    let bytes = spaced(alloc, text)?;
    match percent_decode(&bytes).decode_utf8(alloc) {
        Ok(decoded) => Ok(decoded.into_owned(alloc)?),
        Err(DecodeError::Utf8(_)) => Err(Error::new(
            alloc,
            ErrorKind::InvalidInput,
            "input: a text of UTF-8 is wanted, but the escapes give other bytes",
        )),
        Err(DecodeError::OutOfMemory) => Err(Error::from(std::alloc::AllocError)),
    }
}
