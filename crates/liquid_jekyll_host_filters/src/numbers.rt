//! The filter that makes a whole number.
ghost use Rattle.std.specs.Char.{is_ascii_digit, is_ascii_whitespace};
ghost use Rattle.std.specs.List.{prefix_len};
ghost use Rattle.std.specs.Prelude.{◌≡◌, ◌≤◌, length, nat_eq};
ghost use Rattle.liquid_model.specs.Answer.{Answers};
ghost use Rattle.liquid_model.specs.View.{view};
ghost use Rattle.liquid_model.specs.Whole.{whole_text};
ghost use Rattle.liquid_jekyll_host_filters.specs.Numbers.{front_number, jekyll_integer};
ghost use Rattle.liquid_jekyll_host_filters.specs.Numbers.{leading_number, number_or_range};
ghost use Rattle.liquid_jekyll_host_filters.specs.Numbers.{sign_bytes, to_integer_answer};

use liquid_model::{Error, ErrorKind, Filter, Result, Value, invalid_input, whole_of};
use std::alloc::Global;

/// `to_integer`: the whole number that the input's text begins with, after white space, or 0. True
/// is 1, false and nil are 0.
#[derive(Clone, Copy, Drop)]
pub struct ToInteger;

impl Filter for ToInteger {
    ghost counts = { λ _ n. nat_eq n 0 };

    ghost answer = { λ _. to_integer_answer };

    fn accepts(&self, count: usize) -> bool {
        count == 0
    }

    /// `InvalidInput` of a list or a map, and `NumberRange` of a number beyond 64 bits.
    fn evaluate(&self, alloc: Global, input: &Value, _args: &[Value]) -> Result<Value> {
        Ok(Value::Integer(integer_of(alloc, input)?))
    }
}

fn integer_of(alloc: Global, input: &Value) -> Result<i64>
    ensures { Answers (λ n. n) result (jekyll_integer (view input.now)) }
{
    match input {
        Value::Nil => Ok(0),
        Value::Bool(b) => Ok(if *b { 1 } else { 0 }),
        Value::Integer(n) => Ok(*n),
        Value::Text(text) => leading_number(alloc, text.as_str()),
        _ => Err(invalid_input(alloc, "a text or a number", input)),
    }
}

/// The number that a text begins with, after white space.
fn leading_number(alloc: Global, text: &str) -> Result<i64>
    ensures { Answers (λ n. n) result (leading_number text.now) }
{
    let (_white, rest) = text.split_at(white_len(text.as_bytes()));
    front_number(alloc, rest)
}

/// The number at the front of a text, or 0.
fn front_number(alloc: Global, text: &str) -> Result<i64>
    ensures { Answers (λ n. n) result (front_number text.now) }
{
    let bytes = text.as_bytes();
    let sign = sign_len(bytes);
    let digits = digits_len(&bytes[sign..]);
    if digits == 0 {
        return Ok(0);
    }
    let (front, _rest) = text.split_at(sign + digits);
    number_of(alloc, front)
}

/// The number of digits with a sign or none.
fn number_of(alloc: Global, digits: &str) -> Result<i64>
    ensures { Answers (λ n. n) result (number_or_range (whole_text digits.now)) }
{
    match whole_of(digits) {
        Some(number) => Ok(number),
        None => Err(Error::new(
            alloc,
            ErrorKind::NumberRange,
            "the number that the text begins with is beyond 64 bits",
        )),
    }
}

/// How many bytes a sign takes at the front: one or none.
fn sign_len(text: &[u8]) -> usize
    ensures value { result ≡ sign_bytes text.now }
    ensures within { result ≤ length text.now }
    ensures small { result ≤ 1 }
{
    match text {
        [first, ..] => {
            if *first == b'-' || *first == b'+' {
                1
            } else {
                0
            }
        }
        _ => 0,
    }
}

/// How many digits stand at the front.
fn digits_len(text: &[u8]) -> usize
    ensures value { result ≡ prefix_len is_ascii_digit text.now }
    ensures within { result ≤ length text.now }
{
    for i in 0..text.len() {
        if !text[i].is_ascii_digit() {
            return i;
        }
    }
    text.len()
}

/// How many bytes of white space stand at the front.
fn white_len(text: &[u8]) -> usize
    ensures value { result ≡ prefix_len is_ascii_whitespace text.now }
    ensures within { result ≤ length text.now }
{
    for i in 0..text.len() {
        if !text[i].is_ascii_whitespace() {
            return i;
        }
    }
    text.len()
}
