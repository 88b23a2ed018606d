//! Values: literals, and variables with their steps.
ghost use Rattle.std.specs.Prelude.{◌≡◌, [], length};
ghost use Rattle.liquid_model.specs.View.{view};
ghost use Rattle.liquid_core.specs.ExpressionView.{steps_view};
ghost use Rattle.liquid_model.specs.Whole.{whole_text};
ghost use Rattle.liquid_lexer.specs.inside.ValueFaults.{number_fault, value_fault};
ghost use Rattle.liquid_lexer.specs.Values.{word_kind};
ghost use Rattle.liquid_lexer.specs.ValueReading.{word_value, inner_of, expression_at};
ghost use Rattle.liquid_model.specs.Front.{literal_at};
ghost use Rattle.liquid_lexer.specs.ValueReading.{member_word_at, step_at, steps_at};
ghost use Rattle.liquid_lexer.specs.Readers.{Parses};
ghost use Rattle.liquid_lexer.specs.PieceView.{word_kind_view, read_view};
ghost use Rattle.std.specs.Option.{option_map};

use crate::expectation::Expectation;
use crate::fault::{Fault, FaultKind, ParseError};
use crate::scan::is_dotted;
use liquid_core::{Expression, Variable};
use liquid_model::{
    Value, number_len, past_byte, past_white, push_first, quoted, whole_number, whole_of, word,
};
use std::alloc::Global;

/// What a word is where it opens a value.
#[derive(Drop)]
pub enum WordKind {
    /// The name of a variable.
    Name,
    /// `nil`, `null`, `true` or `false`.
    Constant(Value),
    /// `empty` or `blank`, which this library leaves out.
    State,
}

#[tactic(auto, unfolding(crate::specs::Values::word_kind))]
fn word_kind(word: &str) -> WordKind
    ensures { word_kind_view result ≡ word_kind word.now }
{
    match word {
        "nil" | "null" => WordKind::Constant(Value::Nil),
        "true" => WordKind::Constant(Value::Bool(true)),
        "false" => WordKind::Constant(Value::Bool(false)),
        "empty" | "blank" => WordKind::State,
        _ => WordKind::Name,
    }
}

/// The fault of a text that no value begins.
#[tactic(auto, using(liquid_model::proofs::Cuts::number_cut))]
fn no_value(text: &str) -> Fault
    ensures kind { result.kind ≡ value_fault text.now }
    ensures place { result.remaining ≡ length text.now }
{
    let (digits, after) = text.split_at(number_len(text.as_bytes()));
    match text.as_bytes() {
        [] => Fault::new(FaultKind::Unclosed, text, Expectation::Value),
        [b'"' | b'\'', ..] => Fault::new(FaultKind::Unclosed, text, Expectation::ClosingQuote),
        _ if !digits.is_empty() => no_number(text, digits, after.as_bytes()),
        _ => Fault::new(FaultKind::BadItem, text, Expectation::Value),
    }
}

/// The fault of a number that isn't taken; `digits` are its bytes, and `after` is what follows it.
fn no_number(text: &str, digits: &str, after: &[u8]) -> Fault
    ensures kind { result.kind ≡ number_fault (whole_text digits.now) after.now }
    ensures place { result.remaining ≡ length text.now }
{
    match after {
        _ if whole_of(digits).is_none() => Fault::new(
            FaultKind::NumberLiteral,
            text,
            Expectation::NumberInRange,
        ),
        [b'.', next, ..] if next.is_ascii_digit() => Fault::new(
            FaultKind::FloatLiteral,
            text,
            Expectation::WholeNumber,
        ),
        _ => Fault::new(FaultKind::BadItem, text, Expectation::WholeNumber),
    }
}

/// A text in quotes, or a number.
#[tactic(auto, unfolding(liquid_model::specs::Front::literal_at))]
fn read_literal(alloc: Global, text: &str) -> Result<(Value, &str), ParseError>
    ensures { Parses (λ x. (view x.0, x.1.now)) result (literal_at text.now) }
{
    if let Some((inside, rest)) = quoted(text) {
        return Ok((Value::Text(String::from_str(alloc, inside)?), rest));
    }
    let Some((n, rest)) = whole_number(text) else {
        return Err(ParseError::Fault(no_value(text)));
    };
    Ok((Value::Integer(n), rest))
}

/// The value at the front, and what follows it. Brackets nest at most `depth` deep.
#[cycle(read_value)]
#[tactic(auto, unfolding(crate::specs::ValueReading::expression_at))]
pub fn read_value(alloc: Global, text: &str, depth: usize) -> Result<(Expression, &str), ParseError>
    ensures { Parses read_view result (expression_at depth text.now) }
{
    if let Some((name, rest)) = word(text) {
        return read_named(alloc, text, name, rest, depth);
    }
    let (value, rest) = read_literal(alloc, text)?;
    Ok((Expression::Literal(value), rest))
}

/// The value that opens by the word `name`, before `rest`.
#[cycle(read_value)]
fn read_named<'s>(
    alloc: Global,
    text: &str,
    name: &str,
    rest: &'s str,
    depth: usize,
) -> Result<(Expression, &'s str), ParseError>
    ensures { Parses read_view result (word_value (inner_of depth) name.now rest.now
        (word_kind name.now)) }
{
    match word_kind(name) {
        WordKind::Name => {
            let (indexes, rest) = read_steps(alloc, rest, depth)?;
            let name = String::from_str(alloc, name)?;
            Ok((Expression::Variable(Variable { name, indexes }), rest))
        }
        WordKind::Constant(value) => {
            if is_dotted(rest.as_bytes()) {
                return Err(ParseError::Fault(Fault::new(
                    FaultKind::BadItem,
                    rest,
                    Expectation::LiteralWithoutStep,
                )));
            }
            Ok((Expression::Literal(value), rest))
        }
        WordKind::State => Err(ParseError::Fault(Fault::new(
            FaultKind::StateWord,
            text,
            Expectation::KnownValue,
        ))),
    }
}

#[cycle(read_value)]
fn read_steps(
    alloc: Global,
    text: &str,
    depth: usize,
) -> Result<(Vec<Expression>, &str), ParseError>
    ensures { Parses (λ x. (steps_view x.0.items, x.1.now)) result
        (steps_at (inner_of depth) (length text.now) text.now) }
{
    let mut steps = Vec::new(alloc);
    let mut rest = text;
    'steps: while let Some((step, after)) = read_step(alloc, rest, depth)? {
        push_first(&mut steps, step)?;
        rest = after;
    }
    Ok((steps, rest))
}

/// One step, `.word`, `.word?` or `[value]`, where one stands at the front.
#[cycle(read_value)]
#[tactic(auto, unfolding(crate::specs::ValueReading::step_at, crate::specs::ValueReading::index_at, crate::specs::ValueReading::member_name_at), using(crate::proofs::ValueLaws::inner_is, crate::proofs::ValueLaws::inner_none))]
fn read_step(
    alloc: Global,
    text: &str,
    depth: usize,
) -> Result<Option<(Expression, &str)>, ParseError>
    ensures { Parses (λ o. option_map read_view o) result (step_at (inner_of depth) text.now) }
{
    if let Some(inside) = past_byte(text, b'[') {
        if depth == 0 {
            return Err(ParseError::Fault(Fault::new(
                FaultKind::TooNested,
                text,
                Expectation::FewerBrackets,
            )));
        }
        let (step, rest) = read_value(alloc, past_white(inside), depth - 1)?;
        let rest = past_white(rest);
        let Some(after) = past_byte(rest, b']') else {
            return Err(ParseError::Fault(unexpected(rest, Expectation::ClosingBracket)));
        };
        return Ok(Some((step, after)));
    }
    let Some(from) = past_byte(text, b'.') else {
        return Ok(None);
    };
    let Some((name, rest)) = member_name(from) else {
        return Ok(None);
    };
    let name = String::from_str(alloc, name)?;
    Ok(Some((Expression::Literal(Value::Text(name)), rest)))
}

/// The name of a member at the front, a word with a `?` that stands right after it, and what
/// follows it.
#[tactic(auto, unfolding(crate::specs::ValueReading::member_word_at))]
fn member_name(text: &str) -> Option<(&str, &str)>
    ensures { option_map (λ w. (w.0.now, w.1.now)) result ≡ member_word_at text.now }
{
    let (name, rest) = word(text)?;
    match past_byte(rest, b'?') {
        Some(_) => Some(text.split_at(name.len() + 1)),
        None => Some((name, rest)),
    }
}

/// The fault of a text that doesn't begin as it must: `Unclosed` where nothing is left, else
/// `BadItem`.
pub fn unexpected(text: &str, wanted: Expectation) -> Fault
    ensures unclosed { text.now ≡ [] → result.kind ≡ FaultKind.Unclosed }
    ensures bad_item { (text.now ≡ [] → ⊥) → result.kind ≡ FaultKind.BadItem }
    ensures place { result.remaining ≡ length text.now }
{
    if text.is_empty() {
        Fault::new(FaultKind::Unclosed, text, wanted)
    } else {
        Fault::new(FaultKind::BadItem, text, wanted)
    }
}
