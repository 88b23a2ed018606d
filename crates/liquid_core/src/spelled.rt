//! An expression as a template spells it, for messages: `user.name`, `tags[0]`.
ghost use Rattle.std.specs.Prelude.{◌≡◌, ◌++◌, Some, codes, string_bytes};
ghost use Rattle.std.specs.Fmt.{WritesOnOk};
ghost use Rattle.std.specs.List.{list_all};
ghost use Rattle.liquid_core.specs.ExpressionView.{expression_view, variable_view, steps_view};
ghost use Rattle.liquid_core.specs.Expression.{literal};
ghost use Rattle.liquid_core.specs.Spelled.{as_step, begins_name, goes_on_in_name, is_name};
ghost use Rattle.liquid_core.specs.Spelled.{spelled, spelled_key, spelled_steps};
ghost use Rattle.liquid_core.specs.Written.{written_literal};
ghost use Rattle.liquid_model.specs.View.{view};

use crate::expression::{Expression, Variable};
use crate::written::write_literal;
use liquid_model::Value;
use std::fmt;
use std::fmt::{Formatter, Write};

/// An expression as a template spells it: a literal, or a name with its steps, of which each is a
/// name after a dot, a text in brackets and quotes, or any other expression in brackets.
#[derive(Clone, Copy)]
pub struct Spelled<'e> {
    /// The expression.
    pub expression: &'e Expression,
}

/// The same for a name and some of its steps.
#[derive(Clone, Copy)]
pub(crate) struct SpelledPath<'e> {
    pub(crate) name: &'e str,
    pub(crate) steps: &'e [Expression],
}

impl fmt::Display for Spelled<'_> {
    ghost output = { λ x. Some (spelled (expression_view x.expression.now)) };

    fn fmt<W: Write>(&self, f: &mut Formatter<W>) -> fmt::Result {
        write_spelled(self.expression, f)
    }
}

impl fmt::Display for SpelledPath<'_> {
    ghost output = { λ x. Some (x.name.now ++ spelled_steps (steps_view x.steps.now)) };

    fn fmt<W: Write>(&self, f: &mut Formatter<W>) -> fmt::Result {
        f.write_str(self.name)?;
        write_steps(self.steps, f)
    }
}

fn write_spelled<W: Write>(expression: &Expression, f: &mut Formatter<W>) -> fmt::Result
    ensures { WritesOnOk W.write_str_gives f.old result (spelled (expression_view expression.now))
        f.new }
{
    match expression {
        Expression::Literal(value) => write_literal(value, f),
        Expression::Variable(variable) => write_variable(variable, f),
    }
}

#[cycle(write_steps)]
fn write_variable<W: Write>(variable: &Variable, f: &mut Formatter<W>) -> fmt::Result
    ensures { WritesOnOk W.write_str_gives f.old result (spelled (variable_view variable.now))
        f.new }
{
    f.write_str(variable.name.as_str())?;
    write_steps(variable.indexes.as_slice(), f)
}

#[cycle(write_steps)]
fn write_steps<W: Write>(indexes: &[Expression], f: &mut Formatter<W>) -> fmt::Result
    ensures { WritesOnOk W.write_str_gives f.old result (spelled_steps (steps_view indexes.now))
        f.new }
{
    for index in indexes {
        write_step(index, f)?;
    }
    Ok(())
}

#[tactic(auto, using(crate::proofs::ExpressionViews::bracketed_variable))]
#[cycle(write_steps)]
fn write_step<W: Write>(index: &Expression, f: &mut Formatter<W>) -> fmt::Result
    ensures { WritesOnOk W.write_str_gives f.old result (as_step (expression_view index.now)
        (spelled (expression_view index.now))) f.new }
{
    match index {
        Expression::Literal(value) => write_literal_step(value, f),
        Expression::Variable(variable) => write_bracketed(variable, f),
    }
}

#[cycle(write_steps)]
fn write_bracketed<W: Write>(variable: &Variable, f: &mut Formatter<W>) -> fmt::Result
    ensures { WritesOnOk W.write_str_gives f.old result (codes "[" ++
        (spelled (variable_view variable.now) ++ codes "]")) f.new }
{
    f.write_str("[")?;
    write_variable(variable, f)?;
    f.write_str("]")
}

/// Writes a literal as a step.
fn write_literal_step<W: Write>(value: &Value, f: &mut Formatter<W>) -> fmt::Result
    ensures { WritesOnOk W.write_str_gives f.old result (as_step (literal (view value.now))
        (written_literal (view value.now))) f.new }
{
    match value {
        Value::Text(text) => write_key(text.as_str(), f),
        _ => write_bracketed_literal(value, f),
    }
}

fn write_bracketed_literal<W: Write>(value: &Value, f: &mut Formatter<W>) -> fmt::Result
    ensures { WritesOnOk W.write_str_gives f.old result (codes "[" ++
        (written_literal (view value.now) ++
        codes "]")) f.new }
{
    f.write_str("[")?;
    write_literal(value, f)?;
    f.write_str("]")
}

/// Writes a text as a step.
fn write_key<W: Write>(text: &str, f: &mut Formatter<W>) -> fmt::Result
    ensures { WritesOnOk W.write_str_gives f.old result (spelled_key text.now) f.new }
{
    if is_name(text) {
        write!(f, ".{text}")
    } else {
        write!(f, "[\"{text}\"]")
    }
}

/// Whether a text may follow a dot.
fn is_name(text: &str) -> bool
    ensures { result ≡ is_name text.now }
{
    match text.as_bytes().split_first() {
        Some((first, others)) => begins_name(*first) && all_go_on(others),
        None => false,
    }
}

fn all_go_on(bytes: &[u8]) -> bool
    ensures { result ≡ list_all goes_on_in_name bytes.now }
{
    for byte in bytes {
        if !goes_on_in_name(*byte) {
            return false;
        }
    }
    true
}

fn begins_name(byte: u8) -> bool
    ensures { result ≡ begins_name byte }
{
    byte.is_ascii_alphabetic() || byte == b'_'
}

fn goes_on_in_name(byte: u8) -> bool
    ensures { result ≡ goes_on_in_name byte }
{
    begins_name(byte) || byte.is_ascii_digit() || byte == b'-'
}
