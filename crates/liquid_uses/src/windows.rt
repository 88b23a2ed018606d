//! How many items of its source a loop sees.
ghost use Rattle.std.specs.Prelude.{◌≡◌, ◌≤◌, IfSome, option_map};
ghost use Rattle.liquid_core.specs.ExpressionView.{expression_view};
ghost use Rattle.liquid_meaning.specs.Reading as spec;
ghost use Rattle.liquid_meaning.specs.Reading.{limit_after, literal_limit, literal_offset};
ghost use Rattle.liquid_model.specs.View.{view};
ghost use Rattle.liquid_core.specs.Expression.{literal};
ghost use Rattle.liquid_syntax.specs.Flats.{window_view};

use liquid_core::{Expression, Value};
use liquid_syntax::WindowExpression;

/// How many items of its source a loop in this window sees at most: the limit and the offset
/// together, where the limit is a literal and the offset too, if there is one.
pub(crate) fn seen_limit(window: &WindowExpression) -> Option<usize>
    ensures { result ≡ spec.seen_limit (window_view window.now) }
{
    last_of(offset_of(&window.offset), limit_of(&window.limit))
}

fn limit_of(limit: &Option<Expression>) -> Option<usize>
    ensures is { result ≡ literal_limit (option_map expression_view limit.now) }
    ensures most { IfSome result (λ n. n ≤ 9223372036854775807) }
{
    match limit {
        Some(expression) => literal_amount(expression),
        None => None,
    }
}

fn offset_of(offset: &Option<Expression>) -> Option<usize>
    ensures is { result ≡ literal_offset (option_map expression_view offset.now) }
    ensures most { IfSome result (λ n. n ≤ 9223372036854775807) }
{
    match offset {
        Some(expression) => literal_amount(expression),
        None => Some(0),
    }
}

/// The number of a literal that isn't negative.
fn literal_amount(expression: &Expression) -> Option<usize>
    ensures is { result ≡ spec.literal_amount (expression_view expression.now) }
    ensures most { IfSome result (λ n. n ≤ 9223372036854775807) }
{
    match expression {
        Expression::Literal(value) => value_amount(value),
        Expression::Variable(_) => None,
    }
}

fn value_amount(value: &Value) -> Option<usize>
    ensures is { result ≡ spec.literal_amount (literal (view value.now)) }
    ensures most { IfSome result (λ n. n ≤ 9223372036854775807) }
{
    match value {
        Value::Integer(n) => not_negative(*n),
        Value::Nil | Value::Bool(_) | Value::Text(_) | Value::Array(_) | Value::Object(_) => None,
    }
}

fn not_negative(number: i64) -> Option<usize>
    ensures is { result ≡ spec.not_negative number }
    ensures most { IfSome result (λ n. n ≤ 9223372036854775807) }
{
    if number < 0 {
        None
    } else {
        Some(number as usize)
    }
}

/// A limit after an offset.
fn last_of(offset: Option<usize>, limit: Option<usize>) -> Option<usize>
    requires few { IfSome offset (λ n. n ≤ 9223372036854775807) }
    requires few_more { IfSome limit (λ n. n ≤ 9223372036854775807) }
    ensures { result ≡ limit_after offset limit }
{
    match offset {
        None => None,
        Some(first) => match limit {
            None => None,
            Some(count) => Some(first + count),
        },
    }
}
