//! Literals of a template.
ghost use Rattle.std.specs.Prelude.{◌≡◌, option_map};
ghost use Rattle.liquid_model.specs.View.{view};
ghost use Rattle.liquid_core.specs.ExpressionView.{expression_view};
ghost use Rattle.liquid_warnings.specs.Literals.{literal_of, own_text, text_found};

use liquid_core::{Expression, Value};

/// The text that stands in the template itself, where an expression is one.
pub(crate) fn literal_text(expression: &Expression) -> Option<&str>
    ensures { option_map (λ t. t.now) result
        ≡ text_found (literal_of (expression_view expression.now)) }
{
    match literal_value(expression) {
        Some(value) => own_text(value),
        None => None,
    }
}

/// The value that stands in the template itself, where an expression is one.
pub(crate) fn literal_value(expression: &Expression) -> Option<&Value>
    ensures { option_map (λ v. view v.now) result ≡ literal_of (expression_view expression.now) }
{
    match expression {
        Expression::Literal(value) => Some(value),
        Expression::Variable(_) => None,
    }
}

fn own_text(value: &Value) -> Option<&str>
    ensures { option_map (λ t. t.now) result ≡ own_text (view value.now) }
{
    match value {
        Value::Text(text) => Some(text.as_str()),
        _ => None,
    }
}
