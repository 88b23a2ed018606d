//! The properties that filters are given by their names.
ghost use Rattle.std.specs.Prelude.{◌≡◌, false, codes, map, MatchOption};
ghost use Rattle.liquid_core.specs.ExpressionView.{expression_view};
ghost use Rattle.liquid_model.specs.Data.{text};
ghost use Rattle.liquid_model.specs.Texts.{same_text};
ghost use Rattle.liquid_model.specs.View.{view};
ghost use Rattle.liquid_uses.specs.inside.Chains.{IsPropertyName, NamesProperty};

use liquid_core::{Expression, Value};

/// The property that the first argument names, where that is a literal text, and not `size`.
pub(crate) fn property_name(arguments: &[Expression]) -> Option<&str>
    ensures { MatchOption result (Unit {0}) (λ name. NamesProperty (map expression_view
        arguments.now) name.now) }
{
    match arguments {
        [first, ..] => literal_name(first),
        [] => None,
    }
}

fn literal_name(expression: &Expression) -> Option<&str>
    ensures { MatchOption result (Unit {0}) (λ name. IsPropertyName (expression_view
        expression.now) name.now) }
{
    match expression {
        Expression::Literal(value) => text_name(value),
        Expression::Variable(_) => None,
    }
}

fn text_name(value: &Value) -> Option<&str>
    ensures { MatchOption result (Unit {0}) (λ name. (view value.now ≡ text name.now) ×
        (same_text name.now (codes "size") ≡ false)) }
{
    match value {
        Value::Text(name) => no_length(name.as_str()),
        _ => None,
    }
}

fn no_length(name: &str) -> Option<&str>
    ensures { MatchOption result (Unit {0}) (λ found. (found.now ≡ name.now) × (same_text
        name.now (codes "size") ≡ false)) }
{
    if name == "size" { None } else { Some(name) }
}
