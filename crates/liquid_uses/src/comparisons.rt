//! Whether the uses of names grant what comparisons ask for.
ghost use Rattle.std.specs.Prelude.{◌≡◌, true, map};
ghost use Rattle.liquid_core.specs.Expression.{literal};
ghost use Rattle.liquid_core.specs.ExpressionView.{expression_view};
ghost use Rattle.liquid_model.specs.UseViews.{uses_view};
ghost use Rattle.liquid_model.specs.View.{view};
ghost use Rattle.liquid_evaluation.specs.declared.comparison.ComparisonOperator.TheVariants.{Equals};
ghost use Rattle.liquid_meaning.specs.Reading.{grants, grants_compared, grants_values};
ghost use Rattle.liquid_meaning.specs.Reading.{is_nil_or_scalar, sees_kind_alone, use_beside};
ghost use Rattle.liquid_syntax.specs.Flats.{arm_values};
ghost use Rattle.liquid_uses.specs.inside.OwnGrants.{arms_granted};
ghost use Rattle.liquid_uses.specs.inside.Placing.{gives, IsReached};

use crate::places::{Place, reached};
use liquid_core::{Expression, Uses, Value};
use liquid_syntax::{Arm, ComparisonOperator};

/// Whether a comparison with the other value sees of a list or a map no more than its kind.
pub(crate) fn sees_kind_alone(comparison: ComparisonOperator, other: &Expression) -> bool
    ensures { result ≡ sees_kind_alone comparison (expression_view other.now) }
{
    match comparison {
        ComparisonOperator::Contains => false,
        ComparisonOperator::Equals | ComparisonOperator::NotEquals => is_nil_or_scalar(other),
        ComparisonOperator::LessThan | ComparisonOperator::LessThanEquals => {
            is_nil_or_scalar(other)
        }
        ComparisonOperator::GreaterThan | ComparisonOperator::GreaterThanEquals => {
            is_nil_or_scalar(other)
        }
    }
}

/// Whether it is a literal that is nil or a scalar.
fn is_nil_or_scalar(expression: &Expression) -> bool
    ensures { result ≡ is_nil_or_scalar (expression_view expression.now) }
{
    match expression {
        Expression::Literal(value) => has_no_parts(value),
        Expression::Variable(_) => false,
    }
}

fn has_no_parts(value: &Value) -> bool
    ensures { result ≡ is_nil_or_scalar (literal (view value.now)) }
{
    match value {
        Value::Nil | Value::Bool(_) | Value::Integer(_) | Value::Text(_) => true,
        Value::Array(_) | Value::Object(_) => false,
    }
}

/// Two values that are compared.
#[tactic(auto, unfolding(liquid_meaning::specs::Reading::grants_compared))]
pub(crate) fn compared_granted(
    uses: &Uses,
    left: &Expression,
    comparison: ComparisonOperator,
    right: &Expression,
) -> bool
    ensures { result ≡ true → grants_compared (uses_view uses.now) (expression_view left.now)
        comparison (expression_view right.now) ≡ true }
{
    side_granted(uses, left, comparison, right) && side_granted(uses, right, comparison, left)
}

/// A value that is compared with the other one.
fn side_granted(
    uses: &Uses,
    side: &Expression,
    comparison: ComparisonOperator,
    other: &Expression,
) -> bool
    ensures { result ≡ true → grants (uses_view uses.now) (expression_view side.now) (use_beside
        comparison (expression_view other.now)) ≡ true }
{
    gives_beside(reached(side, uses), comparison, other)
}

/// Whether all is asked at the place that a comparison with the other value sees.
fn gives_beside(place: Place<'_>, comparison: ComparisonOperator, other: &Expression) -> bool
    ensures { result ≡ gives place.entry (use_beside comparison (expression_view other.now)) }
{
    if sees_kind_alone(comparison, other) {
        place.is_present()
    } else {
        place.is_whole()
    }
}

/// The values of the `when` parts of a `case`, each compared with the target.
pub(crate) fn arms_granted(uses: &Uses, target: &Expression, arms: &[Arm]) -> bool
    ensures { result ≡ true → arms_granted (uses_view uses.now) (expression_view target.now)
        (arm_values arms.now) ≡ true }
{
    let place = reached(target, uses);
    for arm in arms {
        if !values_granted(uses, target, place, &arm.values) {
            return false;
        }
    }
    true
}

/// The values of a `when`, where the target is at that place.
fn values_granted(uses: &Uses, target: &Expression, place: Place<'_>, values: &[Expression]) -> bool
    ensures { IsReached place.entry (uses_view uses.now) (expression_view target.now) → result
        ≡ true → grants_values (uses_view uses.now) (expression_view target.now) (map
        expression_view values.now) ≡ true }
{
    for value in values {
        if !value_granted(uses, target, place, value) {
            return false;
        }
    }
    true
}

/// A value that the target is compared with, where that is at the place.
fn value_granted(uses: &Uses, target: &Expression, place: Place<'_>, value: &Expression) -> bool
    ensures { IsReached place.entry (uses_view uses.now) (expression_view target.now) → result
        ≡ true → grants_compared (uses_view uses.now) (expression_view target.now) Equals
        (expression_view value.now) ≡ true }
{
    gives_beside(place, ComparisonOperator::Equals, value)
        && side_granted(uses, value, ComparisonOperator::Equals, target)
}
