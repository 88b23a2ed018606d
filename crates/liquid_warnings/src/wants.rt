//! What a template wants of the values that it asks for.
use crate::{Span, Want};
use liquid_core::{Expression, Value, Variable};
use liquid_evaluation::{ChainFilter, ComparisonOperator};
use liquid_model::whole_of;
use liquid_syntax::Arm;

/// A loop over all of its items.
pub(crate) const WHOLE: Span = Span {
    offset: None,
    limit: None,
};

/// How many of the first steps are literal texts.
pub(crate) fn literal_steps(variable: &Variable) -> usize {
    let mut count = 0_usize;
    for index in &variable.indexes {
        if !matches!(index, Expression::Literal(Value::Text(_))) {
            return count;
        }
        count = count.saturating_add(1);
    }
    count
}

/// What is wanted of the value before an operator, which another one follows.
pub(crate) fn want_before(operator: ComparisonOperator, other: &Expression) -> Want {
    match operator {
        ComparisonOperator::Contains => Want::Searched,
        _ => want_beside(other),
    }
}

/// What is wanted of the value after an operator, before which another one stands.
pub(crate) fn want_after(operator: ComparisonOperator, other: &Expression) -> Want {
    match operator {
        ComparisonOperator::Contains => Want::Contained,
        _ => want_beside(other),
    }
}

/// What is wanted of a value that is compared with another one.
pub(crate) fn want_beside(other: &Expression) -> Want {
    match other {
        Expression::Literal(Value::Integer(_)) => Want::Number,
        Expression::Literal(Value::Bool(_)) => Want::Truth,
        Expression::Literal(Value::Text(text)) => want_beside_text(text.as_str()),
        _ => Want::Present,
    }
}

fn want_beside_text(text: &str) -> Want {
    match text {
        "true" | "false" | "yes" | "no" | "on" | "off" => Want::TruthWord,
        _ if whole_of(text).is_some() => Want::NumberWord,
        _ => Want::Word,
    }
}

/// What is wanted of the entry of a chain with these filters: before one it is nil where it is
/// missing.
pub(crate) fn want_of_entry(filters: &[ChainFilter]) -> Want {
    match filters.first() {
        None => Want::Present,
        Some(filter) if is_date_filter(filter.filter.name()) => Want::Date,
        Some(filter) if filter.filter.name() == "default" => Want::Defaulted,
        Some(_) => Want::Perhaps,
    }
}

/// What is wanted of the entry of an output with these filters.
pub(crate) fn want_of_output(filters: &[ChainFilter]) -> Want {
    if filters.is_empty() {
        Want::Shown
    } else {
        want_of_entry(filters)
    }
}

/// What is wanted of the value of which the last key of a path is asked, where anything is.
pub(crate) fn want_of_holder(variable: &Variable, want: Want) -> Option<Want> {
    let Some(Expression::Literal(Value::Text(key))) = variable.indexes.last() else {
        return None;
    };
    match key.as_str() {
        "size" if matches!(want, Want::Tested) => Some(Want::Sized),
        "size" | "first" | "last" => None,
        _ => Some(Want::Keyed),
    }
}

/// What is wanted of the target of a `case`, by the first of its values.
pub(crate) fn want_of_target(arms: &[Arm]) -> Want {
    let Some(arm) = arms.first() else {
        return Want::Present;
    };
    match arm.values.first() {
        Some(value) => want_beside(value),
        None => Want::Present,
    }
}

pub(crate) fn number_of(value: &Option<Expression>) -> Option<i64> {
    match value {
        Some(Expression::Literal(Value::Integer(number))) => Some(*number),
        _ => None,
    }
}

/// Whether each of these filters gives the items of a list that it gets, or all but some.
pub(crate) fn keep_items(filters: &[ChainFilter]) -> bool {
    filters.iter().all(|filter| keeps_items(filter))
}

pub(crate) fn keeps_items(filter: &ChainFilter) -> bool {
    matches!(
        filter.filter.name(),
        "sort" | "sort_natural" | "reverse" | "uniq" | "compact"
    )
}

/// The key of items that a filter is given.
pub(crate) fn item_key(filter: &ChainFilter) -> Option<&str> {
    let takes_key = matches!(
        filter.filter.name(),
        "sort" | "sort_natural" | "uniq" | "compact" | "where" | "map" | "group_by" | "sum"
    );
    match filter.arguments.first() {
        Some(Expression::Literal(Value::Text(key))) if takes_key && !key.contains('.') => {
            Some(key.as_str())
        }
        _ => None,
    }
}

fn is_date_filter(name: &str) -> bool {
    matches!(
        name,
        "date"
            | "date_in_tz"
            | "date_to_string"
            | "date_to_long_string"
            | "date_to_xmlschema"
            | "date_to_rfc822"
    )
}
