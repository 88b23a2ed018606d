//! How two values are compared.
ghost use Rattle.std.specs.Prelude.{◌≡◌, Ok, Some, false};
ghost use Rattle.liquid_model.specs.Answer.{Answers, IsValueOrMemory};
ghost use Rattle.liquid_model.specs.Data.{text_of};
ghost use Rattle.liquid_model.specs.View.{view, pairs_view};
ghost use Rattle.liquid_model.specs.declared.error.ErrorKind.TheVariants.{UnexpectedValue};
ghost use Rattle.liquid_core.specs.Expressions.{forgiven};
ghost use Rattle.liquid_evaluation.specs.Evaluation.{comparison_truth, contains, has_key};
ghost use Rattle.liquid_evaluation.specs.Evaluation.{occurs_in, truth_beside_missing};
ghost use Rattle.liquid_evaluation.specs.WrittenConditions.{written_operator};

use liquid_core::{Error, ErrorKind, Missing, Object, Result, Value, look_up};
use std::alloc::Global;
use std::cmp::Ordering;
use std::fmt;
use std::fmt::{Formatter, Write};

/// How two values are compared (Liquid's operators of conditions).
#[derive(Clone, Copy, Debug, PartialEq, Eq)]
pub enum ComparisonOperator {
    /// `==`
    Equals,
    /// `!=`, also written `<>`
    NotEquals,
    /// `<`
    LessThan,
    /// `>`
    GreaterThan,
    /// `<=`
    LessThanEquals,
    /// `>=`
    GreaterThanEquals,
    /// `contains`
    Contains,
}

impl ComparisonOperator {
    /// Whether the two values compare so. Where values have no order, `<`, `>`, `<=` and `>=` are
    /// false.
    /// `contains` is `UnexpectedValue` for nil on the left, or false where a missing value is nil.
    #[tactic(auto, unfolding(crate::specs::Evaluation::comparison_truth))]
    pub fn holds(self, alloc: Global, left: &Value, right: &Value, missing: Missing) -> Result<bool>
        ensures { Answers (λ b. b) result
            (comparison_truth missing self (view left.now) (view right.now)) }
    {
        match self {
            ComparisonOperator::Equals => Ok(*left == *right),
            ComparisonOperator::NotEquals => Ok(*left != *right),
            ComparisonOperator::LessThan => Ok(matches!(left.compare(right), Some(Ordering::Less))),
            ComparisonOperator::GreaterThan => Ok(matches!(
                left.compare(right),
                Some(Ordering::Greater)
            )),
            ComparisonOperator::LessThanEquals => Ok(matches!(
                left.compare(right),
                Some(Ordering::Less | Ordering::Equal)
            )),
            ComparisonOperator::GreaterThanEquals => Ok(matches!(
                left.compare(right),
                Some(Ordering::Greater | Ordering::Equal)
            )),
            ComparisonOperator::Contains => contains(alloc, left, right, missing),
        }
    }
}

impl ComparisonOperator {
    /// Whether the two values compare so, of which one or both stand for a missing value, as nil:
    /// `==` and `!=` compare them, and the others are false.
    pub(crate) fn holds_beside_missing(self, left: &Value, right: &Value) -> bool
        ensures { result ≡ truth_beside_missing self (view left.now) (view right.now) }
    {
        match self {
            ComparisonOperator::Equals => *left == *right,
            ComparisonOperator::NotEquals => *left != *right,
            _ => false,
        }
    }

    /// How the operator stands in a condition.
    pub fn as_str(self) -> &'static str
        ensures { result.now ≡ written_operator self }
    {
        match self {
            ComparisonOperator::Equals => "==",
            ComparisonOperator::NotEquals => "!=",
            ComparisonOperator::LessThan => "<",
            ComparisonOperator::GreaterThan => ">",
            ComparisonOperator::LessThanEquals => "<=",
            ComparisonOperator::GreaterThanEquals => ">=",
            ComparisonOperator::Contains => "contains",
        }
    }
}

/// How the operator stands in a condition.
impl fmt::Display for ComparisonOperator {
    ghost output = { λ operator. Some (written_operator operator) };

    fn fmt<W: Write>(&self, f: &mut Formatter<W>) -> fmt::Result {
        f.write_str(self.as_str())
    }
}

/// Whether the left value has the right one in it: a list as an item, a map as a key, a scalar in
/// its text.
#[tactic(auto, using(liquid_model::proofs::Views::list_of_view))]
fn contains(alloc: Global, left: &Value, right: &Value, missing: Missing) -> Result<bool>
    ensures { Answers (λ b. b) result (contains missing (view left.now) (view right.now)) }
{
    match left {
        Value::Nil => nil_contains(alloc, missing),
        Value::Array(items) => Ok(items.contains(right)),
        Value::Object(pairs) => Ok(has_key(alloc, pairs, right)?),
        Value::Text(text) => Ok(has_text(alloc, text.as_str(), right)?),
        Value::Bool(_) | Value::Integer(_) => Ok(has_text(
            alloc,
            left.text(alloc)?.as_str(),
            right,
        )?),
    }
}

/// The fault of nil on the left, or false where a missing value is nil.
fn nil_contains(alloc: Global, missing: Missing) -> Result<bool>
    ensures { Answers (λ b. b) result (forgiven UnexpectedValue false missing) }
{
    match missing {
        Missing::IsFault => Err(Error::new(
            alloc,
            ErrorKind::UnexpectedValue,
            "`contains` found nil, where a text, a list or a map is wanted",
        )),
        Missing::IsNil => Ok(false),
    }
}

/// Whether the text of a scalar is a key.
fn has_key(alloc: Global, pairs: &Object, key: &Value) -> Result<bool>
    ensures { IsValueOrMemory (λ b. b) result (has_key (pairs_view pairs.now.entries)
        (view key.now)) }
{
    match key {
        Value::Text(name) => Ok(look_up(pairs, name.as_str()).is_some()),
        Value::Bool(_) | Value::Integer(_) => {
            let name = key.text(alloc)?;
            Ok(look_up(pairs, name.as_str()).is_some())
        }
        _ => Ok(false),
    }
}

/// Whether the text has the text of the value in it.
fn has_text(alloc: Global, text: &str, part: &Value) -> Result<bool>
    ensures { IsValueOrMemory (λ b. b) result (occurs_in (text_of (view part.now)) text.now) }
{
    match part {
        Value::Text(part) => Ok(occurs(text, part.as_str())),
        _ => {
            let part = part.text(alloc)?;
            Ok(occurs(text, part.as_str()))
        }
    }
}

fn occurs(text: &str, part: &str) -> bool
    ensures { result ≡ occurs_in part.now text.now }
{
    text.contains(part)
}
