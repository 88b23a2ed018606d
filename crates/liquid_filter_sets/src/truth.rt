//! Whether a condition holds where a missing value is nil.
ghost use Rattle.std.specs.Prelude.{◌≡◌};
ghost use Rattle.liquid_model.specs.Answer.{IsValueOrMemory};
ghost use Rattle.liquid_model.specs.Cow.{cow_view};
ghost use Rattle.liquid_model.specs.View.{view};
ghost use Rattle.liquid_core.specs.ExpressionView.{expression_view};
ghost use Rattle.liquid_core.specs.States.{environment_of};
ghost use Rattle.liquid_evaluation.specs.ConditionView.{atom_view, atoms_view, condition_view};
ghost use Rattle.liquid_filter_sets.specs.Truths.{all_hold, atom_holds, compares, condition_holds};
ghost use Rattle.liquid_filter_sets.specs.Truths.{expression_or_nil};

use liquid_core::{ErrorKind, Expression, Missing, Result, State, Value, ValueCow};
use liquid_syntax::{Atom, ComparisonOperator, Condition};
use std::alloc::Global;

/// Whether the condition holds, from left to right up to the conjunction that decides.
pub(crate) fn holds(alloc: Global, condition: &Condition, state: &State<'_>) -> Result<bool>
    ensures { IsValueOrMemory (λ b. b) result
        (condition_holds (condition_view condition.now) (environment_of state.now)) }
{
    for conjunction in &condition.conjunctions {
        if all_hold(alloc, conjunction, state)? {
            return Ok(true);
        }
    }
    Ok(false)
}

fn all_hold(alloc: Global, atoms: &Vec<Atom>, state: &State<'_>) -> Result<bool>
    ensures { IsValueOrMemory (λ b. b) result
        (all_hold (atoms_view atoms.now) (environment_of state.now)) }
{
    for atom in atoms {
        if !atom_holds(alloc, atom, state)? {
            return Ok(false);
        }
    }
    Ok(true)
}

fn atom_holds(alloc: Global, atom: &Atom, state: &State<'_>) -> Result<bool>
    ensures { IsValueOrMemory (λ b. b) result
        (atom_holds (atom_view atom.now) (environment_of state.now)) }
{
    match atom {
        Atom::Bare(value) => {
            let found = value_or_nil(alloc, value, state)?;
            Ok(found.as_value().is_truthy())
        }
        Atom::Compared(left, operator, right) => {
            let left = value_or_nil(alloc, left, state)?;
            let right = value_or_nil(alloc, right, state)?;
            compares(alloc, left.as_value(), *operator, right.as_value())
        }
    }
}

fn value_or_nil<'a>(
    alloc: Global,
    expression: &'a Expression,
    state: &'a State<'_>,
) -> Result<ValueCow<'a>>
    ensures { IsValueOrMemory cow_view result
        (expression_or_nil (expression_view expression.now) (environment_of state.now)) }
{
    match expression.try_evaluate(alloc, state)? {
        Some(value) => Ok(value),
        None => Ok(ValueCow::Owned(Value::Nil)),
    }
}

/// Whether two values compare so. What can't be compared doesn't.
fn compares(
    alloc: Global,
    left: &Value,
    operator: ComparisonOperator,
    right: &Value,
) -> Result<bool>
    ensures { IsValueOrMemory (λ b. b) result
        (compares operator (view left.now) (view right.now)) }
{
    match operator.holds(alloc, left, right, Missing::IsFault) {
        Ok(held) => Ok(held),
        Err(fault) => match fault.kind {
            ErrorKind::Memory => Err(fault),
            _ => Ok(false),
        },
    }
}
