//! Conditions of `if`, `elsif` and `unless`.
ghost use Rattle.std.specs.Prelude.{Some, None, map};
ghost use Rattle.std.specs.Fmt.{WritesOnOk};
ghost use Rattle.liquid_model.specs.Answer.{Answers};
ghost use Rattle.liquid_model.specs.Data.{number};
ghost use Rattle.liquid_model.specs.View.{view};
ghost use Rattle.liquid_core.specs.ExpressionView.{expression_view};
ghost use Rattle.liquid_core.specs.States.{environment_of};
ghost use Rattle.liquid_evaluation.specs.ConditionView.{atom_view, atoms_view, condition_view};
ghost use Rattle.liquid_evaluation.specs.Evaluation.{atom_truth, all_true, truth_of};
ghost use Rattle.liquid_evaluation.specs.WrittenConditions.{written_atom, written_conjunction};
ghost use Rattle.liquid_evaluation.specs.WrittenConditions.{written_condition};
ghost use Rattle.liquid_evaluation.specs.Tree as tree;
ghost use Rattle.liquid_evaluation.specs.inside.Comparisons.{truth_beside};

use crate::comparison::ComparisonOperator;
use liquid_core::{DirectValue, Expression, Result, State, Value};
use std::alloc::Global;
use std::fmt;
use std::fmt::{Formatter, Write};

/// A condition: conjunctions joined by `or`, each of atoms joined by `and`.
#[derive(Drop)]
pub struct Condition {
    pub conjunctions: Vec<Vec<Atom>>,
}

/// A value that is asked for its truth, or two values that are compared.
pub enum Atom {
    Bare(Expression),
    Compared(Expression, ComparisonOperator, Expression),
}

/// Drops what it holds. Written by hand, so that each early return drops the value by one call
/// to prove.
impl Drop for Atom {
    fn drop(self) {
        match self {
            Atom::Bare(_) => {}
            Atom::Compared(_, _, _) => {}
        }
    }
}

impl Condition {
    /// Whether the condition holds. Both joins go from left to right, and the right side is not
    /// read where the left decides. `UnknownVariable` where a compared value is missing (a bare one
    /// is false), `UnexpectedValue` where `contains` has nil on its left. Where a missing value is
    /// nil in this state, `==` and `!=` compare nil in its place, the other comparisons are false,
    /// and so is `contains` with nil on its left.
    #[tactic(auto, unfolding(crate::specs::Evaluation::truth_of))]
    pub fn holds(&self, alloc: Global, state: &State<'_>) -> Result<bool>
        ensures { Answers (λ b. b) result (truth_of (condition_view self.now)
            (environment_of state.now)) }
    {
        for conjunction in &self.conjunctions {
            if all_hold(alloc, conjunction, state)? {
                return Ok(true);
            }
        }
        Ok(false)
    }
}

/// Whether all atoms hold, up to the first that doesn't.
#[tactic(auto, unfolding(crate::specs::Evaluation::all_true))]
fn all_hold(alloc: Global, atoms: &Vec<Atom>, state: &State<'_>) -> Result<bool>
    ensures { Answers (λ b. b) result (all_true (atoms_view atoms.now) (environment_of state.now)) }
{
    for atom in atoms {
        if !atom.holds(alloc, state)? {
            return Ok(false);
        }
    }
    Ok(true)
}

impl Atom {
    #[tactic(auto, unfolding(crate::specs::Evaluation::atom_truth))]
    fn holds(&self, alloc: Global, state: &State<'_>) -> Result<bool>
        ensures { Answers (λ b. b) result
            (atom_truth (atom_view self.now) (environment_of state.now)) }
    {
        match self {
            Atom::Bare(value) => match value.direct_value(state) {
                DirectValue::Held(found) => Ok(found.is_truthy()),
                DirectValue::Truth(found) => Ok(found),
                _ => bare_holds(alloc, value, state),
            },
            Atom::Compared(left, operator, right) => {
                match left.direct_value(state) {
                    DirectValue::Held(left) => {
                        return holds_beside(alloc, left, *operator, right, state);
                    }
                    DirectValue::Number(left) => {
                        return number_holds_beside(alloc, left, *operator, right, state);
                    }
                    _ => {}
                }
                match left.sought(alloc, state)? {
                    Some(left) => {
                        let held = holds_beside(alloc, left.as_value(), *operator, right, state);
                        drop(left);
                        held
                    }
                    None => holds_beside_missing(alloc, *operator, right, state),
                }
            }
        }
    }
}

/// Whether the expression has a value that counts as true.
#[tactic(auto, unfolding(crate::specs::Evaluation::atom_truth))]
fn bare_holds(alloc: Global, value: &Expression, state: &State<'_>) -> Result<bool>
    ensures { Answers (λ b. b) result
        (atom_truth (tree.bare (expression_view value.now)) (environment_of state.now)) }
{
    match value.try_evaluate(alloc, state)? {
        Some(found) => Ok(found.as_value().is_truthy()),
        None => Ok(false),
    }
}

/// Whether the left value compares so with the value of the right expression.
fn holds_beside(
    alloc: Global,
    left: &Value,
    operator: ComparisonOperator,
    right: &Expression,
    state: &State<'_>,
) -> Result<bool>
    ensures { Answers (λ b. b) result (truth_beside (Some (view left.now)) operator
        (expression_view right.now)
        (environment_of state.now)) }
{
    if let DirectValue::Held(right) = right.direct_value(state) {
        return operator.holds(alloc, left, right, state.missing());
    }
    match right.sought(alloc, state)? {
        Some(right) => {
            let held = operator.holds(alloc, left, right.as_value(), state.missing());
            drop(right);
            held
        }
        None => {
            let nil = Value::Nil;
            let held = operator.holds_beside_missing(left, &nil);
            drop(nil);
            Ok(held)
        }
    }
}

/// Whether the number compares so with the value of the right expression.
fn number_holds_beside(
    alloc: Global,
    left: i64,
    operator: ComparisonOperator,
    right: &Expression,
    state: &State<'_>,
) -> Result<bool>
    ensures { Answers (λ b. b) result (truth_beside (Some (number left)) operator
        (expression_view right.now)
        (environment_of state.now)) }
{
    let left = Value::Integer(left);
    let held = holds_beside(alloc, &left, operator, right, state);
    drop(left);
    held
}

/// Whether a missing value compares so with the value of the right expression.
fn holds_beside_missing(
    alloc: Global,
    operator: ComparisonOperator,
    right: &Expression,
    state: &State<'_>,
) -> Result<bool>
    ensures { Answers (λ b. b) result (truth_beside None operator (expression_view right.now)
        (environment_of state.now)) }
{
    let nil = Value::Nil;
    let held = match right.sought(alloc, state)? {
        Some(right) => {
            let held = operator.holds_beside_missing(&nil, right.as_value());
            drop(right);
            held
        }
        None => operator.holds_beside_missing(&nil, &nil),
    };
    drop(nil);
    Ok(held)
}

/// The conjunctions with ` or ` between them.
impl fmt::Display for Condition {
    ghost output = { λ condition. Some (written_condition (condition_view condition)) };

    fn fmt<W: Write>(&self, f: &mut Formatter<W>) -> fmt::Result {
        write_conjunctions(&self.conjunctions, f)
    }
}

/// The written form of the value, or of both with the operator between single spaces.
impl fmt::Display for Atom {
    ghost output = { λ atom. Some (written_atom (atom_view atom)) };

    fn fmt<W: Write>(&self, f: &mut Formatter<W>) -> fmt::Result {
        match self {
            Atom::Bare(value) => write!(f, "{value}"),
            Atom::Compared(left, operator, right) => write!(f, "{left} {operator} {right}"),
        }
    }
}

fn write_conjunctions<W: Write>(conjunctions: &Vec<Vec<Atom>>, f: &mut Formatter<W>) -> fmt::Result
    ensures { WritesOnOk W.write_str_gives f.old result
        (written_condition (map atoms_view conjunctions.now.items)) f.new }
{
    let mut join = "";
    for conjunction in conjunctions {
        f.write_str(join)?;
        write_atoms(conjunction, f)?;
        join = " or ";
    }
    Ok(())
}

/// The atoms with ` and ` between them.
fn write_atoms<W: Write>(atoms: &Vec<Atom>, f: &mut Formatter<W>) -> fmt::Result
    ensures { WritesOnOk W.write_str_gives f.old result (written_conjunction (atoms_view atoms.now))
        f.new }
{
    let mut join = "";
    for atom in atoms {
        f.write_str(join)?;
        write!(f, "{atom}")?;
        join = " and ";
    }
    Ok(())
}
