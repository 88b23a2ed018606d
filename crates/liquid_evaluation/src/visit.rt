//! The names that chains, conditions and loop sources mention, given to a visitor in the order in
//! which they stand. Each function answers whether the visitor ended the visit.
ghost use Rattle.std.specs.Prelude.{map, option_map};
ghost use Rattle.liquid_core.specs.ExpressionView.{expression_view, variable_view, steps_view};
ghost use Rattle.liquid_evaluation.specs.ChainView.{chain_view, chain_filter_view};
ghost use Rattle.liquid_evaluation.specs.ConditionView.{atom_view, atoms_view, condition_view};
ghost use Rattle.liquid_evaluation.specs.Names.{expression_names, steps_names, all_names};
ghost use Rattle.liquid_evaluation.specs.Names.{optional_names, filters_names, chain_names};
ghost use Rattle.liquid_evaluation.specs.Names.{atom_names, atoms_names, condition_names};
ghost use Rattle.liquid_evaluation.specs.Names.{source_names};
ghost use Rattle.liquid_evaluation.specs.SourceView.{source_view};

use crate::chain::{ChainFilter, FilterChain};
use crate::condition::{Atom, Condition};
use crate::name_visitor::NameVisitor;
use crate::range_expression::RangeExpression;
use liquid_core::{Expression, Variable};

/// The names of a chain: those of its entry, then those of its filters' arguments.
#[tactic(auto, unfolding(crate::specs::Names::chain_names))]
pub fn visit_chain<V: NameVisitor>(chain: &FilterChain, visitor: &mut V) -> bool
    ensures { V.tells visitor.old (chain_names (chain_view chain.now)) result visitor.new }
{
    visit_expression(&chain.entry, visitor) || visit_filters(&chain.filters, visitor)
}

/// The names of the arguments of filters, one filter after another.
pub fn visit_filters<V: NameVisitor>(filters: &[ChainFilter], visitor: &mut V) -> bool
    ensures { V.tells visitor.old (filters_names (map chain_filter_view filters.now)) result
        visitor.new }
{
    for filter in filters {
        if visit_expressions(&filter.arguments, visitor) {
            return true;
        }
    }
    false
}

/// The names of a condition.
pub fn visit_condition<V: NameVisitor>(condition: &Condition, visitor: &mut V) -> bool
    ensures { V.tells visitor.old (condition_names (condition_view condition.now)) result
        visitor.new }
{
    for conjunction in &condition.conjunctions {
        if visit_atoms(conjunction, visitor) {
            return true;
        }
    }
    false
}

fn visit_atoms<V: NameVisitor>(atoms: &Vec<Atom>, visitor: &mut V) -> bool
    ensures { V.tells visitor.old (atoms_names (atoms_view atoms.now)) result visitor.new }
{
    for atom in atoms {
        if visit_atom(atom, visitor) {
            return true;
        }
    }
    false
}

#[tactic(auto, unfolding(crate::specs::Names::atom_names))]
fn visit_atom<V: NameVisitor>(atom: &Atom, visitor: &mut V) -> bool
    ensures { V.tells visitor.old (atom_names (atom_view atom.now)) result visitor.new }
{
    match atom {
        Atom::Bare(value) => visit_expression(value, visitor),
        Atom::Compared(left, _, right) => {
            visit_expression(left, visitor) || visit_expression(right, visitor)
        }
    }
}

/// The names of what a loop goes over.
#[tactic(auto, unfolding(crate::specs::Names::source_names))]
pub fn visit_source<V: NameVisitor>(source: &RangeExpression, visitor: &mut V) -> bool
    ensures { V.tells visitor.old (source_names (source_view source.now)) result visitor.new }
{
    match source {
        RangeExpression::Array(value) => visit_expression(value, visitor),
        RangeExpression::Counted(first, last) => {
            visit_expression(first, visitor) || visit_expression(last, visitor)
        }
    }
}

/// The names of an expression that may be missing.
#[tactic(auto, unfolding(crate::specs::Names::optional_names))]
pub fn visit_optional<V: NameVisitor>(expression: &Option<Expression>, visitor: &mut V) -> bool
    ensures { V.tells visitor.old (optional_names (option_map expression_view expression.now))
        result
        visitor.new }
{
    match expression {
        Some(expression) => visit_expression(expression, visitor),
        None => false,
    }
}

/// The names of expressions, one after another.
pub fn visit_expressions<V: NameVisitor>(expressions: &[Expression], visitor: &mut V) -> bool
    ensures { V.tells visitor.old (all_names (map expression_view expressions.now)) result
        visitor.new }
{
    for expression in expressions {
        if visit_expression(expression, visitor) {
            return true;
        }
    }
    false
}

/// The names of an expression: the first name of a variable, then those in its steps. A literal has
/// none.
#[cycle(visit)]
pub fn visit_expression<V: NameVisitor>(expression: &Expression, visitor: &mut V) -> bool
    ensures { V.tells visitor.old (expression_names (expression_view expression.now)) result
        visitor.new }
{
    match expression {
        Expression::Literal(_) => false,
        Expression::Variable(variable) => visit_variable(variable, visitor),
    }
}

#[cycle(visit)]
fn visit_variable<V: NameVisitor>(variable: &Variable, visitor: &mut V) -> bool
    ensures { V.tells visitor.old (expression_names (variable_view variable.now)) result
        visitor.new }
{
    visitor.visit(variable.name.as_str()) || visit_steps(&variable.indexes, visitor)
}

#[cycle(visit)]
fn visit_steps<V: NameVisitor>(steps: &Vec<Expression>, visitor: &mut V) -> bool
    ensures { V.tells visitor.old (steps_names (steps_view steps.now.items)) result visitor.new }
{
    for step in steps {
        if visit_expression(step, visitor) {
            return true;
        }
    }
    false
}
