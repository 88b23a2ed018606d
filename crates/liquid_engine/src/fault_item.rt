//! Which item of a node a fault is about. To find that, and only then, the node's values are
//! evaluated once more, in the state in which the node ended.
ghost use Rattle.liquid_model.specs.ErrorKinds.{IsKindOrMemory};

use crate::fault_tag::{item_of_case, item_of_cycle, item_of_for, item_of_other, item_of_tablerow};
use liquid_core::{
    Error, ErrorKind, Expression, Missing, NamedFilters, Quoted, Result, State, Value,
};
use liquid_syntax::{Atom, Condition, FilterChain, Node, PieceItem};
use std::alloc::{AllocError, Global};

/// The item of a node that its fault of this kind is about.
pub(crate) fn item_of_node<H: NamedFilters>(
    alloc: Global,
    node: &Node,
    state: &State<'_>,
    host: &H,
    kind: ErrorKind,
) -> Result<PieceItem> {
    match node {
        Node::Output(chain) => item_of_chain(alloc, chain, 0, state, host),
        Node::Assign(_, chain) => item_of_chain(alloc, chain, 2, state, host),
        Node::If(condition, _) | Node::Unless(condition, _) => {
            item_of_condition(alloc, condition, state)
        }
        Node::Case(target, arms, _) => item_of_case(alloc, target, arms, state),
        Node::For(head, _) => item_of_for(alloc, head, state, kind),
        Node::TableRow(head, _) => item_of_tablerow(alloc, head, state, kind),
        Node::Cycle(group, values) => {
            Ok(item_of_cycle(group.as_str(), values.len(), state, kind))
        }
        _ => item_of_other(alloc, node, state, kind),
    }
}

/// The item of an `elsif`, an `if` or an `unless` whose condition ended by a fault: the value that
/// is missing, or nil before `contains`.
pub(crate) fn item_of_condition(
    alloc: Global,
    condition: &Condition,
    state: &State<'_>,
) -> Result<PieceItem> {
    let mut passed: usize = 0;
    for conjunction in &condition.conjunctions {
        if let Some(operand) = operand_of(alloc, conjunction, state)? {
            // one operator, `and` or `or` follows each value
            let index = passed.saturating_add(operand).saturating_mul(2);
            return Ok(PieceItem::At(index));
        }
        for atom in conjunction {
            passed = passed.saturating_add(operands(atom));
        }
    }
    Ok(PieceItem::Whole)
}

/// The value of a conjunction that its fault is about, counted from its first; none where it has a
/// truth.
fn operand_of(alloc: Global, atoms: &Vec<Atom>, state: &State<'_>) -> Result<Option<usize>> {
    let mut passed: usize = 0;
    for atom in atoms {
        match end_of(alloc, atom, state)? {
            AtomEnd::Holds => passed = passed.saturating_add(operands(atom)),
            AtomEnd::HoldsNot => return Ok(None),
            AtomEnd::Fails(operand) => return Ok(Some(passed.saturating_add(operand))),
        }
    }
    Ok(None)
}

/// How many values an atom has.
fn operands(atom: &Atom) -> usize {
    match atom {
        Atom::Bare(_) => 1,
        Atom::Compared(_, _, _) => 2,
    }
}

/// What comes of an atom: its truth, or which of its values its fault is about.
#[derive(Clone, Copy, Drop)]
enum AtomEnd {
    Holds,
    HoldsNot,
    Fails(usize),
}

fn end_of(alloc: Global, atom: &Atom, state: &State<'_>) -> Result<AtomEnd> {
    match atom {
        Atom::Bare(value) => Ok(match value.try_evaluate(alloc, state)? {
            Some(found) => end_by(found.as_value().is_truthy()),
            None => AtomEnd::HoldsNot,
        }),
        Atom::Compared(left, operator, right) => {
            let Some(left) = left.try_evaluate(alloc, state)? else {
                return Ok(AtomEnd::Fails(0));
            };
            let Some(right) = right.try_evaluate(alloc, state)? else {
                return Ok(AtomEnd::Fails(1));
            };
            match operator.holds(alloc, left.as_value(), right.as_value(), state.missing()) {
                Ok(holds) => Ok(end_by(holds)),
                Err(fault) => unless_refused(fault, AtomEnd::Fails(0)),
            }
        }
    }
}

fn end_by(holds: bool) -> AtomEnd {
    if holds {
        AtomEnd::Holds
    } else {
        AtomEnd::HoldsNot
    }
}

/// The value, unless the fault is `Memory`.
fn unless_refused<T: Drop>(fault: Error, value: T) -> Result<T> {
    if matches!(fault.kind, ErrorKind::Memory) {
        Err(fault)
    } else {
        Ok(value)
    }
}

/// The item of a chain: its entry, where it has no filters; else the first argument without a value
/// or the name of the filter that ended it. The entry stands at an index of the piece.
fn item_of_chain<H: NamedFilters>(
    alloc: Global,
    chain: &FilterChain,
    entry: usize,
    state: &State<'_>,
    host: &H,
) -> Result<PieceItem> {
    if chain.filters.is_empty() {
        return Ok(PieceItem::At(entry));
    }
    let mut value = match chain.entry.try_evaluate(alloc, state)? {
        Some(found) => found.into_owned(alloc)?,
        None => Value::Nil,
    };
    let mut index: usize = 0;
    for stored in &chain.filters {
        match first_missing(alloc, &stored.arguments, state)? {
            Some(argument) if argument < stored.required => {
                return Ok(PieceItem::Argument(index, argument));
            }
            _ => {}
        }
        value = match stored.apply(alloc, &value, state, host) {
            Ok(next) => next,
            Err(fault) => return unless_refused(fault, PieceItem::Filter(index)),
        };
        index = index.saturating_add(1);
    }
    Ok(PieceItem::Whole)
}

/// The index of the first expression that has no value, where that is a fault.
pub(crate) fn first_missing(
    alloc: Global,
    expressions: &[Expression],
    state: &State<'_>,
) -> Result<Option<usize>> {
    for (index, expression) in expressions.iter().enumerate() {
        if is_missing(alloc, expression, state)? {
            return Ok(Some(index));
        }
    }
    Ok(None)
}

/// Whether an expression has no value, where that is a fault.
pub(crate) fn is_missing(
    alloc: Global,
    expression: &Expression,
    state: &State<'_>,
) -> Result<bool> {
    match state.missing() {
        Missing::IsNil => Ok(false),
        Missing::IsFault => Ok(expression.try_evaluate(alloc, state)?.is_none()),
    }
}

/// The fault of a node. Where a chain ended at its first filter, which refused the nil of a missing
/// entry, it also says that the entry has no value.
pub(crate) fn with_missing_entry(
    alloc: Global,
    node: &Node,
    item: PieceItem,
    state: &State<'_>,
    fault: Error,
) -> Error
    ensures { IsKindOrMemory fault.kind result.kind }
{
    if !matches!(fault.kind, ErrorKind::InvalidInput) || item != PieceItem::Filter(0) {
        return fault;
    }
    match node {
        Node::Output(chain) => with_entry(alloc, &chain.entry, state, fault),
        Node::Assign(name, chain) => {
            if is_name(&chain.entry, name.as_str()) {
                with_unset(alloc, name.as_str(), &chain.entry, state, fault)
            } else {
                with_entry(alloc, &chain.entry, state, fault)
            }
        }
        _ => fault,
    }
}

/// Whether an expression is a name without steps, and this one.
fn is_name(expression: &Expression, name: &str) -> bool {
    match expression {
        Expression::Literal(_) => false,
        Expression::Variable(variable) => {
            variable.indexes.is_empty() && variable.name.as_str() == name
        }
    }
}

/// The fault of the first filter, which also says that the name has no value that is assigned, as
/// in a sum that wasn't begun.
fn with_unset(
    alloc: Global,
    name: &str,
    entry: &Expression,
    state: &State<'_>,
    fault: Error,
) -> Error
    ensures { IsKindOrMemory fault.kind result.kind }
{
    match is_missing(alloc, entry, state) {
        Ok(false) => fault,
        Ok(true) => {
            let quoted = Quoted { text: name };
            match format!(in alloc; "`{quoted}` has no value yet: assign it one before this") {
                Ok(words) => with_words(alloc, fault, words.as_str()),
                Err(refused) => Error::from(refused),
            }
        }
        Err(_) => Error::from(AllocError),
    }
}

/// The fault of the first filter, which also says that the entry has no value, where it has none.
fn with_entry(alloc: Global, entry: &Expression, state: &State<'_>, fault: Error) -> Error
    ensures { IsKindOrMemory fault.kind result.kind }
{
    match entry.evaluate(alloc, state) {
        Ok(found) => {
            drop(found);
            fault
        }
        Err(missing) => joined(alloc, fault, missing),
    }
}

/// The fault of a filter, whose message goes on with that of the missing entry.
fn joined(alloc: Global, fault: Error, missing: Error) -> Error
    ensures { IsKindOrMemory fault.kind result.kind }
{
    if matches!(missing.kind, ErrorKind::Memory) {
        return Error::from(AllocError);
    }
    match &missing.message {
        Some(words) => with_words(alloc, fault, words.as_str()),
        None => fault,
    }
}

/// The fault, whose message goes on with these words.
fn with_words(alloc: Global, fault: Error, words: &str) -> Error
    ensures { IsKindOrMemory fault.kind result.kind }
{
    let Some(front) = &fault.message else {
        return fault;
    };
    match format!(in alloc; "{front}; {words}") {
        Ok(message) => fault.reworded(message),
        Err(refused) => Error::from(refused),
    }
}
