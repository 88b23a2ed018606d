//! Loops and conditions that come out the same whatever the data is.
ghost use Rattle.std.specs.Prelude.{◌≡◌, IfOk, codes, option_map, string_bytes};
ghost use Rattle.std.specs.List.{list_any};
ghost use Rattle.liquid_model.specs.View.{view};
ghost use Rattle.liquid_warnings.specs.Fixed.{down_found, down_message, down_said, falls};
ghost use Rattle.liquid_warnings.specs.Fixed.{fixed_found, fixed_said, has_fixed_atom};
ghost use Rattle.liquid_warnings.specs.Fixed.{is_down, is_fixed_atom, is_any_literal};
ghost use Rattle.liquid_warnings.specs.Fixed.{literals_message, literals_said};
ghost use Rattle.liquid_warnings.specs.Nodes.{looped, tested};
ghost use Rattle.liquid_warnings.specs.Remarks.{remark_view};

use crate::literals::literal_value;
use crate::loops::looped;
use crate::remark::Remark;
use liquid_core::{Expression, Value};
use liquid_evaluation::{Atom, RangeExpression};
use liquid_syntax::{Node, Position};
use std::alloc::{AllocError, Global};

/// `DownRange`: a loop goes over a range whose second number is less than its first; or
/// `FixedTest`: a condition compares two literals.
pub(crate) fn fixed_warning(
    alloc: Global,
    node: &Node,
    position: Position,
) -> Result<Option<Remark>, AllocError>
    ensures { IfOk result (λ r. option_map remark_view r ≡ fixed_said position node.now) }
{
    match down_range(alloc, node, position)? {
        Some(remark) => Ok(Some(remark)),
        None => fixed_test(alloc, node, position),
    }
}

fn down_range(alloc: Global, node: &Node, position: Position) -> Result<Option<Remark>, AllocError>
    ensures { IfOk result (λ r. option_map remark_view r ≡ down_said position node.now) }
{
    if !is_down_loop(node) {
        return Ok(None);
    }
    let message = down_message(alloc)?;
    Ok(Some(Remark::warning(position, "DownRange", message)))
}

fn down_message(alloc: Global) -> Result<String, AllocError>
    ensures { IfOk result (λ message. string_bytes message ≡ down_message) }
{
    String::from_str(
        alloc,
        "this range goes downwards and has no numbers; write the lesser one first, and `reversed`",
    )
}

fn is_down_loop(node: &Node) -> bool
    ensures { result ≡ down_found (looped node.now) }
{
    match looped(node) {
        Some(source) => is_down(source),
        None => false,
    }
}

fn is_down(source: &RangeExpression) -> bool
    ensures { result ≡ is_down source.now }
{
    match source {
        RangeExpression::Counted(first, last) => falls(literal_value(first), literal_value(last)),
        RangeExpression::Array(_) => false,
    }
}

/// Whether both are numbers, and the second is less.
fn falls(first: Option<&Value>, last: Option<&Value>) -> bool
    ensures { result ≡ falls (option_map (λ v. view v.now) first.entry)
        (option_map (λ v. view v.now) last.entry) }
{
    match (first, last) {
        (Some(Value::Integer(first)), Some(Value::Integer(last))) => *last < *first,
        _ => false,
    }
}

fn fixed_test(alloc: Global, node: &Node, position: Position) -> Result<Option<Remark>, AllocError>
    ensures { IfOk result (λ r. option_map remark_view r ≡ literals_said position node.now) }
{
    if !is_fixed_node(node) {
        return Ok(None);
    }
    let message = literals_message(alloc)?;
    Ok(Some(Remark::warning(position, "FixedTest", message)))
}

fn literals_message(alloc: Global) -> Result<String, AllocError>
    ensures { IfOk result (λ message. string_bytes message ≡ literals_message) }
{
    String::from_str(
        alloc,
        "no side of this comparison is a name, so it always comes out the same; a name has no \
        quotes",
    )
}

fn is_fixed_node(node: &Node) -> bool
    ensures { result ≡ fixed_found (tested node.now) }
{
    match node {
        Node::If(condition, _) | Node::Unless(condition, _) => is_fixed(&condition.conjunctions),
        _ => false,
    }
}

fn is_fixed(conjunctions: &[Vec<Atom>]) -> bool
    ensures { result ≡ list_any has_fixed_atom conjunctions.now }
{
    for atoms in conjunctions {
        if has_fixed_atom(atoms) {
            return true;
        }
    }
    false
}

fn has_fixed_atom(atoms: &[Atom]) -> bool
    ensures { result ≡ list_any is_fixed_atom atoms.now }
{
    for atom in atoms {
        if is_fixed_atom(atom) {
            return true;
        }
    }
    false
}

fn is_fixed_atom(atom: &Atom) -> bool
    ensures { result ≡ is_fixed_atom atom.now }
{
    match atom {
        Atom::Compared(left, _, right) => is_any_literal(left) && is_any_literal(right),
        Atom::Bare(_) => false,
    }
}

fn is_any_literal(expression: &Expression) -> bool
    ensures { result ≡ is_any_literal expression.now }
{
    literal_value(expression).is_some()
}
