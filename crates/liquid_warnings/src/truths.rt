//! Conditions over what is always true.
ghost use Rattle.std.specs.Prelude.{◌≡◌, IfOk, codes, option_map, string_bytes};
ghost use Rattle.std.specs.List.{list_any};
ghost use Rattle.liquid_model.specs.View.{view};
ghost use Rattle.liquid_warnings.specs.Messages.{sure_message};
ghost use Rattle.liquid_warnings.specs.Nodes.{has_sure_atom, is_sure_atom, is_sure_value};
ghost use Rattle.liquid_warnings.specs.Nodes.{sure_said};
ghost use Rattle.liquid_warnings.specs.Nodes.{sure_found, tested};
ghost use Rattle.liquid_warnings.specs.Remarks.{remark_view};

use crate::literals::literal_value;
use crate::remark::Remark;
use liquid_core::Value;
use liquid_evaluation::Atom;
use liquid_syntax::{Node, Position};
use std::alloc::{AllocError, Global};

/// `AlwaysTrue`: a condition has a literal text or number by itself.
pub(crate) fn always_true(
    alloc: Global,
    node: &Node,
    position: Position,
) -> Result<Option<Remark>, AllocError>
    ensures { IfOk result (λ r. option_map remark_view r ≡ sure_said position node.now) }
{
    if !is_sure_node(node) {
        return Ok(None);
    }
    let message = String::from_str(
        alloc,
        "a text or a number by itself counts as true: compare with each, as `a == 1 or a == 2`",
    )?;
    Ok(Some(Remark::warning(position, "AlwaysTrue", message)))
}

fn is_sure_node(node: &Node) -> bool
    ensures { result ≡ sure_found (tested node.now) }
{
    match node {
        Node::If(condition, _) | Node::Unless(condition, _) => is_sure(&condition.conjunctions),
        _ => false,
    }
}

fn is_sure(conjunctions: &[Vec<Atom>]) -> bool
    ensures { result ≡ list_any has_sure_atom conjunctions.now }
{
    for atoms in conjunctions {
        if has_sure_atom(atoms) {
            return true;
        }
    }
    false
}

fn has_sure_atom(atoms: &[Atom]) -> bool
    ensures { result ≡ list_any is_sure_atom atoms.now }
{
    for atom in atoms {
        if is_sure_atom(atom) {
            return true;
        }
    }
    false
}

fn is_sure_atom(atom: &Atom) -> bool
    ensures { result ≡ is_sure_atom atom.now }
{
    match atom {
        Atom::Bare(expression) => is_sure_value(literal_value(expression)),
        Atom::Compared(_, _, _) => false,
    }
}

fn is_sure_value(value: Option<&Value>) -> bool
    ensures { result ≡ is_sure_value (option_map (λ v. view v.now) value.entry) }
{
    matches!(value, Some(Value::Text(_) | Value::Integer(_)))
}
