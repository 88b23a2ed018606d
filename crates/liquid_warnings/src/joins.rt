//! Conditions that Liquid for Ruby groups otherwise.
ghost use Rattle.std.specs.Prelude.{◌≡◌, IfOk, None, option_map, string_bytes};
ghost use Rattle.liquid_warnings.specs.Joins.{groups_otherwise, is_joined, join_message};
ghost use Rattle.liquid_warnings.specs.Joins.{join_said, joined_before};
ghost use Rattle.liquid_warnings.specs.Nodes.{tested};
ghost use Rattle.liquid_warnings.specs.Remarks.{remark_view};

use crate::remark::Remark;
use crate::written_for::WrittenFor;
use liquid_evaluation::Atom;
use liquid_syntax::{Node, Position};
use std::alloc::{AllocError, Global};

/// `AndOr`: an `or` follows an `and`, in a template for an engine of Ruby's, where it binds first.
pub(crate) fn join_warning(
    alloc: Global,
    written_for: WrittenFor,
    node: &Node,
    position: Position,
) -> Result<Option<Remark>, AllocError>
    ensures { IfOk result (λ r. option_map remark_view r ≡ join_said written_for position
        node.now) }
{
    if !written_for.is_for_ruby() || !groups_otherwise(node) {
        return Ok(None);
    }
    let message = join_message(alloc)?;
    Ok(Some(Remark::warning(position, "AndOr", message)))
}

fn join_message(alloc: Global) -> Result<String, AllocError>
    ensures { IfOk result (λ message. string_bytes message ≡ join_message) }
{
    String::from_str(
        alloc,
        "here `and` binds before `or`, as `(a and b) or c`, in Ruby `a and (b or c)`; use two \
        `if`s",
    )
}

fn groups_otherwise(node: &Node) -> bool
    ensures { result ≡ groups_otherwise (tested node.now) }
{
    match node {
        Node::If(condition, _) | Node::Unless(condition, _) => {
            joined_before(&condition.conjunctions)
        }
        _ => false,
    }
}

/// Whether some of these stand before others and have an `and`.
fn joined_before(conjunctions: &[Vec<Atom>]) -> bool
    ensures { result ≡ joined_before None conjunctions.now }
{
    let mut before: Option<&Vec<Atom>> = None;
    for atoms in conjunctions {
        if is_joined(before) {
            return true;
        }
        before = Some(atoms);
    }
    false
}

fn is_joined(before: Option<&Vec<Atom>>) -> bool
    ensures { result ≡ is_joined (option_map (λ a. a.now) before.entry) }
{
    match before {
        Some(atoms) => atoms.len() > 1,
        None => false,
    }
}
