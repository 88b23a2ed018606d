//! Expressions that are read otherwise than they look: parts that the object of a loop hasn't, and
//! texts that end with a `\n` of another language.
ghost use Rattle.std.specs.Prelude.{◌≡◌, IfOk, option_map, string_bytes};
ghost use Rattle.liquid_core.specs.ExpressionView.{expression_view};
ghost use Rattle.liquid_warnings.specs.LoopParts.{lacking_part};
ghost use Rattle.liquid_warnings.specs.Remarks.{remark_view};
ghost use Rattle.liquid_warnings.specs.Slips.{atom_slip, atoms_slip, chain_slip};
ghost use Rattle.liquid_warnings.specs.Slips.{conjunctions_slip, ends_with_sign, filters_slip};
ghost use Rattle.liquid_warnings.specs.Slips.{first_slip, is_sign_letter, is_sign_text, is_slip};
ghost use Rattle.liquid_warnings.specs.Slips.{node_slip, own_slip, part_said, sign_message};
ghost use Rattle.liquid_warnings.specs.Slips.{slip_said};

use crate::literals::literal_text;
use crate::loop_parts::{lacking_part, part_message};
use crate::remark::Remark;
use liquid_core::Expression;
use liquid_evaluation::{Atom, ChainFilter, FilterChain};
use liquid_syntax::{Node, Position};
use std::alloc::{AllocError, Global};

/// `UnknownPart` or `NoEscape`, of the first expression of a node that is read otherwise than it
/// looks.
pub(crate) fn slip_warning(
    alloc: Global,
    node: &Node,
    position: Position,
) -> Result<Option<Remark>, AllocError>
    ensures { IfOk result (λ r. option_map remark_view r ≡ slip_said position node.now) }
{
    match node_slip(node) {
        Some(expression) => Ok(Some(slip_of(alloc, position, expression)?)),
        None => Ok(None),
    }
}

fn slip_of(alloc: Global, position: Position, expression: &Expression) -> Result<Remark, AllocError>
    ensures { IfOk result (λ r. remark_view r
        ≡ part_said position (lacking_part (expression_view expression.now))) }
{
    match lacking_part(expression) {
        Some((object, part)) => {
            let message = part_message(alloc, object, part)?;
            Ok(Remark::warning(position, "UnknownPart", message))
        }
        None => {
            let message = sign_message(alloc)?;
            Ok(Remark::warning(position, "NoEscape", message))
        }
    }
}

fn sign_message(alloc: Global) -> Result<String, AllocError>
    ensures { IfOk result (λ message. string_bytes message ≡ sign_message) }
{
    String::from_str(
        alloc,
        "a `\\` escapes nothing in a text; for a line end write the line end itself between the \
        quotes",
    )
}

/// The first such expression of an output, an `assign`, a condition or a `case`.
fn node_slip(node: &Node) -> Option<&Expression>
    ensures { option_map (λ x. x.now) result ≡ node_slip node.now }
{
    match node {
        Node::Output(chain) | Node::Assign(_, chain) => chain_slip(chain),
        Node::If(condition, _) | Node::Unless(condition, _) => {
            conjunctions_slip(&condition.conjunctions)
        }
        Node::Case(target, _, _) => own_slip(target),
        _ => None,
    }
}

fn chain_slip(chain: &FilterChain) -> Option<&Expression>
    ensures { option_map (λ x. x.now) result ≡ chain_slip chain.now }
{
    match own_slip(&chain.entry) {
        Some(expression) => Some(expression),
        None => filters_slip(&chain.filters),
    }
}

fn filters_slip(filters: &[ChainFilter]) -> Option<&Expression>
    ensures { option_map (λ x. x.now) result ≡ filters_slip filters.now }
{
    for filter in filters {
        if let Some(expression) = first_slip(&filter.arguments) {
            return Some(expression);
        }
    }
    None
}

fn first_slip(expressions: &[Expression]) -> Option<&Expression>
    ensures { option_map (λ x. x.now) result ≡ first_slip expressions.now }
{
    for expression in expressions {
        if let Some(found) = own_slip(expression) {
            return Some(found);
        }
    }
    None
}

fn conjunctions_slip(conjunctions: &[Vec<Atom>]) -> Option<&Expression>
    ensures { option_map (λ x. x.now) result ≡ conjunctions_slip conjunctions.now }
{
    for atoms in conjunctions {
        if let Some(expression) = atoms_slip(atoms) {
            return Some(expression);
        }
    }
    None
}

fn atoms_slip(atoms: &[Atom]) -> Option<&Expression>
    ensures { option_map (λ x. x.now) result ≡ atoms_slip atoms.now }
{
    for atom in atoms {
        if let Some(expression) = atom_slip(atom) {
            return Some(expression);
        }
    }
    None
}

fn atom_slip(atom: &Atom) -> Option<&Expression>
    ensures { option_map (λ x. x.now) result ≡ atom_slip atom.now }
{
    match atom {
        Atom::Bare(expression) => own_slip(expression),
        Atom::Compared(left, _, right) => match own_slip(left) {
            Some(expression) => Some(expression),
            None => own_slip(right),
        },
    }
}

/// The expression, if it is read otherwise than it looks.
fn own_slip(expression: &Expression) -> Option<&Expression>
    ensures { option_map (λ x. x.now) result ≡ own_slip expression.now }
{
    if is_slip(expression) {
        Some(expression)
    } else {
        None
    }
}

fn is_slip(expression: &Expression) -> bool
    ensures { result ≡ is_slip expression.now }
{
    lacking_part(expression).is_some() || is_sign_text(literal_text(expression))
}

fn is_sign_text(text: Option<&str>) -> bool
    ensures { result ≡ is_sign_text (option_map (λ t. t.now) text.entry) }
{
    match text {
        Some(text) => ends_with_sign(text.as_bytes()),
        None => false,
    }
}

/// Whether a text ends with `\n`, `\r` or `\t`, which are two characters each.
fn ends_with_sign(text: &[u8]) -> bool
    ensures { result ≡ ends_with_sign text.now }
{
    let len = text.len();
    len > 1 && (text[len - 2] == b'\\' && is_sign_letter(text[len - 1]))
}

fn is_sign_letter(byte: u8) -> bool
    ensures { result ≡ is_sign_letter byte }
{
    matches!(byte, b'n' | b'r' | b't')
}
