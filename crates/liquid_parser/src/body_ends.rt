//! What is written into the nodes of blocks as their bodies end, and the further `when` parts of a
//! `case`.

ghost use Rattle.std.specs.Prelude.{◌≡◌, ◌<◌, ℕ, [], ◌∷◌, ◌++◌, length, map, OnOk};
ghost use Rattle.liquid_parser.specs.inside.Building.{BodyEnded, IsAdded, IsMemory};
ghost use Rattle.liquid_parser.specs.inside.Building.{before_last_ended, last_ended};
ghost use Rattle.liquid_parser.specs.inside.Building.{set_before_last};
ghost use Rattle.liquid_syntax.specs.Flats.{arm_ends, arm_values, flat_of, flats};
ghost use Rattle.liquid_core.specs.ExpressionView.{expression_view};

use crate::build::{Open, Stage};
use liquid_core::Expression;
use liquid_lexer::ParseError;
use liquid_syntax::{Arm, Node};

/// Ends the body that is being read, where another may follow it: writes where it ends, or drops
/// the head of a `case`.
pub(crate) fn end_body(nodes: &mut Vec<Node>, block: Open)
    requires { block.node_index < length nodes.old.items }
    ensures ended { BodyEnded block.stage block.node_index (flats nodes.old.items)
        (flats nodes.new.items) }
    ensures inside { block.node_index < length nodes.new.items }
{
    let end = nodes.len();
    match block.stage {
        Stage::First => end_before_last(&mut nodes[block.node_index], end),
        Stage::Last => {}
        Stage::CaseHead => nodes.truncate(block.node_index + 1),
        Stage::WhenBody => end_before_last(&mut nodes[block.node_index], end),
    }
}

/// Writes where the body before the last ends.
pub(crate) fn end_before_last(node: &mut Node, end: usize)
    ensures { flat_of node.new ≡ before_last_ended end (flat_of node.old) }
{
    match node {
        Node::If(_, bodies) => bodies.first_end = end,
        Node::Unless(_, bodies) => bodies.first_end = end,
        Node::Case(_, arms, _) => end_last_arm(arms, end),
        Node::For(_, bodies) => bodies.first_end = end,
        Node::Capture(..) | Node::IfChanged(_) | Node::Filtered(..) | Node::TableRow(..) => {}
        Node::Text(_) | Node::Output(_) | Node::Assign(..) | Node::Raw(_) | Node::Comment => {}
        Node::Break | Node::Continue | Node::Increment(_) | Node::Decrement(_) => {}
        Node::Cycle(..) => {}
        Node::Include(..) | Node::JekyllInclude(..) => {}
        Node::Render(..) | Node::RenderEach(..) => {}
    }
}

/// Writes where the body of the last `when` ends, if there is one.
fn end_last_arm(arms: &mut Vec<Arm>, end: usize)
    ensures values { arm_values arms.new.items ≡ arm_values arms.old.items }
    ensures ends { (z : ℕ) → arm_ends arms.new.items ++ z ∷ [] ≡
        set_before_last end (arm_ends arms.old.items ++ z ∷ []) }
{
    if let Some(arm) = arms.last_mut() {
        arm.end = end;
    }
}

/// Writes where the last body ends.
pub(crate) fn end_last(node: &mut Node, end: usize)
    ensures { flat_of node.new ≡ last_ended end (flat_of node.old) }
{
    match node {
        Node::If(_, bodies) => bodies.last_end = end,
        Node::Unless(_, bodies) => bodies.last_end = end,
        Node::Case(_, _, last_end) => *last_end = end,
        Node::For(_, bodies) => bodies.last_end = end,
        Node::TableRow(_, body_end) => *body_end = end,
        Node::Capture(_, body_end) => *body_end = end,
        Node::IfChanged(body_end) => *body_end = end,
        Node::Filtered(_, body_end) => *body_end = end,
        Node::Text(_) | Node::Output(_) | Node::Assign(..) | Node::Raw(_) | Node::Comment => {}
        Node::Break | Node::Continue | Node::Increment(_) | Node::Decrement(_) => {}
        Node::Cycle(..) => {}
        Node::Include(..) | Node::JekyllInclude(..) => {}
        Node::Render(..) | Node::RenderEach(..) => {}
    }
}

/// Adds a further `when` to a `case`. Where its body ends isn't known yet.
pub(crate) fn add_arm(node: &mut Node, values: Vec<Expression>) -> Result<(), ParseError>
    ensures added { OnOk result (IsAdded (map expression_view values.items) (flat_of node.old)
        (flat_of node.new)) }
    ensures fails { IsMemory result }
{
    match node {
        Node::Case(_, arms, _) => {
            arms.push(Arm { values, end: 0 })?;
            Ok(())
        }
        _ => Ok(()),
    }
}
