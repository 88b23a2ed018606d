//! Where nodes end.
ghost use Rattle.std.specs.Prelude.{◌≡◌, ℕ};
ghost use Rattle.liquid_syntax.specs.Flats.{NodeAt, IsNode};
ghost use Rattle.liquid_evaluation.specs.Tree as tree;

use liquid_syntax::Node;

/// The index one past the last descendant of a node.
pub(crate) fn next_after(nodes: &[Node], at: usize, to: usize) -> usize
    requires { IsNode nodes.now at to }
    ensures { (n : tree.Node) (next : ℕ) → NodeAt nodes.now at n next → result ≡ next }
{
    match &nodes[at] {
        Node::Text(_)
        | Node::Output(_)
        | Node::Assign(_, _)
        | Node::Raw(_)
        | Node::Comment
        | Node::Break
        | Node::Continue
        | Node::Increment(_)
        | Node::Decrement(_)
        | Node::Cycle(_, _)
        | Node::Include(_, _)
        | Node::JekyllInclude(_, _)
        | Node::Render(_, _)
        | Node::RenderEach(_, _, _) => at + 1,
        Node::If(_, bodies) => bodies.last_end,
        Node::Unless(_, bodies) => bodies.last_end,
        Node::Capture(_, end) => *end,
        Node::IfChanged(end) => *end,
        Node::Filtered(_, end) => *end,
        Node::Case(_, _, end) => *end,
        Node::For(_, bodies) => bodies.last_end,
        Node::TableRow(_, end) => *end,
    }
}
