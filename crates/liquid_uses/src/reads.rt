//! The names that a node itself reads, given to a visitor.
ghost use Rattle.std.specs.Prelude.{◌++◌, ◌∷◌, codes};
ghost use Rattle.liquid_evaluation.specs.Names.{bound_names, source_names, window_names};
ghost use Rattle.liquid_evaluation.specs.SourceView.{source_view};
ghost use Rattle.liquid_syntax.specs.Flats.{bindings_view, each_view, window_view};
ghost use Rattle.liquid_uses.specs.inside.Scopes.{read_names};

use liquid_evaluation::{
    NameVisitor, visit_chain, visit_condition, visit_expression, visit_expressions, visit_filters,
    visit_source,
};
use liquid_syntax::{
    Binding, Each, For, Node, visit_arms, visit_layout, visit_values, visit_window,
};

/// The names in what a node evaluates, and not those of its bodies. The answer is whether the
/// visitor ended the visit.
pub(crate) fn visit_reads<V: NameVisitor>(node: &Node, visitor: &mut V) -> bool
    ensures { V.tells visitor.old (read_names node.now) result visitor.new }
{
    match node {
        Node::Text(_) | Node::Raw(_) | Node::Comment | Node::Capture(_, _) => false,
        Node::Break | Node::Continue | Node::IfChanged(_) => false,
        Node::Increment(_) | Node::Decrement(_) => false,
        Node::Filtered(filters, _) => visit_filters(filters, visitor),
        Node::Output(chain) => visit_chain(chain, visitor),
        Node::Assign(_, chain) => visit_chain(chain, visitor),
        Node::If(condition, _) => visit_condition(condition, visitor),
        Node::Unless(condition, _) => visit_condition(condition, visitor),
        Node::Case(target, arms, _) => {
            visit_expression(target, visitor) || visit_arms(arms, visitor)
        }
        Node::For(head, _) => visit_for(head, visitor),
        Node::TableRow(head, _) => {
            visit_source(&head.source, visitor) || visit_layout(head, visitor)
        }
        Node::Cycle(_, values) => visit_expressions(values, visitor),
        Node::Include(name, pairs) => {
            visit_expression(name, visitor) || visit_values(pairs, visitor)
        }
        Node::JekyllInclude(_, pairs) => visit_values(pairs, visitor),
        Node::Render(name, pairs) => {
            visit_expression(name, visitor) || visit_values(pairs, visitor)
        }
        Node::RenderEach(name, each, pairs) => {
            visit_expression(name, visitor) || visit_each(each, pairs, visitor)
        }
    }
}

/// What `forloop` is before a `for`, and the names that it reads.
fn visit_for<V: NameVisitor>(head: &For, visitor: &mut V) -> bool
    ensures { V.tells visitor.old (codes "forloop" ∷ (source_names (source_view head.now.source) ++
        window_names (window_view head.now.window))) result visitor.new }
{
    visitor.visit("forloop") || visit_head(head, visitor)
}

/// The names in the source of a `for`, and of the items that are asked for.
fn visit_head<V: NameVisitor>(head: &For, visitor: &mut V) -> bool
    ensures { V.tells visitor.old (source_names (source_view head.now.source) ++
        window_names (window_view head.now.window)) result visitor.new }
{
    visit_source(&head.source, visitor) || visit_window(&head.window, visitor)
}

/// The names in what a `render` goes over, and in the values of its pairs.
fn visit_each<V: NameVisitor>(each: &Each, pairs: &[Binding], visitor: &mut V) -> bool
    ensures { V.tells visitor.old (source_names (each_view each.now).0 ++
        bound_names (bindings_view pairs.now)) result visitor.new }
{
    visit_source(&each.source, visitor) || visit_values(pairs, visitor)
}
