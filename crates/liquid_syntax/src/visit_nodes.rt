//! The names that nodes mention, given to a visitor. Each function answers whether the visitor
//! ended the visit.
ghost use Rattle.std.specs.Prelude.{◌∷◌, ◌++◌, option_map, string_bytes};
ghost use Rattle.liquid_core.specs.ExpressionView.{expression_view};
ghost use Rattle.liquid_syntax.specs.Flats.{arm_values, bindings_view, window_view};
ghost use Rattle.liquid_syntax.specs.inside.Mentions.{arms_names, each_names, for_names};
ghost use Rattle.liquid_syntax.specs.inside.Mentions.{head_names, jekyll_names, list_names};
ghost use Rattle.liquid_syntax.specs.inside.Mentions.{own_names, pairs_names, row_names};
ghost use Rattle.liquid_evaluation.specs.ChainView.{chain_view};
ghost use Rattle.liquid_evaluation.specs.Names.{bound_names, chain_names, expression_names};
ghost use Rattle.liquid_evaluation.specs.Names.{include_name};
ghost use Rattle.liquid_evaluation.specs.Names.{optional_names, source_names, target_names};
ghost use Rattle.liquid_evaluation.specs.Names.{window_names};
ghost use Rattle.liquid_evaluation.specs.SourceView.{source_view};

use crate::loop_nodes::{Each, For, TableRow, WindowExpression};
use crate::node::{Arm, Binding, Node};
use liquid_core::Expression;
use liquid_evaluation::{
    FilterChain, NameVisitor, RangeExpression, visit_chain, visit_condition, visit_expression,
    visit_expressions, visit_filters, visit_optional, visit_source,
};

/// The names of the nodes of a list.
pub fn visit_nodes<V: NameVisitor>(nodes: &[Node], visitor: &mut V) -> bool
    ensures { V.tells visitor.old (list_names nodes.now) result visitor.new }
{
    for node in nodes {
        if visit_node(node, visitor) {
            return true;
        }
    }
    false
}

/// The names of a node itself, and not of its bodies, which follow it in the list.
#[tactic(auto, unfolding(liquid_evaluation::specs::Names::node_names, crate::specs::inside::Mentions::head_names))]
fn visit_node<V: NameVisitor>(node: &Node, visitor: &mut V) -> bool
    ensures { V.tells visitor.old (own_names node.now) result visitor.new }
{
    match node {
        Node::Text(_) | Node::Raw(_) | Node::Comment => false,
        Node::Break | Node::Continue | Node::IfChanged(_) => false,
        Node::Output(chain) => visit_chain(chain, visitor),
        Node::Filtered(filters, _) => visit_filters(filters, visitor),
        Node::Assign(name, chain) => visit_assign(name, chain, visitor),
        Node::If(condition, _) => visit_condition(condition, visitor),
        Node::Unless(condition, _) => visit_condition(condition, visitor),
        Node::Case(target, arms, _) => visit_case(target, arms, visitor),
        Node::For(head, _) => visit_for(head, visitor),
        Node::TableRow(head, _) => visit_table_row(head, visitor),
        Node::Capture(name, _) => visitor.visit(name.as_str()),
        Node::Increment(name) => visitor.visit(name.as_str()),
        Node::Decrement(name) => visitor.visit(name.as_str()),
        Node::Cycle(_, values) => visit_expressions(values, visitor),
        Node::Include(name, pairs) => {
            visit_expression(name, visitor) || visit_pairs(pairs, visitor)
        }
        Node::JekyllInclude(_, pairs) => visit_jekyll_pairs(pairs, visitor),
        Node::Render(name, pairs) => {
            visit_expression(name, visitor) || visit_pairs(pairs, visitor)
        }
        Node::RenderEach(name, each, pairs) => {
            visit_expression(name, visitor) || visit_each(each, pairs, visitor)
        }
    }
}

/// The name that an `assign` sets, and those of its chain.
fn visit_assign<V: NameVisitor>(name: &String, chain: &FilterChain, visitor: &mut V) -> bool
    ensures { V.tells visitor.old (string_bytes name.now ∷ chain_names (chain_view chain.now))
        result
        visitor.new }
{
    visitor.visit(name.as_str()) || visit_chain(chain, visitor)
}

/// The names in the target of a `case`, and in the values of its `when` parts.
fn visit_case<V: NameVisitor>(target: &Expression, arms: &[Arm], visitor: &mut V) -> bool
    ensures { V.tells visitor.old (expression_names (expression_view target.now) ++
        arms_names (arm_values arms.now)) result visitor.new }
{
    visit_expression(target, visitor) || visit_arms(arms, visitor)
}

/// The names in the values of the `when` parts of a `case`.
pub fn visit_arms<V: NameVisitor>(arms: &[Arm], visitor: &mut V) -> bool
    ensures { V.tells visitor.old (arms_names (arm_values arms.now)) result visitor.new }
{
    for arm in arms {
        if visit_expressions(&arm.values, visitor) {
            return true;
        }
    }
    false
}

/// The names of a `for`: `forloop`, those of its head, and those of the items that are asked for.
fn visit_for<V: NameVisitor>(head: &For, visitor: &mut V) -> bool
    ensures { V.tells visitor.old (for_names head.now) result visitor.new }
{
    visit_head("forloop", &head.variable, &head.source, visitor)
        || visit_window(&head.window, visitor)
}

/// The names of a `tablerow`: `tablerow`, those of its head, of its columns and of the items that
/// are asked for.
fn visit_table_row<V: NameVisitor>(head: &TableRow, visitor: &mut V) -> bool
    ensures { V.tells visitor.old (row_names head.now) result visitor.new }
{
    visit_head("tablerow", &head.variable, &head.source, visitor) || visit_layout(head, visitor)
}

/// The names in the number of columns, and of the items that are asked for.
pub fn visit_layout<V: NameVisitor>(head: &TableRow, visitor: &mut V) -> bool
    ensures { V.tells visitor.old (optional_names (option_map expression_view head.now.cols) ++
        window_names (window_view head.now.window)) result visitor.new }
{
    visit_optional(&head.cols, visitor) || visit_window(&head.window, visitor)
}

/// The names of the `for` of a `render`, and those of its pairs.
fn visit_each<V: NameVisitor>(each: &Each, pairs: &[Binding], visitor: &mut V) -> bool
    ensures { V.tells visitor.old (each_names each.now ++ pairs_names (bindings_view pairs.now))
        result
        visitor.new }
{
    visit_head("forloop", &each.variable, &each.source, visitor) || visit_pairs(pairs, visitor)
}

/// The name of what a loop shows of itself, its variable, and the names in its source.
fn visit_head<V: NameVisitor>(
    shown: &str,
    variable: &String,
    source: &RangeExpression,
    visitor: &mut V,
) -> bool
    ensures { V.tells visitor.old (head_names shown.now (string_bytes variable.now)
        (source_view source.now)) result visitor.new }
{
    visitor.visit(shown) || visit_variable(variable, source, visitor)
}

/// The variable of a loop, and the names in its source.
fn visit_variable<V: NameVisitor>(
    variable: &String,
    source: &RangeExpression,
    visitor: &mut V,
) -> bool
    ensures { V.tells visitor.old (string_bytes variable.now ∷
        source_names (source_view source.now))
        result visitor.new }
{
    visitor.visit(variable.as_str()) || visit_source(source, visitor)
}

/// The names of what says which items are asked for.
#[tactic(auto, unfolding(liquid_evaluation::specs::Names::window_names))]
pub fn visit_window<V: NameVisitor>(window: &WindowExpression, visitor: &mut V) -> bool
    ensures { V.tells visitor.old (window_names (window_view window.now)) result visitor.new }
{
    visit_optional(&window.limit, visitor) || visit_optional(&window.offset, visitor)
}

/// The names that pairs bind, and those in their values.
fn visit_pairs<V: NameVisitor>(pairs: &[Binding], visitor: &mut V) -> bool
    ensures { V.tells visitor.old (pairs_names (bindings_view pairs.now)) result visitor.new }
{
    visit_targets(pairs, visitor) || visit_values(pairs, visitor)
}

/// The name under which a jekyll `include` binds its pairs, and those in their values.
fn visit_jekyll_pairs<V: NameVisitor>(pairs: &[Binding], visitor: &mut V) -> bool
    ensures { V.tells visitor.old (jekyll_names (bindings_view pairs.now)) result visitor.new }
{
    visit_include_name(pairs, visitor) || visit_values(pairs, visitor)
}

/// The one name under which a jekyll `include` binds its pairs, if it has any.
pub(crate) fn visit_include_name<V: NameVisitor>(pairs: &[Binding], visitor: &mut V) -> bool
    ensures { V.tells visitor.old (include_name (bindings_view pairs.now)) result visitor.new }
{
    if pairs.is_empty() {
        return false;
    }
    visitor.visit("include")
}

/// The names that pairs bind.
pub(crate) fn visit_targets<V: NameVisitor>(pairs: &[Binding], visitor: &mut V) -> bool
    ensures { V.tells visitor.old (target_names (bindings_view pairs.now)) result visitor.new }
{
    for pair in pairs {
        if visitor.visit(pair.name.as_str()) {
            return true;
        }
    }
    false
}

/// The names in the values of pairs.
pub fn visit_values<V: NameVisitor>(pairs: &[Binding], visitor: &mut V) -> bool
    ensures { V.tells visitor.old (bound_names (bindings_view pairs.now)) result visitor.new }
{
    for pair in pairs {
        if visit_expression(&pair.value, visitor) {
            return true;
        }
    }
    false
}
