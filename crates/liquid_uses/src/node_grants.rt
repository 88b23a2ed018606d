//! Whether the uses of names grant what the nodes of a list ask for.
ghost use Rattle.std.specs.Prelude.{◌≡◌, ◌&&◌, true, map, string_bytes};
ghost use Rattle.liquid_core.specs.ExpressionView.{expression_view};
ghost use Rattle.liquid_syntax.specs.Flats.{arm_values, bindings_view, each_view};
ghost use Rattle.liquid_model.specs.Uses.{asks_whether, there};
ghost use Rattle.liquid_model.specs.UseViews.{uses_view};
ghost use Rattle.liquid_meaning.specs.Reading.{grants, is_flat};
ghost use Rattle.liquid_uses.specs.inside.OwnGrants.{arms_granted, each_grants, for_grants};
ghost use Rattle.liquid_uses.specs.inside.OwnGrants.{list_grants, own_grants, pairs_grants};
ghost use Rattle.liquid_uses.specs.inside.OwnGrants.{row_grants};

use crate::comparisons::arms_granted;
use crate::grants::{
    all_whole, assigned, bindings_granted, bindings_whole, condition_granted, filters_granted,
    grants_output, grants_whole_value, optional_whole, present, source_granted, window_granted,
};
use crate::windows::seen_limit;
use liquid_core::{Expression, Use, Uses, member_of};
use liquid_syntax::{Arm, Binding, Each, For, Node, TableRow};

/// The nodes of a list, in all depths.
pub(crate) fn nodes_granted(uses: &Uses, nodes: &[Node]) -> bool
    ensures { result ≡ true → list_grants (uses_view uses.now) nodes.now ≡ true }
{
    for node in nodes {
        if !node_granted(uses, node) {
            return false;
        }
    }
    true
}

/// A node itself, and not its bodies, which follow it in the list.
#[tactic(auto, unfolding(liquid_meaning::specs::Reading::grants_node))]
fn node_granted(uses: &Uses, node: &Node) -> bool
    ensures { result ≡ true → own_grants (uses_view uses.now) node.now ≡ true }
{
    match node {
        Node::Text(_) | Node::Raw(_) | Node::Comment => true,
        Node::Break | Node::Continue | Node::IfChanged(_) | Node::Capture(_, _) => true,
        Node::Filtered(filters, _) => filters_granted(uses, filters),
        Node::Output(chain) => grants_output(uses, chain),
        Node::Assign(name, chain) => assigned(uses, name.as_str(), chain),
        Node::If(condition, _) => condition_granted(uses, condition),
        Node::Unless(condition, _) => condition_granted(uses, condition),
        Node::Case(target, arms, _) => case_granted(uses, target, arms),
        Node::For(head, _) => for_granted(uses, head),
        Node::TableRow(head, _) => row_granted(uses, head),
        Node::Increment(name) => is_asked(uses, name.as_str()),
        Node::Decrement(name) => is_asked(uses, name.as_str()),
        Node::Cycle(_, values) => all_whole(uses, values),
        Node::Include(name, pairs) => pairs_granted(uses, name, pairs),
        Node::JekyllInclude(_, pairs) => bindings_whole(uses, pairs),
        Node::Render(name, pairs) => pairs_granted(uses, name, pairs),
        Node::RenderEach(name, each, pairs) => each_granted(uses, name, each, pairs),
    }
}

/// The target of a `case`, and the values of its `when` parts.
fn case_granted(uses: &Uses, target: &Expression, arms: &[Arm]) -> bool
    ensures { result ≡ true → (grants (uses_view uses.now) (expression_view target.now) there
        && arms_granted (uses_view uses.now) (expression_view target.now) (arm_values arms.now)) ≡
        true }
{
    present(uses, target) && arms_granted(uses, target, arms)
}

/// Whether it is asked if there is a value of that name.
fn is_asked(uses: &Uses, name: &str) -> bool
    ensures { result ≡ asks_whether (uses_view uses.now name.now) }
{
    match member_of(uses, name) {
        Some(asked) => !matches!(asked, Use::Nothing),
        None => false,
    }
}

/// Whether what is asked of the value of that name is everything or nothing.
fn is_whole_or_unasked(uses: &Uses, name: &str) -> bool
    ensures { result ≡ is_flat (uses_view uses.now name.now) }
{
    match member_of(uses, name) {
        Some(asked) => !matches!(
            asked,
            Use::Parts {
                members: _,
                items: _
            }
        ),
        None => true,
    }
}

fn for_granted(uses: &Uses, head: &For) -> bool
    ensures { result ≡ true → for_grants (uses_view uses.now) head.now ≡ true }
{
    is_whole_or_unasked(uses, "forloop")
        && source_granted(
            uses,
            head.variable.as_str(),
            seen_limit(&head.window),
            &head.source,
        )
        && window_granted(uses, &head.window)
}

fn row_granted(uses: &Uses, head: &TableRow) -> bool
    ensures { result ≡ true → row_grants (uses_view uses.now) head.now ≡ true }
{
    source_granted(
        uses,
        head.variable.as_str(),
        seen_limit(&head.window),
        &head.source,
    ) && optional_whole(uses, &head.cols)
        && window_granted(uses, &head.window)
}

/// The name of a partial, and pairs.
fn pairs_granted(uses: &Uses, name: &Expression, pairs: &[Binding]) -> bool
    ensures { result ≡ true → pairs_grants (uses_view uses.now) (expression_view name.now)
        (bindings_view pairs.now) ≡ true }
{
    grants_whole_value(uses, name) && bindings_granted(uses, pairs)
}

/// The name of a partial, the `for` of a `render`, and pairs.
fn each_granted(uses: &Uses, name: &Expression, each: &Each, pairs: &[Binding]) -> bool
    ensures { result ≡ true → each_grants (uses_view uses.now) (expression_view name.now)
        (each_view each.now) (bindings_view pairs.now) ≡ true }
{
    grants_whole_value(uses, name)
        && source_granted(uses, each.variable.as_str(), None, &each.source)
        && bindings_granted(uses, pairs)
}
