//! What a place that runs a partial looks up.
ghost use Rattle.std.specs.Prelude.{◌≡◌};
ghost use Rattle.liquid_core.specs.ExpressionView.{expression_view};
ghost use Rattle.liquid_evaluation.specs.PartialCalls.{call_of_expression, of_name};
ghost use Rattle.liquid_evaluation.specs.PartialCalls.{of_name_or_liquid};
ghost use Rattle.liquid_syntax.specs.CallView.{partial_call_view, calls_view};
ghost use Rattle.liquid_syntax.specs.inside.Calls.{own_calls};

use crate::node::Node;
use liquid_core::{Expression, Value};

/// What a place that runs a partial looks up.
#[derive(Clone, Copy, Debug, PartialEq, Eq)]
pub enum PartialCall<'t> {
    /// A name that only its run knows: what stands there is no text.
    AnyName,
    /// This name.
    Name(&'t str),
    /// This name, and where no partial has it this name with `.liquid`.
    NameOrLiquid(&'t str),
}

/// What a node itself looks up, and not its bodies: none where it runs no partial. It takes no
/// memory.
#[tactic(auto, unfolding(liquid_evaluation::specs::PartialCalls::node_calls))]
pub fn partial_call(node: &Node) -> Option<PartialCall<'_>>
    ensures { calls_view result ≡ own_calls node.now }
{
    match node {
        Node::Include(name, _) => Some(included(name)),
        Node::JekyllInclude(name, _) => Some(PartialCall::Name(name.as_str())),
        Node::Render(name, _) => Some(rendered(name)),
        Node::RenderEach(name, _, _) => Some(rendered(name)),
        Node::Case(..) => None,
        _ => None,
    }
}

/// What an `include` looks up.
fn included(name: &Expression) -> PartialCall<'_>
    ensures { partial_call_view result ≡ call_of_expression of_name (expression_view name.now) }
{
    match name {
        Expression::Literal(Value::Text(text)) => PartialCall::Name(text.as_str()),
        _ => PartialCall::AnyName,
    }
}

/// What a `render` looks up.
fn rendered(name: &Expression) -> PartialCall<'_>
    ensures { partial_call_view result ≡
        call_of_expression of_name_or_liquid (expression_view name.now) }
{
    match name {
        Expression::Literal(Value::Text(text)) => PartialCall::NameOrLiquid(text.as_str()),
        _ => PartialCall::AnyName,
    }
}
