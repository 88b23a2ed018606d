//! Outputs that were meant as tags.
ghost use Rattle.std.specs.Prelude.{◌≡◌, IfOk, option_map, string_bytes};
ghost use Rattle.liquid_core.specs.ExpressionView.{expression_view, steps_view};
ghost use Rattle.liquid_warnings.specs.Remarks.{remark_view};
ghost use Rattle.liquid_warnings.specs.TagOutputs.{before_steps, is_tag_word, name_alone};
ghost use Rattle.liquid_warnings.specs.TagOutputs.{plain_name};
ghost use Rattle.liquid_warnings.specs.TagOutputs.{tag_message, tag_of, tag_said};

use crate::remark::Remark;
use liquid_core::Expression;
use liquid_syntax::{Node, Position};
use std::alloc::{AllocError, Global};

/// `TagAsOutput`: an output of a word of a tag, as `{{ else }}`.
pub(crate) fn tag_as_output(
    alloc: Global,
    node: &Node,
    position: Position,
) -> Result<Option<Remark>, AllocError>
    ensures { IfOk result (λ r. option_map remark_view r ≡ tag_said position node.now) }
{
    match name_alone(node) {
        Some(name) => tag_of(alloc, position, name),
        None => Ok(None),
    }
}

fn tag_of(alloc: Global, position: Position, name: &str) -> Result<Option<Remark>, AllocError>
    ensures { IfOk result (λ r. option_map remark_view r ≡ tag_of position name.now) }
{
    if !is_tag_word(name) {
        return Ok(None);
    }
    let message = tag_message(alloc, name)?;
    Ok(Some(Remark::warning(position, "TagAsOutput", message)))
}

fn tag_message(alloc: Global, name: &str) -> Result<String, AllocError>
    ensures { IfOk result (λ message. string_bytes message ≡ tag_message name.now) }
{
    format!(in alloc;
        "this output shows the value of a name `{name}`; the tag is written `{{% {name} %}}`"
    )
}

/// The name that an output shows as it is.
pub(crate) fn name_alone(node: &Node) -> Option<&str>
    ensures { option_map (λ n. n.now) result ≡ name_alone node.now }
{
    match node {
        Node::Output(chain) => {
            if chain.filters.is_empty() {
                plain_name(&chain.entry)
            } else {
                None
            }
        }
        _ => None,
    }
}

/// The name that an expression without steps is.
pub(crate) fn plain_name(expression: &Expression) -> Option<&str>
    ensures { option_map (λ n. n.now) result ≡ plain_name (expression_view expression.now) }
{
    match expression {
        Expression::Variable(variable) => before_steps(variable.name.as_str(), &variable.indexes),
        Expression::Literal(_) => None,
    }
}

fn before_steps<'t>(name: &'t str, steps: &[Expression]) -> Option<&'t str>
    ensures { option_map (λ n. n.now) result ≡ before_steps name.now (steps_view steps.now) }
{
    match steps {
        [] => Some(name),
        [_, ..] => None,
    }
}

fn is_tag_word(name: &str) -> bool
    ensures { result ≡ is_tag_word name.now }
{
    matches!(
        name,
        "else" | "elsif" | "endif" | "endfor" | "endunless" | "endcase" | "endcapture"
    )
}
