//! Loops over what is no list.
ghost use Rattle.std.specs.Prelude.{◌≡◌, IfOk, codes, option_map, string_bytes};
ghost use Rattle.liquid_model.specs.View.{view};
ghost use Rattle.liquid_warnings.specs.Messages.{kind_word, value_message};
ghost use Rattle.liquid_warnings.specs.Nodes.{looped, no_list, source_literal, unlisted};
ghost use Rattle.liquid_warnings.specs.Remarks.{remark_view, warning};

use crate::literals::literal_value;
use crate::remark::Remark;
use liquid_core::Value;
use liquid_evaluation::RangeExpression;
use liquid_syntax::{Node, Position};
use std::alloc::{AllocError, Global};

/// `NoList`: a `for` or a `tablerow` goes over a literal that is no list and no map.
pub(crate) fn no_list(
    alloc: Global,
    node: &Node,
    position: Position,
) -> Result<Option<Remark>, AllocError>
    ensures { IfOk result (λ r. option_map remark_view r ≡ no_list position node.now) }
{
    let Some(source) = looped(node) else {
        return Ok(None);
    };
    match source_literal(source) {
        Some(value) => unlisted(alloc, position, value),
        None => Ok(None),
    }
}

/// What a loop goes over.
pub(crate) fn looped(node: &Node) -> Option<&RangeExpression>
    ensures { option_map (λ s. s.now) result ≡ looped node.now }
{
    match node {
        Node::For(head, _) => Some(&head.source),
        Node::TableRow(head, _) => Some(&head.source),
        _ => None,
    }
}

fn source_literal(source: &RangeExpression) -> Option<&Value>
    ensures { option_map (λ v. view v.now) result ≡ source_literal source.now }
{
    match source {
        RangeExpression::Array(expression) => literal_value(expression),
        RangeExpression::Counted(_, _) => None,
    }
}

/// The warning about a literal, unless it is nil.
fn unlisted(alloc: Global, position: Position, value: &Value) -> Result<Option<Remark>, AllocError>
    ensures { IfOk result (λ r. option_map remark_view r ≡ unlisted position (view value.now)) }
{
    match value {
        Value::Nil => Ok(None),
        value => Ok(Some(no_list_of(alloc, position, value, "this")?)),
    }
}

/// The warning about a value that a loop goes over, which these words name.
pub(crate) fn no_list_of(
    alloc: Global,
    position: Position,
    value: &Value,
    path: &str,
) -> Result<Remark, AllocError>
    ensures { IfOk result (λ r. remark_view r ≡ warning position (codes "NoList")
        (value_message path.now (kind_word (view value.now)))) }
{
    let message = value_message(alloc, path, kind_word(value))?;
    Ok(Remark::warning(position, "NoList", message))
}

pub(crate) fn kind_word(value: &Value) -> &'static str
    ensures { result.now ≡ kind_word (view value.now) }
{
    match value {
        Value::Text(_) => "a text",
        Value::Integer(_) => "a number",
        Value::Array(_) => "a list",
        Value::Object(_) => "a map",
        Value::Nil | Value::Bool(_) => "a truth value",
    }
}

fn value_message(alloc: Global, path: &str, kind: &str) -> Result<String, AllocError>
    ensures { IfOk result (λ message. string_bytes message ≡ value_message path.now kind.now) }
{
    format!(in alloc; "{path} is {kind}, and a loop goes over a list or a map")
}
