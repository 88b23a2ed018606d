//! Captured texts that an output escapes once more.
ghost use Rattle.std.specs.Prelude.{◌≡◌, All, IfOk, OnOk, string_bytes};
ghost use Rattle.liquid_warnings.specs.Messages.{escaped_twice_message};
ghost use Rattle.liquid_warnings.specs.Remarks.{remark_view};
ghost use Rattle.liquid_warnings.specs.Sorts.{IsEscapedTwice};
ghost use Rattle.liquid_warnings.specs.inside.Added.{AddsRemarks};

use crate::names::{Places, add_name, add_place};
use crate::remark::Remark;
use crate::warnings::is_full;
use liquid_core::{Expression, Quoted};
use liquid_syntax::{Node, Position, Template};
use std::alloc::{AllocError, Global};
use std::collections::{BTreeMap, BTreeSet};

/// The names of texts that were captured before an output that shows and escapes them, each with
/// the place of the first such output.
pub(crate) fn shown_escaped(alloc: Global, template: &Template) -> Result<Places, AllocError> {
    let mut captured = BTreeSet::new(alloc);
    let mut shown = BTreeMap::new(alloc);
    let mut is_escaped = false;
    for (node, position) in template.nodes().iter().zip(template.positions()) {
        if let Node::Capture(name, _) = node {
            add_name(alloc, &mut captured, name.as_str())?;
        }
        if let Some(name) = shown_name(node) {
            if is_escaped && captured.contains(name) {
                add_place(alloc, &mut shown, name, *position)?;
            }
        }
        is_escaped = is_escape(node);
    }
    Ok(shown)
}

/// Whether what a node has inside goes through `escape`.
fn is_escape(node: &Node) -> bool {
    match node {
        Node::Filtered(filters, _) => match filters.as_slice() {
            [only] => only.filter.name() == "escape",
            _ => false,
        },
        _ => false,
    }
}

/// The name whose value an output shows as it is.
fn shown_name(node: &Node) -> Option<&str> {
    let Node::Output(chain) = node else {
        return None;
    };
    match &chain.entry {
        Expression::Variable(variable) if variable.indexes.is_empty() && chain.filters.is_empty() =>
            { Some(variable.name.as_str()) }
        _ => None,
    }
}

/// Adds a warning for each of these names.
pub(crate) fn add_escaped_twice(
    alloc: Global,
    shown: &Places,
    remarks: &mut Vec<Remark>,
) -> Result<(), AllocError>
    ensures { OnOk result
        (AddsRemarks (All IsEscapedTwice) remarks.old.items remarks.new.items) }
{
    for (name, position) in shown {
        if is_full(remarks) {
            return Ok(());
        }
        remarks.push(escaped_twice(alloc, name.as_str(), *position)?)?;
    }
    Ok(())
}

/// `EscapedTwice`: an output escapes a captured text, whose own outputs are escaped already.
fn escaped_twice(alloc: Global, name: &str, position: Position) -> Result<Remark, AllocError>
    ensures { IfOk result (λ r. IsEscapedTwice (remark_view r)) }
{
    let message = escaped_twice_message(alloc, name)?;
    Ok(Remark::warning(position, "EscapedTwice", message))
}

fn escaped_twice_message(alloc: Global, name: &str) -> Result<String, AllocError>
    ensures { IfOk result (λ message. string_bytes message ≡ escaped_twice_message name.now) }
{
    let name = Quoted { text: name };
    format!(in alloc;
        "the outputs in the captured `{name}` are escaped already; end this one with `| raw`"
    )
}
