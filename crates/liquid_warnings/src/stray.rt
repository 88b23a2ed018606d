//! `break` and `continue` outside of loops.
ghost use Rattle.std.specs.Prelude.{◌≡◌, All, IfOk, OnOk, string_bytes};
ghost use Rattle.liquid_warnings.specs.Messages.{stray_message};
ghost use Rattle.liquid_warnings.specs.Remarks.{remark_view};
ghost use Rattle.liquid_warnings.specs.Sorts.{IsStray};
ghost use Rattle.liquid_warnings.specs.inside.Added.{AddsRemarks};

use crate::remark::Remark;
use crate::warnings::{CheckedFile, is_full};
use liquid_syntax::{Node, Position, Template};
use std::alloc::{AllocError, Global};

/// A tag that stands in no loop, by its name.
#[derive(Clone, Copy)]
struct Stray {
    name: &'static str,
    position: Position,
}

/// `StrayBreak`: a `break` or a `continue` stands in no loop of a template of its own. In a partial
/// it may be about a loop that runs the partial.
pub(crate) fn add_strays(
    alloc: Global,
    file: &CheckedFile<'_>,
    remarks: &mut Vec<Remark>,
) -> Result<(), AllocError>
    ensures { OnOk result (AddsRemarks (All IsStray) remarks.old.items remarks.new.items) }
{
    let strays = strays_of(alloc, file)?;
    for stray in &strays {
        if is_full(remarks) {
            return Ok(());
        }
        remarks.push(stray_break(alloc, *stray)?)?;
    }
    Ok(())
}

fn stray_break(alloc: Global, stray: Stray) -> Result<Remark, AllocError>
    ensures { IfOk result (λ r. IsStray (remark_view r)) }
{
    let message = stray_message(alloc, stray.name)?;
    Ok(Remark::warning(stray.position, "StrayBreak", message))
}

fn stray_message(alloc: Global, name: &str) -> Result<String, AllocError>
    ensures { IfOk result (λ message. string_bytes message ≡ stray_message name.now) }
{
    format!(in alloc; "this `{name}` stands in no loop, and ends the page here")
}

/// Those of a file that is a template of its own.
fn strays_of(alloc: Global, file: &CheckedFile<'_>) -> Result<Vec<Stray>, AllocError> {
    match file.template {
        Some(template) if file.is_page => strays_in(alloc, template),
        _ => Ok(Vec::new(alloc)),
    }
}

fn strays_in(alloc: Global, template: &Template) -> Result<Vec<Stray>, AllocError> {
    let mut strays = Vec::new(alloc);
    // where the bodies of the loops so far have ended
    let mut end = 0_usize;
    let nodes = template.nodes().iter().zip(template.positions());
    for (place, (node, position)) in nodes.enumerate() {
        if let Some(name) = interrupt(node) {
            if place >= end {
                let position = *position;
                strays.push(Stray { name, position })?;
            }
        }
        end = end.max(loop_end(node));
    }
    Ok(strays)
}

/// The name of a `break` or a `continue`.
fn interrupt(node: &Node) -> Option<&'static str> {
    match node {
        Node::Break => Some("break"),
        Node::Continue => Some("continue"),
        _ => None,
    }
}

/// Where the body of a loop ends.
fn loop_end(node: &Node) -> usize {
    match node {
        Node::For(_, ends) => ends.first_end,
        Node::TableRow(_, end) => *end,
        _ => 0,
    }
}
