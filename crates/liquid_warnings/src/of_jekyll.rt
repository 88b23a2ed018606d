//! What is warned of in templates for Jekyll alone.
ghost use Rattle.std.specs.Prelude.{◌≡◌, IfOk, option_map, string_bytes};
ghost use Rattle.liquid_warnings.specs.Messages.{colours_message};
ghost use Rattle.liquid_warnings.specs.OfJekyll.{calls_highlight, is_highlight, jekyll_said};
ghost use Rattle.liquid_warnings.specs.OfJekyll.{no_colours};
ghost use Rattle.liquid_warnings.specs.Remarks.{remark_view};

use crate::modes::unknown_mode;
use crate::remark::Remark;
use crate::written_for::WrittenFor;
use liquid_evaluation::ChainFilter;
use liquid_syntax::{Node, Position};
use std::alloc::{AllocError, Global};

/// The warning of a node of a template for Jekyll, where it has one.
pub(crate) fn jekyll_warning(
    alloc: Global,
    written_for: WrittenFor,
    node: &Node,
    position: Position,
) -> Result<Option<Remark>, AllocError>
    ensures { IfOk result (λ r. option_map remark_view r ≡ jekyll_said written_for position
        node.now) }
{
    if !written_for.is_for_jekyll() {
        return Ok(None);
    }
    match unknown_mode(alloc, node, position)? {
        Some(remark) => Ok(Some(remark)),
        None => no_colours(alloc, node, position),
    }
}

/// `NoColours`: the code of Jekyll's block `highlight`.
fn no_colours(alloc: Global, node: &Node, position: Position) -> Result<Option<Remark>, AllocError>
    ensures { IfOk result (λ r. option_map remark_view r ≡ no_colours position node.now) }
{
    if !is_highlight(node) {
        return Ok(None);
    }
    let message = colours_message(alloc)?;
    Ok(Some(Remark::warning(position, "NoColours", message)))
}

fn colours_message(alloc: Global) -> Result<String, AllocError>
    ensures { IfOk result (λ message. string_bytes message ≡ colours_message) }
{
    String::from_str(
        alloc,
        "`highlight` writes code without colours, as Jekyll does with `highlighter: none`",
    )
}

/// Whether it is the block `highlight`.
fn is_highlight(node: &Node) -> bool
    ensures { result ≡ is_highlight node.now }
{
    match node {
        Node::Filtered(filters, _) => calls_highlight(filters),
        _ => false,
    }
}

fn calls_highlight(filters: &[ChainFilter]) -> bool
    ensures { result ≡ calls_highlight filters.now }
{
    match filters {
        [first, ..] => first.filter.name() == "highlight",
        [] => false,
    }
}
