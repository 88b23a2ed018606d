//! Modes of `slugify` that there aren't.
ghost use Rattle.std.specs.Prelude.{◌≡◌, IfOk, option_map, string_bytes};
ghost use Rattle.liquid_warnings.specs.Modes.{chain_mode, filter_mode, first_mode, first_text};
ghost use Rattle.liquid_warnings.specs.Modes.{is_mode, mode_message, mode_said, no_mode};
ghost use Rattle.liquid_warnings.specs.Modes.{unknown_mode};
ghost use Rattle.liquid_warnings.specs.Nodes.{printed_chain};
ghost use Rattle.liquid_warnings.specs.Remarks.{remark_view};

use crate::dates::printed_chain;
use crate::literals::literal_text;
use crate::remark::Remark;
use liquid_core::{Expression, Quoted};
use liquid_evaluation::{ChainFilter, FilterChain};
use liquid_syntax::{Node, Position};
use std::alloc::{AllocError, Global};

/// `UnknownMode`: `slugify` is given a mode that it hasn't.
pub(crate) fn unknown_mode(
    alloc: Global,
    node: &Node,
    position: Position,
) -> Result<Option<Remark>, AllocError>
    ensures { IfOk result (λ r. option_map remark_view r ≡ unknown_mode position node.now) }
{
    mode_said(alloc, chain_mode(printed_chain(node)), position)
}

/// The warning about a text that is no mode, where there is one.
fn mode_said(
    alloc: Global,
    mode: Option<&str>,
    position: Position,
) -> Result<Option<Remark>, AllocError>
    ensures { IfOk result (λ r. option_map remark_view r
        ≡ mode_said position (option_map (λ m. m.now) mode.entry)) }
{
    match mode {
        Some(mode) => {
            let message = mode_message(alloc, mode)?;
            Ok(Some(Remark::warning(position, "UnknownMode", message)))
        }
        None => Ok(None),
    }
}

fn mode_message(alloc: Global, mode: &str) -> Result<String, AllocError>
    ensures { IfOk result (λ message. string_bytes message ≡ mode_message mode.now) }
{
    let mode = Quoted { text: mode };
    format!(in alloc;
        "`slugify` has no mode `{mode}`: here `default`, in Jekyll `none`; write the one you mean"
    )
}

fn chain_mode(chain: Option<&FilterChain>) -> Option<&str>
    ensures { option_map (λ m. m.now) result
        ≡ chain_mode (option_map (λ c. c.now) chain.entry) }
{
    match chain {
        Some(chain) => first_mode(&chain.filters),
        None => None,
    }
}

/// The first text among the modes of these filters that is none.
fn first_mode(filters: &[ChainFilter]) -> Option<&str>
    ensures { option_map (λ m. m.now) result ≡ first_mode filters.now }
{
    for filter in filters {
        if let Some(mode) = filter_mode(filter) {
            return Some(mode);
        }
    }
    None
}

fn filter_mode(filter: &ChainFilter) -> Option<&str>
    ensures { option_map (λ m. m.now) result ≡ filter_mode filter.now }
{
    if filter.filter.name() == "slugify" {
        no_mode(first_text(&filter.arguments))
    } else {
        None
    }
}

fn no_mode(mode: Option<&str>) -> Option<&str>
    ensures { option_map (λ m. m.now) result ≡ no_mode (option_map (λ m. m.now) mode.entry) }
{
    match mode {
        Some(mode) if !is_mode(mode) => Some(mode),
        _ => None,
    }
}

/// The text that the first of these arguments is.
fn first_text(arguments: &[Expression]) -> Option<&str>
    ensures { option_map (λ t. t.now) result ≡ first_text arguments.now }
{
    match arguments {
        [first, ..] => literal_text(first),
        [] => None,
    }
}

/// Whether Jekyll's `slugify` has this mode.
fn is_mode(mode: &str) -> bool
    ensures { result ≡ is_mode mode.now }
{
    matches!(
        mode,
        "none" | "raw" | "default" | "pretty" | "ascii" | "latin"
    )
}
