//! Filters of which one spoils what the one before it made, or changes nothing after it.
ghost use Rattle.std.specs.Prelude.{◌≡◌, IfOk, option_map, string_bytes};
ghost use Rattle.liquid_warnings.specs.FilterPairs.{adds_text, again_message, chain_pair};
ghost use Rattle.liquid_warnings.specs.FilterPairs.{escapes_again, first_pair, is_any_text};
ghost use Rattle.liquid_warnings.specs.FilterPairs.{is_escape, is_late_default, is_never_empty};
ghost use Rattle.liquid_warnings.specs.FilterPairs.{filter_pair, late_message, pair_after};
ghost use Rattle.liquid_warnings.specs.FilterPairs.{pair_said};
ghost use Rattle.liquid_warnings.specs.FilterPairs.{said_of_pair};
ghost use Rattle.liquid_warnings.specs.Nodes.{printed_chain};
ghost use Rattle.liquid_warnings.specs.Remarks.{remark_view};

use crate::dates::{first_text, printed_chain};
use crate::remark::Remark;
use liquid_evaluation::ChainFilter;
use liquid_syntax::{Node, Position};
use std::alloc::{AllocError, Global};

/// `EscapedAgain`: what a filter wrote is escaped after it; or `LateDefault`: a `default` stands
/// after a filter that always leaves something. Of an output or an `assign`, the first.
pub(crate) fn pair_warning(
    alloc: Global,
    node: &Node,
    position: Position,
) -> Result<Option<Remark>, AllocError>
    ensures { IfOk result (λ r. option_map remark_view r ≡ pair_said position node.now) }
{
    match chain_pair(node) {
        Some((is_escaped, name)) => Ok(Some(said_of_pair(alloc, position, is_escaped, name)?)),
        None => Ok(None),
    }
}

fn said_of_pair(
    alloc: Global,
    position: Position,
    is_escaped: bool,
    name: &str,
) -> Result<Remark, AllocError>
    ensures { IfOk result (λ r. remark_view r ≡ said_of_pair position is_escaped name.now) }
{
    if is_escaped {
        let message = again_message(alloc, name)?;
        return Ok(Remark::warning(position, "EscapedAgain", message));
    }
    let message = late_message(alloc, name)?;
    Ok(Remark::warning(position, "LateDefault", message))
}

fn again_message(alloc: Global, name: &str) -> Result<String, AllocError>
    ensures { IfOk result (λ message. string_bytes message ≡ again_message name.now) }
{
    format!(in alloc;
        "what `{name}` wrote is escaped here, and shows as text; write one `escape`, and before it"
    )
}

fn late_message(alloc: Global, name: &str) -> Result<String, AllocError>
    ensures { IfOk result (λ message. string_bytes message ≡ late_message name.now) }
{
    format!(in alloc;
        "`{name}` never leaves nothing, so the `default` after it is never used; write it before"
    )
}

/// The first such pair of an output or an `assign`: whether it escapes again, and the name of its
/// first filter.
fn chain_pair(node: &Node) -> Option<(bool, &str)>
    ensures { option_map (λ p. (p.0, p.1.now)) result ≡ chain_pair (printed_chain node.now) }
{
    match printed_chain(node) {
        Some(chain) => first_pair(&chain.filters),
        None => None,
    }
}

fn first_pair(filters: &[ChainFilter]) -> Option<(bool, &str)>
    ensures { option_map (λ p. (p.0, p.1.now)) result ≡ first_pair None filters.now }
{
    let mut before: Option<&ChainFilter> = None;
    for filter in filters {
        if let Some(pair) = pair_after(before, filter) {
            return Some(pair);
        }
        before = Some(filter);
    }
    None
}

fn pair_after<'t>(before: Option<&'t ChainFilter>, filter: &ChainFilter) -> Option<(bool, &'t str)>
    ensures { option_map (λ p. (p.0, p.1.now)) result
        ≡ pair_after (option_map (λ f. f.now) before.entry) filter.now }
{
    match before {
        Some(before) => filter_pair(before, filter),
        None => None,
    }
}

fn filter_pair<'t>(first: &'t ChainFilter, next: &ChainFilter) -> Option<(bool, &'t str)>
    ensures { option_map (λ p. (p.0, p.1.now)) result ≡ filter_pair first.now next.now }
{
    if escapes_again(first.filter.name(), next.filter.name()) {
        Some((true, first.filter.name()))
    } else if is_late_default(first, next) {
        Some((false, first.filter.name()))
    } else {
        None
    }
}

fn escapes_again(first: &str, next: &str) -> bool
    ensures { result ≡ escapes_again first.now next.now }
{
    (is_escape(first) || first == "newline_to_br") && is_escape(next)
}

fn is_escape(name: &str) -> bool
    ensures { result ≡ is_escape name.now }
{
    matches!(name, "escape" | "xml_escape")
}

fn is_late_default(first: &ChainFilter, next: &ChainFilter) -> bool
    ensures { result ≡ is_late_default first.now next.now }
{
    next.filter.name() == "default" && is_never_empty(first)
}

/// Whether a filter never makes nil, `false` or an empty text.
fn is_never_empty(filter: &ChainFilter) -> bool
    ensures { result ≡ is_never_empty filter.now }
{
    filter.filter.name() == "size"
        || (adds_text(filter.filter.name()) && is_any_text(first_text(&filter.arguments)))
}

fn adds_text(name: &str) -> bool
    ensures { result ≡ adds_text name.now }
{
    matches!(name, "append" | "prepend")
}

fn is_any_text(text: Option<&str>) -> bool
    ensures { result ≡ is_any_text (option_map (λ t. t.now) text.entry) }
{
    match text {
        Some(text) => !text.is_empty(),
        None => false,
    }
}
