//! Warnings about what a page shows silently: they are printed after it too.
ghost use Rattle.std.specs.Prelude.{◌≡◌, ◌&&◌, ◌||◌};
ghost use Rattle.liquid_syntax.specs.Templates.{positions_of, template_nodes};
ghost use Rattle.liquid_warnings.specs.Remarks.{remark_view};
ghost use Rattle.liquid_warnings.specs.Silent.{has_similar, is_fault, is_filtered, is_filtered_at};
ghost use Rattle.liquid_warnings.specs.Silent.{is_filtered_node, is_lack, is_misread};
ghost use Rattle.liquid_warnings.specs.Silent.{is_misshapen, is_odd, is_of_template};
ghost use Rattle.liquid_warnings.specs.Silent.{is_unread_name};
ghost use Rattle.liquid_warnings.specs.Silent.{is_shown_silently, is_through, stands_at};

use crate::dates::printed_chain;
use crate::remark::Remark;
use liquid_core::Missing;
use liquid_evaluation::ChainFilter;
use liquid_syntax::{Node, Position, Template};

/// Whether a warning of a template is about what a page that came out shows silently: what is read
/// otherwise than it looks or does nothing, as an `else` with more after it; a name that is set and
/// not read, or not given to a partial; a value of another kind than it is taken for, as a text
/// that is compared with a number; and where a missing value is a fault, a missing one that is like
/// one that is there, or of which a filter makes something. The latter counts where an output or an
/// `assign` asks for it first. It takes no memory.
pub fn is_silent(remark: &Remark, template: &Template, missing: Missing) -> bool
    ensures { result ≡ is_shown_silently missing (remark_view remark.now)
        (template_nodes template.now) (positions_of template.now) }
{
    is_of_template(remark.kind)
        || (is_lack(remark.kind)
            && is_fault(missing)
            && (has_similar(remark.message.as_str())
                || is_filtered_at(remark, template.nodes(), template.positions())))
}

/// Whether the kind is of a mistake whatever becomes of a missing value.
fn is_of_template(kind: &str) -> bool
    ensures { result ≡ is_of_template kind.now }
{
    is_misread(kind) || (is_odd(kind) || (is_unread_name(kind) || is_misshapen(kind)))
}

/// Whether the kind is of what is read otherwise than it looks.
fn is_misread(kind: &str) -> bool
    ensures { result ≡ is_misread kind.now }
{
    matches!(
        kind,
        "ElseIf"
            | "NoClock"
            | "NoColours"
            | "NoPattern"
            | "NoDate"
            | "TextNumber"
            | "TextTruth"
            | "NoText"
            | "AlwaysTrue"
    )
}

/// Whether the kind is of what does nothing, or something else than it looks, in any data.
fn is_odd(kind: &str) -> bool
    ensures { result ≡ is_odd kind.now }
{
    matches!(
        kind,
        "UnknownPart"
            | "NoEscape"
            | "EscapedAgain"
            | "LateDefault"
            | "DownRange"
            | "FixedTest"
            | "TagAsOutput"
            | "AndOr"
            | "StrayBreak"
            | "FrontMatter"
            | "ForeignOutput"
            | "QuotedName"
    )
}

/// Whether the kind is of a name that is set and not read, or read where it isn't set.
fn is_unread_name(kind: &str) -> bool
    ensures { result ≡ is_unread_name kind.now }
{
    matches!(kind, "UnusedVariable" | "UnusedPair" | "NotGiven")
}

/// Whether the kind is of a value of another shape than it is taken for.
fn is_misshapen(kind: &str) -> bool
    ensures { result ≡ is_misshapen kind.now }
{
    matches!(
        kind,
        "NoNumber" | "NoTruth" | "WholeMap" | "NoKey" | "FalseDefault" | "NumberDate"
    )
}

/// Whether the kind is of what the data lacks.
fn is_lack(kind: &str) -> bool
    ensures { result ≡ is_lack kind.now }
{
    kind == "UnknownName" || kind == "UnknownPath"
}

/// Whether the message of a lack asks whether a similar name is meant.
fn has_similar(message: &str) -> bool
    ensures { result ≡ has_similar message.now }
{
    matches!(message.as_bytes().last(), Some(b'?'))
}

fn is_fault(missing: Missing) -> bool
    ensures { result ≡ is_fault missing }
{
    matches!(missing, Missing::IsFault)
}

/// Whether a filter gets the value of the node that a remark is about.
fn is_filtered_at(remark: &Remark, nodes: &[Node], positions: &[Position]) -> bool
    ensures { result ≡ is_filtered_at remark.now.line remark.now.column nodes.now positions.now }
{
    for (place, node) in nodes.iter().enumerate() {
        let Some(position) = positions.get(place) else {
            return false;
        };
        if stands_at(node, *position, remark) {
            return is_filtered_node(node);
        }
    }
    false
}

/// Whether a node stands where the remark is, and isn't the one in which an escaped output stands,
/// which begins there too.
fn stands_at(node: &Node, position: Position, remark: &Remark) -> bool
    ensures { result ≡ stands_at remark.now.line remark.now.column node.now position }
{
    !is_through(node)
        && (position.line as usize == remark.line && position.column as usize == remark.column)
}

/// Whether what the node writes goes through filters.
fn is_through(node: &Node) -> bool
    ensures { result ≡ is_through node.now }
{
    matches!(node, Node::Filtered(_, _))
}

/// Whether a filter gets the value of an output or an `assign`.
fn is_filtered_node(node: &Node) -> bool
    ensures { result ≡ is_filtered_node node.now }
{
    match printed_chain(node) {
        Some(chain) => is_filtered(&chain.filters),
        None => false,
    }
}

/// Whether the first of these filters makes something of nil, which `default` is for.
fn is_filtered(filters: &[ChainFilter]) -> bool
    ensures { result ≡ is_filtered filters.now }
{
    match filters {
        [first, ..] => first.filter.name() != "default",
        [] => false,
    }
}
