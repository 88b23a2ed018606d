//! Words that are printed by `date` but are no dates.
ghost use Rattle.std.specs.Prelude.{◌≡◌, IfOk, option_map, string_bytes};
ghost use Rattle.liquid_warnings.specs.Messages.{clock_message, pattern_message};
ghost use Rattle.liquid_warnings.specs.Nodes.{clock_word, date_pattern_of, dated_word, first_text};
ghost use Rattle.liquid_warnings.specs.Nodes.{has_percent, is_dated, is_no_pattern, no_clock};
ghost use Rattle.liquid_warnings.specs.Nodes.{no_pattern, printed_chain};
ghost use Rattle.liquid_warnings.specs.Remarks.{remark_view};

use crate::literals::literal_text;
use crate::remark::Remark;
use liquid_core::{Expression, Quoted};
use liquid_evaluation::{ChainFilter, FilterChain};
use liquid_syntax::{Node, Position};
use std::alloc::{AllocError, Global};

/// `NoClock`: `'now' | date` or `'today' | date`, which is written as it stands.
pub(crate) fn no_clock(
    alloc: Global,
    node: &Node,
    position: Position,
) -> Result<Option<Remark>, AllocError>
    ensures { IfOk result (λ r. option_map remark_view r ≡ no_clock position node.now) }
{
    let Some(chain) = printed_chain(node) else {
        return Ok(None);
    };
    let Some(word) = dated_word(chain) else {
        return Ok(None);
    };
    let message = clock_message(alloc, word)?;
    Ok(Some(Remark::warning(position, "NoClock", message)))
}

fn clock_message(alloc: Global, word: &str) -> Result<String, AllocError>
    ensures { IfOk result (λ message. string_bytes message ≡ clock_message word.now) }
{
    format!(in alloc;
        "`'{word}' | date` gives `{word}`, since there is no clock; give the time as data"
    )
}

/// `NoPattern`: the pattern of `date` has no `%`, so that it is printed as it is.
pub(crate) fn no_pattern(
    alloc: Global,
    node: &Node,
    position: Position,
) -> Result<Option<Remark>, AllocError>
    ensures { IfOk result (λ r. option_map remark_view r ≡ no_pattern position node.now) }
{
    let Some(chain) = printed_chain(node) else {
        return Ok(None);
    };
    match pattern_of(&chain.filters) {
        Some(pattern) if is_no_pattern(pattern) => {
            let message = pattern_message(alloc, pattern)?;
            Ok(Some(Remark::warning(position, "NoPattern", message)))
        }
        _ => Ok(None),
    }
}

/// The literal pattern of a first filter `date`.
fn pattern_of(filters: &[ChainFilter]) -> Option<&str>
    ensures { option_map (λ p. p.now) result ≡ date_pattern_of filters.now }
{
    match filters {
        [first, ..] if is_dated(filters) => first_text(&first.arguments),
        _ => None,
    }
}

pub(crate) fn first_text(arguments: &[Expression]) -> Option<&str>
    ensures { option_map (λ p. p.now) result ≡ first_text arguments.now }
{
    match arguments {
        [first, ..] => literal_text(first),
        [] => None,
    }
}

fn is_no_pattern(pattern: &str) -> bool
    ensures { result ≡ is_no_pattern pattern.now }
{
    !pattern.is_empty() && !has_percent(pattern)
}

fn has_percent(text: &str) -> bool
    ensures { result ≡ has_percent text.now }
{
    text.bytes().any(|byte| byte == b'%')
}

fn pattern_message(alloc: Global, pattern: &str) -> Result<String, AllocError>
    ensures { IfOk result (λ message. string_bytes message ≡ pattern_message pattern.now) }
{
    let pattern = Quoted { text: pattern };
    format!(in alloc;
        "`{pattern}` has no `%`, so `date` prints it as it is: write it as `%d.%m.%Y`"
    )
}

/// The chain of an output or an `assign`.
pub(crate) fn printed_chain(node: &Node) -> Option<&FilterChain>
    ensures { option_map (λ c. c.now) result ≡ printed_chain node.now }
{
    match node {
        Node::Output(chain) | Node::Assign(_, chain) => Some(chain),
        _ => None,
    }
}

/// The word for the present time that the first filter of a chain is to read as a date.
fn dated_word(chain: &FilterChain) -> Option<&'static str>
    ensures { option_map (λ w. w.now) result ≡ dated_word chain.now }
{
    if !is_dated(&chain.filters) {
        return None;
    }
    match literal_text(&chain.entry) {
        Some(word) => clock_word(word),
        None => None,
    }
}

/// Whether the first of these filters is `date`.
fn is_dated(filters: &[ChainFilter]) -> bool
    ensures { result ≡ is_dated filters.now }
{
    match filters {
        [first, ..] => first.filter.name() == "date",
        [] => false,
    }
}

fn clock_word(word: &str) -> Option<&'static str>
    ensures { option_map (λ w. w.now) result ≡ clock_word word.now }
{
    match word {
        "now" => Some("now"),
        "today" => Some("today"),
        _ => None,
    }
}
