//! Outputs: what they write goes through `escape` in a language that escapes, but where `| raw`
//! ends them.
ghost use Rattle.std.specs.Prelude.{◌≡◌, [], ◌∷◌, IfErr, IfOk, length, map};
ghost use Rattle.liquid_evaluation.specs.ChainView.{chain_filter_view};
ghost use Rattle.liquid_evaluation.specs.Escaped.{escape_call};
ghost use Rattle.liquid_lexer.specs.PieceView.{item_view};
ghost use Rattle.liquid_lexer.specs.Tokens.{is_symbol, token_of, tokens_view};
ghost use Rattle.liquid_parser.specs.Classification.{leaf_or};
ghost use Rattle.liquid_parser.specs.Faults.{FaultsAt};
ghost use Rattle.liquid_parser.specs.Nesting.{leaf};
ghost use Rattle.liquid_parser.specs.Outputs.{output_of, shown_node};
ghost use Rattle.liquid_parser.specs.inside.Classifies.{Classifies};
ghost use Rattle.liquid_parser.specs.inside.RawEnds.{IsSameFault, SkipsRaw};
ghost use Rattle.liquid_syntax.specs.Flats.{flat_of};

use super::host_tags::alone;
use crate::build::Statement;
use crate::chain_items::read_chain;
use liquid_evaluation::ChainFilter;
use liquid_language::Language;
use liquid_lexer::{Fault, Item, ParseError, Symbol, is_word};
use liquid_syntax::Node;
use std::alloc::Global;
use std::collections::VecDeque;

/// The statement of an output: a chain, and in a language that escapes perhaps `| raw` after it.
pub(super) fn read_output(
    alloc: Global,
    language: &Language,
    items: VecDeque<Item<'_>>,
    at: &str,
) -> Result<Statement, ParseError>
    ensures statement { Classifies
        (leaf_or (output_of language.now (tokens_view items.entry.items))) result }
    ensures place { FaultsAt (length at.now) result }
{
    if language.escapes_html {
        return read_escaped(alloc, language, items, at);
    }
    let chain = read_chain(alloc, &language.filters, items, at)?;
    Ok(Statement::Leaf(Node::Output(chain)))
}

/// The same, apart from the way of each output in a language that doesn't escape.
fn read_escaped(
    alloc: Global,
    language: &Language,
    items: VecDeque<Item<'_>>,
    at: &str,
) -> Result<Statement, ParseError>
    ensures statement { Classifies
        (leaf_or (output_of language.now (tokens_view items.entry.items))) result }
    ensures place { FaultsAt (length at.now) result }
{
    let mut items = items;
    if language.escapes_html && skip_raw(&mut items) {
        return match read_chain(alloc, &language.filters, items, at) {
            Ok(chain) => Ok(Statement::Leaf(Node::Output(chain))),
            Err(error) => Err(before_raw(error)),
        };
    }
    let chain = read_chain(alloc, &language.filters, items, at)?;
    shown_node(alloc, language, Node::Output(chain))
}

/// The statement of an output or a `cycle`, whose text is escaped where the language escapes.
pub(super) fn shown_node(
    alloc: Global,
    language: &Language,
    node: Node,
) -> Result<Statement, ParseError>
    requires { (flat_of node).ends ≡ [] }
    ensures statement { Classifies (leaf (shown_node language.now ((flat_of node).head [])))
        result }
    ensures memory { IfErr result (λ e. e ≡ ParseError.Memory) }
{
    if !language.escapes_html {
        return Ok(Statement::Leaf(node));
    }
    match escape_alone(alloc) {
        Ok(filters) => Ok(Statement::Through(filters, node)),
        Err(refused) => {
            drop(node);
            Err(refused)
        }
    }
}

/// The filter `escape` alone.
fn escape_alone(alloc: Global) -> Result<Vec<ChainFilter>, ParseError>
    ensures filters { IfOk result (λ filters. map chain_filter_view filters.items ≡
        escape_call ∷ []) }
    ensures memory { IfErr result (λ e. e ≡ ParseError.Memory) }
{
    alone(alloc, ChainFilter::escape(alloc))
}

/// Takes `| raw` off the end, and answers whether it stood there.
fn skip_raw(items: &mut VecDeque<Item<'_>>) -> bool
    ensures { SkipsRaw items.old.items items.new.items result }
{
    let Some(front) = items.len().checked_sub(2) else {
        return false;
    };
    let ends = match (items.get(front), items.back()) {
        (Some(bar), Some(word)) => is_bar(bar) && is_word(word, "raw"),
        _ => false,
    };
    if ends {
        items.truncate(front);
    }
    ends
}

fn is_bar(item: &Item<'_>) -> bool
    ensures { result ≡ is_symbol Symbol.Bar (token_of (item_view item.now)) }
{
    matches!(item, Item::Symbol(Symbol::Bar))
}

/// The fault of a chain before `| raw`, in the whole piece.
fn before_raw(error: ParseError) -> ParseError
    ensures { IsSameFault error result }
{
    match error {
        ParseError::Memory => ParseError::Memory,
        ParseError::Fault(fault) => ParseError::Fault(Fault {
            kind: fault.kind,
            remaining: fault.remaining,
            expected: fault.expected,
            items_remaining: fault.items_remaining.saturating_add(2),
        }),
    }
}
