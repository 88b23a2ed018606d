//! Tags by their items: those without any, one word, and `assign`.
ghost use Rattle.std.specs.Prelude.{◌≡◌, length, string_bytes};
ghost use Rattle.liquid_lexer.specs.Readers.{Parses};
ghost use Rattle.liquid_lexer.specs.Tokens.{tokens_view};
ghost use Rattle.liquid_parser.specs.inside.Building.{statement_view, IsSound};
ghost use Rattle.liquid_parser.specs.Faults.{FaultsAs, FaultsAt};
ghost use Rattle.liquid_parser.specs.inside.BareTags.{bare_view};
ghost use Rattle.liquid_parser.specs.inside.Classifies.{Classifies};
ghost use Rattle.liquid_parser.specs.Classification.{assign_of, bare, leaf_or, word_alone};

use crate::build::{Stage, Statement};
use crate::chain_items::{expected_before, read_chain};
use liquid_language::{Block, Language};
use liquid_lexer::{Expectation, FaultKind, Item, ParseError, Symbol, is_over, next_word, skip};
use liquid_syntax::Node;
use std::alloc::Global;
use std::collections::VecDeque;

/// A tag that takes no items.
#[derive(Clone, Copy)]
pub(super) enum BareTag {
    /// `else` of a `for` or a `case`
    Else,
    Break,
    Continue,
    IfChanged,
}

/// What the tag is, where no items stand in it.
fn statement_of(tag: BareTag) -> Statement
    ensures view { bare_view tag ≡ statement_view result }
    ensures sound { IsSound result }
{
    match tag {
        BareTag::Else => Statement::Else,
        BareTag::Break => Statement::Leaf(Node::Break),
        BareTag::Continue => Statement::Leaf(Node::Continue),
        BareTag::IfChanged => Statement::Begins(Block::IfChanged, Stage::Last, Node::IfChanged(0)),
    }
}

/// A tag without items. Its statement is made where there are none, so that none has to be dropped
/// where there are.
pub(super) fn read_bare(
    tag: BareTag,
    items: VecDeque<Item<'_>>,
    at: &str,
) -> Result<Statement, ParseError>
    ensures statement { Classifies (bare (bare_view tag) (tokens_view items.entry.items)) result }
    ensures kind { FaultsAs FaultKind.Expected result }
    ensures place { FaultsAt (length at.now) result }
{
    if items.is_empty() {
        Ok(statement_of(tag))
    } else {
        Err(expected_before(at, items, Expectation::Closer))
    }
}

/// The word that all the items are.
pub(super) fn read_word(items: VecDeque<Item<'_>>, at: &str) -> Result<String, ParseError>
    ensures word { Parses string_bytes result (word_alone (tokens_view items.entry.items)) }
    ensures kind { FaultsAs FaultKind.Expected result }
    ensures place { FaultsAt (length at.now) result }
{
    let mut items = items;
    let Some(name) = next_word(&mut items) else {
        return Err(expected_before(at, items, Expectation::VariableName));
    };
    if is_over(&items) {
        return Ok(name);
    }
    Err(expected_before(at, items, Expectation::Closer))
}

/// `name = chain`
pub(super) fn read_assign(
    alloc: Global,
    language: &Language,
    items: VecDeque<Item<'_>>,
    at: &str,
) -> Result<Statement, ParseError>
    ensures statement { Classifies
        (leaf_or (assign_of language.now (tokens_view items.entry.items))) result }
    ensures place { FaultsAt (length at.now) result }
{
    let mut items = items;
    let Some(name) = next_word(&mut items) else {
        return Err(expected_before(at, items, Expectation::VariableName));
    };
    if !skip(&mut items, Symbol::Assign) {
        return Err(expected_before(at, items, Expectation::EqualsSign));
    }
    Ok(Statement::Leaf(Node::Assign(name, read_chain(alloc, &language.filters, items, at)?)))
}
