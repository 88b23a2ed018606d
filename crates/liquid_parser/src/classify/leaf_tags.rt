//! Tags that are nodes without bodies, by their items.
ghost use Rattle.std.specs.Prelude.{length};
ghost use Rattle.liquid_lexer.specs.PieceView.{lexed_items_view};
ghost use Rattle.liquid_lexer.specs.Tokens.{tokens_view};
ghost use Rattle.liquid_parser.specs.Faults.{FaultsAt};
ghost use Rattle.liquid_parser.specs.inside.Classifies.{Classifies};
ghost use Rattle.liquid_parser.specs.Classification.{leaf_statement};

use super::outputs::shown_node;
use super::tags::{BareTag, read_assign, read_bare, read_word};
use crate::build::Statement;
use crate::cycle_items::read_cycle;
use crate::partial_items::{read_include, read_jekyll_include, read_render};
use liquid_language::{Language, TagKind};
use liquid_lexer::{Item, ParseError};
use liquid_syntax::Node;
use std::alloc::Global;
use std::collections::VecDeque;

/// The statement of a tag that is a node without bodies.
pub(super) fn read_leaf(
    alloc: Global,
    language: &Language,
    kind: TagKind,
    items: VecDeque<Item<'_>>,
    at: &str,
) -> Result<Statement, ParseError>
    ensures statement { Classifies (leaf_statement language.now (lexed_items_view items.entry.items)
        (tokens_view items.entry.items) kind) result }
    ensures place { FaultsAt (length at.now) result }
{
    match kind {
        TagKind::Assign => read_assign(alloc, language, items, at),
        TagKind::Break => read_bare(BareTag::Break, items, at),
        TagKind::Continue => read_bare(BareTag::Continue, items, at),
        TagKind::Increment => {
            let name = read_word(items, at)?;
            Ok(Statement::Leaf(Node::Increment(name)))
        }
        TagKind::Decrement => {
            let name = read_word(items, at)?;
            Ok(Statement::Leaf(Node::Decrement(name)))
        }
        TagKind::Cycle => {
            let (group, values) = read_cycle(alloc, items, at)?;
            shown_node(alloc, language, Node::Cycle(group, values))
        }
        TagKind::Include => read_include(alloc, items, at),
        TagKind::JekyllInclude => read_jekyll_include(alloc, items, at),
        TagKind::Render => read_render(alloc, items, at),
    }
}
