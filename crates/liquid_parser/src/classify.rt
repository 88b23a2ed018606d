//! What a piece is, where it stands: the statement of an output or a tag, by the language and by
//! its items.
ghost use Rattle.std.specs.Prelude.{◌≡◌, length};
ghost use Rattle.liquid_lexer.specs.PieceView.{lexed_items_view, piece_view};
ghost use Rattle.liquid_lexer.specs.Readers.{IsAt, IsOfKind};
ghost use Rattle.liquid_lexer.specs.Tokens.{tokens_view};
ghost use Rattle.liquid_parser.specs.Faults.{FaultsAs, FaultsAt};
ghost use Rattle.liquid_parser.specs.inside.Classifies.{Classifies};
ghost use Rattle.liquid_parser.specs.Classification.{comment_statement, ends_or, starts_block};
ghost use Rattle.liquid_parser.specs.Classification.{raw_statement, reads, tag_statement};
ghost use Rattle.liquid_parser.specs.HostTags.{in_host};
ghost use Rattle.liquid_language.specs.Roles.{role_of};

mod blocks;
mod host_tags;
mod leaf_tags;
mod outputs;
mod tags;

use crate::build::Statement;
use crate::chain_items::expected_before;
use blocks::{read_block, read_control};
use host_tags::{read_host_block, read_host_tag};
use leaf_tags::read_leaf;
use liquid_language::{Block, BlockContext, Language, Role, role_of, verbatim_body};
use liquid_lexer::{Body, Expectation, Fault, FaultKind, Item, ParseError, Piece};
use liquid_syntax::Node;
use outputs::read_output;
use std::alloc::Global;
use std::collections::VecDeque;

/// Whether the piece is the start of a block, whatever its items are.
pub fn opens(language: &Language, context: BlockContext, piece: &Piece<'_>) -> bool
    ensures { result ≡ starts_block language.now context (piece_view piece.now) }
{
    match piece {
        Piece::Output(_) => false,
        Piece::Tag(name, _) | Piece::Raw(name, _) | Piece::Comment(name) => {
            matches!(
                role_of(language, context, name),
                Some(Role::Block(_) | Role::HostBlock(_))
            )
        }
    }
}

/// The statement that a piece is in its context. `at` is the source from the piece on.
#[tactic(auto, using(liquid_lexer::proofs::Seen::seen_tokens))]
pub fn classify(
    alloc: Global,
    language: &Language,
    context: BlockContext,
    piece: Piece<'_>,
    at: &str,
) -> Result<Statement, ParseError>
    ensures statement { Classifies (reads language.now context (piece_view piece.entry)) result }
    ensures place { FaultsAt (length at.now) result }
{
    match piece {
        Piece::Output(items) => read_output(alloc, language, items, at),
        Piece::Tag(name, items) => read_tag(alloc, language, context, name, items, at),
        Piece::Raw(name, body) => {
            let role = role_of(language, context, name);
            raw_block(alloc, verbatim_body(role), body, at)
        }
        Piece::Comment(name) => {
            let role = role_of(language, context, name);
            comment_block(verbatim_body(role), at)
        }
    }
}

fn raw_block(
    alloc: Global,
    wanted: Option<Body>,
    body: &str,
    at: &str,
) -> Result<Statement, ParseError>
    ensures statement { Classifies (raw_statement body.now wanted) result }
    ensures kind { FaultsAs FaultKind.UnknownTag result }
    ensures place { FaultsAt (length at.now) result }
{
    match wanted {
        Some(Body::Raw) => Ok(Statement::Verbatim(Node::Raw(String::from_str(alloc, body)?))),
        _ => Err(unknown_tag(at)),
    }
}

fn comment_block(wanted: Option<Body>, at: &str) -> Result<Statement, ParseError>
    ensures statement { Classifies (comment_statement wanted) result }
    ensures kind { FaultsAs FaultKind.UnknownTag result }
    ensures place { FaultsAt (length at.now) result }
{
    match wanted {
        Some(Body::Comment) => Ok(Statement::Verbatim(Node::Comment)),
        _ => Err(unknown_tag(at)),
    }
}

fn read_tag(
    alloc: Global,
    language: &Language,
    context: BlockContext,
    name: &str,
    items: VecDeque<Item<'_>>,
    at: &str,
) -> Result<Statement, ParseError>
    ensures statement { Classifies (tag_statement language.now context
        (lexed_items_view items.entry.items) (tokens_view items.entry.items)
        (role_of language.now context name.now)) result }
    ensures place { FaultsAt (length at.now) result }
{
    match role_of(language, context, name) {
        None => Err(unknown_tag(at)),
        Some(Role::End) => read_end(context, items, at),
        Some(Role::Control(control)) => read_control(alloc, control, items, at),
        Some(Role::Tag(kind)) => read_leaf(alloc, language, kind, items, at),
        Some(Role::Block(kind)) => read_block(alloc, kind, items, at),
        Some(Role::HostTag(number)) => read_host_tag(alloc, language, number, items, at),
        Some(Role::HostBlock(number)) => read_host_block(alloc, language, number, items, at),
    }
}

/// An end, which takes no items; those of the end of a host's block are ignored.
fn read_end(
    context: BlockContext,
    items: VecDeque<Item<'_>>,
    at: &str,
) -> Result<Statement, ParseError>
    ensures statement { Classifies (ends_or (in_host context) (tokens_view items.entry.items))
        result }
    ensures kind { FaultsAs FaultKind.Expected result }
    ensures place { FaultsAt (length at.now) result }
{
    if items.is_empty() || is_in_host(context) {
        Ok(Statement::End)
    } else {
        Err(expected_before(at, items, Expectation::Closer))
    }
}

/// Whether the innermost block is one of the host.
fn is_in_host(context: BlockContext) -> bool
    ensures { result ≡ in_host context }
{
    match context {
        BlockContext::Outside => false,
        BlockContext::InBody(block) | BlockContext::InLast(block) => {
            matches!(block, Block::Host(_))
        }
    }
}

fn unknown_tag(at: &str) -> ParseError
    ensures kind { IsOfKind FaultKind.UnknownTag result }
    ensures place { IsAt (length at.now) result }
{
    ParseError::Fault(Fault::new(FaultKind::UnknownTag, at, Expectation::RegisteredTag))
}
