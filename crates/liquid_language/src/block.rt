//! Blocks that are open while a source is read.
ghost use Rattle.std.specs.Prelude.{◌≡◌, bytes_eq};
ghost use Rattle.liquid_language.specs.Controls.{control_of, end_word, standard_end};
ghost use Rattle.liquid_language.specs.Roles.{body_after, host_role, registered, role_of};
ghost use Rattle.liquid_language.specs.Roles.{verbatim_body};
ghost use Rattle.liquid_lexer.specs.PieceView.{piece_view};
ghost use Rattle.liquid_lexer.specs.SourceReading.{wanted_body};

use crate::host_tags::HostKind;
use crate::registry::{BlockKind, Language, TagKind};
use liquid_lexer::{Body, Piece, bare_name};

/// A block with bodies of its own.
#[derive(Clone, Copy, Debug, PartialEq, Eq)]
pub enum Block {
    If,
    Unless,
    Case,
    For,
    TableRow,
    Capture,
    IfChanged,
    /// A block of the host, by its number.
    Host(usize),
}

/// Where a piece of a source stands.
#[derive(Clone, Copy, Debug, PartialEq, Eq)]
pub enum BlockContext {
    /// In no block.
    Outside,
    /// In a body that the block's control words can end.
    InBody(Block),
    /// In the last body that the block can have, which its end alone ends.
    InLast(Block),
}

/// A word that a block knows in a body, besides its end.
#[derive(Clone, Copy, Debug, PartialEq, Eq)]
pub enum Control {
    /// `elsif condition`
    Elsif,
    /// `else`, whose items are ignored
    Else,
    /// `else`, which has no items
    BareElse,
    /// `when v or v, v`
    When,
}

/// The control word of the block that a tag's name is, in a body that it can end.
pub fn control_word(block: Block, name: &str) -> Option<Control>
    ensures { result ≡ control_of block name.now }
{
    match block {
        Block::If if name == "elsif" => Some(Control::Elsif),
        Block::If | Block::Unless if name == "else" => Some(Control::Else),
        Block::For | Block::Case if name == "else" => Some(Control::BareElse),
        Block::Case if name == "when" => Some(Control::When),
        _ => None,
    }
}

/// What a tag's name is, where the tag stands.
#[derive(Clone, Copy, Debug, PartialEq, Eq)]
pub enum Role {
    /// The end of the innermost block.
    End,
    /// A control word of the innermost block.
    Control(Control),
    Tag(TagKind),
    Block(BlockKind),
    /// A tag of the host, by its number.
    HostTag(usize),
    /// A block of the host, by its number.
    HostBlock(usize),
}

/// What the name is, where a tag stands: in a block its end comes first, then the control words
/// that can end the body, then registered tags, then registered blocks, then what the host
/// registered.
pub fn role_of(language: &Language, context: BlockContext, name: &str) -> Option<Role>
    ensures { result ≡ role_of language.now context name.now }
{
    match context {
        BlockContext::Outside => registered(language, name),
        BlockContext::InBody(block) => {
            if is_end(language, block, name) {
                return Some(Role::End);
            }
            match control_word(block, name) {
                Some(word) => Some(Role::Control(word)),
                None => registered(language, name),
            }
        }
        BlockContext::InLast(block) => {
            if is_end(language, block, name) {
                return Some(Role::End);
            }
            registered(language, name)
        }
    }
}

/// What is registered under the name: tags come before blocks, and both before what the host
/// registered.
fn registered(language: &Language, name: &str) -> Option<Role>
    ensures { result ≡ registered language.now name.now }
{
    if let Some(kind) = language.tags.get(name) {
        return Some(Role::Tag(kind));
    }
    match language.blocks.get(name) {
        Some(kind) => Some(Role::Block(kind)),
        None => Some(host_role(language.host_tags.get(name)?)),
    }
}

fn host_role(kind: HostKind) -> Role
    ensures { result ≡ host_role kind }
{
    match kind {
        HostKind::Tag(number) => Role::HostTag(number),
        HostKind::Block(number) => Role::HostBlock(number),
    }
}

/// The body after a tag, where it is a block's that isn't read.
pub fn verbatim_body(role: Option<Role>) -> Option<Body>
    ensures { result ≡ verbatim_body role }
{
    match role {
        Some(Role::Block(BlockKind::Raw)) => Some(Body::Raw),
        Some(Role::Block(BlockKind::Comment)) => Some(Body::Comment),
        _ => None,
    }
}

/// The body after a piece, where it is a tag without items that begins a block whose body isn't
/// read.
pub fn body_after(language: &Language, context: BlockContext, piece: &Piece<'_>) -> Option<Body>
    ensures { result ≡ wanted_body (body_after language.now context) (piece_view piece.now) }
{
    verbatim_body(role_of(language, context, bare_name(piece)?))
}

/// Whether a tag of the name ends the block.
pub fn is_end(language: &Language, block: Block, name: &str) -> bool
    ensures { result ≡ bytes_eq name.now (end_word language.now block) }
{
    name == end_tag(language, block)
}

/// Whether a name is meant as that of a tag that ends a block.
pub fn begins_with_end(name: &str) -> bool {
    match name.get(..3) {
        Some(front) => front.eq_ignore_ascii_case("end"),
        None => false,
    }
}

/// The name of the tag that ends the block.
pub fn end_tag(language: &Language, block: Block) -> &str
    ensures { result.now ≡ end_word language.now block }
{
    match block {
        Block::Host(number) => language.host_tags.end(number),
        _ => standard_end(block),
    }
}

/// The name of the tag that ends the block; nothing for a block of the host.
pub fn standard_end(block: Block) -> &'static str
    ensures { result.now ≡ standard_end block }
{
    match block {
        Block::If => "endif",
        Block::Unless => "endunless",
        Block::Case => "endcase",
        Block::For => "endfor",
        Block::TableRow => "endtablerow",
        Block::Capture => "endcapture",
        Block::IfChanged => "endifchanged",
        Block::Host(_) => "",
    }
}
