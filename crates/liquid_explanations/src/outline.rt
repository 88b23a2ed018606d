//! Which blocks are open at a place, and which piece holds it.
use liquid_language::{
    Block, BlockContext, BlockKind, Control, Language, Role, body_after, markup_after, role_of,
};
use liquid_lexer::{ParseError, Piece, read_body, text_before};
use liquid_model::past_byte;
use std::alloc::{AllocError, Global};

/// The `else` of a block.
#[derive(Clone, Copy)]
pub struct Otherwise<'s> {
    /// The source from it on.
    pub from: &'s str,
    /// Whether items follow its name.
    pub has_items: bool,
}

/// A block that is open.
#[derive(Clone, Copy)]
pub struct Opener<'s> {
    pub block: Block,
    /// The name of the tag that begins it.
    pub name: &'s str,
    /// The source from it on.
    pub from: &'s str,
    pub otherwise: Option<Otherwise<'s>>,
}

/// What stands around a place.
#[derive(Drop)]
pub struct Outline<'s> {
    /// The blocks that are open there, the innermost last.
    pub open: Vec<Opener<'s>>,
    /// The source from the piece on that holds the place; empty where none does.
    pub at: &'s str,
    /// The source from the place on.
    pub from: &'s str,
}

impl<'s> Outline<'s> {
    /// Opens the block that a tag of this name begins.
    fn begin(&mut self, block: Block, name: &'s str, from: &'s str) -> Result<(), AllocError> {
        self.open.push(Opener {
            block,
            name,
            from,
            otherwise: None,
        })?;
        Ok(())
    }

    /// Where the next piece stands.
    fn context(&self) -> BlockContext {
        match self.open.last() {
            None => BlockContext::Outside,
            Some(opener) if is_last(opener) => BlockContext::InLast(opener.block),
            Some(opener) => BlockContext::InBody(opener.block),
        }
    }
}

/// Whether the body that is read is the last that the block can have.
fn is_last(opener: &Opener<'_>) -> bool {
    match opener.block {
        Block::Capture | Block::IfChanged | Block::TableRow | Block::Host(_) => true,
        Block::If | Block::Unless | Block::Case | Block::For => opener.otherwise.is_some(),
    }
}

/// What stands around the place `remaining` bytes before the end of the source. The pieces before
/// it are read from the start of the source on, and each of them can be read.
pub(crate) fn outline_at<'s>(
    alloc: Global,
    source: &'s str,
    language: &Language,
    remaining: usize,
) -> Result<Outline<'s>, AllocError> {
    let mut outline = Outline {
        open: Vec::new(alloc),
        at: "",
        from: rest_of(source, remaining),
    };
    let mut rest = source;
    // each piece takes a byte at least
    for _ in 0..source.len() {
        let (_, following) = text_before(rest);
        if following.is_empty() {
            return Ok(outline);
        }
        match past(alloc, language, &mut outline, following)? {
            Some(after) => rest = after,
            None => {
                outline.at = following;
                return Ok(outline);
            }
        }
    }
    Ok(outline)
}

/// What follows the piece with which the text begins, or nothing where that piece holds the place.
fn past<'s>(
    alloc: Global,
    language: &Language,
    outline: &mut Outline<'s>,
    text: &'s str,
) -> Result<Option<&'s str>, AllocError> {
    let Some(inside) = past_byte(text, b'{') else {
        return Ok(None);
    };
    if text.len() <= outline.from.len() {
        return Ok(None);
    }
    let (markup, after) = match markup_after(alloc, language, inside) {
        Ok(read) => read,
        Err(ParseError::Fault(_)) => return Ok(None),
        Err(ParseError::Memory) => return Err(AllocError),
    };
    let body = body_after(language, outline.context(), &markup.piece);
    match read_body(body, markup, after) {
        Ok((markup, after)) => {
            enter(language, outline, &markup.piece, text)?;
            Ok(Some(after))
        }
        Err(ParseError::Fault(_)) => Ok(None),
        Err(ParseError::Memory) => Err(AllocError),
    }
}

/// Opens or closes the block that the piece begins or ends.
fn enter<'s>(
    language: &Language,
    outline: &mut Outline<'s>,
    piece: &Piece<'s>,
    from: &'s str,
) -> Result<(), AllocError> {
    let Piece::Tag(name, items) = piece else {
        return Ok(());
    };
    match role_of(language, outline.context(), name) {
        Some(Role::Block(kind)) => {
            if let Some(block) = block_of(kind) {
                outline.begin(block, name, from)?;
            }
        }
        Some(Role::HostBlock(number)) => outline.begin(Block::Host(number), name, from)?,
        Some(Role::End) => {
            outline.open.pop();
        }
        Some(Role::Control(Control::Else | Control::BareElse)) => {
            if let Some(opener) = outline.open.last_mut() {
                opener.otherwise = Some(Otherwise {
                    from,
                    has_items: !items.is_empty(),
                });
            }
        }
        Some(Role::Control(Control::Elsif | Control::When))
        | Some(Role::Tag(_) | Role::HostTag(_))
        | None => {}
    }
    Ok(())
}

/// The block of a kind whose body is read.
fn block_of(kind: BlockKind) -> Option<Block> {
    match kind {
        BlockKind::If => Some(Block::If),
        BlockKind::Unless => Some(Block::Unless),
        BlockKind::Case => Some(Block::Case),
        BlockKind::For => Some(Block::For),
        BlockKind::TableRow => Some(Block::TableRow),
        BlockKind::Capture => Some(Block::Capture),
        BlockKind::IfChanged => Some(Block::IfChanged),
        BlockKind::Raw | BlockKind::Comment => None,
    }
}

/// The last `remaining` bytes of the source.
fn rest_of(source: &str, remaining: usize) -> &str {
    source
        .get(source.len().saturating_sub(remaining)..)
        .unwrap_or("")
}
