//! `comment`.
ghost use Rattle.std.specs.Prelude.{◌≡◌, codes};

use crate::BlockKind;
use crate::reflection::BlockReflection;

/// `{% comment %}`: its body is skipped, with the comments and the `raw` blocks in it.
#[derive(Clone, Copy, Debug, Default)]
pub struct CommentBlock;

impl CommentBlock {
    /// The block.
    pub fn new() -> CommentBlock {
        CommentBlock
    }
}

impl BlockReflection for CommentBlock {
    ghost start_name = { λ t. codes "comment" };

    fn start_tag(&self) -> &'static str {
        "comment"
    }

    fn end_tag(&self) -> &'static str {
        "endcomment"
    }

    fn description(&self) -> &'static str {
        ""
    }
}

impl From<CommentBlock> for BlockKind {
    ghost use Rattle.liquid_language.specs.declared.registry.BlockKind.TheVariants.{Comment};

    ghost from_gives = { λ block kind. kind ≡ Comment };

    fn from(_block: CommentBlock) -> BlockKind {
        BlockKind::Comment
    }
}
