//! `for`.
ghost use Rattle.std.specs.Prelude.{◌≡◌, codes};

use crate::BlockKind;
use crate::reflection::BlockReflection;

/// `{% for variable in source %}`, with one `else`: runs its body for each item, and that of `else`
/// where there is none.
#[derive(Clone, Copy, Debug, Default)]
pub struct ForBlock;

impl ForBlock {
    /// The block.
    pub fn new() -> ForBlock {
        ForBlock
    }
}

impl BlockReflection for ForBlock {
    ghost start_name = { λ t. codes "for" };

    fn start_tag(&self) -> &'static str {
        "for"
    }

    fn end_tag(&self) -> &'static str {
        "endfor"
    }

    fn description(&self) -> &'static str {
        ""
    }
}

impl From<ForBlock> for BlockKind {
    ghost use Rattle.liquid_language.specs.declared.registry.BlockKind.TheVariants.{For};

    ghost from_gives = { λ block kind. kind ≡ For };

    fn from(_block: ForBlock) -> BlockKind {
        BlockKind::For
    }
}
