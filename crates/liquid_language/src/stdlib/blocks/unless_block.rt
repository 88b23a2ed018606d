//! `unless`.
ghost use Rattle.std.specs.Prelude.{◌≡◌, codes};

use crate::BlockKind;
use crate::reflection::BlockReflection;

/// `{% unless condition %}`, with one `else`: runs its body where the condition doesn't hold, and
/// else that of `else`.
#[derive(Clone, Copy, Debug, Default)]
pub struct UnlessBlock;

impl UnlessBlock {
    /// The block.
    pub fn new() -> UnlessBlock {
        UnlessBlock
    }
}

impl BlockReflection for UnlessBlock {
    ghost start_name = { λ t. codes "unless" };

    fn start_tag(&self) -> &'static str {
        "unless"
    }

    fn end_tag(&self) -> &'static str {
        "endunless"
    }

    fn description(&self) -> &'static str {
        ""
    }
}

impl From<UnlessBlock> for BlockKind {
    ghost use Rattle.liquid_language.specs.declared.registry.BlockKind.TheVariants.{Unless};

    ghost from_gives = { λ block kind. kind ≡ Unless };

    fn from(_block: UnlessBlock) -> BlockKind {
        BlockKind::Unless
    }
}
