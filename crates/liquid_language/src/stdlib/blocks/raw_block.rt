//! `raw`.
ghost use Rattle.std.specs.Prelude.{◌≡◌, codes};

use crate::BlockKind;
use crate::reflection::BlockReflection;

/// `{% raw %}`: its body is text, as it stands in the source, up to the first `{% endraw %}`.
#[derive(Clone, Copy, Debug, Default)]
pub struct RawBlock;

impl RawBlock {
    /// The block.
    pub fn new() -> RawBlock {
        RawBlock
    }
}

impl BlockReflection for RawBlock {
    ghost start_name = { λ t. codes "raw" };

    fn start_tag(&self) -> &'static str {
        "raw"
    }

    fn end_tag(&self) -> &'static str {
        "endraw"
    }

    fn description(&self) -> &'static str {
        ""
    }
}

impl From<RawBlock> for BlockKind {
    ghost use Rattle.liquid_language.specs.declared.registry.BlockKind.TheVariants.{Raw};

    ghost from_gives = { λ block kind. kind ≡ Raw };

    fn from(_block: RawBlock) -> BlockKind {
        BlockKind::Raw
    }
}
