//! `case`.
ghost use Rattle.std.specs.Prelude.{◌≡◌, codes};

use crate::BlockKind;
use crate::reflection::BlockReflection;

/// `{% case target %}`, with any number of `when` and one `else`: runs the body of the first `when`
/// with a value that equals the target, or else that of `else`. What stands before the first of
/// them is parsed and not kept.
#[derive(Clone, Copy, Debug, Default)]
pub struct CaseBlock;

impl CaseBlock {
    /// The block.
    pub fn new() -> CaseBlock {
        CaseBlock
    }
}

impl BlockReflection for CaseBlock {
    ghost start_name = { λ t. codes "case" };

    fn start_tag(&self) -> &'static str {
        "case"
    }

    fn end_tag(&self) -> &'static str {
        "endcase"
    }

    fn description(&self) -> &'static str {
        ""
    }
}

impl From<CaseBlock> for BlockKind {
    ghost use Rattle.liquid_language.specs.declared.registry.BlockKind.TheVariants.{Case};

    ghost from_gives = { λ block kind. kind ≡ Case };

    fn from(_block: CaseBlock) -> BlockKind {
        BlockKind::Case
    }
}
