//! `ifchanged`.
ghost use Rattle.std.specs.Prelude.{◌≡◌, codes};

use crate::BlockKind;
use crate::reflection::BlockReflection;

/// `{% ifchanged %}`: runs its body into a buffer, and writes the text where it differs from that
/// of the last `ifchanged`.
#[derive(Clone, Copy, Debug, Default)]
pub struct IfChangedBlock;

impl IfChangedBlock {
    /// The block.
    pub fn new() -> IfChangedBlock {
        IfChangedBlock
    }
}

impl BlockReflection for IfChangedBlock {
    ghost start_name = { λ t. codes "ifchanged" };

    fn start_tag(&self) -> &'static str {
        "ifchanged"
    }

    fn end_tag(&self) -> &'static str {
        "endifchanged"
    }

    fn description(&self) -> &'static str {
        ""
    }
}

impl From<IfChangedBlock> for BlockKind {
    ghost use Rattle.liquid_language.specs.declared.registry.BlockKind.TheVariants.{IfChanged};

    ghost from_gives = { λ block kind. kind ≡ IfChanged };

    fn from(_block: IfChangedBlock) -> BlockKind {
        BlockKind::IfChanged
    }
}
