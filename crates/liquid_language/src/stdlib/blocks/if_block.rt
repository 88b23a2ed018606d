//! `if`.
ghost use Rattle.std.specs.Prelude.{◌≡◌, codes};

use crate::BlockKind;
use crate::reflection::BlockReflection;

/// `{% if condition %}`, with any number of `elsif` and one `else`: runs the first body whose
/// condition holds, or else that of `else`.
#[derive(Clone, Copy, Debug, Default)]
pub struct IfBlock;

impl IfBlock {
    /// The block.
    pub fn new() -> IfBlock {
        IfBlock
    }
}

impl BlockReflection for IfBlock {
    ghost start_name = { λ t. codes "if" };

    fn start_tag(&self) -> &'static str {
        "if"
    }

    fn end_tag(&self) -> &'static str {
        "endif"
    }

    fn description(&self) -> &'static str {
        ""
    }
}

impl From<IfBlock> for BlockKind {
    ghost use Rattle.liquid_language.specs.declared.registry.BlockKind.TheVariants.{If};

    ghost from_gives = { λ block kind. kind ≡ If };

    fn from(_block: IfBlock) -> BlockKind {
        BlockKind::If
    }
}
