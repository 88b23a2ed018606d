//! `capture`.
ghost use Rattle.std.specs.Prelude.{◌≡◌, codes};

use crate::BlockKind;
use crate::reflection::BlockReflection;

/// `{% capture name %}`: runs its body into a buffer, and stores the text under the name, among the
/// assigned variables.
/// After a fault in the body nothing is stored.
#[derive(Clone, Copy, Debug, Default)]
pub struct CaptureBlock;

impl CaptureBlock {
    /// The block.
    pub fn new() -> CaptureBlock {
        CaptureBlock
    }
}

impl BlockReflection for CaptureBlock {
    ghost start_name = { λ t. codes "capture" };

    fn start_tag(&self) -> &'static str {
        "capture"
    }

    fn end_tag(&self) -> &'static str {
        "endcapture"
    }

    fn description(&self) -> &'static str {
        ""
    }
}

impl From<CaptureBlock> for BlockKind {
    ghost use Rattle.liquid_language.specs.declared.registry.BlockKind.TheVariants.{Capture};

    ghost from_gives = { λ block kind. kind ≡ Capture };

    fn from(_block: CaptureBlock) -> BlockKind {
        BlockKind::Capture
    }
}
