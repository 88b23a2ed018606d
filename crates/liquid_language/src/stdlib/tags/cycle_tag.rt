//! `cycle`.
ghost use Rattle.std.specs.Prelude.{◌≡◌, codes};

use crate::TagKind;
use crate::reflection::TagReflection;

/// `{% cycle name: value, value %}`, also without a name: writes one of the values, the next one
/// each time that a tag of its group runs. The group is the name, or without one what the values
/// look like.
#[derive(Clone, Copy, Debug, Default)]
pub struct CycleTag;

impl CycleTag {
    /// The tag.
    pub fn new() -> CycleTag {
        CycleTag
    }
}

impl TagReflection for CycleTag {
    ghost tag_name = { λ t. codes "cycle" };

    fn tag(&self) -> &'static str {
        "cycle"
    }

    fn description(&self) -> &'static str {
        ""
    }
}

impl From<CycleTag> for TagKind {
    ghost use Rattle.liquid_language.specs.declared.registry.TagKind.TheVariants.{Cycle};

    ghost from_gives = { λ tag kind. kind ≡ Cycle };

    fn from(_tag: CycleTag) -> TagKind {
        TagKind::Cycle
    }
}
