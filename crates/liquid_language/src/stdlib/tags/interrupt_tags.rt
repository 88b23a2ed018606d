//! `break` and `continue`.
ghost use Rattle.std.specs.Prelude.{◌≡◌, codes};

use crate::TagKind;
use crate::reflection::TagReflection;

/// `{% break %}`: ends the loop around it.
#[derive(Clone, Copy, Debug, Default)]
pub struct BreakTag;

impl BreakTag {
    /// The tag.
    pub fn new() -> BreakTag {
        BreakTag
    }
}

impl TagReflection for BreakTag {
    ghost tag_name = { λ t. codes "break" };

    fn tag(&self) -> &'static str {
        "break"
    }

    fn description(&self) -> &'static str {
        ""
    }
}

impl From<BreakTag> for TagKind {
    ghost use Rattle.liquid_language.specs.declared.registry.TagKind.TheVariants.{Break};

    ghost from_gives = { λ tag kind. kind ≡ Break };

    fn from(_tag: BreakTag) -> TagKind {
        TagKind::Break
    }
}

/// `{% continue %}`: ends the item of the loop around it, which goes on with the next.
#[derive(Clone, Copy, Debug, Default)]
pub struct ContinueTag;

impl ContinueTag {
    /// The tag.
    pub fn new() -> ContinueTag {
        ContinueTag
    }
}

impl TagReflection for ContinueTag {
    ghost tag_name = { λ t. codes "continue" };

    fn tag(&self) -> &'static str {
        "continue"
    }

    fn description(&self) -> &'static str {
        ""
    }
}

impl From<ContinueTag> for TagKind {
    ghost use Rattle.liquid_language.specs.declared.registry.TagKind.TheVariants.{Continue};

    ghost from_gives = { λ tag kind. kind ≡ Continue };

    fn from(_tag: ContinueTag) -> TagKind {
        TagKind::Continue
    }
}
