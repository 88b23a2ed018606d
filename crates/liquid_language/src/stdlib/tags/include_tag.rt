//! `include`.
ghost use Rattle.std.specs.Prelude.{◌≡◌, codes};

use crate::TagKind;
use crate::reflection::TagReflection;

/// `{% include name w: v, w: v %}`: runs a partial over the caller's names, with the pairs as a
/// scope.
#[derive(Clone, Copy, Debug, Default)]
pub struct IncludeTag;

impl IncludeTag {
    /// The tag.
    pub fn new() -> IncludeTag {
        IncludeTag
    }
}

impl TagReflection for IncludeTag {
    ghost tag_name = { λ t. codes "include" };

    fn tag(&self) -> &'static str {
        "include"
    }

    fn description(&self) -> &'static str {
        ""
    }
}

impl From<IncludeTag> for TagKind {
    ghost use Rattle.liquid_language.specs.declared.registry.TagKind.TheVariants.{Include};

    ghost from_gives = { λ tag kind. kind ≡ Include };

    fn from(_tag: IncludeTag) -> TagKind {
        TagKind::Include
    }
}
