//! `assign`.
ghost use Rattle.std.specs.Prelude.{◌≡◌, codes};

use crate::TagKind;
use crate::reflection::TagReflection;

/// `{% assign name = chain %}`: stores the chain's value under the name, among the assigned
/// variables.
#[derive(Clone, Copy, Debug, Default)]
pub struct AssignTag;

impl AssignTag {
    /// The tag.
    pub fn new() -> AssignTag {
        AssignTag
    }
}

impl TagReflection for AssignTag {
    ghost tag_name = { λ t. codes "assign" };

    fn tag(&self) -> &'static str {
        "assign"
    }

    fn description(&self) -> &'static str {
        ""
    }
}

impl From<AssignTag> for TagKind {
    ghost use Rattle.liquid_language.specs.declared.registry.TagKind.TheVariants.{Assign};

    ghost from_gives = { λ tag kind. kind ≡ Assign };

    fn from(_tag: AssignTag) -> TagKind {
        TagKind::Assign
    }
}
