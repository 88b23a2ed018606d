//! `increment` and `decrement`.
ghost use Rattle.std.specs.Prelude.{◌≡◌, codes};

use crate::TagKind;
use crate::reflection::TagReflection;

/// `{% increment name %}`: writes the counter of the name, which is 0 at first, and then counts one
/// up.
#[derive(Clone, Copy, Debug, Default)]
pub struct IncrementTag;

impl IncrementTag {
    /// The tag.
    pub fn new() -> IncrementTag {
        IncrementTag
    }
}

impl TagReflection for IncrementTag {
    ghost tag_name = { λ t. codes "increment" };

    fn tag(&self) -> &'static str {
        "increment"
    }

    fn description(&self) -> &'static str {
        ""
    }
}

impl From<IncrementTag> for TagKind {
    ghost use Rattle.liquid_language.specs.declared.registry.TagKind.TheVariants.{Increment};

    ghost from_gives = { λ tag kind. kind ≡ Increment };

    fn from(_tag: IncrementTag) -> TagKind {
        TagKind::Increment
    }
}

/// `{% decrement name %}`: counts the counter of the name one down, from 0 at first, and writes it.
#[derive(Clone, Copy, Debug, Default)]
pub struct DecrementTag;

impl DecrementTag {
    /// The tag.
    pub fn new() -> DecrementTag {
        DecrementTag
    }
}

impl TagReflection for DecrementTag {
    ghost tag_name = { λ t. codes "decrement" };

    fn tag(&self) -> &'static str {
        "decrement"
    }

    fn description(&self) -> &'static str {
        ""
    }
}

impl From<DecrementTag> for TagKind {
    ghost use Rattle.liquid_language.specs.declared.registry.TagKind.TheVariants.{Decrement};

    ghost from_gives = { λ tag kind. kind ≡ Decrement };

    fn from(_tag: DecrementTag) -> TagKind {
        TagKind::Decrement
    }
}
