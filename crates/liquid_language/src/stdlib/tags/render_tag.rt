//! `render`.
ghost use Rattle.std.specs.Prelude.{◌≡◌, codes};

use crate::TagKind;
use crate::reflection::TagReflection;

/// `{% render name with v as w, w: v %}`: runs a partial apart, where it sees the pairs alone. With
/// `for R as w` in the place of `with v as w` it runs for each item, which the partial sees as w,
/// and `forloop` beside it.
#[derive(Clone, Copy, Debug, Default)]
pub struct RenderTag;

impl RenderTag {
    /// The tag.
    pub fn new() -> RenderTag {
        RenderTag
    }
}

impl TagReflection for RenderTag {
    ghost tag_name = { λ t. codes "render" };

    fn tag(&self) -> &'static str {
        "render"
    }

    fn description(&self) -> &'static str {
        "insert the rendered content of another template in this template"
    }
}

impl From<RenderTag> for TagKind {
    ghost use Rattle.liquid_language.specs.declared.registry.TagKind.TheVariants.{Render};

    ghost from_gives = { λ tag kind. kind ≡ Render };

    fn from(_tag: RenderTag) -> TagKind {
        TagKind::Render
    }
}
