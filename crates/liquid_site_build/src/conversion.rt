//! What the texts of documents are converted to.
ghost use Rattle.liquid_model.specs.Answer.{IsValueOrMemory};
ghost use Rattle.liquid_model.specs.Texts.{Text};
ghost use Rattle.std.specs.Prelude.{Option, Some, string_bytes};
ghost use Rattle.liquid_site_build.specs.Conversions.{conversion_view, if_known};

use liquid_core::Result;
use std::alloc::Global;

/// What a text is converted to.
#[derive(Drop)]
pub enum Conversion {
    /// This text.
    Known(String),
    /// No conversion of this text is known.
    Unknown(String),
}

/// Conversions of texts, as from Markdown to HTML.
pub trait Conversions {
    // What a text of the document at a path is converted to, where that is known.
    ghost conversion: { Self → Text → Text → Option Text };

    /// What the text of the document at this path is converted to, or `Memory` where a growth was
    /// refused.
    fn convert(&self, alloc: Global, path: &str, text: String) -> Result<Conversion>
        ensures { IsValueOrMemory conversion_view result
            (if_known (string_bytes text) (conversion self.now path.now (string_bytes text))) };
}

/// Each text is its own conversion.
#[derive(Clone, Copy, Drop)]
pub struct AsTheyAre;

impl Conversions for AsTheyAre {
    ghost conversion = { λ own path text. Some text };

    fn convert(&self, _alloc: Global, _path: &str, text: String) -> Result<Conversion> {
        Ok(Conversion::Known(text))
    }
}
