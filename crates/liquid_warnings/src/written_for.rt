//! The engines that templates are written for.
ghost use Rattle.std.specs.Prelude.{◌≡◌};
ghost use Rattle.liquid_warnings.specs.Ported.{is_for_jekyll, is_for_ruby};

/// The engine that templates are written for. What it does otherwise than this one is warned of.
#[derive(Clone, Copy, Drop)]
pub enum WrittenFor {
    /// This one.
    Bikleinu,
    /// Shopify's, which is Liquid for Ruby with other filters.
    Shopify,
    /// Jekyll, which renders by Liquid for Ruby.
    Jekyll,
}

impl WrittenFor {
    /// Whether it is Liquid for Ruby.
    pub(crate) fn is_for_ruby(self) -> bool
        ensures { result ≡ is_for_ruby self }
    {
        match self {
            WrittenFor::Bikleinu => false,
            WrittenFor::Shopify | WrittenFor::Jekyll => true,
        }
    }

    /// Whether it is Jekyll.
    pub(crate) fn is_for_jekyll(self) -> bool
        ensures { result ≡ is_for_jekyll self }
    {
        matches!(self, WrittenFor::Jekyll)
    }
}
