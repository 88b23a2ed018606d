//! Laws of pages.
ghost use Rattle.liquid_engine.specs.LenientPages.{LenientHostedPages, LenientPages};
ghost use Rattle.liquid_engine.specs.LenientPages.{NoneUnknownIn};

/// The laws of pages over missing values: the page where a missing value is nil is the strict one;
/// or that ends by `UnknownVariable`, `UnexpectedValue` or `InvalidInput`, and the page begins with
/// its text. It never ends by `UnknownVariable`, unless a filter answers that.
pub fn page_laws()
    ensures pages { LenientPages }
    ensures hosted { LenientHostedPages }
    ensures known { NoneUnknownIn }
{}
