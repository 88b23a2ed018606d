//! What is proved of all pages.
ghost use Rattle.liquid_page_texts.specs.PageLaw.{KindsOfPages};

/// A page that ends by a fault ends by a kind of a run or of a source: `Memory` and `Write` are no
/// end of a page.
pub fn page_law()
    ensures { KindsOfPages }
{}
