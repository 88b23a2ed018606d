//! Laws of sites: each clause is a law, and the body does nothing.

ghost use Rattle.liquid_site.specs.Steps.{UntouchedPages, KeptIsFromScratch, PagesKept};

/// A value under a name that neither a page's template nor a partial mentions changes nothing of
/// that page. So rendering again what each change touches gives, after any list of changes, what
/// rendering all pages from scratch gives.
pub fn site_laws()
    ensures untouched { UntouchedPages }
    ensures step { KeptIsFromScratch }
    ensures kept { PagesKept }
{}
