//! Jekyll's filters by their names.
ghost use Rattle.std.specs.Prelude.{◌≡◌};
ghost use Rattle.liquid_jekyll_host_filters.specs.Named.{filter_among, filter_named};

use crate::site_filter::{JEKYLL_FILTERS, JekyllFilter};

impl JekyllFilter {
    /// The filter of this name, where there is one. It takes no memory.
    pub fn named(name: &str) -> Option<JekyllFilter>
        ensures { result ≡ filter_named name.now }
    {
        filter_among(name, &JEKYLL_FILTERS)
    }
}

/// The first of these filters that has the name.
fn filter_among(name: &str, filters: &[JekyllFilter]) -> Option<JekyllFilter>
    ensures { result ≡ filter_among name.now filters.now }
{
    for filter in filters {
        if filter.name() == name {
            return Some(*filter);
        }
    }
    None
}
