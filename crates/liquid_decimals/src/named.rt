//! The filters over decimals by their names.
ghost use Rattle.std.specs.Prelude.{◌≡◌};
ghost use Rattle.liquid_decimals.specs.Named.{decimal_filter_among, decimal_filter_named};

use crate::filter::{DECIMAL_FILTERS, DecimalFilter};

impl DecimalFilter {
    /// The filter of this name, where there is one. It takes no memory.
    pub fn named(name: &str) -> Option<DecimalFilter>
        ensures { result ≡ decimal_filter_named name.now }
    {
        filter_among(name, &DECIMAL_FILTERS)
    }
}

/// The first of these filters that has the name.
fn filter_among(name: &str, filters: &[DecimalFilter]) -> Option<DecimalFilter>
    ensures { result ≡ decimal_filter_among name.now filters.now }
{
    for filter in filters {
        if filter.name() == name {
            return Some(*filter);
        }
    }
    None
}
