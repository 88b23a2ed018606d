//! The filters that a stored chain names.
ghost use Rattle.std.specs.Prelude.{◌≡◌};
ghost use Rattle.liquid_evaluation.specs.StoredFilters.{stored_name};

use liquid_filters::FilterKind;

/// What the name of a filter was registered as when a chain was read.
pub enum StoredFilter {
    /// One of the filters that exist.
    Kind(FilterKind),
    /// A filter of the host, by its name.
    Host(String),
}

/// Drops what it holds. Written by hand, so that each early return drops the value by one call
/// to prove.
impl Drop for StoredFilter {
    fn drop(self) {
        match self {
            StoredFilter::Kind(_) => {}
            StoredFilter::Host(_) => {}
        }
    }
}

impl StoredFilter {
    /// The name of the filter, which its faults name.
    pub fn name(&self) -> &str
        ensures { result.now ≡ stored_name self.now }
    {
        match self {
            StoredFilter::Kind(kind) => kind.name(),
            StoredFilter::Host(name) => name.as_str(),
        }
    }
}
