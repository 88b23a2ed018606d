//! The extra set of filters.

pub use liquid_filters::extra::DateInTz;
