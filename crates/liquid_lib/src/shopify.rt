//! The filters of Shopify.

pub use liquid_filters::shopify::Pluralize;
