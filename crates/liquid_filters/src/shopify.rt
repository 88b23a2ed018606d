//! The filter set of Shopify.
mod pluralize;

pub use pluralize::Pluralize;
