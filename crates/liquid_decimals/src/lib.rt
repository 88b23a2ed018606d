//! Exact decimals, as `19.99`, and the filters that compute with them, for a host to add.
#![tactic(auto)]

mod arithmetic;
mod bounds;
mod decimal;
mod filter;
mod groups;
pub mod laws;
mod named;
mod reading;
mod sums;
mod writing;

pub use filter::{DECIMAL_FILTERS, DecimalFilter};
pub use groups::push_grouped;
