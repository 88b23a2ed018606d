//! The extra set of filters.
mod date;

pub use date::DateInTz;
