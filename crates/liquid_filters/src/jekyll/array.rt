//! Filters over lists.
pub mod ends;
mod path;
pub mod sentence;
pub mod sort;
