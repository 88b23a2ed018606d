//! Filters over lists.
pub mod ends;
pub mod join;
pub mod reverse_and_concat;
pub mod selection;
pub mod sequence;
pub mod sort;
