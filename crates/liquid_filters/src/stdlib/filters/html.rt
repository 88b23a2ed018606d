//! Filters over HTML.
pub mod escape;
pub mod line_break;
mod marks;
pub mod tags;
