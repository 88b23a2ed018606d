//! Filters by what they work on.
pub mod array;
pub mod date;
pub mod default;
pub mod html;
pub mod math;
mod replaced;
pub mod size;
pub mod slice;
pub mod string;
pub mod url;
