//! The filter set of Jekyll.
mod array;
mod slugify;

pub use array::ends::{Pop, Push, Shift, Unshift};
pub use array::sentence::ArrayToSentenceString;
pub use array::sort::Sort;
pub use slugify::Slugify;
