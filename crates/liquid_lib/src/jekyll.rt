//! The tags and filters of Jekyll.

pub use liquid_filters::jekyll::{ArrayToSentenceString, Pop, Push, Shift, Slugify, Sort, Unshift};
pub use liquid_language::jekyll::IncludeTag;
