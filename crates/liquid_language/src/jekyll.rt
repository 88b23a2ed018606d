//! The tags of Jekyll.

mod include_tag;

pub use include_tag::IncludeTag;
