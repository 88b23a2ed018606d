//! Tags without a body.

mod assign_tag;
mod cycle_tag;
mod include_tag;
mod increment_tags;
mod interrupt_tags;
mod render_tag;

pub use assign_tag::AssignTag;
pub use cycle_tag::CycleTag;
pub use include_tag::IncludeTag;
pub use increment_tags::{DecrementTag, IncrementTag};
pub use interrupt_tags::{BreakTag, ContinueTag};
pub use render_tag::RenderTag;
