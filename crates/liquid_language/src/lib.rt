//! Languages: tags, blocks and filters under their names; the structs that stand for the kinds of
//! tags and blocks; and the language of the standard library.
#![tactic(auto)]

mod block;
mod host_names;
mod host_tags;
pub mod jekyll;
mod reflection;
mod registered_filter;
mod registry;
mod standard;
pub mod stdlib;
mod style;

pub use block::{
    Block, BlockContext, Control, Role, begins_with_end, body_after, end_tag, is_end, role_of,
    standard_end, verbatim_body,
};
pub use host_names::{NameRefusal, TagError};
pub use host_tags::{HostBlock, HostCall, HostKind, HostTags};
pub use liquid_lexer::Style;
pub use reflection::{BlockReflection, TagReflection};
pub use registered_filter::{FilterRegistry, RegisteredFilter};
pub use registry::{BlockKind, Language, Registry, TagKind};
pub use standard::{STANDARD_FILTERS, language};
pub use style::{markup_after, style_after, style_of};
