//! The part of YAML that is read: data, and the front matter that stands before a text.
#![tactic(auto)]

mod block;
mod fault;
mod flow;
mod flow_parts;
mod laws;
mod line;
mod place;
mod places;
mod quoting;
mod reading;
mod scan;
mod value;
mod words;

pub use laws::front_matter_laws;
pub use liquid_model::{Error, ErrorKind, Object, Result, Value};
pub use reading::{FrontMatter, data_from_yaml, front_matter, value_from_yaml};
