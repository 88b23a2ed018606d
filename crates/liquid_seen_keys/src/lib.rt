//! Keys of pages: what a page can see of its data as a text, so that a page can be known again
//! before it is rendered.
#![tactic(auto)]

mod key;
mod laws;

pub use key::seen_key;
pub use laws::key_laws;
