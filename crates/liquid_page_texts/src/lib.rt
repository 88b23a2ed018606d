//! Pages from texts: a page of its template, its data in JSON and its partials.
#![tactic(auto)]

mod laws;
mod page_from_texts;

pub use laws::page_law;
pub use liquid_json::data_from_json;
pub use page_from_texts::{run, run_without_cleanup};
