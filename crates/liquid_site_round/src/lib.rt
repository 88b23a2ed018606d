//! Rounds of a site: what is built takes its place, and what isn't built any more is taken away.
#![tactic(auto)]

mod list;
mod place;
mod writing;

pub use list::{WrittenNames, names_listed};
pub use place::{BuiltFile, BuiltFiles, Places};
pub use writing::{SiteStop, write_site};
