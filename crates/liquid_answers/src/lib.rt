//! Filters of a host that answers between runs. Their answers stand in a table; where a run needs
//! one that the table lacks, there is no page, and the missing calls are listed. Jekyll's
//! `highlight` needs no table, nor do the filters of the table's sets.
#![tactic(auto)]

mod answered_page;
mod answers;
mod filter;
mod lacking;
mod missing_calls;
mod own;
mod sets;
mod site;

pub use answered_page::{Answered, render_page_answered};
pub use answers::{Answer, Answers};
pub use lacking::Lacking;
pub use own::{OwnFilters, highlight_name};
