//! Every fault of a template's source, and not the first alone; all that is said of a template, in
//! the order of its places; and the command `check`, which says it of files.
#![tactic(auto)]

mod command;
mod faulty_piece;
mod file_id;
mod files;
mod findings;
mod left_over;
mod paths;
mod print;
mod remarks;
mod warned_page;

pub use command::{FaultTips, check, written_for};
pub use findings::{Finding, Findings, MOST_FINDINGS, findings_of};
pub use liquid_warnings::else_items;
pub use remarks::remarks_of;
pub use warned_page::{MOST_SILENT, ReadTemplate, WarnedPage, render_warned_page, silent_of};
