//! Pages of records: one template over many records, each page beside shared data, and the files
//! that the pages go to.
#![tactic(auto)]

mod data;
mod file_name;
mod job;
mod laws;
mod merge;
mod messages;

pub use file_name::is_file_name;
pub use job::{Job, Made, RecordResult, Why};
pub use laws::merge_laws;
pub use liquid_files::{Disk, DiskFault};
pub use merge::{Failure, Fate, Merge};
