//! Sites: pages that are rendered again where something that they can see changed, and no others;
//! and a site of files: which of them changed, and what the site takes of them and writes.
#![tactic(auto)]

mod change;
mod data;
mod differing;
mod folder;
mod laws;
mod limited_site;
mod parts;
mod refresh;
mod rendering;
mod rounds;
mod selection;
mod site;
mod start;
mod take;
mod written;

pub use change::Change;
pub use folder::{Changed, Folder};
pub use laws::site_laws;
pub use limited_site::LimitedSite;
pub use liquid_core::{Error, ErrorKind, Missing, Result};
pub use liquid_engine::{LimitReached, LimitedPage, Limits, Page, RunSetting};
pub use liquid_files::{Disk, DiskFault};
pub use rounds::{RoundOutcome, round};
pub use site::Site;
pub use start::site_of;
pub use take::{RefusalReason, RefusedFile};
