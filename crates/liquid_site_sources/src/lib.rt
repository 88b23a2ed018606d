//! What the files of a site are read as.
#![tactic(auto)]

mod folders;
mod forms;
mod reading;
mod take;

pub use folders::{CollectionFolder, SiteFolders};
pub use forms::site_config;
pub use reading::{ReadSite, sources_of};
pub use take::{RefusedSource, SiteFile, SourceFault};
