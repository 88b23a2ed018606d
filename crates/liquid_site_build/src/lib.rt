//! Sites with layouts: what their sources are built to, and which documents a change touches.
#![tactic(auto)]

mod address;
mod build;
mod chain;
mod conversion;
mod laws;
mod outcome;
mod place;
mod run;
mod site_data;
mod sources;

pub use address::{address_of, document_file};
pub use build::built_outcomes;
pub use conversion::{AsTheyAre, Conversion, Conversions};
pub use laws::build_laws;
pub use liquid_core::{Error, ErrorKind, Missing, NamedFilters, Object, Result};
pub use liquid_engine::RunSetting;
pub use liquid_syntax::{Partials, Template};
pub use outcome::{DocumentOutcome, Made, PageFault, PageOutcome, SiteOutput};
pub use place::placed_outputs;
pub use sources::{SiteSources, SiteText, SiteTexts};
