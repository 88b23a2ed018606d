//! Reading and running templates.
//!
//! What a caller needs is here, also where a lower crate has it: `parse` with its language,
//! templates and partials, values and faults, and the filters in [stdlib], [jekyll], [shopify] and
//! [extra].
#![tactic(auto)]

pub mod extra;
pub mod jekyll;
pub mod shopify;
mod source;
pub mod stdlib;

pub use liquid_core::{
    Error, ErrorKind, Expression, Filter, HostFilters, Location, Missing, NamedFilters, Object,
    Origin, Result, State, Value, ValueCow, Variable,
};
pub use liquid_engine::{
    Counted, CountedWrite, DEFAULT_DEPTH, LimitReached, Limited, LimitedPage, Limits, Page,
    Renderable, RunSetting, Runtime, RuntimeBuilder, Surroundings, page_laws, render_hosted_page,
    render_page, render_page_by, render_page_within,
};
pub use liquid_filters::FilterKind;
pub use liquid_language::{
    BlockReflection, HostBlock, HostCall, HostKind, Language, NameRefusal, STANDARD_FILTERS, Style,
    TagError, TagReflection, language,
};
pub use liquid_meaning::{
    isolation_laws, loop_laws, missing_laws, partial_laws, reading_laws, run_laws, worked_names,
    worked_runs, worked_uses,
};
pub use liquid_parser::{parse, parse_with_source};
pub use liquid_syntax::{Partials, Reach, Template};
pub use source::render_source;
