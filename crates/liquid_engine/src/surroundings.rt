//! What a template is rendered with beside its data.
use crate::limits::Limits;
use liquid_core::Missing;
use liquid_syntax::Partials;

/// What a template is rendered with beside its data and the filters of a host.
#[derive(Clone, Copy, Drop)]
pub struct Surroundings<'p> {
    /// The partials.
    pub partials: &'p Partials,
    /// How many partials may be nested.
    pub depth: u32,
    /// What becomes of a missing value.
    pub missing: Missing,
    /// What the run may take.
    pub limits: Limits,
}
