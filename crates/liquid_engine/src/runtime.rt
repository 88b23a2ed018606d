//! What a template is run in: the types.
ghost use Rattle.std.specs.Prelude.{◌≡◌, length};
ghost use Rattle.liquid_core.specs.States.{loops_of};

use liquid_core::{HostFilters, Object, State};
use liquid_syntax::Partials;

/// How many partials may be nested in a runtime whose builder sets no depth.
pub const DEFAULT_DEPTH: u32 = 32;

/// Makes a runtime.
#[derive(Drop)]
pub struct RuntimeBuilder<'p> {
    pub(crate) globals: Object,
    pub(crate) partials: Option<&'p Partials>,
    pub(crate) host: Option<&'p HostFilters>,
    pub(crate) depth: u32,
}

/// The names and registers that templates read and change, with the host's filters, the partials
/// and how many of them may be nested.
///
/// It can be used again after any fault.
#[derive(Drop)]
pub struct Runtime<'p> {
    pub(crate) state: State<'p>,
    pub(crate) partials: Option<&'p Partials>,
    pub(crate) host: Option<&'p HostFilters>,
    pub(crate) depth: u32,
    ghost plain: { length (loops_of state) ≡ 0 },
}
