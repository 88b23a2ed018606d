//! What a run is given beside its state.
ghost use Rattle.std.specs.Prelude.{◌≡◌, IfOk};
ghost use Rattle.liquid_model.specs.Answer.{Answers};
ghost use Rattle.liquid_model.specs.ErrorKinds.{IsKindOrMemory};
ghost use Rattle.liquid_engine.specs.inside.Partials.{depth_left};

use liquid_core::{Error, ErrorKind, Result};
use liquid_syntax::{Partials, Position, Template};
use std::alloc::Global;

/// Where the nodes of a template or a partial begin, and its source, where it keeps it.
#[derive(Clone, Copy, Drop)]
pub(crate) struct Places<'g> {
    pub(crate) positions: &'g [Position],
    pub(crate) source: Option<&'g str>,
}

impl<'g> Places<'g> {
    /// Those of a template or a partial.
    pub(crate) fn of(template: &'g Template) -> Places<'g> {
        Places {
            positions: template.positions(),
            source: template.source(),
        }
    }
}

/// The partials, the filters of the host, how many nested partials there may still be, and the
/// places in the template or the partial whose nodes run.
#[derive(Drop)]
pub(crate) struct RunContext<'g, H> {
    pub(crate) partials: &'g Partials,
    pub(crate) host: &'g H,
    pub(crate) depth: u32,
    pub(crate) places: Places<'g>,
}

impl<'g, H> RunContext<'g, H> {
    /// The context for the nodes of a partial that is entered here, or `TooDeep` with no depth
    /// left.
    pub(crate) fn deeper(&self, alloc: Global, partial: &'g Template) -> Result<RunContext<'g, H>>
        ensures depth { Answers (λ c. c.depth) result (depth_left self.now.depth) }
        ensures same { IfOk result (λ c. (c.partials.now ≡ self.now.partials.now) ×
            (c.host.now ≡ self.now.host.now)) }
    {
        if self.depth == 0 {
            return Err(too_deep(alloc));
        }
        Ok(RunContext {
            partials: self.partials,
            host: self.host,
            depth: self.depth - 1,
            places: Places::of(partial),
        })
    }
}

/// The fault of a partial that is entered with no depth left.
fn too_deep(alloc: Global) -> Error
    ensures { IsKindOrMemory ErrorKind.TooDeep result.kind }
{
    Error::new(
        alloc,
        ErrorKind::TooDeep,
        "partials are nested too deep; does one of them run itself?",
    )
}
