//! Filters that need no table.
ghost use Rattle.std.specs.Prelude.{◌≡◌};
ghost use Rattle.liquid_model.specs.ErrorKinds.{IsKindOrMemory};
ghost use Rattle.liquid_model.specs.declared.error.ErrorKind.TheVariants.{Unsupported};
ghost use Rattle.liquid_answers.specs.Own.{highlight_name, own_answers};

use liquid_core::{Error, ErrorKind, NamedFilters, Result, Value};
use liquid_jekyll_host_filters::Highlight;
use liquid_model::Filter;
use std::alloc::Global;

/// The name of the filter of Jekyll's block `highlight`. It is no word, so that a template calls it
/// by the block alone.
pub fn highlight_name() -> &'static str
    ensures { result.now ≡ highlight_name }
{
    "{% highlight %}"
}

/// Jekyll's `highlight`, by its name. It is given the markup of the block as its argument. A call
/// of any other name, or with other arguments, is `Unsupported`.
#[derive(Clone, Copy, Drop)]
pub struct OwnFilters;

impl NamedFilters for OwnFilters {
    ghost named = { λ _. own_answers };

    fn call_named(
        &self,
        alloc: Global,
        name: &str,
        input: &Value,
        args: &[Value],
    ) -> Result<Value> {
        if name == highlight_name() && args.len() == 1 {
            return Highlight.evaluate(alloc, input, args);
        }
        Err(unsupported(alloc))
    }
}

/// The fault of a call of a filter that no table has.
fn unsupported(alloc: Global) -> Error
    ensures { IsKindOrMemory Unsupported result.kind }
{
    Error::new(
        alloc,
        ErrorKind::Unsupported,
        "the table of answers has no filter of this name",
    )
}
