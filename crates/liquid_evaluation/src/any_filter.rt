//! The filters by which a stored chain is run.
use liquid_core::{Filter, NamedFilters, Result, Value};
use liquid_filters::FilterKind;
use std::alloc::Global;

/// A filter by which a stored chain is run.
///
/// A chain asks of it what it asks of any `Filter`, and no more.
#[derive(Drop)]
pub enum AnyFilter<'h, H> {
    /// One of the filters that exist.
    Kind(FilterKind),
    /// A filter of the host: its name, and the filters of the host. It takes any number of
    /// arguments, and is `Unsupported` where none of the name takes the number that it is given.
    Host(&'h str, &'h H),
}

impl<H: NamedFilters> Filter for AnyFilter<'_, H> {
    ghost use Rattle.liquid_evaluation.specs.AnyFilters.{any_answer, any_counts};

    ghost counts = { any_counts };

    ghost answer = { any_answer H.named };

    fn accepts(&self, count: usize) -> bool {
        match self {
            AnyFilter::Kind(kind) => kind.accepts(count),
            AnyFilter::Host(_, _) => true,
        }
    }

    fn evaluate(&self, alloc: Global, input: &Value, args: &[Value]) -> Result<Value> {
        match self {
            AnyFilter::Kind(kind) => kind.evaluate(alloc, input, args),
            AnyFilter::Host(name, filters) => filters.call_named(alloc, name, input, args),
        }
    }
}
