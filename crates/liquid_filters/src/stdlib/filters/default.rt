//! The filter that stands in for a missing value.
ghost use Rattle.std.specs.Prelude.{nat_eq};
ghost use Rattle.liquid_filters.specs.Default.{default_answer};

use liquid_model::{Filter, Result, Value};
use std::alloc::Global;

/// `default`: the argument for nil, false and the empty text, list and map, else the input.
#[derive(Clone, Copy, Drop)]
pub struct Default;

impl Filter for Default {
    ghost counts = { λ _ n. nat_eq n 1 };

    ghost answer = { λ _. default_answer };

    fn accepts(&self, count: usize) -> bool {
        count == 1
    }

    fn evaluate(&self, alloc: Global, input: &Value, args: &[Value]) -> Result<Value> {
        if input.is_default() {
            args[0].copy(alloc)
        } else {
            input.copy(alloc)
        }
    }
}
