//! The filter that chooses between a singular and a plural.
ghost use Rattle.std.specs.Prelude.{nat_eq};
ghost use Rattle.liquid_filters.specs.Pluralize.{pluralize_answer};

use liquid_model::{Filter, Result, Value, invalid_input};
use std::alloc::Global;

/// `pluralize`: the first argument where the input's whole number is 1, else the second.
#[derive(Clone, Copy, Drop)]
pub struct Pluralize;

impl Filter for Pluralize {
    ghost counts = { λ _ n. nat_eq n 2 };

    ghost answer = { λ _. pluralize_answer };

    fn accepts(&self, count: usize) -> bool {
        count == 2
    }

    /// `InvalidInput` where the input has no whole number.
    fn evaluate(&self, alloc: Global, input: &Value, args: &[Value]) -> Result<Value> {
        match input.to_integer() {
            Some(1) => args[0].copy(alloc),
            Some(_) => args[1].copy(alloc),
            None => Err(invalid_input(alloc, "a whole number", input)),
        }
    }
}
