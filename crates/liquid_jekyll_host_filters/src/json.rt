//! The filter that prints a value as JSON.
ghost use Rattle.std.specs.Prelude.{nat_eq};
ghost use Rattle.liquid_jekyll_host_filters.specs.Json.{jsonify_answer};

use liquid_json::json_for_scripts;
use liquid_model::{Filter, Result, Value};
use std::alloc::Global;

/// `jsonify`: the input as JSON without spaces, the keys of a map in the order of their bytes, with
/// `\u003c`, `\u003e` and `\u0026` for `<`, `>` and `&`, so that it can stand in a `<script>`.
#[derive(Clone, Copy, Drop)]
pub struct Jsonify;

impl Filter for Jsonify {
    ghost counts = { λ _ n. nat_eq n 0 };

    ghost answer = { λ _. jsonify_answer };

    fn accepts(&self, count: usize) -> bool {
        count == 0
    }

    fn evaluate(&self, alloc: Global, input: &Value, _args: &[Value]) -> Result<Value> {
        Ok(Value::Text(json_for_scripts(alloc, input)?))
    }
}
