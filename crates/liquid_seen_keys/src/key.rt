//! A key of what a page can see.
ghost use Rattle.liquid_model.specs.UseViews.{uses_view};
ghost use Rattle.liquid_seen_keys.specs.Keys.{AnswersKey};

use liquid_core::{Result, Uses, Value};
use liquid_filter_sets::is_read_back;
use liquid_json::{data_for, json_of};
use std::alloc::Global;

/// What a page can see of the data that a text of JSON gives, as a text of JSON: over data of one
/// key a template of these uses writes the same page and ends alike. So it can stand for a page
/// that isn't rendered yet, as an `ETag` or in a queue that drops equal jobs; keep a digest of it
/// where it is long. Data that differ only in what `data_for` reads beyond the uses have two keys.
///
/// The text is refused as by `data_from_json`: `InvalidInput` where it is no JSON or no object,
/// `Float` where a number isn't whole or is past 64 bits. `Memory` where a growth was refused.
pub fn seen_key(alloc: Global, text: &str, uses: &Uses) -> Result<String>
    ensures key { AnswersKey (uses_view uses.now) text.now result }
{
    let seen = Value::Object(data_for(alloc, text, uses)?);
    if is_read_back(&seen) {
        json_of(alloc, &seen)
    } else {
        // Nothing that was read from a text nests too deep to be read back. The whole text is a
        // key too, and so the contract needs no depth.
        Ok(String::from_str(alloc, text)?)
    }
}
