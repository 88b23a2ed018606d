//! Data from JSON in which any number may stand.
ghost use Rattle.std.specs.Prelude.{IfOk, MatchOption, ◌≡◌, Ok, Err};
ghost use Rattle.liquid_model.specs.Answer.{Answers};
ghost use Rattle.liquid_model.specs.View.{pairs_view, view};
ghost use Rattle.liquid_model.specs.declared.error.ErrorKind.TheVariants.{InvalidInput};
ghost use Rattle.liquid_json.specs.AnyNumbers.{spelled_value};
ghost use Rattle.liquid_data.specs.Decimals.{spelled_data};

use liquid_json::{data_from_json, value_from_json, value_of_any_numbers};
use liquid_model::{Object, Result, Value};
use std::alloc::{AllocError, Global};

/// The data that a text of JSON gives, where a number that isn't whole, or is past 64 bits, is the
/// text of its spelling.
///
/// The text is refused where it is no JSON or no object, by `InvalidInput` and with the place, as
/// `data_from_json` refuses it. `Memory` where a growth was refused.
#[tactic(auto, using(crate::proofs::Alike::refused_alike))]
pub fn data_with_decimals(alloc: Global, text: &str) -> Result<Object>
    ensures { Answers (λ m. pairs_view m.entries) result (spelled_data text.now) }
{
    match object_in(alloc, text)? {
        Some(data) => Ok(data),
        None => data_from_json(alloc, text),
    }
}

/// The value that a text of JSON gives, of any kind, where a number that isn't whole, or is past 64
/// bits, is the text of its spelling.
///
/// The text is refused where it is no JSON, by `InvalidInput` and with the place, as
/// `value_from_json` refuses it. `Memory` where a growth was refused.
#[tactic(auto, using(crate::proofs::Alike::value_refused_alike))]
pub fn value_with_decimals(alloc: Global, text: &str) -> Result<Value>
    ensures { Answers view result (spelled_value text.now) }
{
    match value_of_any_numbers(alloc, text)? {
        Some(value) => Ok(value),
        None => value_from_json(alloc, text),
    }
}

/// The data, or none where the text is no object of JSON.
fn object_in(alloc: Global, text: &str) -> std::result::Result<Option<Object>, AllocError>
    ensures { IfOk result (λ o. MatchOption o (spelled_data text.now ≡ Err InvalidInput)
        (λ m. spelled_data text.now ≡ Ok (pairs_view m.entries))) }
{
    let Some(value) = value_of_any_numbers(alloc, text)? else {
        return Ok(None);
    };
    match value {
        Value::Object(data) => Ok(Some(data)),
        _ => Ok(None),
    }
}
