//! What filters read their arguments by.
ghost use Rattle.std.specs.Prelude.{map, string_bytes};
ghost use Rattle.std.specs.Cow.{cow_str_bytes};
ghost use Rattle.std.specs.Char.{to_ascii_lowercase};
ghost use Rattle.liquid_model.specs.Answer.{Answers, IsValueOrMemory, TakesNoMemory};
ghost use Rattle.liquid_model.specs.Data.{text_of};
ghost use Rattle.liquid_model.specs.View.{view};
ghost use Rattle.liquid_model.specs.Arguments.{whole_or_fault};

use crate::fault::invalid_argument;
use crate::{Result, Value};
use std::alloc::Global;
use std::borrow::CowStr;

/// A text argument: the text of whatever value is given. `Memory` alone where it can't be made.
pub fn text_argument(alloc: Global, value: &Value) -> Result<String>
    ensures { IsValueOrMemory (λ s. string_bytes s) result (text_of (view value.now)) }
{
    value.text(alloc)
}

/// The text of a value, borrowed where the value is a text already.
pub fn text_of<'a>(alloc: Global, value: &'a Value) -> Result<CowStr<'a>>
    ensures { IsValueOrMemory cow_str_bytes result (text_of (view value.now)) }
{
    match value {
        Value::Text(text) => Ok(CowStr::Borrowed(text.as_str())),
        _ => Ok(CowStr::Owned(value.text(alloc)?)),
    }
}

/// A whole-number argument: the whole number of the value, else `InvalidArgument`. The fault alone
/// takes memory.
pub fn whole_argument(alloc: Global, value: &Value) -> Result<i64>
    ensures answer { Answers (λ n. n) result (whole_or_fault (view value.now)) }
    ensures no_memory { TakesNoMemory result (whole_or_fault (view value.now)) }
{
    match value.to_integer() {
        Some(number) => Ok(number),
        None => Err(invalid_argument(alloc, "a whole number", value)),
    }
}

/// A text with `A` to `Z` as `a` to `z`; other characters stay. `Memory` alone where it can't be
/// made.
pub fn lower_case(alloc: Global, text: &str) -> Result<String>
    ensures { IsValueOrMemory (λ s. string_bytes s) result (map to_ascii_lowercase text.now) }
{
    Ok(text.to_ascii_lowercase(alloc)?)
}
