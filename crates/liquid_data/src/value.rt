//! One value in the form that is asked for.
ghost use Rattle.liquid_model.specs.Answer.{Answers, IsValueOrMemory};
ghost use Rattle.liquid_model.specs.View.{view};
ghost use Rattle.liquid_data.specs.Forms.{datum_in_form, read_value, text_in_form};
ghost use Rattle.liquid_data.specs.Forms.{value_in_form};

use crate::dates::dated_value;
use crate::decimals::value_with_decimals;
use crate::forms::DataForm;
use liquid_json::value_from_json;
use liquid_model::{Result, Value};
use std::alloc::Global;

/// The value of a text of JSON, of any kind, in this form.
///
/// The text is refused where it is no JSON, by `InvalidInput`, and by `Float` where a number isn't
/// whole, unless such a number is to be a text. `Memory` where a growth was refused.
pub fn value_in_form(alloc: Global, text: &str, form: DataForm) -> Result<Value>
    ensures { Answers view result (value_in_form form text.now) }
{
    let value = read_value(alloc, text, form)?;
    in_dates(alloc, value, form)
}

/// A text as a value, in the language's spelling where it is a date and that is asked for. The
/// answer is `Memory` where a growth was refused, and no other kind.
pub fn text_in_form(alloc: Global, text: &str, form: DataForm) -> Result<Value>
    ensures { IsValueOrMemory view result (text_in_form form text.now) }
{
    let value = Value::Text(String::from_str(alloc, text)?);
    in_dates(alloc, value, form)
}

fn in_dates(alloc: Global, value: Value, form: DataForm) -> Result<Value>
    ensures { IsValueOrMemory view result (datum_in_form form.dates (view value)) }
{
    if form.dates {
        dated_value(alloc, value)
    } else {
        Ok(value)
    }
}

fn read_value(alloc: Global, text: &str, form: DataForm) -> Result<Value>
    ensures { Answers view result (read_value form.decimals_as_texts text.now) }
{
    if form.decimals_as_texts {
        value_with_decimals(alloc, text)
    } else {
        value_from_json(alloc, text)
    }
}
