//! Data in the form that is asked for.
ghost use Rattle.std.specs.Prelude.{option_map};
ghost use Rattle.liquid_model.specs.Answer.{Answers, IsValueOrMemory};
ghost use Rattle.liquid_model.specs.Data.{object, put};
ghost use Rattle.liquid_model.specs.View.{pairs_view, view};
ghost use Rattle.liquid_data.specs.Forms.{data_in_form, with_dates_spelled, put_all};
ghost use Rattle.liquid_data.specs.Forms.{read_data};
ghost use Rattle.liquid_data.specs.Forms.{with_now};

use crate::dates::dated;
use crate::decimals::data_with_decimals;
use crate::instant::date_spelling;
use liquid_json::data_from_json;
use liquid_model::{Object, Result, Value, store};
use std::alloc::Global;

/// How data is read.
#[derive(Clone, Copy, Drop)]
pub struct DataForm {
    /// A number that isn't whole, or is past 64 bits, is the text of its spelling, in place of a
    /// fault.
    pub decimals_as_texts: bool,
    /// Texts of ISO 8601 get the spelling of dates that the language reads.
    pub dates: bool,
}

/// The data of a text of JSON, in this form.
///
/// The text is refused where it is no JSON or no object, by `InvalidInput`, and by `Float` where a
/// number isn't whole, unless such a number is to be a text. `Memory` where a growth was refused.
pub fn data_in_form(alloc: Global, text: &str, form: DataForm) -> Result<Object>
    ensures { Answers (λ m. pairs_view m.entries) result (data_in_form form text.now) }
{
    let data = read_data(alloc, text, form)?;
    in_form(alloc, data, form)
}

/// Data that was read, with its dates in the language's spelling where that is asked for. The
/// answer is `Memory` where a growth was refused, and no other kind.
pub fn in_form(alloc: Global, data: Object, form: DataForm) -> Result<Object>
    ensures { IsValueOrMemory (λ m. pairs_view m.entries) result
        (with_dates_spelled form.dates (pairs_view «data».entries)) }
{
    if form.dates {
        dated(alloc, data)
    } else {
        Ok(data)
    }
}

fn read_data(alloc: Global, text: &str, form: DataForm) -> Result<Object>
    ensures { Answers (λ m. pairs_view m.entries) result
        (read_data form.decimals_as_texts text.now) }
{
    if form.decimals_as_texts {
        data_with_decimals(alloc, text)
    } else {
        data_from_json(alloc, text)
    }
}

/// The data with other data under a name, in place of what stands there. The answer is `Memory`
/// where a growth was refused, and no other kind.
pub fn with_named(alloc: Global, data: Object, name: &str, members: Object) -> Result<Object>
    ensures { IsValueOrMemory (λ m. pairs_view m.entries) result
        (put name.now (object (pairs_view members.entries)) (pairs_view «data».entries)) }
{
    with_value(alloc, data, name, Value::Object(members))
}

/// The data with a value under a name, in place of what stands there. The answer is `Memory` where
/// a growth was refused, and no other kind.
pub fn with_value(alloc: Global, data: Object, name: &str, value: Value) -> Result<Object>
    ensures { IsValueOrMemory (λ m. pairs_view m.entries) result
        (put name.now (view value) (pairs_view «data».entries)) }
{
    let mut data = data;
    store(&mut data, String::from_str(alloc, name)?, value)?;
    Ok(data)
}

/// The data with each of these members, in place of what stands under the member's name. The answer
/// is `Memory` where a growth was refused, and no other kind.
pub fn with_members(data: Object, members: Object) -> Result<Object>
    ensures { IsValueOrMemory (λ m. pairs_view m.entries) result
        (put_all (pairs_view members.entries) (pairs_view «data».entries)) }
{
    let mut all = data;
    for (name, value) in members {
        store(&mut all, name, value)?;
    }
    Ok(all)
}

/// The data with a day or an instant of ISO 8601 under the name `now`, in the spelling that the
/// filter `date` reads, in place of what stands there. None where the text is no such day or
/// instant. The answer is `Memory` where a growth was refused, and no other kind.
pub fn with_now(alloc: Global, data: Object, now: &str) -> Result<Option<Object>>
    ensures { IsValueOrMemory (λ o. option_map (λ m. pairs_view m.entries) o) result
        (with_now now.now (pairs_view «data».entries)) }
{
    let Some(instant) = date_spelling(alloc, now)? else {
        return Ok(None);
    };
    let mut data = data;
    store(
        &mut data,
        String::from_str(alloc, "now")?,
        Value::Text(instant),
    )?;
    Ok(Some(data))
}
