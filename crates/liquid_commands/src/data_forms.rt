//! Data in the forms that the options ask for.
ghost use Rattle.std.specs.Prelude.{◌≡◌, IfErr, IfOk, Some, option_map};
ghost use Rattle.liquid_model.specs.Answer.{Answers, IsValueOrMemory};
ghost use Rattle.liquid_model.specs.View.{pairs_view};
ghost use Rattle.liquid_data.specs.TomlData.{toml_document_data};
ghost use Rattle.liquid_yaml.specs.Reading.{yaml_data};
ghost use Rattle.liquid_data.specs.Forms.{formed};
ghost use Rattle.liquid_commands.specs.Inputs.{with_input, data_of_file, timed};
ghost use Rattle.liquid_commands.specs.Stops.{IsTimeRefused};

use crate::stop::Stop;
use crate::{Forms, is_toml, is_yaml};
use liquid_data::{
    DataForm, data_from_toml, data_in_form, in_form, with_members, with_named, with_now,
};
use liquid_model::{Object, Result};
use liquid_yaml::data_from_yaml;
use std::alloc::Global;

/// What is said of an instant that isn't one.
const NO_INSTANT: &str =
    "--now wants a day or an instant of ISO 8601, such as 2026-11-27T04:34:00Z";

/// The form of data that the options ask for. It takes no memory.
pub fn form_of(forms: Forms<'_>) -> DataForm
    ensures decimals { result.decimals_as_texts ≡ forms.entry.decimals_as_texts }
    ensures dates { result.dates ≡ forms.entry.dates }
{
    DataForm {
        decimals_as_texts: forms.decimals_as_texts,
        dates: forms.dates,
    }
}

/// The data of the text of a file: TOML or YAML where the path ends so, and else JSON. What begins
/// with a brace is no YAML, but JSON. The answer is `Memory` where a growth was refused.
pub fn data_of_file(alloc: Global, path: &str, text: &str, form: DataForm) -> Result<Object>
    ensures { Answers (λ m. pairs_view m.entries) result (data_of_file path.now form text.now) }
{
    if is_toml(path) {
        toml_in_form(alloc, text, form)
    } else if is_yaml(path) && !matches!(text.as_bytes(), [b'{', ..]) {
        yaml_in_form(alloc, text, form)
    } else {
        data_in_form(alloc, text, form)
    }
}

fn toml_in_form(alloc: Global, text: &str, form: DataForm) -> Result<Object>
    ensures { Answers (λ m. pairs_view m.entries) result
        (formed form.dates (toml_document_data text.now)) }
{
    let data = data_from_toml(alloc, text)?;
    in_form(alloc, data, form)
}

fn yaml_in_form(alloc: Global, text: &str, form: DataForm) -> Result<Object>
    ensures { Answers (λ m. pairs_view m.entries) result (formed form.dates (yaml_data text.now)) }
{
    let data = data_from_yaml(alloc, text)?;
    in_form(alloc, data, form)
}

/// The data with more: under a name where there is one, and else its members, each in place of what
/// stands there. The answer is `Memory` where a growth was refused, and no other kind.
pub fn added(alloc: Global, data: Object, name: Option<&str>, more: Object) -> Result<Object>
    ensures { IsValueOrMemory (λ m. pairs_view m.entries) result
        (with_input (option_map (λ n. n.now) name.entry) (pairs_view more.entries)
        (pairs_view «data».entries)) }
{
    match name {
        Some(name) => with_named(alloc, data, name, more),
        None => with_members(data, more),
    }
}

/// The data with the name `now`, where a time is given, in place of a member of that name.
pub fn with_time(
    alloc: Global,
    data: Object,
    now: Option<&str>,
) -> std::result::Result<Object, Stop>
    ensures timed { IfOk result (λ m. Some (pairs_view m.entries)
        ≡ timed (option_map (λ n. n.now) now.entry) (pairs_view «data».entries)) }
    ensures refused { IfErr result (IsTimeRefused
        (timed (option_map (λ n. n.now) now.entry) (pairs_view «data».entries))) }
{
    let Some(now) = now else {
        return Ok(data);
    };
    match with_now(alloc, data, now)? {
        Some(data) => Ok(data),
        None => Err(Stop::Usage(NO_INSTANT)),
    }
}
