//! The data of a file, as far as a template uses it.
ghost use Rattle.std.specs.Prelude.{◌≡◌, None, Some, option_map};
ghost use Rattle.std.specs.List.Sorted.{IsStrictlySortedBy};
ghost use Rattle.std.specs.Map.{keys_of};
ghost use Rattle.std.specs.String.{string_cmp};
ghost use Rattle.liquid_model.specs.UseViews.{uses_view};
ghost use Rattle.liquid_model.specs.View.{pairs_view};
ghost use Rattle.liquid_json.specs.Json.{data_of};
ghost use Rattle.liquid_commands.specs.Inputs.{data_of_file};
ghost use Rattle.liquid_commands.specs.Seen.{AnswersInput};

use crate::data_forms::data_of_file;
use crate::{DataFile, is_toml, is_yaml};
use liquid_data::DataForm;
use liquid_json::{data_for, map_for};
use liquid_model::{Object, Result, Use, Uses, member_of};
use std::alloc::Global;

/// The data of the text of a file, as far as these uses ask for it where the file stands among
/// others: in place of the whole, with what stands before and after it, it gives data that are
/// alike in all that is asked. TOML and YAML are whole, and so is what a form other than the plain
/// one asks for.
///
/// The text is refused exactly where `data_of_file` refuses it, by the same kind of fault. `Memory`
/// where a growth was refused.
#[tactic(auto, using(crate::proofs::Standing::plain_form, crate::proofs::Standing::whole_input))]
pub fn input_for(
    alloc: Global,
    file: &DataFile<'_>,
    text: &str,
    form: DataForm,
    uses: &Uses,
) -> Result<Object>
    ensures { AnswersInput (λ m. pairs_view m.entries) (uses_view uses.now)
        (option_map (λ n. n.now) file.now.name) result
        (data_of_file file.now.path.now form text.now) }
{
    if is_toml(file.path) || is_yaml(file.path) || form.decimals_as_texts || form.dates {
        return data_of_file(alloc, file.path, text, form);
    }
    match file.name {
        Some(name) => named_for(alloc, text, name, uses),
        None => members_for(alloc, text, uses),
    }
}

/// The data of a text of JSON that stands under a name.
fn named_for(alloc: Global, text: &str, name: &str, uses: &Uses) -> Result<Object>
    ensures { AnswersInput (λ m. pairs_view m.entries) (uses_view uses.now) (Some name.now) result
        (data_of text.now) }
{
    match member_of(uses, name) {
        Some(asked) => map_for(alloc, text, asked),
        None => map_for(alloc, text, &Use::Nothing),
    }
}

/// The data of a text of JSON of which each member stands under its name.
fn members_for(alloc: Global, text: &str, uses: &Uses) -> Result<Object>
    ensures { AnswersInput (λ m. pairs_view m.entries) (uses_view uses.now) None result
        (data_of text.now) }
{
    match data_for(alloc, text, uses) {
        Ok(data) => Ok(in_order(data)),
        Err(fault) => Err(fault),
    }
}

/// The same data. Each name stands there once, as the length of a map says.
fn in_order(data: Object) -> Object
    ensures same { result ≡ «data» }
    ensures ordered { IsStrictlySortedBy string_cmp (keys_of result.entries) }
{
    let _ = data.len();
    data
}
