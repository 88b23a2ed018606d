//! The names of partials that stand in a template.
ghost use Rattle.std.specs.Prelude.{◌≡◌, IfErr, IfOk, option_map, string_bytes};
ghost use Rattle.liquid_syntax.specs.Templates.{tree_of};
ghost use Rattle.liquid_c.specs.CalledNames.{IsCallsText, IsMadeOfCalls};
ghost use Rattle.liquid_c.specs.ResultStored.{ResultStored};
ghost use Rattle.liquid_c.specs.Shared.{shared_content};

use crate::content::Content;
use crate::handle::Handle;
use crate::handle_content::held_content;
use crate::named::list_of;
use crate::refusal::{Refusal, store_result};
use liquid_core::{ErrorKind, Result as Answer};
use liquid_json::json_of;
use liquid_syntax::{Template, called_names};
use std::alloc::Global;

/// Makes the names under which a template itself can look up partials: a text of JSON, which is a
/// list of texts, ascending and each once, or `null` where a place looks up a name that only its
/// run knows. 0, or `Memory`.
#[unsafe(no_mangle)]
pub extern "C" fn bikleinu_partial_names(
    alloc: Global,
    template: &mut Handle,
    made: &mut Handle,
) -> u32
    ensures made { ResultStored (IsMadeOfCalls (shared_content template.old.held)) result
        made.new.held }
    ensures template { template.new.held ≡ template.old.held }
{
    let held_template = template.take(alloc);
    let answer = partial_names(alloc, held_content(&held_template));
    template.put(alloc, held_template);
    store_result(alloc, answer, made)
}

fn partial_names(alloc: Global, template: Option<&Content>) -> Result<Content, Refusal>
    ensures { IsMadeOfCalls (option_map (λ h. h.now) template.entry) result }
{
    let Some(Content::Template(template, _)) = template else {
        return Err(Refusal::OtherHandle);
    };
    match calls_text(alloc, template) {
        Ok(text) => Ok(Content::Names(text)),
        Err(fault) => Ok(Content::Fault(fault)),
    }
}

fn calls_text(alloc: Global, template: &Template) -> Answer<String>
    ensures calls { IfOk result (λ it. IsCallsText (tree_of template.now) (string_bytes it)) }
    ensures memory { IfErr result (λ e. e.kind ≡ ErrorKind.Memory) }
{
    match called_names(alloc, template)? {
        Some(names) => {
            let list = list_of(alloc, &names)?;
            json_of(alloc, &list)
        }
        None => Ok(String::from_str(alloc, "null")?),
    }
}
