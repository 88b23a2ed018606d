//! The names that a template mentions.
ghost use Rattle.std.specs.Prelude.{◌≡◌, IfErr, IfOk, map, option_map, string_bytes};
ghost use Rattle.std.specs.BTreeSet.{keys};
ghost use Rattle.liquid_model.specs.Answer.{IsValueOrMemory};
ghost use Rattle.liquid_model.specs.Data.{array, text};
ghost use Rattle.liquid_model.specs.View.{items_of, view};
ghost use Rattle.liquid_syntax.specs.Templates.{partials_of, tree_of};
ghost use Rattle.liquid_c.specs.Named.{AreNames, IsNames, OfPartials};
ghost use Rattle.liquid_c.specs.ResultStored.{ResultStored};
ghost use Rattle.liquid_c.specs.Shared.{shared_content};

use crate::content::Content;
use crate::handle::Handle;
use crate::handle_content::held_content;
use crate::refusal::{Refusal, store_result};
use crate::render::partials_held;
use liquid_core::{ErrorKind, Result as Answer, Value};
use liquid_json::json_of;
use liquid_syntax::{Partials, Template};
use std::alloc::Global;
use std::collections::BTreeSet;

/// Makes the names that a template and the partials mention: a text of JSON, which is a list of
/// texts, ascending and each once. 0, or `Memory`.
#[unsafe(no_mangle)]
pub extern "C" fn bikleinu_names(
    alloc: Global,
    template: &mut Handle,
    partials: &mut Handle,
    made: &mut Handle,
) -> u32
    ensures named { ResultStored (IsNames (shared_content template.old.held)
        (shared_content partials.old.held)) result
        made.new.held }
    ensures template { template.new.held ≡ template.old.held }
    ensures partials { partials.new.held ≡ partials.old.held }
{
    let held_template = template.take(alloc);
    let held_partials = partials.take(alloc);
    let answer = names(
        alloc,
        held_content(&held_template),
        held_content(&held_partials),
    );
    template.put(alloc, held_template);
    partials.put(alloc, held_partials);
    store_result(alloc, answer, made)
}

fn names(
    alloc: Global,
    template: Option<&Content>,
    partials: Option<&Content>,
) -> Result<Content, Refusal>
    ensures { IsNames (option_map (λ h. h.now) template.entry)
        (option_map (λ h. h.now) partials.entry) result }
{
    let Some(Content::Template(template, _)) = template else {
        return Err(Refusal::OtherHandle);
    };
    let none = Partials::new(alloc);
    named(alloc, template, partials_held(partials, &none))
}

fn named(
    alloc: Global,
    template: &Template,
    partials: Option<&Partials>,
) -> Result<Content, Refusal>
    ensures { OfPartials (option_map (λ p. partials_of p.now) partials.entry)
        (tree_of template.now) result }
{
    let Some(partials) = partials else {
        return Err(Refusal::OtherHandle);
    };
    match names_text(alloc, template, partials) {
        Ok(text) => Ok(Content::Names(text)),
        Err(fault) => Ok(Content::Fault(fault)),
    }
}

fn names_text(alloc: Global, template: &Template, partials: &Partials) -> Answer<String>
    ensures names { IfOk result (λ it. AreNames (partials_of partials.now) (tree_of template.now)
        (string_bytes it)) }
    ensures memory { IfErr result (λ e. e.kind ≡ ErrorKind.Memory) }
{
    let names = template.names(alloc, partials)?;
    let list = list_of(alloc, &names)?;
    json_of(alloc, &list)
}

/// Names or paths as a list of texts.
pub(crate) fn list_of(alloc: Global, names: &BTreeSet<String>) -> Answer<Value>
    ensures { IsValueOrMemory view result
        (array (items_of (map (λ n. text (string_bytes n)) (keys names.now)))) }
{
    let mut items = Vec::new(alloc);
    for name in names.iter() {
        items.push(Value::Text(String::from_str(alloc, name.as_str())?))?;
    }
    Ok(Value::Array(items))
}
