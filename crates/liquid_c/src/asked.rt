//! What a template asks of its data.
ghost use Rattle.std.specs.Prelude.{◌≡◌, IfErr, IfOk, List, Ok, option_map, string_bytes};
ghost use Rattle.liquid_model.specs.Texts.{Text};
ghost use Rattle.liquid_evaluation.specs.Tree.{Nodes};
ghost use Rattle.liquid_syntax.specs.Templates.{partials_of, tree_of};
ghost use Rattle.liquid_c.specs.Asked.{ArePaths, IsAsking, PathsOver, TellsPaths};
ghost use Rattle.liquid_c.specs.ResultStored.{ResultStored};
ghost use Rattle.liquid_c.specs.Served.{Covers};
ghost use Rattle.liquid_c.specs.Shared.{shared_content};

use crate::content::Content;
use crate::handle::Handle;
use crate::handle_content::held_content;
use crate::named::list_of;
use crate::refusal::{Refusal, store_result};
use crate::render::partials_held;
use crate::served::asked_uses;
use liquid_core::{Error, ErrorKind, Result as Answer, Uses};
use liquid_json::json_of;
use liquid_syntax::{Partials, Template};
use liquid_uses::paths_of;
use std::alloc::{AllocError, Global};
use std::sync::Arc;

/// Finds what a template and the partials ask of data, as paths: a text of JSON, which is a list of
/// texts, ascending and each once. 0, or `Memory`.
#[unsafe(no_mangle)]
pub extern "C" fn bikleinu_paths(
    alloc: Global,
    template: &mut Handle,
    partials: &mut Handle,
    made: &mut Handle,
) -> u32
    ensures asked { ResultStored (IsAsking (shared_content template.old.held)
        (shared_content partials.old.held)) result
        made.new.held }
    ensures template { template.new.held ≡ template.old.held }
    ensures partials { partials.new.held ≡ partials.old.held }
{
    let held_template = template.take(alloc);
    let held_partials = partials.take(alloc);
    let answer = paths_result(
        alloc,
        held_content(&held_template),
        held_content(&held_partials),
    );
    template.put(alloc, held_template);
    partials.put(alloc, held_partials);
    store_result(alloc, answer, made)
}

fn paths_result(
    alloc: Global,
    template: Option<&Content>,
    partials: Option<&Content>,
) -> Result<Content, Refusal>
    ensures { IsAsking (option_map (λ c. c.now) template.entry)
        (option_map (λ c. c.now) partials.entry) result }
{
    let Some(Content::Template(template, _)) = template else {
        return Err(Refusal::OtherHandle);
    };
    let none = Partials::new(alloc);
    paths_result_over(alloc, template, partials_held(partials, &none))
}

fn paths_result_over(
    alloc: Global,
    template: &Template,
    partials: Option<&Partials>,
) -> Result<Content, Refusal>
    ensures { PathsOver (option_map (λ p. partials_of p.now) partials.entry)
        (tree_of template.now) result }
{
    let Some(partials) = partials else {
        return Err(Refusal::OtherHandle);
    };
    match asked_uses(alloc, template, partials) {
        Ok(uses) => Ok(paths_content(alloc, uses)),
        Err(fault) => Ok(Content::Fault(fault)),
    }
}

/// The uses with their paths.
fn paths_content(alloc: Global, uses: Uses) -> Content
    ensures { (partials : List (Text × Nodes)) (nodes : Nodes) → Covers partials nodes uses →
        TellsPaths partials nodes (Ok result) }
{
    match text_of(alloc, &uses) {
        Ok(text) => match Arc::new(alloc, uses) {
            Ok(uses) => Content::Paths(uses, text),
            Err(_) => Content::Fault(Error::from(AllocError)),
        },
        Err(fault) => Content::Fault(fault),
    }
}

fn text_of(alloc: Global, uses: &Uses) -> Answer<String>
    ensures paths { IfOk result (λ it. ArePaths uses.now (string_bytes it)) }
    ensures memory { IfErr result (λ e. e.kind ≡ ErrorKind.Memory) }
{
    let paths = paths_of(alloc, uses)?;
    let list = list_of(alloc, &paths)?;
    json_of(alloc, &list)
}
