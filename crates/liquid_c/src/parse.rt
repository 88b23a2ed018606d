//! Templates from their sources.
ghost use Rattle.std.specs.Prelude.{◌≡◌, Ok, option_map};
ghost use Rattle.liquid_c.specs.Calls.{IsParse, ParsesSource};
ghost use Rattle.liquid_c.specs.ResultStored.{ResultStored};
ghost use Rattle.liquid_c.specs.Shared.{shared_content};

use crate::content::Content;
use crate::handle::Handle;
use crate::handle_content::held_content;
use crate::levels::levels_in;
use crate::refusal::{Refusal, store_result};
use liquid_language::Language;
use liquid_parser::parse_with_source;
use std::alloc::Global;

/// Parses a source in a language. 0, or the number of the fault that `made` then has: a kind of a
/// source, or `Memory`. The template keeps its source, where that has at most 1 MiB, so that a
/// fault of a run stands at its item.
#[unsafe(no_mangle)]
pub extern "C" fn bikleinu_parse(
    alloc: Global,
    language: &mut Handle,
    source: &[u8],
    made: &mut Handle,
) -> u32
    ensures parsed { ResultStored (IsParse (shared_content language.old.held) source.now) result
        made.new.held }
    ensures same { language.new.held ≡ language.old.held }
{
    let held = language.take(alloc);
    let answer = template(alloc, held_content(&held), source);
    language.put(alloc, held);
    store_result(alloc, answer, made)
}

fn template(alloc: Global, language: Option<&Content>, source: &[u8]) -> Result<Content, Refusal>
    ensures { IsParse (option_map (λ h. h.now) language.entry) source.now result }
{
    match language {
        Some(Content::Language(language)) => match str::from_utf8(source) {
            Ok(source) => Ok(parsed(alloc, source, language)),
            Err(_) => Err(Refusal::NoText),
        },
        _ => Err(Refusal::OtherHandle),
    }
}

/// The template that a source is, with the levels that it reaches, or the fault.
fn parsed(alloc: Global, source: &str, language: &Language) -> Content
    ensures { ParsesSource language.now source.now (Ok result) }
{
    match parse_with_source(alloc, source, language) {
        Ok(template) => match levels_in(alloc, template.nodes()) {
            Ok(levels) => Content::Template(template, levels),
            Err(refused) => Content::Fault(refused),
        },
        Err(fault) => Content::Fault(fault),
    }
}
