//! Data that are read as far as a template asks for them.
ghost use Rattle.std.specs.Prelude.{◌≡◌, Ok, option_map};
ghost use Rattle.std.specs.Arc.{arc_value};
ghost use Rattle.liquid_c.specs.DataFor.{IsDataFor, ReadsFor};
ghost use Rattle.liquid_c.specs.ResultStored.{ResultStored};
ghost use Rattle.liquid_c.specs.Shared.{shared_content};

use crate::content::Content;
use crate::handle::Handle;
use crate::handle_content::held_content;
use crate::refusal::{Refusal, store_result};
use liquid_core::{Error, Uses};
use liquid_json::data_for;
use std::alloc::{AllocError, Global};
use std::sync::Arc;

/// Reads data from a text of JSON as far as paths ask for it: a page that sees no more than the
/// paths ask is the same as over the whole data, and any other isn't rendered over them. What
/// nobody asks for is still looked at, so the text is refused exactly where `bikleinu_data` refuses
/// it. 0, or the number of the fault that `made` then has.
#[unsafe(no_mangle)]
pub extern "C" fn bikleinu_data_for(
    alloc: Global,
    source: &[u8],
    paths: &mut Handle,
    made: &mut Handle,
) -> u32
    ensures read { ResultStored (IsDataFor source.now (shared_content paths.old.held)) result
        made.new.held }
    ensures paths { paths.new.held ≡ paths.old.held }
{
    let held = paths.take(alloc);
    let answer = data_asked(alloc, source, held_content(&held));
    paths.put(alloc, held);
    store_result(alloc, answer, made)
}

fn data_asked(alloc: Global, source: &[u8], paths: Option<&Content>) -> Result<Content, Refusal>
    ensures { IsDataFor source.now (option_map (λ c. c.now) paths.entry) result }
{
    match paths {
        Some(Content::Paths(uses, _)) => match str::from_utf8(source) {
            Ok(source) => Ok(read_for(alloc, source, uses)),
            Err(_) => Err(Refusal::NoText),
        },
        _ => Err(Refusal::OtherHandle),
    }
}

#[tactic(auto, using(crate::proofs::DataFor::data_read))]
fn read_for(alloc: Global, source: &str, uses: &Arc<Uses>) -> Content
    ensures { ReadsFor (arc_value uses.now) source.now (Ok result) }
{
    let data = match data_for(alloc, source, uses) {
        Ok(data) => data,
        Err(fault) => return Content::Fault(fault),
    };
    match Arc::try_clone(uses) {
        Ok(uses) => Content::DataPart(data, uses),
        Err(_) => Content::Fault(Error::from(AllocError)),
    }
}
