//! Languages, partials and data.
ghost use Rattle.std.specs.Prelude.{◌≡◌, None};
ghost use Rattle.liquid_c.specs.Calls.{AreNoPartials, IsData, IsLanguage};
ghost use Rattle.liquid_c.specs.ResultStored.{ResultStored};

use crate::content::Content;
use crate::handle::Handle;
use crate::levels::TemplateLevels;
use crate::refusal::{Refusal, store_result};
use liquid_json::data_from_json;
use liquid_language::language;
use liquid_syntax::Partials;
use std::alloc::Global;

/// Makes the standard language. 0, or `Memory`.
#[unsafe(no_mangle)]
pub extern "C" fn bikleinu_language(alloc: Global, made: &mut Handle) -> u32
    ensures { ResultStored IsLanguage result made.new.held }
{
    store_result(alloc, standard(alloc), made)
}

fn standard(alloc: Global) -> Result<Content, Refusal>
    ensures { IsLanguage result }
{
    match language(alloc) {
        Ok(language) => Ok(Content::Language(language)),
        Err(fault) => Ok(Content::Fault(fault)),
    }
}

/// Makes partials, of which there are none yet. 0, or `Memory`.
#[unsafe(no_mangle)]
pub extern "C" fn bikleinu_partials(alloc: Global, made: &mut Handle) -> u32
    ensures { ResultStored AreNoPartials result made.new.held }
{
    store_result(alloc, no_partials(alloc), made)
}

fn no_partials(alloc: Global) -> Result<Content, Refusal>
    ensures { AreNoPartials result }
{
    Ok(Content::Partials(Partials::new(alloc), TemplateLevels::none()))
}

/// Reads data from a text of JSON. 0, or the number of the fault that `made` then has:
/// `InvalidInput`, `Float` or `Memory`.
#[unsafe(no_mangle)]
pub extern "C" fn bikleinu_data(alloc: Global, json: &[u8], made: &mut Handle) -> u32
    ensures { ResultStored (IsData json.now) result made.new.held }
{
    store_result(alloc, data(alloc, json), made)
}

fn data(alloc: Global, json: &[u8]) -> Result<Content, Refusal>
    ensures { IsData json.now result }
{
    match str::from_utf8(json) {
        Ok(text) => match data_from_json(alloc, text) {
            Ok(data) => Ok(Content::Data(data)),
            Err(fault) => Ok(Content::Fault(fault)),
        },
        Err(_) => Err(Refusal::NoText),
    }
}

/// Frees what the handle holds; it then holds nothing.
#[unsafe(no_mangle)]
pub extern "C" fn bikleinu_free(alloc: Global, handle: &mut Handle)
    ensures { handle.new.held ≡ None }
{
    handle.put(alloc, None);
}
