//! Keys of what a page can see.
ghost use Rattle.std.specs.Prelude.{◌≡◌, Ok, option_map};
ghost use Rattle.liquid_c.specs.ResultStored.{ResultStored};
ghost use Rattle.liquid_c.specs.SeenKeys.{IsSeenKey, KeysSeen};
ghost use Rattle.liquid_c.specs.Shared.{shared_content};

use crate::content::Content;
use crate::handle::Handle;
use crate::handle_content::held_content;
use crate::refusal::{Refusal, store_result};
use liquid_core::Uses;
use liquid_seen_keys::seen_key;
use std::alloc::Global;

/// Makes the key of what paths ask of the data that a text of JSON gives: over data of one key
/// every page that sees no more than the paths ask is the same. The key is a text of JSON. The
/// data are refused exactly where `bikleinu_data` refuses them. 0, or the number of the fault that
/// `made` then has.
#[unsafe(no_mangle)]
pub extern "C" fn bikleinu_seen_key(
    alloc: Global,
    source: &[u8],
    paths: &mut Handle,
    made: &mut Handle,
) -> u32
    ensures key { ResultStored (IsSeenKey source.now (shared_content paths.old.held)) result
        made.new.held }
    ensures paths { paths.new.held ≡ paths.old.held }
{
    let held = paths.take(alloc);
    let answer = key_asked(alloc, source, held_content(&held));
    paths.put(alloc, held);
    store_result(alloc, answer, made)
}

fn key_asked(alloc: Global, source: &[u8], paths: Option<&Content>) -> Result<Content, Refusal>
    ensures { IsSeenKey source.now (option_map (λ c. c.now) paths.entry) result }
{
    match paths {
        Some(Content::Paths(uses, _)) => match str::from_utf8(source) {
            Ok(source) => Ok(key_of(alloc, source, uses)),
            Err(_) => Err(Refusal::NoText),
        },
        _ => Err(Refusal::OtherHandle),
    }
}

fn key_of(alloc: Global, source: &str, uses: &Uses) -> Content
    ensures { KeysSeen uses.now source.now (Ok result) }
{
    match seen_key(alloc, source, uses) {
        Ok(key) => Content::Key(key),
        Err(fault) => Content::Fault(fault),
    }
}
