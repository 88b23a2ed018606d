//! The texts of files.
ghost use Rattle.std.specs.Prelude.{◌≡◌, IfErr, IfOk, IfSome, IsFalse, IsOk, IsSome, IsTrue, None};
ghost use Rattle.std.specs.Prelude.{Ok, string_bytes};
ghost use Rattle.std.specs.Str.{IsUtf8};
ghost use Rattle.liquid_files.specs.Entries.{has_byte_zero};
ghost use Rattle.liquid_commands.specs.Inputs.{called};
ghost use Rattle.liquid_commands.specs.Stops.{HasNoText};

use crate::stop::Stop;
use liquid_files::{Reason, has_byte_zero};
use std::alloc::Global;
use std::fs::File;
use std::io;
use std::io::Read;

/// What a path is called in a message: `-` is standard input. It takes no memory.
pub fn called(path: &str) -> &str
    ensures { result.now ≡ called path.now }
{
    if path == "-" { "standard input" } else { path }
}

/// The text of the file at a path, or of standard input where the path is `-`.
pub fn text_at(rt: &HostRuntime, path: &str) -> Result<String, Stop> {
    match bytes_at(rt, path) {
        Ok(bytes) => text_of(rt.alloc(), path, bytes),
        Err(refused) => {
            let reason = Reason::from(refused.kind());
            Err(Stop::unreadable(rt.alloc(), called(path), reason))
        }
    }
}

/// The text of a file that was found in a folder; none where it has a byte 0, as images do and
/// texts don't.
pub fn found_text_at(rt: &HostRuntime, path: &str) -> Result<Option<String>, Stop> {
    match bytes_at(rt, path) {
        Ok(bytes) => found_text_of(rt.alloc(), path, bytes),
        Err(refused) => {
            let reason = Reason::from(refused.kind());
            Err(Stop::unreadable(rt.alloc(), path, reason))
        }
    }
}

/// The bytes that were read from a file in a folder, as a text; none where one of them is 0.
pub fn found_text_of(alloc: Global, path: &str, bytes: Vec<u8>) -> Result<Option<String>, Stop>
    ensures binary { IsTrue (has_byte_zero bytes.items) → result ≡ Ok None }
    ensures text { IfOk result (λ found. IfSome found (λ text. string_bytes text ≡ bytes.items)) }
    ensures whole { IsFalse (has_byte_zero bytes.items) → IfOk result (λ found. IsSome found) }
    ensures refused { IfErr result (HasNoText (called path.now)) }
    ensures utf8 { IsUtf8 bytes.items → IsOk result }
{
    if has_byte_zero(&bytes) {
        return Ok(None);
    }
    Ok(Some(text_of(alloc, path, bytes)?))
}

/// The bytes that were read from a path, as a text.
pub fn text_of(alloc: Global, path: &str, bytes: Vec<u8>) -> Result<String, Stop>
    ensures text { IfOk result (λ text. string_bytes text ≡ bytes.items) }
    ensures refused { IfErr result (HasNoText (called path.now)) }
    ensures utf8 { IsUtf8 bytes.items → IsOk result }
{
    match String::from_utf8(bytes) {
        Ok(text) => Ok(text),
        Err(refused) => {
            let reason = Reason::of_bytes(&refused);
            Err(Stop::unreadable(alloc, called(path), reason))
        }
    }
}

/// The bytes of the file at a path, or of standard input where the path is `-`.
pub fn bytes_at(rt: &HostRuntime, path: &str) -> io::Result<Vec<u8>> {
    if path == "-" {
        let mut bytes = Vec::new(rt.alloc());
        rt.reader().read_to_end(&mut bytes)?;
        return Ok(bytes);
    }
    let mut file = File::open(rt, path)?;
    let size = usize::try_from(file.metadata()?.len()).unwrap_or(0);
    // one byte more than the system says, to see whether the file ends there
    let mut bytes = Vec::with_capacity(rt.alloc(), size.saturating_add(1))?;
    file.read_to_end(&mut bytes)?;
    Ok(bytes)
}
