//! The files of pages.
ghost use Rattle.std.specs.Prelude.{◌≡◌, ◌++◌, not, Some, IfSome, IfOk, IfErr, OnErr, OnOk};
ghost use Rattle.std.specs.Prelude.{option_map, string_bytes};
ghost use Rattle.liquid_model.specs.Answer.{IsValueOrMemory};
ghost use Rattle.liquid_site.specs.Parts.{pages_in};
ghost use Rattle.liquid_files.specs.Files.{is_held, holds, with_file};
ghost use Rattle.liquid_site.specs.Written.{IsStop, all_written, count_from, KeepsOtherFiles};
ghost use Rattle.liquid_site.specs.Written.{unwritten_message, TellsUnwritten};
ghost use Rattle.liquid_site.specs.inside.Needed.{NeededUnlessMemory, TellsWhyUnlessMemory};

use crate::Page;
use crate::folder::joined;
use liquid_core::{Error, ErrorKind, Result};
use liquid_files::{Disk, DiskFault};
use std::alloc::{AllocError, Global};
use std::collections::BTreeMap;

/// Writes each page into its file, unless the file holds the page's text already. The answer is how
/// many were written, up to the greatest value; or the first file that was refused, as `Write`, or
/// `Memory`.
pub(crate) fn write_pages<D: Disk>(
    alloc: Global,
    pages: &BTreeMap<String, Page>,
    out: &str,
    disk: &mut D,
) -> Result<u64>
    ensures written { IfSome (D.files disk.old)
        (λ f. OnOk result (D.files disk.new ≡
        Some (all_written out.now (pages_in pages.now) f))) }
    ensures count { IfSome (D.files disk.old)
        (λ f. IfOk result (λ n. n ≡ count_from 0 out.now (pages_in pages.now) f)) }
    ensures others { IfSome (D.files disk.old) (λ f. KeepsOtherFiles out.now (pages_in pages.now) f
        (D.files disk.new)) }
    ensures unwritten { IfSome (D.files disk.old)
        (λ f. IfErr result (TellsUnwritten out.now (pages_in pages.now) f (D.files disk.new))) }
    ensures stop { IfErr result (λ e. IsStop e.kind) }
{
    let mut written: u64 = 0;
    for (name, page) in pages.iter() {
        if write_page(alloc, out, name.as_str(), page.text.as_str(), disk)? {
            written = written.saturating_add(1);
        }
    }
    Ok(written)
}

/// Writes a text into the file of a page. Whether the file held another text.
fn write_page<D: Disk>(
    alloc: Global,
    out: &str,
    name: &str,
    text: &str,
    disk: &mut D,
) -> Result<bool>
    ensures written { IfSome (D.files disk.old)
        (λ f. OnOk result (D.files disk.new ≡
        Some (with_file f (out.now ++ name.now) (holds text.now)))) }
    ensures needed { IfSome (D.files disk.old)
        (λ f. IfOk result (λ b. b ≡ not (is_held (f (out.now ++ name.now)) text.now))) }
    ensures kept { IfSome (D.files disk.old) (λ f. OnErr result (D.files disk.new ≡ Some f)) }
    ensures unwritten { IfSome (D.files disk.old)
        (λ f. IfErr result (NeededUnlessMemory (f (out.now ++ name.now)) text.now)) }
    ensures message { IfErr result (TellsWhyUnlessMemory (out.now ++ name.now)) }
    ensures stop { IfErr result (λ e. IsStop e.kind) }
{
    let path = joined(alloc, out, name)?;
    if holds(disk, path.as_str(), text)? {
        return Ok(false);
    }
    match disk.write(path.as_str(), text) {
        Ok(()) => Ok(true),
        Err(DiskFault::Memory) => Err(Error::from(AllocError)),
        Err(fault) => Err(unwritten(alloc, path.as_str(), &fault)?),
    }
}

/// Whether the file at a path holds this text.
fn holds<D: Disk>(disk: &D, path: &str, text: &str) -> Result<bool>
    ensures held { IfSome (D.files disk.now) (λ f. IsValueOrMemory (λ b. b) result
        (is_held (f path.now) text.now)) }
    ensures memory { IfErr result (λ e. e.kind ≡ ErrorKind.Memory) }
{
    match disk.read(path) {
        Ok(Some(held)) => Ok(held.as_str() == text),
        Err(DiskFault::Memory) => Err(Error::from(AllocError)),
        Ok(None) | Err(DiskFault::Refused(_) | DiskFault::Protected(_)) => Ok(false),
    }
}

/// The fault of a file that isn't written. Without memory there is none.
fn unwritten(alloc: Global, path: &str, fault: &DiskFault) -> Result<Error>
    ensures kind { IsValueOrMemory (λ fault. fault.kind) result ErrorKind.Write }
    ensures message { IfOk result (λ e. option_map string_bytes e.message ≡
        Some (unwritten_message path.now fault.now)) }
{
    let message = match fault {
        DiskFault::Protected(why) => {
            format!(in alloc; "the file `{path}` can't be written: {why}")?
        }
        _ => format!(in alloc; "the file `{path}` can't be written")?,
    };
    Ok(Error::with_message(ErrorKind::Write, message))
}
