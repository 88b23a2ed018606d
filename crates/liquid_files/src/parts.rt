//! The names of parts: of files in which pages are written before they take their places.
ghost use Rattle.std.specs.Prelude.{◌≡◌, IfOk, string_bytes, true};
ghost use Rattle.liquid_files.specs.Parts.{is_part_path};

use std::alloc::{AllocError, Global};

/// What the path of each part ends with.
pub(crate) const PART_SUFFIX: &str = ".bikleinu-part";

/// Whether a path is one of a part, so that no page has it. It takes no memory.
pub fn is_part_path(path: &str) -> bool
    ensures { result ≡ is_part_path path.now }
{
    path.as_bytes().ends_with(PART_SUFFIX.as_bytes())
}

/// The path of a part in the folder of a file: hidden, short, and with the numbers of the process
/// and of the part in it, so that no other process has it.
pub(crate) fn part_path(
    alloc: Global,
    path: &str,
    process: u32,
    count: u64,
) -> Result<String, AllocError>
    ensures { IfOk result (λ part. is_part_path (string_bytes part) ≡ true) }
{
    let folder = folder_of(path);
    let mut part = format!(in alloc; "{folder}.{process}-{count}")?;
    part.push_str(PART_SUFFIX)?;
    Ok(part)
}

/// The folder of a file, with the slash after it; no text where that is the folder of the process.
pub(crate) fn folder_of(path: &str) -> &str {
    match path.rfind('/') {
        Some(at) => path.get(..=at).unwrap_or(""),
        None => "",
    }
}
