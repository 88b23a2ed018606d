//! Where a document is written, and the address that it has there.
ghost use Rattle.std.specs.Prelude.{◌≡◌, ◌++◌, string_bytes};
ghost use Rattle.std.specs.Path.{slash};
ghost use Rattle.liquid_files.specs.FileNames.{ends_with_slash, parts_view, suffix_parts};
ghost use Rattle.liquid_model.specs.Answer.{IsValueOrMemory};
ghost use Rattle.liquid_model.specs.View.{pairs_view};
ghost use Rattle.liquid_site_build.specs.Addresses as spec;

use liquid_core::{Object, Result, Value, look_up};
use liquid_files::{folder_and_name, suffix_parts};
use std::alloc::Global;

/// The path of a document's file below the folder that is written to: by the member `permalink` of
/// its front matter, and else by its own path, of which Markdown gives HTML.
///
/// `Memory` where a growth was refused, and no other kind.
pub fn document_file(alloc: Global, path: &str, front: &Object) -> Result<String>
    ensures { IsValueOrMemory string_bytes result
        (spec.document_file path.now (pairs_view front.now.entries)) }
{
    match look_up(front, "permalink") {
        Some(Value::Text(address)) => file_at(alloc, path, address.as_str()),
        _ => written_path(alloc, path),
    }
}

/// The address of a file: that of `index.html` is its folder's.
///
/// `Memory` where a growth was refused, and no other kind.
pub fn address_of(alloc: Global, file: &str) -> Result<String>
    ensures { IsValueOrMemory string_bytes result (spec.address_of file.now) }
{
    match folder_and_name(file) {
        Some((folder, name)) => {
            if name == "index.html" {
                let mut address = joined(alloc, "/", folder)?;
                address.push('/')?;
                return Ok(address);
            }
            joined(alloc, "/", file)
        }
        None => {
            if file == "index.html" {
                return joined(alloc, "/", "");
            }
            joined(alloc, "/", file)
        }
    }
}

/// Both texts as one.
pub(crate) fn joined(alloc: Global, front: &str, rest: &str) -> Result<String>
    ensures { IsValueOrMemory string_bytes result (front.now ++ rest.now) }
{
    let mut text = String::from_str(alloc, front)?;
    text.push_str(rest)?;
    Ok(text)
}

/// A text of Markdown gives a file of HTML, and the folder of a collection has no mark.
fn written_path(alloc: Global, path: &str) -> Result<String>
    ensures { IsValueOrMemory string_bytes result (spec.written_path path.now) }
{
    let path = without_mark(path);
    match suffix_parts(path) {
        Some((stem, suffix)) => {
            if is_markdown(suffix) {
                return joined(alloc, stem, ".html");
            }
            Ok(String::from_str(alloc, path)?)
        }
        None => Ok(String::from_str(alloc, path)?),
    }
}

fn is_markdown(suffix: &str) -> bool
    ensures { result ≡ spec.is_markdown suffix.now }
{
    suffix == "md" || suffix == "markdown"
}

/// The file of an address, with the suffix that the document's path gives it.
fn file_at(alloc: Global, path: &str, address: &str) -> Result<String>
    ensures { IsValueOrMemory string_bytes result (spec.suffixed_by
        (spec.with_index (spec.without_root address.now)) (suffix_parts path.now)) }
{
    let file = with_index(alloc, without_root(address))?;
    match suffix_parts(path) {
        Some((_, suffix)) => {
            if is_markdown(suffix) {
                return with_suffix(file, "html");
            }
            with_suffix(file, suffix)
        }
        None => Ok(file),
    }
}

fn without_root(address: &str) -> &str
    ensures { result.now ≡ spec.without_root address.now }
{
    match cut_at_slash(address) {
        Some((before, after)) => {
            if before.is_empty() {
                return after;
            }
            address
        }
        None => address,
    }
}

fn without_mark(path: &str) -> &str
    ensures { result.now ≡ spec.without_mark path.now }
{
    match cut_at_mark(path) {
        Some((before, after)) => {
            if before.is_empty() {
                return after;
            }
            path
        }
        None => path,
    }
}

/// The texts before and after the first slash.
fn cut_at_slash(text: &str) -> Option<(&str, &str)>
    ensures { parts_view result ≡ spec.first_cut slash text.now }
{
    text.split_once('/')
}

/// The texts before and after the first `_`.
fn cut_at_mark(text: &str) -> Option<(&str, &str)>
    ensures { parts_view result ≡ spec.first_cut 95 text.now }
{
    text.split_once('_')
}

/// A folder is written to the file `index` in it.
fn with_index(alloc: Global, address: &str) -> Result<String>
    ensures { IsValueOrMemory string_bytes result (spec.with_index address.now) }
{
    if address.is_empty() || ends_with_slash(address) {
        return joined(alloc, address, "index");
    }
    Ok(String::from_str(alloc, address)?)
}

fn ends_with_slash(text: &str) -> bool
    ensures { result ≡ ends_with_slash text.now }
{
    match text.as_bytes().last() {
        Some(byte) => *byte == b'/',
        None => false,
    }
}

/// The file with this suffix, unless it has it.
fn with_suffix(file: String, suffix: &str) -> Result<String>
    ensures { IsValueOrMemory string_bytes result (spec.with_suffix suffix.now
        (string_bytes file)) }
{
    if has_suffix(file.as_str(), suffix) {
        return Ok(file);
    }
    let mut file = file;
    file.push('.')?;
    file.push_str(suffix)?;
    Ok(file)
}

fn has_suffix(file: &str, suffix: &str) -> bool
    ensures { result ≡ spec.has_suffix suffix.now (suffix_parts file.now) }
{
    match suffix_parts(file) {
        Some((_, found)) => found == suffix,
        None => false,
    }
}
