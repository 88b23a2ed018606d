//! The names of files: below a folder, without a suffix, and given by NAME=FILE.
ghost use Rattle.std.specs.Prelude.{◌≡◌, ◌<◌, IfOk, option_map, string_bytes};
ghost use Rattle.std.specs.List.{list_all};
ghost use Rattle.std.specs.Path.{dot, rsplit_once, slash};
ghost use Rattle.liquid_files.specs.FileNames.{are_names, ends_with_slash, is_no_slash};
ghost use Rattle.liquid_files.specs.FileNames.{joined_path, named_file, parts_view};
ghost use Rattle.liquid_files.specs.FileNames.{suffix_parts, without_suffix};

use std::alloc::{AllocError, Global};

/// The path of what stands in a folder, which may be written with a slash at its end.
///
/// `AllocError` where there is no room for it, and nowhere else.
pub fn joined_path(alloc: Global, folder: &str, inner: &str) -> Result<String, AllocError>
    ensures { IfOk result (λ path. string_bytes path ≡ joined_path folder.now inner.now) }
{
    let mut path = String::from_str(alloc, folder)?;
    if !ends_with_slash(folder) {
        path.push('/')?;
    }
    path.push_str(inner)?;
    Ok(path)
}

/// A name without the suffix of its last part, where that has one with something before it. It
/// takes no memory.
pub fn without_suffix(name: &str) -> Option<&str>
    ensures { option_map (λ stem. stem.now) result ≡ without_suffix name.now }
{
    match suffix_parts(name) {
        Some((stem, _)) => Some(stem),
        None => None,
    }
}

/// A name and the suffix of its last part, where that has one with something before it. It takes no
/// memory.
pub fn suffix_parts(name: &str) -> Option<(&str, &str)>
    ensures { parts_view result ≡ suffix_parts name.now }
{
    match cut_last(name, '.') {
        Some((stem, suffix)) if are_names(stem, suffix) => Some((stem, suffix)),
        _ => None,
    }
}

/// The folder and the name of a path, at its last slash. It takes no memory.
pub fn folder_and_name(path: &str) -> Option<(&str, &str)>
    ensures { parts_view result ≡ rsplit_once slash path.now }
{
    cut_last(path, '/')
}

/// The name and the file of a word NAME=FILE, at its first `=`. It takes no memory.
pub fn named_file(word: &str) -> Option<(&str, &str)>
    ensures { parts_view result ≡ named_file word.now }
{
    word.split_once('=')
}

/// Whether a suffix belongs to the last part of a path, and something stands before it there.
fn are_names(stem: &str, suffix: &str) -> bool
    ensures { result ≡ are_names stem.now suffix.now }
{
    !stem.is_empty() && !ends_with_slash(stem) && has_no_slash(suffix)
}

fn has_no_slash(text: &str) -> bool
    ensures { result ≡ list_all is_no_slash text.now }
{
    text.bytes().all(|byte| byte != b'/')
}

fn ends_with_slash(text: &str) -> bool
    ensures { result ≡ ends_with_slash text.now }
{
    match text.as_bytes().last() {
        Some(byte) => *byte == b'/',
        None => false,
    }
}

/// The text before the last of these signs, and the text after it.
fn cut_last(text: &str, sign: char) -> Option<(&str, &str)>
    requires { sign < 128 }
    ensures { parts_view result ≡ rsplit_once sign text.now }
{
    text.rsplit_once(sign)
}
