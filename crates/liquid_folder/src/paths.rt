//! Paths of a site's files.
ghost use Rattle.std.specs.Prelude.{◌≡◌, ◌↔◌, IsTrue, IfSome, IsNone};
ghost use Rattle.std.specs.Path.{components_remaining};
ghost use Rattle.liquid_model.specs.Texts.{Text};
ghost use Rattle.liquid_folder.specs.Paths.{IsFileIn, is_no_file_name, is_skipped_file, steps};

pub use liquid_files::lies_in;
use std::path::{Component, Components, Path};

/// The name of the file that a path leads to, where that is right in the folder. A `.` among the
/// names of either path, and slashes that follow one another, change nothing; `..` is the name of
/// no file.
pub fn file_in<'p>(folder: &str, path: &'p str) -> Option<&'p str>
    ensures found { IfSome result (λ name. IsFileIn folder.now path.now name.now) }
    ensures all { IsNone result → (name : Text) → IsFileIn folder.now path.now name →
        IsTrue (is_no_file_name name) }
{
    let rest = steps_of(path)
        .as_path()
        .strip_prefix(steps_of(folder).as_path())
        .ok()?;
    let mut names = rest.components();
    match (names.next(), names.next()) {
        (Some(Component::Normal(name)), None) => Some(name),
        _ => None,
    }
}

/// Whether both lead to one file, as `file_in` reads paths.
pub fn is_same(path: &str, other: &str) -> bool
    ensures { IsTrue result ↔ steps path.now ≡ steps other.now }
{
    let (path, other) = (steps_of(path), steps_of(other));
    match path.as_path().strip_prefix(other.as_path()) {
        Ok(rest) => rest.components().next().is_none(),
        Err(_) => false,
    }
}

/// The steps of a path: without a `.` in front.
fn steps_of(path: &str) -> Components<'_>
    ensures { components_remaining result ≡ steps path.now }
{
    let whole = Path::new(path).components();
    let mut rest = Path::new(path).components();
    match rest.next() {
        Some(Component::CurDir) => rest,
        _ => whole,
    }
}

/// Whether a file of this name is left out: it begins with a `.` or ends in `~`.
pub fn is_left_out(name: &str) -> bool
    ensures { result ≡ is_skipped_file name.now }
{
    let bytes = name.as_bytes();
    let length = bytes.len();
    length > 0 && (bytes[0] == b'.' || bytes[length - 1] == b'~')
}
