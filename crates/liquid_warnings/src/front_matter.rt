//! Front matter, which is text here.
ghost use Rattle.std.specs.Prelude.{◌≡◌, IfOk, IfSome, codes};
ghost use Rattle.liquid_warnings.specs.Messages.{front_matter_message};
ghost use Rattle.liquid_warnings.specs.Remarks.{remark_view, warning_at};
ghost use Rattle.liquid_warnings.specs.Sorts.{IsPrintedFront};

use crate::remark::Remark;
use crate::written_for::WrittenFor;
use liquid_syntax::Position;
use std::alloc::{AllocError, Global};

/// `FrontMatter`: a source begins with lines between two of `---`, and isn't written for Jekyll,
/// whose files begin so.
pub(crate) fn front_matter(
    alloc: Global,
    source: Option<&str>,
    written_for: WrittenFor,
) -> Result<Option<Remark>, AllocError>
    ensures { IfOk result (λ r. IfSome r (λ w. IsPrintedFront (remark_view w))) }
{
    match source {
        Some(source) if !written_for.is_for_jekyll() && has_front_matter(source) => {
            Ok(Some(printed_front_matter(alloc)?))
        }
        _ => Ok(None),
    }
}

fn printed_front_matter(alloc: Global) -> Result<Remark, AllocError>
    ensures { IfOk result (λ r. remark_view r ≡ warning_at 1 1 (codes "FrontMatter")
        front_matter_message) }
{
    let message = String::from_str(
        alloc,
        "front matter isn't read here, and is printed as text; give its values as data",
    )?;
    let start = Position { line: 1, column: 1 };
    Ok(Remark::warning(start, "FrontMatter", message))
}

/// Whether a source begins with a line `---`, one with a `:`, and later one that begins with
/// `---`.
fn has_front_matter(source: &str) -> bool {
    let source = source.strip_prefix('\u{feff}').unwrap_or(source);
    let Some((first, rest)) = source.split_once('\n') else {
        return false;
    };
    let Some((pair, rest)) = rest.split_once('\n') else {
        return false;
    };
    let is_closed = rest.starts_with("---") || rest.contains("\n---");
    first.trim_end() == "---" && pair.contains(':') && is_closed
}
