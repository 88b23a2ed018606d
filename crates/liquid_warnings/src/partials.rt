//! Partials that aren't there, that nothing runs, and that run themselves.
ghost use Rattle.std.specs.Prelude.{◌≡◌, IfOk, IfSome, codes, string_bytes};
ghost use Rattle.liquid_warnings.specs.Messages.{recursive_message};
ghost use Rattle.liquid_warnings.specs.Remarks.{remark_view, warning_at};
ghost use Rattle.liquid_warnings.specs.Sorts.{IsMissingPartial, IsRecursive};

use crate::calls::{Call, PartialFiles};
use crate::messages::{lack_message, most_similar_key, name_of};
use crate::remark::Remark;
use liquid_core::Quoted;
use liquid_syntax::Position;
use std::alloc::{AllocError, Global};

/// `MissingPartial`: a tag runs a partial that isn't there.
pub(crate) fn missing_partial(
    alloc: Global,
    partials: &PartialFiles,
    call: &Call<'_>,
) -> Result<Option<Remark>, AllocError>
    ensures { IfOk result (λ r. IfSome r (λ w. IsMissingPartial (remark_view w))) }
{
    let (Some(name), None) = (call.name, call.file) else {
        return Ok(None);
    };
    let similar = name_of(most_similar_key(alloc, partials, name, None)?, name);
    let message = lack_message(alloc, "no partial is named", name, similar)?;
    Ok(Some(Remark::warning(call.position, "MissingPartial", message)))
}

/// `UnusedPartial`: no template runs the partial.
pub(crate) fn unused_partial(alloc: Global) -> Result<Remark, AllocError>
    ensures { IfOk result (λ r. remark_view r ≡ warning_at 1 1 (codes "UnusedPartial")
        (codes "none of the templates runs this partial")) }
{
    let message = String::from_str(alloc, "none of the templates runs this partial")?;
    let start = Position { line: 1, column: 1 };
    Ok(Remark::warning(start, "UnusedPartial", message))
}

/// `RecursivePartial`: a tag runs a partial in which it stands, itself or by way of others.
pub(crate) fn recursive_call(
    alloc: Global,
    call: Option<&Call<'_>>,
) -> Result<Option<Remark>, AllocError>
    ensures { IfOk result (λ r. IfSome r (λ w. IsRecursive (remark_view w))) }
{
    let Some(call) = call else {
        return Ok(None);
    };
    let message = recursive_message(alloc, call.name.unwrap_or(""))?;
    Ok(Some(Remark::warning(call.position, "RecursivePartial", message)))
}

fn recursive_message(alloc: Global, name: &str) -> Result<String, AllocError>
    ensures { IfOk result (λ message. string_bytes message ≡ recursive_message name.now) }
{
    let name = Quoted { text: name };
    format!(in alloc;
        "the partial `{name}` runs itself from here; a run ends where partials are 32 deep"
    )
}
