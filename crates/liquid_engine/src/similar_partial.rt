//! The fault of a partial that doesn't exist: why it is refused, or else which one may be meant.
//! That is looked for only where a run ends by that fault.
ghost use Rattle.liquid_model.specs.ErrorKinds.{IsKindOrMemory};

use liquid_core::{Error, ErrorKind, Quoted, more_similar};
use liquid_syntax::Partials;
use std::alloc::{AllocError, Global};

/// The fault of a name that no partial has.
pub(crate) fn unknown(alloc: Global, partials: &Partials, name: &str) -> Error
    ensures { IsKindOrMemory ErrorKind.UnknownPartial result.kind }
{
    if name.is_empty() {
        let words = "the name of a partial is an empty text";
        return Error::new(alloc, ErrorKind::UnknownPartial, words);
    }
    let quoted = Quoted { text: name };
    if let Some(fault) = partials.refusal(name) {
        return Error::formatted(
            alloc,
            ErrorKind::UnknownPartial,
            format_args!("the partial `{quoted}` is refused: {fault}"),
        );
    }
    let Ok(meant) = meant_by(alloc, partials, name) else {
        return Error::from(AllocError);
    };
    match meant {
        Some(text) => {
            let similar = Quoted { text };
            Error::formatted(
                alloc,
                ErrorKind::UnknownPartial,
                format_args!("no partial is named `{quoted}`; did you mean `{similar}`?"),
            )
        }
        None => Error::formatted(
            alloc,
            ErrorKind::UnknownPartial,
            format_args!(
                "no partial is named `{quoted}`; pass it under this name, as `{quoted}=FILE` on a command line"
            ),
        ),
    }
}

/// The name of the partial that is meant by one that none has: of the same file without its folders
/// and its suffix, or the most similar.
fn meant_by<'p>(
    alloc: Global,
    partials: &'p Partials,
    name: &str,
) -> Result<Option<&'p str>, AllocError> {
    let stem = stem_of(name);
    let mut similar = None;
    for (known, slot) in partials.slots() {
        if slot.is_some() {
            if stem_of(known.as_str()).eq_ignore_ascii_case(stem) {
                return Ok(Some(known.as_str()));
            }
            similar = more_similar(alloc, known.as_str(), name, similar)?;
        }
    }
    match similar {
        Some(found) if found.edits.saturating_mul(3) <= name.len() => Ok(Some(found.name)),
        _ => Ok(None),
    }
}

/// The name of a file without its folders, the `_` with which some begin, and its suffix.
fn stem_of(name: &str) -> &str {
    let file = match name.rsplit_once('/') {
        Some((_, file)) => file,
        None => name,
    };
    let file = file.trim_start_matches('_');
    match file.rsplit_once('.') {
        Some((stem, _)) => stem,
        None => file,
    }
}
