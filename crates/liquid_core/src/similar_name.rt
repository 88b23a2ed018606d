//! Names that are similar to one another.
use std::alloc::{AllocError, Global};
use strsim::generic_damerau_levenshtein;

/// The most edits between a name and a likely misspelling of it.
const MOST_EDITS: usize = 2;

/// The most bytes of a name that has similar ones. So a distance costs little, whatever a stranger
/// wrote.
const LONGEST: usize = 60;

/// A name similar to the one that is meant.
#[derive(Clone, Copy)]
pub struct SimilarName<'n> {
    /// The name.
    pub name: &'n str,
    /// How many edits lead from it to the one that is meant; letters in another case are none.
    pub edits: usize,
}

/// The more similar of two names to `meant`: `name`, or the one that was found before. Nothing is
/// similar to a `meant` of more than 60 bytes, and no name that differs from it by more than two
/// edits is. The only error is that memory is refused.
pub fn more_similar<'n>(
    alloc: Global,
    name: &'n str,
    meant: &str,
    similar: Option<SimilarName<'n>>,
) -> Result<Option<SimilarName<'n>>, AllocError> {
    let most = most_edits(meant, similar);
    if !may_be_similar(name, meant, most) {
        return Ok(similar);
    }
    if name.eq_ignore_ascii_case(meant) {
        return Ok(Some(SimilarName { name, edits: 0 }));
    }
    let edits = generic_damerau_levenshtein(alloc, name.as_bytes(), meant.as_bytes())?;
    if edits > most {
        return Ok(similar);
    }
    Ok(Some(SimilarName { name, edits }))
}

/// The same, where at least three letters of `meant` stand for each edit: a name that is likely
/// meant.
pub fn more_likely<'n>(
    alloc: Global,
    name: &'n str,
    meant: &str,
    likely: Option<SimilarName<'n>>,
) -> Result<Option<SimilarName<'n>>, AllocError> {
    match more_similar(alloc, name, meant, likely)? {
        Some(found) if found.edits.saturating_mul(3) <= meant.len() => Ok(Some(found)),
        _ => Ok(None),
    }
}

/// Whether a name's length and letters leave it open that it is more similar to `meant` than the
/// one that was found before. This costs a small part of what counting the edits does, and few
/// pairs of names pass it.
pub(crate) fn may_be_more_similar(
    name: &str,
    meant: &str,
    similar: Option<SimilarName<'_>>,
) -> bool {
    may_be_similar(name, meant, most_edits(meant, similar))
}

/// The same for at most so many edits.
fn may_be_similar(name: &str, meant: &str, most: usize) -> bool {
    if meant.is_empty() || meant.len() > LONGEST || name.len().abs_diff(meant.len()) > most {
        return false;
    }
    name.eq_ignore_ascii_case(meant) || !have_other_letters(name, meant, most)
}

/// The most edits between `meant` and a name that is more similar to it than the one that was found
/// before: fewer than its bytes, or any name would be similar to it.
fn most_edits(meant: &str, similar: Option<SimilarName<'_>>) -> usize {
    let most = match similar {
        Some(similar) => similar.edits.saturating_sub(1),
        None => MOST_EDITS,
    };
    most.min(meant.len().saturating_sub(1))
}

/// Whether the letters of two names alone show that more edits than these lie between them: an edit
/// brings at most one letter that wasn't there, and takes at most one away.
fn have_other_letters(name: &str, meant: &str, most: usize) -> bool {
    let name = letters_of(name);
    let meant = letters_of(meant);
    let brought = (name & !meant).count_ones() as usize;
    let taken = (meant & !name).count_ones() as usize;
    brought > most || taken > most
}

/// Which bytes a name has: a bit for each, by its last seven bits.
fn letters_of(name: &str) -> u128 {
    let mut letters = 0_u128;
    for letter in name.as_bytes() {
        letters |= 1_u128.wrapping_shl(u32::from(*letter));
    }
    letters
}
