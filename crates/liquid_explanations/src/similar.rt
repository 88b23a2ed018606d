//! Names that are similar to one another.
use liquid_core::{SimilarName, more_likely};
use std::alloc::{AllocError, Global};
use std::collections::btree_map::Keys;

/// The most similar to a name of those that are registered and one more.
pub(crate) fn most_similar<'n, K: Drop>(
    alloc: Global,
    names: Keys<'n, String, K>,
    meant: &str,
    similar: Option<SimilarName<'n>>,
) -> Result<Option<SimilarName<'n>>, AllocError> {
    let mut similar = similar;
    for name in names {
        similar = more_likely(alloc, name.as_str(), meant, similar)?;
    }
    Ok(similar)
}
