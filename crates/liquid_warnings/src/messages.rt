//! The messages of warnings, and the similar names in them.
ghost use Rattle.std.specs.Prelude.{◌≡◌, IfOk, option_map, string_bytes};
ghost use Rattle.liquid_warnings.specs.Messages.{lack_message};

use liquid_core::{Quoted, SimilarName, more_similar};
use std::alloc::{AllocError, Global};
use std::collections::{BTreeMap, BTreeSet};

/// The most names that are compared with one to find a similar one, since each takes a while.
const MOST_NAMES: usize = 1000;

/// What is said of a name that nothing has: these words, the name, and the similar one if there is
/// one.
pub(crate) fn lack_message(
    alloc: Global,
    words: &str,
    name: &str,
    similar: Option<&str>,
) -> Result<String, AllocError>
    ensures { IfOk result (λ message. string_bytes message
        ≡ lack_message words.now name.now (option_map (λ n. n.now) similar.entry)) }
{
    let name = Quoted { text: name };
    match similar {
        Some(similar) => {
            let similar = Quoted { text: similar };
            format!(in alloc; "{words} `{name}`; did you mean `{similar}`?")
        }
        None => format!(in alloc; "{words} `{name}`"),
    }
}

/// The most similar key of a map, or what was found before.
pub(crate) fn most_similar_key<'n, V: Drop>(
    alloc: Global,
    map: &'n BTreeMap<String, V>,
    name: &str,
    before: Option<SimilarName<'n>>,
) -> Result<Option<SimilarName<'n>>, AllocError> {
    let mut similar = before;
    for known in map.keys().take(MOST_NAMES) {
        similar = more_similar(alloc, known.as_str(), name, similar)?;
    }
    Ok(similar)
}

/// The most similar name of a set, or what was found before.
pub(crate) fn most_similar_of_set<'n>(
    alloc: Global,
    names: &'n BTreeSet<String>,
    name: &str,
    before: Option<SimilarName<'n>>,
) -> Result<Option<SimilarName<'n>>, AllocError> {
    let mut similar = before;
    for known in names.iter().take(MOST_NAMES) {
        similar = more_similar(alloc, known.as_str(), name, similar)?;
    }
    Ok(similar)
}

/// The name that is similar to one that is meant, where at most a third of its letters are edited.
pub(crate) fn name_of<'n>(similar: Option<SimilarName<'n>>, meant: &str) -> Option<&'n str> {
    match similar {
        Some(found) if found.edits.saturating_mul(3) <= meant.len() => Some(found.name),
        _ => None,
    }
}
