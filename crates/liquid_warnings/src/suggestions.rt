//! The names that may be meant by those that nobody has.
use crate::messages::{most_similar_key, most_similar_of_set, name_of};
use liquid_core::Object;
use std::alloc::{AllocError, Global};
use std::collections::{BTreeMap, BTreeSet};

/// The most names for which a similar one is shown, of all templates together.
const MOST_SUGGESTIONS: usize = 100;

/// The most names for which a similar one is looked for.
const MOST_SEARCHES: usize = 1000;

/// Names that nobody has, each with the similar one that may be meant.
pub(crate) type Suggestions = BTreeMap<String, String>;

/// The names that are there.
#[derive(Clone, Copy)]
pub(crate) struct KnownNames<'n> {
    pub data: &'n Object,
    /// Those that a tag of any template sets, but of partials that `render` alone runs.
    pub set: &'n BTreeSet<String>,
    /// Those that a tag of the template at hand sets.
    pub own: &'n BTreeSet<String>,
}

impl<'n> KnownNames<'n> {
    /// Whether the data or a tag has a name.
    pub(crate) fn has(&self, name: &str) -> bool {
        self.data.get(name).is_some() || self.set.contains(name) || self.own.contains(name)
    }

    /// The name that is most similar to one that nobody has.
    fn most_similar(&self, alloc: Global, name: &str) -> Result<Option<&'n str>, AllocError> {
        let similar = most_similar_key(alloc, self.data, name, None)?;
        let similar = most_similar_of_set(alloc, self.set, name, similar)?;
        Ok(name_of(similar, name))
    }
}

/// What is suggested for the names that are read and that nobody has, in the order of the names.
/// The first thousand of them are looked at, and no more once a hundred have a suggestion: more
/// than that nobody reads, and a search takes its time where templates have many names.
pub(crate) fn suggestions_for(
    alloc: Global,
    read: &BTreeSet<String>,
    known: KnownNames<'_>,
) -> Result<Suggestions, AllocError> {
    let mut suggestions = BTreeMap::new(alloc);
    let mut left = MOST_SEARCHES;
    for name in read {
        if left == 0 || suggestions.len() >= MOST_SUGGESTIONS {
            break;
        }
        if !known.has(name.as_str()) {
            left -= 1;
            add_suggestion(alloc, name.as_str(), known, &mut suggestions)?;
        }
    }
    Ok(suggestions)
}

/// Adds what is suggested for a name that nobody has, if a similar one is there.
fn add_suggestion(
    alloc: Global,
    name: &str,
    known: KnownNames<'_>,
    suggestions: &mut Suggestions,
) -> Result<(), AllocError> {
    if let Some(similar) = known.most_similar(alloc, name)? {
        let similar = String::from_str(alloc, similar)?;
        drop(suggestions.insert(String::from_str(alloc, name)?, similar)?);
    }
    Ok(())
}

/// What is suggested for a name, if anything is.
pub(crate) fn suggestion_for<'s>(suggestions: &'s Suggestions, name: &str) -> Option<&'s str> {
    match suggestions.get(name) {
        Some(similar) => Some(similar.as_str()),
        None => loop_object(name),
    }
}

/// The object of a loop that other languages call by a name.
fn loop_object(name: &str) -> Option<&'static str> {
    match name {
        "loop" => Some("forloop"),
        "tablerowloop" => Some("tablerow"),
        _ => None,
    }
}
