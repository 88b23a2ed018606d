//! What is asked of some of the names.
ghost use Rattle.std.specs.Prelude.{◌≡◌, T, true};
ghost use Rattle.liquid_model.specs.Texts.{Text};
ghost use Rattle.liquid_model.specs.Uses.{includes};
ghost use Rattle.liquid_model.specs.UseViews.{uses_view};
ghost use Rattle.liquid_syntax.specs.NameSets.{mentioned_in_set};

use crate::merge::copied;
use liquid_core::{Uses, member_of};
use std::alloc::{AllocError, Global};
use std::collections::{BTreeMap, BTreeSet};

/// What is asked of these names alone. What comes of it is tested by `keep_all`.
pub(crate) fn kept_uses(
    alloc: Global,
    uses: &Uses,
    names: &BTreeSet<String>,
) -> Result<Uses, AllocError> {
    let mut kept: Uses = BTreeMap::new(alloc);
    for name in names.iter() {
        if let Some(asked) = member_of(uses, name.as_str()) {
            let key = String::from_str(alloc, name.as_str())?;
            drop(kept.insert(key, copied(alloc, asked)?)?);
        }
    }
    Ok(kept)
}

/// Whether all that is asked of each of these names is kept.
pub(crate) fn keep_all(kept: &Uses, uses: &Uses, names: &BTreeSet<String>) -> bool
    ensures { result ≡ true → (q : Text) → T (mentioned_in_set names.now q)
        → includes (uses_view kept.now q) (uses_view uses.now q) ≡ true }
{
    for name in names.iter() {
        if !is_kept(kept, uses, name.as_str()) {
            return false;
        }
    }
    true
}

fn is_kept(kept: &Uses, uses: &Uses, name: &str) -> bool
    ensures { result ≡ true → includes (uses_view kept.now name.now) (uses_view uses.now name.now)
        ≡ true }
{
    match member_of(uses, name) {
        Some(asked) => match member_of(kept, name) {
            Some(held) => held.includes(asked),
            None => false,
        },
        None => true,
    }
}
