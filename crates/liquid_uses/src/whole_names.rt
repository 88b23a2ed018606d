//! Every name of a run, whole.
ghost use Rattle.std.specs.Prelude.{◌≡◌, cond, IfOk};
ghost use Rattle.liquid_model.specs.Uses.{everything, nothing};
ghost use Rattle.liquid_model.specs.UseViews.{uses_view};
ghost use Rattle.liquid_syntax.specs.NameSets.{mentioned_in_set};

use liquid_core::{Use, Uses};
use std::alloc::{AllocError, Global};
use std::collections::{BTreeMap, BTreeSet};

/// Everything of each of these names, and nothing of any other.
pub(crate) fn whole_names(alloc: Global, names: BTreeSet<String>) -> Result<Uses, AllocError>
    ensures { (name : _) → IfOk result (λ uses. uses_view uses name
        ≡ cond (mentioned_in_set names name) everything nothing) }
{
    let mut uses: Uses = BTreeMap::new(alloc);
    for name in names {
        drop(uses.insert(name, Use::Everything)?);
    }
    Ok(uses)
}
