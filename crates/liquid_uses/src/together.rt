//! What several templates ask of the same data.
ghost use Rattle.std.specs.Prelude.{◌≡◌, IfErr, IfOk, IfSome, true};
ghost use Rattle.liquid_model.specs.UseViews.{uses_view};
ghost use Rattle.liquid_uses.specs.Together.{AsksAll};

use crate::merge::{copied_members, joined_members};
use liquid_core::{ErrorKind, Result, Uses};
use liquid_model::includes_all;
use std::alloc::Global;

/// What both ask for, name by name. None where they can't be put together: then everything is to be
/// read.
///
/// `Memory` where there is no room for them.
pub fn uses_together(alloc: Global, one: &Uses, other: &Uses) -> Result<Option<Uses>>
    ensures one { IfOk result (λ o. IfSome o (λ uses.
        AsksAll (uses_view uses) (uses_view one.now))) }
    ensures other { IfOk result (λ o. IfSome o (λ uses.
        AsksAll (uses_view uses) (uses_view other.now))) }
    ensures memory { IfErr result (λ e. e.kind ≡ ErrorKind.Memory) }
{
    let both = joined_members(
        alloc,
        copied_members(alloc, one)?,
        copied_members(alloc, other)?,
    )?;
    if asks_all(&both, one) && asks_all(&both, other) {
        Ok(Some(both))
    } else {
        Ok(None)
    }
}

/// Whether of each name all is asked that the others ask for.
#[tactic(auto, using(crate::proofs::AskedTogether::all_asked))]
fn asks_all(uses: &Uses, others: &Uses) -> bool
    ensures { result ≡ true → AsksAll (uses_view uses.now) (uses_view others.now) }
{
    includes_all(uses, others)
}
