//! Copies of uses that a reader can follow token by token: each use that it can't follow becomes
//! everything.
ghost use Rattle.std.specs.Prelude.{◌≡◌, false, IfOk, IfErr, IsTrue};
ghost use Rattle.liquid_model.specs.UseViews.{use_view, members_view, turns_view};
ghost use Rattle.liquid_json.specs.PlainUses.{is_plain_use, plain_fields, plain_turns};
ghost use Rattle.liquid_json.specs.inside.Copies as spec;
ghost use Rattle.liquid_json.specs.inside.Copies.{AsksMore, AskMore, ItemsAskMore};

use liquid_model::{ErrorKind, ItemUse, Result, Use, Uses, whole_of};
use std::alloc::Global;
use std::collections::BTreeMap;

/// A copy of the uses. Each use inside that asks for an item by its place or for a length becomes
/// everything, and so does each that nests deeper than `depth`.
#[cycle(plain_use)]
pub fn plain_uses(alloc: Global, uses: &Uses, depth: usize) -> Result<Uses>
    requires named { spec.any_by_place (members_view uses.now.entries) ≡ false }
    ensures plain { IfOk result (λ m. IsTrue (plain_fields (members_view m.entries))) }
    ensures more { IfOk result (λ m.
        AskMore (members_view m.entries) (members_view uses.now.entries)) }
    ensures memory { IfErr result (λ e. e.kind ≡ ErrorKind.Memory) }
{
    let mut found: Uses = BTreeMap::new(alloc);
    for (name, asked) in uses.iter() {
        let key = String::from_str(alloc, name.as_str())?;
        let member = plain_use(alloc, asked, depth)?;
        drop(found.insert(key, member)?);
    }
    Ok(found)
}

#[cycle(plain_use)]
#[tactic(auto, using(crate::proofs::PlainCopies::all_more, crate::proofs::PlainCopies::same_more))]
fn plain_use(alloc: Global, asked: &Use, depth: usize) -> Result<Use>
    ensures plain { IfOk result (λ u. IsTrue (is_plain_use (use_view u))) }
    ensures more { IfOk result (λ u. AsksMore (use_view u) (use_view asked.now)) }
    ensures memory { IfErr result (λ e. e.kind ≡ ErrorKind.Memory) }
{
    match asked {
        Use::Nothing => Ok(Use::Nothing),
        Use::Everything => Ok(Use::Everything),
        Use::Parts { members, items } => {
            if depth == 0 {
                return Ok(Use::Everything);
            }
            if any_by_place(members) {
                return Ok(Use::Everything);
            }
            let members = plain_uses(alloc, members, depth - 1)?;
            let items = plain_items(alloc, items, depth - 1)?;
            Ok(Use::Parts { members, items })
        }
    }
}

#[cycle(plain_use)]
fn plain_items(alloc: Global, items: &Option<ItemUse>, depth: usize) -> Result<Option<ItemUse>>
    ensures plain { IfOk result (λ o. IsTrue (plain_turns (turns_view o))) }
    ensures more { IfOk result (λ o. ItemsAskMore (turns_view o) (turns_view items.now)) }
    ensures memory { IfErr result (λ e. e.kind ≡ ErrorKind.Memory) }
{
    match items {
        None => Ok(None),
        Some(asked) => {
            let item = plain_use(alloc, &asked.each, depth)?;
            let each = Box::new(alloc, item)?;
            Ok(Some(ItemUse {
                limit: asked.limit,
                each,
            }))
        }
    }
}

/// Whether one of them asks for an item by its place, or for a length.
pub fn any_by_place(members: &Uses) -> bool
    ensures { result ≡ spec.any_by_place (members_view members.now.entries) }
{
    for (name, _) in members.iter() {
        if finds_by_place(name.as_str()) {
            return true;
        }
    }
    false
}

fn finds_by_place(name: &str) -> bool
    ensures { result ≡ spec.finds_by_place name.now }
{
    name == "size" || whole_of(name).is_some() || name == "first" || name == "last"
}
