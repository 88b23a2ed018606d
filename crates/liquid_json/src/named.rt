//! Data from JSON that stands under one name among others.
ghost use Rattle.std.specs.Prelude.{◌≡◌, IfOk, IfErr, IfSome};
ghost use Rattle.liquid_model.specs.Uses.{parts, uncounted};
ghost use Rattle.liquid_model.specs.UseViews.{members_view, turns_view, use_view};
ghost use Rattle.liquid_model.specs.View.{pairs_view};
ghost use Rattle.liquid_json.specs.Json.{data_of};
ghost use Rattle.liquid_json.specs.MapsAsked.{AnswersMapAlike, IsAlikeMap};

use crate::copies::{any_by_place, plain_uses};
use crate::data::data_from_json;
use crate::planned::data_from_planned;
use crate::tokens::MAX_DEPTH;
use json::Scratch;
use liquid_model::{ErrorKind, ItemUse, Object, Result, Use, Uses};
use std::alloc::Global;
use std::collections::BTreeMap;

/// The data that a text of JSON gives, as far as this use of it as one map asks: a map that is
/// alike with the text's in all that is asked of it. What nobody asks for is read over and mostly
/// not built, so it may be missing.
///
/// The text is refused exactly where `data_from_json` refuses it, by the same kind of fault, also
/// for what nobody asks for: `InvalidInput` where it is no JSON or no object, `Float` where a
/// number isn't whole or is past 64 bits. `Memory` where a growth was refused.
#[tactic(auto, using(crate::proofs::MapsAlike::whole_map_answers))]
pub fn map_for(alloc: Global, text: &str, asked: &Use) -> Result<Object>
    ensures { AnswersMapAlike (λ m. pairs_view m.entries) (use_view asked.now) result
        (data_of text.now) }
{
    if let Some(data) = map_if_plain(alloc, text, asked)? {
        return Ok(data);
    }
    data_from_json(alloc, text)
}

/// The same by the tokens, where less than the whole is asked for and the text is plain.
fn map_if_plain(alloc: Global, text: &str, asked: &Use) -> Result<Option<Object>>
    ensures alike { IfOk result (λ o. IfSome o (λ m.
        IsAlikeMap (use_view asked.now) (data_of text.now) (pairs_view m.entries))) }
    ensures memory { IfErr result (λ e. e.kind ≡ ErrorKind.Memory) }
{
    match asked {
        Use::Nothing => {
            let none = BTreeMap::new(alloc);
            members_if_plain(alloc, text, &none)
        }
        Use::Everything => Ok(None),
        Use::Parts { members, items } => parts_if_plain(alloc, text, members, items),
    }
}

/// The same where no items are asked for.
fn parts_if_plain(
    alloc: Global,
    text: &str,
    members: &Uses,
    items: &Option<ItemUse>,
) -> Result<Option<Object>>
    ensures alike { IfOk result (λ o. IfSome o (λ m.
        IsAlikeMap (parts (members_view members.now.entries) (turns_view items.now))
        (data_of text.now) (pairs_view m.entries))) }
    ensures memory { IfErr result (λ e. e.kind ≡ ErrorKind.Memory) }
{
    match items {
        Some(_) => Ok(None),
        None => members_if_plain(alloc, text, members),
    }
}

/// The same where some members are asked for, and none by its place.
fn members_if_plain(alloc: Global, text: &str, members: &Uses) -> Result<Option<Object>>
    ensures alike { IfOk result (λ o. IfSome o (λ m.
        IsAlikeMap (parts (members_view members.now.entries) uncounted) (data_of text.now)
        (pairs_view m.entries))) }
    ensures memory { IfErr result (λ e. e.kind ≡ ErrorKind.Memory) }
{
    if any_by_place(members) {
        return Ok(None);
    }
    let plain = plain_uses(alloc, members, MAX_DEPTH)?;
    let data = data_from_planned(alloc, text, &plain, &mut Scratch::new(alloc))?;
    Ok(data)
}
