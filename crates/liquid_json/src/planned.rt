//! Values from the tokens of a text of JSON, without what nobody asks for.
ghost use Rattle.std.specs.Prelude.{◌≡◌, ◌<◌, length, Some, IfOk, IfSome, OnOk, IsTrue};
ghost use Rattle.json.specs.Json.{parse_map};
ghost use Rattle.liquid_model.specs.Data.{array, nil, object, no_items, no_pairs};
ghost use Rattle.liquid_model.specs.View.{view, items_view, pairs_view};
ghost use Rattle.liquid_model.specs.Uses.{parts, uncounted};
ghost use Rattle.liquid_model.specs.UseViews.{use_view, members_view, turns_view, uses_view};
ghost use Rattle.liquid_json.specs.Json.{data_of};
ghost use Rattle.liquid_json.specs.PlainUses.{is_plain_use, plain_fields, plain_turns};
ghost use Rattle.liquid_json.specs.inside.Planned.{IsPlanned, IsReadData, PairsPlanned};
ghost use Rattle.liquid_json.specs.inside.Planned.{AreFirstItems, ArePlanned};
ghost use Rattle.liquid_json.specs.inside.Skipped.{IsItems, IsSkippedValue};
ghost use Rattle.liquid_json.specs.inside.Tokens.{pairs_at};
ghost use Rattle.liquid_json.specs.declared.tokens.Numbers.TheVariants.{Integers};

use crate::skip::{skip_items, skipped};
use crate::tokens::{MAX_DEPTH, NoData, Numbers, put_member, read, read_pairs, scalar};
use json::{Reader, Scratch, Token};
use liquid_model::{ItemUse, Object, Use, Uses, Value};
use std::alloc::{AllocError, Global};
use std::collections::BTreeMap;

/// The most items that a list has.
const MOST_ITEMS: usize = 9_223_372_036_854_775_807;

/// How much of an item is built. Where nearly all of each record is asked for, it takes longer to
/// look each name up than to build what nobody asks for.
#[derive(Clone, Copy, Drop)]
enum Extent {
    /// All of it.
    Whole,
    /// What is asked for.
    Asked,
}

impl Extent {
    /// That of the next item: whole from a first record on that has no more members than these,
    /// up to a record that has more, or is none.
    fn after(self, item: &Value, count: usize, is_first: bool) -> Extent {
        match item {
            Value::Object(pairs) if 0 < pairs.len() && pairs.len() <= count => {
                if is_first { Extent::Whole } else { self }
            }
            _ => Extent::Asked,
        }
    }
}

/// How many members are asked for, where each of them is asked for as a whole, or else 0.
fn whole_members(asked: &Use) -> usize {
    match asked {
        Use::Parts {
            members,
            items: None,
        } => {
            for (_, member) in members.iter() {
                if !is_whole(member) {
                    return 0;
                }
            }
            members.len()
        }
        _ => 0,
    }
}

/// Whether everything is asked for, of a list at least.
fn is_whole(asked: &Use) -> bool {
    match asked {
        Use::Everything => true,
        Use::Parts {
            members,
            items: Some(items),
        } => members.is_empty() && is_everything(&items.each),
        _ => false,
    }
}

fn is_everything(asked: &Use) -> bool {
    matches!(asked, Use::Everything)
}

/// The data of a text as far as these uses ask for it, or none where the text isn't plain: it is no
/// JSON or no object, or has a number that isn't whole. The scratch is the memory that reading
/// needs.
pub fn data_from_planned(
    alloc: Global,
    text: &str,
    uses: &Uses,
    scratch: &mut Scratch,
) -> Result<Option<Object>, AllocError>
    requires plain { IsTrue (plain_fields (members_view uses.now.entries)) }
    ensures { IfOk result (λ o. IfSome o (λ m.
        IsReadData (uses_view uses.now) (data_of text.now) (pairs_view m.entries))) }
{
    let mut reader = Reader::new(text, scratch)?;
    let items = None;
    let value = match read_parts(alloc, &mut reader, MAX_DEPTH, &items, uses) {
        Ok(value) => value,
        Err(NoData::Memory) => return Err(AllocError),
        Err(NoData::Other) => return Ok(None),
    };
    if reader.next().is_some() {
        return Ok(None);
    }
    match value {
        Value::Object(data) => Ok(Some(data)),
        _ => Ok(None),
    }
}

/// Nil in place of a value of which nothing is asked: it is skipped.
fn unread(reader: &mut Reader<'_>, depth: usize) -> Result<Value, NoData>
    ensures ok { IfOk result (λ v. IsSkippedValue depth reader.old reader.new × (view v ≡ nil)) }
    ensures shorter { OnOk result (length reader.new < length reader.old) }
{
    skipped(reader, depth)?;
    Ok(Value::Nil)
}

/// A list of whose items nothing is asked: they are skipped.
fn without_items(alloc: Global, reader: &mut Reader<'_>, depth: usize) -> Result<Value, NoData>
    ensures ok { IfOk result (λ v. IsItems depth reader.old reader.new ×
        (view v ≡ array no_items)) }
    ensures shorter { OnOk result (length reader.new < length reader.old) }
{
    skip_items(reader, depth)?;
    Ok(Value::Array(Vec::new(alloc)))
}

/// A map as a whole.
fn whole_map(alloc: Global, reader: &mut Reader<'_>, depth: usize) -> Result<Value, NoData>
    ensures ok { IfOk result (λ v. parse_map object
        (pairs_at Integers depth no_pairs (length reader.old) reader.old) ≡
        Some (view v, reader.new)) }
    ensures shorter { OnOk result (length reader.new < length reader.old) }
{
    Ok(Value::Object(read_pairs(alloc, reader, depth, Numbers::Integers)?))
}

/// The value at the front of the tokens, as far as it is asked for.
#[cycle(planned)]
fn read_planned(
    alloc: Global,
    reader: &mut Reader<'_>,
    depth: usize,
    asked: &Use,
) -> Result<Value, NoData>
    requires plain { IsTrue (is_plain_use (use_view asked.now)) }
    ensures ok { IfOk result (λ v. IsPlanned (use_view asked.now) depth reader.old
        (view v) reader.new) }
    ensures shorter { OnOk result (length reader.new < length reader.old) }
{
    match asked {
        Use::Nothing => unread(reader, depth),
        Use::Everything => read(alloc, reader, depth, Numbers::Integers),
        Use::Parts { members, items } => read_parts(alloc, reader, depth, items, members),
    }
}

#[cycle(planned)]
fn read_parts(
    alloc: Global,
    reader: &mut Reader<'_>,
    depth: usize,
    items: &Option<ItemUse>,
    members: &Uses,
) -> Result<Value, NoData>
    requires plain_members { IsTrue (plain_fields (members_view members.now.entries)) }
    requires plain_items { IsTrue (plain_turns (turns_view items.now)) }
    ensures ok { IfOk result (λ v.
        IsPlanned (parts (members_view members.now.entries) (turns_view items.now)) depth
        reader.old (view v) reader.new) }
    ensures shorter { OnOk result (length reader.new < length reader.old) }
{
    let Some(token) = reader.next() else {
        return Err(NoData::Other);
    };
    match token {
        Token::BeginArray => {
            if depth == 0 {
                return Err(NoData::Other);
            }
            match items {
                None => without_items(alloc, reader, depth - 1),
                Some(asked) => Ok(Value::Array(asked_items(alloc, reader, depth - 1, asked)?)),
            }
        }
        Token::BeginObject => {
            if depth == 0 {
                return Err(NoData::Other);
            }
            match items {
                None => Ok(Value::Object(planned_pairs(alloc, reader, depth - 1, members)?)),
                Some(_asked) => whole_map(alloc, reader, depth - 1),
            }
        }
        _ => scalar(alloc, token, Numbers::Integers),
    }
}

/// The items of a list: of each up to the limit as much as is asked for.
#[cycle(planned)]
fn asked_items(
    alloc: Global,
    reader: &mut Reader<'_>,
    depth: usize,
    asked: &ItemUse,
) -> Result<Vec<Value>, NoData>
    requires plain { IsTrue (is_plain_use (use_view asked.now.each.value)) }
    ensures ok { IfOk result (λ v.
        AreFirstItems asked.now.limit (use_view asked.now.each.value) depth
        reader.old (items_view v.items) reader.new) }
    ensures shorter { OnOk result (length reader.new < length reader.old) }
{
    match asked.limit {
        None => planned_items(alloc, reader, depth, &asked.each),
        Some(limit) => first_items(alloc, reader, depth, limit, &asked.each),
    }
}

#[cycle(planned)]
#[inline(never)]
fn planned_items(
    alloc: Global,
    reader: &mut Reader<'_>,
    depth: usize,
    asked: &Use,
) -> Result<Vec<Value>, NoData>
    requires plain { IsTrue (is_plain_use (use_view asked.now)) }
    ensures ok { IfOk result (λ v. ArePlanned (use_view asked.now) depth reader.old
        (items_view v.items) reader.new) }
    ensures shorter { OnOk result (length reader.new < length reader.old) }
{
    let count = whole_members(asked);
    let mut extent = Extent::Asked;
    let mut found = Vec::new(alloc);
    'items: while !reader.take_end_array() {
        let item = read_item(alloc, reader, depth, asked, extent)?;
        extent = extent.after(&item, count, found.is_empty());
        found.push(item)?;
    }
    Ok(found)
}

/// Of each of the first items as much as is asked for. Those after the limit are skipped, and
/// counted as far as a list may go.
#[cycle(planned)]
#[inline(never)]
fn first_items(
    alloc: Global,
    reader: &mut Reader<'_>,
    depth: usize,
    limit: usize,
    asked: &Use,
) -> Result<Vec<Value>, NoData>
    requires plain { IsTrue (is_plain_use (use_view asked.now)) }
    ensures ok { IfOk result (λ v. AreFirstItems (Some limit) (use_view asked.now) depth reader.old
        (items_view v.items) reader.new) }
    ensures shorter { OnOk result (length reader.new < length reader.old) }
{
    let mut found = Vec::new(alloc);
    let mut room = MOST_ITEMS;
    'items: while !reader.take_end_array() {
        if room == 0 {
            return Err(NoData::Memory);
        }
        room -= 1;
        if found.len() < limit {
            let item = read_planned(alloc, reader, depth, asked)?;
            found.push(item)?;
        } else {
            skipped(reader, depth)?;
        }
    }
    Ok(found)
}

/// The item at the front of the tokens, whole or as far as it is asked for.
#[cycle(planned)]
fn read_item(
    alloc: Global,
    reader: &mut Reader<'_>,
    depth: usize,
    asked: &Use,
    extent: Extent,
) -> Result<Value, NoData>
    requires plain { IsTrue (is_plain_use (use_view asked.now)) }
    ensures ok { IfOk result (λ v. IsPlanned (use_view asked.now) depth reader.old
        (view v) reader.new) }
    ensures shorter { OnOk result (length reader.new < length reader.old) }
{
    match extent {
        Extent::Whole => read(alloc, reader, depth, Numbers::Integers),
        Extent::Asked => read_planned(alloc, reader, depth, asked),
    }
}

#[cycle(planned)]
#[inline(never)]
fn planned_pairs(
    alloc: Global,
    reader: &mut Reader<'_>,
    depth: usize,
    members: &Uses,
) -> Result<Object, NoData>
    requires plain { IsTrue (plain_fields (members_view members.now.entries)) }
    ensures ok { IfOk result (λ m. PairsPlanned (members_view members.now.entries) depth reader.old
        (pairs_view m.entries) reader.new) }
    ensures shorter { OnOk result (length reader.new < length reader.old) }
{
    let mut found: Object = BTreeMap::new(alloc);
    'pairs: while let Some(name) = reader.next_key()? {
        match members.get(name) {
            Some(asked) => {
                let member = read_planned(alloc, reader, depth, asked)?;
                put_member(alloc, &mut found, name, member)?;
            }
            None => skipped(reader, depth)?,
        }
    }
    Ok(found)
}
