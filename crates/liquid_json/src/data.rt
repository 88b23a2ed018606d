//! Data from JSON.
ghost use Rattle.std.specs.Prelude.{◌≡◌, IfOk, IfErr, IfSome};
ghost use Rattle.liquid_model.specs.Answer.{Answers};
ghost use Rattle.liquid_model.specs.View.{view, items_view, pairs_view};
ghost use Rattle.liquid_model.specs.UseViews.{uses_view};
ghost use Rattle.liquid_json.specs.Asked.{AnswersAlike};
ghost use Rattle.liquid_json.specs.Json.{datum_of, parsed_items, parsed_pairs, parsed_object};
ghost use Rattle.liquid_json.specs.Json.{data_of, value_in, whole_number};
ghost use Rattle.liquid_json.specs.Under.{KeysUnder};
ghost use Rattle.liquid_json.specs.inside.Planned.{IsReadData};
ghost use Rattle.serde_json.specs.Find.{as_i64};
ghost use Rattle.serde_json.specs.View.{view as json_view, items_view as json_items};
ghost use Rattle.serde_json.specs.View.{members_view as json_members, number_view};

use crate::copies::{any_by_place, plain_uses};
use crate::grammar::Wants;
use crate::place::{no_json, with_place};
use crate::planned::data_from_planned;
use crate::tokens::{MAX_DEPTH, data_from_tokens};
use json::Scratch;
use liquid_model::{Error, ErrorKind, Object, Result, Uses, Value};
use serde_json::{Map, Number};
use std::alloc::{AllocError, Global};
use std::collections::BTreeMap;

/// The data that a text of JSON gives: an object without any number that isn't whole.
pub fn data_from_json(alloc: Global, text: &str) -> Result<Object>
    ensures { Answers (λ m. pairs_view m.entries) result (data_of text.now) }
{
    data_by(alloc, text, &mut Scratch::new(alloc))
}

/// The same with this memory for reading.
pub(crate) fn data_by(alloc: Global, text: &str, scratch: &mut Scratch) -> Result<Object>
    ensures { Answers (λ m. pairs_view m.entries) result (data_of text.now) }
{
    if let Some(data) = data_from_tokens(alloc, text, scratch)? {
        return Ok(data);
    }
    data_from_tree(alloc, text)
}

/// The data that a text of JSON gives, as far as these uses ask for it: under each name stands a
/// value that is alike with the text's in all that is asked of it, so whoever looks at no more
/// can't tell the two apart. What nobody asks for is read over and mostly not built, so it may be
/// missing or nil, and a list may end early. Nothing stands there that the text hasn't.
///
/// The text is refused exactly where `data_from_json` refuses it, by the same kind of fault, also
/// for what nobody asks for: `InvalidInput` where it is no JSON or no object, `Float` where a
/// number isn't whole or is past 64 bits. `Memory` where a growth was refused.
pub fn data_for(alloc: Global, text: &str, uses: &Uses) -> Result<Object>
    ensures alike { AnswersAlike (λ m. pairs_view m.entries) (uses_view uses.now) result
        (data_of text.now) }
    ensures under { IfOk result (λ m. IfOk (data_of text.now) (λ ps.
        KeysUnder ps (pairs_view m.entries))) }
{
    if let Some(data) = data_if_plain(alloc, text, uses)? {
        return Ok(data);
    }
    data_from_json(alloc, text)
}

/// The same by the tokens, where the uses can be followed and the text is plain.
fn data_if_plain(alloc: Global, text: &str, uses: &Uses) -> Result<Option<Object>>
    ensures alike { IfOk result (λ o. IfSome o (λ m.
        IsReadData (uses_view uses.now) (data_of text.now) (pairs_view m.entries))) }
    ensures memory { IfErr result (λ e. e.kind ≡ ErrorKind.Memory) }
{
    if any_by_place(uses) {
        return Ok(None);
    }
    let plain = plain_uses(alloc, uses, MAX_DEPTH)?;
    let data = data_from_planned(alloc, text, &plain, &mut Scratch::new(alloc))?;
    Ok(data)
}

/// The same by the tree of the whole text, which tells each fault.
fn data_from_tree(alloc: Global, text: &str) -> Result<Object>
    ensures { Answers (λ m. pairs_view m.entries) result (data_of text.now) }
{
    match serde_json::Value::from_str(alloc, text) {
        Ok(value) => match object_of(alloc, value) {
            Ok(data) => Ok(data),
            Err(error) => Err(with_place(alloc, text, error)),
        },
        Err(refused) => if refused.is_memory() {
            Err(Error::from(AllocError))
        } else {
            Err(no_json(alloc, text, Wants::Data))
        },
    }
}

/// The value that a text of JSON gives: one of any kind, without any number that isn't whole.
///
/// The text is refused by `InvalidInput` where it is no JSON, and by `Float` where a number isn't
/// whole or is past 64 bits, with the place. `Memory` where a growth was refused.
pub fn value_from_json(alloc: Global, text: &str) -> Result<Value>
    ensures { Answers view result (value_in text.now) }
{
    match serde_json::Value::from_str(alloc, text) {
        Ok(value) => match value_of(alloc, value) {
            Ok(value) => Ok(value),
            Err(error) => Err(with_place(alloc, text, error)),
        },
        Err(refused) => if refused.is_memory() {
            Err(Error::from(AllocError))
        } else {
            Err(no_json(alloc, text, Wants::Value))
        },
    }
}

fn object_of(alloc: Global, value: serde_json::Value) -> Result<Object>
    ensures { Answers (λ m. pairs_view m.entries) result (parsed_object (json_view value)) }
{
    match value {
        serde_json::Value::Object(members) => pairs_of(alloc, members),
        _ => Err(Error::new(alloc, ErrorKind::InvalidInput, "the data is no object")),
    }
}

/// A number, which has to be whole.
fn integer(alloc: Global, number: Number) -> Result<Value>
    ensures { Answers view result (whole_number (as_i64 (number_view number))) }
{
    match number.as_i64() {
        Some(n) => Ok(Value::Integer(n)),
        None => Err(Error::new(
            alloc,
            ErrorKind::Float,
            "a number is not whole, or past 64 bits",
        )),
    }
}

#[cycle(value_of)]
fn value_of(alloc: Global, value: serde_json::Value) -> Result<Value>
    ensures { Answers view result (datum_of (json_view value)) }
{
    match value {
        serde_json::Value::Null => Ok(Value::Nil),
        serde_json::Value::Bool(b) => Ok(Value::Bool(b)),
        serde_json::Value::Number(number) => integer(alloc, number),
        serde_json::Value::String(text) => Ok(Value::Text(text)),
        serde_json::Value::Array(items) => Ok(Value::Array(items_of(alloc, items)?)),
        serde_json::Value::Object(members) => Ok(Value::Object(pairs_of(alloc, members)?)),
    }
}

#[cycle(value_of)]
fn items_of(alloc: Global, items: Vec<serde_json::Value>) -> Result<Vec<Value>>
    ensures { Answers (λ v. items_view v.items) result (parsed_items (json_items items.items)) }
{
    let mut values = Vec::with_capacity(alloc, items.len())?;
    for item in items {
        values.push(value_of(alloc, item)?)?;
    }
    Ok(values)
}

#[cycle(value_of)]
#[tactic(auto, using(crate::proofs::Members::pairs_after_insert, crate::proofs::Members::pairs_from_sorted))]
fn pairs_of(alloc: Global, members: Map<String, serde_json::Value>) -> Result<Object>
    ensures { Answers (λ m. pairs_view m.entries) result
        (parsed_pairs (json_members members.entries)) }
{
    let mut pairs: Object = BTreeMap::new(alloc);
    for (key, member) in members {
        drop(pairs.insert(key, value_of(alloc, member)?)?);
    }
    Ok(pairs)
}
