//! Data straight from the tokens of a text of JSON.
ghost use Rattle.std.specs.Prelude.{◌≡◌, ◌<◌, length, Ok, Err, Some, None, IfOk, IfSome};
ghost use Rattle.std.specs.Prelude.{MatchOption, OnOk};
ghost use Rattle.json.specs.Json.{value, items};
ghost use Rattle.json.specs.Reads.{token_of};
ghost use Rattle.liquid_model.specs.Data.{no_pairs, put};
ghost use Rattle.liquid_model.specs.View.{view, items_view, pairs_view};
ghost use Rattle.liquid_model.specs.declared.error.ErrorKind.TheVariants.{InvalidInput};
ghost use Rattle.liquid_json.specs.AnyNumbers.{spelled_value};
ghost use Rattle.liquid_json.specs.Json.{data_of};
ghost use Rattle.liquid_json.specs.declared.tokens.NoData.TheVariants.{Memory, Other};
ghost use Rattle.liquid_json.specs.declared.tokens.Numbers.TheVariants.{Integers, All};
ghost use Rattle.liquid_json.specs.inside.Tokens.{datum_at, list_items_at, number_datum};
ghost use Rattle.liquid_json.specs.inside.Tokens.{pairs_at, scalar_of};

use crate::whole::integer_of;
use json::{Invalid, Reader, Scratch, Token};
use liquid_model::{Object, Value};
use std::alloc::{AllocError, AllocFailed, Global};
use std::collections::BTreeMap;

/// How deep lists and maps may stand in one another, as where the whole text is read to a tree.
pub const MAX_DEPTH: usize = 127;

/// Which numbers data has.
#[derive(Clone, Copy, Debug, PartialEq, Eq, Drop)]
pub enum Numbers {
    /// Whole ones of 64 bits. Another is refused.
    Integers,
    /// Any. One that isn't whole, or is past 64 bits, is the text of its spelling.
    All,
}

/// Why the tokens gave no data: memory was refused, or they are no such data.
#[derive(Clone, Copy, Drop)]
pub enum NoData {
    Memory,
    Other,
}

impl From<AllocError> for NoData {
    ghost from_gives = { λ _ e. e ≡ Memory };

    fn from(_refused: AllocError) -> NoData {
        NoData::Memory
    }
}

impl<T: Drop> From<AllocFailed<T>> for NoData {
    ghost from_gives = { λ _ e. e ≡ Memory };

    fn from(_refused: AllocFailed<T>) -> NoData {
        NoData::Memory
    }
}

impl From<crate::skip::Refused> for NoData {
    ghost from_gives = { λ _ e. e ≡ Other };

    fn from(_refused: crate::skip::Refused) -> NoData {
        NoData::Other
    }
}

impl From<Invalid> for NoData {
    ghost from_gives = { λ _ e. e ≡ Other };

    fn from(_invalid: Invalid) -> NoData {
        NoData::Other
    }
}

/// The data of a text, or none where it isn't plain: no JSON, no object, or with a number that
/// isn't whole. The scratch is the memory that reading needs.
pub fn data_from_tokens(
    alloc: Global,
    text: &str,
    scratch: &mut Scratch,
) -> Result<Option<Object>, AllocError>
    ensures { IfOk result (λ o. IfSome o (λ m. data_of text.now ≡ Ok (pairs_view m.entries))) }
{
    let mut reader = Reader::new(text, scratch)?;
    let value = match read(alloc, &mut reader, MAX_DEPTH, Numbers::Integers) {
        Ok(value) => value,
        Err(NoData::Memory) => return Err(AllocError),
        Err(NoData::Other) => return Ok(None),
    };
    if reader.next().is_some() {
        return Ok(None);
    }
    match value {
        Value::Object(data) => Ok(Some(data)),
        _ => Ok(None),
    }
}

/// The value that a text of JSON gives, of any kind, where a number that isn't whole, or is past 64
/// bits, is the text of its spelling; none where the text is no JSON. The error is refused memory.
pub fn value_of_any_numbers(alloc: Global, text: &str) -> Result<Option<Value>, AllocError>
    ensures value { IfOk result (λ o. MatchOption o (spelled_value text.now ≡ Err InvalidInput)
        (λ v. spelled_value text.now ≡ Ok (view v))) }
{
    let mut scratch = Scratch::new(alloc);
    let mut reader = Reader::new(text, &mut scratch)?;
    let value = match read(alloc, &mut reader, MAX_DEPTH, Numbers::All) {
        Ok(value) => value,
        Err(NoData::Memory) => return Err(AllocError),
        Err(NoData::Other) => return Ok(None),
    };
    if reader.next().is_some() {
        return Ok(None);
    }
    Ok(Some(value))
}

/// The value of a number's spelling.
#[inline(always)]
fn number(alloc: Global, text: &str, numbers: Numbers) -> Result<Value, NoData>
    ensures ok { IfOk result (λ v. number_datum numbers text.now ≡ Some (view v)) }
    ensures err { result ≡ Err Other → number_datum numbers text.now ≡ None }
{
    match (integer_of(text), numbers) {
        (Some(n), _) => Ok(Value::Integer(n)),
        (None, Numbers::Integers) => Err(NoData::Other),
        (None, Numbers::All) => Ok(Value::Text(String::from_str(alloc, text)?)),
    }
}

/// The value of a token that is a value by itself: no list or map begins or ends with it.
#[inline(always)]
pub fn scalar(alloc: Global, token: Token<'_>, numbers: Numbers) -> Result<Value, NoData>
    ensures ok { IfOk result (λ v. scalar_of numbers (token_of token.entry) ≡ Some (view v)) }
    ensures err { result ≡ Err Other → scalar_of numbers (token_of token.entry) ≡ None }
{
    match token {
        Token::String(text) => Ok(Value::Text(String::from_str(alloc, text)?)),
        Token::Number(text) => number(alloc, text, numbers),
        Token::Bool(b) => Ok(Value::Bool(b)),
        Token::Null => Ok(Value::Nil),
        _ => Err(NoData::Other),
    }
}

/// Puts a member into a map, in place of an earlier one of its name.
#[inline(always)]
pub fn put_member(
    alloc: Global,
    found: &mut Object,
    name: &str,
    member: Value,
) -> Result<(), NoData>
    ensures put { OnOk result (pairs_view found.new.entries ≡
        put name.now (view member) (pairs_view found.old.entries)) }
    ensures err { result ≡ Err Other → ⊥ }
{
    let key = String::from_str(alloc, name)?;
    drop(found.insert(key, member)?);
    Ok(())
}

/// The value at the front of the tokens.
#[cycle(read)]
#[inline(always)]
pub fn read(
    alloc: Global,
    reader: &mut Reader<'_>,
    depth: usize,
    numbers: Numbers,
) -> Result<Value, NoData>
    ensures ok { IfOk result (λ v.
        datum_at numbers depth reader.old ≡ Some (view v, reader.new)) }
    ensures shorter { OnOk result (length reader.new < length reader.old) }
    ensures err { result ≡ Err Other → datum_at numbers depth reader.old ≡ None }
{
    let Some(token) = reader.next() else {
        return Err(NoData::Other);
    };
    match token {
        Token::BeginArray => {
            if depth == 0 {
                return Err(NoData::Other);
            }
            Ok(Value::Array(read_items(alloc, reader, depth - 1, numbers)?))
        }
        Token::BeginObject => {
            if depth == 0 {
                return Err(NoData::Other);
            }
            Ok(Value::Object(read_pairs(alloc, reader, depth - 1, numbers)?))
        }
        _ => scalar(alloc, token, numbers),
    }
}

#[cycle(read)]
#[inline(never)]
fn read_items(
    alloc: Global,
    reader: &mut Reader<'_>,
    depth: usize,
    numbers: Numbers,
) -> Result<Vec<Value>, NoData>
    ensures ok { IfOk result (λ v. list_items_at numbers depth (length reader.old) reader.old ≡
        Some (items_view v.items, reader.new)) }
    ensures shorter { OnOk result (length reader.new < length reader.old) }
    ensures err { result ≡ Err Other →
        list_items_at numbers depth (length reader.old) reader.old ≡ None }
{
    let mut found = Vec::new(alloc);
    'items: while !reader.take_end_array() {
        let item = read(alloc, reader, depth, numbers)?;
        found.push(item)?;
    }
    Ok(found)
}

#[cycle(read)]
#[inline(never)]
pub fn read_pairs(
    alloc: Global,
    reader: &mut Reader<'_>,
    depth: usize,
    numbers: Numbers,
) -> Result<Object, NoData>
    ensures ok { IfOk result (λ m. pairs_at numbers depth no_pairs (length reader.old) reader.old ≡
        Some (pairs_view m.entries, reader.new)) }
    ensures shorter { OnOk result (length reader.new < length reader.old) }
    ensures err { result ≡ Err Other →
        pairs_at numbers depth no_pairs (length reader.old) reader.old ≡ None }
{
    let mut found: Object = BTreeMap::new(alloc);
    'pairs: while let Some(name) = reader.next_key()? {
        let member = read(alloc, reader, depth, numbers)?;
        put_member(alloc, &mut found, name, member)?;
    }
    Ok(found)
}
