//! The items of loops.
ghost use Rattle.std.specs.Prelude.{◌≡◌, ◌≤◌, IfOk, map, get_or};
ghost use Rattle.liquid_model.specs.Answer.{Answers, IsValueOrMemory, TakesNoMemory};
ghost use Rattle.liquid_model.specs.Cow.{cow_view};
ghost use Rattle.liquid_model.specs.Data.{nil, text, array, item, no_items};
ghost use Rattle.liquid_model.specs.Lists.{pair_lists};
ghost use Rattle.liquid_model.specs.ErrorKinds.{IsKindOrMemory};
ghost use Rattle.liquid_model.specs.View.{view, pairs_view};
ghost use Rattle.liquid_model.specs.declared.error.ErrorKind.TheVariants.{RangeTooLong};
ghost use Rattle.liquid_model.specs.declared.error.ErrorKind.TheVariants.{UnexpectedValue};
ghost use Rattle.liquid_core.specs.Places.{number_at};
ghost use Rattle.liquid_evaluation.specs.Evaluation.{count_to, numbers_from, value_items};
ghost use Rattle.liquid_evaluation.specs.Ranges.{range_count, range_item, range_items};
ghost use Rattle.liquid_evaluation.specs.Ranges.{checked_count, value_count, value_item};
ghost use Rattle.liquid_evaluation.specs.SourceView.{range_view};

use liquid_core::{Error, ErrorKind, Object, Quoted, Result, Value, ValueCow};
use std::alloc::Global;

/// What a loop goes over in a run.
#[derive(Drop)]
pub enum Range<'r> {
    /// The items of a list, the pairs of a map as lists of two, or the none of nil. Any other value
    /// has no items.
    Array(ValueCow<'r>),
    /// The numbers from the first to the second, both among them. There are none where the first is
    /// the greater one.
    Counted(i64, i64),
}

/// No loop has more items.
const MOST_ITEMS: u128 = 9223372036854775807;

impl<'r> Range<'r> {
    /// The items, in their order. Those of a list are borrowed.
    ///
    /// `UnexpectedValue` where the value is no list, no map and not nil; `RangeTooLong` where there
    /// are more than 9223372036854775807 items.
    pub fn evaluate(&self, alloc: Global) -> Result<Vec<ValueCow<'_>>>
        ensures { Answers (λ v. map cow_view v.items) result (range_items (range_view self.now)) }
    {
        let count = self.count(alloc)?;
        match self {
            Range::Array(value) => value_items(alloc, value.as_value()),
            Range::Counted(first, last) => numbers(alloc, *first, *last, count),
        }
    }

    /// How many items there are. The faults are those of `evaluate`; only they take memory.
    pub fn count(&self, alloc: Global) -> Result<usize>
        ensures value { Answers (λ n. n) result (range_count (range_view self.now)) }
        ensures within { IfOk result (λ n. n ≤ 9223372036854775807) }
        ensures no_memory { TakesNoMemory result (range_count (range_view self.now)) }
    {
        match self {
            Range::Array(value) => {
                let count = value_count(alloc, value.as_value())?;
                checked_count(alloc, count as u128)
            }
            Range::Counted(first, last) => checked_count(alloc, count_to(*first, *last)),
        }
    }

    /// Item `place`, counted from 0, or nil where there is none: a number is computed, and an item
    /// of a list is borrowed. The pair of a map is made, which alone takes memory, and found by a
    /// walk from the first one.
    pub fn item(&self, alloc: Global, place: usize) -> Result<ValueCow<'_>>
        ensures { IsValueOrMemory cow_view result (range_item (range_view self.now) place) }
    {
        match self {
            Range::Array(value) => value_item(alloc, value.as_value(), place),
            Range::Counted(first, last) => Ok(ValueCow::Owned(number_at(*first, *last, place))),
        }
    }

    /// An equal range. A borrowed value stays borrowed, and any other is copied.
    pub fn copy(&self, alloc: Global) -> Result<Range<'r>>
        ensures { IsValueOrMemory range_view result (range_view self.now) }
    {
        match self {
            Range::Array(ValueCow::Owned(value)) => {
                Ok(Range::Array(ValueCow::Owned(value.copy(alloc)?)))
            }
            Range::Array(ValueCow::Borrowed(value)) => {
                let value: &'r Value = *value;
                Ok(Range::Array(ValueCow::Borrowed(value)))
            }
            Range::Counted(first, last) => Ok(Range::Counted(*first, *last)),
        }
    }
}

// ---- the items of a value

/// The items of a list, borrowed, the pairs of a map, or the none of nil.
fn value_items(alloc: Global, value: &Value) -> Result<Vec<ValueCow<'_>>>
    ensures { Answers (λ v. map cow_view v.items) result (value_items (view value.now)) }
{
    match value {
        Value::Nil => Ok(Vec::new(alloc)),
        Value::Array(items) => borrowed_values(alloc, items),
        Value::Object(pairs) => pair_lists(alloc, pairs),
        _ => Err(without_items(alloc, value)),
    }
}

/// How many items the value has.
fn value_count(alloc: Global, value: &Value) -> Result<usize>
    ensures value { Answers (λ n. n) result (value_count (view value.now)) }
    ensures no_memory { TakesNoMemory result (value_count (view value.now)) }
{
    match value {
        Value::Nil => Ok(0),
        Value::Array(items) => Ok(items.len()),
        Value::Object(pairs) => Ok(pairs.len()),
        _ => Err(without_items(alloc, value)),
    }
}

/// The item at this place, or nil.
fn value_item(alloc: Global, value: &Value, place: usize) -> Result<ValueCow<'_>>
    ensures { IsValueOrMemory cow_view result (value_item (view value.now) place) }
{
    match value {
        Value::Array(items) => Ok(item_at(items, place)),
        Value::Object(pairs) => Ok(ValueCow::Owned(pair_at(alloc, pairs, place)?)),
        _ => Ok(ValueCow::Owned(Value::Nil)),
    }
}

/// The item at this place, borrowed, or nil.
fn item_at<'a>(items: &'a Vec<Value>, place: usize) -> ValueCow<'a>
    ensures { cow_view result ≡ get_or (map view items.now.items) place nil }
{
    if place < items.len() {
        ValueCow::Borrowed(&items[place])
    } else {
        ValueCow::Owned(Value::Nil)
    }
}

/// The items, borrowed.
fn borrowed_values<'a>(alloc: Global, items: &'a Vec<Value>) -> Result<Vec<ValueCow<'a>>>
    ensures { IsValueOrMemory (λ v. map cow_view v.items) result (map view items.now.items) }
{
    let mut values = Vec::with_capacity(alloc, items.len())?;
    for item in items {
        values.push(ValueCow::Borrowed(item))?;
    }
    Ok(values)
}

/// The pairs, each as a list of its key and its value.
fn pair_lists<'a>(alloc: Global, pairs: &Object) -> Result<Vec<ValueCow<'a>>>
    ensures { IsValueOrMemory (λ v. map cow_view v.items) result
        (pair_lists (pairs_view pairs.now.entries)) }
{
    let mut lists = Vec::with_capacity(alloc, pairs.len())?;
    for (key, value) in pairs.iter() {
        lists.push(ValueCow::Owned(pair(alloc, key.as_str(), value)?))?;
    }
    Ok(lists)
}

/// The pair at this place as such a list, or nil.
fn pair_at(alloc: Global, pairs: &Object, place: usize) -> Result<Value>
    ensures { IsValueOrMemory view result
        (get_or (pair_lists (pairs_view pairs.now.entries)) place nil) }
{
    let mut before = place;
    for (key, value) in pairs.iter() {
        if before == 0 {
            return pair(alloc, key.as_str(), value);
        }
        before -= 1;
    }
    Ok(Value::Nil)
}

/// A list of the key and the value.
pub(crate) fn pair(alloc: Global, key: &str, value: &Value) -> Result<Value>
    ensures { IsValueOrMemory view result
        (array (item (text key.now) (item (view value.now) no_items))) }
{
    let key = Value::Text(String::from_str(alloc, key)?);
    let value = value.copy(alloc)?;
    Ok(Value::Array(vec![in alloc; key, value]?))
}

// ---- the numbers of a range

/// How many numbers stand from the first to the last.
pub(crate) fn count_to(first: i64, last: i64) -> u128
    ensures { result ≡ count_to first last }
{
    if first <= last {
        (last as i128 - first as i128 + 1) as u128
    } else {
        0
    }
}

/// The numbers from `first` to `last`, of which there are `count`.
fn numbers<'a>(alloc: Global, first: i64, last: i64, count: usize) -> Result<Vec<ValueCow<'a>>>
    requires { count ≡ count_to first last }
    ensures { IsValueOrMemory (λ v. map cow_view v.items) result (numbers_from first count) }
{
    let mut numbers = Vec::with_capacity(alloc, count)?;
    for place in 0..count {
        let number = number_at(first, last, place);
        numbers.push(ValueCow::Owned(number))?;
    }
    Ok(numbers)
}

/// The number at this place from the first on, or nil where that is past the last.
fn number_at(first: i64, last: i64, place: usize) -> Value
    ensures { view result ≡ number_at first last place }
{
    let number = first as i128 + place as i128;
    if number <= last as i128 {
        Value::Integer(number as i64)
    } else {
        Value::Nil
    }
}

// ---- faults

/// The number of items, where it isn't too great.
pub(crate) fn checked_count(alloc: Global, count: u128) -> Result<usize>
    ensures value { Answers (λ n. n) result (checked_count count) }
    ensures within { IfOk result (λ n. n ≤ 9223372036854775807) }
    ensures no_memory { TakesNoMemory result (checked_count count) }
{
    if count <= MOST_ITEMS {
        Ok(count as usize)
    } else {
        Err(too_long(alloc))
    }
}

/// The fault of a value that a loop doesn't go over: a text, a number or a truth value.
pub(crate) fn without_items(alloc: Global, value: &Value) -> Error
    ensures { IsKindOrMemory UnexpectedValue result.kind }
{
    if let Value::Text(text) = value {
        let text = text.as_str();
        let quoted = Quoted { text };
        return Error::formatted(
            alloc,
            ErrorKind::UnexpectedValue,
            format_args!("a loop goes over a list, a map or a range, not over the text `{quoted}`"),
        );
    }
    let words = if matches!(value, Value::Bool(_)) {
        "a loop goes over a list, a map or a range, not over a truth value"
    } else {
        "a loop goes over a list, a map or a range, not over a number"
    };
    Error::new(alloc, ErrorKind::UnexpectedValue, words)
}

fn too_long(alloc: Global) -> Error
    ensures { IsKindOrMemory RangeTooLong result.kind }
{
    Error::new(
        alloc,
        ErrorKind::RangeTooLong,
        "a loop goes over at most 9223372036854775807 items",
    )
}
