//! The filters that keep some of a list's items.
ghost use Rattle.std.specs.Prelude.{◌≡◌, IsTrue, ◌&&◌, nat_eq, nat_le, map, option_map, length};
ghost use Rattle.liquid_model.specs.Answer.{Answers, IsValueOrMemory};
ghost use Rattle.liquid_model.specs.Data.{text_of};
ghost use Rattle.liquid_model.specs.Lists.{list_of};
ghost use Rattle.liquid_model.specs.View.{view, items_view};
ghost use Rattle.liquid_model.specs.Arguments.{first_of};
ghost use Rattle.liquid_model.specs.Satisfies.{Satisfies, WithFirst};
ghost use Rattle.liquid_filters.specs.ListLaws.{Compacts, Maps, Uniqs, Wheres};
ghost use Rattle.liquid_filters.specs.Keeping.{compact, compact_of, compact_by};
ghost use Rattle.liquid_filters.specs.Keeping.{compact_answer, is_given, is_wanted, where_of};
ghost use Rattle.liquid_filters.specs.Keeping.{where_by, where_answer, mapped_property};
ghost use Rattle.liquid_filters.specs.Keeping.{map_answer};
ghost use Rattle.liquid_filters.specs.Keeping.{uniq, uniq_answer};
ghost use Rattle.liquid_filters.specs.Sequences.{of_list};

use super::sequence::{all_maps, property};
use liquid_model::{Filter, Result, Value, invalid_input, text_of};
use std::alloc::Global;
use std::collections::BTreeSet;
use std::slice;

/// `compact`: the items of a list that aren't nil; with a property, the maps that have it and not
/// nil.
#[derive(Clone, Copy, Drop)]
pub struct Compact;

impl Filter for Compact {
    ghost counts = { λ _ n. nat_le n 1 };

    ghost answer = { λ _. compact_answer };

    fn accepts(&self, count: usize) -> bool {
        count <= 1
    }

    /// `InvalidInput` where the input is no list, or with a property has an item that is no map.
    fn evaluate(&self, alloc: Global, input: &Value, args: &[Value]) -> Result<Value>
        requires { IsTrue (nat_le (length args.now) 1) }
        ensures answer { Answers view result (compact_answer (view input.now) (map view args.now)) }
        ensures relation { Satisfies (Compacts (view input.now) (map view args.now)) result }
    {
        compact_answer(alloc, input, args)
    }
}

fn compact_answer(alloc: Global, input: &Value, args: &[Value]) -> Result<Value>
    requires { IsTrue (nat_le (length args.now) 1) }
    ensures { Answers view result (compact_answer (view input.now) (map view args.now)) }
{
    match args.first() {
        None => compacted(alloc, input),
        Some(name) => compacted_by(alloc, input, text_of(alloc, name)?.as_str()),
    }
}

fn compacted(alloc: Global, input: &Value) -> Result<Value>
    ensures { Answers view result (of_list compact (view input.now)) }
{
    match input {
        Value::Array(items) => Ok(Value::Array(without_nils(alloc, items)?)),
        _ => Err(invalid_input(alloc, "a list", input)),
    }
}

fn without_nils(alloc: Global, items: &[Value]) -> Result<Vec<Value>>
    ensures { IsValueOrMemory (λ v. map view v.items) result
        (compact (list_of (items_view items.now))) }
{
    let mut kept = Vec::new(alloc);
    for item in items {
        if !matches!(item, Value::Nil) {
            kept.push(item.copy(alloc)?)?;
        }
    }
    Ok(kept)
}

fn compacted_by(alloc: Global, input: &Value, name: &str) -> Result<Value>
    ensures { Answers view result (compact_by name.now (view input.now)) }
{
    match input {
        Value::Array(items) => {
            if all_maps(items) {
                Ok(Value::Array(compact_of(alloc, items, name)?))
            } else {
                Err(invalid_input(alloc, "a list of maps", input))
            }
        }
        _ => Err(invalid_input(alloc, "a list of maps", input)),
    }
}

fn compact_of(alloc: Global, items: &[Value], name: &str) -> Result<Vec<Value>>
    ensures { IsValueOrMemory (λ v. map view v.items) result
        (compact_of name.now (list_of (items_view items.now))) }
{
    let mut kept = Vec::new(alloc);
    for item in items {
        if is_given(property(item, name)) {
            kept.push(item.copy(alloc)?)?;
        }
    }
    Ok(kept)
}

fn is_given(found: Option<&Value>) -> bool
    ensures { result ≡ is_given (option_map (λ v. view v.now) found.entry) }
{
    match found {
        Some(value) => !matches!(value, Value::Nil),
        None => false,
    }
}

/// `where`: the maps of a list whose property is there and truthy, or equals the target where one
/// is given.
///
/// A list with an item that is no map gives nil, and a map counts as a list of itself.
#[derive(Clone, Copy, Drop)]
pub struct Where;

impl Filter for Where {
    ghost counts = { λ _ n. nat_le 1 n && nat_le n 2 };

    ghost answer = { λ _. where_answer };

    fn accepts(&self, count: usize) -> bool {
        1 <= count && count <= 2
    }

    /// `InvalidInput` where the input is neither a list nor a map.
    fn evaluate(&self, alloc: Global, input: &Value, args: &[Value]) -> Result<Value>
        requires { IsTrue (nat_le 1 (length args.now) && nat_le (length args.now) 2) }
        ensures answer { Answers view result (where_answer (view input.now) (map view args.now)) }
        ensures relation { Satisfies
            (WithFirst (λ name rest. Wheres (text_of name) (first_of rest) (view input.now))
            (map view args.now)) result }
    {
        where_answer(alloc, input, args)
    }
}

fn where_answer(alloc: Global, input: &Value, args: &[Value]) -> Result<Value>
    requires { IsTrue (nat_le 1 (length args.now) && nat_le (length args.now) 2) }
    ensures { Answers view result (where_answer (view input.now) (map view args.now)) }
{
    let name = text_of(alloc, &args[0])?;
    where_by(alloc, input, name.as_str(), args.get(1))
}

fn where_by(alloc: Global, input: &Value, name: &str, target: Option<&Value>) -> Result<Value>
    ensures { Answers view result (where_by name.now (option_map (λ v. view v.now) target.entry)
        (view input.now)) }
{
    match input {
        Value::Array(items) => {
            if all_maps(items) {
                Ok(Value::Array(where_of(alloc, items, name, target)?))
            } else {
                Ok(Value::Nil)
            }
        }
        Value::Object(_) => Ok(Value::Array(where_of(
            alloc,
            slice::from_ref(input),
            name,
            target,
        )?)),
        _ => Err(invalid_input(alloc, "a list or a map", input)),
    }
}

fn where_of(
    alloc: Global,
    items: &[Value],
    name: &str,
    target: Option<&Value>,
) -> Result<Vec<Value>>
    ensures { IsValueOrMemory (λ v. map view v.items) result
        (where_of name.now (option_map (λ v. view v.now) target.entry)
        (list_of (items_view items.now))) }
{
    let mut kept = Vec::new(alloc);
    for item in items {
        if is_wanted(property(item, name), target) {
            kept.push(item.copy(alloc)?)?;
        }
    }
    Ok(kept)
}

/// Whether a property is there and truthy, or equals the target where one is given.
pub fn is_wanted(found: Option<&Value>, target: Option<&Value>) -> bool
    ensures { result ≡ is_wanted (option_map (λ v. view v.now) target.entry)
        (option_map (λ v. view v.now) found.entry) }
{
    match (target, found) {
        (None, Some(value)) => value.is_truthy(),
        (Some(wanted), Some(value)) => value == wanted,
        _ => false,
    }
}

/// `map`: the property's values of those maps of a list that have it; other items are skipped.
#[derive(Clone, Copy, Drop)]
pub struct Map;

impl Filter for Map {
    ghost counts = { λ _ n. nat_eq n 1 };

    ghost answer = { λ _. map_answer };

    fn accepts(&self, count: usize) -> bool {
        count == 1
    }

    /// `InvalidInput` where the input is no list.
    fn evaluate(&self, alloc: Global, input: &Value, args: &[Value]) -> Result<Value>
        requires { IsTrue (nat_eq (length args.now) 1) }
        ensures answer { Answers view result (map_answer (view input.now) (map view args.now)) }
        ensures relation { Satisfies (WithFirst (λ name rest. Maps (text_of name) (view input.now))
            (map view args.now)) result }
    {
        map_answer(alloc, input, args)
    }
}

fn map_answer(alloc: Global, input: &Value, args: &[Value]) -> Result<Value>
    requires { IsTrue (nat_eq (length args.now) 1) }
    ensures { Answers view result (map_answer (view input.now) (map view args.now)) }
{
    let name = text_of(alloc, &args[0])?;
    mapped(alloc, input, name.as_str())
}

fn mapped(alloc: Global, input: &Value, name: &str) -> Result<Value>
    ensures { Answers view result (of_list (mapped_property name.now) (view input.now)) }
{
    match input {
        Value::Array(items) => Ok(Value::Array(map_of(alloc, items, name)?)),
        _ => Err(invalid_input(alloc, "a list", input)),
    }
}

fn map_of(alloc: Global, items: &[Value], name: &str) -> Result<Vec<Value>>
    ensures { IsValueOrMemory (λ v. map view v.items) result
        (mapped_property name.now (list_of (items_view items.now))) }
{
    let mut values = Vec::new(alloc);
    for item in items {
        if let Some(value) = property(item, name) {
            values.push(value.copy(alloc)?)?;
        }
    }
    Ok(values)
}

/// `uniq`: the items of a list that equal no kept one before.
///
/// The kept items are in an ordered set too, so an item is compared with few of them, and the work
/// grows as a sort's.
#[derive(Clone, Copy, Drop)]
pub struct Uniq;

impl Filter for Uniq {
    ghost counts = { λ _ n. nat_eq n 0 };

    ghost answer = { λ _. uniq_answer };

    fn accepts(&self, count: usize) -> bool {
        count == 0
    }

    /// `InvalidInput` where the input is no list.
    fn evaluate(&self, alloc: Global, input: &Value, args: &[Value]) -> Result<Value>
        requires { IsTrue (nat_eq (length args.now) 0) }
        ensures answer { Answers view result (uniq_answer (view input.now) (map view args.now)) }
        ensures relation { Satisfies (Uniqs (view input.now)) result }
    {
        uniq_answer(alloc, input, args)
    }
}

fn uniq_answer(alloc: Global, input: &Value, _args: &[Value]) -> Result<Value>
    requires { IsTrue (nat_eq (length _args.now) 0) }
    ensures { Answers view result (uniq_answer (view input.now) (map view _args.now)) }
{
    match input {
        Value::Array(items) => Ok(Value::Array(unique(alloc, items)?)),
        _ => Err(invalid_input(alloc, "a list", input)),
    }
}

fn unique(alloc: Global, items: &[Value]) -> Result<Vec<Value>>
    ensures { IsValueOrMemory (λ v. map view v.items) result
        (uniq (list_of (items_view items.now))) }
{
    let mut seen = BTreeSet::new(alloc);
    let mut kept = Vec::new(alloc);
    for item in items {
        if seen.insert(item)? {
            kept.push(item.copy(alloc)?)?;
        }
    }
    Ok(kept)
}
