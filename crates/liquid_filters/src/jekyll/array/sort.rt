//! The filter that sorts by a path.
ghost use Rattle.std.specs.Prelude.{◌≡◌, ◌==◌, Ok, length, map, nat_le, option_map};
ghost use Rattle.liquid_model.specs.Answer.{Answers, IsValueOrMemory};
ghost use Rattle.liquid_model.specs.Cow.{cow_view};
ghost use Rattle.liquid_model.specs.Data.{text_of};
ghost use Rattle.liquid_model.specs.Lists.{list_of};
ghost use Rattle.liquid_model.specs.View.{view, items_view};
ghost use Rattle.liquid_filters.specs.Keyed.{keyed_view};
ghost use Rattle.liquid_filters.specs.Sequences.{list, sequence};
ghost use Rattle.liquid_filters.specs.Sorting.{sort_by};
ghost use Rattle.liquid_filters.specs.JekyllSorting.{value_or_nil, found_key, nils_given};
ghost use Rattle.liquid_filters.specs.JekyllSorting.{nils_key, nils_named, path_given};
ghost use Rattle.liquid_filters.specs.JekyllSorting.{jekyll_sort_answer, sort_items};
ghost use Rattle.liquid_filters.specs.JekyllSorting.{sort_maps};

use super::path::read_path;
use crate::stdlib::filters::array::sequence::{all_maps, sequence};
use crate::stdlib::filters::array::sort::{Keyed, items_by_key};
use liquid_model::{Error, ErrorKind, Filter, Result, Value, ValueCow, invalid_input, text_of};
use std::alloc::Global;

/// `sort`: the input's sequence in the total order of values; items alike keep their order.
///
/// With a property, a path as `a.b[0]`, the items are sorted by what they have along it, and nil
/// where they have nothing there. Nils come first, or where the second argument says.
#[derive(Clone, Copy, Drop)]
pub struct Sort;

impl Filter for Sort {
    ghost counts = { λ _ n. nat_le n 2 };

    ghost answer = { λ _. jekyll_sort_answer };

    fn accepts(&self, count: usize) -> bool {
        count <= 2
    }

    /// `InvalidInput` where the sequence is empty, then where with a property an item is no map,
    /// then where the second argument is neither `first` nor `last`; then `InvalidArgument` where
    /// the property is no path.
    fn evaluate(&self, alloc: Global, input: &Value, args: &[Value]) -> Result<Value> {
        if is_nothing(input) {
            return Err(invalid_input(alloc, "a list with an item", input));
        }
        sort_items(alloc, input, args)
    }
}

/// Where nils stand in a sort.
#[derive(Clone, Copy, Drop)]
pub(crate) enum Nils {
    First,
    Last,
}

/// Whether the sequence of a value has no item.
fn is_nothing(value: &Value) -> bool
    ensures { result ≡ (length (sequence (view value.now)) == 0) }
{
    sequence(value).is_empty()
}

fn sort_items(alloc: Global, input: &Value, args: &[Value]) -> Result<Value>
    ensures { Answers view result (sort_items (sequence (view input.now)) (map view args.now)) }
{
    match args {
        [] => sorted(alloc, sequence(input), &[], Nils::First),
        [name] => sorted_maps(alloc, input, name, None),
        [name, nils, ..] => sorted_maps(alloc, input, name, Some(nils)),
    }
}

fn sorted_maps(alloc: Global, input: &Value, name: &Value, nils: Option<&Value>) -> Result<Value>
    ensures { Answers view result (sort_maps (sequence (view input.now)) (text_of (view name.now))
        (option_map (λ d. view d.now) nils.entry)) }
{
    let items = sequence(input);
    if !all_maps(items) {
        return Err(invalid_input(alloc, "a list of maps", input));
    }
    let nils = nils_given(alloc, nils)?;
    let path = path_given(alloc, text_of(alloc, name)?.as_str())?;
    sorted(alloc, items, &path, nils)
}

fn nils_given(alloc: Global, nils: Option<&Value>) -> Result<Nils>
    ensures { Answers (λ n. n) result (nils_given (option_map (λ d. view d.now) nils.entry)) }
{
    match nils {
        None => Ok(Nils::First),
        Some(nils) => nils_named(alloc, text_of(alloc, nils)?.as_str()),
    }
}

fn nils_named(alloc: Global, name: &str) -> Result<Nils>
    ensures { Answers (λ n. n) result (nils_named name.now) }
{
    if name == "first" {
        return Ok(Nils::First);
    }
    if name == "last" {
        return Ok(Nils::Last);
    }
    Err(Error::new(
        alloc,
        ErrorKind::InvalidInput,
        "nils stand `first` or `last`",
    ))
}

fn path_given(alloc: Global, name: &str) -> Result<Vec<Value>>
    ensures { Answers (λ v. map view v.items) result (path_given name.now) }
{
    match read_path(alloc, name)? {
        Some(path) => Ok(path),
        None => Err(Error::new(
            alloc,
            ErrorKind::InvalidArgument,
            "the property must be a path as a.b[0]",
        )),
    }
}

fn sorted(alloc: Global, items: &[Value], path: &[Value], nils: Nils) -> Result<Value>
    ensures { Answers view result
        (Ok (list (sort_by (found_key nils (map view path.now))
        (list_of (items_view items.now))))) }
{
    Ok(Value::Array(items_sorted(alloc, items, path, nils)?))
}

fn items_sorted(alloc: Global, items: &[Value], path: &[Value], nils: Nils) -> Result<Vec<Value>>
    ensures { IsValueOrMemory (λ v. map view v.items) result
        (sort_by (found_key nils (map view path.now))
        (list_of (items_view items.now))) }
{
    let keyed = with_keys(alloc, items, path, nils)?;
    items_by_key(alloc, keyed)
}

fn with_keys<'a>(
    alloc: Global,
    items: &'a [Value],
    path: &[Value],
    nils: Nils,
) -> Result<Vec<Keyed<'a>>>
    ensures { IsValueOrMemory (λ v. map keyed_view v.items) result
        (map (λ d. (found_key nils (map view path.now) d, d)) (list_of (items_view items.now))) }
{
    let mut keyed = Vec::with_capacity(alloc, items.len())?;
    for item in items {
        let key = nils_key(found(alloc, item, path)?, nils);
        keyed.push(Keyed { key, item })?;
    }
    Ok(keyed)
}

/// What a value has along a path, or nil.
fn found<'a>(alloc: Global, item: &'a Value, path: &[Value]) -> Result<ValueCow<'a>>
    ensures { IsValueOrMemory cow_view result (value_or_nil (map view path.now) (view item.now)) }
{
    match item.find(alloc, path)? {
        Some(value) => Ok(value),
        None => Ok(ValueCow::Owned(Value::Nil)),
    }
}

/// What an item is sorted by: nil is the least value, and an item without a key comes last.
fn nils_key(found: ValueCow<'_>, nils: Nils) -> Option<ValueCow<'_>>
    ensures { option_map cow_view result ≡ nils_key nils (cow_view found.entry) }
{
    match nils {
        Nils::First => Some(found),
        Nils::Last => match found.as_value() {
            Value::Nil => None,
            _ => Some(found),
        },
    }
}
