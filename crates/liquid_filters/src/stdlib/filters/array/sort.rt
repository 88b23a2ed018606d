//! The filters that sort.
ghost use Rattle.std.specs.Prelude.{◌≡◌, nat_le, map, option_map, IsTrue, length};
ghost use Rattle.liquid_model.specs.Answer.{Answers, IsValueOrMemory};
ghost use Rattle.liquid_model.specs.Cow.{cow_view};
ghost use Rattle.liquid_model.specs.Lists.{list_of};
ghost use Rattle.liquid_model.specs.View.{view, items_view};
ghost use Rattle.liquid_model.specs.Satisfies.{Satisfies};
ghost use Rattle.liquid_filters.specs.ListLaws.{Sorts};
ghost use Rattle.liquid_filters.specs.Keyed.{key_view, keyed_view, keyed_below};
ghost use Rattle.liquid_filters.specs.Sorting.{sort_key, key_order, key_of, natural_key_of};
ghost use Rattle.liquid_filters.specs.Sorting.{sort_by, sorted, sort_answer};
ghost use Rattle.liquid_filters.specs.Sorting.{sort_natural_answer, sort_named};

use super::sequence::{all_maps, property, sequence};
use liquid_model::{Filter, Result, Value, ValueCow, invalid_input, text_of};
use std::alloc::Global;
use std::cmp::Ordering;

/// `sort`: the input's sequence in the total order of values, nils last; items alike keep their
/// order.
///
/// With a property the items are sorted by the property's values, a missing one being nil.
#[derive(Clone, Copy, Drop)]
pub struct Sort;

impl Filter for Sort {
    ghost counts = { λ _ n. nat_le n 1 };

    ghost answer = { λ _. sort_answer };

    fn accepts(&self, count: usize) -> bool {
        count <= 1
    }

    /// `InvalidInput` where with a property an item is no map.
    fn evaluate(&self, alloc: Global, input: &Value, args: &[Value]) -> Result<Value>
        requires { IsTrue (nat_le (length args.now) 1) }
        ensures answer { Answers view result (sort_answer (view input.now) (map view args.now)) }
        ensures relation { Satisfies (Sorts key_of (view input.now) (map view args.now)) result }
    {
        sort_answer(alloc, input, args)
    }
}

fn sort_answer(alloc: Global, input: &Value, args: &[Value]) -> Result<Value>
    requires { IsTrue (nat_le (length args.now) 1) }
    ensures { Answers view result (sort_answer (view input.now) (map view args.now)) }
{
    match args.first() {
        None => Ok(Value::Array(sorted(alloc, sequence(input), None)?)),
        Some(name) => sorted_maps(alloc, input, text_of(alloc, name)?.as_str()),
    }
}

fn sorted_maps(alloc: Global, input: &Value, name: &str) -> Result<Value>
    ensures { Answers view result (sort_named key_of name.now (view input.now)) }
{
    let items = sequence(input);
    if all_maps(items) {
        Ok(Value::Array(sorted(alloc, items, Some(name))?))
    } else {
        Err(invalid_input(alloc, "a list of maps", input))
    }
}

fn sorted(alloc: Global, items: &[Value], property: Option<&str>) -> Result<Vec<Value>>
    ensures { IsValueOrMemory (λ v. map view v.items) result
        (sort_by (key_of (option_map (λ s. s.now) property.entry))
        (list_of (items_view items.now))) }
{
    items_by_key(alloc, with_keys(alloc, items, property)?)
}

/// `sort_natural`: like `sort`, by texts in lower case, in the order of their bytes.
#[derive(Clone, Copy, Drop)]
pub struct SortNatural;

impl Filter for SortNatural {
    ghost counts = { λ _ n. nat_le n 1 };

    ghost answer = { λ _. sort_natural_answer };

    fn accepts(&self, count: usize) -> bool {
        count <= 1
    }

    /// `InvalidInput` where with a property an item is no map.
    fn evaluate(&self, alloc: Global, input: &Value, args: &[Value]) -> Result<Value>
        requires { IsTrue (nat_le (length args.now) 1) }
        ensures answer { Answers view result (sort_natural_answer (view input.now)
            (map view args.now)) }
        ensures relation { Satisfies (Sorts natural_key_of (view input.now) (map view args.now))
            result }
    {
        sort_natural_answer(alloc, input, args)
    }
}

fn sort_natural_answer(alloc: Global, input: &Value, args: &[Value]) -> Result<Value>
    requires { IsTrue (nat_le (length args.now) 1) }
    ensures { Answers view result (sort_natural_answer (view input.now) (map view args.now)) }
{
    match args.first() {
        None => Ok(Value::Array(naturally_sorted(alloc, sequence(input), None)?)),
        Some(name) => naturally_sorted_maps(alloc, input, text_of(alloc, name)?.as_str()),
    }
}

fn naturally_sorted_maps(alloc: Global, input: &Value, name: &str) -> Result<Value>
    ensures { Answers view result (sort_named natural_key_of name.now (view input.now)) }
{
    let items = sequence(input);
    if all_maps(items) {
        Ok(Value::Array(naturally_sorted(alloc, items, Some(name))?))
    } else {
        Err(invalid_input(alloc, "a list of maps", input))
    }
}

fn naturally_sorted(alloc: Global, items: &[Value], property: Option<&str>) -> Result<Vec<Value>>
    ensures { IsValueOrMemory (λ v. map view v.items) result
        (sort_by (natural_key_of (option_map (λ s. s.now) property.entry))
        (list_of (items_view items.now))) }
{
    items_by_key(alloc, with_natural_keys(alloc, items, property)?)
}

/// An item with what it is sorted by: a value, or none for nil.
#[derive(Drop)]
pub struct Keyed<'a> {
    pub key: Option<ValueCow<'a>>,
    pub item: &'a Value,
}

fn with_keys<'a>(
    alloc: Global,
    items: &'a [Value],
    property: Option<&str>,
) -> Result<Vec<Keyed<'a>>>
    ensures { IsValueOrMemory (λ v. map keyed_view v.items) result
        (map (λ d. (key_of (option_map (λ s. s.now) property.entry) d, d))
        (list_of (items_view items.now))) }
{
    let mut keyed = Vec::with_capacity(alloc, items.len())?;
    for item in items {
        let key = match key_of(item, property) {
            Some(value) => Some(ValueCow::Borrowed(value)),
            None => None,
        };
        keyed.push(Keyed { key, item })?;
    }
    Ok(keyed)
}

fn with_natural_keys<'a>(
    alloc: Global,
    items: &'a [Value],
    property: Option<&str>,
) -> Result<Vec<Keyed<'a>>>
    ensures { IsValueOrMemory (λ v. map keyed_view v.items) result
        (map (λ d. (natural_key_of (option_map (λ s. s.now) property.entry) d, d))
        (list_of (items_view items.now))) }
{
    let mut keyed = Vec::with_capacity(alloc, items.len())?;
    for item in items {
        let key = natural_key_of(alloc, item, property)?;
        keyed.push(Keyed { key, item })?;
    }
    Ok(keyed)
}

fn natural_key_of<'a>(
    alloc: Global,
    item: &Value,
    property: Option<&str>,
) -> Result<Option<ValueCow<'a>>>
    ensures { IsValueOrMemory (λ k. option_map cow_view k) result
        (natural_key_of (option_map (λ s. s.now) property.entry) (view item.now)) }
{
    match key_of(item, property) {
        Some(value) => {
            let mut text = value.text(alloc)?;
            text.make_ascii_lowercase();
            Ok(Some(ValueCow::Owned(Value::Text(text))))
        }
        None => Ok(None),
    }
}

fn key_of<'a>(item: &'a Value, name: Option<&str>) -> Option<&'a Value>
    ensures { option_map (λ v. view v.now) result ≡ key_of (option_map (λ s. s.now) name.entry)
        (view item.now) }
{
    match name {
        None => sort_key(item),
        Some(name) => match property(item, name) {
            Some(value) => sort_key(value),
            None => None,
        },
    }
}

fn sort_key(value: &Value) -> Option<&Value>
    ensures { option_map (λ v. view v.now) result ≡ sort_key (view value.now) }
{
    match value {
        Value::Nil => None,
        _ => Some(value),
    }
}

/// The items, sorted by their keys in the total order of values, those without a key last; items
/// alike keep their order. `Memory` alone where they can't be made.
pub fn items_by_key(alloc: Global, mut keyed: Vec<Keyed<'_>>) -> Result<Vec<Value>>
    ensures { IsValueOrMemory (λ v. map view v.items) result
        (map (λ k. view k.item.now) (sorted keyed_below keyed.entry.items)) }
{
    sort_keyed(&mut keyed)?;
    items_of(alloc, &keyed)
}

fn sort_keyed(items: &mut Vec<Keyed<'_>>) -> Result<()>
    ensures { IsValueOrMemory (λ _. items.new.items) result (sorted keyed_below items.old.items) }
{
    items.sort_by(|a, b| ordered(a, b))?;
    Ok(())
}

fn ordered(a: &Keyed<'_>, b: &Keyed<'_>) -> Ordering
    ensures { result ≡ key_order (key_view a.now) (key_view b.now) }
{
    match (&a.key, &b.key) {
        (Some(x), Some(y)) => x.as_value().cmp(y.as_value()),
        (Some(_), None) => Ordering::Less,
        (None, Some(_)) => Ordering::Greater,
        (None, None) => Ordering::Equal,
    }
}

fn items_of(alloc: Global, keyed: &[Keyed<'_>]) -> Result<Vec<Value>>
    ensures { IsValueOrMemory (λ v. map view v.items) result
        (map (λ k. view k.item.now) keyed.now) }
{
    let mut items = Vec::with_capacity(alloc, keyed.len())?;
    for entry in keyed {
        items.push(entry.item.copy(alloc)?)?;
    }
    Ok(items)
}
