//! Filters that search a list by a property of its items.
ghost use Rattle.std.specs.Prelude.{◌≡◌, map, nat_eq, option_map};
ghost use Rattle.liquid_model.specs.Answer.{Answers, IsValueOrMemory};
ghost use Rattle.liquid_model.specs.Lists.{list_of};
ghost use Rattle.liquid_model.specs.View.{view, items_view, pairs_view};
ghost use Rattle.liquid_jekyll_host_filters.specs.Properties.{found_or_nil};
ghost use Rattle.liquid_jekyll_host_filters.specs.Searches.{any_says, find_answer, first_wanted};
ghost use Rattle.liquid_jekyll_host_filters.specs.Searches.{is_search, is_search_match, item_says};
ghost use Rattle.liquid_jekyll_host_filters.specs.Searches.{meets};
ghost use Rattle.liquid_jekyll_host_filters.specs.Searches.{search_result, searched};
ghost use Rattle.liquid_jekyll_host_filters.specs.Searches.{value_says, values};
ghost use Rattle.liquid_jekyll_host_filters.specs.Searches.{search_matches, jekyll_where_answer};
ghost use Rattle.liquid_jekyll_host_filters.specs.Searches.{jekyll_where_by};

use crate::properties::property;
use itoa::Buffer;
use liquid_model::{Filter, Object, Result, Value, text_of};
use std::alloc::Global;

/// `where`: the items of a list, or the values of a map, whose property is the target, or is a list
/// that has it.
///
/// Scalars are alike where their texts are, and nil is like nil alone. The input stays without a
/// property, with a list or a map for a target, and where it is neither a list nor a map.
#[derive(Clone, Copy, Drop)]
pub struct Where;

impl Filter for Where {
    ghost counts = { λ _ n. nat_eq n 2 };

    ghost answer = { λ _. jekyll_where_answer };

    fn accepts(&self, count: usize) -> bool {
        count == 2
    }

    fn evaluate(&self, alloc: Global, input: &Value, args: &[Value]) -> Result<Value> {
        where_by(alloc, input, &args[0], &args[1], Which::All)
    }
}

/// `find`: the first of the items that `where` answers, or nil.
#[derive(Clone, Copy, Drop)]
pub struct Find;

impl Filter for Find {
    ghost counts = { λ _ n. nat_eq n 2 };

    ghost answer = { λ _. find_answer };

    fn accepts(&self, count: usize) -> bool {
        count == 2
    }

    fn evaluate(&self, alloc: Global, input: &Value, args: &[Value]) -> Result<Value> {
        where_by(alloc, input, &args[0], &args[1], Which::First)
    }
}

/// Which of the wanted items are taken.
#[derive(Clone, Copy)]
enum Which {
    All,
    First,
}

fn where_by(
    alloc: Global,
    input: &Value,
    name: &Value,
    target: &Value,
    which: Which,
) -> Result<Value>
    ensures { Answers view result (jekyll_where_by which (view name.now) (view target.now)
        (view input.now)) }
{
    if !is_search(name, target) {
        return input.copy(alloc);
    }
    let name = text_of(alloc, name)?;
    match target {
        Value::Nil => searched(alloc, input, name.as_str(), None, which),
        _ => {
            let target = text_of(alloc, target)?;
            searched(alloc, input, name.as_str(), Some(target.as_str()), which)
        }
    }
}

/// Whether there is a property, and a target that can be looked for.
fn is_search(name: &Value, target: &Value) -> bool
    ensures { result ≡ is_search (view name.now) (view target.now) }
{
    name.is_truthy() && !matches!(target, Value::Array(_) | Value::Object(_))
}

fn searched(
    alloc: Global,
    input: &Value,
    name: &str,
    target: Option<&str>,
    which: Which,
) -> Result<Value>
    ensures { Answers view result (searched which name.now (option_map (λ t. t.now) target.entry)
        (view input.now)) }
{
    match input {
        Value::Array(items) => search_result(alloc, items, name, target, which),
        Value::Object(pairs) => search_result_of_map(alloc, pairs, name, target, which),
        _ => input.copy(alloc),
    }
}

#[tactic(auto, using(liquid_model::proofs::Views::list_of_view))]
fn search_result_of_map(
    alloc: Global,
    pairs: &Object,
    name: &str,
    target: Option<&str>,
    which: Which,
) -> Result<Value>
    ensures { IsValueOrMemory view result
        (search_result which name.now (option_map (λ t. t.now) target.entry)
        (values (pairs_view pairs.now.entries))) }
{
    let items = values(alloc, pairs)?;
    search_result(alloc, &items, name, target, which)
}

/// The values of a map.
fn values(alloc: Global, pairs: &Object) -> Result<Vec<Value>>
    ensures { IsValueOrMemory (λ v. map view v.items) result
        (values (pairs_view pairs.now.entries)) }
{
    let mut items = Vec::with_capacity(alloc, pairs.len())?;
    for (_key, value) in pairs.iter() {
        items.push(value.copy(alloc)?)?;
    }
    Ok(items)
}

fn search_result(
    alloc: Global,
    items: &[Value],
    name: &str,
    target: Option<&str>,
    which: Which,
) -> Result<Value>
    ensures { IsValueOrMemory view result
        (search_result which name.now (option_map (λ t. t.now) target.entry)
        (list_of (items_view items.now))) }
{
    match which {
        Which::All => Ok(Value::Array(matching_items(alloc, items, name, target)?)),
        Which::First => first_wanted(alloc, items, name, target),
    }
}

fn matching_items(
    alloc: Global,
    items: &[Value],
    name: &str,
    target: Option<&str>,
) -> Result<Vec<Value>>
    ensures { IsValueOrMemory (λ v. map view v.items) result
        (search_matches name.now (option_map (λ t. t.now) target.entry)
        (list_of (items_view items.now))) }
{
    let mut kept = Vec::new(alloc);
    for item in items {
        if is_wanted(item, name, target) {
            kept.push(item.copy(alloc)?)?;
        }
    }
    Ok(kept)
}

fn first_wanted(alloc: Global, items: &[Value], name: &str, target: Option<&str>) -> Result<Value>
    ensures { IsValueOrMemory view result
        (first_wanted name.now (option_map (λ t. t.now) target.entry)
        (list_of (items_view items.now))) }
{
    for item in items {
        if is_wanted(item, name, target) {
            return item.copy(alloc);
        }
    }
    Ok(Value::Nil)
}

fn is_wanted(item: &Value, name: &str, target: Option<&str>) -> bool
    ensures { result ≡ is_search_match name.now (option_map (λ t. t.now) target.entry)
        (view item.now) }
{
    meets(property(item, name), target)
}

/// Whether what was found meets the target.
fn meets(found: Option<&Value>, target: Option<&str>) -> bool
    ensures { result ≡ meets (option_map (λ t. t.now) target.entry)
        (found_or_nil (option_map (λ v. view v.now) found.entry)) }
{
    match (found, target) {
        (Some(value), Some(text)) => value_says(value, text),
        (Some(value), None) => matches!(value, Value::Nil),
        (None, target) => target.is_none(),
    }
}

/// Whether the value is a scalar of this text, or a list with such an item.
fn value_says(value: &Value, text: &str) -> bool
    ensures { result ≡ value_says text.now (view value.now) }
{
    match value {
        Value::Array(items) => any_says(items, text),
        _ => item_says(value, text),
    }
}

fn any_says(items: &[Value], text: &str) -> bool
    ensures { result ≡ any_says text.now (list_of (items_view items.now)) }
{
    for item in items {
        if item_says(item, text) {
            return true;
        }
    }
    false
}

/// Whether the value is a truth value, a number or a text of this text.
fn item_says(value: &Value, text: &str) -> bool
    ensures { result ≡ item_says text.now (view value.now) }
{
    match value {
        Value::Bool(b) => (if *b { "true" } else { "false" }) == text,
        Value::Integer(n) => Buffer::new().format(*n) == text,
        Value::Text(s) => s.as_str() == text,
        _ => false,
    }
}
