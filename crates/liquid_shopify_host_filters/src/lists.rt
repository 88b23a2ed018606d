//! The filters that look in lists of maps.
ghost use Rattle.std.specs.Prelude.{◌≡◌, ◌≤◌, length, map, option_map};
ghost use Rattle.liquid_model.specs.Answer.{Answers, IsValueOrMemory};
ghost use Rattle.liquid_model.specs.Lists.{list_of};
ghost use Rattle.liquid_model.specs.View.{view, items_view};
ghost use Rattle.liquid_shopify_host_filters.specs.Lookups.{shopify_find_answer, find_index_answer};
ghost use Rattle.liquid_shopify_host_filters.specs.Lookups.{first_match, has_answer, has_wanted};
ghost use Rattle.liquid_shopify_host_filters.specs.Lookups.{reject_answer};
ghost use Rattle.liquid_shopify_host_filters.specs.Lookups.{rejected, target_of, place_of_wanted};

use liquid_filters::{all_maps, is_wanted, property, sequence};
use liquid_model::{Result, Value, text_of};
use std::alloc::Global;

/// `reject`: the maps of a list whose property isn't there or isn't truthy, or is another than the
/// target where one is given.
///
/// A list with an item that is no map gives nil; nil counts as an empty list, and any other value
/// as a list of itself.
pub(crate) fn reject_answer(alloc: Global, input: &Value, args: &[Value]) -> Result<Value>
    requires { 1 ≤ length args.now }
    ensures { Answers view result (reject_answer (view input.now) (map view args.now)) }
{
    let items = sequence(input);
    let name = text_of(alloc, &args[0])?;
    if !all_maps(items) {
        return Ok(Value::Nil);
    }
    Ok(Value::Array(rejected(alloc, items, name.as_str(), target_of(args.get(1)))?))
}

/// `find`: the first of the maps that `reject` leaves out, or nil.
pub(crate) fn find_answer(alloc: Global, input: &Value, args: &[Value]) -> Result<Value>
    requires { 1 ≤ length args.now }
    ensures { Answers view result (shopify_find_answer (view input.now) (map view args.now)) }
{
    let items = sequence(input);
    let name = text_of(alloc, &args[0])?;
    if !all_maps(items) {
        return Ok(Value::Nil);
    }
    first_wanted(alloc, items, name.as_str(), target_of(args.get(1)))
}

/// `find_index`: the place of the first of the maps that `reject` leaves out, counted from 0, or
/// nil.
pub(crate) fn find_index_answer(alloc: Global, input: &Value, args: &[Value]) -> Result<Value>
    requires { 1 ≤ length args.now }
    ensures { Answers view result (find_index_answer (view input.now) (map view args.now)) }
{
    let items = sequence(input);
    let name = text_of(alloc, &args[0])?;
    if !all_maps(items) {
        return Ok(Value::Nil);
    }
    Ok(place_of_wanted(items, name.as_str(), target_of(args.get(1))))
}

/// `has`: whether there is a map that `reject` leaves out.
pub(crate) fn has_answer(alloc: Global, input: &Value, args: &[Value]) -> Result<Value>
    requires { 1 ≤ length args.now }
    ensures { Answers view result (has_answer (view input.now) (map view args.now)) }
{
    let items = sequence(input);
    let name = text_of(alloc, &args[0])?;
    if !all_maps(items) {
        return Ok(Value::Nil);
    }
    Ok(Value::Bool(has_wanted(items, name.as_str(), target_of(args.get(1)))))
}

/// The target that is given: nil is none.
fn target_of<'a>(given: Option<&'a Value>) -> Option<&'a Value>
    ensures { option_map (λ v. view v.now) result ≡ target_of
        (option_map (λ v. view v.now) given.entry) }
{
    match given {
        Some(Value::Nil) => None,
        _ => given,
    }
}

fn rejected(
    alloc: Global,
    items: &[Value],
    name: &str,
    target: Option<&Value>,
) -> Result<Vec<Value>>
    ensures { IsValueOrMemory (λ v. map view v.items) result
        (rejected name.now (option_map (λ v. view v.now) target.entry)
        (list_of (items_view items.now))) }
{
    let mut kept = Vec::new(alloc);
    for item in items {
        if !is_wanted(property(item, name), target) {
            kept.push(item.copy(alloc)?)?;
        }
    }
    Ok(kept)
}

fn first_wanted(alloc: Global, items: &[Value], name: &str, target: Option<&Value>) -> Result<Value>
    ensures { IsValueOrMemory view result
        (first_match name.now (option_map (λ v. view v.now) target.entry)
        (list_of (items_view items.now))) }
{
    for item in items {
        if is_wanted(property(item, name), target) {
            return item.copy(alloc);
        }
    }
    Ok(Value::Nil)
}

fn place_of_wanted(items: &[Value], name: &str, target: Option<&Value>) -> Value
    ensures { view result ≡ place_of_wanted name.now (option_map (λ v. view v.now) target.entry) 0
        (list_of (items_view items.now)) }
{
    let mut place = 0i64;
    for item in items {
        if is_wanted(property(item, name), target) {
            return Value::Integer(place);
        }
        place = place.saturating_add(1);
    }
    Value::Nil
}

fn has_wanted(items: &[Value], name: &str, target: Option<&Value>) -> bool
    ensures { result ≡ has_wanted name.now (option_map (λ v. view v.now) target.entry)
        (list_of (items_view items.now)) }
{
    for item in items {
        if is_wanted(property(item, name), target) {
            return true;
        }
    }
    false
}
