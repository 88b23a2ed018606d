//! The filter that groups a list by a property of its items.
ghost use Rattle.std.specs.Prelude.{◌≡◌, ◌∷◌, ◌++◌, [], IfErr, IfOk, List, map, nat_eq, option_map};
ghost use Rattle.std.specs.Prelude.{string_bytes, ℕ};
ghost use Rattle.std.specs.Cow.{cow_str_bytes};
ghost use Rattle.liquid_model.specs.Answer.{Answers, IsValueOrMemory};
ghost use Rattle.liquid_model.specs.Lists.{list_of};
ghost use Rattle.liquid_model.specs.View.{view, items_view, pairs_view};
ghost use Rattle.liquid_model.specs.declared.error.ErrorKind.TheVariants.{Memory};
ghost use Rattle.liquid_jekyll_host_filters.specs.Groups.{group_by_answer, group_name, group_map};
ghost use Rattle.liquid_jekyll_host_filters.specs.Groups.{grouped, groups, items_named};
ghost use Rattle.liquid_jekyll_host_filters.specs.Groups.{names_after, noted};
ghost use Rattle.liquid_jekyll_host_filters.specs.inside.Members.{AreSeen, member_if_named};
ghost use Rattle.liquid_jekyll_host_filters.specs.inside.Members.{members_of};
ghost use Rattle.liquid_model.specs.Data.{put};

use crate::properties::property;
use liquid_model::{Filter, Object, Result, Value, invalid_input, store, text_of};
use std::alloc::Global;
use std::borrow::CowStr;
use std::collections::{BTreeMap, BTreeSet};

/// The items of each text that items have for a property.
type Members<'a> = BTreeMap<String, Vec<&'a Value>>;

/// `group_by`: a map for each text that items of a list have for the property, in the order in
/// which these come. It has `name`, the text, `items`, those that have it, in their order, and
/// `size`, how many they are.
#[derive(Clone, Copy, Drop)]
pub struct GroupBy;

impl Filter for GroupBy {
    ghost counts = { λ _ n. nat_eq n 1 };

    ghost answer = { λ _. group_by_answer };

    fn accepts(&self, count: usize) -> bool {
        count == 1
    }

    /// `InvalidInput` of a map; any other input that is no list stays.
    fn evaluate(&self, alloc: Global, input: &Value, args: &[Value]) -> Result<Value> {
        grouped(alloc, input, &args[0])
    }
}

fn grouped(alloc: Global, input: &Value, name: &Value) -> Result<Value>
    ensures { Answers view result (grouped (view name.now) (view input.now)) }
{
    match input {
        Value::Array(items) => {
            let name = text_of(alloc, name)?;
            Ok(Value::Array(groups(alloc, items, name.as_str())?))
        }
        Value::Object(_) => Err(invalid_input(alloc, "a list", input)),
        _ => input.copy(alloc),
    }
}

fn groups(alloc: Global, items: &[Value], name: &str) -> Result<Vec<Value>>
    ensures { IsValueOrMemory (λ v. map view v.items) result
        (groups name.now (list_of (items_view items.now))) }
{
    let members = members(alloc, items, name)?;
    let names = names(alloc, items, name)?;
    let mut groups = Vec::with_capacity(alloc, names.len())?;
    for found in &names {
        groups.push(group(alloc, found.as_str(), &members)?)?;
    }
    Ok(groups)
}

/// The items of each text.
fn members<'a>(alloc: Global, items: &'a [Value], name: &str) -> Result<Members<'a>>
    ensures members { IfOk result (λ m. (q : List ℕ) → members_of m q ≡
        items_named name.now (list_of (items_view items.now)) q) }
    ensures memory { IfErr result (λ e. e.kind ≡ Memory) }
{
    let mut members: Members<'a> = BTreeMap::new(alloc);
    for item in items {
        let text = group_name(alloc, item, name)?.into_owned(alloc)?;
        add_member(&mut members, text, item)?;
    }
    Ok(members)
}

/// Adds an item to those of the text.
fn add_member<'a>(members: &mut Members<'a>, text: String, item: &'a Value) -> Result<()>
    ensures members { IfOk result (λ _. (q : List ℕ) → members_of members.new q ≡
        members_of members.old q ++
        member_if_named (string_bytes text) (view item.now) q) }
    ensures memory { IfErr result (λ e. e.kind ≡ Memory) }
{
    members.entry(text)?.or_default().push(item)?;
    Ok(())
}

/// The texts, each where it comes first.
fn names(alloc: Global, items: &[Value], name: &str) -> Result<Vec<String>>
    ensures { IsValueOrMemory (λ v. map string_bytes v.items) result
        (names_after name.now [] (list_of (items_view items.now))) }
{
    let mut seen: BTreeSet<String> = BTreeSet::new(alloc);
    let mut names = Vec::new(alloc);
    for item in items {
        let text = group_name(alloc, item, name)?;
        note_name(alloc, &mut seen, &mut names, text.as_str())?;
    }
    Ok(names)
}

/// Appends the text to the names, unless it is among them. `seen` has them too.
fn note_name(
    alloc: Global,
    seen: &mut BTreeSet<String>,
    names: &mut Vec<String>,
    text: &str,
) -> Result<()>
    requires { AreSeen seen.old (map string_bytes names.old.items) }
    ensures names { IsValueOrMemory (λ _. map string_bytes names.new.items) result
        (noted text.now (map string_bytes names.old.items)) }
    ensures seen { IfOk result (λ _. AreSeen seen.new (map string_bytes names.new.items)) }
{
    if seen.contains(text) {
        return Ok(());
    }
    drop(seen.insert(String::from_str(alloc, text)?)?);
    names.push(String::from_str(alloc, text)?)?;
    Ok(())
}

/// The text that an item is grouped by.
fn group_name<'a>(alloc: Global, item: &'a Value, name: &str) -> Result<CowStr<'a>>
    ensures { IsValueOrMemory cow_str_bytes result (group_name name.now (view item.now)) }
{
    match property(item, name) {
        Some(value) => text_of(alloc, value),
        None => Ok(CowStr::Borrowed("")),
    }
}

/// The group of a text as a map.
fn group(alloc: Global, name: &str, members: &Members<'_>) -> Result<Value>
    ensures { IsValueOrMemory view result (group_map name.now (members_of members.now name.now)) }
{
    match members.get(name) {
        Some(found) => group_of(alloc, name, copied(alloc, found)?),
        None => group_of(alloc, name, Vec::new(alloc)),
    }
}

fn copied(alloc: Global, items: &[&Value]) -> Result<Vec<Value>>
    ensures { IsValueOrMemory (λ v. map view v.items) result (map (λ v. view v.now) items.now) }
{
    let mut copies = Vec::with_capacity(alloc, items.len())?;
    for item in items {
        copies.push(item.copy(alloc)?)?;
    }
    Ok(copies)
}

fn group_of(alloc: Global, name: &str, items: Vec<Value>) -> Result<Value>
    ensures { IsValueOrMemory view result (group_map name.now (map view items.items)) }
{
    let size = i64::try_from(items.len()).unwrap_or(i64::MAX);
    let mut group = Object::new(alloc);
    put(alloc, &mut group, "items", Value::Array(items))?;
    put(
        alloc,
        &mut group,
        "name",
        Value::Text(String::from_str(alloc, name)?),
    )?;
    put(alloc, &mut group, "size", Value::Integer(size))?;
    Ok(Value::Object(group))
}

fn put(alloc: Global, group: &mut Object, key: &str, value: Value) -> Result<()>
    ensures { IsValueOrMemory (λ _. pairs_view group.new.entries) result
        (put key.now (view value) (pairs_view group.old.entries)) }
{
    store(group, String::from_str(alloc, key)?, value)
}
