//! Templates: their nodes, the names that they and a partial mention, what they ask of their data,
//! and the group of a `cycle`.
use crate::faults::no_call;
use liquid_core::{Expression, Result, Value};
use liquid_parser::{Language, parse};
use liquid_syntax::{Partials, Template};
use liquid_test_refusals::{WorkedRow, number, text_member};
use liquid_uses::{data_uses, paths_of};
use std::alloc::Global;

/// A call of the template. The row has a partial with its name and its source.
pub(crate) fn template_call(
    alloc: Global,
    row: &WorkedRow,
    language: &Language,
    template: &Template,
) -> Result<Value> {
    match row.name() {
        "node_count" => Ok(node_count(template)),
        "mentions" => Ok(Value::Bool(template.mentions(text_member(&row.with, 0)))),
        "names" => names(alloc, template, &partials(alloc, row, language)?),
        "paths" => paths(alloc, template, &partials(alloc, row, language)?),
        "partial" => Ok(held(row, &partials(alloc, row, language)?)),
        _ => no_call(alloc),
    }
}

fn node_count(template: &Template) -> Value {
    number(i64::try_from(template.node_count()).ok())
}

/// The partials of the row.
fn partials(alloc: Global, row: &WorkedRow, language: &Language) -> Result<Partials> {
    let mut partials = Partials::new(alloc);
    insert(alloc, row, language, &mut partials)?;
    Ok(partials)
}

fn insert(
    alloc: Global,
    row: &WorkedRow,
    language: &Language,
    partials: &mut Partials,
) -> Result<()> {
    let name = String::from_str(alloc, text_member(&row.with, 0))?;
    let template = parse(alloc, text_member(&row.with, 1), language)?;
    partials.insert(name, template)
}

/// The names, of which each is mentioned by the template or by a partial.
fn names(alloc: Global, template: &Template, partials: &Partials) -> Result<Value> {
    let mut names = Vec::new(alloc);
    for name in &template.names(alloc, partials)? {
        if template.mentions(name.as_str()) || partials.mention(name.as_str()) {
            push_text(alloc, &mut names, name.as_str())?;
        }
    }
    Ok(Value::Array(names))
}

/// What the template and the partial ask of their data, as paths.
fn paths(alloc: Global, template: &Template, partials: &Partials) -> Result<Value> {
    let uses = data_uses(alloc, template, partials)?;
    let mut paths = Vec::new(alloc);
    for path in paths_of(alloc, &uses)? {
        paths.push(Value::Text(path))?;
    }
    Ok(Value::Array(paths))
}

/// Puts a copy of the text after the others.
fn push_text(alloc: Global, texts: &mut Vec<Value>, text: &str) -> Result<()> {
    texts.push(Value::Text(String::from_str(alloc, text)?))?;
    Ok(())
}

/// How many nodes the partial has, and nil where there is none of the name.
fn held(row: &WorkedRow, partials: &Partials) -> Value {
    match partials.get(text_member(&row.with, 2)) {
        Some(partial) => node_count(partial),
        None => Value::Nil,
    }
}

/// The group of a `cycle`, with the number of its values.
pub(crate) fn group_call(alloc: Global, group: &String, values: &Vec<Expression>) -> Result<Value> {
    let mut both = Vec::new(alloc);
    push_text(alloc, &mut both, group.as_str())?;
    both.push(number(i64::try_from(values.len()).ok()))?;
    Ok(Value::Array(both))
}
