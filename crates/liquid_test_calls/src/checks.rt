//! What is found in sources, whether they are templates or not.
use crate::faults::no_call;
use liquid_check::{Finding, Findings, else_items, findings_of};
use liquid_core::{Location, Result, Value};
use liquid_parser::Language;
use liquid_test_refusals::{WorkedRow, number};
use std::alloc::Global;

/// A call over the row's source.
pub(crate) fn check_call(alloc: Global, row: &WorkedRow, language: &Language) -> Result<Value> {
    match row.name() {
        "findings" => findings(alloc, row.source.as_str(), language),
        "nodes" => nodes(alloc, row.source.as_str(), language),
        "else_items" => places(alloc, row.source.as_str(), language),
        _ => no_call(alloc),
    }
}

/// Of each finding its kind, its line and column, the start and the length of the part that is made
/// text, and whether it follows from another.
fn findings(alloc: Global, source: &str, language: &Language) -> Result<Value> {
    let mut all = Vec::new(alloc);
    for finding in &findings_of(alloc, source, language)?.findings {
        all.push(Value::Array(parts(alloc, finding)?))?;
    }
    Ok(Value::Array(all))
}

fn parts(alloc: Global, finding: &Finding) -> Result<Vec<Value>> {
    let mut parts = Vec::new(alloc);
    parts.push(Value::Text(String::from_str(alloc, finding.fault.kind.name())?))?;
    if let Some(location) = &finding.fault.location {
        push_place(&mut parts, location)?;
    }
    push_number(&mut parts, finding.start)?;
    push_number(&mut parts, finding.length)?;
    parts.push(Value::Bool(finding.follows))?;
    Ok(parts)
}

/// How many there are, and of how many nodes the template is that is left.
fn nodes(alloc: Global, source: &str, language: &Language) -> Result<Value> {
    let Findings { findings, template } = findings_of(alloc, source, language)?;
    let mut both = Vec::new(alloc);
    push_number(&mut both, findings.len())?;
    match template {
        Some(template) => push_number(&mut both, template.node_count())?,
        None => both.push(Value::Nil)?,
    }
    Ok(Value::Array(both))
}

/// The places of each `else` with something after it.
fn places(alloc: Global, source: &str, language: &Language) -> Result<Value> {
    let mut all = Vec::new(alloc);
    for location in &else_items(alloc, source, language)? {
        let mut place = Vec::new(alloc);
        push_place(&mut place, location)?;
        all.push(Value::Array(place))?;
    }
    Ok(Value::Array(all))
}

fn push_place(parts: &mut Vec<Value>, location: &Location) -> Result<()> {
    push_number(parts, location.line)?;
    push_number(parts, location.column)
}

fn push_number(parts: &mut Vec<Value>, count: usize) -> Result<()> {
    parts.push(number(i64::try_from(count).ok()))?;
    Ok(())
}
