//! Sites: one change after another, and what the site shows after each.
use crate::any_site::AnySite;
use liquid_core::{ErrorKind, Object, Result, Value, look_up};
use liquid_lib::language;
use liquid_site::{Change, LimitedSite, Limits, Site};
use liquid_test_refusals::{
    Reporter, WorkedRow, items, kind_of, member, name_of, optional, text_member,
};
use std::alloc::Global;

/// Applies the changes of the row. Each is a list: the change, its name, its source, value or data,
/// the kind of its fault or an empty text, what the site shows after it, and words by which
/// `tests/refusals/run` tells changes that make other requests.
pub(crate) fn site_made<R: Print>(reporter: &Reporter<'_, R>, row: &WorkedRow) -> Result<()> {
    let mut site = Site::new(reporter.alloc, language(reporter.alloc)?, 32);
    applied_in_turn(reporter, &mut site, items(&row.with))
}

/// The same for a site within limits, which are the numbers `bytes` and `turns` of the map `on`.
pub(crate) fn limited_site_made<R: Print>(
    reporter: &Reporter<'_, R>,
    row: &WorkedRow,
) -> Result<()> {
    let limits = limits_of(&row.on);
    let mut site = LimitedSite::new(reporter.alloc, language(reporter.alloc)?, 32, limits);
    applied_in_turn(reporter, &mut site, items(&row.with))
}

fn limits_of(on: &Value) -> Limits {
    match on {
        Value::Object(limits) => Limits {
            bytes: count_of(look_up(limits, "bytes")),
            turns: count_of(look_up(limits, "turns")),
        },
        _ => Limits::default(),
    }
}

fn count_of(value: Option<&Value>) -> Option<u64> {
    match value {
        Some(Value::Integer(count)) => u64::try_from(*count).ok(),
        _ => None,
    }
}

fn applied_in_turn<R: Print, S: AnySite>(
    reporter: &Reporter<'_, R>,
    site: &mut S,
    steps: &[Value],
) -> Result<()> {
    let mut before = None;
    for step in steps {
        applied(reporter, site, step, before)?;
        before = Some(step);
    }
    Ok(())
}

/// Applies a change. Where memory was refused, the site is as it was after the step before, and
/// takes the change when it comes again.
fn applied<R: Print, S: AnySite>(
    reporter: &Reporter<'_, R>,
    site: &mut S,
    step: &Value,
    before: Option<&Value>,
) -> Result<()> {
    let kind = applied_once(reporter, site, step)?;
    let end = match kind {
        Some(ErrorKind::Memory) if shows(site, before) => "Memory",
        Some(ErrorKind::Memory) => "another_site",
        _ => applied_end(step, kind),
    };
    tell_end(reporter, step, end)?;
    if matches!(kind, Some(ErrorKind::Memory)) {
        drop(site.applied(change_of(reporter.alloc, step)?));
    }
    tell_pages(reporter, site, step)
}

/// Applies the step's change. The kind of the fault that it ended by, if it did.
fn applied_once<R: Print, S: AnySite>(
    reporter: &Reporter<'_, R>,
    site: &mut S,
    step: &Value,
) -> Result<Option<ErrorKind>> {
    let change = change_of(reporter.alloc, step)?;
    reporter.begin();
    let kind = kind_of(&site.applied(change));
    reporter.end();
    Ok(kind)
}

/// Tells how the step's change ended.
fn tell_end<R: Print>(reporter: &Reporter<'_, R>, step: &Value, end: &str) -> Result<()> {
    let at = named(reporter.alloc, step)?;
    reporter.ended(text_member(step, 0), at.as_str(), end);
    Ok(())
}

/// Tells the step where the site shows other pages after it.
fn tell_pages<R: Print, S: AnySite>(
    reporter: &Reporter<'_, R>,
    site: &S,
    step: &Value,
) -> Result<()> {
    if !shows(site, Some(step)) {
        let at = named(reporter.alloc, step)?;
        let _ = println!(reporter.rt; "the site shows other pages after {at}");
    }
    Ok(())
}

/// The name, the source and the words of the step.
fn named(alloc: Global, step: &Value) -> Result<String> {
    let (name, source) = (text_member(step, 1), text_member(step, 2));
    Ok(format!(in alloc; "{name} {source} {}", text_member(step, 6))?)
}

/// `done` where the kind is the one that the step says, or there is none of both.
fn applied_end(step: &Value, kind: Option<ErrorKind>) -> &'static str {
    if name_of(kind) == text_member(step, 3) {
        "done"
    } else {
        "another_end"
    }
}

fn change_of(alloc: Global, step: &Value) -> Result<Change> {
    let name = String::from_str(alloc, text_member(step, 1))?;
    let source = String::from_str(alloc, text_member(step, 2))?;
    Ok(match text_member(step, 0) {
        "SetPage" => Change::SetPage(name, source),
        "RemovePage" => Change::RemovePage(name),
        "SetPartial" => Change::SetPartial(name, source),
        "RemovePartial" => Change::RemovePartial(name),
        "SetValue" => Change::SetValue(name, optional(alloc, member(step, 2))?),
        "SetData" => Change::SetData(data_of(alloc, step)?),
        _ => Change::RemoveValue(name),
    })
}

/// The data that the step has in place of a source.
fn data_of(alloc: Global, step: &Value) -> Result<Object> {
    match optional(alloc, member(step, 2))? {
        Value::Object(data) => Ok(data),
        _ => Ok(Object::new(alloc)),
    }
}

/// Whether the site shows just what the step says: each page as `src/any_site.rt` writes it, and
/// how many were `rendered`. Without a step, whether it shows no page, and none was rendered.
fn shows<S: AnySite>(site: &S, step: Option<&Value>) -> bool {
    let Some(step) = step else {
        return site.shown_of(None) == Some(0) && site.rendered() == 0;
    };
    match member(step, 4) {
        Some(Value::Object(wanted)) => has_rendered(site, wanted) && has_pages(site, wanted),
        _ => false,
    }
}

/// Whether each page of the site is shown as it is wanted, and none is wanted beside them.
fn has_pages<S: AnySite>(site: &S, wanted: &Object) -> bool {
    match site.shown_of(Some(wanted)) {
        Some(count) => wanted.len().checked_sub(1) == Some(count),
        None => false,
    }
}

/// Whether the number of rendered pages is the wanted one.
fn has_rendered<S: AnySite>(site: &S, wanted: &Object) -> bool {
    match look_up(wanted, "rendered") {
        Some(Value::Integer(count)) => u64::try_from(*count) == Ok(site.rendered()),
        _ => false,
    }
}
