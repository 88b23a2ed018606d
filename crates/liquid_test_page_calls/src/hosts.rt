//! Filters of a host: calls by their names, and pages.
use crate::filters::{Bad, Suffix};
use crate::given::option;
use crate::pages::pages_made;
use liquid_core::{
    ErrorKind, Expression, Filter, HostFilters, NamedFilters, Object, Result, State, Value,
};
use liquid_syntax::{FilterCall, apply_filters};
use liquid_test_refusals::{Reporter, WorkedRow, items, items_member, member, text_member};
use std::alloc::Global;

/// The calls of the row, or its page, with the filters of a host: `shout`, which puts a `!` after
/// (an earlier one of that name puts a `0`), `upcase`, which puts a `?`, and `bad`.
pub(crate) fn hosted<R: Print>(reporter: &Reporter<'_, R>, row: &WorkedRow) -> Result<()> {
    let alloc = reporter.alloc;
    let bad_name = String::from_str(alloc, "bad")?;
    let bad: Box<dyn Filter> = Box::new(alloc, Bad)?;
    let mut filters = Vec::new(alloc);
    filters.push((bad_name, bad))?;
    for (name, text) in &[("shout", "0"), ("shout", "!"), ("upcase", "?")] {
        let name = String::from_str(alloc, name)?;
        let suffix: Box<dyn Filter> = Box::new(alloc, Suffix { text })?;
        filters.push((name, suffix))?;
    }
    let host = HostFilters::new(filters);
    match row.call.as_str() {
        "filters" => called_in_turn(reporter, &host, &row.with),
        _ => hosted_pages(reporter, row, &host),
    }
}

/// The page of the row, with the filters of the host unless it lacks them.
pub(crate) fn hosted_pages<R: Print>(
    reporter: &Reporter<'_, R>,
    row: &WorkedRow,
    host: &HostFilters,
) -> Result<()> {
    let given = match option(&row.on, "lacks_filters") {
        Some(_) => None,
        None => Some(host),
    };
    pages_made(reporter, row, Object::new(reporter.alloc), given)
}

/// Calls the filters of the host. Each step is a list: the call, the filter's name, the input, the
/// arguments, and the answer or the kind of the fault.
pub(crate) fn called_in_turn<R: Print>(
    reporter: &Reporter<'_, R>,
    host: &HostFilters,
    steps: &Value,
) -> Result<()> {
    for step in items(steps) {
        reporter.begin();
        let answer = called(reporter.alloc, host, step);
        reporter.end();
        reporter.step_ended(step, 4, &answer);
    }
    Ok(())
}

fn called(alloc: Global, host: &HostFilters, step: &Value) -> Result<Value> {
    let name = text_member(step, 1);
    let input = member(step, 2).unwrap_or(&Value::Nil);
    let args = items_member(step, 3);
    match text_member(step, 0) {
        "accepts" => Ok(
            host.accepts(name, args.len())
                .map_or(Value::Nil, Value::Bool),
        ),
        "call" => host.call(alloc, name, input, args),
        "call_named" => Some(host).call_named(alloc, name, input, args),
        "evaluate" if host.accepts(name, args.len()) == Some(true) => host.evaluate(
            alloc, name, input, args,
        ),
        "apply_filters" => applied(alloc, input),
        _ => without_a_host(alloc, name),
    }
}

/// What a call by name answers where there are no filters of a host.
fn without_a_host(alloc: Global, name: &str) -> Result<Value> {
    let none: Option<&HostFilters> = None;
    none.call_named(alloc, name, &Value::Nil, &[])
}

/// Two filters of one type of ours, one after the other.
fn applied(alloc: Global, input: &Value) -> Result<Value> {
    let input = input.copy(alloc)?;
    let args: &[Expression] = &[];
    let calls = [
        FilterCall {
            filter: Suffix { text: "!" },
            args,
            required: args.len(),
        },
        FilterCall {
            filter: Suffix { text: "?" },
            args,
            required: args.len(),
        },
    ];
    let state = State::new(alloc, Object::new(alloc));
    apply_filters(alloc, input, &calls, &state)
}
