//! Filters, by their names in rows: what one answers alone and in a chain, which numbers of
//! arguments it accepts, and which filters no row calls.
use crate::answers::call_ended;
use crate::faults::{no_call, unknown};
use liquid_core::{Expression, Filter, Object, Result, State, Value};
use liquid_filters::FilterKind;
use liquid_lib::STANDARD_FILTERS;
use liquid_syntax::{FilterCall, apply_filters};
use liquid_test_refusals::{Reporter, WorkedRow, items};
use std::alloc::Global;

/// Jekyll's `sort`, which the standard language lacks: its filter of that name is another.
const JEKYLL_SORT: FilterKind = FilterKind::JekyllSort;

/// The name of a filter in rows: Liquid's, but for Jekyll's `sort`.
fn name_in_rows(filter: FilterKind) -> &'static str {
    match filter {
        FilterKind::JekyllSort => "jekyll sort",
        _ => filter.name(),
    }
}

/// The filter of the name.
fn filter_named(alloc: Global, name: &str) -> Result<FilterKind> {
    for filter in &STANDARD_FILTERS {
        if name_in_rows(*filter) == name {
            return Ok(*filter);
        }
    }
    if name_in_rows(JEKYLL_SORT) == name {
        return Ok(JEKYLL_SORT);
    }
    Err(unknown(alloc))
}

/// Makes the call of a row of a filter, which is noted: by the filter alone, and then by a chain of
/// it.
pub(crate) fn filter_made<R: Print>(
    reporter: &Reporter<'_, R>,
    called: &mut Vec<&'static str>,
    line: &str,
    row: &WorkedRow,
) -> Result<()> {
    let filter = filter_named(reporter.alloc, row.name())?;
    called.push(name_in_rows(filter))?;
    made_alone(reporter, line, filter, row);
    made_in_a_chain(reporter, line, filter, row)
}

fn made_alone<R: Print>(
    reporter: &Reporter<'_, R>,
    line: &str,
    filter: FilterKind,
    row: &WorkedRow,
) {
    reporter.begin();
    let answer = alone(reporter.alloc, filter, row);
    call_ended(reporter, line, row, answer);
}

/// What the filter answers to the row's value, with the row's list as its arguments.
fn alone(alloc: Global, filter: FilterKind, row: &WorkedRow) -> Result<Value> {
    let args = items(&row.with);
    if filter.accepts(args.len()) {
        return filter.evaluate(alloc, &row.on, args);
    }
    no_call(alloc)
}

/// Makes the same call by a chain of the filter, whose arguments are literals.
fn made_in_a_chain<R: Print>(
    reporter: &Reporter<'_, R>,
    line: &str,
    filter: FilterKind,
    row: &WorkedRow,
) -> Result<()> {
    let literals = literals(reporter.alloc, items(&row.with))?;
    let input = row.on.copy(reporter.alloc)?;
    reporter.begin();
    let answer = in_a_chain(reporter.alloc, filter, input, &literals);
    reporter.end();
    reporter.answered_by("apply_filters", line, row, &answer);
    Ok(())
}

/// What a chain of the filter answers to the input.
fn in_a_chain(
    alloc: Global,
    filter: FilterKind,
    input: Value,
    args: &[Expression],
) -> Result<Value> {
    if !filter.accepts(args.len()) {
        return no_call(alloc);
    }
    let state = State::new(alloc, Object::new(alloc));
    let required = args.len();
    let call = FilterCall {
        filter,
        args,
        required,
    };
    apply_filters(alloc, input, &[call], &state)
}

/// Makes the call of `apply_filters` without any filter, over the row's value.
pub(crate) fn no_filter_made<R: Print>(
    reporter: &Reporter<'_, R>,
    line: &str,
    row: &WorkedRow,
) -> Result<()> {
    let entry = row.on.copy(reporter.alloc)?;
    let state = State::new(reporter.alloc, Object::new(reporter.alloc));
    let calls: &[FilterCall<'_, FilterKind>] = &[];
    reporter.begin();
    let answer = apply_filters(reporter.alloc, entry, calls, &state);
    call_ended(reporter, line, row, answer);
    Ok(())
}

/// Copies of the arguments as literals.
fn literals(alloc: Global, args: &[Value]) -> Result<Vec<Expression>> {
    let mut literals = Vec::new(alloc);
    for argument in args {
        literals.push(Expression::Literal(argument.copy(alloc)?))?;
    }
    Ok(literals)
}

/// Whether the filter of the name accepts the numbers of arguments from the row's first value to
/// its second one, and no others.
pub(crate) fn accepts_call(alloc: Global, name: &str, row: &WorkedRow) -> Result<Value> {
    let filter = filter_named(alloc, name)?;
    match (&row.on, &row.with) {
        (Value::Integer(least), Value::Integer(most)) => {
            Ok(Value::Bool(accepts_only(filter, *least, *most)))
        }
        _ => no_call(alloc),
    }
}

/// Whether the filter accepts the numbers of arguments from the least to the most and no others, up
/// to four.
fn accepts_only(filter: FilterKind, least: i64, most: i64) -> bool {
    for count in 0..5u8 {
        let is_wanted = least <= i64::from(count) && i64::from(count) <= most;
        if filter.accepts(usize::from(count)) != is_wanted {
            return false;
        }
    }
    true
}

/// Tells each filter that isn't among the called ones, unless no row called any: then no row of a
/// filter was given.
pub(crate) fn each_is_called<R: Print>(reporter: &Reporter<'_, R>, called: &[&str]) {
    if called.is_empty() {
        return;
    }
    for filter in &STANDARD_FILTERS {
        one_is_called(reporter, called, name_in_rows(*filter));
    }
    one_is_called(reporter, called, name_in_rows(JEKYLL_SORT));
}

/// Tells the filter of the name where it isn't among the called ones.
fn one_is_called<R: Print>(reporter: &Reporter<'_, R>, called: &[&str], name: &str) {
    if !called.contains(&name) {
        let _ = println!(reporter.rt; "no row of {name}");
    }
}
