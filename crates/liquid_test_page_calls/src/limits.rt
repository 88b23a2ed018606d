//! Pages within limits: which text each has, how it ended, and by which limit.
use crate::given::{depth, language_with, missing, option, partials_of};
use crate::writers::{FailingWriter, kind_ending, page_of, writer};
use liquid_core::{ErrorKind, Object, Result, Value};
use liquid_lib::{
    Counted, LimitReached, Limited, LimitedPage, Limits, Partials, Renderable, RuntimeBuilder,
    Surroundings, Template, parse, render_page_within,
};
use liquid_test_refusals::{Reporter, WorkedRow, kind_of, text_of};

/// The row's page within its `bytes` and its `turns`, into a page and to a writer, each with the
/// limit that it is `ended_by`.
pub(crate) fn limited_made<R: Print>(
    reporter: &Reporter<'_, R>,
    row: &WorkedRow,
    data: Object,
) -> Result<()> {
    let language = language_with(reporter.alloc, &row.on)?;
    let partials = partials_of(reporter.alloc, &row.on, &language)?;
    let template = parse(reporter.alloc, row.source.as_str(), &language)?;
    // a page has no writer that fails by itself
    if option(&row.on, "writes").is_none() {
        page_limited(reporter, row, &template, &partials, &data);
    }
    writer_limited(reporter, row, &template, &partials, data)
}

/// The page as a text.
fn page_limited<R: Print>(
    reporter: &Reporter<'_, R>,
    row: &WorkedRow,
    template: &Template,
    partials: &Partials,
    data: &Object,
) {
    let around = Surroundings {
        partials,
        depth: depth(&row.on),
        missing: missing(&row.on),
        limits: limits_of(row),
    };
    reporter.begin();
    let answer = render_page_within(reporter.alloc, template, around, data);
    reporter.end();
    let end = match &answer {
        Ok(page) => page_limit_ending(row, page),
        Err(fault) => fault.kind.name(),
    };
    reporter.ended("render_page_within", row.source.as_str(), end);
}

/// `done` where the page has the text, the fault and the limit that the row says.
fn page_limit_ending(row: &WorkedRow, limited: &LimitedPage) -> &'static str {
    if limited.page.text.as_str() != page_of(row) {
        return "another_page";
    }
    if limit_name(limited.limit) != ended_by(row) {
        return "another_limit";
    }
    match &limited.page.fault {
        Some(fault) => kind_ending(row, Some(fault.kind)),
        None => kind_ending(row, None),
    }
}

/// The page to a writer, which by itself takes as many writes as the row says.
fn writer_limited<R: Print>(
    reporter: &Reporter<'_, R>,
    row: &WorkedRow,
    template: &Template,
    partials: &Partials,
    data: Object,
) -> Result<()> {
    let counted = Counted::new(writer(reporter.alloc, row)?);
    let mut limited = Limited::new(counted, limits_of(row));
    let mut runtime = RuntimeBuilder::new(reporter.alloc)
        .set_globals(data)
        .set_partials(partials)
        .set_depth(depth(&row.on))
        .build(reporter.alloc);
    runtime.set_missing(missing(&row.on));
    reporter.begin();
    let answer = template.render_to(reporter.alloc, &mut limited, &mut runtime);
    reporter.end();
    let end = match kind_of(&answer) {
        Some(ErrorKind::Memory) => "Memory",
        kind => writer_limit_ending(row, kind, limited),
    };
    reporter.ended("render_to within limits", row.source.as_str(), end);
    Ok(())
}

/// `done` where the writer took the page and was ended by the kind and the limit that the row
/// says.
fn writer_limit_ending(
    row: &WorkedRow,
    kind: Option<ErrorKind>,
    limited: Limited<Counted<FailingWriter>>,
) -> &'static str {
    if limit_name(limited.ended_by()) != ended_by(row) {
        return "another_limit";
    }
    if limited.into_inner().into_inner().bytes.as_slice() != page_of(row).as_bytes() {
        return "another_page";
    }
    kind_ending(row, kind)
}

/// The limits of the row: of each a number, or none.
fn limits_of(row: &WorkedRow) -> Limits {
    Limits {
        bytes: limit_option(row, "bytes"),
        turns: limit_option(row, "turns"),
    }
}

fn limit_option(row: &WorkedRow, name: &str) -> Option<u64> {
    match option(&row.on, name) {
        Some(Value::Integer(number)) => u64::try_from(*number).ok(),
        _ => None,
    }
}

/// The limit that is to end the page, by its name, or no name.
fn ended_by(row: &WorkedRow) -> &str {
    match option(&row.on, "ended_by") {
        Some(name) => text_of(name),
        None => "",
    }
}

fn limit_name(limit: Option<LimitReached>) -> &'static str {
    match limit {
        Some(LimitReached::Bytes) => "bytes",
        Some(LimitReached::Turns) => "turns",
        None => "",
    }
}
