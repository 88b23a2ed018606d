//! A page by each call that makes it.
use crate::given::{copied, depth, language_with, missing, option, partials_of};
use crate::writers::{FailingWriter, kind_ending, page_ending, page_of, writer};
use liquid_core::{ErrorKind, HostFilters, Object, Result, Value};
use liquid_lib::{
    Counted, Language, Page, Partials, Renderable, RunSetting, Runtime, RuntimeBuilder, Template,
    parse, render_page_by, render_source,
};
use liquid_test_refusals::{Reporter, WorkedRow, items, kind_of, text_member, text_of};
use std::alloc::Global;

/// What the pages of a row are made of.
#[derive(Drop)]
struct Given<'g> {
    row: &'g WorkedRow,
    language: &'g Language,
    partials: &'g Partials,
    template: &'g Template,
    data: &'g Value,
    host: Option<&'g HostFilters>,
}

/// The page of the row by each call, with these filters of a host or without any.
pub(crate) fn pages_made<R: Print>(
    reporter: &Reporter<'_, R>,
    row: &WorkedRow,
    data: Object,
    host: Option<&HostFilters>,
) -> Result<()> {
    let language = language_with(reporter.alloc, &row.on)?;
    pages_in(reporter, row, &Value::Object(data), host, &language)
}

/// The page in the language.
fn pages_in<R: Print>(
    reporter: &Reporter<'_, R>,
    row: &WorkedRow,
    data: &Value,
    host: Option<&HostFilters>,
    language: &Language,
) -> Result<()> {
    let partials = &partials_of(reporter.alloc, &row.on, language)?;
    match parsed(reporter, row, language) {
        Some(template) => rendered_by_each(
            reporter,
            &Given {
                row,
                language,
                partials,
                template: &template,
                data,
                host,
            },
        ),
        None => Ok(()),
    }
}

/// The page of the row by the calls that render a template, with these filters of a host or without
/// any. It is parsed before them, so that nothing but they stands between marks.
pub(crate) fn rendering_made<R: Print>(
    reporter: &Reporter<'_, R>,
    row: &WorkedRow,
    data: Object,
    host: Option<&HostFilters>,
) -> Result<()> {
    let language = language_with(reporter.alloc, &row.on)?;
    rendering_in(reporter, row, &Value::Object(data), host, &language)
}

/// The same in the language.
fn rendering_in<R: Print>(
    reporter: &Reporter<'_, R>,
    row: &WorkedRow,
    data: &Value,
    host: Option<&HostFilters>,
    language: &Language,
) -> Result<()> {
    let partials = &partials_of(reporter.alloc, &row.on, language)?;
    let template = &parse(reporter.alloc, row.source.as_str(), language)?;
    rendered_twice(
        reporter,
        &Given {
            row,
            language,
            partials,
            template,
            data,
            host,
        },
    )
}

/// To a writer, and as a text.
fn rendered_twice<R: Print>(reporter: &Reporter<'_, R>, given: &Given<'_>) -> Result<()> {
    rendered_by(reporter, given, "render_to")?;
    rendered_by(reporter, given, "render")
}

/// The template, parsed again where memory was refused, or none where the row's source is refused
/// by its fault.
fn parsed<R: Print>(
    reporter: &Reporter<'_, R>,
    row: &WorkedRow,
    language: &Language,
) -> Option<Template> {
    let source = row.source.as_str();
    reporter.begin();
    let answer = parse(reporter.alloc, source, language);
    reporter.end();
    let kind = kind_of(&answer);
    reporter.ended("parse", source, parse_ending(row, kind));
    match kind {
        Some(ErrorKind::Memory) => parse(reporter.alloc, source, language).ok(),
        _ => answer.ok(),
    }
}

/// `done` where the source was parsed, or is refused by the kind of the row's fault.
fn parse_ending(row: &WorkedRow, kind: Option<ErrorKind>) -> &'static str {
    match kind {
        None => "done",
        Some(ErrorKind::Memory) => "Memory",
        Some(_) => kind_ending(row, kind),
    }
}

/// The page by the calls that write it, and where no write is to fail, by those that answer it.
fn rendered_by_each<R: Print>(reporter: &Reporter<'_, R>, given: &Given<'_>) -> Result<()> {
    rendered_by(reporter, given, "render_to")?;
    rendered_by(reporter, given, "render_source")?;
    if given.row.fault.as_str() == "Write" {
        return Ok(());
    }
    rendered_by(reporter, given, "render")?;
    if given.host.is_none() {
        page_rendered(reporter, given);
    }
    Ok(())
}

/// The page by a call over a runtime.
fn rendered_by<R: Print>(reporter: &Reporter<'_, R>, given: &Given<'_>, call: &str) -> Result<()> {
    let data = copied(reporter.alloc, given.data)?;
    let written = Counted::new(writer(reporter.alloc, given.row)?);
    rendered_over(reporter, given, call, data, written)
}

/// The page by a call over a runtime of the data, which is made here: of one that is handed on to
/// `render_source` rt ci takes it that filters of a host are made for it.
fn rendered_over<R: Print>(
    reporter: &Reporter<'_, R>,
    given: &Given<'_>,
    call: &str,
    data: Object,
    mut written: Counted<FailingWriter>,
) -> Result<()> {
    let (alloc, source) = (reporter.alloc, given.row.source.as_str());
    let builder = RuntimeBuilder::new(alloc)
        .set_globals(data)
        .set_partials(given.partials)
        .set_depth(depth(&given.row.on));
    let mut runtime = match given.host {
        Some(host) => builder.set_host_filters(host).build(alloc),
        None => builder.build(alloc),
    };
    runtime.set_missing(missing(&given.row.on));
    rendered_first(reporter, given, &mut runtime)?;
    if call == "render" {
        rendered(reporter, given, &mut runtime);
        return Ok(());
    }
    reporter.begin();
    let answer = match call {
        "render_to" => given.template.render_to(alloc, &mut written, &mut runtime),
        _ => render_source(alloc, source, given.language, &mut written, &mut runtime),
    };
    reporter.end();
    let kind = kind_of(&answer);
    reporter.ended(call, source, page_ending(given.row, kind, written));
    rendered_then(reporter, given, &mut runtime, kind)
}

/// Renders the row's `first` source on the same runtime, where it has one, outside of marks, so
/// that no memory is refused to it.
fn rendered_first<R: Print>(
    reporter: &Reporter<'_, R>,
    given: &Given<'_>,
    runtime: &mut Runtime<'_>,
) -> Result<()> {
    if let Some(Value::Text(source)) = option(&given.row.on, "first") {
        let template = parse(reporter.alloc, source.as_str(), given.language)?;
        drop(template.render(reporter.alloc, runtime)?);
    }
    Ok(())
}

fn rendered<R: Print>(reporter: &Reporter<'_, R>, given: &Given<'_>, runtime: &mut Runtime<'_>) {
    reporter.begin();
    let answer = given.template.render(reporter.alloc, runtime);
    reporter.end();
    let end = match &answer {
        Ok(text) if text.as_str() != page_of(given.row) => "another_page",
        _ => kind_ending(given.row, kind_of(&answer)),
    };
    reporter.ended("render", given.row.source.as_str(), end);
}

/// Renders the row's further sources on what the runtime now is, each with what it shows.
fn rendered_then<R: Print>(
    reporter: &Reporter<'_, R>,
    given: &Given<'_>,
    runtime: &mut Runtime<'_>,
    kind: Option<ErrorKind>,
) -> Result<()> {
    for step in further(reporter, given.row, kind) {
        step_rendered(reporter, given.language, runtime, step)?;
    }
    Ok(())
}

/// The further sources: those of `refused` after a rendering that was refused memory, and else
/// those of `then`, which are as many. Where calls stand between marks and the row has no
/// `refused` there are none, since each run makes the same calls.
fn further<'r, R: Print>(
    reporter: &Reporter<'_, R>,
    row: &'r WorkedRow,
    kind: Option<ErrorKind>,
) -> &'r [Value] {
    let refused = option(&row.on, "refused");
    let steps = match kind {
        Some(ErrorKind::Memory) => refused,
        _ if reporter.marked && refused.is_none() => None,
        _ => option(&row.on, "then"),
    };
    match steps {
        Some(steps) => items(steps),
        None => &[],
    }
}

/// Renders the source of a step, outside of marks, so that no memory is refused to it.
fn step_rendered<R: Print>(
    reporter: &Reporter<'_, R>,
    language: &Language,
    runtime: &mut Runtime<'_>,
    step: &Value,
) -> Result<()> {
    let source = text_member(step, 0);
    let template = parse(reporter.alloc, source, language)?;
    let answer = template.render(reporter.alloc, runtime);
    reporter.begin();
    reporter.end();
    reporter.ended("render then", source, then_ending(&answer, step));
    Ok(())
}

/// `done` where the answer is one of the texts after the step's source, or a fault of a kind of
/// such a name.
fn then_ending(answer: &Result<String>, step: &Value) -> &'static str {
    let (shown, otherwise) = match answer {
        Ok(text) => (text.as_str(), "another_answer"),
        Err(fault) => (fault.kind.name(), fault.kind.name()),
    };
    for wanted in items(step).get(1..).unwrap_or(&[]) {
        if text_of(wanted) == shown {
            return "done";
        }
    }
    otherwise
}

/// The page over borrowed data, with its fault beside its text.
fn page_rendered<R: Print>(reporter: &Reporter<'_, R>, given: &Given<'_>) {
    let Value::Object(data) = given.data else {
        return;
    };
    let setting = RunSetting {
        depth: depth(&given.row.on),
        missing: missing(&given.row.on),
    };
    reporter.begin();
    let answer = render_page_by(
        reporter.alloc,
        given.template,
        given.partials,
        setting,
        data,
    );
    reporter.end();
    let end = match &answer {
        Ok(page) => shown_ending(given.row, page),
        Err(fault) => fault.kind.name(),
    };
    reporter.ended("render_page_by", given.row.source.as_str(), end);
}

/// `done` where the page has the text and the fault that the row says.
fn shown_ending(row: &WorkedRow, page: &Page) -> &'static str {
    if page.text.as_str() != page_of(row) {
        return "another_page";
    }
    kind_ending(row, page.kind())
}
