//! What is printed after a page of what it shows silently.
use crate::filters::language_for;
use crate::page_templates::PageTemplates;
use crate::parts::{PageParts, UsedParts};
use liquid_check::written_for;
use liquid_commands::{RenderCall, Stop, Tip, print_tip};
use liquid_core::Result;
use liquid_files::ShownPath;
use liquid_warnings::{Remark, Warnings};
use std::alloc::{AllocError, Global};

/// The most warnings that are printed of a page.
const MOST_PRINTED: usize = 20;

/// The most bytes of templates that are looked at, and the most times that a node is looked for in
/// a byte of the data: together about a second.
const MOST_BYTES: usize = 4194304;

const MOST_LOOKS: usize = 2147483648;

/// Whether it takes long to look at these templates over so many bytes of data.
fn take_long(page: &PageTemplates<'_>, data: usize) -> bool {
    page.bytes > MOST_BYTES || page.nodes.saturating_mul(data) > MOST_LOOKS
}

/// What the page shows silently, in its templates and the data that it uses, a list for each file:
/// none with `-q`, or where to look for it would take more than about a second. It is looked for
/// before the page is rendered, which takes the data. The fault is `Memory`.
pub fn silent_warnings(
    alloc: Global,
    call: &RenderCall<'_>,
    read: &UsedParts<'_>,
) -> Result<Warnings> {
    if call.is_quiet {
        return Ok(Vec::new(alloc));
    }
    let page = templates_of(alloc, &read.parts)?;
    if take_long(&page, read.bytes) {
        return Ok(Vec::new(alloc));
    }
    let language = language_for(alloc, call.inputs.filters, call.inputs.escapes_html)?;
    let engine = written_for(call.inputs.filters);
    page.warnings_over(alloc, &read.parts.data, &language, engine, call.missing)
}

/// Prints what a page that was written shows silently: each a line on standard error, and how many
/// more there are. What standard error refuses is lost.
pub fn print_silent(
    rt: &HostRuntime,
    call: &RenderCall<'_>,
    parts: &PageParts,
    warnings: &Warnings,
) -> std::result::Result<(), Stop> {
    let page = templates_of(rt.alloc(), parts)?;
    print_all(rt, call, &page, warnings);
    Ok(())
}

/// The template and the partials that it leads to.
fn templates_of(
    alloc: Global,
    parts: &PageParts,
) -> std::result::Result<PageTemplates<'_>, AllocError> {
    PageTemplates::of(alloc, &parts.sources, &parts.template, &parts.partials)
}

/// Prints warnings, and how many more there are.
fn print_all(
    rt: &HostRuntime,
    call: &RenderCall<'_>,
    page: &PageTemplates<'_>,
    warnings: &Warnings,
) {
    let mut count: usize = 0;
    let mut has_dates = false;
    for (path, remarks) in page.paths.iter().zip(warnings) {
        for remark in remarks {
            has_dates |= remark.kind == "NoDate";
            count = count.saturating_add(1);
            print_within(rt, count, *path, remark);
        }
    }
    let more = count.saturating_sub(MOST_PRINTED);
    if more > 0 {
        let _ = eprintln!(rt; "warnings: {more} more");
    }
    if has_dates && !call.inputs.forms.dates {
        print_tip(rt, Some(Tip::Dates));
    }
}

/// Prints a warning that is this one in their order, unless it is past the last that is printed.
fn print_within(rt: &HostRuntime, count: usize, path: &str, remark: &Remark) {
    if count > MOST_PRINTED {
        return;
    }
    let path = ShownPath { path };
    let (kind, line, column) = (remark.kind, remark.line, remark.column);
    let message = remark.message.as_str();
    let _ = eprintln!(rt; "warning: {path}: {kind}: line {line}, column {column}: {message}");
}
