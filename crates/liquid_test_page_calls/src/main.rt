//! Makes calls of languages, runtimes, pages and filters of a host as rows tell them, and those of
//! the examples of docs/use/rattle.md, and reports each that doesn't end as its row says.
//!
//! A row is a line of JSON on standard input: `call`, and of a page its `source`, its `data`, and
//! `on`, with `partials`, `tags` that are registered beside the standard ones, `paths` where
//! Jekyll's `include` takes a path without quotes, `blanks` where the white space of blocks that
//! write nothing is dropped, `host` (names that stand for filters of a host), `host tags` (each
//! with its filter, the variable that is its input if one is, and its style), `host blocks` (each
//! with its filter and its style), the `depth`, what a value that
//! is `missing` is (`nil`, or else a fault), the `writes` that its writer takes, of at most `most`
//! bytes each and `room` bytes in all, what is rendered `first` on the same runtime, and what is
//! rendered `then`; its page as `answer`, and the kind of its `fault`. Where a rendering of it is
//! refused memory, `written` is what it has written, and `refused` what is rendered in place of
//! `then`, each with all that it may show. A `rendering` is a page whose template is parsed before
//! its calls. A `limited page` also has the `bytes` and the `turns` of its limits, and the limit
//! that it is `ended_by`. The `source` of an `example` is its name.
//! `jekyll filters` are over a site of the `address` and the `base` path that `on` has. Where what
//! `on` has is to be `read back`, `with` is the number of lists around it. Of all other calls
//! `with` is a list of steps. With a word each call stands between marks, for
//! `tests/refusals/run`, and how it ended after them.
#![tactic(auto)]

mod decimals;
mod examples;
mod filters;
mod given;
mod hosts;
mod jekyll;
mod json;
mod limits;
mod pages;
mod registers;
mod runtimes;
mod shops;
mod writers;

use crate::decimals::decimals_called;
use crate::examples::example;
use crate::hosts::hosted;
use crate::jekyll::jekyll_called;
use crate::json::read_back;
use crate::limits::limited_made;
use crate::pages::{pages_made, rendering_made};
use crate::registers::{forloop, has_filter, registered};
use crate::runtimes::runtime_made;
use crate::shops::shop_made;
use liquid_core::{Object, Result, Value};
use liquid_test_refusals::{Reporter, WorkedRow, flag, read_row, text};
use std::alloc::Global;
use std::env;

fn main(rt: HostRuntime) -> Result<()> {
    let reporter = Reporter {
        rt: &rt,
        alloc: rt.alloc(),
        marked: env::args(&rt).is_ok_and(|words| words.count() > 1),
    };
    for line in rt.lines(rt.alloc()) {
        match line {
            Ok(line) => line_made(&reporter, line.as_str()),
            Err(_) => {
                let _ = println!(rt; "a line that can't be read");
            }
        }
    }
    Ok(())
}

/// Makes the calls that the line tells.
fn line_made<R: Print>(reporter: &Reporter<'_, R>, line: &str) {
    if let Err(fault) = row_read(reporter, line) {
        let _ = println!(reporter.rt; "no row, by {}: {line}", fault.kind.name());
    }
}

/// Reads the row of the line, and makes its calls.
fn row_read<R: Print>(reporter: &Reporter<'_, R>, line: &str) -> Result<()> {
    let (row, data) = read_row(reporter.alloc, line)?;
    row_made(reporter, line, &row, data)
}

/// Makes the calls of the row.
fn row_made<R: Print>(
    reporter: &Reporter<'_, R>,
    line: &str,
    row: &WorkedRow,
    data: Object,
) -> Result<()> {
    match row.call.as_str() {
        "page" => pages_made(reporter, row, data, None),
        "rendering" => rendering_made(reporter, row, data, None),
        "hosted page" | "filters" => hosted(reporter, row),
        "shopify filters" | "shopify page" => shop_made(reporter, row),
        "decimal filters" => decimals_called(reporter, row),
        "jekyll filters" => jekyll_called(reporter, row),
        "limited page" => limited_made(reporter, row, data),
        "runtime" => runtime_made(reporter, row, data),
        "registers" => registered(reporter, row),
        _ => {
            call_made(reporter, line, row);
            Ok(())
        }
    }
}

/// Makes the one call of the row.
fn call_made<R: Print>(reporter: &Reporter<'_, R>, line: &str, row: &WorkedRow) {
    reporter.begin();
    let answer = called(reporter.alloc, row);
    reporter.end();
    reporter.answered(line, row, &answer);
}

fn called(alloc: Global, row: &WorkedRow) -> Result<Value> {
    match row.call.as_str() {
        "example" => text(example(alloc, row.source.as_str())),
        "forloop" => forloop(alloc, row),
        "read back" => flag(read_back(alloc, row)),
        _ => flag(has_filter(alloc, row)),
    }
}
