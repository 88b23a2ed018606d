//! What the pages of a merge show silently.
ghost use Rattle.std.specs.Prelude.{◌≡◌, ◌++◌, ◌∷◌, [], OnErr, OnOk, IfOk, length};
ghost use Rattle.bikleinu.specs.Watches.{is_new_mark, is_printed_mark, is_same_mark, kept_marks};
ghost use Rattle.bikleinu.specs.Watches.{left_after, look_cost, looks_on, pays};

use crate::filters::language_for;
use crate::page_templates::PageTemplates;
use liquid_check::written_for;
use liquid_commands::{MergeCall, Sources, Tip, print_tip};
use liquid_core::{ErrorKind, HostFilters, Object, Result};
use liquid_data::RecordData;
use liquid_files::ShownPath;
use liquid_json::data_from_json;
use liquid_lib::Language;
use liquid_records::Job;
use liquid_warnings::{Remark, Warnings};
use std::alloc::{AllocError, Global};

/// The most warnings that are printed of a merge.
const MOST_PRINTED: usize = 20;

/// To look at so many bytes of templates and data takes about a second.
const MOST_BYTES: usize = 4194304;

/// To look for a node in so many bytes of data takes about as long as to look at one byte.
const BYTES_FOR_A_NODE: usize = 512;

/// A record that is looked at.
#[derive(Drop)]
pub struct Seen<'d> {
    pub number: u64,
    pub data: RecordData<'d>,
}

/// Where a warning stands, and of which kind it is: its file by its number among the templates.
#[derive(Clone, Copy, Drop)]
struct Mark {
    file: usize,
    line: usize,
    column: usize,
    kind: &'static str,
}

/// A warning that no earlier record has, as it is printed.
#[derive(Drop)]
pub struct NewWarning {
    mark: Mark,
    text: String,
}

/// Looks at the records of a merge, as far as that takes about a second, and prints each place and
/// kind once, with the first record that has it.
#[derive(Drop)]
pub struct Watch<'r> {
    rt: &'r HostRuntime,
    call: &'r MergeCall<'r>,
    /// The language of the templates.
    language: Language,
    /// How many bytes the data that records share has.
    shared: usize,
    /// How many more bytes are looked at.
    left: usize,
    marks: Vec<Mark>,
}

impl<'r> Watch<'r> {
    /// Nothing is looked at yet. The data that records share has so many bytes.
    pub fn new(rt: &'r HostRuntime, call: &'r MergeCall<'r>, shared: usize) -> Result<Watch<'r>>
        ensures left { IfOk result (λ w. w.left ≡ 4194304) }
        ensures marks { IfOk result (λ w. w.marks.items ≡ []) }
    {
        Ok(Watch {
            rt,
            call,
            language: language_for(rt.alloc(), call.inputs.filters, call.inputs.escapes_html)?,
            shared,
            left: MOST_BYTES,
            marks: Vec::with_capacity(rt.alloc(), MOST_PRINTED)?,
        })
    }

    /// Whether it looks at more records: not with `-q`.
    pub fn goes_on(&self) -> bool
        ensures { result ≡ looks_on self.now.call.now.is_quiet self.now.left
            (length self.now.marks.items) }
    {
        !self.call.is_quiet && self.left > 0 && self.marks.len() < MOST_PRINTED
    }

    /// What the page of a record will show silently that none of an earlier one did; none where it
    /// has no data. Where no more records are looked at, that is reported. The fault is `Memory`.
    pub fn look<'p>(
        &mut self,
        sources: &'p Sources,
        job: &'p Job<HostFilters>,
        record: Seen<'_>,
    ) -> Result<Vec<NewWarning>> {
        let alloc = self.rt.alloc();
        let page = PageTemplates::of(alloc, sources, &job.template, &job.partials)?;
        let Seen { number, data } = record;
        let data_bytes = self.shared.saturating_add(text_len(&data));
        if !self.pays(cost(page.bytes, page.nodes, data_bytes)) {
            let _ = eprintln!(self.rt; "note: no warnings are looked for from record {number} on");
            return Ok(Vec::new(alloc));
        }
        let Some(members) = members_of(alloc, data)? else {
            return Ok(Vec::new(alloc));
        };
        let data = data_over(alloc, &job.shared, members)?;
        let engine = written_for(self.call.inputs.filters);
        let missing = self.call.missing;
        let warnings = page.warnings_over(alloc, &data, &self.language, engine, missing)?;
        Ok(self.new_in(&page.paths, &warnings)?)
    }

    /// Pays for a record, and whether it can be paid for. The first that can't is the last one.
    fn pays(&mut self, cost: usize) -> bool
        ensures paid { result ≡ pays self.old.left cost }
        ensures left { self.new.left ≡ left_after self.old.left cost }
        ensures marks { self.new.marks ≡ self.old.marks }
    {
        let is_paid = cost <= self.left;
        self.left = self.left.saturating_sub(cost);
        is_paid
    }

    /// Those of a record's warnings that no earlier one has.
    fn new_in(
        &self,
        paths: &[&str],
        warnings: &Warnings,
    ) -> std::result::Result<Vec<NewWarning>, AllocError> {
        let mut found = Vec::new(self.rt.alloc());
        for (file, (path, remarks)) in paths.iter().zip(warnings).enumerate() {
            self.add_new(file, *path, remarks, &mut found)?;
        }
        Ok(found)
    }

    /// Adds those of a file's warnings.
    fn add_new(
        &self,
        file: usize,
        path: &str,
        remarks: &[Remark],
        found: &mut Vec<NewWarning>,
    ) -> std::result::Result<(), AllocError> {
        for remark in remarks {
            let mark = mark_of(file, remark);
            if !has_mark(&self.marks, mark) {
                let text = warning_text(self.rt.alloc(), path, remark)?;
                found.push(NewWarning { mark, text })?;
            }
        }
        Ok(())
    }

    /// Prints what the page of a record that came out shows silently, each place and kind once.
    /// What standard error refuses is lost.
    pub fn print(
        &mut self,
        number: u64,
        found: Vec<NewWarning>,
    ) -> std::result::Result<(), AllocError> {
        for warning in found {
            let NewWarning { mark, text } = warning;
            let is_first_date = mark.kind == "NoDate" && !self.has_dates();
            if self.keeps(mark)? {
                let _ = eprintln!(self.rt; "warning: record {number}: {text}");
                self.print_after(is_first_date);
            }
        }
        Ok(())
    }

    fn has_dates(&self) -> bool {
        self.marks.iter().any(|mark| mark.kind == "NoDate")
    }

    /// Prints the tip for a date, and whether no more is looked for.
    fn print_after(&self, is_first_date: bool) {
        if is_first_date && !self.call.inputs.forms.dates {
            print_tip(self.rt, Some(Tip::Dates));
        }
        if self.marks.len() >= MOST_PRINTED {
            let _ = eprintln!(self.rt;
                "note: after {MOST_PRINTED} warnings no more are looked for"
            );
        }
    }

    /// Keeps a warning's place, unless it is there or there are as many as are printed. Whether it
    /// is kept, so that the warning is printed.
    fn keeps(&mut self, mark: Mark) -> std::result::Result<bool, AllocError>
        ensures kept { IfOk result (λ b. b ≡ is_new_mark self.old.marks.items mark) }
        ensures marks { OnOk result
            (self.new.marks.items ≡ kept_marks self.old.marks.items mark) }
        ensures same { OnErr result (self.new.marks.items ≡ self.old.marks.items) }
        ensures left { self.new.left ≡ self.old.left }
    {
        if self.marks.len() >= MOST_PRINTED || has_mark(&self.marks, mark) {
            return Ok(false);
        }
        self.marks.push(mark)?;
        Ok(true)
    }
}

fn mark_of(file: usize, remark: &Remark) -> Mark {
    Mark {
        file,
        line: remark.line,
        column: remark.column,
        kind: remark.kind,
    }
}

/// Whether two warnings are of one place and kind.
fn is_same(one: Mark, other: Mark) -> bool
    ensures { result ≡ is_same_mark one other }
{
    one.file == other.file
        && one.line == other.line
        && one.column == other.column
        && one.kind == other.kind
}

/// Whether a warning of that place and kind is among these.
fn has_mark(marks: &[Mark], mark: Mark) -> bool
    ensures { result ≡ is_printed_mark marks.now mark }
{
    for other in marks {
        if is_same(mark, *other) {
            return true;
        }
    }
    false
}

/// How many bytes it is worth to look at templates of so many bytes and nodes over data of so many.
fn cost(templates: usize, nodes: usize, data: usize) -> usize
    ensures { result ≡ look_cost templates nodes «data» }
{
    let looks = nodes.saturating_mul(data) / BYTES_FOR_A_NODE;
    templates.saturating_add(data).saturating_add(looks)
}

/// How many bytes of text a record is.
fn text_len(data: &RecordData<'_>) -> usize {
    match data {
        RecordData::Text(text) => text.len(),
        RecordData::Data(_) => 0,
    }
}

/// The members of a record, where its text is data.
fn members_of(alloc: Global, data: RecordData<'_>) -> Result<Option<Object>> {
    let text = match data {
        RecordData::Data(members) => return Ok(Some(members)),
        RecordData::Text(text) => text,
    };
    match data_from_json(alloc, text) {
        Ok(members) => Ok(Some(members)),
        Err(fault) => match fault.kind {
            ErrorKind::Memory => Err(fault),
            _ => Ok(None),
        },
    }
}

/// The members of a record, over the data that records share.
fn data_over(alloc: Global, shared: &Object, members: Object) -> Result<Object> {
    let mut all = members;
    for (name, value) in shared {
        if !all.contains_key(name.as_str()) {
            let name = String::from_str(alloc, name.as_str())?;
            drop(all.insert(name, value.copy(alloc)?)?);
        }
    }
    Ok(all)
}

/// What follows the number of the record.
fn warning_text(
    alloc: Global,
    path: &str,
    remark: &Remark,
) -> std::result::Result<String, AllocError> {
    let path = ShownPath { path };
    let (kind, line, column) = (remark.kind, remark.line, remark.column);
    let message = remark.message.as_str();
    format!(in alloc; "{path}: {kind}: line {line}, column {column}: {message}")
}
