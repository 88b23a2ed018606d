//! The tips that follow the faults of templates.
use crate::filters::language_with;
use crate::partial_tips::print_partial_tip;
use liquid_check::FaultTips;
use liquid_commands::{FilterSet, Inputs, Sources, Tip, print_tip, source_tip};
use liquid_core::{Error, Object, Quoted, Value};
use liquid_json::data_from_json;
use liquid_lib::parse_with_source;
use std::alloc::Global;
use std::fmt;

/// The tips of a run, of which one is printed.
#[derive(Drop)]
pub struct Tips {
    is_printed: bool,
}

impl Tips {
    /// No tip is printed yet.
    pub fn new() -> Tips {
        Tips { is_printed: false }
    }

    /// Prints the names of a table's columns, where no tip was printed before.
    pub fn print_columns(&mut self, rt: &HostRuntime, names: &[String]) {
        if !self.is_printed {
            self.is_printed = true;
            let columns = ShownColumns { names };
            let _ = eprintln!(rt; "  tip: the first row names the columns: {columns}");
        }
    }

    /// Prints that a record's list may have the records, where its one member is a list and no tip
    /// was printed before.
    pub fn print_list(&mut self, rt: &HostRuntime, text: &str) {
        if self.is_printed {
            return;
        }
        if let Ok(record) = data_from_json(rt.alloc(), text) {
            if let Some(name) = only_list(&record) {
                self.is_printed = true;
                let name = Quoted { text: name };
                let _ = eprintln!(rt;
                    "  tip: each item of `{name}` is a record where the list is alone in the file"
                );
            }
        }
    }

    /// Prints the partial that is likely meant, where no tip was printed before.
    pub fn print_partial(
        &mut self,
        rt: &HostRuntime,
        inputs: &Inputs<'_>,
        sources: &Sources,
        fault: &Error,
    ) {
        if !self.is_printed {
            self.is_printed = print_partial_tip(rt, inputs, sources, fault);
        }
    }

    /// Prints a tip, where there is one and none was printed before.
    pub fn print(&mut self, rt: &HostRuntime, tip: Option<Tip>) {
        if !self.is_printed {
            self.is_printed = tip.is_some();
            print_tip(rt, tip);
        }
    }
}

/// The name of the one member that a record has, where that is a list.
fn only_list(record: &Object) -> Option<&str> {
    if record.len() != 1 {
        return None;
    }
    for (name, value) in record {
        if let Value::Array(_) = value {
            return Some(name.as_str());
        }
    }
    None
}

/// How many columns of a table are named at most.
const MOST_COLUMNS: usize = 12;

/// The names of a table's first columns in one line.
#[derive(Drop)]
struct ShownColumns<'c> {
    names: &'c [String],
}

impl fmt::Display for ShownColumns<'_> {
    fn fmt<W: fmt::Write>(&self, f: &mut fmt::Formatter<W>) -> fmt::Result {
        for (place, name) in self.names.iter().take(MOST_COLUMNS).enumerate() {
            let name = Quoted {
                text: name.as_str(),
            };
            let sign = if place == 0 { "" } else { ", " };
            write!(f, "{sign}`{name}`")?;
        }
        if self.names.len() > MOST_COLUMNS {
            return f.write_str(", ..");
        }
        Ok(())
    }
}

/// The sets of filters as a way out of the faults that `check` finds.
#[derive(Drop)]
pub struct SetTips;

impl FaultTips for SetTips {
    fn tip_for(&self, alloc: Global, text: &str, fault: &Error) -> Option<Tip> {
        tip_for_source(alloc, text, fault)
    }
}

/// The tip for a fault of the source of a template: a set of filters, where its language reads the
/// source past the fault. None also where memory runs out.
pub fn tip_for_source(alloc: Global, text: &str, fault: &Error) -> Option<Tip> {
    // most kinds have no tip, so they need no other language
    source_tip(fault.kind, true, true, true)?;
    let jekyll_has = reads_past(alloc, FilterSet::Jekyll, text, fault);
    let shopify_has = reads_past(alloc, FilterSet::Shopify, text, fault);
    let decimals_have = reads_past(alloc, FilterSet::Decimals, text, fault);
    source_tip(fault.kind, jekyll_has, shopify_has, decimals_have)
}

/// Whether the language of a set reads a text past a fault.
fn reads_past(alloc: Global, set: FilterSet, text: &str, fault: &Error) -> bool {
    let Ok(language) = language_with(alloc, Some(set)) else {
        return false;
    };
    match parse_with_source(alloc, text, &language) {
        Ok(_) => true,
        Err(next) => is_past(&next, fault),
    }
}

/// Whether a fault stands after another one of the same text.
fn is_past(next: &Error, fault: &Error) -> bool {
    match (&next.location, &fault.location) {
        (Some(next), Some(first)) => (next.line, next.column) > (first.line, first.column),
        _ => false,
    }
}
