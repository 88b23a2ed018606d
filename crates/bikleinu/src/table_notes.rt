//! What is likely wrong with a table, reported after its merge.
use crate::filters::setting_uses;
use crate::records::shown;
use liquid_commands::{MergeCall, Stop};
use liquid_core::{Object, Quoted, Uses, Value, more_likely};
use liquid_data::RecordData;
use std::alloc::Global;

/// How many names are reported at most.
const MOST_NAMES: usize = 12;

/// The rows of a table whose pages came out, and those of them that are empty.
#[derive(Drop)]
pub struct MadeRows {
    count: u64,
    empty: u64,
    first_empty: u64,
}

impl MadeRows {
    /// No page came out yet.
    pub fn new() -> MadeRows {
        MadeRows {
            count: 0,
            empty: 0,
            first_empty: 0,
        }
    }

    /// Counts a row whose page came out.
    pub fn add(&mut self, number: u64, is_empty: bool) {
        self.count = self.count.saturating_add(1);
        if !is_empty {
            return;
        }
        if self.empty == 0 {
            self.first_empty = number;
        }
        self.empty = self.empty.saturating_add(1);
    }

    /// Reports that some are empty.
    fn print_empty(&self, rt: &HostRuntime) {
        let first = self.first_empty;
        let _ = match self.empty {
            0 => return,
            1 => eprintln!(rt; "warning: record {first}: all of its cells are empty"),
            count => {
                let more = count.saturating_sub(1);
                eprintln!(rt; "warning: record {first}, and {more} more: all cells are empty")
            }
        };
    }
}

/// Whether a row has nothing but empty cells.
pub fn has_empty_cells(data: &RecordData<'_>) -> bool {
    let RecordData::Data(members) = data else {
        return false;
    };
    for (_, value) in members {
        match value {
            Value::Nil => {}
            Value::Text(text) if text.is_empty() => {}
            _ => return false,
        }
    }
    true
}

/// A merge of a table that is done.
#[derive(Clone, Copy)]
pub struct MergedTable<'t> {
    /// The names of its columns.
    pub columns: &'t [String],
    /// How many rows follow the first.
    pub rows: u64,
    pub made: &'t MadeRows,
    /// The line of the first text after the closing quote of a cell.
    pub stray: Option<u64>,
    /// What the template, the pattern and the filters use of data, where it is known.
    pub uses: Option<&'t Uses>,
    /// The data that records share.
    pub shared: &'t Object,
}

/// Reports a table without a row after its first, rows that are empty, and the names that are those
/// of no column.
pub fn print_notes(
    rt: &HostRuntime,
    call: &MergeCall<'_>,
    table: MergedTable<'_>,
) -> Result<(), Stop> {
    if table.rows == 0 {
        let path = shown(call);
        let _ = eprintln!(rt; "note: {path}: no row follows the first, which names the columns");
        return Ok(());
    }
    table.made.print_empty(rt);
    if let Some(line) = table.stray {
        let path = shown(call);
        let _ = eprintln!(rt;
            "warning: {path}: line {line} has text after a closing quote; a quote in quotes is \"\""
        );
    }
    match table.uses {
        Some(uses) if table.made.count > 0 => print_unknown(rt, call, table, uses),
        _ => Ok(()),
    }
}

/// Reports the first names that are used and nobody gives a value. One that is like that of a
/// column is reported where it stands.
fn print_unknown(
    rt: &HostRuntime,
    call: &MergeCall<'_>,
    table: MergedTable<'_>,
    uses: &Uses,
) -> Result<(), Stop> {
    let settings = setting_uses(rt.alloc(), call.inputs.filters)?;
    let mut count: usize = 0;
    for (name, _) in uses {
        let name = name.as_str();
        let is_given = table.shared.contains_key(name) || settings.contains_key(name);
        if is_given || is_like_column(rt.alloc(), table.columns, name)? {
            continue;
        }
        let name = Quoted { text: name };
        let _ = eprintln!(rt;
            "warning: no column is named `{name}`, and no other data: it is nil in each page"
        );
        count = count.saturating_add(1);
        if count == MOST_NAMES {
            break;
        }
    }
    Ok(())
}

/// Whether a name is that of a column, or is likely meant to be.
fn is_like_column(alloc: Global, columns: &[String], name: &str) -> Result<bool, Stop> {
    let mut likely = None;
    for column in columns {
        if column.as_str() == name {
            return Ok(true);
        }
        likely = more_likely(alloc, column.as_str(), name, likely)?;
    }
    Ok(likely.is_some())
}
