//! The record that a row is.
ghost use Rattle.std.specs.Prelude.{◌≡◌, Some, map, string_bytes};
ghost use Rattle.std.specs.Fmt.{WritesOnOk};
ghost use Rattle.csv.specs.Records.{fields_of};
ghost use Rattle.liquid_model.specs.Answer.{IsValueOrMemory};
ghost use Rattle.liquid_model.specs.Data.{put};
ghost use Rattle.liquid_model.specs.View.{pairs_view};
ghost use Rattle.liquid_data.specs.Cells.{cell_datum};
ghost use Rattle.liquid_data.specs.Rows.{byte_text, cells_text, quote_text, record_in};
ghost use Rattle.liquid_data.specs.Rows.{record_of, row_fault_text, row_view};

use crate::cells::{cell_read, cell_value};
use crate::form::CellForm;
use csv::ByteRecord;
use liquid_model::{Object, Result, store};
use std::alloc::Global;
use std::fmt;

/// Why a row is no record.
#[derive(Clone, Copy, Debug, Drop)]
pub enum RowFault {
    /// It doesn't have a cell for each column: the number of its cells, and that of the columns.
    Cells(usize, usize),
    /// The cell of this column isn't UTF-8 from this byte of it on; both count from 1.
    NotUtf8(usize, usize),
    /// The quote that opens in this line is never closed: its cell has the rest of the table.
    Unclosed(u64),
}

/// What follows the number of the record.
impl fmt::Display for RowFault {
    ghost output = { λ fault. Some (row_fault_text fault) };

    fn fmt<W: fmt::Write>(&self, f: &mut fmt::Formatter<W>) -> fmt::Result {
        match self {
            RowFault::NotUtf8(column, byte) => write_byte(f, *column, *byte),
            RowFault::Cells(found, wanted) => write_cells(f, *found, *wanted),
            RowFault::Unclosed(line) => write_line(f, *line),
        }
    }
}

fn write_byte<W: fmt::Write>(f: &mut fmt::Formatter<W>, column: usize, byte: usize) -> fmt::Result
    ensures { WritesOnOk W.write_str_gives f.old result (byte_text column byte) f.new }
{
    write!(
        f,
        "the cell of column {column} isn't UTF-8 from its byte {byte} on; save the table as UTF-8"
    )
}

fn write_line<W: fmt::Write>(f: &mut fmt::Formatter<W>, line: u64) -> fmt::Result
    ensures { WritesOnOk W.write_str_gives f.old result (quote_text line) f.new }
{
    write!(f, "the quote that opens in line {line} is never closed")
}

fn write_cells<W: fmt::Write>(f: &mut fmt::Formatter<W>, found: usize, wanted: usize) -> fmt::Result
    ensures { WritesOnOk W.write_str_gives f.old result (cells_text found wanted) f.new }
{
    if found == 1 {
        return write!(f, "it has 1 cell, and the first row names {wanted} columns");
    }
    if wanted == 1 {
        return write!(f, "it has {found} cells, and the first row names 1 column");
    }
    write!(
        f,
        "it has {found} cells, and the first row names {wanted} columns"
    )
}

/// The data of a row: each cell is a text under the name of its column. Else why the row is no
/// record: it has too many or too few cells, or one that isn't UTF-8.
///
/// The answer is `Memory` where a growth was refused, and no other kind.
pub fn record_of(
    alloc: Global,
    names: &[String],
    row: &ByteRecord,
) -> Result<std::result::Result<Object, RowFault>>
    ensures { IsValueOrMemory row_view result
        (record_of (map string_bytes names.now) (fields_of row.now)) }
{
    record_in_form(alloc, names, row, CellForm::Texts)
}

/// The data of a row: the value of each cell, by the form, under the name of its column. Else why
/// the row is no record: it has too many or too few cells, or one that isn't UTF-8.
///
/// The answer is `Memory` where a growth was refused, and no other kind.
pub fn record_in_form(
    alloc: Global,
    names: &[String],
    row: &ByteRecord,
    form: CellForm,
) -> Result<std::result::Result<Object, RowFault>>
    ensures { IsValueOrMemory row_view result
        (record_in form (map string_bytes names.now) (fields_of row.now)) }
{
    if row.len() != names.len() {
        return Ok(Err(RowFault::Cells(row.len(), names.len())));
    }
    let mut data = Object::new(alloc);
    let mut column: usize = 1;
    let mut cells = row.iter();
    for name in names {
        let Some(cell) = cells.next() else {
            return Ok(Ok(data));
        };
        match cell_read(cell) {
            Ok(text) => put_cell(alloc, &mut data, name.as_str(), text, form)?,
            Err(byte) => return Ok(Err(RowFault::NotUtf8(column, byte))),
        }
        column = column.saturating_add(1);
    }
    Ok(Ok(data))
}

/// Puts the value of a cell at a name.
fn put_cell(alloc: Global, data: &mut Object, name: &str, cell: &str, form: CellForm) -> Result<()>
    ensures { IsValueOrMemory (λ _. pairs_view «data».new.entries) result
        (put name.now (cell_datum form cell.now) (pairs_view «data».old.entries)) }
{
    let name = String::from_str(alloc, name)?;
    store(data, name, cell_value(alloc, cell, form)?)
}
