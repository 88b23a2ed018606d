//! Records in CSV: a head with the names of the columns, and a record in each row after it.
ghost use Rattle.std.specs.Prelude.{◌≡◌, Ok, Err, IfOk, IfSome, OnOk, false, map, string_bytes};
ghost use Rattle.csv.specs.Reading.{ReadRecord, has_failed, reader_source};
ghost use Rattle.csv.specs.Records.{fields_of};
ghost use Rattle.liquid_model.specs.Answer.{IsValueOrMemory};
ghost use Rattle.liquid_data.specs.TableForms.{plain_form};
ghost use Rattle.liquid_data.specs.Quotes.{bytes_left, unclosed};
ghost use Rattle.liquid_data.specs.Rows.{row_record, row_view};
ghost use Rattle.liquid_data.specs.Tables.{AreInForm, IfFaulted, IsHead, IsHeadIn};
ghost use Rattle.liquid_data.specs.Tables.{ReadsRows, reader_of, stray_line};
ghost use Rattle.liquid_data.specs.declared.csv_rows.HeadStop.TheVariants.{Memory};

use crate::form::{CellForm, TableForm};
use crate::head::{HeadFault, column_names};
use crate::quotes::QuoteReader;
use crate::record::{RowFault, record_in_form};
use csv::{ByteRecord, ErrorKind, Reader, ReaderBuilder};
use liquid_model::{Object, Result};
use std::alloc::{AllocError, Global};
use std::io;
use std::io::Read;

/// The records of a file in CSV.
#[derive(Drop)]
pub struct Rows<R> {
    reader: Reader<QuoteReader<R>>,
    names: Vec<String>,
    row: ByteRecord,
    cells: CellForm,
    /// The line of a quote that is never closed, which ends the row that was read last.
    unclosed: Option<u64>,
}

/// Why a file has no records.
#[derive(Drop)]
pub enum HeadStop {
    /// The file can't be read.
    Unreadable(io::ErrorKind),
    /// Its first row names no columns.
    Faulted(HeadFault),
    /// The quote that opens in this line is never closed, and its cell is of the first row.
    Unclosed(u64),
    /// Memory ran out.
    Memory,
}

impl From<AllocError> for HeadStop {
    ghost from_gives = { λ _ stop. stop ≡ Memory };

    fn from(_refused: AllocError) -> HeadStop {
        HeadStop::Memory
    }
}

impl<R: Read + Drop> Rows<R> {
    /// The rows of a table with commas between its cells, each of which is a text: the head is
    /// read, and all rows are still to come.
    pub fn new(alloc: Global, reader: R) -> std::result::Result<Rows<R>, HeadStop>
        ensures plain { IfOk result (λ rows. ReadsRows (reader_of rows)) }
        ensures goes { IfOk result (λ rows. has_failed (reader_of rows) ≡ false) }
        ensures form { IfOk result (λ rows. AreInForm plain_form rows) }
        ensures head { IfOk result (λ rows. IfSome (R.remaining reader) (λ text.
            IsHead text (Ok (map string_bytes rows.names.items)))) }
        ensures faulted { IfFaulted result (λ fault. IfSome (R.remaining reader) (λ text.
            IsHead text (Err fault))) }
    {
        Rows::with_form(alloc, reader, TableForm::plain())
    }

    /// The rows of a table in this form: the head is read, and all rows are still to come.
    pub fn with_form(
        alloc: Global,
        reader: R,
        form: TableForm,
    ) -> std::result::Result<Rows<R>, HeadStop>
        ensures plain { IfOk result (λ rows. ReadsRows (reader_of rows)) }
        ensures goes { IfOk result (λ rows. has_failed (reader_of rows) ≡ false) }
        ensures form { IfOk result (λ rows. AreInForm form rows) }
        ensures head { IfOk result (λ rows. IfSome (R.remaining reader) (λ text.
            IsHeadIn form text (Ok (map string_bytes rows.names.items)))) }
        ensures faulted { IfFaulted result (λ fault. IfSome (R.remaining reader) (λ text.
            IsHeadIn form text (Err fault))) }
    {
        let mut rows = Rows {
            reader: ReaderBuilder::new()
                .has_headers(false)
                .flexible(true)
                .delimiter(form.delimiter)
                .from_reader(alloc, QuoteReader::new(reader, form.delimiter)),
            names: Vec::new(alloc),
            row: ByteRecord::new(alloc),
            cells: form.cells,
            unclosed: None,
        };
        if let Err(refused) = rows.advance() {
            return Err(HeadStop::Unreadable(refused.kind()));
        }
        if let Some(line) = rows.unclosed {
            return Err(HeadStop::Unclosed(line));
        }
        match column_names(alloc, &rows.row, form.names)? {
            Ok(names) => rows.names = names,
            Err(fault) => return Err(HeadStop::Faulted(fault)),
        }
        Ok(rows)
    }

    /// Reads the next row. Whether there is one: no read that fails is taken for the end. A quote
    /// that is never closed makes all that follows it the last cell of its row.
    pub fn advance(&mut self) -> io::Result<bool>
        ensures row { IfOk result (λ found. ReadsRows (reader_of self.old) →
            ReadRecord (bytes_left R.remaining) (reader_of self.old) (reader_of self.new) found
            (fields_of self.new.row)) }
        ensures unclosed { OnOk result
            (self.new.unclosed ≡ unclosed (reader_source (reader_of self.new))) }
        ensures plain { OnOk result
            (ReadsRows (reader_of self.old) → ReadsRows (reader_of self.new)) }
        ensures goes { OnOk result
            (has_failed (reader_of self.new) ≡ has_failed (reader_of self.old)) }
        ensures names { self.new.names ≡ self.old.names }
        ensures cells { self.new.cells ≡ self.old.cells }
    {
        match self.reader.read_byte_record(&mut self.row) {
            Ok(found) => {
                self.unclosed = self.reader.get_ref().unclosed();
                Ok(found)
            }
            Err(refused) => match refused.into_kind() {
                ErrorKind::Io(refused) => Err(refused),
                ErrorKind::OutOfMemory => Err(io::Error::from(io::ErrorKind::OutOfMemory)),
                _ => Err(io::Error::from(io::ErrorKind::InvalidData)),
            },
        }
    }

    /// The names of the columns.
    pub fn names(&self) -> &[String]
        ensures { result.now ≡ self.now.names.items }
    {
        self.names.as_slice()
    }

    /// The line of the first text that stands after the closing quote of a cell, among the bytes
    /// that were read: such a cell has it too, and the quotes in it.
    pub fn stray(&self) -> Option<u64>
        ensures { result ≡ stray_line self.now }
    {
        self.reader.get_ref().stray()
    }

    /// The data of the row that was read last, or why it is no record.
    pub fn data(&self, alloc: Global) -> Result<std::result::Result<Object, RowFault>>
        ensures { IsValueOrMemory row_view result
            (row_record self.now.unclosed self.now.cells (map string_bytes self.now.names.items)
            (fields_of self.now.row)) }
    {
        if let Some(line) = self.unclosed {
            return Ok(Err(RowFault::Unclosed(line)));
        }
        record_in_form(alloc, self.names.as_slice(), &self.row, self.cells)
    }
}
