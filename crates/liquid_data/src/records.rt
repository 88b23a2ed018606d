//! The records of a reader, one after another.
ghost use Rattle.std.specs.Prelude.{◌≡◌, Err, IfOk, IfSome};
ghost use Rattle.liquid_model.specs.Answer.{IsValueOrMemory};
ghost use Rattle.liquid_data.specs.Counted.{record_number_after};
ghost use Rattle.liquid_data.specs.Found.{AreLinesOf, AreObjectsOf, AreRowsIn};
ghost use Rattle.liquid_data.specs.Found.{AreRowsOf, ReadsOn};
ghost use Rattle.liquid_data.specs.Readings.{are_lines, column_list, line_reading, line_text};
ghost use Rattle.liquid_data.specs.Readings.{reading_of, stray_in};
ghost use Rattle.liquid_data.specs.Readings.{reading_view, text_read};
ghost use Rattle.liquid_data.specs.Tables.{IfFaulted, IsHead, IsHeadIn};

use crate::csv_rows::{HeadStop, Rows};
use crate::form::TableForm;
use crate::lines::Lines;
use crate::list_objects::{ListFault, ListObjects};
use crate::record::RowFault;
use crate::{DataForm, data_in_form, in_form};
use liquid_model::{Error, ErrorKind, Object, Result};
use std::alloc::{AllocError, Global};
use std::io;
use std::io::Read;

/// The records that a reader gives, with the number of the one that was read last, from 1.
#[derive(Drop)]
pub struct Records<R> {
    source: Source<R>,
    number: u64,
}

/// How the records are written.
#[derive(Drop)]
enum Source<R> {
    Lines(Lines<R>),
    Rows(Rows<R>),
    Objects(ListObjects<R>),
}

/// The data of a record.
#[derive(Drop)]
pub enum RecordData<'r> {
    /// As a text of JSON.
    Text(&'r str),
    Data(Object),
}

/// Why a record has no data.
#[derive(Drop)]
pub enum RecordFault {
    /// Its line or its object isn't UTF-8.
    NotUtf8,
    /// Its row is no record.
    NoRow(RowFault),
    /// Its list has a fault there, and is read no further.
    NoItem(ListFault),
    /// Its data has a fault.
    NoData(Error),
}

/// The data of a record, or why it has none.
pub type RecordReading<'r> = std::result::Result<RecordData<'r>, RecordFault>;

impl<R: Read + Drop> Records<R> {
    /// The lines that a reader gives.
    pub fn lines(alloc: Global, reader: R) -> std::result::Result<Records<R>, AllocError>
        ensures number { IfOk result (λ records. records.number ≡ 0) }
        ensures all { IfOk result (λ records.
            AreLinesOf R.remaining reader records.source) }
    {
        Ok(Records::before(Source::Lines(Lines::new(alloc, reader)?)))
    }

    /// The rows that a reader gives, after their head, with commas between cells, each of which is
    /// a text.
    pub fn rows(alloc: Global, reader: R) -> std::result::Result<Records<R>, HeadStop>
        ensures number { IfOk result (λ records. records.number ≡ 0) }
        ensures all { IfOk result (λ records.
            AreRowsOf R.remaining reader records.source) }
        ensures faulted { IfFaulted result (λ fault. IfSome (R.remaining reader) (λ text.
            IsHead text (Err fault))) }
    {
        Records::table(alloc, reader, TableForm::plain())
    }

    /// The rows of a table in this form that a reader gives, after their head.
    pub fn table(
        alloc: Global,
        reader: R,
        form: TableForm,
    ) -> std::result::Result<Records<R>, HeadStop>
        ensures number { IfOk result (λ records. records.number ≡ 0) }
        ensures all { IfOk result (λ records.
            AreRowsIn form R.remaining reader records.source) }
        ensures faulted { IfFaulted result (λ fault. IfSome (R.remaining reader) (λ text.
            IsHeadIn form text (Err fault))) }
    {
        Ok(Records::before(Source::Rows(Rows::with_form(alloc, reader, form)?)))
    }

    /// The objects of a JSON list that a reader gives.
    pub fn list(alloc: Global, reader: R) -> std::result::Result<Records<R>, AllocError>
        ensures number { IfOk result (λ records. records.number ≡ 0) }
        ensures all { IfOk result (λ records.
            AreObjectsOf R.remaining reader records.source) }
    {
        Ok(Records::before(Source::Objects(ListObjects::new(alloc, reader)?)))
    }

    /// Before the first record.
    fn before(source: Source<R>) -> Records<R>
        ensures number { result.number ≡ 0 }
        ensures source { result.source ≡ source }
    {
        Records { source, number: 0 }
    }

    /// Reads the next record. Whether there is one. A line for which there is no room is one
    /// without data; a row or an object for which there is none is a failed read, since nothing
    /// says where it ends. A fault of a list is its last record, without data.
    pub fn advance(&mut self) -> io::Result<bool>
        ensures number { IfOk result (λ found. self.new.number ≡
            record_number_after found self.old.number) }
        ensures record { IfOk result (λ found. ReadsOn R.remaining found self.old.source
            self.new.source) }
    {
        let found = match &mut self.source {
            Source::Lines(lines) => lines.advance()?,
            Source::Rows(rows) => rows.advance()?,
            Source::Objects(objects) => objects.advance()?,
        };
        if found {
            self.number = self.number.saturating_add(1);
        }
        Ok(found)
    }

    /// The number of the record that was read last, from 1.
    pub fn number(&self) -> u64
        ensures { result ≡ self.now.number }
    {
        self.number
    }

    /// The names of the columns, where the records are rows; else none.
    pub fn columns(&self) -> &[String]
        ensures { result.now ≡ column_list self.now.source }
    {
        match &self.source {
            Source::Rows(rows) => rows.names(),
            Source::Lines(_) | Source::Objects(_) => &[],
        }
    }

    /// The line of the first text that stands after the closing quote of a cell, among the bytes
    /// that were read, where the records are rows; else none.
    pub fn stray(&self) -> Option<u64>
        ensures { result ≡ stray_in self.now.source }
    {
        match &self.source {
            Source::Rows(rows) => rows.stray(),
            Source::Lines(_) | Source::Objects(_) => None,
        }
    }

    /// Whether each record is a line of JSON.
    pub fn are_lines(&self) -> bool
        ensures { result ≡ are_lines self.now.source }
    {
        matches!(&self.source, Source::Lines(_))
    }

    /// Its text, where it is a line or an object of UTF-8; else the empty text.
    pub fn text(&self) -> &str
        ensures { result.now ≡ text_read self.now.source }
    {
        match &self.source {
            Source::Lines(lines) => line_text(lines.line()),
            Source::Rows(_) => "",
            Source::Objects(objects) => line_text(objects.object()),
        }
    }

    /// Its data, or why it has none. The answer is `Memory` where a growth was refused, also that
    /// of the line that it stands in, and no other kind.
    pub fn data(&self, alloc: Global, form: DataForm) -> Result<RecordReading<'_>>
        ensures { IsValueOrMemory reading_view result (reading_of form self.now.source) }
    {
        match &self.source {
            Source::Lines(lines) => {
                if lines.is_left_out() {
                    return Err(Error::from(AllocError));
                }
                data_of_line(alloc, lines.line(), form)
            }
            Source::Rows(rows) => match rows.data(alloc)? {
                Ok(data) => Ok(Ok(RecordData::Data(in_form(alloc, data, form)?))),
                Err(fault) => Ok(Err(RecordFault::NoRow(fault))),
            },
            Source::Objects(objects) => match objects.fault() {
                Some(fault) => Ok(Err(RecordFault::NoItem(fault))),
                None => data_of_line(alloc, objects.object(), form),
            },
        }
    }
}

/// The text of a line or of an object that is UTF-8; else the empty text.
fn line_text(line: &[u8]) -> &str
    ensures { result.now ≡ line_text line.now }
{
    match str::from_utf8(line) {
        Ok(text) => text,
        Err(_) => "",
    }
}

/// The data of a line or of an object. It stays a text where it is read as it stands.
fn data_of_line<'r>(alloc: Global, line: &'r [u8], form: DataForm) -> Result<RecordReading<'r>>
    ensures { IsValueOrMemory reading_view result (line_reading form line.now) }
{
    let Ok(text) = str::from_utf8(line) else {
        return Ok(Err(RecordFault::NotUtf8));
    };
    if !form.decimals_as_texts && !form.dates {
        return Ok(Ok(RecordData::Text(text)));
    }
    match data_in_form(alloc, text, form) {
        Ok(data) => Ok(Ok(RecordData::Data(data))),
        Err(fault) => match fault.kind {
            ErrorKind::Memory => Err(fault),
            _ => Ok(Err(RecordFault::NoData(fault))),
        },
    }
}
