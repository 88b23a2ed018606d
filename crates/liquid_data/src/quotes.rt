//! Whether a quote is open in the text of a table.
ghost use Rattle.std.specs.Prelude.{◌≡◌, IfOk, take};
ghost use Rattle.std.specs.Io.{ReadsAtMost};
ghost use Rattle.std.specs.Io.KnownBytes.{ReadConsumes};
ghost use Rattle.liquid_data.specs.Quotes as spec;

use std::io;
use std::io::Read;

/// Where the next byte of a table stands.
#[derive(Clone, Copy, Debug, Drop)]
pub(crate) enum CellPlace {
    /// At the front of the text, where a mark of UTF-8 may stand.
    Start,
    /// After the first byte of the mark.
    MarkOne,
    /// After its second byte.
    MarkTwo,
    /// Where a cell begins.
    Front,
    /// In a cell without quotes, or after its closing quote.
    Bare,
    /// In a cell whose quote opened in this line.
    Quoted(u64),
    /// After a quote in it, which closes it unless another one follows.
    AfterQuote(u64),
}

/// Where the next byte of a table stands, and its line, from 1.
#[derive(Clone, Copy, Debug, Drop)]
pub(crate) struct Quotes {
    place: CellPlace,
    line: u64,
    /// The line of the first text that stands after a closing quote.
    stray: Option<u64>,
}

impl Quotes {
    /// Before the first byte.
    pub fn start() -> Quotes
        ensures { result ≡ spec.table_start }
    {
        Quotes {
            place: CellPlace::Start,
            line: 1,
            stray: None,
        }
    }

    /// After some more bytes of a table with this byte between its cells.
    pub fn after_all(self, delimiter: u8, bytes: &[u8]) -> Quotes
        ensures { result ≡ spec.after_all delimiter self bytes.now }
    {
        let mut quotes = self;
        for byte in bytes {
            quotes = quotes.after(delimiter, *byte);
        }
        quotes
    }

    fn after(self, delimiter: u8, byte: u8) -> Quotes
        ensures { result ≡ spec.quotes_after delimiter self byte }
    {
        Quotes {
            place: self.place_after(delimiter, byte),
            line: self.line_after(byte),
            stray: self.stray_after(delimiter, byte),
        }
    }

    fn stray_after(self, delimiter: u8, byte: u8) -> Option<u64>
        ensures { result ≡ spec.stray_after delimiter self byte }
    {
        match self.stray {
            Some(line) => Some(line),
            None => if is_stray(delimiter, self.place, byte) {
                Some(self.line)
            } else {
                None
            },
        }
    }

    fn line_after(self, byte: u8) -> u64
        ensures { result ≡ spec.line_after self.line byte }
    {
        if byte == b'\n' {
            self.line.saturating_add(1)
        } else {
            self.line
        }
    }

    fn place_after(self, delimiter: u8, byte: u8) -> CellPlace
        ensures { result ≡ spec.cell_place_after delimiter self.line self.place byte }
    {
        match (self.place, byte) {
            (CellPlace::Start, 0xEF) => CellPlace::MarkOne,
            (CellPlace::MarkOne, 0xBB) => CellPlace::MarkTwo,
            (CellPlace::MarkTwo, 0xBF) => CellPlace::Front,
            (CellPlace::Start | CellPlace::Front, b'"') => CellPlace::Quoted(self.line),
            (CellPlace::Quoted(line), b'"') => CellPlace::AfterQuote(line),
            (CellPlace::AfterQuote(line), b'"') => CellPlace::Quoted(line),
            (CellPlace::Quoted(line), _) => CellPlace::Quoted(line),
            _ => past(delimiter, byte),
        }
    }

    /// The line in which the quote opened that is open.
    pub fn open(self) -> Option<u64>
        ensures { result ≡ spec.open_quote self }
    {
        match self.place {
            CellPlace::Quoted(line) => Some(line),
            _ => None,
        }
    }
}

/// Whether a byte is text after the quote that closes its cell.
fn is_stray(delimiter: u8, place: CellPlace, byte: u8) -> bool
    ensures { result ≡ spec.is_stray delimiter place byte }
{
    match place {
        CellPlace::AfterQuote(_) => {
            byte != b'"' && byte != delimiter && byte != b'\n' && byte != b'\r'
        }
        _ => false,
    }
}

/// Where the next byte stands after one outside of quotes.
fn past(delimiter: u8, byte: u8) -> CellPlace
    ensures { result ≡ spec.after_plain delimiter byte }
{
    if byte == delimiter || byte == b'\n' || byte == b'\r' {
        CellPlace::Front
    } else {
        CellPlace::Bare
    }
}

/// The bytes of a table, and whether a quote is open after those that were read.
#[derive(Drop)]
pub(crate) struct QuoteReader<R> {
    reader: R,
    delimiter: u8,
    quotes: Quotes,
    /// Whether the last read found the end of the text.
    is_over: bool,
}

impl<R: Read> QuoteReader<R> {
    /// All bytes are still to come.
    pub fn new(reader: R, delimiter: u8) -> QuoteReader<R>
        ensures { result ≡ spec.before_table reader delimiter }
    {
        QuoteReader {
            reader,
            delimiter,
            quotes: Quotes::start(),
            is_over: false,
        }
    }

    /// The line of the first text after a closing quote, among the bytes that were read.
    pub fn stray(&self) -> Option<u64>
        ensures { result ≡ self.now.quotes.stray }
    {
        self.quotes.stray
    }

    /// The line of the quote that is open where the text ended.
    pub fn unclosed(&self) -> Option<u64>
        ensures { result ≡ spec.unclosed self.now }
    {
        if self.is_over {
            self.quotes.open()
        } else {
            None
        }
    }
}

impl<R: Read> Read for QuoteReader<R> {
    ghost remaining = { spec.bytes_left R.remaining };

    fn read(&mut self, buf: &mut [u8]) -> io::Result<usize>
        ensures bound { ReadsAtMost result buf.new }
        ensures bytes { ReadConsumes (spec.bytes_left R.remaining self.old)
            (spec.bytes_left R.remaining self.new) result buf.new }
        ensures quotes { IfOk result (λ count. self.new.quotes
            ≡ spec.after_all self.old.delimiter self.old.quotes (take count buf.new)) }
        ensures over { IfOk result (λ count. self.new.is_over ≡ spec.is_end count buf.new) }
        ensures delimiter { self.new.delimiter ≡ self.old.delimiter }
    {
        let count = self.reader.read(buf)?;
        self.is_over = count == 0 && !buf.is_empty();
        self.quotes = self.quotes.after_all(self.delimiter, &buf[..count]);
        Ok(count)
    }
}
