//! The byte that parts the cells of a table, as its first row has it.
ghost use Rattle.std.specs.Prelude.{◌≡◌, IfOk};
ghost use Rattle.liquid_data.specs.Guesses.{first_cells, guessed_delimiter, parts_better};

use csv::{ByteRecord, ErrorKind, ReaderBuilder};
use std::alloc::Global;
use std::io;

/// The byte between the cells of a table that begins so: of a comma, a semicolon, a tab and a `|`
/// the first that parts its first row into the most cells. An `Err` only where memory runs out.
pub fn guessed_delimiter(alloc: Global, front: &[u8]) -> io::Result<u8>
    ensures { IfOk result (λ delimiter. delimiter ≡ guessed_delimiter front.now) }
{
    let found = parts_better(alloc, front, b',', b';')?;
    let found = parts_better(alloc, front, found, b'\t')?;
    parts_better(alloc, front, found, b'|')
}

/// The first of two bytes, unless the second parts the first row into more cells.
fn parts_better(alloc: Global, front: &[u8], first: u8, second: u8) -> io::Result<u8>
    ensures { IfOk result (λ better. better ≡ parts_better front.now first second) }
{
    if first_cells(alloc, front, first)? < first_cells(alloc, front, second)? {
        Ok(second)
    } else {
        Ok(first)
    }
}

/// How many cells the first row of a text has with this byte between them; none where there is no
/// row.
fn first_cells(alloc: Global, front: &[u8], delimiter: u8) -> io::Result<usize>
    ensures { IfOk result (λ count. count ≡ first_cells delimiter front.now) }
{
    let mut reader = ReaderBuilder::new()
        .has_headers(false)
        .flexible(true)
        .delimiter(delimiter)
        .from_reader(alloc, front);
    let mut row = ByteRecord::new(alloc);
    match reader.read_byte_record(&mut row) {
        Ok(true) => Ok(row.len()),
        Ok(false) => Ok(0),
        Err(refused) => match refused.into_kind() {
            ErrorKind::Io(refused) => Err(refused),
            _ => Err(io::Error::from(io::ErrorKind::OutOfMemory)),
        },
    }
}
