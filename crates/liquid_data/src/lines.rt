//! Records that are a line of JSON each.
ghost use Rattle.std.specs.Char.{is_ascii_whitespace};
ghost use Rattle.std.specs.List.{list_all, list_any};
ghost use Rattle.std.specs.Prelude.{◌≡◌, ◌==◌, IfOk, IfSome, OnOk, false, true};
ghost use Rattle.std.specs.Io.BufRead.{DropsThrough, take_through};
ghost use Rattle.std.specs.Io.KnownBytes.{IsAtEnd};
ghost use Rattle.liquid_data.specs.Lines.{FindsLine, HasBlankLinesAlone, lines_left};

use std::alloc::{AllocError, Global};
use std::io;
use std::io::{BufRead, BufReader, Read};

/// The records that a reader gives: a line each, but for blank ones.
#[derive(Drop)]
pub struct Lines<R> {
    reader: BufReader<R>,
    line: Vec<u8>,
    /// Whether there was no room for the line that was read last, which is left out then.
    is_left_out: bool,
}

impl<R: Read + Drop> Lines<R> {
    /// All lines are still to come.
    pub fn new(alloc: Global, reader: R) -> Result<Lines<R>, AllocError>
        ensures all { IfOk result (λ lines. lines_left R.remaining lines ≡ R.remaining reader) }
    {
        match BufReader::new(alloc, reader) {
            Ok(reader) => Ok(Lines {
                reader,
                line: Vec::new(alloc),
                is_left_out: false,
            }),
            Err(_) => Err(AllocError),
        }
    }

    /// Reads the next line that isn't blank. Whether there is one. A line for which there is no
    /// room counts as one, and is left out. More blank lines than 64 bits count are a failed read.
    pub fn advance(&mut self) -> io::Result<bool>
        ensures line { IfOk result (λ found. found ≡ true →
            FindsLine (lines_left R.remaining self.old) (lines_left R.remaining self.new)
            self.new.is_left_out self.new.line.items) }
        ensures end { IfOk result (λ found. found ≡ false →
            IfSome (lines_left R.remaining self.old) HasBlankLinesAlone) }
        ensures found { IfOk result (λ found. found ≡ true → self.new.is_left_out ≡ false →
            list_all is_ascii_whitespace self.new.line.items ≡ false) }
    {
        for _ in 0..u64::MAX {
            let count = self.read_line()?;
            if self.is_left_out {
                return Ok(true);
            }
            if count == 0 {
                return Ok(false);
            }
            if !is_blank(self.line.as_slice()) {
                return Ok(true);
            }
        }
        Err(io::Error::from(io::ErrorKind::FileTooLarge))
    }

    /// Reads the next line with its end, and answers how many bytes it has: none where the text
    /// ends. A line for which there is no room is left out. All that stands after the line is still
    /// to come.
    fn read_line(&mut self) -> io::Result<usize>
        ensures line { OnOk result (self.new.is_left_out ≡ false →
            IfSome (lines_left R.remaining self.old)
            (λ text. self.new.line.items ≡ take_through 10 text)) }
        ensures rest { OnOk result (DropsThrough (lines_left R.remaining self.old)
            (lines_left R.remaining self.new) 10) }
        ensures end { IfOk result (λ count. count ≡ 0 → self.new.is_left_out ≡ false →
            IsAtEnd (lines_left R.remaining self.old)) }
    {
        self.line.clear();
        self.is_left_out = false;
        match self.reader.read_until(b'\n', &mut self.line) {
            Ok(count) => Ok(count),
            Err(refused) => self.leave_out(refused),
        }
    }

    /// Leaves out a line whose beginning was read, where there was no room for more.
    fn leave_out(&mut self, refused: io::Error) -> io::Result<usize>
        ensures left_out { OnOk result (self.new.is_left_out ≡ true) }
        ensures no_end { OnOk result (list_any (λ b. b == 10) self.old.line.items ≡ false) }
        ensures rest { OnOk result (DropsThrough (lines_left R.remaining self.old)
            (lines_left R.remaining self.new) 10) }
    {
        let has_end = self.line.as_slice().contains(&b'\n');
        if refused.kind() != io::ErrorKind::OutOfMemory || has_end {
            return Err(refused);
        }
        self.is_left_out = true;
        self.line.clear();
        self.line.shrink_to_fit();
        self.reader.skip_until(b'\n')
    }

    /// Whether there was no room for the line that was read last.
    pub fn is_left_out(&self) -> bool
        ensures { result ≡ self.now.is_left_out }
    {
        self.is_left_out
    }

    /// The line that was read last.
    pub fn line(&self) -> &[u8]
        ensures { result.now ≡ self.now.line.items }
    {
        self.line.as_slice()
    }
}

/// Whether nothing but white space stands in a line.
fn is_blank(line: &[u8]) -> bool
    ensures { result ≡ list_all is_ascii_whitespace line.now }
{
    line.iter().all(|byte| byte.is_ascii_whitespace())
}
