//! A writer that takes little, and fails; and how a page ended that was written to it.
use crate::given::{number_option, option};
use liquid_core::{ErrorKind, Result};
use liquid_lib::{Counted, CountedWrite};
use liquid_test_refusals::{WorkedRow, name_of, text_of};
use std::alloc::Global;
use std::io;
use std::io::Write;

/// Takes at most `most` bytes at each write, nothing once it holds `room` bytes, and fails once no
/// write is left.
#[derive(Drop)]
pub(crate) struct FailingWriter {
    pub(crate) bytes: Vec<u8>,
    pub(crate) most: usize,
    pub(crate) room: usize,
    pub(crate) writes_left: usize,
}

impl Write for FailingWriter {
    fn write(&mut self, buf: &[u8]) -> io::Result<usize> {
        if self.writes_left == 0 {
            return Err(io::Error::from(io::ErrorKind::BrokenPipe));
        }
        self.writes_left -= 1;
        let left = self.room.saturating_sub(self.bytes.len());
        let taken = buf.len().min(self.most).min(left);
        self.bytes.extend_from_slice(&buf[..taken])?;
        Ok(taken)
    }

    fn flush(&mut self) -> io::Result<()> {
        Ok(())
    }
}

/// The writer of the row, with room for its page, so that it asks for none.
pub(crate) fn writer(alloc: Global, row: &WorkedRow) -> Result<FailingWriter> {
    let most = number_option(&row.on, "most", 4096);
    let room = number_option(&row.on, "room", usize::MAX);
    let writes_left = number_option(&row.on, "writes", 4096);
    Ok(FailingWriter {
        bytes: Vec::with_capacity(alloc, page_of(row).len())?,
        most,
        room,
        writes_left,
    })
}

/// The page that the row says.
pub(crate) fn page_of(row: &WorkedRow) -> &str {
    text_of(&row.answer)
}

/// `done` where the page was written and ended by the kind, as the row says. After refused memory
/// what was written may be left.
pub(crate) fn page_ending(
    row: &WorkedRow,
    kind: Option<ErrorKind>,
    written: Counted<FailingWriter>,
) -> &'static str {
    let failures = written.failures();
    let bytes = written.into_inner().bytes;
    let page = page_of(row).as_bytes();
    match kind {
        Some(ErrorKind::Memory) if may_be_left(row, &bytes) => "Memory",
        Some(ErrorKind::Memory) => "another_beginning",
        _ if page != bytes.as_slice() => "another_page",
        _ if failures != failed_writes(kind) => "another_number_of_failed_writes",
        _ => kind_ending(row, kind),
    }
}

/// Whether a rendering that was refused memory may have written this: a beginning of the page, or
/// what the row says as `written`.
fn may_be_left(row: &WorkedRow, bytes: &[u8]) -> bool {
    match option(&row.on, "written") {
        Some(text) => text_of(text).as_bytes() == bytes,
        None => page_of(row).as_bytes().starts_with(bytes),
    }
}

/// How many writes fail where a page ends by the kind.
fn failed_writes(kind: Option<ErrorKind>) -> u64 {
    match kind {
        Some(ErrorKind::Write) => 1,
        _ => 0,
    }
}

/// `done` where the kind is the one of the row's fault, or there is none of both.
pub(crate) fn kind_ending(row: &WorkedRow, kind: Option<ErrorKind>) -> &'static str {
    if name_of(kind) == row.fault.as_str() {
        return "done";
    }
    match kind {
        Some(kind) => kind.name(),
        None => "no_fault",
    }
}
