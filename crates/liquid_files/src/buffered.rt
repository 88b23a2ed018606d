//! A writer after a buffer, as standard output of a program.
ghost use Rattle.std.specs.Prelude.{◌≡◌, ◌≤◌, [], length, take, drop, true, is_err, IfErr, IfOk};
ghost use Rattle.std.specs.Prelude.{OnOk, vec_len};
ghost use Rattle.std.specs.Io.{WritesAtMost};
ghost use Rattle.std.specs.Io.KnownBytes.{Keeps, Appends, WriteAppends};

use std::alloc::Global;
use std::io;
use std::io::Write;

/// How many bytes are held back at most.
const ROOM: usize = 65536;

/// Holds small writes back and passes them on in large pieces, in their order. Where the writer
/// fails or takes nothing, nothing is tried again: neither what was held back nor what comes after
/// it.
#[derive(Drop)]
pub struct Buffered<W> {
    writer: W,
    held: Vec<u8>,
    failed: bool,
}

impl<W: Write> Buffered<W> {
    ghost use Rattle.liquid_files.specs.Buffering.{buffered_contents};

    /// A buffer in front of the writer, or the writer where there is no memory for a buffer.
    pub fn new(alloc: Global, writer: W) -> Result<Buffered<W>, W>
        ensures held { IfOk result (λ b. Keeps (W.contents writer)
            (buffered_contents W.contents b)) }
        ensures back { IfErr result (λ w. w ≡ writer) }
    {
        match Vec::with_capacity(alloc, ROOM) {
            Ok(held) => Ok(Buffered {
                writer,
                held,
                failed: false,
            }),
            Err(_) => Err(writer),
        }
    }

    /// The writer. What is held back is let go.
    pub fn into_inner(self) -> W
        ensures { result ≡ self.writer }
    {
        let Buffered {
            writer,
            held: _,
            failed: _,
        } = self;
        writer
    }

    /// Passes on what is held back, once. After a failure it passes on nothing and fails again.
    pub fn flush_buffer(&mut self) -> io::Result<()>
        ensures bytes { Keeps (buffered_contents W.contents self.old)
            (buffered_contents W.contents self.new) }
        ensures empty { OnOk result (self.new.held.items ≡ []) }
        ensures failure_noted { self.new.failed ≡ is_err result }
        ensures stopped { self.old.failed ≡ true → self.new ≡ self.old }
    {
        if self.failed {
            return Err(io::Error::from(io::ErrorKind::BrokenPipe));
        }
        let (written, answer) = write_once(self.held.as_slice(), &mut self.writer);
        remove_front(&mut self.held, written);
        self.failed = answer.is_err();
        answer
    }

    /// `write` where the buffer has no room for the bytes, or a write failed. It is never inlined,
    /// so that the usual way through `write` stays short.
    #[inline(never)]
    fn write_cold(&mut self, bytes: &[u8]) -> io::Result<usize>
        ensures bound { WritesAtMost result bytes.now }
        ensures bytes { WriteAppends (buffered_contents W.contents self.old)
            (buffered_contents W.contents self.new)
            result bytes.now }
        ensures stopped { self.old.failed ≡ true → self.new ≡ self.old }
    {
        if bytes.len() > ROOM.saturating_sub(self.held.len()) {
            self.flush_buffer()?;
        }
        if self.failed {
            return Err(io::Error::from(io::ErrorKind::BrokenPipe));
        }
        if bytes.len() > ROOM {
            return self.write_past(bytes);
        }
        self.held.extend_from_slice(bytes)?;
        Ok(bytes.len())
    }

    /// Passes on what is longer than the buffer, which is empty.
    fn write_past(&mut self, bytes: &[u8]) -> io::Result<usize>
        requires { self.old.held.items ≡ [] }
        ensures bound { WritesAtMost result bytes.now }
        ensures bytes { WriteAppends (buffered_contents W.contents self.old)
            (buffered_contents W.contents self.new)
            result bytes.now }
    {
        let answer = self.writer.write(bytes);
        self.failed = !matches!(&answer, Ok(1..));
        answer
    }
}

impl<W: Write> Write for Buffered<W> {
    ghost use Rattle.liquid_files.specs.Buffering.{buffered_contents};

    ghost contents = { buffered_contents W.contents };

    fn write(&mut self, bytes: &[u8]) -> io::Result<usize>
        ensures bound { WritesAtMost result bytes.now }
        ensures bytes { WriteAppends (buffered_contents W.contents self.old)
            (buffered_contents W.contents self.new)
            result bytes.now }
        ensures stopped { self.old.failed ≡ true → self.new ≡ self.old }
    {
        if self.failed || bytes.len() > ROOM.saturating_sub(self.held.len()) {
            return self.write_cold(bytes);
        }
        self.held.extend_from_slice(bytes)?;
        Ok(bytes.len())
    }

    fn flush(&mut self) -> io::Result<()>
        ensures bytes { Keeps (buffered_contents W.contents self.old)
            (buffered_contents W.contents self.new) }
        ensures empty { OnOk result (self.new.held.items ≡ []) }
        ensures stopped { self.old.failed ≡ true → self.new ≡ self.old }
    {
        self.flush_buffer()?;
        self.writer.flush()
    }
}

/// Writes until all is written or a write fails or takes nothing: how many bytes were written, and
/// whether that is all.
fn write_once<W: Write>(bytes: &[u8], writer: &mut W) -> (usize, io::Result<()>)
    ensures bound { result.0 ≤ length bytes.now }
    ensures all { OnOk result.1 (result.0 ≡ length bytes.now) }
    ensures bytes { Appends (W.contents writer.old) (W.contents writer.new)
        (take result.0 bytes.now) }
{
    let mut written = 0;
    while written < bytes.len() {
        match writer.write(&bytes[written..]) {
            Ok(0) => return (written, Err(io::Error::from(io::ErrorKind::WriteZero))),
            Ok(n) => written += n,
            Err(refused) => return (written, Err(refused)),
        }
    }
    (written, Ok(()))
}

fn remove_front(held: &mut Vec<u8>, n: usize)
    requires { n ≤ vec_len held.old }
    ensures items { held.new.items ≡ drop n held.old.items }
{
    if n == held.len() {
        held.clear();
    } else {
        drop(held.drain(..n));
    }
}
