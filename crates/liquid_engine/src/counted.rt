//! Writers that count their failures.
ghost use Rattle.std.specs.Prelude.{◌≡◌, ℕ, List, Option, None, true, false};
ghost use Rattle.std.specs.Io.{WritesAtMost};
ghost use Rattle.std.specs.Io.KnownBytes.{WriteAppends};
ghost use Rattle.liquid_engine.specs.Failures.{failures_after, OneFailed};
ghost use Rattle.liquid_engine.specs.Limits.{TakesBytes, TakesTurns, WriteTakes, is_within_limit};
ghost use Rattle.liquid_engine.specs.Limits.{unlimited};
ghost use Rattle.liquid_engine.specs.declared.limits.Limits.{Limits};

use std::io;
use std::io::Write;

/// The one way in which a run writes, and what it asks before it goes on.
///
/// A refusal, of a turn or of room, is a failed write of no bytes.
pub trait CountedWrite {
    // The bytes that the writer holds, where it knows them.
    ghost contents: { Self → Option (List ℕ) };

    // How many writes failed.
    ghost failure_count: { Self → ℕ };

    // How many bytes and turns the writer still grants, where it has limits.
    ghost left: { Self → Limits } = { λ _. unlimited };

    /// Writes a beginning of the bytes and answers how many it took, as `Write::write` does.
    ///
    /// A write that fails, or takes nothing of bytes that aren't empty, raises the count of
    /// failures by one, until it stands at its greatest value.
    fn write(&mut self, bytes: &[u8]) -> io::Result<usize>
        ensures bound { WritesAtMost result bytes.now }
        ensures bytes { WriteAppends (contents self.old) (contents self.new) result bytes.now }
        ensures counted { failure_count self.new
            ≡ failures_after result bytes.now (failure_count self.old) }
        ensures takes { WriteTakes result (left self.old) (left self.new) };

    /// The count of failures.
    fn failures(&self) -> u64
        ensures { result ≡ failure_count self.now };

    /// Whether a run has to ask for its turns. Where it needn't, there is no limit on them, and a
    /// run may ask for fewer than it takes.
    fn counts_turns(&self) -> bool
        ensures free { result ≡ false → (left self.now).turns ≡ None };

    /// Whether a run has to ask for the bytes of the values that it makes. Where it needn't, there
    /// is no limit on bytes.
    fn counts_bytes(&self) -> bool
        ensures free { result ≡ false → (left self.now).bytes ≡ None };

    /// Whether this many bytes are left, of which none is taken. Where they aren't, `room` refuses
    /// them.
    fn has_room(&self, bytes: usize) -> bool
        ensures full { result ≡ false →
            is_within_limit bytes (left self.now).bytes ≡ false };

    /// Whether a run may go on for this many turns, which it asks before each node: one for the
    /// node, and one for each filter, comparison, value of a `when` and pair of a partial that is
    /// written in it. A list without nodes asks for one.
    fn turns(&mut self, count: u64) -> bool
        ensures same { contents self.new ≡ contents self.old }
        ensures goes_on { result ≡ true → failure_count self.new ≡ failure_count self.old }
        ensures takes { result ≡ true → TakesTurns count (left self.old) (left self.new) }
        ensures refused { result ≡ false →
            OneFailed (failure_count self.old) (failure_count self.new) }
        ensures kept { result ≡ false → left self.new ≡ left self.old };

    /// Whether a run may hold this many bytes more: of a text that goes into a buffer, as the body
    /// of a `capture` or an `ifchanged`, of a filter's answer, of a value that `assign` stores or a
    /// pair passes, or of a list that a loop copies.
    fn room(&mut self, bytes: usize) -> bool
        ensures same { contents self.new ≡ contents self.old }
        ensures goes_on { result ≡ true → failure_count self.new ≡ failure_count self.old }
        ensures takes { result ≡ true → TakesBytes bytes (left self.old) (left self.new) }
        ensures refused { result ≡ false →
            OneFailed (failure_count self.old) (failure_count self.new) }
        ensures kept { result ≡ false → left self.new ≡ left self.old };
}

/// Any writer, with a count of its failures. Its bytes are that writer's.
#[derive(Drop)]
pub struct Counted<W> {
    writer: W,
    failures: u64,
}

impl<W: Write> Counted<W> {
    ghost use Rattle.liquid_engine.specs.CountedParts.{inner, failures_so_far};

    /// The writer, with no failure counted yet.
    pub fn new(writer: W) -> Self
        ensures writer { inner result ≡ writer }
        ensures none { failures_so_far result ≡ 0 }
    {
        Counted {
            writer,
            failures: 0,
        }
    }

    /// The writer itself.
    pub fn into_inner(self) -> W
        ensures { result ≡ inner self }
    {
        let Counted {
            writer,
            failures: _,
        } = self;
        writer
    }
}

impl<W: Write> CountedWrite for Counted<W> {
    ghost use Rattle.liquid_engine.specs.CountedParts.{inner, failures_so_far};

    ghost contents = { λ c. W.contents (inner c) };

    ghost failure_count = { λ c. failures_so_far c };

    fn write(&mut self, bytes: &[u8]) -> io::Result<usize> {
        let answer = self.writer.write(bytes);
        let failed = match &answer {
            Ok(0) => !bytes.is_empty(),
            Ok(_) => false,
            Err(_) => true,
        };
        if failed && self.failures < u64::MAX {
            self.failures += 1;
        }
        answer
    }

    fn failures(&self) -> u64 {
        self.failures
    }

    fn counts_turns(&self) -> bool {
        false
    }

    fn counts_bytes(&self) -> bool {
        false
    }

    fn has_room(&self, _: usize) -> bool
        ensures granted { result ≡ true }
    {
        true
    }

    fn turns(&mut self, _: u64) -> bool
        // it grants each, so that nothing ends a run but a write that fails, and want of memory
        ensures granted { result ≡ true }
        ensures same { self.new ≡ self.old }
    {
        // it sets no limit on turns
        true
    }

    fn room(&mut self, _: usize) -> bool
        ensures granted { result ≡ true }
        ensures same { self.new ≡ self.old }
    {
        // it sets no limit on bytes
        true
    }
}

/// The writer of a run into a buffer alone, which writes nothing to it.
#[derive(Clone, Copy, Debug)]
pub struct NoWriter;

impl CountedWrite for NoWriter {
    ghost contents = { λ _. None };

    ghost failure_count = { λ _. 0 };

    fn write(&mut self, bytes: &[u8]) -> io::Result<usize> {
        Ok(bytes.len())
    }

    fn failures(&self) -> u64 {
        0
    }

    fn counts_turns(&self) -> bool {
        false
    }

    fn counts_bytes(&self) -> bool {
        false
    }

    fn has_room(&self, _: usize) -> bool
        ensures granted { result ≡ true }
    {
        true
    }

    fn turns(&mut self, _: u64) -> bool
        // it grants each, so that nothing ends a run but a write that fails, and want of memory
        ensures granted { result ≡ true }
        ensures same { self.new ≡ self.old }
    {
        true
    }

    fn room(&mut self, _: usize) -> bool
        ensures granted { result ≡ true }
        ensures same { self.new ≡ self.old }
    {
        true
    }
}
