//! Limits on a run: how many bytes it may write and hold, and how many turns it may take.
ghost use Rattle.std.specs.Prelude.{◌≡◌, ◌||◌, length, nat_eq, IsErr, None, true, false};
ghost use Rattle.std.specs.Io.{WritesAtMost};
ghost use Rattle.std.specs.Io.KnownBytes.{WriteAppends};
ghost use Rattle.liquid_engine.specs.Failures.{failures_after, OneFailed};
ghost use Rattle.liquid_engine.specs.Limits.{is_limited_by, is_within_limit, Takes, TakesBytes};
ghost use Rattle.liquid_engine.specs.Limits.{TakesTurns, unlimited, WriteTakes};
ghost use Rattle.liquid_engine.specs.declared.limits.LimitReached.TheVariants.{Bytes, Turns};

use crate::counted::CountedWrite;
use std::io;

/// What a run may take at most. `None` is no limit, and by default there is none.
#[derive(Clone, Copy, Debug, Default)]
pub struct Limits {
    /// How many bytes it may write and hold: those of each text that it writes, to its writer, its
    /// page or the body of a `capture`, an `ifchanged` or a block of the host, of each answer of a
    /// filter, of each value that `assign` stores or a pair of a partial passes, and of each list
    /// beyond the data that a loop goes over. A list or a map takes the bytes of its parts, and 32
    /// more for each item or pair. So what a filter answers takes its bytes again where it is
    /// written or assigned, and so does a captured text that is written.
    pub bytes: Option<u64>,
    /// How many turns it may take. Each node takes one when it runs, and one more for each filter,
    /// each comparison of a condition, each value of a `when` and each pair of a partial that is
    /// written in it. A list without nodes takes one.
    pub turns: Option<u64>,
}

/// The limit that ended a run, which is one of those that its caller set.
#[derive(Clone, Copy, Debug)]
pub enum LimitReached {
    /// A text or a value took more than the bytes that were left. Nothing of that text was written,
    /// and the value wasn't stored.
    Bytes,
    /// The turns that were left were fewer than a node takes. It didn't run.
    Turns,
}

/// A writer within limits. Within both it is that writer.
#[derive(Drop)]
pub struct Limited<W> {
    writer: W,
    left: Limits,
    refusals: u64,
    // It means nothing until something is refused.
    last: LimitReached,
    // A limit that refused something is one that there is.
    ghost is_given: { (nat_eq refusals 0 || is_limited_by last left) ≡ true },
}

impl<W: CountedWrite> Limited<W> {
    ghost use Rattle.liquid_engine.specs.LimitedParts.{limited_inner, limited_left, refusals};
    ghost use Rattle.liquid_engine.specs.LimitedParts.{reached, Refuses};

    /// The writer, within these limits.
    pub fn new(writer: W, limits: Limits) -> Self
        ensures writer { limited_inner result ≡ writer }
        ensures left { limited_left result ≡ limits }
        ensures none { refusals result ≡ 0 }
    {
        Limited {
            writer,
            left: limits,
            refusals: 0,
            last: LimitReached::Bytes,
        }
    }

    /// How many bytes and turns are left.
    pub fn left(&self) -> Limits
        ensures { result ≡ limited_left self.now }
    {
        self.left
    }

    /// The limit that ended a run over this writer: the one that refused something last. Where it
    /// is `None`, no limit refused anything, so that a write which failed is the writer's own.
    pub fn ended_by(&self) -> Option<LimitReached>
        ensures { result ≡ reached self.now }
    {
        if self.refusals == 0 {
            return None;
        }
        Some(self.last)
    }

    /// The writer itself.
    pub fn into_inner(self) -> W
        ensures { result ≡ limited_inner self }
    {
        let Limited {
            writer,
            left: _,
            refusals: _,
            last: _,
        } = self;
        writer
    }

    /// Counts a refusal by this limit.
    fn refuse(&mut self, limit: LimitReached)
        requires { is_limited_by limit (limited_left self.old) ≡ true }
        ensures { Refuses limit self.old self.new }
    {
        self.last = limit;
        self.refusals = self.refusals.saturating_add(1);
    }
}

impl<W: CountedWrite> CountedWrite for Limited<W> {
    ghost use Rattle.liquid_engine.specs.LimitedParts.{failures_of, limited_inner, limited_left};
    ghost use Rattle.liquid_engine.specs.LimitedParts.{refusals, Refuses};

    ghost contents = { λ c. W.contents (limited_inner c) };

    ghost failure_count = { λ c. failures_of W.failure_count c };

    ghost left = { λ c. limited_left c };

    // A text that doesn't fit is refused whole, so that neither a text nor a character is cut.
    fn write(&mut self, bytes: &[u8]) -> io::Result<usize>
        ensures bound { WritesAtMost result bytes.now }
        ensures bytes { WriteAppends (W.contents (limited_inner self.old))
            (W.contents (limited_inner self.new)) result bytes.now }
        ensures counted { failures_of W.failure_count self.new
            ≡ failures_after result bytes.now (failures_of W.failure_count self.old) }
        ensures takes { WriteTakes result (limited_left self.old) (limited_left self.new) }
        // what is longer than the bytes left is refused, and all else is up to the writer
        ensures refused { is_within_limit (length bytes.now) (limited_left self.old).bytes ≡ false →
            IsErr result }
        ensures reached { is_within_limit (length bytes.now) (limited_left self.old).bytes ≡ false →
            Refuses Bytes self.old self.new }
        ensures passed { is_within_limit (length bytes.now) (limited_left self.old).bytes ≡ true →
            refusals self.new ≡ refusals self.old }
    {
        if !is_left(self.left.bytes, bytes.len() as u64) {
            self.refuse(LimitReached::Bytes);
            return Err(io::Error::from(io::ErrorKind::QuotaExceeded));
        }
        match self.writer.write(bytes) {
            Ok(count) => {
                self.left.bytes = less(self.left.bytes, count as u64);
                Ok(count)
            }
            Err(fault) => Err(fault),
        }
    }

    fn failures(&self) -> u64 {
        self.writer.failures().saturating_add(self.refusals)
    }

    fn counts_turns(&self) -> bool
        ensures free { result ≡ false → (limited_left self.now).turns ≡ None }
    {
        match self.left.turns {
            Some(_) => true,
            None => self.writer.counts_turns(),
        }
    }

    fn counts_bytes(&self) -> bool
        ensures free { result ≡ false → (limited_left self.now).bytes ≡ None }
    {
        self.left.bytes.is_some() || self.writer.counts_bytes()
    }

    // by its own limit: what the writer grants is asked for as it is taken
    fn has_room(&self, bytes: usize) -> bool
        ensures full { result ≡ false →
            is_within_limit bytes (limited_left self.now).bytes ≡ false }
    {
        is_left(self.left.bytes, bytes as u64)
    }

    fn turns(&mut self, count: u64) -> bool
        ensures same { W.contents (limited_inner self.new) ≡ W.contents (limited_inner self.old) }
        ensures goes_on { result ≡ true → failures_of W.failure_count self.new
            ≡ failures_of W.failure_count self.old }
        ensures takes { result ≡ true →
            TakesTurns count (limited_left self.old) (limited_left self.new) }
        ensures refused { result ≡ false → OneFailed (failures_of W.failure_count self.old)
            (failures_of W.failure_count self.new) }
        ensures kept { result ≡ false → limited_left self.new ≡ limited_left self.old }
        // where fewer are left they are refused, and else they are the writer's to grant
        ensures spent { is_within_limit count (limited_left self.old).turns ≡ false →
            result ≡ false }
        ensures reached { is_within_limit count (limited_left self.old).turns ≡ false →
            Refuses Turns self.old self.new }
        ensures passed { is_within_limit count (limited_left self.old).turns ≡ true →
            refusals self.new ≡ refusals self.old }
    {
        if !is_left(self.left.turns, count) {
            self.refuse(LimitReached::Turns);
            return false;
        }
        if !self.writer.turns(count) {
            return false;
        }
        self.left.turns = less(self.left.turns, count);
        true
    }

    fn room(&mut self, bytes: usize) -> bool
        ensures same { W.contents (limited_inner self.new) ≡ W.contents (limited_inner self.old) }
        ensures goes_on { result ≡ true → failures_of W.failure_count self.new
            ≡ failures_of W.failure_count self.old }
        ensures takes { result ≡ true →
            TakesBytes bytes (limited_left self.old) (limited_left self.new) }
        ensures refused { result ≡ false → OneFailed (failures_of W.failure_count self.old)
            (failures_of W.failure_count self.new) }
        ensures kept { result ≡ false → limited_left self.new ≡ limited_left self.old }
        // as of a write
        ensures full { is_within_limit bytes (limited_left self.old).bytes ≡ false → result ≡
            false }
        ensures reached { is_within_limit bytes (limited_left self.old).bytes ≡ false →
            Refuses Bytes self.old self.new }
        ensures passed { is_within_limit bytes (limited_left self.old).bytes ≡ true →
            refusals self.new ≡ refusals self.old }
    {
        if !is_left(self.left.bytes, bytes as u64) {
            self.refuse(LimitReached::Bytes);
            return false;
        }
        if !self.writer.room(bytes) {
            return false;
        }
        self.left.bytes = less(self.left.bytes, bytes as u64);
        true
    }
}

/// Whether there is no limit.
pub(crate) fn are_none(limits: Limits) -> bool
    ensures all { limits ≡ unlimited → result ≡ true }
    ensures only { result ≡ true → limits ≡ unlimited }
{
    limits.bytes.is_none() && limits.turns.is_none()
}

/// Whether at least `count` are left. Without a limit that is always so.
fn is_left(left: Option<u64>, count: u64) -> bool
    ensures { result ≡ is_within_limit count left }
{
    match left {
        Some(left) => count <= left,
        None => true,
    }
}

/// What is left after taking `count`. Where there is no limit, there still is none.
fn less(left: Option<u64>, count: u64) -> Option<u64>
    ensures { is_within_limit count left ≡ true → Takes count left result }
{
    match left {
        Some(left) => Some(left.saturating_sub(count)),
        None => None,
    }
}
