//! The caller's writer, and the buffers that are open over it.
ghost use Rattle.std.specs.Prelude.{◌≡◌, ◌≤◌, [], length, Some, None, IsSome, OnOk, OnErr, false};
ghost use Rattle.std.specs.Option.{option_map};
ghost use Rattle.std.specs.String.{string_bytes};
ghost use Rattle.liquid_engine.specs.Failures.{OneFailed};
ghost use Rattle.liquid_engine.specs.Performs.{Cut, WritesText};
ghost use Rattle.liquid_engine.specs.Limits.{TakesBytes, TakesTurns, is_within_limit};
ghost use Rattle.liquid_engine.specs.inside.Puts.{Puts};
ghost use Rattle.liquid_engine.specs.inside.Reserves.{limited_in, reserve_in};
ghost use Rattle.liquid_engine.specs.Sinks.{sink_of};
ghost use Rattle.liquid_engine.specs.declared.output.Put.TheVariants.{All};
ghost use Rattle.liquid_model.specs.ErrorKinds.{IsKindOrMemory};
ghost use Rattle.liquid_model.specs.ValueSizes.{counted_size, value_size};
ghost use Rattle.liquid_model.specs.View.{view};
ghost use Rattle.liquid_model.specs.declared.error.ErrorKind.TheVariants.{Write};

use crate::counted::CountedWrite;
use crate::write_all::write_all;
use liquid_core::{Error, ErrorKind, Result, Value, value_size};
use std::alloc::{AllocError, Global};
use std::mem;

/// Where a run writes: the innermost open buffer, or the caller's writer where none is open.
/// The outer buffers wait with the calls that opened the inner ones.
#[derive(Drop)]
pub struct Output<'w, W> {
    pub writer: &'w mut W,
    pub buffer: Option<String>,
}

/// The turns that the writer granted, in which one node runs. Only [Output::turns] makes them.
#[derive(Drop)]
pub struct Turns {
    granted: (),
}

/// How a text was added: all of it, or a beginning, since the buffer can't grow, or the writer
/// failed or refused it.
#[derive(Clone, Copy, Drop)]
enum Put {
    All,
    NoMemory,
    NotWritten,
}

impl<'w, W: CountedWrite> Output<'w, W> {
    /// Adds a text: `Memory` where the buffer can't grow, `Write` where the writer fails. Then a
    /// beginning of it was added.
    pub fn push_text(&mut self, alloc: Global, text: &str) -> Result<()>
        // of a writer with a limit it takes what it adds
        ensures takes { OnOk result (TakesBytes (length text.now)
            (W.left self.old.writer.now) (W.left self.new.writer.now)) }
        ensures writes { WritesText result text.now
            (sink_of W.contents W.failure_count self.old)
            (sink_of W.contents W.failure_count self.new) }
        ensures same_writer { self.new.writer.ghost_name ≡ self.old.writer.ghost_name }
        ensures bounded { reserve_in W.left self.new ≤ reserve_in W.left self.old }
        ensures limited { limited_in W.left self.new ≡ limited_in W.left self.old }
    {
        match self.put(text) {
            Put::All => Ok(()),
            Put::NoMemory => Err(Error::from(AllocError)),
            Put::NotWritten => Err(not_written(alloc)),
        }
    }

    /// `push_text`, with an answer that takes little room.
    #[inline(never)]
    fn put(&mut self, text: &str) -> Put
        ensures puts { Puts result text.now
            (sink_of W.contents W.failure_count self.old)
            (sink_of W.contents W.failure_count self.new) }
        // of a writer with a limit it takes what it adds, in a buffer too
        ensures takes { result ≡ All → TakesBytes (length text.now)
            (W.left self.old.writer.now) (W.left self.new.writer.now) }
        ensures same_writer { self.new.writer.ghost_name ≡ self.old.writer.ghost_name }
        ensures bounded { reserve_in W.left self.new ≤ reserve_in W.left self.old }
        ensures limited { limited_in W.left self.new ≡ limited_in W.left self.old }
    {
        match &mut self.buffer {
            Some(buffer) => {
                if !self.writer.room(text.len()) {
                    return Put::NotWritten;
                }
                match buffer.push_str(text) {
                    Ok(()) => Put::All,
                    Err(_) => Put::NoMemory,
                }
            }
            None => match write_all(self.writer, text.as_bytes()) {
                Ok(()) => Put::All,
                Err(_) => Put::NotWritten,
            },
        }
    }

    /// Whether the writer has to be asked for turns. Else there is no limit on them.
    pub fn counts_turns(&self) -> bool
        ensures { result ≡ false → (W.left self.now.writer.now).turns ≡ None }
    {
        self.writer.counts_turns()
    }

    /// Whether the writer has to be asked for the bytes of values. Else there is no limit on them.
    pub fn counts_bytes(&self) -> bool
        ensures { result ≡ false → (W.left self.now.writer.now).bytes ≡ None }
    {
        self.writer.counts_bytes()
    }

    /// Whether the writer has room for this many bytes. It takes none of it.
    pub fn has_room(&self, bytes: usize) -> bool
        ensures { result ≡ false →
            is_within_limit bytes (W.left self.now.writer.now).bytes ≡ false }
    {
        self.writer.has_room(bytes)
    }

    /// Needs room for this many bytes, of which it takes none: `Write` where the writer has less.
    pub fn need_room(&mut self, alloc: Global, bytes: usize) -> Result<()>
        ensures goes_on { OnOk result (sink_of W.contents W.failure_count self.new ≡
            sink_of W.contents W.failure_count self.old) }
        ensures kept { OnOk result (W.left self.new.writer.now ≡ W.left self.old.writer.now) }
        ensures refused { OnErr result (Cut result []
            (sink_of W.contents W.failure_count self.old)
            (sink_of W.contents W.failure_count self.new)) }
        ensures same_writer { self.new.writer.ghost_name ≡ self.old.writer.ghost_name }
        ensures bounded { reserve_in W.left self.new ≤ reserve_in W.left self.old }
        ensures limited { limited_in W.left self.new ≡ limited_in W.left self.old }
    {
        // where they aren't left, they are refused, and so nothing is taken here
        if self.has_room(bytes) || self.writer.room(bytes) {
            return Ok(());
        }
        Err(refused_value(alloc))
    }

    /// Takes the bytes of a value of the writer's limit: `Write` where it refuses them. Where
    /// nothing limits them, they aren't counted.
    pub fn take_value(&mut self, alloc: Global, value: &Value) -> Result<()>
        ensures goes_on { OnOk result (sink_of W.contents W.failure_count self.new ≡
            sink_of W.contents W.failure_count self.old) }
        ensures takes { OnOk result (TakesBytes (counted_size (value_size (view value.now)))
            (W.left self.old.writer.now) (W.left self.new.writer.now)) }
        ensures refused { OnErr result (Cut result []
            (sink_of W.contents W.failure_count self.old)
            (sink_of W.contents W.failure_count self.new)) }
        ensures stopped { OnErr result (OneFailed
            (sink_of W.contents W.failure_count self.old).failures
            (sink_of W.contents W.failure_count self.new).failures) }
        ensures same_writer { self.new.writer.ghost_name ≡ self.old.writer.ghost_name }
        ensures bounded { reserve_in W.left self.new ≤ reserve_in W.left self.old }
        ensures limited { limited_in W.left self.new ≡ limited_in W.left self.old }
    {
        if !self.counts_bytes() {
            return Ok(());
        }
        if self.writer.room(value_size(value)) {
            return Ok(());
        }
        Err(refused_value(alloc))
    }

    /// Asks the writer whether the run may go on for this many turns: `Write` where it refuses.
    pub fn turns(&mut self, alloc: Global, count: u64) -> Result<Turns>
        ensures goes_on { OnOk result (sink_of W.contents W.failure_count self.new ≡
            sink_of W.contents W.failure_count self.old) }
        // of a writer with a limit it takes them of the turns that are left
        ensures takes { OnOk result
            (TakesTurns count (W.left self.old.writer.now) (W.left self.new.writer.now)) }
        ensures refused { OnErr result (Cut result []
            (sink_of W.contents W.failure_count self.old)
            (sink_of W.contents W.failure_count self.new)) }
        ensures stopped { OnErr result (OneFailed
            (sink_of W.contents W.failure_count self.old).failures
            (sink_of W.contents W.failure_count self.new).failures) }
        ensures same_writer { self.new.writer.ghost_name ≡ self.old.writer.ghost_name }
        ensures bounded { reserve_in W.left self.new ≤ reserve_in W.left self.old }
        ensures limited { limited_in W.left self.new ≡ limited_in W.left self.old }
    {
        if self.writer.turns(count) {
            return Ok(Turns { granted: () });
        }
        Err(refused_turns(alloc))
    }

    /// Opens a buffer, and gives the one that was innermost, for `close`. It takes no memory.
    pub fn open(&mut self, alloc: Global) -> Option<String>
        ensures outer { result ≡ self.old.buffer }
        ensures empty { option_map string_bytes self.new.buffer ≡ Some [] }
        ensures writer { self.new.writer ≡ self.old.writer }
    {
        mem::replace(&mut self.buffer, Some(String::new(alloc)))
    }

    /// Closes the innermost buffer, gives its text, and puts back the one that `open` gave. It
    /// takes no memory.
    pub fn close(&mut self, outer: Option<String>) -> String
        requires { IsSome self.old.buffer }
        ensures text { self.old.buffer ≡ Some result }
        ensures outer { self.new.buffer ≡ outer }
        ensures writer { self.new.writer ≡ self.old.writer }
    {
        mem::replace(&mut self.buffer, outer).unwrap()
    }
}

/// The fault of a writer that failed.
#[inline(never)]
fn not_written(alloc: Global) -> Error
    ensures { IsKindOrMemory Write result.kind }
{
    Error::new(
        alloc,
        ErrorKind::Write,
        "the writer failed, or took nothing of what was left to write",
    )
}

/// The fault of a writer that doesn't grant the bytes of a value.
#[inline(never)]
fn refused_value(alloc: Global) -> Error
    ensures { IsKindOrMemory Write result.kind }
{
    Error::new(
        alloc,
        ErrorKind::Write,
        "the writer left fewer bytes than a filter's answer or a value takes",
    )
}

/// The fault of a writer that doesn't grant the turns of a node.
#[inline(never)]
fn refused_turns(alloc: Global) -> Error
    ensures { IsKindOrMemory Write result.kind }
{
    Error::new(
        alloc,
        ErrorKind::Write,
        "the writer let the run go on no further",
    )
}
