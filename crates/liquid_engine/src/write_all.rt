//! The engine's own loop over `write`.
ghost use Rattle.std.specs.Prelude.{◌≡◌, ◌≤◌, length, None, OnOk, OnErr};
ghost use Rattle.std.specs.Io.KnownBytes.{Appends};
ghost use Rattle.liquid_engine.specs.Added.{AppendsPart};
ghost use Rattle.liquid_engine.specs.Failures.{OneFailed};
ghost use Rattle.liquid_engine.specs.Limits.{TakesBytes};
ghost use Rattle.liquid_engine.specs.inside.Reserves.{are_limited, reserve_of};

use crate::counted::CountedWrite;

/// A write failed, or took nothing of bytes that aren't empty.
#[derive(Clone, Copy, Debug)]
pub struct WriteFailed;

/// Writes all the bytes. After a short count it goes on with the rest. A write that failed isn't
/// tried again, and nothing is flushed.
pub fn write_all<W: CountedWrite>(writer: &mut W, bytes: &[u8]) -> Result<(), WriteFailed>
    ensures all { OnOk result (Appends (W.contents writer.old) (W.contents writer.new) bytes.now) }
    ensures takes { OnOk result
        (TakesBytes (length bytes.now) (W.left writer.old) (W.left writer.new)) }
    ensures none_failed { OnOk result (W.failure_count writer.new ≡ W.failure_count writer.old) }
    ensures part { OnErr result (AppendsPart (W.contents writer.old)
        (W.contents writer.new) bytes.now) }
    ensures failed { OnErr result (OneFailed (W.failure_count writer.old)
        (W.failure_count writer.new)) }
    // also what was written before a write failed took its bytes
    ensures bounded { reserve_of None (W.left writer.new).bytes ≤
        reserve_of None (W.left writer.old).bytes }
    ensures limited { are_limited (W.left writer.new) ≡ are_limited (W.left writer.old) }
{
    let mut rest = bytes;
    while !rest.is_empty() {
        match writer.write(rest) {
            Ok(0) => return Err(WriteFailed),
            Ok(n) => rest = &rest[n..],
            Err(_) => return Err(WriteFailed),
        }
    }
    Ok(())
}
