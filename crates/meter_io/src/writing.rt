//! Writing a piece whole.

ghost use Rattle.std.specs.Prelude.{◌≡◌, ◌≤◌, ℕ, length, take, OnOk, OnErr};
ghost use Rattle.std.specs.Io.KnownBytes.{Appends};
ghost use Rattle.meter_io.specs.Causes.{HasCause};

use crate::{Failed, Sink};

/// Writes all of `piece`. For an empty piece it makes no call.
///
/// `Failed` comes only where the sink's count of faults rose; the sink then took a prefix of the piece.
pub fn write_all<K: Sink>(sink: &mut K, piece: &[u8]) -> Result<(), Failed>
    ensures whole { OnOk result (Appends (K.held sink.old) (K.held sink.new) piece.now) }
    ensures prefix { OnErr result ((count : ℕ) × (count ≤ length piece.now)
        × Appends (K.held sink.old) (K.held sink.new) (take count piece.now)) }
    ensures cause { HasCause (K.faults sink.old) (K.faults sink.new) result }
{
    let mut done = 0;
    while done < piece.len() {
        let (_, rest) = piece.split_at(done);
        match sink.write(rest) {
            Ok(count) => done += count,
            Err(Failed) => return Err(Failed),
        }
    }
    Ok(())
}
