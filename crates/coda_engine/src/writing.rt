// The writing of a text in as many calls as it takes.
ghost use Rattle.std.specs.Prelude.{◌≡◌, ℕ, ◌<◌, length, take, OnOk, OnErr};
ghost use Rattle.std.specs.Io.KnownBytes.{Appends};
ghost use Rattle.coda_io.specs.Faults.{HasCause};

use coda_io::{Sink, WriteFault};

/// Writes all the bytes, in as many calls as it takes, and in none where there are none.
///
/// # Errors
///
/// `WriteFault` where a call was refused or took nothing: the sink took some of the bytes then, but not all.
pub fn write_all<K: Sink>(sink: &mut K, bytes: &[u8]) -> Result<(), WriteFault>
    ensures ok { OnOk result (Appends (K.held sink.old) (K.held sink.new) bytes.now) }
    ensures err { OnErr result ((n : ℕ) × (n < length bytes.now) × Appends (K.held sink.old) (K.held sink.new) (take n bytes.now)) }
    ensures cause { HasCause (K.faults sink.old) (K.faults sink.new) result }
{
    let mut done = 0;
    while done < bytes.len() {
        let taken = sink.write(&bytes[done..])?;
        if taken == 0 {
            return Err(WriteFault);
        }
        done += taken;
    }
    Ok(())
}
