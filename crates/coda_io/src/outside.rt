// The traits of what is read and written.
ghost use Rattle.std.specs.Prelude.{◌≡◌, ℕ, ◌<◌, List, length, Option, Ok};
ghost use Rattle.std.specs.Io.{ReadsAtMost, WritesAtMost};
ghost use Rattle.std.specs.Io.KnownBytes.{ReadConsumes, WriteAppends};
ghost use Rattle.coda_io.specs.Faults.{Rose, HasCause};

use thiserror::Error;

/// A read was refused.
#[derive(Clone, Copy, Debug, PartialEq, Eq, Error)]
#[error("read fault")]
pub struct ReadFault;

/// A write was refused.
#[derive(Clone, Copy, Debug, PartialEq, Eq, Error)]
#[error("write fault")]
pub struct WriteFault;

/// Bytes to be read, with a count of the faults.
pub trait Source {
    // What is left, where the source tells it.
    ghost left: { Self → Option (List ℕ) };

    // How many reads were refused, up to the end of the count's type.
    ghost faults: { Self → ℕ };

    /// Reads some bytes to the front of `buf`, and answers how many. 0 for a `buf` that isn't empty is the end of
    /// the input.
    ///
    /// # Errors
    ///
    /// `ReadFault` where the read was refused: nothing was taken, and the count of faults rose.
    fn read(&mut self, buf: &mut [u8]) -> Result<usize, ReadFault>
        ensures bound { ReadsAtMost result buf.new }
        ensures bytes { ReadConsumes (left self.old) (left self.new) result buf.new }
        ensures cause { HasCause (faults self.old) (faults self.new) result };
}

/// A place that takes bytes, with a count of the faults.
pub trait Sink {
    // What it holds, where the sink tells it.
    ghost held: { Self → Option (List ℕ) };

    // How many writes were refused or took nothing, up to the end of the count's type.
    ghost faults: { Self → ℕ };

    /// Takes some bytes from the front of `bytes`, and answers how many. To take none of a piece that isn't empty
    /// counts as a fault too.
    ///
    /// # Errors
    ///
    /// `WriteFault` where the write was refused: nothing was taken, and the count of faults rose.
    fn write(&mut self, bytes: &[u8]) -> Result<usize, WriteFault>
        ensures bound { WritesAtMost result bytes.now }
        ensures bytes { WriteAppends (held self.old) (held self.new) result bytes.now }
        ensures cause { HasCause (faults self.old) (faults self.new) result }
        ensures stuck { result ≡ Ok 0 → 0 < length bytes.now → Rose (faults self.old) (faults self.new) };
}
