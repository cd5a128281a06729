// A source and a sink over any reader and writer of std. They tell what those tell, and a file tells nothing.
ghost use Rattle.std.specs.Prelude.{◌≡◌};
ghost use Rattle.coda_io.specs.Standard.{handle_of};

use crate::{ReadFault, Sink, Source, WriteFault};
use std::io::{Read, Write};
use std::marker::Model;

/// A reader, with a count of its errors. Contracts see a `Handle`.
#[derive(Drop)]
pub struct StdSource<R> {
    reader: R,
    faults: u64,
}

impl<R> Model for StdSource<R> {
    ghost use Rattle.coda_io.specs.Standard.{Handle};

    ghost Value = { Handle R };

    ghost view = { λ s. record { inner = s.reader; faults = s.faults } };
}

impl<R> StdSource<R> {
    /// This reader, with no error so far.
    pub fn new(reader: R) -> StdSource<R>
        ensures { result ≡ handle_of reader }
    {
        StdSource { reader, faults: 0 }
    }
}

impl<R: Read> Source for StdSource<R> {
    ghost left = { λ s. R.remaining s.inner };

    ghost faults = { λ s. s.faults };

    fn read(&mut self, buf: &mut [u8]) -> Result<usize, ReadFault> {
        match self.reader.read(buf) {
            Ok(count) => Ok(count),
            Err(_) => {
                self.faults = self.faults.saturating_add(1);
                Err(ReadFault)
            }
        }
    }
}

/// A writer, with a count of its errors and of the calls that took nothing. Contracts see a `Handle`.
#[derive(Drop)]
pub struct StdSink<W> {
    writer: W,
    faults: u64,
}

impl<W> Model for StdSink<W> {
    ghost use Rattle.coda_io.specs.Standard.{Handle};

    ghost Value = { Handle W };

    ghost view = { λ s. record { inner = s.writer; faults = s.faults } };
}

impl<W> StdSink<W> {
    /// This writer, with no error so far.
    pub fn new(writer: W) -> StdSink<W>
        ensures { result ≡ handle_of writer }
    {
        StdSink { writer, faults: 0 }
    }
}

impl<W: Write> Sink for StdSink<W> {
    ghost held = { λ s. W.contents s.inner };

    ghost faults = { λ s. s.faults };

    fn write(&mut self, bytes: &[u8]) -> Result<usize, WriteFault> {
        match self.writer.write(bytes) {
            Ok(0) if !bytes.is_empty() => {
                self.faults = self.faults.saturating_add(1);
                Ok(0)
            }
            Ok(count) => Ok(count),
            Err(_) => {
                self.faults = self.faults.saturating_add(1);
                Err(WriteFault)
            }
        }
    }
}
