// A source that gives small pieces, and a sink that takes few bytes.
use coda_io::{MemSink, MemSource, ReadFault, Sink, Source, WriteFault};

/// Bytes in memory, of which one call gives only so many.
#[derive(Drop)]
pub struct Pieces {
    pub source: MemSource,
    pub piece: usize,
}

impl Source for Pieces {
    ghost use Rattle.std.specs.Prelude.{None};

    ghost left = { λ _. None };

    ghost faults = { λ s. s.source.faults };

    fn read(&mut self, buf: &mut [u8]) -> Result<usize, ReadFault> {
        let room = buf.len().min(self.piece);
        self.source.read(&mut buf[..room])
    }
}

/// A sink that takes so many bytes in all, and in one call so many at most; and none where it is full.
#[derive(Drop)]
pub struct Outlet {
    pub sink: MemSink,
    pub room: u64,
    pub most: u64,
    pub faults: u64,
}

impl Sink for Outlet {
    ghost use Rattle.std.specs.Prelude.{None};

    ghost held = { λ _. None };

    ghost faults = { λ s. s.faults };

    fn write(&mut self, bytes: &[u8]) -> Result<usize, WriteFault> {
        let room = self.room.min(self.most) as usize;
        let count = bytes.len().min(room);
        if self.sink.write(&bytes[..count]).is_err() {
            self.faults = self.faults.saturating_add(1);
            return Err(WriteFault);
        }
        if count == 0 && !bytes.is_empty() {
            self.faults = self.faults.saturating_add(1);
        }
        self.room = self.room.saturating_sub(count as u64);
        Ok(count)
    }
}
