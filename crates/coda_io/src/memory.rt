// A source and a sink in memory, which fail at the calls that they are told to fail at.
ghost use Rattle.std.specs.Prelude.{◌≡◌};
ghost use Rattle.coda_io.specs.Memory.{supply_of, store_of};

use crate::{ReadFault, Sink, Source, WriteFault};
use std::marker::Model;

/// Bytes in memory. Contracts see a `Supply`.
#[derive(Drop)]
pub struct MemSource {
    bytes: Vec<u8>,
    at: usize,
    failing: Vec<u64>,
    calls: u64,
    faults: u64,
}

impl Model for MemSource {
    ghost use Rattle.std.specs.Prelude.{◌≤◌, drop, vec_len};
    ghost use Rattle.coda_io.specs.Memory.{Supply};

    ghost Value = { Supply };

    ghost view = { λ s. record { left = drop s.at s.bytes.items; failing = s.failing.items; calls = s.calls; faults = s.faults } };

    ghost invariant = { λ s. s.at ≤ vec_len s.bytes };
}

impl MemSource {
    /// These bytes. `failing` has the numbers of the calls that fail, where the first call is 1.
    pub fn new(bytes: Vec<u8>, failing: Vec<u64>) -> MemSource
        ensures { result ≡ supply_of bytes.items failing.items }
    {
        MemSource {
            bytes,
            at: 0,
            failing,
            calls: 0,
            faults: 0,
        }
    }
}

impl Source for MemSource {
    ghost use Rattle.std.specs.Prelude.{◌≡◌, ◌++◌, Some, MatchResult, min, length, take, drop};
    ghost use Rattle.std.specs.List.{Contains};
    ghost use Rattle.std.specs.Io.{ReadsAtMost};
    ghost use Rattle.std.specs.Io.KnownBytes.{ReadConsumes};
    ghost use Rattle.coda_io.specs.Faults.{counted, HasCause};
    ghost use Rattle.coda_io.specs.Memory.{after_read, after_read_fault};

    ghost left = { λ s. Some s.left };

    ghost faults = { λ s. s.faults };

    /// Gives as many bytes as are left and have room, except at a call whose number is among those that fail.
    fn read(&mut self, buf: &mut [u8]) -> Result<usize, ReadFault>
        ensures bound { ReadsAtMost result buf.new }
        ensures bytes { ReadConsumes (Some self.old.left) (Some self.new.left) result buf.new }
        ensures cause { HasCause self.old.faults self.new.faults result }
        ensures exact { MatchResult result
            (λ count. (¬ Contains self.old.failing (counted self.old.calls)) × (count ≡ min (length buf.old) (length self.old.left))
            × (buf.new ≡ take count self.old.left ++ drop count buf.old) × (self.new ≡ after_read count self.old))
            (λ _. Contains self.old.failing (counted self.old.calls) × (buf.new ≡ buf.old) × (self.new ≡ after_read_fault self.old)) }
    {
        self.calls = self.calls.saturating_add(1);
        if self.failing.contains(&self.calls) {
            self.faults = self.faults.saturating_add(1);
            return Err(ReadFault);
        }
        let count = buf.len().min(self.bytes.len() - self.at);
        buf[..count].copy_from_slice(&self.bytes[self.at..self.at + count]);
        self.at += count;
        Ok(count)
    }
}

/// Bytes taken into memory. Contracts see a `Store`.
#[derive(Drop)]
pub struct MemSink {
    bytes: Vec<u8>,
    failing: Vec<u64>,
    calls: u64,
    faults: u64,
}

impl Model for MemSink {
    ghost use Rattle.coda_io.specs.Memory.{Store};

    ghost Value = { Store };

    ghost view = { λ s. record { held = s.bytes.items; failing = s.failing.items; calls = s.calls; faults = s.faults } };
}

impl MemSink {
    /// A sink with these bytes. `failing` has the numbers of the calls that fail, where the first call is 1.
    pub fn new(bytes: Vec<u8>, failing: Vec<u64>) -> MemSink
        ensures { result ≡ store_of bytes.items failing.items }
    {
        MemSink {
            bytes,
            failing,
            calls: 0,
            faults: 0,
        }
    }

    /// What it holds.
    pub fn bytes(&self) -> &[u8]
        ensures { result.now ≡ self.now.held }
    {
        &self.bytes
    }
}

impl Sink for MemSink {
    ghost use Rattle.std.specs.Prelude.{◌≡◌, ◌<◌, Some, Ok, MatchResult, length};
    ghost use Rattle.std.specs.List.{Contains};
    ghost use Rattle.std.specs.Io.{WritesAtMost};
    ghost use Rattle.std.specs.Io.KnownBytes.{WriteAppends};
    ghost use Rattle.coda_io.specs.Faults.{counted, Rose, HasCause};
    ghost use Rattle.coda_io.specs.Memory.{after_write, after_write_fault};

    ghost held = { λ s. Some s.held };

    ghost faults = { λ s. s.faults };

    /// Takes the whole piece, except at a call whose number is among those that fail, or where it finds no memory.
    fn write(&mut self, bytes: &[u8]) -> Result<usize, WriteFault>
        ensures bound { WritesAtMost result bytes.now }
        ensures bytes { WriteAppends (Some self.old.held) (Some self.new.held) result bytes.now }
        ensures cause { HasCause self.old.faults self.new.faults result }
        ensures stuck { result ≡ Ok 0 → 0 < length bytes.now → Rose self.old.faults self.new.faults }
        ensures exact { MatchResult result
            (λ count. (¬ Contains self.old.failing (counted self.old.calls)) × (count ≡ length bytes.now) × (self.new ≡ after_write bytes.now self.old))
            (λ _. self.new ≡ after_write_fault self.old) }
    {
        self.calls = self.calls.saturating_add(1);
        if self.failing.contains(&self.calls) || self.bytes.extend_from_slice(bytes).is_err() {
            self.faults = self.faults.saturating_add(1);
            return Err(WriteFault);
        }
        Ok(bytes.len())
    }
}
