ghost use Rattle.std.specs.Prelude.{◌≡◌, ◌≤◌, ◌<◌, [], ◌∷◌, ◌++◌, length, slice_get, IfOk, option_copied, IsTrue, ◌↔◌, List};
ghost use Rattle.coda_reslog.specs.declared.entry.ResEntry.{ResEntry};
ghost use Rattle.coda_reslog.specs.Rings.{last_entries, overwritten};
ghost use Rattle.circular_buffer.specs.Buffer.{buffer};

use crate::ResEntry;
use circular_buffer::HeapCircularBuffer;
use std::alloc::{AllocError, Global};
use std::marker::Model;

// How many entries a ring keeps.
const ENTRIES: usize = 256;

/// The resolution log of a directory: its last 256 updates (Kumar and Satyanarayanan 1993).
///
/// Contracts see the list of its entries, oldest first.
#[derive(Debug, Drop)]
pub struct Ring {
    entries: HeapCircularBuffer<ResEntry>,
}

impl Model for Ring {
    ghost use Rattle.std.specs.Prelude.{◌≡◌, ◌≤◌, List, length};
    ghost use Rattle.coda_reslog.specs.declared.entry.ResEntry.{ResEntry};

    ghost Value = { List ResEntry };

    ghost view = { λ r. r.entries.items };

    ghost invariant = { λ r. (r.entries.capacity ≡ 256) × (length r.entries.items ≤ 256) };
}

// Puts an entry behind the others, for which there is room.
fn append(entries: &mut HeapCircularBuffer<ResEntry>, entry: ResEntry)
    requires { length entries.old.items < entries.old.capacity }
    ensures { entries.new ≡ buffer (entries.old.items ++ entry ∷ []) entries.old.capacity }
{
    entries.push_back(entry);
}

// The same entries, in memory of their own.
fn copy_entries(
    alloc: Global,
    entries: &HeapCircularBuffer<ResEntry>,
) -> Result<HeapCircularBuffer<ResEntry>, AllocError>
    requires capacity { entries.now.capacity ≡ 256 }
    requires few { length entries.now.items ≤ 256 }
    ensures { IfOk result (λ copies. copies ≡ entries.now) }
{
    let mut copies = HeapCircularBuffer::with_capacity(alloc, ENTRIES)?;
    for index in 0..entries.len() {
        let Some(entry) = entries.get(index) else {
            unreachable!()
        };
        let copy = entry.copy()?;
        append(&mut copies, copy);
    }
    Ok(copies)
}

impl Ring {
    /// A log without entries, with room for 256.
    pub fn new(alloc: Global) -> Result<Ring, AllocError>
        ensures { IfOk result (λ ring. ring ≡ []) }
    {
        let entries = HeapCircularBuffer::with_capacity(alloc, ENTRIES)?;
        Ok(Ring { entries })
    }

    /// Adds an entry, and hands out the oldest one where there were 256. It takes no memory.
    ///
    /// So the ring has the last 256 of all entries that were ever pushed.
    pub fn push(&mut self, entry: ResEntry) -> Option<ResEntry>
        ensures kept { self.new ≡ last_entries (self.old ++ entry ∷ []) }
        ensures pushed { (pushed : List ResEntry) → self.old ≡ last_entries pushed → self.new ≡ last_entries (pushed ++ entry ∷ []) }
        ensures out { result ≡ overwritten self.old }
    {
        self.entries.push_back(entry)
    }

    /// How many entries there are.
    pub fn len(&self) -> usize
        ensures count { result ≡ length self.now }
        ensures few { result ≤ 256 }
    {
        self.entries.len()
    }

    /// Whether there is none.
    pub fn is_empty(&self) -> bool
        ensures { IsTrue result ↔ (self.now ≡ []) }
    {
        self.entries.is_empty()
    }

    /// The entry at an index, from 0 for the oldest; `None` from the number of entries on.
    pub fn get(&self, index: usize) -> Option<&ResEntry>
        ensures { option_copied result ≡ slice_get self.now index }
    {
        self.entries.get(index)
    }

    /// The same log, in memory of its own.
    pub fn copy(&self) -> Result<Ring, AllocError>
        ensures { IfOk result (λ ring. ring ≡ self.now) }
    {
        let entries = copy_entries(*self.entries.allocator(), &self.entries)?;
        Ok(Ring { entries })
    }
}
