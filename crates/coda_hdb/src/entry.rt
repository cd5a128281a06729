ghost use Rattle.std.specs.Prelude.{◌≡◌, IfOk};

use coda_fid::Path;
use std::alloc::AllocError;

/// What a hoard entry wants beside the object at its path (Kistler and Satyanarayanan 1992).
#[derive(Clone, Copy, Debug, PartialEq, Eq)]
pub enum Expand {
    /// Nothing more.
    Alone,
    /// What the directory binds.
    Children,
    /// All that is below it.
    Descendants,
}

/// A path that a client wants to have in its cache.
#[derive(Debug, Drop)]
pub struct HdbEntry {
    /// The volume.
    pub volume: u32,
    /// The path in it.
    pub path: Path,
    /// How much it is wanted: from 1 for the least to 1,000.
    pub priority: u16,
    /// What is wanted beside it.
    pub expand: Expand,
}

/// A change of a hoard database.
#[derive(Debug, Drop)]
pub enum HoardChange {
    /// An entry is added, or takes the place of that of its path.
    Add(HdbEntry),
    /// The entry of the path in the volume goes.
    Remove(u32, Path),
    /// All entries go.
    Clear,
}

impl HdbEntry {
    /// The same entry, in memory of its own.
    pub fn copy(&self) -> Result<HdbEntry, AllocError>
        ensures { IfOk result (λ entry. entry ≡ self.now) }
    {
        let path = self.path.copy()?;
        Ok(HdbEntry {
            volume: self.volume,
            path,
            priority: self.priority,
            expand: self.expand,
        })
    }
}
