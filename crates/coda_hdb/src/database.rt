ghost use Rattle.std.specs.Prelude.{◌≡◌, ◌≤◌, ℕ, List, ◌↔◌, [], true, false, ◌++◌, ◌||◌, nat_lt, None, Err, length, map, IsTrue, IfOk, IfErr, OnOk, OnErr, MatchOption};
ghost use Rattle.std.specs.Map.{values_of};
ghost use Rattle.coda_hdb.specs.Database.{AreDistinct, has_place, put, without, add_refusal, remove_refusal};
ghost use Rattle.coda_hdb.specs.Kept.{AreKept, ArePlaced, IsPlaceOf};

use crate::names::has_entry;
use crate::place::place_of;
use crate::{HdbEntry, HdbFault};
use coda_fid::Path;
use indexmap::IndexMap;
use std::alloc::{AllocError, Global};
use std::marker::Model;

// How many entries there may be.
const ENTRIES: usize = 1024;

/// The hoard database of a client (Kistler and Satyanarayanan 1992): at most 1,024 paths, in the order in which they
/// came.
///
/// Contracts see the list of the entries.
#[derive(Drop)]
pub struct Hdb {
    alloc: Global,
    entries: IndexMap<(u32, Vec<u8>), HdbEntry>,
}

impl Model for Hdb {
    ghost use Rattle.std.specs.Prelude.{List};
    ghost use Rattle.std.specs.Map.{values_of};
    ghost use Rattle.coda_hdb.specs.declared.entry.HdbEntry.{HdbEntry};
    ghost use Rattle.coda_hdb.specs.Kept.{AreKept};

    ghost Value = { List HdbEntry };

    ghost view = { λ h. values_of h.entries.entries };

    ghost invariant = { λ h. AreKept h.entries.entries };
}

// The same entries, in memory of their own.
fn copies_of(
    alloc: Global,
    entries: &IndexMap<(u32, Vec<u8>), HdbEntry>,
) -> Result<Vec<HdbEntry>, AllocError>
    ensures { IfOk result (λ copies. copies.items ≡ values_of entries.now.entries) }
{
    let mut copies = Vec::new(alloc);
    for entry in entries.values() {
        let copy = entry.copy()?;
        copies.push(copy)?;
    }
    Ok(copies)
}

// Whether an entry may be put at a place: it has one already, or there is room for another.
fn has_room(entries: &IndexMap<(u32, Vec<u8>), HdbEntry>, place: &(u32, Vec<u8>)) -> bool
    requires { ArePlaced entries.now.entries }
    ensures { (volume : ℕ) (path : List (List ℕ)) → IsPlaceOf place.now volume path → result ≡ (nat_lt (length (values_of entries.now.entries)) 1024 || has_place (values_of entries.now.entries) volume path) }
{
    entries.len() < ENTRIES || entries.contains_key(place)
}

// Puts an entry at its place.
fn store(
    entries: &mut IndexMap<(u32, Vec<u8>), HdbEntry>,
    place: (u32, Vec<u8>),
    entry: HdbEntry,
) -> Result<(), AllocError>
    requires kept { AreKept entries.old.entries }
    requires place { IsPlaceOf place entry.volume entry.path }
    requires room { (nat_lt (length (values_of entries.old.entries)) 1024 || has_place (values_of entries.old.entries) entry.volume entry.path) ≡ true }
    ensures ok { OnOk result (values_of entries.new.entries ≡ put (values_of entries.old.entries) entry) }
    ensures err { OnErr result (entries.new.entries ≡ entries.old.entries) }
    ensures kept { AreKept entries.new.entries }
{
    entries.insert(place, entry)?;
    Ok(())
}

// Takes the entry of a place out, and says whether there was one.
fn take_at(entries: &mut IndexMap<(u32, Vec<u8>), HdbEntry>, place: &(u32, Vec<u8>)) -> bool
    requires { AreKept entries.old.entries }
    ensures there { (volume : ℕ) (path : List (List ℕ)) → IsPlaceOf place.now volume path → result ≡ has_place (values_of entries.old.entries) volume path }
    ensures taken { (volume : ℕ) (path : List (List ℕ)) → IsPlaceOf place.now volume path → values_of entries.new.entries ≡ without (values_of entries.old.entries) volume path }
    ensures kept { (volume : ℕ) (path : List (List ℕ)) → IsPlaceOf place.now volume path → AreKept entries.new.entries }
    ensures none { result ≡ false → entries.new.entries ≡ entries.old.entries }
{
    entries.shift_remove(place).is_some()
}

// Why an entry isn't added for whose place there is no memory.
#[cold]
#[inline(never)]
fn why_not_added(entries: &IndexMap<(u32, Vec<u8>), HdbEntry>, entry: &HdbEntry) -> HdbFault
    ensures { MatchOption (add_refusal (values_of entries.now.entries) entry.now) (result ≡ HdbFault.Memory) (λ why. result ≡ why) }
{
    if entries.len() < ENTRIES || has_entry(entries, entry.volume, &entry.path) {
        return HdbFault::Memory;
    }
    HdbFault::HdbFull
}

// Why no entry is removed where there is no memory for the place of its path.
#[cold]
#[inline(never)]
fn why_not_removed(
    entries: &IndexMap<(u32, Vec<u8>), HdbEntry>,
    volume: u32,
    path: &Path,
) -> HdbFault
    ensures { MatchOption (remove_refusal (values_of entries.now.entries) volume path.now) (result ≡ HdbFault.Memory) (λ why. result ≡ why) }
{
    if has_entry(entries, volume, path) {
        HdbFault::Memory
    } else {
        HdbFault::NoEntry
    }
}

impl Hdb {
    /// A database without entries. It takes no memory until the first one.
    pub fn new(alloc: Global) -> Hdb
        ensures { result ≡ [] }
    {
        Hdb {
            alloc,
            entries: IndexMap::new(alloc),
        }
    }

    /// Adds an entry. That of its path, where there is one, keeps its place in the order and becomes this one; a new
    /// path goes last.
    ///
    /// # Errors
    ///
    /// `HdbFull` exactly where the path is new and there are 1,024 entries, whatever memory there is; and else only
    /// `Memory`. Nothing changes then.
    pub fn add(&mut self, entry: HdbEntry) -> Result<(), HdbFault>
        ensures causes { MatchOption (add_refusal self.old entry) (IfErr result (λ why. why ≡ HdbFault.Memory)) (λ why. result ≡ Err why) }
        ensures ok { OnOk result ((add_refusal self.old entry ≡ None) × (self.new ≡ put self.old entry)) }
        ensures err { OnErr result (self.new ≡ self.old) }
    {
        let Ok(place) = place_of(self.alloc, entry.volume, &entry.path) else {
            return Err(why_not_added(&self.entries, &entry));
        };
        if !has_room(&self.entries, &place) {
            return Err(HdbFault::HdbFull);
        }
        store(&mut self.entries, place, entry)?;
        Ok(())
    }

    /// Removes the entry of a path. The others keep their order.
    ///
    /// # Errors
    ///
    /// `NoEntry` exactly where there is none, whatever memory there is; and else only `Memory`. Nothing changes then.
    pub fn remove(&mut self, volume: u32, path: &Path) -> Result<(), HdbFault>
        ensures causes { MatchOption (remove_refusal self.old volume path.now) (IfErr result (λ why. why ≡ HdbFault.Memory)) (λ why. result ≡ Err why) }
        ensures ok { OnOk result ((remove_refusal self.old volume path.now ≡ None) × (self.new ≡ without self.old volume path.now)) }
        ensures err { OnErr result (self.new ≡ self.old) }
    {
        let Ok(place) = place_of(self.alloc, volume, path) else {
            return Err(why_not_removed(&self.entries, volume, path));
        };
        if !take_at(&mut self.entries, &place) {
            return Err(HdbFault::NoEntry);
        }
        Ok(())
    }

    /// Removes all entries. It takes no memory.
    pub fn clear(&mut self)
        ensures { self.new ≡ [] }
    {
        self.entries.clear();
    }

    /// How many entries there are.
    pub fn len(&self) -> usize
        ensures count { result ≡ length self.now }
        ensures few { result ≤ 1024 }
    {
        self.entries.len()
    }

    /// Whether there is none.
    pub fn is_empty(&self) -> bool
        ensures { IsTrue result ↔ (self.now ≡ []) }
    {
        self.entries.is_empty()
    }

    /// Copies of the entries, in their order. No two are of one path in one volume.
    pub fn list(&self) -> Result<Vec<HdbEntry>, AllocError>
        ensures entries { IfOk result (λ entries. entries.items ≡ self.now) }
        ensures distinct { AreDistinct self.now }
    {
        copies_of(self.alloc, &self.entries)
    }
}
