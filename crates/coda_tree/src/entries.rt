ghost use Rattle.std.specs.Prelude.{ℕ, List, true, false, ◌≡◌, ◌≢◌, ◌≤◌, ◌<◌, ◌+◌, ◌==◌, ◌∷◌, [], length, vec_len, vec_capacity, insert, IfOk, IfSome, IfNone, IsSome, OnOk, OnErr, IsTrue, Some, None, option_map, slice_get};
ghost use Rattle.std.specs.FinMap as map;
ghost use Rattle.std.specs.FinMap.Entries.{is_sorted, find, put};
ghost use Rattle.coda_fid.specs.Name.{name_cmp};
ghost use Rattle.coda_tree.specs.Pages.{all_pairs, AreFilled, pairs_at, ChangesPage};

use crate::guide::Guide;
use crate::pages::{self, page_for, search};
use coda_fid::{Fid, Name};
use std::alloc::{AllocError, Global};
use std::marker::Model;

/// What a directory binds: names, each with the fid that it stands for, in byte order of names.
///
/// Contracts see it as a finite map from names to fids. The names stand in short pages: a name is found by
/// two binary searches, and to bind or unbind one moves only what stands behind it in its page.
#[derive(Debug, Drop)]
pub struct Entries {
    pages: Vec<Vec<(Name, Fid)>>,
    guide: Guide,
    count: usize,
}

impl Model for Entries {
    ghost use Rattle.std.specs.FinMap as map;
    ghost use Rattle.coda_fid.specs.Name.{name_cmp};
    ghost use Rattle.coda_fid.specs.declared.fid.Fid.{Fid};
    ghost use Rattle.coda_tree.specs.Bindings.{coded_bindings};
    ghost use Rattle.coda_tree.specs.Pages.{all_pairs, IsPaged};

    ghost Value = { map.FinMap name_cmp Fid };

    ghost coded = { coded_bindings };

    ghost view = { λ a. map.from_sorted (all_pairs a.pages.items) };

    ghost invariant = { λ a. IsPaged a.pages.items a.count };
}

// Memory in which a directory can take back a name that it lost: for the pairs of a page, and for a first page.
#[derive(Drop)]
pub(crate) struct Room {
    pairs: Vec<(Name, Fid)>,
    pages: Vec<Vec<(Name, Fid)>>,
}

impl Model for Room {
    ghost use Rattle.std.specs.Prelude.{ℕ, ◌≡◌, ◌<◌, [], vec_capacity};

    ghost Value = { ℕ };

    ghost view = { λ a. vec_capacity a.pairs };

    ghost invariant = { λ a. (a.pairs.items ≡ []) × (a.pages.items ≡ []) × (0 < vec_capacity a.pages) };
}

impl Entries {
    /// No bindings.
    pub fn new(alloc: Global) -> Entries
        ensures { result ≡ map.empty }
    {
        Entries {
            pages: Vec::new(alloc),
            guide: Guide::new(),
            count: 0,
        }
    }

    /// How many names are bound.
    pub fn len(&self) -> usize
        ensures { result ≡ map.len self.now }
    {
        self.count
    }

    /// Whether no name is bound.
    pub fn is_empty(&self) -> bool
        ensures { result ≡ (map.len self.now == 0) }
    {
        self.len() == 0
    }

    /// The binding at an index, from 0, in byte order of names; `None` from `len()` on.
    pub fn at(&self, index: usize) -> Option<(&Name, Fid)>
        ensures pair { option_map (λ p. (p.0.now, p.1)) result ≡ slice_get (map.entries self.now) index }
        ensures within { IfSome result (λ p. index < map.len self.now) }
        ensures bound { IfSome result (λ p. map.get self.now p.0.now ≡ Some p.1) }
        ensures past { IfNone result (map.len self.now ≤ index) }
    {
        match pages::pair_at(&self.pages, index) {
            Some(pair) => Some((&pair.0, pair.1)),
            None => None,
        }
    }

    /// What the name is bound to.
    pub fn find(&self, name: &Name) -> Option<Fid>
        ensures { result ≡ map.get self.now name.now }
    {
        pages::find(&self.pages, &self.guide, name)
    }

    // The pages, one after the other.
    pub(crate) fn pages(&self) -> &[Vec<(Name, Fid)>]
        ensures { all_pairs result.now ≡ map.entries self.now }
    {
        &self.pages
    }

    // Whether a fid is bound, at whatever name.
    pub(crate) fn binds(&self, fid: Fid) -> bool
        ensures some { result ≡ true → (name : List ℕ) × (map.get self.now name ≡ Some fid) }
        ensures none { result ≡ false → (name : List ℕ) → map.get self.now name ≢ Some fid }
    {
        pages::binds(&self.pages, fid)
    }

    /// Binds a name that is free. Fails for want of memory alone, and then changes nothing.
    pub fn insert(&mut self, name: Name, fid: Fid) -> Result<(), AllocError>
        requires { map.get self.old name ≡ None }
        ensures ok { OnOk result (self.new ≡ map.insert self.old name fid) }
        ensures err { OnErr result (self.new ≡ self.old) }
    {
        let Some(count) = self.count.checked_add(1) else {
            return Err(AllocError);
        };
        pages::put(&mut self.pages, &mut self.guide, name, fid)?;
        self.count = count;
        Ok(())
    }

    /// Binds a bound name to another fid. Takes no memory.
    pub fn rebind(&mut self, name: &Name, fid: Fid)
        requires { IsSome (map.get self.old name.now) }
        ensures { self.new ≡ map.insert self.old name.now fid }
    {
        pages::rebind(&mut self.pages, &self.guide, name, fid);
    }

    /// Unbinds a name, where it is bound.
    pub fn remove(&mut self, name: &Name)
        ensures { self.new ≡ map.remove self.old name.now }
    {
        if pages::remove(&mut self.pages, &mut self.guide, name) {
            self.count -= 1;
        }
    }

    // Memory in which these bindings and two more have room. Nothing is copied.
    pub(crate) fn room(&self) -> Result<Room, AllocError>
        ensures { IfOk result (λ room. map.len self.now + 1 < room) }
    {
        let alloc = *self.pages.allocator();
        let Some(size) = self.count.checked_add(2) else {
            return Err(AllocError);
        };
        let pairs = Vec::with_capacity(alloc, size)?;
        let pages = Vec::with_capacity(alloc, 1)?;
        Ok(Room { pairs, pages })
    }

    // Binds a name that is free. Takes no memory but the room.
    pub(crate) fn take_back(&mut self, name: Name, fid: Fid, room: Room)
        requires free { map.get self.old name ≡ None }
        requires room { map.len self.old < room }
        ensures { self.new ≡ map.insert self.old name fid }
    {
        let count = room.more_than(self.count);
        take_back(&mut self.pages, &self.guide, name, fid, room);
        self.count = count;
    }

    /// A copy. Fails for want of memory alone.
    pub fn copy(&self) -> Result<Entries, AllocError>
        ensures { IfOk result (λ e. e ≡ self.now) }
    {
        let alloc = *self.pages.allocator();
        let pages = pages::copy(alloc, &self.pages)?;
        let guide = Guide::of(alloc, &pages);
        Ok(Entries {
            pages,
            guide,
            count: self.count,
        })
    }
}

impl Room {
    // One more than a number that is smaller than the room.
    fn more_than(&self, count: usize) -> usize
        requires { count < self.now }
        ensures { result ≡ count + 1 }
    {
        let capacity = self.pairs.capacity();
        prove!(count < capacity);
        count + 1
    }
}

// Sees to it that one more pair can be put in, by the room where the vector itself has none.
fn make_room(items: &mut Vec<(Name, Fid)>, room: Room)
    requires { vec_len items.old < room }
    ensures items { items.new.items ≡ items.old.items }
    ensures len { vec_len items.new ≡ vec_len items.old }
    ensures room { vec_len items.new < vec_capacity items.new }
{
    if items.len() < items.capacity() {
        return;
    }
    let mut pairs = room.pairs;
    match pairs.append(items) {
        Ok(()) => *items = pairs,
        Err(_) => unreachable!(),
    }
}

// Puts a pair in at a place. There is room for it.
fn insert_within(items: &mut Vec<(Name, Fid)>, at: usize, name: Name, fid: Fid)
    requires place { at ≤ vec_len items.old }
    requires room { vec_len items.old < vec_capacity items.old }
    ensures { items.new.items ≡ insert items.old.items at (name, fid) }
{
    let put = items.insert(at, (name, fid)).is_ok();
    prove!(put);
}

// Binds a free name in sorted pairs. Takes no memory but the room.
fn take_back_in(page: &mut Vec<(Name, Fid)>, name: Name, fid: Fid, room: Room)
    requires sorted { IsTrue (is_sorted name_cmp page.old.items) }
    requires free { find name_cmp name page.old.items ≡ None }
    requires room { length page.old.items < room }
    ensures { page.new.items ≡ put name_cmp name fid page.old.items }
{
    make_room(page, room);
    match search(page, &name) {
        Ok(_) => {}
        Err(at) => insert_within(page, at, name, fid),
    }
}

// Binds a free name in a page. Takes no memory but the room.
fn take_back_at(pages: &mut Vec<Vec<(Name, Fid)>>, at: usize, name: Name, fid: Fid, room: Room)
    requires there { at < length pages.old.items }
    requires sorted { IsTrue (is_sorted name_cmp (pairs_at pages.old.items at)) }
    requires free { find name_cmp name (pairs_at pages.old.items at) ≡ None }
    requires room { length (pairs_at pages.old.items at) < room }
    ensures { ChangesPage pages.old.items pages.new.items at (put name_cmp name fid (pairs_at pages.old.items at)) }
{
    take_back_in(&mut pages[at], name, fid, room);
}

// The room as a first page with one pair.
fn first_page(name: Name, fid: Fid, room: Room) -> Vec<Vec<(Name, Fid)>>
    requires { 0 < room }
    ensures pairs { all_pairs result.items ≡ (name, fid) ∷ [] }
    ensures filled { AreFilled result.items }
{
    let mut pairs = room.pairs;
    let mut pages = room.pages;
    let put = pairs.push((name, fid)).is_ok();
    prove!(put);
    let put = pages.push(pairs).is_ok();
    prove!(put);
    pages
}

// Binds a free name. Takes no memory but the room.
fn take_back(pages: &mut Vec<Vec<(Name, Fid)>>, guide: &Guide, name: Name, fid: Fid, room: Room)
    requires sorted { IsTrue (is_sorted name_cmp (all_pairs pages.old.items)) }
    requires filled { AreFilled pages.old.items }
    requires free { find name_cmp name (all_pairs pages.old.items) ≡ None }
    requires room { length (all_pairs pages.old.items) < room }
    ensures pairs { all_pairs pages.new.items ≡ put name_cmp name fid (all_pairs pages.old.items) }
    ensures filled { AreFilled pages.new.items }
{
    if pages.is_empty() {
        *pages = first_page(name, fid, room);
        return;
    }
    let at = page_for(pages, guide, &name);
    take_back_at(pages, at, name, fid, room);
}
