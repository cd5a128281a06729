ghost use Rattle.std.specs.Prelude.{option_map, ◌↔◌, IsTrue, ◌≡◌, ◌+◌, ◌<◌, ◌^◌, true, cond, Some, None, IfOk, IfSome, IsSome, OnOk, OnErr, is_some, option_copied};
ghost use Rattle.std.specs.FinMap as map;
ghost use Rattle.std.specs.HashMap as hash;
ghost use Rattle.coda_fid.specs.Fid.{same_fid};
ghost use Rattle.coda_tree.specs.Volume.{child, written, content_patch, attrs_patch, bind_in, unbind_in, IsDir, IsDirAt, bindings};
ghost use Rattle.coda_tree.specs.Slots.{node_held, keyed, nodes_in, parent_in, parent_held, held_in, altered, slot_changed, slot_moved, slot_with, purged, withdrawn};
ghost use Rattle.coda_tree.specs.Parts.{parts_before, given_back};
ghost use Rattle.coda_tree.specs.SlotEdits.{slots_bound};
ghost use Rattle.coda_tree.specs.Undoing.{HasSlot, MayTakeBack, MayUndo, undone, MayUndoAll, undone_all, purged_after, purged_all};
ghost use Rattle.coda_tree.specs.SlotSteps.{MayTakeBackSlot, AltersAt, IsSameSlots, IsDirSlot, MayBindSlot, MayRebindSlot};

use crate::entries::Room;
use crate::hasher::FidMap;
use crate::node::Parts;
use crate::slot::{self, Held};
use crate::undo::Undo;
use crate::{Node, NodeKind};
use coda_fid::{Attrs, Bytes, Fid, Name, Sid};
use std::alloc::{AllocError, Global};
use std::hash::BuildHasherDefault;
use std::marker::Model;
use std::mem::replace;

// Slots for nodes, each at its fid, full or empty. To fill a slot that is there takes no memory, and so a node that was
// taken out of its slot can always come back.
#[derive(Drop)]
pub(crate) struct SlotTable {
    alloc: Global,
    slots: FidMap<Option<Held>>,
    full: usize,
}

impl Model for SlotTable {
    ghost use Rattle.coda_tree.specs.Slots.{Slots, coded_slots};
    ghost use Rattle.coda_tree.specs.SlotSteps.{slots_of, IsCounted};
    ghost use Rattle.coda_tree.specs.contracts.slot.Held as held_row;

    ghost Value = { Slots };

    ghost coded = { coded_slots held_row.the_row.coded };

    ghost view = { slots_of };

    ghost invariant = { IsCounted };
}

// Binds a free name in the directory at a fid.
fn bind(slots: &mut FidMap<Option<Held>>, dir: Fid, name: Name, fid: Fid) -> Result<(), AllocError>
    requires { MayBindSlot (held_in (hash.get same_fid slots.old dir)) name }
    ensures ok { OnOk result (AltersAt slots.old slots.new dir (slot_changed (λ node. bind_in node name fid))) }
    ensures err { OnErr result (IsSameSlots slots.old slots.new) }
{
    match slots.get_mut(&dir) {
        Some(slot) => slot::bind(slot, name, fid),
        None => Ok(()),
    }
}

// Unbinds a name in the directory at a fid.
fn unbind(slots: &mut FidMap<Option<Held>>, dir: Fid, name: &Name)
    requires { IsDirSlot (held_in (hash.get same_fid slots.old dir)) }
    ensures { AltersAt slots.old slots.new dir (slot_changed (λ node. unbind_in node name.now)) }
{
    if let Some(slot) = slots.get_mut(&dir) {
        slot::unbind(slot, name);
    }
}

// Binds a bound name of the directory at a fid to another fid.
fn rebind(slots: &mut FidMap<Option<Held>>, dir: Fid, name: &Name, fid: Fid)
    requires { MayRebindSlot (held_in (hash.get same_fid slots.old dir)) name.now }
    ensures { AltersAt slots.old slots.new dir (slot_changed (λ node. bind_in node name.now fid)) }
{
    if let Some(slot) = slots.get_mut(&dir) {
        slot::rebind(slot, name, fid);
    }
}

// Binds a free name in the directory at a fid. Takes no memory but the room.
fn take_back(slots: &mut FidMap<Option<Held>>, dir: Fid, name: Name, fid: Fid, room: Room)
    requires { MayTakeBackSlot (held_in (hash.get same_fid slots.old dir)) name room }
    ensures { AltersAt slots.old slots.new dir (slot_changed (λ node. bind_in node name fid)) }
{
    if let Some(slot) = slots.get_mut(&dir) {
        slot::take_back(slot, name, fid, room);
    }
}

// Writes a content with its time to the node at a fid, where there is one, and answers what these parts were.
fn exchange(
    slots: &mut FidMap<Option<Held>>,
    fid: Fid,
    content: Bytes,
    mtime: u64,
    sid: Sid,
) -> Option<Parts>
    ensures content { AltersAt slots.old slots.new fid (slot_changed (written (content_patch content mtime) sid)) }
    ensures before { result ≡ option_map (parts_before (Some content)) (node_held (held_in (hash.get same_fid slots.old fid))) }
{
    match slots.get_mut(&fid) {
        Some(slot) => slot::exchange(slot, content, mtime, sid),
        None => None,
    }
}

// Sets these parts of the node at a fid, where there is one.
fn give_back(slots: &mut FidMap<Option<Held>>, fid: Fid, parts: Parts)
    ensures { AltersAt slots.old slots.new fid (slot_changed (given_back parts)) }
{
    if let Some(slot) = slots.get_mut(&fid) {
        slot::give_back(slot, parts);
    }
}

// Sets attributes of the node at a fid, where there is one.
fn set_attributes(slots: &mut FidMap<Option<Held>>, fid: Fid, attrs: &Attrs, sid: Sid)
    ensures { AltersAt slots.old slots.new fid (slot_changed (written (attrs_patch attrs.now) sid)) }
{
    if let Some(slot) = slots.get_mut(&fid) {
        slot::set_attributes(slot, attrs, sid);
    }
}

// Puts a node in the place of the one at a fid, where there is one.
fn set(slots: &mut FidMap<Option<Held>>, fid: Fid, node: Node)
    ensures { AltersAt slots.old slots.new fid (slot_changed (λ _. node)) }
{
    if let Some(slot) = slots.get_mut(&fid) {
        slot::set(slot, node);
    }
}

// Keeps another directory as the one that binds the node at a fid.
fn set_parent(slots: &mut FidMap<Option<Held>>, fid: Fid, dir: Fid)
    ensures { AltersAt slots.old slots.new fid (slot_moved dir) }
{
    if let Some(slot) = slots.get_mut(&fid) {
        slot::set_parent(slot, dir);
    }
}

// Empties the slot at a fid, where there is one.
fn vacate(slots: &mut FidMap<Option<Held>>, fid: Fid) -> Option<Held>
    ensures held { result ≡ held_in (hash.get same_fid slots.old fid) }
    ensures empty { AltersAt slots.old slots.new fid (slot_with None) }
{
    match slots.get_mut(&fid) {
        Some(slot) => replace(slot, None),
        None => None,
    }
}

// How many slots are full, once one of them that was full or not is full or not.
fn recounted(full: usize, was: bool, is: bool) -> usize
    requires was { was ≡ true → 0 < full }
    requires small { full < 2 ^ 63 }
    ensures { result + cond was 1 0 ≡ full + cond is 1 0 }
{
    match (was, is) {
        (true, false) => full - 1,
        (false, true) => full + 1,
        (true, true) => full,
        (false, false) => full,
    }
}

// Whether a slot is there and full.
fn is_full(slot: &Option<Option<Held>>) -> bool
    ensures { result ≡ is_some (held_in slot.now) }
{
    match slot {
        Some(Some(_)) => true,
        Some(None) => false,
        None => false,
    }
}

// Whether the slot at a fid is there and empty.
fn is_empty(slots: &FidMap<Option<Held>>, fid: Fid) -> bool
    ensures { IsTrue result ↔ (hash.get same_fid slots.now fid ≡ Some None) }
{
    match slots.get(&fid) {
        Some(Some(_)) => false,
        Some(None) => true,
        None => false,
    }
}

// A copy of each slot.
fn copy_slots(alloc: Global, slots: &FidMap<Option<Held>>) -> Result<SlotTable, AllocError>
    ensures { IfOk result (λ s. s ≡ keyed slots.now.entries) }
{
    let mut copy = SlotTable::new(alloc);
    for (fid, slot) in slots {
        let slot = slot::copy(slot)?;
        drop(copy.put(*fid, slot)?);
    }
    Ok(copy)
}

impl SlotTable {
    // No slots.
    pub(crate) fn new(alloc: Global) -> SlotTable
        ensures { result ≡ map.empty }
    {
        SlotTable {
            alloc,
            slots: FidMap::with_hasher(alloc, BuildHasherDefault::new()),
            full: 0,
        }
    }

    // How many nodes there are.
    pub(crate) fn len(&self) -> usize
        ensures { result ≡ map.len (nodes_in self.now) }
    {
        self.full
    }

    // The node at a fid.
    pub(crate) fn get(&self, fid: Fid) -> Option<&Node>
        ensures { option_copied result ≡ map.get (nodes_in self.now) fid }
    {
        match self.slots.get(&fid) {
            Some(Some(held)) => Some(&held.node),
            Some(None) => None,
            None => None,
        }
    }

    // The directory that binds the node at a fid.
    pub(crate) fn parent(&self, fid: Fid) -> Option<Fid>
        ensures { result ≡ parent_in self.now fid }
    {
        match self.slots.get(&fid) {
            Some(Some(held)) => held.parent,
            Some(None) => None,
            None => None,
        }
    }

    // What the directory at a fid binds at a name.
    pub(crate) fn child(&self, dir: Fid, name: &Name) -> Option<Fid>
        ensures { result ≡ child (nodes_in self.now) dir name.now }
    {
        match self.get(dir) {
            Some(node) => match &node.kind {
                NodeKind::Dir(entries) => entries.find(name),
                NodeKind::File(_) => None,
                NodeKind::Link(_) => None,
            },
            None => None,
        }
    }

    // Puts this into the slot at a fid, and answers what was there. Only where the fid has no slot this wants memory, and
    // where there is none nothing changes.
    pub(crate) fn put(
        &mut self,
        fid: Fid,
        slot: Option<Held>,
    ) -> Result<Option<Option<Held>>, AllocError>
        ensures ok { OnOk result (self.new ≡ map.insert self.old fid slot) }
        ensures was { IfOk result (λ was. was ≡ map.get self.old fid) }
        ensures absent { OnErr result (map.get self.old fid ≡ None) }
        ensures err { OnErr result (self.new ≡ self.old) }
    {
        // There are no more nodes than slots, so the count stays in range.
        let _slots = self.slots.len();
        let is = slot.is_some();
        let was = self.slots.insert(fid, slot)?;
        self.full = recounted(self.full, is_full(&was), is);
        Ok(was)
    }

    // Takes the slot at a fid away, with what it holds.
    pub(crate) fn take_out(&mut self, fid: Fid)
        ensures { self.new ≡ map.remove self.old fid }
    {
        let _slots = self.slots.len();
        let was = self.slots.remove(&fid);
        self.full = recounted(self.full, is_full(&was), false);
    }

    // Empties the slot at a fid, where there is one.
    pub(crate) fn vacate(&mut self, fid: Fid) -> Option<Held>
        ensures held { result ≡ held_in (map.get self.old fid) }
        ensures empty { self.new ≡ altered self.old fid (slot_with None) }
    {
        let _slots = self.slots.len();
        let held = vacate(&mut self.slots, fid);
        self.full = recounted(self.full, held.is_some(), false);
        held
    }

    // Takes out what was put at a fid: the slot too, where the fid had none before.
    pub(crate) fn withdraw(&mut self, fid: Fid, fresh: bool)
        ensures { self.new ≡ withdrawn fresh self.old fid }
    {
        if fresh {
            self.take_out(fid);
        } else {
            let _ = self.vacate(fid);
        }
    }

    // Takes the slot at a fid away, where it is empty.
    pub(crate) fn purge(&mut self, fid: Fid)
        ensures { self.new ≡ purged self.old fid }
    {
        if is_empty(&self.slots, fid) {
            self.take_out(fid);
        }
    }

    // Binds a free name in a directory. Fails for want of memory alone, and then changes nothing.
    pub(crate) fn bind(&mut self, dir: Fid, name: Name, fid: Fid) -> Result<(), AllocError>
        requires dir_there { IsDirAt (nodes_in self.old) dir }
        requires name_free { child (nodes_in self.old) dir name ≡ None }
        ensures ok { OnOk result (self.new ≡ altered self.old dir (slot_changed (λ node. bind_in node name fid))) }
        ensures err { OnErr result (self.new ≡ self.old) }
    {
        bind(&mut self.slots, dir, name, fid)
    }

    // Unbinds a name in a directory.
    pub(crate) fn unbind(&mut self, dir: Fid, name: &Name)
        requires { IsDirAt (nodes_in self.old) dir }
        ensures { self.new ≡ altered self.old dir (slot_changed (λ node. unbind_in node name.now)) }
    {
        unbind(&mut self.slots, dir, name);
    }

    // Binds a bound name of a directory to another fid.
    pub(crate) fn rebind(&mut self, dir: Fid, name: &Name, fid: Fid)
        requires dir_there { IsDirAt (nodes_in self.old) dir }
        requires name_bound { IsSome (child (nodes_in self.old) dir name.now) }
        ensures { self.new ≡ altered self.old dir (slot_changed (λ node. bind_in node name.now fid)) }
    {
        rebind(&mut self.slots, dir, name, fid);
    }

    // Binds a free name in a directory. Takes no memory but the room.
    pub(crate) fn take_back(&mut self, dir: Fid, name: Name, fid: Fid, room: Room)
        requires { MayTakeBack self.old dir name room }
        ensures { self.new ≡ slots_bound self.old dir name fid }
    {
        take_back(&mut self.slots, dir, name, fid, room);
    }

    // Writes a content with its time to the node at a fid, where there is one, and answers what these parts were.
    pub(crate) fn exchange(
        &mut self,
        fid: Fid,
        content: Bytes,
        mtime: u64,
        sid: Sid,
    ) -> Option<Parts>
        ensures content { self.new ≡ altered self.old fid (slot_changed (written (content_patch content mtime) sid)) }
        ensures before { result ≡ option_map (parts_before (Some content)) (map.get (nodes_in self.old) fid) }
    {
        exchange(&mut self.slots, fid, content, mtime, sid)
    }

    // Sets these parts of the node at a fid, where there is one.
    pub(crate) fn give_back(&mut self, fid: Fid, parts: Parts)
        ensures { self.new ≡ altered self.old fid (slot_changed (given_back parts)) }
    {
        give_back(&mut self.slots, fid, parts);
    }

    // Puts this into a slot that is there. Takes no memory.
    pub(crate) fn fill(&mut self, fid: Fid, slot: Option<Held>)
        requires { HasSlot self.old fid }
        ensures { self.new ≡ map.insert self.old fid slot }
    {
        let put = self.put(fid, slot).is_ok();
        prove!(put);
    }

    // Undoes the edit that was made last. Takes no memory.
    pub(crate) fn undo(&mut self, undo: Undo)
        requires { MayUndo self.old undo }
        ensures { self.new ≡ undone self.old undo }
    {
        match undo {
            Undo::Added {
                dir,
                name,
                fid,
                fresh,
            } => {
                self.unbind(dir, &name);
                self.withdraw(fid, fresh);
            }
            Undo::Detached {
                dir,
                name,
                fid,
                held,
                room,
            } => {
                self.fill(fid, held);
                self.take_back(dir, name, fid, room);
            }
            Undo::Moved {
                from,
                name,
                to,
                new,
                fid,
                room,
            } => {
                self.set_parent(fid, from);
                self.take_back(from, name, fid, room);
                self.unbind(to, &new);
            }
            Undo::Replaced {
                old,
                held,
                from,
                name,
                to,
                new,
                fid,
                room,
            } => {
                self.set_parent(fid, from);
                self.fill(old, held);
                self.take_back(from, name, fid, room);
                self.rebind(to, &new, old);
            }
            Undo::Written { fid, parts } => self.give_back(fid, parts),
        }
    }

    // Undoes edits that were made in this order: the last of them first. Takes no memory.
    pub(crate) fn undo_all(&mut self, undos: Vec<Undo>)
        requires { MayUndoAll self.old undos.items }
        ensures { self.new ≡ undone_all self.old undos.items }
    {
        let mut undos = undos;
        while let Some(undo) = undos.pop() {
            self.undo(undo);
        }
    }

    // Takes the slots away that edits emptied, where they are empty still.
    pub(crate) fn purge_all(&mut self, undos: Vec<Undo>)
        ensures { self.new ≡ purged_all self.old undos.items }
    {
        let mut undos = undos;
        while let Some(undo) = undos.pop() {
            self.purge_after(undo);
        }
    }

    // Takes the slot away that an edit emptied, where it is empty still.
    fn purge_after(&mut self, undo: Undo)
        ensures { self.new ≡ purged_after self.old undo }
    {
        match undo {
            Undo::Added { .. } => {}
            Undo::Detached { fid, .. } => self.purge(fid),
            Undo::Moved { .. } => {}
            Undo::Replaced { old, .. } => self.purge(old),
            Undo::Written { .. } => {}
        }
    }

    // Sets attributes of the node at a fid, where there is one.
    pub(crate) fn set_attributes(&mut self, fid: Fid, attrs: &Attrs, sid: Sid)
        ensures { self.new ≡ altered self.old fid (slot_changed (written (attrs_patch attrs.now) sid)) }
    {
        set_attributes(&mut self.slots, fid, attrs, sid);
    }

    // Puts a node in the place of the one at a fid, where there is one.
    pub(crate) fn set(&mut self, fid: Fid, node: Node)
        ensures { self.new ≡ altered self.old fid (slot_changed (λ _. node)) }
    {
        set(&mut self.slots, fid, node);
    }

    // Keeps another directory as the one that binds the node at a fid.
    pub(crate) fn set_parent(&mut self, fid: Fid, dir: Fid)
        ensures { self.new ≡ altered self.old fid (slot_moved dir) }
    {
        set_parent(&mut self.slots, fid, dir);
    }

    // A copy with all content. Fails for want of memory alone.
    pub(crate) fn copy(&self) -> Result<SlotTable, AllocError>
        ensures { IfOk result (λ s. s ≡ self.now) }
    {
        copy_slots(self.alloc, &self.slots)
    }
}
