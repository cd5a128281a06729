ghost use Rattle.std.specs.Prelude.{◌+◌, option_map, ◌<◌, ℕ, ◌≡◌, ◌↔◌, true, List, Some, None, IfOk, OnOk, OnErr, IsSome, IsSomeAnd, IsTrue, is_some, option_copied};
ghost use Rattle.std.specs.FinMap as map;
ghost use Rattle.coda_fid.specs.Fid.{root_of};
ghost use Rattle.coda_tree.specs.Tree.{IsBelow, AtDepth};
ghost use Rattle.coda_tree.specs.Volume.{child, has, written, content_patch, attrs_patch, fresh_root, parent_of, below_within, is_below, IsVolume, IsDirAt, IsLeaf, BindsAsMuch, MayMove, MayReplace};
ghost use Rattle.coda_tree.specs.Slots.{nodes_in, held_in, altered, slot_changed, purged, Slotted};
ghost use Rattle.coda_tree.specs.Parts.{parts_before};
ghost use Rattle.coda_tree.specs.Keeping.{IsKeptIn};
ghost use Rattle.coda_tree.specs.Undoing.{Undoes, count_of, MayUndoAll, undone_all, purged_all};
ghost use Rattle.coda_tree.specs.declared.undo.Undo.TheVariants.{Added, Detached, Moved, Replaced};
ghost use Rattle.coda_tree.specs.SlotEdits.{slots_bound, slots_unbound, slots_added, slots_detached, slots_moved, slots_replaced};

use crate::entries::Room;
use crate::node::Parts;
use crate::slot::Held;
use crate::slots::SlotTable;
use crate::undo::Undo;
use crate::{Entries, Node, NodeKind};
use coda_fid::{Attrs, Bytes, Fid, Name, Sid};
use std::alloc::{AllocError, Global};
use std::marker::Model;

/// The objects of a volume, as volumes and drafts of them keep them: for each fid that has one a slot, which a node
/// fills or nothing.
///
/// The nodes are always those of a volume. Contracts see the number and a finite map from fids to what their slots hold;
/// `nodes_in` of it are the nodes. A fid is found by its hash, and with it the directory that binds it.
#[derive(Drop)]
pub struct Body {
    number: u32,
    slots: SlotTable,
}

impl Model for Body {
    ghost use Rattle.coda_tree.specs.Slots.{Slotted, coded_slotted};
    ghost use Rattle.coda_tree.specs.contracts.slot.Held as held_row;

    ghost Value = { Slotted };

    ghost coded = { coded_slotted held_row.the_row.coded };

    ghost use Rattle.coda_tree.specs.Bodies.{slotted_of, IsKeptBody};

    ghost view = { slotted_of };

    ghost invariant = { IsKeptBody };
}

// The root of a fresh volume.
fn root_node(alloc: Global) -> Node
    ensures { result ≡ fresh_root }
{
    Node {
        kind: NodeKind::Dir(Entries::new(alloc)),
        mode: 0o755,
        owner: 0,
        mtime: 0,
        sid: Sid {
            client: 0,
            number: 0,
        },
        marked: false,
    }
}

impl Body {
    // An empty root directory alone. Fails for want of memory alone.
    pub(crate) fn new(alloc: Global, number: u32) -> Result<Body, AllocError>
        ensures { IfOk result (λ b. b ≡ record { number = number; slots = map.insert map.empty (root_of number) (Some (record { node = fresh_root; parent = None })) }) }
    {
        let mut slots = SlotTable::new(alloc);
        let root = Held {
            node: root_node(alloc),
            parent: None,
        };
        let _ = slots.put(Fid::root(number), Some(root))?;
        Ok(Body { number, slots })
    }

    /// The volume's number, which gives its root's fid.
    pub fn number(&self) -> u32
        ensures number { result ≡ self.now.number }
        ensures volume { IsVolume (root_of self.now.number) (nodes_in self.now.slots) }
        ensures kept { IsKeptIn self.now.number self.now.slots }
    {
        self.number
    }

    /// How many nodes there are, the root among them. Each is reached from the root by fewer bindings than that.
    pub fn len(&self) -> usize
        ensures count { result ≡ map.len (nodes_in self.now.slots) }
        ensures volume { IsVolume (root_of self.now.number) (nodes_in self.now.slots) }
        ensures depth { (depth : ℕ) (f : Fid) → AtDepth (child (nodes_in self.now.slots)) (root_of self.now.number) depth f → depth < result }
    {
        self.slots.len()
    }

    /// The node at a fid.
    pub fn get(&self, fid: Fid) -> Option<&Node>
        ensures { option_copied result ≡ map.get (nodes_in self.now.slots) fid }
    {
        self.slots.get(fid)
    }

    /// What the directory at a fid binds at a name; `None` too where no directory stands there.
    pub fn child(&self, dir: Fid, name: &Name) -> Option<Fid>
        ensures { result ≡ child (nodes_in self.now.slots) dir name.now }
    {
        self.slots.child(dir, name)
    }

    /// Whether a node is another or stands below it. Takes time in the depth of the first.
    #[tactic(auto, unfolding(crate::specs::Volume::is_below))]
    pub fn is_below(&self, fid: Fid, of: Fid) -> bool
        ensures exact { result ≡ is_below (nodes_in self.now.slots) fid of }
        ensures below { has (nodes_in self.now.slots) fid ≡ true → (IsTrue result ↔ IsBelow (child (nodes_in self.now.slots)) of fid) }
    {
        self.climbs_to(fid, of, self.len())
    }

    // Puts a node that binds nothing at a free fid and binds it in a directory at a free name. Answers whether the fid had
    // no slot. Fails for want of memory alone, and then changes nothing.
    pub(crate) fn add(
        &mut self,
        dir: Fid,
        name: Name,
        fid: Fid,
        node: Node,
    ) -> Result<bool, AllocError>
        requires dir_there { IsDirAt (nodes_in self.old.slots) dir }
        requires name_free { child (nodes_in self.old.slots) dir name ≡ None }
        requires fid_free { map.get (nodes_in self.old.slots) fid ≡ None }
        requires leaf { IsLeaf node }
        ensures ok { OnOk result (self.new ≡ record self.old { slots = slots_added self.old.slots dir name fid node }) }
        ensures back { IfOk result (λ fresh. Undoes self.old.slots self.new.slots (Added dir name fid fresh)) }
        ensures fresh { IfOk result (λ fresh. IsTrue fresh ↔ (map.get self.old.slots fid ≡ None)) }
        ensures err { OnErr result (self.new ≡ self.old) }
    {
        let held = Held {
            node,
            parent: Some(dir),
        };
        let was = self.slots.put(fid, Some(held))?;
        let fresh = was.is_none();
        match self.slots.bind(dir, name, fid) {
            Ok(()) => Ok(fresh),
            Err(e) => {
                self.slots.withdraw(fid, fresh);
                Err(e)
            }
        }
    }

    // Takes a node that binds nothing out of the directory that binds it, and out of its slot, which stays.
    pub(crate) fn detach(&mut self, dir: Fid, name: &Name, fid: Fid) -> Option<Held>
        requires bound { child (nodes_in self.old.slots) dir name.now ≡ Some fid }
        requires leaf { (n : List ℕ) → child (nodes_in self.old.slots) fid n ≡ None }
        ensures held { result ≡ held_in (map.get (slots_unbound self.old.slots dir name.now) fid) }
        ensures back { (room : ℕ) → count_of (map.get (nodes_in self.old.slots) dir) + 1 < room → Undoes self.old.slots self.new.slots (Detached dir name.now fid result room) }
        ensures slots { self.new ≡ record self.old { slots = slots_detached self.old.slots dir name.now fid } }
    {
        self.slots.unbind(dir, name);
        self.slots.vacate(fid)
    }

    // Moves a node to a free name of a directory that does not stand at or below it. Fails for want of memory alone, and
    // then changes nothing.
    pub(crate) fn move_to(
        &mut self,
        from: Fid,
        name: &Name,
        to: Fid,
        new: Name,
        fid: Fid,
    ) -> Result<(), AllocError>
        requires may { MayMove (nodes_in self.old.slots) from name.now to new }
        requires bound { child (nodes_in self.old.slots) from name.now ≡ Some fid }
        ensures back { (room : ℕ) → count_of (map.get (nodes_in self.old.slots) from) + 1 < room → OnOk result (Undoes self.old.slots self.new.slots (Moved from name.now to new fid room)) }
        ensures ok { OnOk result (self.new ≡ record self.old { slots = slots_moved self.old.slots from name.now to new fid }) }
        ensures err { OnErr result (self.new ≡ self.old) }
    {
        self.slots.bind(to, new, fid)?;
        self.slots.unbind(from, name);
        self.slots.set_parent(fid, to);
        Ok(())
    }

    // Moves a node that binds nothing to the name of another that binds nothing, which is taken out of its slot. Takes no
    // memory.
    pub(crate) fn replace(
        &mut self,
        old: Fid,
        from: Fid,
        name: &Name,
        to: Fid,
        new: &Name,
        fid: Fid,
    ) -> Option<Held>
        requires may { MayReplace (nodes_in self.old.slots) old from name.now to new.now }
        requires bound { child (nodes_in self.old.slots) from name.now ≡ Some fid }
        ensures held { result ≡ held_in (map.get (slots_unbound (slots_bound self.old.slots to new.now fid) from name.now) old) }
        ensures back { (room : ℕ) → count_of (map.get (nodes_in self.old.slots) from) + 1 < room → Undoes self.old.slots self.new.slots (Replaced old result from name.now to new.now fid room) }
        ensures slots { self.new ≡ record self.old { slots = slots_replaced self.old.slots old from name.now to new.now fid } }
    {
        self.slots.rebind(to, new, fid);
        self.slots.unbind(from, name);
        let held = self.slots.vacate(old);
        self.slots.set_parent(fid, to);
        held
    }

    // Sets the content of the file at a fid, the time, and the version that this leaves, and answers what these parts
    // were. Takes no memory.
    pub(crate) fn exchange(
        &mut self,
        fid: Fid,
        content: Bytes,
        mtime: u64,
        sid: Sid,
    ) -> Option<Parts>
        ensures content { self.new ≡ record self.old { slots = altered self.old.slots fid (slot_changed (written (content_patch content mtime) sid)) } }
        ensures before { result ≡ option_map (parts_before (Some content)) (map.get (nodes_in self.old.slots) fid) }
    {
        self.slots.exchange(fid, content, mtime, sid)
    }

    // The parts of the node at a fid that a change of attributes sets.
    pub(crate) fn parts(&self, fid: Fid) -> Option<Parts>
        ensures { result ≡ option_map (parts_before None) (map.get (nodes_in self.now.slots) fid) }
    {
        match self.slots.get(fid) {
            Some(node) => Some(node.parts()),
            None => None,
        }
    }

    // Memory in which a directory can take back a name that it is to lose.
    pub(crate) fn room(&self, dir: Fid) -> Result<Room, AllocError>
        requires { IsDirAt (nodes_in self.now.slots) dir }
        ensures { IfOk result (λ room. count_of (map.get (nodes_in self.now.slots) dir) + 1 < room) }
    {
        match self.slots.get(dir) {
            Some(node) => node.room(),
            None => unreachable!(),
        }
    }

    // Undoes edits that were made in this order: the last of them first. Takes no memory.
    pub(crate) fn undo_all(&mut self, undos: Vec<Undo>)
        requires may { MayUndoAll self.old.slots undos.items }
        requires kept { IsKeptIn self.old.number (undone_all self.old.slots undos.items) }
        ensures { self.new ≡ record self.old { slots = undone_all self.old.slots undos.items } }
    {
        self.slots.undo_all(undos);
    }

    // Takes the slots away that edits emptied, where they are empty still.
    pub(crate) fn purge_all(&mut self, undos: Vec<Undo>)
        ensures { self.new ≡ record self.old { slots = purged_all self.old.slots undos.items } }
    {
        self.slots.purge_all(undos);
    }

    // Sets attributes of the node at a fid, and the version that this leaves. Takes no memory.
    pub(crate) fn set_attributes(&mut self, fid: Fid, attrs: &Attrs, sid: Sid)
        ensures { self.new ≡ record self.old { slots = altered self.old.slots fid (slot_changed (written (attrs_patch attrs.now) sid)) } }
    {
        self.slots.set_attributes(fid, attrs, sid);
    }

    // Puts a node in the place of one that binds the same, where a directory stays one. Takes no memory.
    pub(crate) fn set(&mut self, fid: Fid, node: Node)
        requires { IsSomeAnd (map.get (nodes_in self.old.slots) fid) (λ was. BindsAsMuch was node) }
        ensures { self.new ≡ record self.old { slots = altered self.old.slots fid (slot_changed (λ _. node)) } }
    {
        self.slots.set(fid, node);
    }

    // Takes the slot at a fid away, where it is empty.
    pub(crate) fn purge(&mut self, fid: Fid)
        ensures { self.new ≡ record self.old { slots = purged self.old.slots fid } }
    {
        self.slots.purge(fid);
    }

    // A copy with all content. Fails for want of memory alone.
    pub(crate) fn copy(&self) -> Result<Body, AllocError>
        ensures { IfOk result (λ b. b ≡ self.now) }
    {
        let slots = self.slots.copy()?;
        Ok(Body {
            number: self.number,
            slots,
        })
    }

    // The directory that binds a node.
    fn parent(&self, fid: Fid) -> Option<Fid>
        ensures { result ≡ parent_of (nodes_in self.now.slots) fid }
    {
        self.slots.parent(fid)
    }

    // Whether the way up from a node meets another within so many steps.
    fn climbs_to(&self, fid: Fid, of: Fid, steps: usize) -> bool
        ensures { result ≡ below_within (nodes_in self.now.slots) steps fid of }
    {
        let mut at = fid;
        for _step in 0..steps {
            if at == of {
                return true;
            }
            match self.parent(at) {
                Some(up) => at = up,
                None => return false,
            }
        }
        at == of
    }
}
