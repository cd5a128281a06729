ghost use Rattle.std.specs.Prelude.{option_map, ◌≡◌, Some, None, IfOk, OnOk, OnErr};
ghost use Rattle.coda_tree.specs.Volume.{written, content_patch, attrs_patch, bind_in, unbind_in};
ghost use Rattle.coda_tree.specs.Slots.{node_held, slot_changed, slot_moved, slot_with};
ghost use Rattle.coda_tree.specs.Parts.{parts_before, given_back};
ghost use Rattle.coda_tree.specs.SlotSteps.{IsDirSlot, MayBindSlot, MayRebindSlot, MayTakeBackSlot};

use crate::Node;
use crate::entries::Room;
use crate::node::Parts;
use coda_fid::{Attrs, Bytes, Fid, Name, Sid};
use std::alloc::AllocError;

// A node, and the directory that binds it. The root has none.
#[derive(Drop)]
pub(crate) struct Held {
    pub(crate) node: Node,
    pub(crate) parent: Option<Fid>,
}

// Binds a free name in the directory that is held.
pub(crate) fn bind(slot: &mut Option<Held>, name: Name, fid: Fid) -> Result<(), AllocError>
    requires { MayBindSlot slot.old name }
    ensures ok { OnOk result (slot.new ≡ slot_changed (λ node. bind_in node name fid) slot.old) }
    ensures err { OnErr result (slot.new ≡ slot.old) }
{
    match slot {
        Some(held) => held.node.bind(name, fid),
        None => Ok(()),
    }
}

// Unbinds a name in the directory that is held.
pub(crate) fn unbind(slot: &mut Option<Held>, name: &Name)
    requires { IsDirSlot slot.old }
    ensures { slot.new ≡ slot_changed (λ node. unbind_in node name.now) slot.old }
{
    if let Some(held) = slot {
        held.node.unbind(name);
    }
}

// Binds a bound name of the directory that is held to another fid.
pub(crate) fn rebind(slot: &mut Option<Held>, name: &Name, fid: Fid)
    requires { MayRebindSlot slot.old name.now }
    ensures { slot.new ≡ slot_changed (λ node. bind_in node name.now fid) slot.old }
{
    if let Some(held) = slot {
        held.node.rebind(name, fid);
    }
}

// Binds a free name in the directory that is held. Takes no memory but the room.
pub(crate) fn take_back(slot: &mut Option<Held>, name: Name, fid: Fid, room: Room)
    requires { MayTakeBackSlot slot.old name room }
    ensures { slot.new ≡ slot_changed (λ node. bind_in node name fid) slot.old }
{
    if let Some(held) = slot {
        held.node.take_back(name, fid, room);
    }
}

// Writes a content with its time to the node that is held, and answers what these parts were.
pub(crate) fn exchange(
    slot: &mut Option<Held>,
    content: Bytes,
    mtime: u64,
    sid: Sid,
) -> Option<Parts>
    ensures content { slot.new ≡ slot_changed (written (content_patch content mtime) sid) slot.old }
    ensures before { result ≡ option_map (parts_before (Some content)) (node_held slot.old) }
{
    match slot {
        Some(held) => Some(held.node.exchange(content, mtime, sid)),
        None => None,
    }
}

// Sets these parts of the node that is held.
pub(crate) fn give_back(slot: &mut Option<Held>, parts: Parts)
    ensures { slot.new ≡ slot_changed (given_back parts) slot.old }
{
    if let Some(held) = slot {
        held.node.give_back(parts);
    }
}

// Sets attributes of the node that is held.
pub(crate) fn set_attributes(slot: &mut Option<Held>, attrs: &Attrs, sid: Sid)
    ensures { slot.new ≡ slot_changed (written (attrs_patch attrs.now) sid) slot.old }
{
    if let Some(held) = slot {
        held.node.set_attributes(attrs, sid);
    }
}

// Puts a node in the place of the one that is held.
pub(crate) fn set(slot: &mut Option<Held>, node: Node)
    ensures { slot.new ≡ slot_changed (λ _. node) slot.old }
{
    if let Some(held) = slot {
        held.node = node;
    }
}

// Keeps another directory as the one that binds the node that is held.
pub(crate) fn set_parent(slot: &mut Option<Held>, dir: Fid)
    ensures { slot.new ≡ slot_moved dir slot.old }
{
    if let Some(held) = slot {
        held.parent = Some(dir);
    }
}

// A copy with all content. Fails for want of memory alone.
pub(crate) fn copy(slot: &Option<Held>) -> Result<Option<Held>, AllocError>
    ensures { IfOk result (λ s. s ≡ slot.now) }
{
    match slot {
        Some(held) => {
            let node = held.node.copy()?;
            Ok(Some(Held {
                node,
                parent: held.parent,
            }))
        }
        None => Ok(None),
    }
}
