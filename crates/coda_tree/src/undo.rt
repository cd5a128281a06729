use crate::entries::Room;
use crate::node::Parts;
use crate::slot::Held;
use coda_fid::{Fid, Name};

// How an edit of slots is undone. To undo takes no memory: what it needs of it is kept here.
#[derive(Drop)]
pub(crate) enum Undo {
    // A node was put at a fid, whose slot was fresh or not, and bound.
    Added {
        dir: Fid,
        name: Name,
        fid: Fid,
        fresh: bool,
    },
    // What its slot held was taken out of it, and unbound.
    Detached {
        dir: Fid,
        name: Name,
        fid: Fid,
        held: Option<Held>,
        room: Room,
    },
    // An object was bound at a new name in place of the old one.
    Moved {
        from: Fid,
        name: Name,
        to: Fid,
        new: Name,
        fid: Fid,
        room: Room,
    },
    // Likewise, and what the new name was bound to was taken out of its slot.
    Replaced {
        old: Fid,
        held: Option<Held>,
        from: Fid,
        name: Name,
        to: Fid,
        new: Name,
        fid: Fid,
        room: Room,
    },
    // Parts of a node were written.
    Written {
        fid: Fid,
        parts: Parts,
    },
}
