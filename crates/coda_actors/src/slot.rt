// What a cell has of an actor.
ghost use Rattle.std.specs.Prelude.{◌≡◌};

use crate::actor::Actor;
use coda_disk::Disk;
use coda_journal::Header;

/// What a cell has of an actor of type `A` on a disk of type `D`.
///
/// A call of the disk that fails takes the actor down where it stands: it stays here, and says so itself. A crash, and a mounting that
/// failed, leave its disk alone.
#[derive(Drop)]
pub enum Slot<A, D> {
    /// No line made it, and its disk is with the bay.
    Vacant,
    /// No line made it, and its disk was taken from the bay by one that found it foreign.
    Spare(D),
    /// It is down, and this is its disk. `header` is the one that it asks for.
    Stopped { header: Header, disk: D },
    /// It was mounted. It is up, unless a call of its disk failed since. `header` is the one that it asks for.
    Started { header: Header, actor: A },
}

impl<A, D> Slot<A, D> {
    ghost use Rattle.coda_actors.specs.Slots.{is_made};

    /// Whether a line made the actor.
    pub fn is_made(&self) -> bool
        ensures { result ≡ is_made self.now }
    {
        matches!(self, Slot::Stopped { .. } | Slot::Started { .. })
    }
}

impl<D: Disk, A: Actor<D>> Slot<A, D> {
    ghost use Rattle.coda_actors.specs.Slots.{is_up};

    /// Whether the actor is up.
    pub fn is_up(&self) -> bool
        ensures { result ≡ is_up A.form self.now }
    {
        match self {
            Slot::Started { actor, .. } => !actor.is_down(),
            _ => false,
        }
    }
}

/// How the mounting of a disk ended.
#[derive(Clone, Copy, Debug, PartialEq, Eq)]
pub enum Mounting {
    /// The actor is up with so many entries.
    Entries(u64),
    /// The disk is another's: this is the first place in it that differs from the header that was asked for.
    Foreign(u64),
    /// A call of the disk was refused.
    DiskFault,
    /// There was no memory for the actor.
    Memory,
}
