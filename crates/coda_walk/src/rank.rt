ghost use Rattle.std.specs.Prelude.{◌≡◌};
ghost use Rattle.coda_walk.specs.Queue.{rank_of, may_leave};

use crate::Item;
use coda_fid::Fid;
use std::cmp::Reverse;

// An item, and when it was used: at a later time than all that were used before it.
#[derive(Clone, Copy, Debug)]
pub(crate) struct Standing {
    pub item: Item,
    pub used: u64,
}

// Who goes before whom of the items that may go: by priority, the least first; of those without one by their use, and of the
// others by fid, the greatest first.
#[derive(Clone, Copy, Debug, PartialEq, Eq, PartialOrd, Ord)]
pub(crate) struct Rank {
    pub priority: u16,
    pub used: u64,
    pub fid: Reverse<Fid>,
}

// The rank of an item.
pub(crate) fn rank_of(standing: &Standing) -> Rank
    ensures { result ≡ rank_of standing.now }
{
    let item = &standing.item;
    let used = if item.priority == 0 { standing.used } else { 0 };
    Rank {
        priority: item.priority,
        used,
        fid: Reverse(item.fid),
    }
}

// Whether an item with so many others under it may go, where nothing is kept.
pub(crate) fn may_leave(standing: &Standing, under: u64) -> bool
    ensures { result ≡ may_leave under standing.now }
{
    !standing.item.pinned && under == 0
}
