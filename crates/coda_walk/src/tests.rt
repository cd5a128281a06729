use crate::{Item, plan};
use coda_fid::Fid;
use std::alloc::{AllocError, Global};
use std::test::Fail;

// What a cache has of an object.
#[derive(Clone, Copy, PartialEq, Eq)]
enum Held {
    Pinned,
    Served,
    Unserved,
    Missing,
}

use Held::{Missing, Pinned, Served, Unserved};

// An object's number, which is 0 for the root; its parent's; its priority; its blocks; and what the cache has of it.
type Given = (u32, u32, u16, u32, Held);

// Objects, the cached ones in the order of their use, and a size; and the plan for them.
struct Row {
    says: &'static str,
    items: &'static [Given],
    recency: &'static [u32],
    size: u32,
    keep: &'static [u32],
    fetch: &'static [u32],
    drop: &'static [u32],
}

const ROWS: [Row; 9] = [
    Row {
        says: "of the same priority the smaller fid is taken first",
        items: &[
            (0, 0, 0, 1, Served),
            (2, 0, 5, 1, Missing),
            (1, 0, 5, 1, Missing),
        ],
        recency: &[0],
        size: 2,
        keep: &[0],
        fetch: &[1],
        drop: &[],
    },
    Row {
        says: "a greater priority goes before a smaller fid",
        items: &[
            (0, 0, 0, 1, Served),
            (1, 0, 5, 1, Missing),
            (2, 0, 6, 1, Missing),
        ],
        recency: &[0],
        size: 2,
        keep: &[0],
        fetch: &[2],
        drop: &[],
    },
    Row {
        says: "a directory above two candidates counts once, and is fetched before them",
        items: &[
            (0, 0, 0, 1, Served),
            (1, 9, 5, 1, Missing),
            (2, 9, 6, 1, Missing),
            (9, 0, 0, 3, Missing),
        ],
        recency: &[0],
        size: 6,
        keep: &[0],
        fetch: &[9, 1, 2],
        drop: &[],
    },
    Row {
        says: "with the directory above it a candidate doesn't fit, and the next one does",
        items: &[
            (0, 0, 0, 1, Served),
            (1, 9, 6, 1, Missing),
            (2, 0, 5, 4, Missing),
            (9, 0, 0, 4, Missing),
        ],
        recency: &[0],
        size: 5,
        keep: &[0],
        fetch: &[2],
        drop: &[],
    },
    Row {
        says: "a pinned object of priority 0 stays, and what isn't pinned goes for a candidate",
        items: &[
            (0, 0, 0, 1, Pinned),
            (1, 0, 0, 3, Pinned),
            (2, 0, 0, 1, Served),
            (3, 0, 9, 2, Missing),
        ],
        recency: &[1, 2, 0],
        size: 6,
        keep: &[0, 1],
        fetch: &[3],
        drop: &[2],
    },
    Row {
        says: "a candidate that doesn't fit beside the pinned objects isn't taken, and nothing goes for it",
        items: &[
            (0, 0, 0, 1, Pinned),
            (1, 0, 0, 3, Pinned),
            (2, 0, 0, 1, Served),
            (3, 0, 9, 2, Missing),
        ],
        recency: &[1, 2, 0],
        size: 5,
        keep: &[0, 1, 2],
        fetch: &[],
        drop: &[],
    },
    Row {
        says: "a candidate larger than the size isn't taken, and a smaller one of less priority is",
        items: &[
            (0, 0, 0, 1, Served),
            (1, 0, 9, 10, Missing),
            (2, 0, 1, 2, Missing),
        ],
        recency: &[0],
        size: 4,
        keep: &[0],
        fetch: &[2],
        drop: &[],
    },
    Row {
        says: "a candidate that is cached and may not be served is fetched",
        items: &[
            (0, 0, 0, 1, Served),
            (1, 0, 2, 1, Unserved),
            (2, 0, 3, 1, Served),
        ],
        recency: &[2, 1, 0],
        size: 3,
        keep: &[0, 2],
        fetch: &[1],
        drop: &[],
    },
    Row {
        says: "with no candidate the least recently used go, as few as make the rest fit",
        items: &[
            (0, 0, 0, 1, Served),
            (1, 0, 0, 2, Served),
            (2, 0, 0, 2, Served),
        ],
        recency: &[0, 2, 1],
        size: 3,
        keep: &[0, 1],
        fetch: &[],
        drop: &[2],
    },
];

fn fid(number: u32) -> Fid {
    Fid {
        volume: 7,
        vnode: number,
        uniq: 1,
    }
}

fn item(given: &Given) -> Item {
    let (object, parent, priority, blocks, held) = *given;
    Item {
        fid: fid(object),
        parent: if object == 0 { None } else { Some(fid(parent)) },
        priority,
        blocks,
        cached: held != Missing,
        served: held == Served || held == Pinned,
        pinned: held == Pinned,
    }
}

fn items(alloc: Global, given: &[Given]) -> Result<Vec<Item>, AllocError> {
    let mut items = Vec::new(alloc);
    for one in given {
        items.push(item(one))?;
    }
    Ok(items)
}

fn fids(alloc: Global, numbers: &[u32]) -> Result<Vec<Fid>, AllocError> {
    let mut fids = Vec::new(alloc);
    for number in numbers {
        fids.push(fid(*number))?;
    }
    Ok(fids)
}

#[test]
fn plans_are_as_the_rows_say(rt: HostRuntime) -> Result<(), Fail> {
    let alloc = rt.alloc();
    for row in &ROWS {
        let items = items(alloc, row.items)?;
        let plan = plan(alloc, &items, &fids(alloc, row.recency)?, row.size)?;
        assert_eq!(rt; plan.keep, fids(alloc, row.keep)?, "keep: {}", row.says);
        assert_eq!(rt; plan.fetch, fids(alloc, row.fetch)?, "fetch: {}", row.says);
        assert_eq!(rt; plan.drop, fids(alloc, row.drop)?, "drop: {}", row.says);
    }
    Ok(())
}
