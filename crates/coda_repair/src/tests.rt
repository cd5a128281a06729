use crate::{RepairFault, RepairRecord, have_room, repair};
use coda_fid::{Fid, Name, Path, Sid};
use coda_record::{Lasts, View};
use coda_reslog::{Change, Held, HeldObjects, Ring};
use coda_resolve::are_in_order;
use coda_tree::{Entries, Node, NodeKind};
use coda_vv::Vv;
use std::alloc::Global;
use std::test::Fail;

// A directory: its place in volume 7, what it binds, and whether it is marked.
type Row = (u32, &'static [(&'static [u8], u32)], bool);

// The root binds `d` and `e`, and `d` is marked. The first server has `c` in `d`, and the second one in `e`, with a `b`
// in `d` that the first lacks.
const FIRST: [Row; 4] = [
    (0, &[(b"d", 1), (b"e", 2)], false),
    (1, &[(b"c", 3)], true),
    (2, &[], false),
    (3, &[], false),
];

const SECOND: [Row; 5] = [
    (0, &[(b"d", 1), (b"e", 2)], false),
    (1, &[(b"b", 4)], true),
    (2, &[(b"c", 3)], false),
    (3, &[], false),
    (4, &[], false),
];

// Paths that are repaired as a server has them, each with what is told of it.
const ANSWERS: [(u8, &[u8], Option<RepairFault>); 8] = [
    (1, b"/d", None),
    (2, b"/d", None),
    (3, b"/d", Some(RepairFault::NotFound)),
    (1, b"/e", Some(RepairFault::NotMarked)),
    (1, b"/", Some(RepairFault::NotMarked)),
    (1, b"/x", Some(RepairFault::NotFound)),
    (1, b"/d/c", Some(RepairFault::NotFound)),
    (2, b"/e/c", Some(RepairFault::NotFound)),
];

fn fid(vnode: u32) -> Fid {
    Fid {
        volume: 7,
        vnode,
        uniq: if vnode == 0 { 1 } else { vnode },
    }
}

fn entries(alloc: Global, bound: &[(&'static [u8], u32)]) -> Option<Entries> {
    let mut entries = Entries::new(alloc);
    for (name, vnode) in bound {
        let name = Name::read(alloc, name).ok()?;
        if entries.find(&name).is_some() {
            return None;
        }
        entries.insert(name, fid(*vnode)).ok()?;
    }
    Some(entries)
}

fn held(alloc: Global, bound: &[(&'static [u8], u32)], marked: bool) -> Option<Held> {
    let node = Node {
        kind: NodeKind::Dir(entries(alloc, bound)?),
        mode: 0o755,
        owner: 0,
        mtime: 0,
        sid: Sid {
            client: 0,
            number: 0,
        },
        marked,
    };
    Some(Held {
        node,
        vector: Vv([0; 8]),
        ring: Some(Ring::new(alloc).ok()?),
    })
}

fn view(alloc: Global, server: u8, rows: &[Row]) -> Option<View> {
    let mut items = Vec::new(alloc);
    for (vnode, bound, marked) in rows {
        let object = held(alloc, bound, *marked)?;
        items.push((fid(*vnode), object)).ok()?;
    }
    Some(View {
        server,
        volume: 7,
        held: HeldObjects::from_vec(items),
        lasts: Lasts::from_vec(Vec::new(alloc)),
    })
}

// What is answered of a path.
fn answered(alloc: Global, from: u8, path: &[u8]) -> Option<Result<RepairRecord, RepairFault>> {
    let views = [view(alloc, 1, &FIRST)?, view(alloc, 2, &SECOND)?];
    let path = Path::read(alloc, path).ok()?;
    if from < 1 || from > 8 || !are_in_order(&views) || !have_room(from, &views) {
        return None;
    }
    Some(repair(alloc, &views, from, &path))
}

#[test]
fn paths_are_found_and_marked(rt: HostRuntime) -> Result<(), Fail> {
    for (from, path, fault) in ANSWERS {
        let told = answered(rt.alloc(), from, path).ok_or("memory")?;
        assert_eq!(rt; told.err(), fault, "{from}");
    }
    Ok(())
}

// Whether the change has these objects, marked or not, and those go.
fn is_told(change: &Change, held: &[(u32, bool)], gone: &[u32]) -> bool {
    let objects = change.held.objects();
    let fids = change.gone.fids();
    if objects.len() != held.len() || fids.len() != gone.len() {
        return false;
    }
    for at in 0..objects.len().min(held.len()) {
        let (object, copy) = &objects[at];
        if *object != fid(held[at].0) || copy.node.marked != held[at].1 {
            return false;
        }
    }
    for at in 0..fids.len().min(gone.len()) {
        if fids[at] != fid(gone[at]) {
            return false;
        }
    }
    true
}

// `d` as the first server has it: the second one's `e` loses `c` and is marked, and its `b` goes.
#[test]
fn what_loses_is_marked(rt: HostRuntime) -> Result<(), Fail> {
    let told = answered(rt.alloc(), 1, b"/d").ok_or("memory")?;
    let record = told.map_err(|_| "no repair")?;
    let [(_, first), (_, second)] = record.changes.changes() else {
        return Err(Fail::from("changes"));
    };
    assert!(rt; is_told(first, &[(1, false), (3, false)], &[]));
    assert!(rt; is_told(second, &[(1, false), (2, true), (3, false)], &[4]));
    Ok(())
}
