// What replicas hold, as lines say it.
use crate::words::{number, parts, word};
use coda_fid::{Bytes, Fid, Name, Sid};
use coda_record::{Lasts, View};
use coda_reslog::{Held, HeldObjects, Lost, ResEntry, ResKind, Ring};
use coda_tree::{Entries, Node, NodeKind};
use coda_vv::Vv;
use std::alloc::Global;

/// What an update did, by its word.
const KINDS: &[(&str, ResKind)] = &[
    ("add", ResKind::Add),
    ("drop", ResKind::Drop),
    ("rename", ResKind::Rename),
    ("cross", ResKind::Cross),
    ("attr", ResKind::Attr),
];

// The object at a place of volume 7; that at 0 is the root.
fn fid(text: &str, at: usize) -> Fid {
    let vnode = number(text, at).min(1000) as u32;
    Fid {
        volume: 7,
        vnode,
        uniq: if vnode == 0 { 1 } else { vnode },
    }
}

// The updates of the first three servers.
fn vector(text: &str, at: usize) -> Vv {
    let at = at.min(100);
    Vv([
        number(text, at),
        number(text, at + 1),
        number(text, at + 2),
        0,
        0,
        0,
        0,
        0,
    ])
}

// What an update of this word did.
fn kind_of(word: &str) -> Option<ResKind> {
    for row in KINDS {
        if row.0 == word {
            return Some(row.1);
        }
    }
    None
}

// The name at a place, where one stands there.
fn name(alloc: Global, text: &str, at: usize) -> Option<Name> {
    Name::read(alloc, word(text, at).as_bytes()).ok()
}

// The name at a place, unless a bar stands there.
fn name_unless(alloc: Global, text: &str, at: usize) -> Option<Name> {
    if word(text, at) == "-" {
        return None;
    }
    name(alloc, text, at)
}

// What the parts of an object bind.
fn entries(alloc: Global, parts: &[&str]) -> Option<Entries> {
    let mut entries = Entries::new(alloc);
    for part in parts {
        if word(part, 1) == "binds" {
            let name = name(alloc, part, 2)?;
            if entries.find(&name).is_some() {
                return None;
            }
            entries.insert(name, fid(part, 3)).ok()?;
        }
    }
    Some(entries)
}

// What an update took out, with what updates were in it.
fn lost(part: &str) -> Option<Lost> {
    if word(part, 8) != "lost" {
        return None;
    }
    Some(Lost {
        fid: fid(part, 9),
        vector: vector(part, 10),
    })
}

// An update in a log.
fn update(alloc: Global, part: &str) -> Option<ResEntry> {
    let seq = number(part, 3);
    Some(ResEntry {
        origin: number(part, 2).min(8) as u8,
        seq,
        sid: Sid {
            client: 1,
            number: seq,
        },
        kind: kind_of(word(part, 4))?,
        name: name_unless(alloc, part, 5),
        other: name_unless(alloc, part, 6),
        fid: fid(part, 7),
        lost: lost(part),
    })
}

// The log that the parts of a directory say.
fn ring(alloc: Global, parts: &[&str]) -> Option<Ring> {
    let mut ring = Ring::new(alloc).ok()?;
    for part in parts {
        if word(part, 1) == "did" {
            let _ = ring.push(update(alloc, part)?);
        }
    }
    Some(ring)
}

// What a file holds.
fn content(alloc: Global, parts: &[&str]) -> Option<Bytes> {
    for part in parts {
        if word(part, 1) == "holds" {
            return Bytes::of(alloc, word(part, 2).as_bytes()).ok();
        }
    }
    None
}

// What an object is, and its log where it is a directory.
fn kind(alloc: Global, parts: &[&str], is_dir: bool) -> Option<(NodeKind, Option<Ring>)> {
    if is_dir {
        let entries = entries(alloc, parts)?;
        let ring = ring(alloc, parts)?;
        return Some((NodeKind::Dir(entries), Some(ring)));
    }
    let content = content(alloc, parts)?;
    Some((NodeKind::File(content), None))
}

// What a line says of an object.
fn held(alloc: Global, line: &str) -> Option<Held> {
    let parts = parts(alloc, line, ';');
    let (kind, ring) = kind(alloc, &parts, word(line, 1) == "dir")?;
    let node = Node {
        kind,
        mode: 0o755,
        owner: 0,
        mtime: 0,
        sid: Sid {
            client: 0,
            number: 0,
        },
        marked: line.ends_with("; marked"),
    };
    Some(Held {
        node,
        vector: vector(line, 2),
        ring,
    })
}

// What a replica holds: the objects on these lines, up to one that isn't one's.
fn view(alloc: Global, server: u8, lines: &[&str]) -> Option<View> {
    let mut items = Vec::new(alloc);
    for line in lines {
        if line.is_empty() || *line == "replica" {
            break;
        }
        let held = held(alloc, line)?;
        items.push((fid(line, 0), held)).ok()?;
    }
    Some(View {
        server,
        volume: 7,
        held: HeldObjects::from_vec(items),
        lasts: Lasts::from_vec(Vec::new(alloc)),
    })
}

/// The replicas on these lines, up to an empty one: the first is that of server 1.
pub fn views(alloc: Global, lines: &[&str]) -> Option<Vec<View>> {
    let mut views = Vec::new(alloc);
    let mut server = 1u8;
    for at in 0..lines.len() {
        if lines[at].is_empty() {
            break;
        }
        if lines[at] == "replica" {
            views
                .push(view(alloc, server, lines.get(at + 1..).unwrap_or(&[]))?)
                .ok()?;
            server = server.saturating_add(1);
        }
    }
    Some(views)
}
