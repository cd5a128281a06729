// The lines of a volume's objects in path order, by a stack of the directories whose entries are left.
ghost use Rattle.std.specs.Prelude.{◌≡◌, ◌≤◌, ◌∷◌, [], ◌++◌, ◌-◌, ℕ, List, OnOk, length, reverse, string_bytes};
ghost use Rattle.std.specs.List.{flat_map};
ghost use Rattle.coda_report.specs.Volumes.{kind_text, content_text, mark_text, attributes_text, line_at, object_line, path_order};
ghost use Rattle.coda_report.specs.Walking.{shown_path, object_head, own_line, turns_below, turns_of, Nest};

use crate::paths::{push_name, shown_path};
use crate::printing::{MOST_CONTENT, put_content, put_fid, put_mode, put_next_number, put_sid};
use coda_fid::Fid;
use coda_text::{put_byte, put_printed};
use coda_tree::{Entries, Node, NodeKind, Volume};
use std::alloc::{AllocError, Global};

// How many entries are read ahead of their lines.
const AHEAD: usize = 64;

// How many entries a narrow directory has at most.
const NARROW: usize = 1024;

// The bytes of a line beside its path and content, about.
const LINE: usize = 64;

/// A directory whose entries are being shown.
#[derive(Clone, Copy)]
pub struct Frame<'a> {
    /// What it binds.
    pub entries: &'a Entries,
    /// The index of the next entry.
    pub next: usize,
    /// The length of the directory's path.
    pub length: usize,
}

// The word for a kind.
fn kind_word(kind: &NodeKind) -> &'static str
    ensures { result.now ≡ kind_text kind.now }
{
    match kind {
        NodeKind::File(_) => "file",
        NodeKind::Link(_) => "link",
        NodeKind::Dir(_) => "dir",
    }
}

fn put_attributes(out: &mut String, node: &Node) -> Result<(), AllocError>
    ensures { OnOk result (string_bytes out.new ≡ string_bytes out.old ++ attributes_text node.now) }
{
    put_mode(out, node.mode)?;
    put_next_number(out, u64::from(node.owner))?;
    put_next_number(out, node.mtime)?;
    put_byte(out, b' ')?;
    put_sid(out, node.sid)
}

fn put_kind_content(out: &mut String, kind: &NodeKind) -> Result<(), AllocError>
    ensures { OnOk result (string_bytes out.new ≡ string_bytes out.old ++ content_text kind.now) }
{
    match kind {
        NodeKind::File(content) => {
            put_next_number(out, content.len() as u64)?;
            put_byte(out, b' ')?;
            put_content(out, content.bytes())
        }
        NodeKind::Link(target) => {
            put_byte(out, b' ')?;
            put_content(out, target.bytes())
        }
        NodeKind::Dir(_) => Ok(()),
    }
}

fn put_mark(out: &mut String, marked: bool) -> Result<(), AllocError>
    ensures { OnOk result (string_bytes out.new ≡ string_bytes out.old ++ mark_text marked) }
{
    if marked {
        out.push_str(" marked")
    } else {
        Ok(())
    }
}

// What the line of an object begins with: its path, kind and fid.
fn put_object_head(
    out: &mut String,
    path: &[u8],
    fid: Fid,
    kind: &NodeKind,
) -> Result<(), AllocError>
    ensures { OnOk result (string_bytes out.new ≡ string_bytes out.old ++ object_head path.now fid kind.now) }
{
    put_printed(out, shown_path(path))?;
    put_byte(out, b' ')?;
    out.push_str(kind_word(kind))?;
    put_byte(out, b' ')?;
    put_fid(out, fid)?;
    put_byte(out, b' ')
}

fn put_object_line(out: &mut String, path: &[u8], fid: Fid, node: &Node) -> Result<(), AllocError>
    ensures { OnOk result (string_bytes out.new ≡ string_bytes out.old ++ line_at (shown_path path.now) fid node.now) }
{
    put_object_head(out, path, fid, &node.kind)?;
    put_attributes(out, node)?;
    put_kind_content(out, &node.kind)?;
    put_mark(out, node.marked)?;
    put_byte(out, b'\n')
}

// Puts the line of the object at a path, where levels are left and a node stands there, and a frame for the entries of a
// directory.
fn show_object<'a>(
    out: &mut String,
    volume: &'a Volume,
    levels: usize,
    path: &[u8],
    frames: &mut Vec<Frame<'a>>,
    fid: Fid,
) -> Result<(), AllocError>
    ensures line { OnOk result (string_bytes out.new ≡ string_bytes out.old ++ own_line volume.now.nodes (levels - length frames.old.items) path.now fid) }
    ensures turns { OnOk result (turns_of volume.now.nodes levels path.now (reverse frames.new.items)
        ≡ turns_below volume.now.nodes (levels - length frames.old.items) path.now fid ++ turns_of volume.now.nodes levels path.now (reverse frames.old.items)) }
    ensures nest { OnOk result (Nest path.now (reverse frames.old.items) → Nest path.now (reverse frames.new.items)) }
{
    if frames.len() >= levels {
        return Ok(());
    }
    match volume.get(fid) {
        Some(node) => {
            put_object_line(out, path, fid, node)?;
            match &node.kind {
                NodeKind::Dir(entries) => {
                    frames.push(Frame {
                        entries,
                        next: 0,
                        length: path.len(),
                    })?;
                    Ok(())
                }
                NodeKind::File(_) => Ok(()),
                NodeKind::Link(_) => Ok(()),
            }
        }
        None => Ok(()),
    }
}

// The bytes that an object's line takes beside its path, about.
fn room_of(node: &Node) -> usize {
    match &node.kind {
        NodeKind::File(content) => content.len().min(MOST_CONTENT) + LINE,
        NodeKind::Link(target) => target.len().min(MOST_CONTENT) + LINE,
        NodeKind::Dir(_) => LINE,
    }
}

// The bytes that the lines of the next entries take beside their paths, about.
fn room_ahead(volume: &Volume, entries: &Entries, from: usize) -> usize {
    let mut room = 0usize;
    for index in from..entries.len().min(from.saturating_add(AHEAD)) {
        if let Some((_, fid)) = entries.at(index) {
            room = room.saturating_add(volume.get(fid).map_or(0, room_of));
        }
    }
    room
}

// Makes room for the lines of the next entries, where their turn comes. Their objects are read one right behind the other
// here, so that memory that is far away answers for many at a time, and isn't waited for line by line. To find an entry
// takes a step for each page before it, so only narrow directories are read ahead.
fn make_room(out: &mut String, volume: &Volume, frame: Frame) -> Result<(), AllocError>
    ensures { OnOk result (string_bytes out.new ≡ string_bytes out.old) }
{
    if frame.next % AHEAD == 0 && frame.entries.len() <= NARROW {
        out.reserve(room_ahead(volume, frame.entries, frame.next))?;
    }
    Ok(())
}

// Takes a turn of the topmost frame, which was taken off: shows its next entry and puts it back, or leaves the directory.
fn take_turn<'a>(
    out: &mut String,
    volume: &'a Volume,
    levels: usize,
    path: &mut Vec<u8>,
    frames: &mut Vec<Frame<'a>>,
    frame: Frame<'a>,
) -> Result<(), AllocError>
    requires { Nest path.old.items (frame ∷ reverse frames.old.items) }
    ensures turn { OnOk result ((turn : List ℕ) × (string_bytes out.new ≡ string_bytes out.old ++ turn)
        × (turns_of volume.now.nodes levels path.old.items (frame.entry ∷ reverse frames.old.items)
        ≡ turn ∷ turns_of volume.now.nodes levels path.new.items (reverse frames.new.items))) }
    ensures nest { OnOk result (Nest path.new.items (reverse frames.new.items)) }
{
    path.truncate(frame.length);
    if frame.next >= frame.entries.len() {
        return Ok(());
    }
    make_room(out, volume, frame)?;
    let (name, fid) = frame.entries.at(frame.next).unwrap();
    frames.push(Frame {
        entries: frame.entries,
        next: frame.next + 1,
        length: frame.length,
    })?;
    push_name(path, name)?;
    show_object(out, volume, levels, path, frames, fid)
}

/// Puts the lines of an object of a volume and of all that stands below it, in path order.
pub fn put_objects(
    out: &mut String,
    alloc: Global,
    volume: &Volume,
    root: Fid,
) -> Result<(), AllocError>
    ensures { OnOk result (string_bytes out.new ≡ string_bytes out.old ++ flat_map object_line (path_order root volume.now.nodes)) }
{
    let levels = volume.len();
    let mut path = Vec::new(alloc);
    let mut frames = Vec::new(alloc);
    show_object(out, volume, levels, &path, &mut frames, root)?;
    while let Some(frame) = frames.pop() {
        take_turn(out, volume, levels, &mut path, &mut frames, frame)?;
    }
    Ok(())
}
