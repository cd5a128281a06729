// Which nodes a journal can keep.
ghost use Rattle.std.specs.Prelude.{◌≡◌, ◌<◌};
ghost use Rattle.std.specs.FinMap as map;
ghost use Rattle.coda_fid.specs.declared.fid.Fid.{Fid as AFid};
ghost use Rattle.coda_record.specs.Spelling.{HasSpelling};
ghost use Rattle.coda_record.specs.Table.{fid as a_fid, name as a_name};
ghost use Rattle.coda_serving.specs.Spelling.{can_be_spelled, AreSpelledTo};

use coda_fid::{Fid, Name};
use coda_tree::{Entries, Node, NodeKind};

/// The longest content of a file, in bytes.
const LONGEST_CONTENT: usize = 1_048_576;

/// The longest target of a link, in bytes.
const LONGEST_TARGET: usize = 1_024;

/// The greatest number of an operation, and the most names of a directory.
const GREATEST_NUMBER: u64 = 4_294_967_295;

// A fact of the type of names: each can be spelled.
fn name_spelled(name: &Name)
    ensures { HasSpelling a_name name.now }
{
    // Its clause says that they are a name.
    let _bytes = name.bytes();
}

// A fact of the type of fids: each can be spelled.
fn parts_spelled(volume: u32, vnode: u32, uniq: u32)
    ensures { (f : AFid) → f.volume ≡ volume → f.vnode ≡ vnode → f.uniq ≡ uniq → HasSpelling a_fid f }
{}

// Both of them, of a name and the object that it is bound to.
fn pair_spelled(name: &Name, fid: Fid)
    ensures name { HasSpelling a_name name.now }
    ensures fid { HasSpelling a_fid fid }
{
    name_spelled(name);
    parts_spelled(fid.volume, fid.vnode, fid.uniq);
}

// The same of all that a directory binds.
fn pairs_spelled(entries: &Entries)
    ensures { AreSpelledTo (map.len entries.now) (map.entries entries.now) }
{
    for index in 0..entries.len() {
        match entries.at(index) {
            Some((name, fid)) => pair_spelled(name, fid),
            None => unreachable!(),
        }
    }
}

// A fact of the types of a node's fields: each is in its range.
fn fields_in_range(mode: u16, owner: u32, mtime: u64, client: u8)
    ensures { (mode < 65536) × (owner < 4294967296) × (mtime < 18446744073709551616) × (client < 256) }
{}

/// Whether a node is within the ranges of its format, so that a journal can keep it: it costs what a directory binds.
pub fn can_be_spelled(node: &Node) -> bool
    ensures { result ≡ can_be_spelled node.now }
{
    if node.sid.number > GREATEST_NUMBER {
        return false;
    }
    fields_in_range(node.mode, node.owner, node.mtime, node.sid.client);
    match &node.kind {
        NodeKind::File(content) => content.len() <= LONGEST_CONTENT,
        NodeKind::Link(target) => !target.is_empty() && target.len() <= LONGEST_TARGET,
        NodeKind::Dir(entries) => {
            pairs_spelled(entries);
            entries.len() as u64 <= GREATEST_NUMBER
        }
    }
}
