//! Nodes, read from the front of what is left and written behind what is there.
ghost use Rattle.std.specs.Prelude.{◌≡◌, ◌++◌, ◌∷◌, [], OnOk, IfOk, Some, None, true};
ghost use Rattle.std.specs.List.{flat_map};
ghost use Rattle.std.specs.FinMap as map;
ghost use Rattle.coda_values.specs.Form.{gives, together, four};
ghost use Rattle.coda_values.specs.Parts.{u8 as a_u8, u16 as a_u16, u32 as a_u32, u64 as a_u64, items, flag as a_flag};
ghost use Rattle.coda_values.specs.Spelling.{HasSpelling};
ghost use Rattle.coda_values.specs.Table.{sid as a_sid, name as a_name, fid as a_fid};
ghost use Rattle.coda_values.specs.Nodes.{comes_after as may_come_after, last_name, binding_after as a_binding_after, pairs as some_pairs, bindings as some_bindings, file_form, link_form, dir_form, node as a_node};
ghost use Rattle.coda_values.specs.Reading.{read};
ghost use Rattle.coda_values.specs.Outcome.{Gives};

use crate::cursor::Cursor;
use crate::fault::Fault;
use crate::parts::{bytes_between, name};
use crate::reading::{fid, sid};
use crate::writing::{put_bytes, put_fid, put_name, put_sid, put_u8, put_u16, put_u32, put_u64};
use coda_fid::{Fid, Name};
use coda_tree::{Entries, Node, NodeKind};
use std::alloc::{AllocError, Global};

/// The longest content of a file, in bytes.
const LONGEST_CONTENT: u32 = 1_048_576;

/// The longest target of a link, in bytes.
const LONGEST_TARGET: u32 = 1_024;

fn flag(cursor: &mut Cursor) -> Result<bool, Fault>
    ensures { Gives (λ b. (b, cursor.new)) result (read a_flag.form cursor.old) }
{
    let tag = cursor.tag()?;
    match tag.byte {
        0 => Ok(false),
        1 => Ok(true),
        _ => Err(tag.unknown()),
    }
}

// Whether a name may stand behind those that are bound.
fn comes_after(before: &Entries, name: &Name) -> bool
    ensures { result ≡ may_come_after (last_name (map.entries before.now)) name.now }
{
    match before.at(before.len().saturating_sub(1)) {
        None => true,
        Some((greatest, _)) => greatest.compare(name).is_lt(),
    }
}

// A binding whose name comes after those before it.
#[tactic(auto, unfolding(crate::specs::Nodes::binding_after))]
fn binding_after(alloc: Global, cursor: &mut Cursor, before: &Entries) -> Result<(Name, Fid), Fault>
    ensures gives { Gives (λ b. (b, cursor.new)) result (read (a_binding_after (last_name (map.entries before.now))).form cursor.old) }
    ensures after { IfOk result (λ b. may_come_after (last_name (map.entries before.now)) b.0 ≡ true) }
{
    let left = cursor.left();
    let name = name(alloc, cursor)?;
    if !comes_after(before, &name) {
        return Err(Fault::Broken { left });
    }
    let fid = fid(cursor)?;
    Ok((name, fid))
}

// So many bindings with increasing names.
fn bindings_of(alloc: Global, cursor: &mut Cursor, count: u32) -> Result<Entries, Fault>
    ensures { Gives (λ e. (map.entries e, cursor.new)) result (read (items a_binding_after (λ b. Some b.0) None count (λ bs. gives bs)) cursor.old) }
{
    let mut bindings = Entries::new(alloc);
    for _ in 0..count {
        let (name, fid) = binding_after(alloc, cursor, &bindings)?;
        bindings.insert(name, fid)?;
    }
    Ok(bindings)
}

// Bindings with increasing names.
#[tactic(auto, unfolding(crate::specs::Nodes::pairs))]
fn pairs(alloc: Global, cursor: &mut Cursor) -> Result<Entries, Fault>
    ensures { Gives (λ e. (map.entries e, cursor.new)) result (read some_pairs.form cursor.old) }
{
    let count = cursor.u32()?;
    bindings_of(alloc, cursor, count)
}

// What a directory binds.
fn bindings(alloc: Global, cursor: &mut Cursor) -> Result<Entries, Fault>
    ensures { Gives (λ b. (b, cursor.new)) result (read some_bindings.form cursor.old) }
{
    pairs(alloc, cursor)
}

#[tactic(auto, unfolding(crate::specs::Nodes::file_form))]
fn file(alloc: Global, cursor: &mut Cursor) -> Result<Node, Fault>
    ensures { Gives (λ n. (n, cursor.new)) result (read (file_form four) cursor.old) }
{
    let marked = flag(cursor)?;
    let mode = cursor.u16()?;
    let owner = cursor.u32()?;
    let mtime = cursor.u64()?;
    let sid = sid(cursor)?;
    let content = bytes_between(alloc, cursor, 0, LONGEST_CONTENT)?;
    Ok(Node {
        kind: NodeKind::File(content),
        mode,
        owner,
        mtime,
        sid,
        marked,
    })
}

#[tactic(auto, unfolding(crate::specs::Nodes::link_form))]
fn link(alloc: Global, cursor: &mut Cursor) -> Result<Node, Fault>
    ensures { Gives (λ n. (n, cursor.new)) result (read (link_form four) cursor.old) }
{
    let marked = flag(cursor)?;
    let mode = cursor.u16()?;
    let owner = cursor.u32()?;
    let mtime = cursor.u64()?;
    let sid = sid(cursor)?;
    let target = bytes_between(alloc, cursor, 1, LONGEST_TARGET)?;
    Ok(Node {
        kind: NodeKind::Link(target),
        mode,
        owner,
        mtime,
        sid,
        marked,
    })
}

#[tactic(auto, unfolding(crate::specs::Nodes::dir_form))]
fn directory(alloc: Global, cursor: &mut Cursor) -> Result<Node, Fault>
    ensures { Gives (λ n. (n, cursor.new)) result (read dir_form cursor.old) }
{
    let marked = flag(cursor)?;
    let mode = cursor.u16()?;
    let owner = cursor.u32()?;
    let mtime = cursor.u64()?;
    let sid = sid(cursor)?;
    let entries = bindings(alloc, cursor)?;
    Ok(Node {
        kind: NodeKind::Dir(entries),
        mode,
        owner,
        mtime,
        sid,
        marked,
    })
}

/// A node.
#[tactic(auto, unfolding(crate::specs::Nodes::node))]
pub fn node(alloc: Global, cursor: &mut Cursor) -> Result<Node, Fault>
    ensures { Gives (λ n. (n, cursor.new)) result (read (a_node four).form cursor.old) }
{
    let tag = cursor.tag()?;
    match tag.byte {
        1 => file(alloc, cursor),
        2 => link(alloc, cursor),
        3 => directory(alloc, cursor),
        _ => Err(tag.unknown()),
    }
}

fn put_flag(out: &mut Vec<u8>, flag: bool) -> Result<(), AllocError>
    ensures { OnOk result (out.new.items ≡ out.old.items ++ (a_flag.piece flag).bytes) }
{
    if flag { put_u8(out, 1) } else { put_u8(out, 0) }
}

// A name with what it is bound to.
#[tactic(auto, unfolding(crate::specs::Nodes::binding_after))]
fn put_binding(out: &mut Vec<u8>, name: &Name, fid: Fid) -> Result<(), AllocError>
    ensures { OnOk result (out.new.items ≡ out.old.items ++ ((a_binding_after None).piece (name.now, fid)).bytes) }
{
    put_name(out, name)?;
    put_fid(out, fid)
}

// Bindings, one after the other.
fn put_all_bindings(out: &mut Vec<u8>, entries: &Entries) -> Result<(), AllocError>
    ensures { OnOk result (out.new.items ≡ out.old.items ++ flat_map (λ b. ((a_binding_after None).piece b).bytes) (map.entries entries.now)) }
{
    for index in 0..entries.len() {
        match entries.at(index) {
            Some((name, fid)) => put_binding(out, name, fid)?,
            None => unreachable!(),
        }
    }
    Ok(())
}

// What a directory binds.
fn put_bindings(out: &mut Vec<u8>, entries: &Entries) -> Result<(), AllocError>
    requires { HasSpelling some_bindings entries.now }
    ensures { OnOk result (out.new.items ≡ out.old.items ++ (some_bindings.piece entries.now).bytes) }
{
    put_u32(out, entries.len() as u32)?;
    put_all_bindings(out, entries)
}

// What stands in a node before what it holds.
fn put_status(out: &mut Vec<u8>, kind: u8, node: &Node) -> Result<(), AllocError>
    ensures { OnOk result (out.new.items ≡ out.old.items ++ (together (a_u8.piece kind ∷ a_flag.piece node.now.marked ∷ a_u16.piece node.now.mode ∷ a_u32.piece node.now.owner ∷ a_u64.piece node.now.mtime ∷ a_sid.piece node.now.sid ∷ [])).bytes) }
{
    put_u8(out, kind)?;
    put_flag(out, node.marked)?;
    put_u16(out, node.mode)?;
    put_u32(out, node.owner)?;
    put_u64(out, node.mtime)?;
    put_sid(out, node.sid)
}

/// A node.
#[tactic(auto, unfolding(crate::specs::Nodes::node))]
pub fn put_node(out: &mut Vec<u8>, node: &Node) -> Result<(), AllocError>
    requires { HasSpelling (a_node four) node.now }
    ensures { OnOk result (out.new.items ≡ out.old.items ++ ((a_node four).piece node.now).bytes) }
{
    match &node.kind {
        NodeKind::File(content) => {
            put_status(out, 1, node)?;
            put_bytes(out, content)
        }
        NodeKind::Link(target) => {
            put_status(out, 2, node)?;
            put_bytes(out, target)
        }
        NodeKind::Dir(entries) => {
            put_status(out, 3, node)?;
            put_bindings(out, entries)
        }
    }
}
