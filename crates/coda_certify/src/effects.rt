ghost use Rattle.std.specs.Prelude.{◌≡◌, None, Some, IfOk, OnOk, OnErr};
ghost use Rattle.coda_tree.specs.Volume.{child, added, detached, moved, replaced, changed, written, content_patch, edited_all, IsLeaf, MayMove, MayReplace};
ghost use Rattle.coda_tree.specs.Drafted.{with_nodes, fresh_draft};
ghost use Rattle.coda_certify.specs.Checks.{rename_checks, first_reason, certify as certify_op};
ghost use Rattle.coda_certify.specs.Replay.{made, empty_file, empty_dir, new_link, rename_effects, applied, sid_of, MayCreate, MayRemove, MayRename, MayApply};

use coda_fid::{Bytes, Fid, Name, Op, Over, Record, Sid};
use coda_tree::{Draft, Entries, Node, NodeKind, NodeTable, Volume};
use std::alloc::{AllocError, Global};
use std::mem;

// The name of a client's operation.
fn sid_for(client: u8, rec: &Record) -> Sid
    ensures { result ≡ sid_of client rec.now }
{
    Sid {
        client,
        number: rec.number,
    }
}

// A node that is not marked.
fn make(kind: NodeKind, mode: u16, owner: u32, mtime: u64, sid: Sid) -> Node
    ensures { result ≡ made kind mode owner mtime sid }
{
    Node {
        kind,
        mode,
        owner,
        mtime,
        sid,
        marked: false,
    }
}

// An empty file. Fails for want of memory alone.
fn new_file(alloc: Global, mode: u16, owner: u32, mtime: u64, sid: Sid) -> Result<Node, AllocError>
    ensures made { IfOk result (λ node. node ≡ empty_file mode owner mtime sid) }
    ensures leaf { IfOk result IsLeaf }
{
    let content = Bytes::of(alloc, &[])?;
    Ok(make(NodeKind::File(content), mode, owner, mtime, sid))
}

// An empty directory.
fn new_dir(alloc: Global, mode: u16, owner: u32, mtime: u64, sid: Sid) -> Node
    ensures made { result ≡ empty_dir mode owner mtime sid }
    ensures leaf { IsLeaf result }
{
    make(NodeKind::Dir(Entries::new(alloc)), mode, owner, mtime, sid)
}

// A symbolic link. Fails for want of memory alone.
fn make_link(
    target: &Bytes,
    mode: u16,
    owner: u32,
    mtime: u64,
    sid: Sid,
) -> Result<Node, AllocError>
    ensures made { IfOk result (λ node. node ≡ new_link target.now mode owner mtime sid) }
    ensures leaf { IfOk result IsLeaf }
{
    let target = target.copy()?;
    Ok(make(NodeKind::Link(target), mode, owner, mtime, sid))
}

// Gives a file new content. Fails for want of memory alone, and then changes nothing.
fn store(
    draft: &mut Draft,
    fid: Fid,
    content: &Bytes,
    time: u64,
    sid: Sid,
) -> Result<(), AllocError>
    ensures ok { OnOk result (draft.new ≡ with_nodes draft.old (changed draft.old.nodes fid (written (content_patch content.now time) sid))) }
    ensures err { OnErr result (draft.new ≡ draft.old) }
{
    let content = content.copy()?;
    draft.store(fid, content, time, sid)
}

// Puts a new node into a volume. Fails for want of memory alone, and then changes nothing.
fn create(draft: &mut Draft, dir: Fid, name: &Name, fid: Fid, node: Node) -> Result<(), AllocError>
    requires free { MayCreate draft.old.nodes dir name.now fid }
    requires leaf { IsLeaf node }
    ensures ok { OnOk result (draft.new ≡ with_nodes draft.old (added draft.old.nodes dir name.now fid node)) }
    ensures err { OnErr result (draft.new ≡ draft.old) }
{
    draft.add(dir, name, fid, node)
}

// Takes an object out of a volume. Fails for want of memory alone, and then changes nothing.
fn remove(draft: &mut Draft, dir: Fid, name: &Name, fid: Fid) -> Result<(), AllocError>
    requires { MayRemove draft.old.nodes dir name.now fid }
    ensures ok { OnOk result (draft.new ≡ with_nodes draft.old (detached draft.old.nodes dir name.now fid)) }
    ensures err { OnErr result (draft.new ≡ draft.old) }
{
    draft.detach(dir, name, fid)
}

// Moves an object to a free name. Fails for want of memory alone, and then changes nothing.
fn move_to(
    draft: &mut Draft,
    from_dir: Fid,
    from: &Name,
    to_dir: Fid,
    to: &Name,
    fid: Fid,
) -> Result<(), AllocError>
    requires may { MayMove draft.old.nodes from_dir from.now to_dir to.now }
    requires bound { child draft.old.nodes from_dir from.now ≡ Some fid }
    ensures ok { OnOk result (draft.new ≡ with_nodes draft.old (moved draft.old.nodes from_dir from.now to_dir to.now fid)) }
    ensures err { OnErr result (draft.new ≡ draft.old) }
{
    draft.move_to(from_dir, from, to_dir, to, fid)
}

// Moves an object to the name of another, which is taken out. Fails for want of memory alone, and then changes nothing.
fn replace(
    draft: &mut Draft,
    old: Fid,
    from_dir: Fid,
    from: &Name,
    to_dir: Fid,
    to: &Name,
    fid: Fid,
) -> Result<(), AllocError>
    requires may { MayReplace draft.old.nodes old from_dir from.now to_dir to.now }
    requires bound { child draft.old.nodes from_dir from.now ≡ Some fid }
    ensures ok { OnOk result (draft.new ≡ with_nodes draft.old (replaced draft.old.nodes old from_dir from.now to_dir to.now fid)) }
    ensures err { OnErr result (draft.new ≡ draft.old) }
{
    draft.replace(old, from_dir, from, to_dir, to, fid)
}

// Renames an object. Fails for want of memory alone, and then changes nothing.
#[tactic(auto, unfolding(coda_tree::specs::Volume::moved, coda_tree::specs::Volume::replaced))]
fn rename(
    draft: &mut Draft,
    from_dir: Fid,
    from: &Name,
    to_dir: Fid,
    to: &Name,
    fid: Fid,
    over: Option<Over>,
) -> Result<(), AllocError>
    requires { first_reason draft.old.nodes (rename_checks from_dir from.now to_dir to.now fid over) ≡ None }
    ensures ok { OnOk result (draft.new ≡ with_nodes draft.old (edited_all draft.old.nodes (rename_effects from_dir from.now to_dir to.now fid over))) }
    ensures err { OnErr result (draft.new ≡ draft.old) }
{
    match over {
        None => move_to(draft, from_dir, from, to_dir, to, fid),
        Some(over) => replace(draft, over.fid, from_dir, from, to_dir, to, fid),
    }
}

// Renames an object in a table, likewise.
#[tactic(auto, unfolding(coda_tree::specs::Volume::moved, coda_tree::specs::Volume::replaced))]
fn rename_in_table(
    table: &mut NodeTable,
    from_dir: Fid,
    from: &Name,
    to_dir: Fid,
    to: &Name,
    fid: Fid,
    over: Option<Over>,
) -> Result<(), AllocError>
    requires { MayRename table.old from_dir to_dir to.now over }
    ensures ok { OnOk result (table.new ≡ edited_all table.old (rename_effects from_dir from.now to_dir to.now fid over)) }
    ensures err { OnErr result (table.new ≡ table.old) }
{
    match over {
        None => {
            let to = to.copy()?;
            table.move_to(from_dir, from, to_dir, to, fid)
        }
        Some(over) => {
            table.replace(over.fid, from_dir, from, to_dir, to, fid);
            Ok(())
        }
    }
}

// Puts a new node into a table. Fails for want of memory alone, and then changes nothing.
fn create_in_table(
    table: &mut NodeTable,
    dir: Fid,
    name: &Name,
    fid: Fid,
    node: Node,
) -> Result<(), AllocError>
    requires { MayCreate table.old dir name.now fid }
    ensures ok { OnOk result (table.new ≡ added table.old dir name.now fid node) }
    ensures err { OnErr result (table.new ≡ table.old) }
{
    let name = name.copy()?;
    table.create(dir, name, fid, node)
}

// Applies a client's operation that certification does not refuse, in a draft of the volume. Fails for want of memory
// alone, and then changes nothing.
#[tactic(auto, unfolding(crate::specs::Replay::applied, coda_tree::specs::Volume::added, coda_tree::specs::Volume::detached, coda_tree::specs::Volume::moved, coda_tree::specs::Volume::replaced))]
pub(crate) fn apply_in(
    alloc: Global,
    draft: &mut Draft,
    client: u8,
    rec: &Record,
) -> Result<(), AllocError>
    requires { certify_op draft.old.nodes rec.now.op ≡ None }
    ensures ok { OnOk result (draft.new ≡ with_nodes draft.old (applied draft.old.nodes client rec.now)) }
    ensures err { OnErr result (draft.new ≡ draft.old) }
{
    let sid = sid_for(client, rec);
    match &rec.op {
        Op::Create {
            dir,
            name,
            fid,
            mode,
            owner,
        } => {
            let file = new_file(alloc, *mode, *owner, rec.time, sid)?;
            create(draft, *dir, name, *fid, file)
        }
        Op::Mkdir {
            dir,
            name,
            fid,
            mode,
            owner,
        } => {
            let new = new_dir(alloc, *mode, *owner, rec.time, sid);
            create(draft, *dir, name, *fid, new)
        }
        Op::Symlink {
            dir,
            name,
            fid,
            target,
            mode,
            owner,
        } => {
            let link = make_link(target, *mode, *owner, rec.time, sid)?;
            create(draft, *dir, name, *fid, link)
        }
        Op::Store { fid, content, .. } => store(draft, *fid, content, rec.time, sid),
        Op::Setattr { fid, attrs, .. } => { draft.set_attributes(*fid, attrs, sid) }
        Op::Remove { dir, name, fid, .. } => { remove(draft, *dir, name, *fid) }
        Op::Rmdir { dir, name, fid, .. } => { remove(draft, *dir, name, *fid) }
        Op::Rename {
            from_dir,
            from,
            to_dir,
            to,
            fid,
            over,
        } => rename(draft, *from_dir, from, *to_dir, to, *fid, *over),
    }
}

/// Applies a client's operation that certification does not refuse.
///
/// A creation puts its object into the volume, with the record's time and the version that client and number name, and
/// binds it. A store sets content, time and version, and a change of attributes the given ones and the version. A removal
/// unbinds its object and takes it out. A rename binds its object under the new name alone and changes no version; a
/// replaced object is taken out.
///
/// # Errors
///
/// Fails for want of memory alone, and then changes nothing.
pub fn apply(alloc: Global, volume: &mut Volume, client: u8, rec: &Record) -> Result<(), AllocError>
    requires { certify_op volume.old.nodes rec.now.op ≡ None }
    ensures ok { OnOk result (volume.new ≡ record volume.old { nodes = applied volume.old.nodes client rec.now }) }
    ensures err { OnErr result (volume.new ≡ volume.old) }
{
    let mut draft = start(alloc, volume)?;
    let applied = apply_in(alloc, &mut draft, client, rec);
    *volume = match applied {
        Ok(()) => draft.commit(),
        Err(_) => draft.roll_back(),
    };
    applied
}

// A draft of the volume, in whose place an empty one stands until the draft ends. Fails for want of memory alone, and
// then changes nothing.
pub(crate) fn start(alloc: Global, volume: &mut Volume) -> Result<Draft, AllocError>
    ensures ok { IfOk result (λ draft. draft ≡ fresh_draft volume.old) }
    ensures err { OnErr result (volume.new ≡ volume.old) }
{
    let empty = Volume::new(alloc, volume.number())?;
    Ok(Draft::of(alloc, mem::replace(volume, empty)))
}

/// Applies a client's operation to the copies of nodes that the client has, as [`apply`] does to a
/// volume.
///
/// # Errors
///
/// Fails for want of memory alone, and then changes nothing.
#[tactic(auto, unfolding(crate::specs::Replay::applied, coda_tree::specs::Volume::added, coda_tree::specs::Volume::detached, coda_tree::specs::Volume::moved, coda_tree::specs::Volume::replaced))]
pub fn apply_to_table(
    alloc: Global,
    table: &mut NodeTable,
    client: u8,
    rec: &Record,
) -> Result<(), AllocError>
    requires { MayApply table.old rec.now.op }
    ensures ok { OnOk result (table.new ≡ applied table.old client rec.now) }
    ensures err { OnErr result (table.new ≡ table.old) }
{
    let sid = sid_for(client, rec);
    match &rec.op {
        Op::Create {
            dir,
            name,
            fid,
            mode,
            owner,
        } => {
            let node = new_file(alloc, *mode, *owner, rec.time, sid)?;
            create_in_table(table, *dir, name, *fid, node)
        }
        Op::Mkdir {
            dir,
            name,
            fid,
            mode,
            owner,
        } => {
            let node = new_dir(alloc, *mode, *owner, rec.time, sid);
            create_in_table(table, *dir, name, *fid, node)
        }
        Op::Symlink {
            dir,
            name,
            fid,
            target,
            mode,
            owner,
        } => {
            let node = make_link(target, *mode, *owner, rec.time, sid)?;
            create_in_table(table, *dir, name, *fid, node)
        }
        Op::Store { fid, content, .. } => {
            let content = content.copy()?;
            table.store(*fid, content, rec.time, sid);
            Ok(())
        }
        Op::Setattr { fid, attrs, .. } => {
            table.set_attributes(*fid, attrs, sid);
            Ok(())
        }
        Op::Remove { dir, name, fid, .. } => {
            table.detach(*dir, name, *fid);
            Ok(())
        }
        Op::Rmdir { dir, name, fid, .. } => {
            table.detach(*dir, name, *fid);
            Ok(())
        }
        Op::Rename {
            from_dir,
            from,
            to_dir,
            to,
            fid,
            over,
        } => rename_in_table(table, *from_dir, from, *to_dir, to, *fid, *over),
    }
}
