ghost use Rattle.std.specs.Prelude.{◌≡◌};
ghost use Rattle.std.specs.FinMap as map;
ghost use Rattle.coda_tree.specs.Volume.{child, is_below};
ghost use Rattle.coda_tree.specs.Slots.{nodes_in};
ghost use Rattle.coda_certify.specs.Checks.{is_no_dir, is_dir, is_no_file, no_dir_of, marked_of, no_object_of, wrong_kind_of, same_object_of, name_taken_of, name_other_of, fid_used_of, change_of, version_of, not_empty_of, loop_of, full_of};
ghost use Rattle.coda_certify.specs.Checks.{creation_checks, store_checks, setattr_checks, remove_checks, rmdir_checks, move_checks, replace_checks, first_reason, certify as certify_op};

use crate::Reason;
use coda_fid::{Fid, Name, Op, Over, Record, Sid};
use coda_tree::{Body, NodeKind, Volume};

/// The most objects that a volume has.
const MOST_OBJECTS: usize = 100_000;

// No directory stands there.
fn no_dir(body: &Body, dir: Fid) -> Option<Reason>
    ensures { result ≡ no_dir_of (map.get (nodes_in body.now.slots) dir) dir }
{
    match body.get(dir) {
        Some(node) => match &node.kind {
            NodeKind::Dir(_) => None,
            NodeKind::File(_) | NodeKind::Link(_) => Some(Reason::NoDir(dir)),
        },
        None => Some(Reason::NoDir(dir)),
    }
}

// What stands there is marked as in conflict.
fn marked(body: &Body, fid: Fid) -> Option<Reason>
    ensures { result ≡ marked_of (map.get (nodes_in body.now.slots) fid) fid }
{
    match body.get(fid) {
        Some(node) => {
            if node.marked {
                Some(Reason::Marked(fid))
            } else {
                None
            }
        }
        None => None,
    }
}

// No object stands there.
fn no_object(body: &Body, fid: Fid) -> Option<Reason>
    ensures { result ≡ no_object_of (map.get (nodes_in body.now.slots) fid) fid }
{
    match body.get(fid) {
        Some(_) => None,
        None => Some(Reason::NoObject(fid)),
    }
}

// What stands there is no file.
fn not_a_file(body: &Body, fid: Fid) -> Option<Reason>
    ensures { result ≡ wrong_kind_of is_no_file (map.get (nodes_in body.now.slots) fid) fid }
{
    match body.get(fid) {
        Some(node) => match &node.kind {
            NodeKind::File(_) => None,
            NodeKind::Link(_) | NodeKind::Dir(_) => Some(Reason::WrongKind(fid)),
        },
        None => None,
    }
}

// What stands there is a directory.
fn a_directory(body: &Body, fid: Fid) -> Option<Reason>
    ensures { result ≡ wrong_kind_of is_dir (map.get (nodes_in body.now.slots) fid) fid }
{
    match body.get(fid) {
        Some(node) => match &node.kind {
            NodeKind::Dir(_) => Some(Reason::WrongKind(fid)),
            NodeKind::File(_) | NodeKind::Link(_) => None,
        },
        None => None,
    }
}

// What stands there is no directory.
fn not_a_directory(body: &Body, fid: Fid) -> Option<Reason>
    ensures { result ≡ wrong_kind_of is_no_dir (map.get (nodes_in body.now.slots) fid) fid }
{
    match body.get(fid) {
        Some(node) => match &node.kind {
            NodeKind::Dir(_) => None,
            NodeKind::File(_) | NodeKind::Link(_) => Some(Reason::WrongKind(fid)),
        },
        None => None,
    }
}

// The replaced object is the moved one.
fn same_object(replaced: Fid, fid: Fid) -> Option<Reason>
    ensures { result ≡ same_object_of replaced fid }
{
    if replaced == fid {
        Some(Reason::WrongKind(fid))
    } else {
        None
    }
}

// The directory binds the name.
fn name_taken(body: &Body, dir: Fid, name: &Name) -> Option<Reason>
    ensures { result ≡ name_taken_of (child (nodes_in body.now.slots) dir name.now) }
{
    body.child(dir, name).map(Reason::NameTaken)
}

// The directory doesn't bind the name to the object.
fn name_other(body: &Body, dir: Fid, name: &Name, fid: Fid) -> Option<Reason>
    ensures { result ≡ name_other_of (child (nodes_in body.now.slots) dir name.now) fid }
{
    match body.child(dir, name) {
        Some(found) => {
            if found == fid {
                None
            } else {
                Some(Reason::NameOther(Some(found)))
            }
        }
        None => Some(Reason::NameOther(None)),
    }
}

// An object stands there.
fn fid_used(body: &Body, fid: Fid) -> Option<Reason>
    ensures { result ≡ fid_used_of (map.get (nodes_in body.now.slots) fid) fid }
{
    match body.get(fid) {
        Some(_) => Some(Reason::FidUsed(fid)),
        None => None,
    }
}

// How a change of a node of this kind is told.
fn change(kind: &NodeKind, kept: Sid, found: Sid) -> Reason
    ensures { result ≡ change_of kind.now kept found }
{
    match kind {
        NodeKind::File(_) => Reason::Changed { kept, found },
        NodeKind::Link(_) => Reason::Changed { kept, found },
        NodeKind::Dir(_) => Reason::AttrChanged { kept, found },
    }
}

// What stands there is of another version.
fn other_version(body: &Body, fid: Fid, pre: Sid) -> Option<Reason>
    ensures { result ≡ version_of (map.get (nodes_in body.now.slots) fid) pre }
{
    match body.get(fid) {
        Some(node) => {
            if node.sid == pre {
                None
            } else {
                Some(change(&node.kind, pre, node.sid))
            }
        }
        None => None,
    }
}

// What stands there binds something.
fn not_empty(body: &Body, fid: Fid) -> Option<Reason>
    ensures { result ≡ not_empty_of (map.get (nodes_in body.now.slots) fid) }
{
    match body.get(fid) {
        Some(node) => match &node.kind {
            NodeKind::Dir(entries) => {
                if entries.is_empty() {
                    None
                } else {
                    Some(Reason::NotEmpty)
                }
            }
            NodeKind::File(_) => None,
            NodeKind::Link(_) => None,
        },
        None => None,
    }
}

// The directory is the object, or stands below it.
fn makes_loop(body: &Body, fid: Fid, dir: Fid) -> Option<Reason>
    ensures { result ≡ loop_of (is_below (nodes_in body.now.slots) dir fid) }
{
    if body.is_below(dir, fid) {
        Some(Reason::Loop)
    } else {
        None
    }
}

// The volume has all the objects that it may have.
fn full(body: &Body) -> Option<Reason>
    ensures { result ≡ full_of (map.len (nodes_in body.now.slots)) }
{
    let count = body.len();
    if count >= MOST_OBJECTS {
        Some(Reason::VolumeFull(count as u64))
    } else {
        None
    }
}

// The checks of a creation, in their order. Its directory is looked up once for the first three.
fn certify_creation(body: &Body, dir: Fid, name: &Name, fid: Fid) -> Option<Reason>
    ensures { result ≡ first_reason (nodes_in body.now.slots) (creation_checks dir name.now fid) }
{
    let Some(node) = body.get(dir) else {
        return Some(Reason::NoDir(dir));
    };
    match &node.kind {
        NodeKind::Dir(entries) => {
            if node.marked {
                return Some(Reason::Marked(dir));
            }
            match entries.find(name) {
                Some(found) => Some(Reason::NameTaken(found)),
                None => fid_used(body, fid).or_else(|| full(body)),
            }
        }
        NodeKind::File(_) => Some(Reason::NoDir(dir)),
        NodeKind::Link(_) => Some(Reason::NoDir(dir)),
    }
}

// The checks of a store, in their order.
fn certify_store(body: &Body, fid: Fid, pre: Sid) -> Option<Reason>
    ensures { result ≡ first_reason (nodes_in body.now.slots) (store_checks fid pre) }
{
    marked(body, fid)
        .or_else(|| no_object(body, fid))
        .or_else(|| not_a_file(body, fid))
        .or_else(|| other_version(body, fid, pre))
}

// The checks of a change of attributes, in their order.
fn certify_setattr(body: &Body, fid: Fid, pre: Sid) -> Option<Reason>
    ensures { result ≡ first_reason (nodes_in body.now.slots) (setattr_checks fid pre) }
{
    marked(body, fid)
        .or_else(|| no_object(body, fid))
        .or_else(|| other_version(body, fid, pre))
}

// The checks of the removal of a file or link, in their order.
fn certify_remove(body: &Body, dir: Fid, name: &Name, fid: Fid, pre: Sid) -> Option<Reason>
    ensures { result ≡ first_reason (nodes_in body.now.slots) (remove_checks dir name.now fid pre) }
{
    no_dir(body, dir)
        .or_else(|| marked(body, dir))
        .or_else(|| marked(body, fid))
        .or_else(|| no_object(body, fid))
        .or_else(|| a_directory(body, fid))
        .or_else(|| name_other(body, dir, name, fid))
        .or_else(|| other_version(body, fid, pre))
}

// The checks of the removal of a directory, in their order.
fn certify_rmdir(body: &Body, dir: Fid, name: &Name, fid: Fid, pre: Sid) -> Option<Reason>
    ensures { result ≡ first_reason (nodes_in body.now.slots) (rmdir_checks dir name.now fid pre) }
{
    no_dir(body, dir)
        .or_else(|| marked(body, dir))
        .or_else(|| marked(body, fid))
        .or_else(|| no_object(body, fid))
        .or_else(|| not_a_directory(body, fid))
        .or_else(|| name_other(body, dir, name, fid))
        .or_else(|| other_version(body, fid, pre))
        .or_else(|| not_empty(body, fid))
}

// The checks of a rename to a free name, in their order.
fn certify_move(
    body: &Body,
    from_dir: Fid,
    from: &Name,
    to_dir: Fid,
    to: &Name,
    fid: Fid,
) -> Option<Reason>
    ensures { result ≡ first_reason (nodes_in body.now.slots) (move_checks from_dir from.now to_dir to.now fid) }
{
    no_dir(body, from_dir)
        .or_else(|| no_dir(body, to_dir))
        .or_else(|| marked(body, from_dir))
        .or_else(|| marked(body, to_dir))
        .or_else(|| marked(body, fid))
        .or_else(|| no_object(body, fid))
        .or_else(|| name_taken(body, to_dir, to))
        .or_else(|| name_other(body, from_dir, from, fid))
        .or_else(|| makes_loop(body, fid, to_dir))
}

// The checks of a rename that replaces an object, in their order.
fn certify_replacement(
    body: &Body,
    from_dir: Fid,
    from: &Name,
    to_dir: Fid,
    to: &Name,
    fid: Fid,
    over: Over,
) -> Option<Reason>
    ensures { result ≡ first_reason (nodes_in body.now.slots) (replace_checks from_dir from.now to_dir to.now fid over) }
{
    no_dir(body, from_dir)
        .or_else(|| no_dir(body, to_dir))
        .or_else(|| marked(body, from_dir))
        .or_else(|| marked(body, to_dir))
        .or_else(|| marked(body, fid))
        .or_else(|| marked(body, over.fid))
        .or_else(|| no_object(body, fid))
        .or_else(|| no_object(body, over.fid))
        .or_else(|| a_directory(body, over.fid))
        .or_else(|| a_directory(body, fid))
        .or_else(|| same_object(over.fid, fid))
        .or_else(|| name_other(body, from_dir, from, fid))
        .or_else(|| name_other(body, to_dir, to, over.fid))
        .or_else(|| other_version(body, over.fid, over.pre))
        .or_else(|| makes_loop(body, fid, to_dir))
}

// The first reason to refuse an operation on these objects, or none.
#[tactic(auto, unfolding(crate::specs::Checks::certify))]
pub(crate) fn certify_in(body: &Body, rec: &Record) -> Option<Reason>
    ensures { result ≡ certify_op (nodes_in body.now.slots) rec.now.op }
{
    match &rec.op {
        Op::Create { dir, name, fid, .. } => certify_creation(body, *dir, name, *fid),
        Op::Mkdir { dir, name, fid, .. } => certify_creation(body, *dir, name, *fid),
        Op::Symlink { dir, name, fid, .. } => certify_creation(body, *dir, name, *fid),
        Op::Store { fid, pre, .. } => certify_store(body, *fid, *pre),
        Op::Setattr { fid, pre, .. } => certify_setattr(body, *fid, *pre),
        Op::Remove {
            dir,
            name,
            fid,
            pre,
        } => certify_remove(body, *dir, name, *fid, *pre),
        Op::Rmdir {
            dir,
            name,
            fid,
            pre,
        } => certify_rmdir(body, *dir, name, *fid, *pre),
        Op::Rename {
            from_dir,
            from,
            to_dir,
            to,
            fid,
            over: None,
        } => certify_move(body, *from_dir, from, *to_dir, to, *fid),
        Op::Rename {
            from_dir,
            from,
            to_dir,
            to,
            fid,
            over: Some(over),
        } => certify_replacement(body, *from_dir, from, *to_dir, to, *fid, *over),
    }
}

/// The first reason to refuse an operation, or none: certification (Kistler and Satyanarayanan
/// 1992).
///
/// The checks are those of the operation's kind, in a fixed order:
///
/// - A creation: no directory stands where the object is to be bound; this directory is marked; it binds the name; an
///   object has the new one's identifier; the volume has 100,000 objects.
/// - A store: the object is marked; isn't there; is no file; has changed since the client saw it.
/// - A change of attributes: the object is marked; isn't there; has changed.
/// - A removal: no directory stands where the object was bound; this directory, or the object, is marked; the object isn't
///   there; is a directory (or, of a directory's removal, is none); isn't bound at the name; has changed; and a directory is
///   refused last where it binds something.
/// - A rename: one of the directories isn't there; one of them, the object or the replaced object is marked; one of the two
///   objects isn't there; something is replaced and one of the two is a directory, or the two are one; nothing is replaced
///   and the new name is bound; the old name isn't bound to the object, or the new one not to the replaced one; the
///   replaced object has changed; the object is the new directory or stands above it.
pub fn certify(volume: &Volume, rec: &Record) -> Option<Reason>
    ensures { result ≡ certify_op volume.now.nodes rec.now.op }
{
    certify_in(volume.body(), rec)
}
