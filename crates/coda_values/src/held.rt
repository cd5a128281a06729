//! What a replica holds of its objects, and what becomes of them, read from the front of what is left and written behind
//! what is there.
ghost use Rattle.std.specs.Prelude.{◌≡◌, ◌++◌, OnOk, IfOk, All, None, Some, length};
ghost use Rattle.std.specs.List.{flat_map};
ghost use Rattle.coda_values.specs.Form.{gives, four};
ghost use Rattle.coda_values.specs.Parts.{items, optional};
ghost use Rattle.coda_values.specs.Table.{fid as a_fid};
ghost use Rattle.coda_values.specs.Held.{updates as some_updates, held as a_holding, fid_follows as may_follow, fid_after as a_fid_after, fids as some_fids, object_after as an_object_after, objects as some_objects, change as a_change};
ghost use Rattle.coda_values.specs.Spelling.{HasSpelling};
ghost use Rattle.coda_values.specs.Reading.{read};
ghost use Rattle.coda_values.specs.Outcome.{Gives};

use crate::cursor::Cursor;
use crate::fault::Fault;
use crate::nodes::{node, put_node};
use crate::reading::fid;
use crate::updates::{put_updates, put_vector, updates, vector};
use crate::writing::{put_fid, put_u8, put_u32};
use coda_fid::Fid;
use coda_reslog::{Change, Fids, Held, HeldObjects, Ring};
use std::alloc::{AllocError, Global};

fn optional_updates(alloc: Global, cursor: &mut Cursor) -> Result<Option<Ring>, Fault>
    ensures { Gives (λ us. (us, cursor.new)) result (read (optional some_updates).form cursor.old) }
{
    let tag = cursor.tag()?;
    match tag.byte {
        0 => Ok(None),
        1 => {
            let log = updates(alloc, cursor)?;
            Ok(Some(log))
        }
        _ => Err(tag.unknown()),
    }
}

/// What a replica holds of an object.
#[tactic(auto, unfolding(crate::specs::Held::held))]
pub fn held(alloc: Global, cursor: &mut Cursor) -> Result<Held, Fault>
    ensures { Gives (λ h. (h, cursor.new)) result (read (a_holding four).form cursor.old) }
{
    let node = node(alloc, cursor)?;
    let vector = vector(cursor)?;
    let ring = optional_updates(alloc, cursor)?;
    Ok(Held { node, vector, ring })
}

// Whether a fid may stand behind another.
fn fid_follows(before: Option<Fid>, fid: Fid) -> bool
    ensures { result ≡ may_follow before fid }
{
    match before {
        None => true,
        Some(before) => before.cmp(&fid).is_lt(),
    }
}

/// A fid that is greater than another.
pub fn fid_after(cursor: &mut Cursor, before: Option<Fid>) -> Result<Fid, Fault>
    ensures { Gives (λ f. (f, cursor.new)) result (read (a_fid_after before).form cursor.old) }
{
    let left = cursor.left();
    let fid = fid(cursor)?;
    if !fid_follows(before, fid) {
        return Err(Fault::Broken { left });
    }
    Ok(fid)
}

// So many fids in increasing order.
fn fids_of(alloc: Global, cursor: &mut Cursor, count: u32) -> Result<Vec<Fid>, Fault>
    ensures { Gives (λ fs. (fs.items, cursor.new)) result (read (items a_fid_after (λ f. Some f) None count (λ fs. gives fs)) cursor.old) }
{
    let mut fids = Vec::new(alloc);
    let mut before = None;
    for _ in 0..count {
        let fid = fid_after(cursor, before)?;
        before = Some(fid);
        fids.push(fid)?;
    }
    Ok(fids)
}

/// Fids in increasing order.
#[tactic(auto, unfolding(crate::specs::Held::fids))]
pub fn fids(alloc: Global, cursor: &mut Cursor) -> Result<Fids, Fault>
    ensures { Gives (λ fs. (fs, cursor.new)) result (read some_fids.form cursor.old) }
{
    let count = cursor.u32()?;
    let fids = fids_of(alloc, cursor, count)?;
    Ok(Fids::from_vec(fids))
}

// An object whose fid is greater than another.
#[tactic(auto, unfolding(crate::specs::Held::object_after))]
fn object_after(
    alloc: Global,
    cursor: &mut Cursor,
    before: Option<Fid>,
) -> Result<(Fid, Held), Fault>
    ensures { Gives (λ o. (o, cursor.new)) result (read (an_object_after four before).form cursor.old) }
{
    let fid = fid_after(cursor, before)?;
    let held = held(alloc, cursor)?;
    Ok((fid, held))
}

// So many objects in increasing order of their fids.
fn objects_of(alloc: Global, cursor: &mut Cursor, count: u32) -> Result<Vec<(Fid, Held)>, Fault>
    ensures { Gives (λ os. (os.items, cursor.new)) result (read (items (an_object_after four) (λ o. Some o.0) None count (λ os. gives os)) cursor.old) }
{
    let mut objects = Vec::new(alloc);
    let mut before = None;
    for _ in 0..count {
        let object = object_after(alloc, cursor, before)?;
        before = Some(object.0);
        objects.push(object)?;
    }
    Ok(objects)
}

/// Objects in increasing order of their fids.
#[tactic(auto, unfolding(crate::specs::Held::objects))]
pub fn objects(alloc: Global, cursor: &mut Cursor) -> Result<HeldObjects, Fault>
    ensures { Gives (λ os. (os, cursor.new)) result (read (some_objects four).form cursor.old) }
{
    let count = cursor.u32()?;
    let objects = objects_of(alloc, cursor, count)?;
    Ok(HeldObjects::from_vec(objects))
}

/// What becomes of a replica.
#[tactic(auto, unfolding(crate::specs::Held::change))]
pub fn change(alloc: Global, cursor: &mut Cursor) -> Result<Change, Fault>
    ensures { Gives (λ c. (c, cursor.new)) result (read (a_change four).form cursor.old) }
{
    let held = objects(alloc, cursor)?;
    let gone = fids(alloc, cursor)?;
    Ok(Change { held, gone })
}

fn put_optional_updates(out: &mut Vec<u8>, log: &Option<Ring>) -> Result<(), AllocError>
    ensures { OnOk result (out.new.items ≡ out.old.items ++ ((optional some_updates).piece log.now).bytes) }
{
    match log {
        None => put_u8(out, 0),
        Some(log) => {
            put_u8(out, 1)?;
            put_updates(out, log)
        }
    }
}

/// What a replica holds of an object.
#[tactic(auto, unfolding(crate::specs::Held::held))]
pub fn put_held(out: &mut Vec<u8>, held: &Held) -> Result<(), AllocError>
    requires { HasSpelling (a_holding four) held.now }
    ensures { OnOk result (out.new.items ≡ out.old.items ++ ((a_holding four).piece held.now).bytes) }
{
    put_node(out, &held.node)?;
    put_vector(out, &held.vector)?;
    put_optional_updates(out, &held.ring)
}

// Fids, one after the other.
fn put_all_fids(out: &mut Vec<u8>, fids: &[Fid]) -> Result<(), AllocError>
    ensures { OnOk result (out.new.items ≡ out.old.items ++ flat_map (λ f. (a_fid.piece f).bytes) fids.now) }
{
    for fid in fids {
        put_fid(out, *fid)?;
    }
    Ok(())
}

/// Fids in increasing order.
#[tactic(auto, unfolding(crate::specs::Held::fids))]
pub fn put_fids(out: &mut Vec<u8>, fids: &[Fid]) -> Result<(), AllocError>
    requires { HasSpelling some_fids fids.now }
    ensures { OnOk result (out.new.items ≡ out.old.items ++ (some_fids.piece fids.now).bytes) }
{
    put_u32(out, fids.len() as u32)?;
    put_all_fids(out, fids)
}

// An object.
#[tactic(auto, unfolding(crate::specs::Held::object_after))]
fn put_object(out: &mut Vec<u8>, object: &(Fid, Held)) -> Result<(), AllocError>
    requires { HasSpelling (a_holding four) object.now.1 }
    ensures { OnOk result (out.new.items ≡ out.old.items ++ ((an_object_after four None).piece object.now).bytes) }
{
    put_fid(out, object.0)?;
    put_held(out, &object.1)
}

// Objects, one after the other.
fn put_all_objects(out: &mut Vec<u8>, objects: &[(Fid, Held)]) -> Result<(), AllocError>
    requires { All (λ o. HasSpelling (a_holding four) o.1) objects.now }
    ensures { OnOk result (out.new.items ≡ out.old.items ++ flat_map (λ o. ((an_object_after four None).piece o).bytes) objects.now) }
{
    for object in objects {
        put_object(out, object)?;
    }
    Ok(())
}

/// Objects in increasing order of their fids.
#[tactic(auto, unfolding(crate::specs::Held::objects))]
pub fn put_objects(out: &mut Vec<u8>, objects: &[(Fid, Held)]) -> Result<(), AllocError>
    requires { HasSpelling (some_objects four) objects.now }
    ensures { OnOk result (out.new.items ≡ out.old.items ++ ((some_objects four).piece objects.now).bytes) }
{
    put_u32(out, objects.len() as u32)?;
    put_all_objects(out, objects)
}

/// What becomes of a replica.
#[tactic(auto, unfolding(crate::specs::Held::change))]
pub fn put_change(out: &mut Vec<u8>, change: &Change) -> Result<(), AllocError>
    requires { HasSpelling (a_change four) change.now }
    ensures { OnOk result (out.new.items ≡ out.old.items ++ ((a_change four).piece change.now).bytes) }
{
    put_objects(out, change.held.objects())?;
    put_fids(out, change.gone.fids())
}
