//! Each format, read from the front of what is left.
ghost use Rattle.std.specs.Prelude.{◌≡◌};
ghost use Rattle.coda_values.specs.Parts.{optional, items};
ghost use Rattle.coda_values.specs.Form.{four, gives};
ghost use Rattle.coda_values.specs.Table.{fid as a_fid, sid as a_sid, over as an_over, attrs as some_attrs, op as an_op, record_above as a_record_above, records as a_records, reason as a_reason, verdict as a_verdict};
ghost use Rattle.coda_values.specs.Table.{create_form, mkdir_form, symlink_form, store_form, setattr_form, remove_form, rmdir_form, rename_form};
ghost use Rattle.coda_values.specs.Reading.{read};
ghost use Rattle.coda_values.specs.Outcome.{Gives};

use crate::cursor::Cursor;
use crate::fault::Fault;
use crate::parts::{bytes_between, name, u64_between};
use crate::records::Records;
use coda_certify::{Reason, Verdict};
use coda_fid::{Attrs, Fid, Op, Over, Record, Sid};
use std::alloc::Global;

/// The greatest number of an operation or of a chunk.
pub const GREATEST: u64 = 4_294_967_295;

/// A fid.
#[tactic(auto, unfolding(crate::specs::Table::fid))]
pub fn fid(cursor: &mut Cursor) -> Result<Fid, Fault>
    ensures { Gives (λ f. (f, cursor.new)) result (read a_fid.form cursor.old) }
{
    let volume = cursor.u32()?;
    let vnode = cursor.u32()?;
    let uniq = cursor.u32()?;
    Ok(Fid {
        volume,
        vnode,
        uniq,
    })
}

/// A sid.
#[tactic(auto, unfolding(crate::specs::Table::sid))]
pub fn sid(cursor: &mut Cursor) -> Result<Sid, Fault>
    ensures { Gives (λ s. (s, cursor.new)) result (read a_sid.form cursor.old) }
{
    let client = cursor.u8()?;
    let number = u64_between(cursor, 0, GREATEST)?;
    Ok(Sid { client, number })
}

#[tactic(auto, unfolding(crate::specs::Table::over))]
fn over(cursor: &mut Cursor) -> Result<Over, Fault>
    ensures { Gives (λ o. (o, cursor.new)) result (read an_over.form cursor.old) }
{
    let fid = fid(cursor)?;
    let pre = sid(cursor)?;
    Ok(Over { fid, pre })
}

fn optional_over(cursor: &mut Cursor) -> Result<Option<Over>, Fault>
    ensures { Gives (λ o. (o, cursor.new)) result (read (optional an_over).form cursor.old) }
{
    let tag = cursor.tag()?;
    match tag.byte {
        0 => Ok(None),
        1 => {
            let over = over(cursor)?;
            Ok(Some(over))
        }
        _ => Err(tag.unknown()),
    }
}

/// A fid, or none.
pub fn optional_fid(cursor: &mut Cursor) -> Result<Option<Fid>, Fault>
    ensures { Gives (λ o. (o, cursor.new)) result (read (optional a_fid).form cursor.old) }
{
    let tag = cursor.tag()?;
    match tag.byte {
        0 => Ok(None),
        1 => {
            let fid = fid(cursor)?;
            Ok(Some(fid))
        }
        _ => Err(tag.unknown()),
    }
}

// What is to be set.
fn setting(mode: Option<u16>, owner: Option<u32>, mtime: Option<u64>) -> Attrs
    ensures { result ≡ record { mode = mode; owner = owner; mtime = mtime } }
{
    Attrs { mode, owner, mtime }
}

#[tactic(auto, unfolding(crate::specs::Table::attrs))]
fn attrs(cursor: &mut Cursor) -> Result<Attrs, Fault>
    ensures { Gives (λ a. (a, cursor.new)) result (read some_attrs.form cursor.old) }
{
    let tag = cursor.tag()?;
    match tag.byte {
        1 => {
            let mode = cursor.u16()?;
            Ok(setting(Some(mode), None, None))
        }
        2 => {
            let owner = cursor.u32()?;
            Ok(setting(None, Some(owner), None))
        }
        3 => {
            let mode = cursor.u16()?;
            let owner = cursor.u32()?;
            Ok(setting(Some(mode), Some(owner), None))
        }
        4 => {
            let mtime = cursor.u64()?;
            Ok(setting(None, None, Some(mtime)))
        }
        5 => {
            let mode = cursor.u16()?;
            let mtime = cursor.u64()?;
            Ok(setting(Some(mode), None, Some(mtime)))
        }
        6 => {
            let owner = cursor.u32()?;
            let mtime = cursor.u64()?;
            Ok(setting(None, Some(owner), Some(mtime)))
        }
        7 => {
            let mode = cursor.u16()?;
            let owner = cursor.u32()?;
            let mtime = cursor.u64()?;
            Ok(setting(Some(mode), Some(owner), Some(mtime)))
        }
        _ => Err(tag.unknown()),
    }
}

#[tactic(auto, unfolding(crate::specs::Table::create_form))]
fn create(alloc: Global, cursor: &mut Cursor) -> Result<Op, Fault>
    ensures { Gives (λ o. (o, cursor.new)) result (read create_form cursor.old) }
{
    let dir = fid(cursor)?;
    let name = name(alloc, cursor)?;
    let fid = fid(cursor)?;
    let mode = cursor.u16()?;
    let owner = cursor.u32()?;
    Ok(Op::Create {
        dir,
        name,
        fid,
        mode,
        owner,
    })
}

#[tactic(auto, unfolding(crate::specs::Table::mkdir_form))]
fn mkdir(alloc: Global, cursor: &mut Cursor) -> Result<Op, Fault>
    ensures { Gives (λ o. (o, cursor.new)) result (read mkdir_form cursor.old) }
{
    let dir = fid(cursor)?;
    let name = name(alloc, cursor)?;
    let fid = fid(cursor)?;
    let mode = cursor.u16()?;
    let owner = cursor.u32()?;
    Ok(Op::Mkdir {
        dir,
        name,
        fid,
        mode,
        owner,
    })
}

#[tactic(auto, unfolding(crate::specs::Table::symlink_form))]
fn symlink(alloc: Global, cursor: &mut Cursor) -> Result<Op, Fault>
    ensures { Gives (λ o. (o, cursor.new)) result (read (symlink_form four) cursor.old) }
{
    let dir = fid(cursor)?;
    let name = name(alloc, cursor)?;
    let fid = fid(cursor)?;
    let target = bytes_between(alloc, cursor, 1, 1_024)?;
    let mode = cursor.u16()?;
    let owner = cursor.u32()?;
    Ok(Op::Symlink {
        dir,
        name,
        fid,
        target,
        mode,
        owner,
    })
}

#[tactic(auto, unfolding(crate::specs::Table::store_form))]
fn store(alloc: Global, cursor: &mut Cursor) -> Result<Op, Fault>
    ensures { Gives (λ o. (o, cursor.new)) result (read (store_form four) cursor.old) }
{
    let fid = fid(cursor)?;
    let pre = sid(cursor)?;
    let content = bytes_between(alloc, cursor, 0, 1_048_576)?;
    Ok(Op::Store { fid, pre, content })
}

#[tactic(auto, unfolding(crate::specs::Table::setattr_form))]
fn setattr(cursor: &mut Cursor) -> Result<Op, Fault>
    ensures { Gives (λ o. (o, cursor.new)) result (read setattr_form cursor.old) }
{
    let fid = fid(cursor)?;
    let pre = sid(cursor)?;
    let attrs = attrs(cursor)?;
    Ok(Op::Setattr { fid, pre, attrs })
}

#[tactic(auto, unfolding(crate::specs::Table::remove_form))]
fn remove(alloc: Global, cursor: &mut Cursor) -> Result<Op, Fault>
    ensures { Gives (λ o. (o, cursor.new)) result (read remove_form cursor.old) }
{
    let dir = fid(cursor)?;
    let name = name(alloc, cursor)?;
    let fid = fid(cursor)?;
    let pre = sid(cursor)?;
    Ok(Op::Remove {
        dir,
        name,
        fid,
        pre,
    })
}

#[tactic(auto, unfolding(crate::specs::Table::rmdir_form))]
fn rmdir(alloc: Global, cursor: &mut Cursor) -> Result<Op, Fault>
    ensures { Gives (λ o. (o, cursor.new)) result (read rmdir_form cursor.old) }
{
    let dir = fid(cursor)?;
    let name = name(alloc, cursor)?;
    let fid = fid(cursor)?;
    let pre = sid(cursor)?;
    Ok(Op::Rmdir {
        dir,
        name,
        fid,
        pre,
    })
}

#[tactic(auto, unfolding(crate::specs::Table::rename_form))]
fn rename(alloc: Global, cursor: &mut Cursor) -> Result<Op, Fault>
    ensures { Gives (λ o. (o, cursor.new)) result (read rename_form cursor.old) }
{
    let from_dir = fid(cursor)?;
    let from = name(alloc, cursor)?;
    let to_dir = fid(cursor)?;
    let to = name(alloc, cursor)?;
    let fid = fid(cursor)?;
    let over = optional_over(cursor)?;
    Ok(Op::Rename {
        from_dir,
        from,
        to_dir,
        to,
        fid,
        over,
    })
}

/// An operation.
#[tactic(auto, unfolding(crate::specs::Table::op))]
pub fn op(alloc: Global, cursor: &mut Cursor) -> Result<Op, Fault>
    ensures { Gives (λ o. (o, cursor.new)) result (read (an_op four).form cursor.old) }
{
    let tag = cursor.tag()?;
    match tag.byte {
        1 => create(alloc, cursor),
        2 => mkdir(alloc, cursor),
        3 => symlink(alloc, cursor),
        4 => store(alloc, cursor),
        5 => setattr(cursor),
        6 => remove(alloc, cursor),
        7 => rmdir(alloc, cursor),
        8 => rename(alloc, cursor),
        _ => Err(tag.unknown()),
    }
}

/// A record whose number is above one.
#[tactic(auto, unfolding(crate::specs::Table::record_above))]
pub fn record_above(alloc: Global, cursor: &mut Cursor, before: u64) -> Result<Record, Fault>
    ensures { Gives (λ r. (r, cursor.new)) result (read (a_record_above four before).form cursor.old) }
{
    let left = cursor.left();
    let number = cursor.u64()?;
    if number <= before || GREATEST < number {
        return Err(Fault::Broken { left });
    }
    let time = cursor.u64()?;
    let op = op(alloc, cursor)?;
    Ok(Record { number, time, op })
}

// So many records with increasing numbers.
fn some_records(alloc: Global, cursor: &mut Cursor, count: u32) -> Result<Vec<Record>, Fault>
    ensures { Gives (λ rs. (rs.items, cursor.new)) result (read (items (a_record_above four) (λ r. r.number) 0 count (λ rs. gives rs)) cursor.old) }
{
    let mut records = Vec::new(alloc);
    let mut before = 0;
    for _ in 0..count {
        let record = record_above(alloc, cursor, before)?;
        before = record.number;
        records.push(record)?;
    }
    Ok(records)
}

/// Records with increasing numbers.
#[tactic(auto, unfolding(crate::specs::Table::records))]
pub fn records(alloc: Global, cursor: &mut Cursor) -> Result<Records, Fault>
    ensures { Gives (λ rs. (rs, cursor.new)) result (read (a_records four).form cursor.old) }
{
    let count = cursor.u32()?;
    let records = some_records(alloc, cursor, count)?;
    Ok(Records::from_vec(records))
}

/// A reason.
#[tactic(auto, unfolding(crate::specs::Table::reason))]
pub fn reason(cursor: &mut Cursor) -> Result<Reason, Fault>
    ensures { Gives (λ r. (r, cursor.new)) result (read a_reason.form cursor.old) }
{
    let tag = cursor.tag()?;
    match tag.byte {
        1 => Ok(Reason::NoDir(fid(cursor)?)),
        2 => Ok(Reason::Marked(fid(cursor)?)),
        3 => Ok(Reason::NoObject(fid(cursor)?)),
        4 => Ok(Reason::WrongKind(fid(cursor)?)),
        5 => Ok(Reason::NameTaken(fid(cursor)?)),
        6 => Ok(Reason::NameOther(optional_fid(cursor)?)),
        7 => Ok(Reason::FidUsed(fid(cursor)?)),
        8 => {
            let kept = sid(cursor)?;
            let found = sid(cursor)?;
            Ok(Reason::Changed { kept, found })
        }
        9 => {
            let kept = sid(cursor)?;
            let found = sid(cursor)?;
            Ok(Reason::AttrChanged { kept, found })
        }
        10 => Ok(Reason::NotEmpty),
        11 => Ok(Reason::Loop),
        12 => Ok(Reason::VolumeFull(cursor.u64()?)),
        _ => Err(tag.unknown()),
    }
}

/// A verdict.
#[tactic(auto, unfolding(crate::specs::Table::verdict))]
pub fn verdict(cursor: &mut Cursor) -> Result<Verdict, Fault>
    ensures { Gives (λ v. (v, cursor.new)) result (read a_verdict.form cursor.old) }
{
    let tag = cursor.tag()?;
    match tag.byte {
        0 => Ok(Verdict::Applied),
        1 => {
            let number = u64_between(cursor, 1, GREATEST)?;
            let reason = reason(cursor)?;
            Ok(Verdict::Conflict(number, reason))
        }
        _ => Err(tag.unknown()),
    }
}
