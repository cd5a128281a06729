//! Each format, written behind what is there. The caller takes the room before: see
//! [`lengths`](crate::lengths).
ghost use Rattle.std.specs.Prelude.{◌≡◌, ◌++◌, ◌∷◌, [], ◌+◌, ◌<◌, ◌≤◌, ◌^◌, OnOk, length, if◌then◌else◌, All};
ghost use Rattle.std.specs.List.{flat_map};
ghost use Rattle.coda_values.specs.Form.{together, four};
ghost use Rattle.coda_values.specs.Parts.{u8 as a_u8, u16 as a_u16, u32 as a_u32, u64 as a_u64, counted, optional, items_piece};
ghost use Rattle.coda_values.specs.Spelling.{HasSpelling};
ghost use Rattle.coda_values.specs.Table.{name as a_name, content as some_content, target as a_target, fid as a_fid, sid as a_sid, over as an_over, attrs as some_attrs, op as an_op, record_above as a_record_above, records as some_records, reason as a_reason, verdict as a_verdict, bit as a_bit, where_set};

use byteorder::{BigEndian, ByteOrder};
use coda_certify::{Reason, Verdict};
use coda_fid::{Attrs, Bytes, Fid, Name, Op, Over, Record, Sid};
use std::alloc::AllocError;

/// A number of one byte.
#[tactic(auto, unfolding(crate::specs::Form::number_bytes))]
pub fn put_u8(out: &mut Vec<u8>, number: u8) -> Result<(), AllocError>
    ensures { OnOk result (out.new.items ≡ out.old.items ++ (a_u8.piece number).bytes) }
{
    Ok(out.extend_from_slice(&[number])?)
}

/// A number of two bytes.
#[tactic(auto, unfolding(crate::specs::Form::number_bytes))]
pub fn put_u16(out: &mut Vec<u8>, number: u16) -> Result<(), AllocError>
    ensures { OnOk result (out.new.items ≡ out.old.items ++ (a_u16.piece number).bytes) }
{
    let mut bytes = [0; 2];
    BigEndian::write_u16(&mut bytes, number);
    Ok(out.extend_from_slice(&bytes)?)
}

/// A number of four bytes.
#[tactic(auto, unfolding(crate::specs::Form::number_bytes))]
pub fn put_u32(out: &mut Vec<u8>, number: u32) -> Result<(), AllocError>
    ensures { OnOk result (out.new.items ≡ out.old.items ++ (a_u32.piece number).bytes) }
{
    let mut bytes = [0; 4];
    BigEndian::write_u32(&mut bytes, number);
    Ok(out.extend_from_slice(&bytes)?)
}

/// A number of eight bytes.
#[tactic(auto, unfolding(crate::specs::Form::number_bytes))]
pub fn put_u64(out: &mut Vec<u8>, number: u64) -> Result<(), AllocError>
    ensures { OnOk result (out.new.items ≡ out.old.items ++ (a_u64.piece number).bytes) }
{
    let mut bytes = [0; 8];
    BigEndian::write_u64(&mut bytes, number);
    Ok(out.extend_from_slice(&bytes)?)
}

/// A name.
pub fn put_name(out: &mut Vec<u8>, name: &Name) -> Result<(), AllocError>
    ensures { OnOk result (out.new.items ≡ out.old.items ++ (a_name.piece name.now).bytes) }
{
    let bytes = name.bytes();
    put_u8(out, bytes.len() as u8)?;
    Ok(out.extend_from_slice(bytes)?)
}

/// Bytes behind their length.
pub fn put_bytes(out: &mut Vec<u8>, bytes: &Bytes) -> Result<(), AllocError>
    requires { length bytes.now < 2 ^ 32 }
    ensures { OnOk result (out.new.items ≡ out.old.items ++ ((counted a_u32).piece bytes.now).bytes) }
{
    put_u32(out, bytes.len() as u32)?;
    Ok(out.extend_from_slice(bytes.bytes())?)
}

/// A fid, in one piece.
#[tactic(auto, unfolding(crate::specs::Table::fid, crate::specs::Form::number_bytes))]
pub fn put_fid(out: &mut Vec<u8>, fid: Fid) -> Result<(), AllocError>
    ensures { OnOk result (out.new.items ≡ out.old.items ++ (a_fid.piece fid).bytes) }
{
    let [a, b, c, d] = fid.volume.to_be_bytes();
    let [e, f, g, h] = fid.vnode.to_be_bytes();
    let [i, j, k, l] = fid.uniq.to_be_bytes();
    Ok(out.extend_from_slice(&[a, b, c, d, e, f, g, h, i, j, k, l])?)
}

/// A sid.
#[tactic(auto, unfolding(crate::specs::Table::sid))]
pub fn put_sid(out: &mut Vec<u8>, sid: Sid) -> Result<(), AllocError>
    ensures { OnOk result (out.new.items ≡ out.old.items ++ (a_sid.piece sid).bytes) }
{
    put_u8(out, sid.client)?;
    put_u64(out, sid.number)
}

#[tactic(auto, unfolding(crate::specs::Table::over))]
fn put_over(out: &mut Vec<u8>, over: &Option<Over>) -> Result<(), AllocError>
    ensures { OnOk result (out.new.items ≡ out.old.items ++ ((optional an_over).piece over.now).bytes) }
{
    match over {
        None => put_u8(out, 0),
        Some(over) => {
            put_u8(out, 1)?;
            put_fid(out, over.fid)?;
            put_sid(out, over.pre)
        }
    }
}

/// A fid, or none.
pub fn put_optional_fid(out: &mut Vec<u8>, fid: Option<Fid>) -> Result<(), AllocError>
    ensures { OnOk result (out.new.items ≡ out.old.items ++ ((optional a_fid).piece fid).bytes) }
{
    match fid {
        None => put_u8(out, 0),
        Some(fid) => {
            put_u8(out, 1)?;
            put_fid(out, fid)
        }
    }
}

// A bit of a mask, where a part is set.
fn bit(is_set: bool, bit: u8) -> u8
    ensures value { result ≡ (if is_set then bit else 0) }
    ensures small { result ≤ bit }
{
    if is_set { bit } else { 0 }
}

// Which parts are set.
fn mask(attrs: &Attrs) -> u8
    ensures { result ≡ a_bit 1 attrs.now.mode + a_bit 2 attrs.now.owner + a_bit 4 attrs.now.mtime }
{
    bit(attrs.mode.is_some(), 1) + bit(attrs.owner.is_some(), 2) + bit(attrs.mtime.is_some(), 4)
}

fn put_mode(out: &mut Vec<u8>, mode: Option<u16>) -> Result<(), AllocError>
    ensures { OnOk result (out.new.items ≡ out.old.items ++ (where_set a_u16 mode).bytes) }
{
    match mode {
        Some(mode) => put_u16(out, mode),
        None => Ok(()),
    }
}

fn put_owner(out: &mut Vec<u8>, owner: Option<u32>) -> Result<(), AllocError>
    ensures { OnOk result (out.new.items ≡ out.old.items ++ (where_set a_u32 owner).bytes) }
{
    match owner {
        Some(owner) => put_u32(out, owner),
        None => Ok(()),
    }
}

fn put_mtime(out: &mut Vec<u8>, mtime: Option<u64>) -> Result<(), AllocError>
    ensures { OnOk result (out.new.items ≡ out.old.items ++ (where_set a_u64 mtime).bytes) }
{
    match mtime {
        Some(mtime) => put_u64(out, mtime),
        None => Ok(()),
    }
}

/// Attributes.
#[tactic(auto, unfolding(crate::specs::Table::attrs))]
pub fn put_attrs(out: &mut Vec<u8>, attrs: &Attrs) -> Result<(), AllocError>
    ensures { OnOk result (out.new.items ≡ out.old.items ++ (some_attrs.piece attrs.now).bytes) }
{
    put_u8(out, mask(attrs))?;
    put_mode(out, attrs.mode)?;
    put_owner(out, attrs.owner)?;
    put_mtime(out, attrs.mtime)
}

// A tag, a directory, a name and an object.
fn put_bound(out: &mut Vec<u8>, tag: u8, dir: Fid, name: &Name, fid: Fid) -> Result<(), AllocError>
    ensures { OnOk result (out.new.items ≡ out.old.items ++ (together (a_u8.piece tag ∷ a_fid.piece dir ∷ a_name.piece name.now ∷ a_fid.piece fid ∷ [])).bytes) }
{
    put_u8(out, tag)?;
    put_fid(out, dir)?;
    put_name(out, name)?;
    put_fid(out, fid)
}

/// An operation.
#[tactic(auto, unfolding(crate::specs::Table::op))]
pub fn put_op(out: &mut Vec<u8>, op: &Op) -> Result<(), AllocError>
    requires { HasSpelling (an_op four) op.now }
    ensures { OnOk result (out.new.items ≡ out.old.items ++ ((an_op four).piece op.now).bytes) }
{
    match op {
        Op::Create {
            dir,
            name,
            fid,
            mode,
            owner,
        } => {
            put_bound(out, 1, *dir, name, *fid)?;
            put_u16(out, *mode)?;
            put_u32(out, *owner)
        }
        Op::Mkdir {
            dir,
            name,
            fid,
            mode,
            owner,
        } => {
            put_bound(out, 2, *dir, name, *fid)?;
            put_u16(out, *mode)?;
            put_u32(out, *owner)
        }
        Op::Symlink {
            dir,
            name,
            fid,
            target,
            mode,
            owner,
        } => {
            put_bound(out, 3, *dir, name, *fid)?;
            put_bytes(out, target)?;
            put_u16(out, *mode)?;
            put_u32(out, *owner)
        }
        Op::Store { fid, pre, content } => {
            put_u8(out, 4)?;
            put_fid(out, *fid)?;
            put_sid(out, *pre)?;
            put_bytes(out, content)
        }
        Op::Setattr { fid, pre, attrs } => {
            put_u8(out, 5)?;
            put_fid(out, *fid)?;
            put_sid(out, *pre)?;
            put_attrs(out, attrs)
        }
        Op::Remove {
            dir,
            name,
            fid,
            pre,
        } => {
            put_bound(out, 6, *dir, name, *fid)?;
            put_sid(out, *pre)
        }
        Op::Rmdir {
            dir,
            name,
            fid,
            pre,
        } => {
            put_bound(out, 7, *dir, name, *fid)?;
            put_sid(out, *pre)
        }
        Op::Rename {
            from_dir,
            from,
            to_dir,
            to,
            fid,
            over,
        } => {
            put_bound(out, 8, *from_dir, from, *to_dir)?;
            put_name(out, to)?;
            put_fid(out, *fid)?;
            put_over(out, over)
        }
    }
}

/// A record.
#[tactic(auto, unfolding(crate::specs::Table::record_above))]
pub fn put_record(out: &mut Vec<u8>, rec: &Record) -> Result<(), AllocError>
    requires { HasSpelling (an_op four) rec.now.op }
    ensures { OnOk result (out.new.items ≡ out.old.items ++ ((a_record_above four 0).piece rec.now).bytes) }
{
    put_u64(out, rec.number)?;
    put_u64(out, rec.time)?;
    put_op(out, &rec.op)
}

// Records, one after the other.
fn put_all(out: &mut Vec<u8>, records: &[Record]) -> Result<(), AllocError>
    requires { All (λ r. HasSpelling (an_op four) r.op) records.now }
    ensures { OnOk result (out.new.items ≡ out.old.items ++ flat_map (λ r. ((a_record_above four 0).piece r).bytes) records.now) }
{
    for rec in records {
        put_record(out, rec)?;
    }
    Ok(())
}

/// Records with increasing numbers.
#[tactic(auto, unfolding(crate::specs::Table::records))]
pub fn put_records(out: &mut Vec<u8>, records: &[Record]) -> Result<(), AllocError>
    requires { HasSpelling (some_records four) records.now }
    ensures { OnOk result (out.new.items ≡ out.old.items ++ ((some_records four).piece records.now).bytes) }
{
    put_u32(out, records.len() as u32)?;
    put_all(out, records)
}

/// A reason.
#[tactic(auto, unfolding(crate::specs::Table::reason))]
pub fn put_reason(out: &mut Vec<u8>, reason: &Reason) -> Result<(), AllocError>
    ensures { OnOk result (out.new.items ≡ out.old.items ++ (a_reason.piece reason.now).bytes) }
{
    match *reason {
        Reason::NoDir(fid) => {
            put_u8(out, 1)?;
            put_fid(out, fid)
        }
        Reason::Marked(fid) => {
            put_u8(out, 2)?;
            put_fid(out, fid)
        }
        Reason::NoObject(fid) => {
            put_u8(out, 3)?;
            put_fid(out, fid)
        }
        Reason::WrongKind(fid) => {
            put_u8(out, 4)?;
            put_fid(out, fid)
        }
        Reason::NameTaken(found) => {
            put_u8(out, 5)?;
            put_fid(out, found)
        }
        Reason::NameOther(found) => {
            put_u8(out, 6)?;
            put_optional_fid(out, found)
        }
        Reason::FidUsed(fid) => {
            put_u8(out, 7)?;
            put_fid(out, fid)
        }
        Reason::Changed { kept, found } => {
            put_u8(out, 8)?;
            put_sid(out, kept)?;
            put_sid(out, found)
        }
        Reason::AttrChanged { kept, found } => {
            put_u8(out, 9)?;
            put_sid(out, kept)?;
            put_sid(out, found)
        }
        Reason::NotEmpty => put_u8(out, 10),
        Reason::Loop => put_u8(out, 11),
        Reason::VolumeFull(count) => {
            put_u8(out, 12)?;
            put_u64(out, count)
        }
    }
}

/// A verdict.
#[tactic(auto, unfolding(crate::specs::Table::verdict))]
pub fn put_verdict(out: &mut Vec<u8>, verdict: &Verdict) -> Result<(), AllocError>
    ensures { OnOk result (out.new.items ≡ out.old.items ++ (a_verdict.piece verdict.now).bytes) }
{
    match verdict {
        Verdict::Applied => put_u8(out, 0),
        Verdict::Conflict(number, reason) => {
            put_u8(out, 1)?;
            put_u64(out, *number)?;
            put_reason(out, reason)
        }
    }
}
