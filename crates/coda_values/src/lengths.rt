//! How many bytes each value has where it is written, so that a writer takes room for all of them at once.
ghost use Rattle.std.specs.Prelude.{◌≡◌, ◌≤◌, ◌*◌, All, length};
ghost use Rattle.std.specs.List.{flat_map};
ghost use Rattle.coda_values.specs.Form.{four};
ghost use Rattle.coda_values.specs.Parts.{u16 as a_u16, u32 as a_u32, u64 as a_u64, optional};
ghost use Rattle.coda_values.specs.Spelling.{HasSpelling};
ghost use Rattle.coda_values.specs.Table.{attrs as some_attrs, fid as a_fid, name as a_name, op as an_op, over as an_over, reason as a_reason, records as some_records, record_above as a_record_above, where_set};

use coda_certify::Reason;
use coda_fid::{Attrs, Fid, Name, Op, Over, Record};

/// The bytes of a name.
#[tactic(auto, using(crate::proofs::Spans::name_span))]
pub fn length_of_name(name: &Name) -> usize
    ensures exact { result ≡ length (a_name.piece name.now).bytes }
    ensures small { result ≤ 256 }
{
    1 + name.bytes().len()
}

// What a rename replaces.
#[tactic(auto, using(crate::proofs::Spans::no_over_span, crate::proofs::Spans::some_over_span))]
fn length_of_over(over: &Option<Over>) -> usize
    ensures exact { result ≡ length ((optional an_over).piece over.now).bytes }
    ensures small { result ≤ 22 }
{
    match over {
        None => 1,
        Some(_) => 22,
    }
}

#[tactic(auto, using(crate::proofs::Spans::some_u16_span))]
fn length_of_mode(mode: Option<u16>) -> usize
    ensures exact { result ≡ length (where_set a_u16 mode).bytes }
    ensures small { result ≤ 2 }
{
    match mode {
        None => 0,
        Some(_) => 2,
    }
}

#[tactic(auto, using(crate::proofs::Spans::some_u32_span))]
fn length_of_owner(owner: Option<u32>) -> usize
    ensures exact { result ≡ length (where_set a_u32 owner).bytes }
    ensures small { result ≤ 4 }
{
    match owner {
        None => 0,
        Some(_) => 4,
    }
}

#[tactic(auto, using(crate::proofs::Spans::some_u64_span))]
fn length_of_mtime(mtime: Option<u64>) -> usize
    ensures exact { result ≡ length (where_set a_u64 mtime).bytes }
    ensures small { result ≤ 8 }
{
    match mtime {
        None => 0,
        Some(_) => 8,
    }
}

#[tactic(auto, using(crate::proofs::Spans::attrs_span))]
fn length_of_attrs(attrs: &Attrs) -> usize
    ensures exact { result ≡ length (some_attrs.piece attrs.now).bytes }
    ensures small { result ≤ 15 }
{
    1 + length_of_mode(attrs.mode) + length_of_owner(attrs.owner) + length_of_mtime(attrs.mtime)
}

/// The bytes of an operation.
#[tactic(auto, using(crate::proofs::Spans::create_span, crate::proofs::Spans::mkdir_span, crate::proofs::Spans::symlink_span, crate::proofs::Spans::store_span, crate::proofs::Spans::setattr_span, crate::proofs::Spans::remove_span, crate::proofs::Spans::rmdir_span, crate::proofs::Spans::rename_span))]
pub fn length_of_op(op: &Op) -> usize
    requires { HasSpelling (an_op four) op.now }
    ensures exact { result ≡ length ((an_op four).piece op.now).bytes }
    ensures small { result ≤ 1_048_602 }
{
    match op {
        Op::Create { name, .. } => 31 + length_of_name(name),
        Op::Mkdir { name, .. } => 31 + length_of_name(name),
        Op::Symlink { name, target, .. } => 35 + length_of_name(name) + target.len(),
        Op::Store { content, .. } => 26 + content.len(),
        Op::Setattr { attrs, .. } => 22 + length_of_attrs(attrs),
        Op::Remove { name, .. } => 34 + length_of_name(name),
        Op::Rmdir { name, .. } => 34 + length_of_name(name),
        Op::Rename { from, to, over, .. } => {
            37 + length_of_name(from) + length_of_name(to) + length_of_over(over)
        }
    }
}

/// The bytes of a record.
#[tactic(auto, using(crate::proofs::Spans::record_span))]
pub fn length_of_record(rec: &Record) -> usize
    requires { HasSpelling (an_op four) rec.now.op }
    ensures exact { result ≡ length ((a_record_above four 0).piece rec.now).bytes }
    ensures small { result ≤ 1_048_618 }
{
    16 + length_of_op(&rec.op)
}

// The bytes of records, one after the other.
fn length_of_all(records: &[Record]) -> usize
    requires some { All (λ r. HasSpelling (an_op four) r.op) records.now }
    requires few { length records.now ≤ 4294967296 }
    ensures exact { result ≡ length (flat_map (λ r. ((a_record_above four 0).piece r).bytes) records.now) }
    ensures small { result ≤ 1_048_618 * length records.now }
{
    let mut total = 0;
    for rec in records {
        total += length_of_record(rec);
    }
    total
}

/// The bytes of records.
#[tactic(auto, using(crate::proofs::Spans::records_span))]
pub fn length_of_records(records: &[Record]) -> usize
    requires { HasSpelling (some_records four) records.now }
    ensures exact { result ≡ length ((some_records four).piece records.now).bytes }
    ensures small { result ≤ 4_503_780_015_996_932 }
{
    4 + length_of_all(records)
}

#[tactic(auto, using(crate::proofs::Spans::no_fid_span, crate::proofs::Spans::some_fid_span))]
fn length_of_optional_fid(fid: Option<Fid>) -> usize
    ensures exact { result ≡ length ((optional a_fid).piece fid).bytes }
    ensures small { result ≤ 13 }
{
    match fid {
        None => 1,
        Some(_) => 13,
    }
}

/// The bytes of a reason.
#[tactic(auto, using(crate::proofs::Spans::reason_bytes))]
pub fn length_of_reason(reason: &Reason) -> usize
    ensures exact { result ≡ length (a_reason.piece reason.now).bytes }
    ensures small { result ≤ 19 }
{
    match *reason {
        Reason::NoDir(_) => 13,
        Reason::Marked(_) => 13,
        Reason::NoObject(_) => 13,
        Reason::WrongKind(_) => 13,
        Reason::NameTaken(_) => 13,
        Reason::NameOther(found) => 1 + length_of_optional_fid(found),
        Reason::FidUsed(_) => 13,
        Reason::Changed { .. } => 19,
        Reason::AttrChanged { .. } => 19,
        Reason::NotEmpty => 1,
        Reason::Loop => 1,
        Reason::VolumeFull(_) => 9,
    }
}
