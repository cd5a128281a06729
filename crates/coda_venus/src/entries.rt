// Payloads of a client's journal, as they are written.
ghost use Rattle.std.specs.Prelude.{◌≡◌, ◌+◌, ◌<◌, ◌≤◌, ◌^◌, [], ◌∷◌, ◌++◌, true, false, length, IfOk, OnOk, vec_len};
ghost use Rattle.std.specs.Int.{w32};
ghost use Rattle.coda_journal.specs.Entries.{framed};
ghost use Rattle.coda_journal.specs.Lengths.{length_bytes};
ghost use Rattle.coda_record.specs.Form.{four};
ghost use Rattle.coda_record.specs.Spelling.{HasSpelling};
ghost use Rattle.coda_record.specs.Entries.{node as a_node};
ghost use Rattle.coda_record.specs.Table.{fid as a_fid, op as an_op};
ghost use Rattle.std.specs.List.{AllByRecursion};
ghost use Rattle.coda_record.specs.declared.entry.ClientEntry.TheVariants.{Op as OpEntry, Freeze as FreezeEntry, Settled as SettledEntry, Fetched as FetchedEntry};
ghost use Rattle.coda_record.specs.Parts.{u32 as a_u32};
ghost use Rattle.coda_venus.specs.History.{bytes_of_entries, payload_of};
ghost use Rattle.coda_venus.specs.Rounds.{dropping};

use crate::installing::fid_spelled;
use coda_certify::Verdict;
use coda_fid::{Fid, Record};
use coda_journal::{Frame, Journal};
use coda_record::lengths::length_of_record;
use coda_record::nodes::put_node;
use coda_record::writing::{
    put_fid, put_optional_fid, put_record, put_u8, put_u32, put_u64, put_verdict,
};
use coda_tree::Node;
use std::alloc::{AllocError, Global};

// The front of an entry whose payload has so many bytes: its gate and the length, with room for what comes behind.
#[tactic(auto, unfolding(coda_journal::specs::Lengths::length_bytes))]
fn open(alloc: Global, length: usize) -> Result<Vec<u8>, AllocError>
    requires { length < 2 ^ 32 }
    ensures { IfOk result (λ v. v.items ≡ 1 ∷ length_bytes w32 length) }
{
    let mut bytes = Vec::with_capacity(alloc, length + 6)?;
    bytes.push(1)?;
    bytes.extend_from_slice(&(length as u32).to_be_bytes())?;
    Ok(bytes)
}

// The entry of an operation, as it is written. Each operation makes one, so its bytes are put where they stay.
#[tactic(auto, using(crate::proofs::Framing::operation_framed))]
pub(crate) fn operation_frame(alloc: Global, volume: u32, rec: &Record) -> Result<Frame, AllocError>
    requires { HasSpelling (an_op four) rec.now.op }
    ensures { IfOk result (λ f. f.bytes.items ≡ framed w32 (payload_of (OpEntry volume rec.now ∷ []))) }
{
    let mut bytes = open(alloc, 9 + length_of_record(rec))?;
    put_u32(&mut bytes, 1)?;
    put_u8(&mut bytes, 1)?;
    put_u32(&mut bytes, volume)?;
    put_record(&mut bytes, rec)?;
    bytes.push(0)?;
    Ok(Frame { bytes })
}

// The payload of a freeze.
#[tactic(auto, unfolding(coda_record::specs::Entries::client_entry, coda_record::specs::Entries::client_payload))]
pub(crate) fn freeze_frame(
    alloc: Global,
    volume: u32,
    number: u64,
    home: u8,
    last: u64,
) -> Result<Frame, AllocError>
    ensures { IfOk result (λ f. f.bytes.items ≡ framed w32 (payload_of (FreezeEntry volume number home last ∷ []))) }
{
    let mut payload = Vec::new(alloc);
    put_u32(&mut payload, 1)?;
    put_u8(&mut payload, 2)?;
    put_u32(&mut payload, volume)?;
    put_u64(&mut payload, number)?;
    put_u8(&mut payload, home)?;
    put_u64(&mut payload, last)?;
    Frame::new(alloc, &payload)
}

// The payload of a settlement.
#[tactic(auto, unfolding(coda_record::specs::Entries::client_entry, coda_record::specs::Entries::client_payload))]
pub(crate) fn settled_frame(
    alloc: Global,
    volume: u32,
    number: u64,
    verdict: &Verdict,
) -> Result<Frame, AllocError>
    ensures { IfOk result (λ f. f.bytes.items ≡ framed w32 (payload_of (SettledEntry volume number verdict.now ∷ []))) }
{
    let mut payload = Vec::new(alloc);
    put_u32(&mut payload, 1)?;
    put_u8(&mut payload, 3)?;
    put_u32(&mut payload, volume)?;
    put_u64(&mut payload, number)?;
    put_verdict(&mut payload, verdict)?;
    Frame::new(alloc, &payload)
}

// The payload of an object that was fetched.
#[tactic(auto, unfolding(coda_record::specs::Entries::client_entry, coda_record::specs::Entries::client_payload))]
pub(crate) fn fetched_frame(
    alloc: Global,
    fid: Fid,
    parent: Option<Fid>,
    node: &Node,
) -> Result<Frame, AllocError>
    requires { HasSpelling (a_node four) node.now }
    ensures { IfOk result (λ f. f.bytes.items ≡ framed w32 (payload_of (FetchedEntry fid parent node.now ∷ []))) }
{
    let mut payload = Vec::new(alloc);
    put_u32(&mut payload, 1)?;
    put_u8(&mut payload, 5)?;
    put_fid(&mut payload, fid)?;
    put_optional_fid(&mut payload, parent)?;
    put_node(&mut payload, node)?;
    Frame::new(alloc, &payload)
}

// How many entries a payload has in which these are dropped before one more entry. Fails where that doesn't fit in 32
// bits.
fn count_behind(gone: &[Fid]) -> Result<u32, AllocError>
    ensures { IfOk result (λ n. n ≡ length gone.now + 1) }
{
    match u32::try_from(gone.len() + 1) {
        Ok(n) => Ok(n),
        Err(_) => Err(AllocError),
    }
}

// Writes that these are dropped, an entry for each.
fn put_drops(out: &mut Vec<u8>, gone: &[Fid]) -> Result<(), AllocError>
    ensures bytes { OnOk result (out.new.items ≡ out.old.items ++ bytes_of_entries (dropping gone.now)) }
    ensures spelled { OnOk result (AllByRecursion (HasSpelling a_fid) gone.now) }
{
    for fid in gone {
        fid_spelled(*fid);
        put_u8(out, 6)?;
        put_fid(out, *fid)?;
    }
    Ok(())
}

// The front of a payload in which these are dropped before one more entry. Fails for want of memory alone, which
// stands too for more entries than can be counted.
fn drops_behind(alloc: Global, gone: &[Fid]) -> Result<Vec<u8>, AllocError>
    ensures bytes { IfOk result (λ v. v.items ≡ (a_u32.piece (length gone.now + 1)).bytes ++ bytes_of_entries (dropping gone.now)) }
    ensures few { OnOk result (length gone.now + 1 < 2 ^ 32) }
    ensures spelled { OnOk result (AllByRecursion (HasSpelling a_fid) gone.now) }
{
    let count = count_behind(gone)?;
    let mut payload = Vec::new(alloc);
    put_u32(&mut payload, count)?;
    put_drops(&mut payload, gone)?;
    Ok(payload)
}

// The payload of an object that was fetched, for which these go.
#[tactic(auto, using(crate::proofs::Dropping::fetched_framed))]
pub(crate) fn installed_frame(
    alloc: Global,
    gone: &[Fid],
    fid: Fid,
    parent: Option<Fid>,
    node: &Node,
) -> Result<Frame, AllocError>
    requires { HasSpelling (a_node four) node.now }
    ensures frame { IfOk result (λ f. f.bytes.items ≡ framed w32 (payload_of (dropping gone.now ++ FetchedEntry fid parent node.now ∷ []))) }
    ensures few { OnOk result (length gone.now + 1 < 2 ^ 32) }
    ensures spelled { OnOk result (AllByRecursion (HasSpelling a_fid) gone.now) }
{
    let mut payload = drops_behind(alloc, gone)?;
    put_u8(&mut payload, 5)?;
    put_fid(&mut payload, fid)?;
    put_optional_fid(&mut payload, parent)?;
    put_node(&mut payload, node)?;
    Frame::new(alloc, &payload)
}

// The payload of an operation, for which these go.
#[tactic(auto, using(crate::proofs::Dropping::operation_framed))]
fn dropped_frame(
    alloc: Global,
    gone: &[Fid],
    volume: u32,
    rec: &Record,
) -> Result<Frame, AllocError>
    requires { HasSpelling (an_op four) rec.now.op }
    ensures frame { IfOk result (λ f. f.bytes.items ≡ framed w32 (payload_of (dropping gone.now ++ OpEntry volume rec.now ∷ []))) }
    ensures few { OnOk result (length gone.now + 1 < 2 ^ 32) }
    ensures spelled { OnOk result (AllByRecursion (HasSpelling a_fid) gone.now) }
{
    let mut payload = drops_behind(alloc, gone)?;
    put_u8(&mut payload, 1)?;
    put_u32(&mut payload, volume)?;
    put_record(&mut payload, rec)?;
    Frame::new(alloc, &payload)
}

// The same; where nobody goes its bytes are put where they stay.
pub(crate) fn performed_frame(
    alloc: Global,
    gone: &[Fid],
    volume: u32,
    rec: &Record,
) -> Result<Frame, AllocError>
    requires { HasSpelling (an_op four) rec.now.op }
    ensures frame { IfOk result (λ f. f.bytes.items ≡ framed w32 (payload_of (dropping gone.now ++ OpEntry volume rec.now ∷ []))) }
    ensures few { OnOk result (length gone.now + 1 < 2 ^ 32) }
    ensures spelled { OnOk result (AllByRecursion (HasSpelling a_fid) gone.now) }
{
    if gone.is_empty() {
        operation_frame(alloc, volume, rec)
    } else {
        dropped_frame(alloc, gone, volume, rec)
    }
}

// Whether a journal has room for a payload.
pub(crate) fn has_room<D>(journal: &Journal<D>, frame: &Frame) -> bool
    ensures fits { result ≡ true → journal.now.used + vec_len frame.now.bytes ≤ journal.now.area }
    ensures full { result ≡ false → journal.now.area < journal.now.used + vec_len frame.now.bytes }
{
    frame.bytes.len() as u64 <= journal.area - journal.used
}
