// What a log mentions once one more operation is behind it.
ghost use Rattle.std.specs.Prelude.{◌≡◌, ◌||◌, ◌++◌, ◌∷◌, [], Some, IfOk, OnOk};
ghost use Rattle.std.specs.BTreeMap as tree;
ghost use Rattle.std.specs.Ordering.{nat_cmp};
ghost use Rattle.coda_fid.specs.declared.fid.Fid.{Fid};
ghost use Rattle.coda_cancel.specs.Cancel.{add};
ghost use Rattle.coda_cancel.specs.Dropping.{mentioning};
ghost use Rattle.coda_cancel.specs.Numbers.{IsRising};
ghost use Rattle.coda_cml.specs.Steady.{any_record};
ghost use Rattle.coda_plain.specs.Deeds.{Operated};
ghost use Rattle.coda_walk.specs.Going.{is_listed};
ghost use Rattle.coda_venus.specs.Accepting.{is_mentioned};
ghost use Rattle.coda_venus.specs.Code.{volume_in};
ghost use Rattle.coda_venus.specs.State.{volume_after};

use crate::client::Client;
use crate::marks::named;
use crate::volume_log::VolumeLog;
use coda_cancel::{LentRecords, Tail};
use coda_fid::{Fid, Record};
use std::alloc::{AllocError, Global};

// Adds the objects that records mention, some of them maybe more than once.
fn add_mentioned(fids: &mut Vec<Fid>, mut records: LentRecords<'_>) -> Result<(), AllocError>
    ensures { OnOk result ((f : Fid) → is_listed fids.new.items f ≡ (is_listed fids.old.items f || any_record (mentioning f) records.entry)) }
{
    for _ in 0..records.len() {
        let Some(rec) = records.take_first() else {
            return Ok(());
        };
        let (more, count) = named(&rec.op);
        fids.extend_from_slice(&more[..count])?;
    }
    Ok(())
}

// A tail of one operation alone.
fn tail_of(alloc: Global, rec: &Record) -> Result<Tail, AllocError>
    ensures { IfOk result (λ tail. tail ≡ rec.now ∷ []) }
{
    let mut tail = Tail::new(alloc);
    let rec = rec.copy()?;
    match tail.add(rec) {
        Ok(_) => Ok(tail),
        Err(_) => Err(AllocError),
    }
}

// Records with one operation more, by cancellation.
fn tail_with(alloc: Global, records: &LentRecords<'_>, rec: &Record) -> Result<Tail, AllocError>
    requires { IsRising (records.now ++ rec.now ∷ []) }
    ensures { IfOk result (λ tail. tail ≡ add records.now rec.now) }
{
    let mut tail = tail_of(alloc, rec)?;
    let mut earlier = records.to_vec(alloc)?;
    tail.put_behind(&mut earlier)?;
    Ok(tail)
}

impl VolumeLog {
    // The objects that the log mentions once an operation is behind it, some of them maybe more than once. It costs
    // the records of the log, by the logarithm of how many there are.
    fn mentioned_after(&self, alloc: Global, rec: &Record) -> Result<Vec<Fid>, AllocError>
        requires { IsRising (self.now.log.records ++ rec.now ∷ []) }
        ensures { IfOk result (λ v. (f : Fid) → is_listed v.items f ≡ is_mentioned (volume_after (volume_in (Some self.now)) (Operated rec.now)) f) }
    {
        let (chunk, records) = self.log.records();
        let tail = tail_with(alloc, &records, rec)?;
        let mut fids = Vec::new(alloc);
        add_mentioned(&mut fids, LentRecords::of(chunk))?;
        add_mentioned(&mut fids, tail.records())?;
        Ok(fids)
    }
}

impl Client {
    // The objects that the log of a volume mentions once an operation is behind it, some of them maybe more than
    // once. It costs the records of the log, by the logarithm of how many there are.
    pub(crate) fn mentioned_after(&self, volume: u32, rec: &Record) -> Result<Vec<Fid>, AllocError>
        requires { IsRising ((volume_in (tree.get nat_cmp self.now.logs volume)).log.records ++ rec.now ∷ []) }
        ensures { IfOk result (λ v. (f : Fid) → is_listed v.items f ≡ is_mentioned (volume_after (volume_in (tree.get nat_cmp self.now.logs volume)) (Operated rec.now)) f) }
    {
        match self.logs.get(&volume) {
            Some(log) => log.mentioned_after(self.alloc, rec),
            None => VolumeLog::new(self.alloc).mentioned_after(self.alloc, rec),
        }
    }
}
