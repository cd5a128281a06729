ghost use Rattle.std.specs.Prelude.{◌≡◌, ◌+◌, ℕ, IfOk};
ghost use Rattle.std.specs.List.Sorted.{IsStrictlySortedBy};
ghost use Rattle.coda_fid.specs.Fid.{fid_cmp};
ghost use Rattle.coda_cache.specs.State.{CacheState};
ghost use Rattle.coda_cache.specs.Prospects.{Foresees};
ghost use Rattle.coda_cache.specs.Growing.{growth_of, growth_on, growth_by, growth_by_on};

use crate::contents::Contents;
use crate::prospect::Prospect;
use crate::room;
use coda_fid::{Fid, Record};
use std::alloc::AllocError;
use std::collections::BTreeSet;

impl Contents {
    // The blocks with those by which a node grows.
    fn plus_growth(
        &self,
        prospect: &Prospect,
        rec: &Record,
        blocks: u64,
        fid: Fid,
    ) -> Result<u64, AllocError>
        ensures { (client : ℕ) (n : CacheState) → Foresees self.now client rec.now n prospect.now → IfOk result (λ sum. sum ≡ blocks + growth_of self.now n fid) }
    {
        let after = self.blocks_ahead(prospect, rec, fid)?;
        let more = after.saturating_sub(self.blocks(fid));
        room::plus(blocks, more as u64)
    }

    // By how many blocks the nodes grow that an operation mentions.
    pub(crate) fn growth(&self, prospect: &Prospect, rec: &Record) -> Result<u64, AllocError>
        ensures sum { (client : ℕ) (n : CacheState) → Foresees self.now client rec.now n prospect.now → IfOk result (λ sum. sum ≡ growth_on self.now n prospect.now.touched.keys) }
        ensures rise { IfOk result (λ _. IsStrictlySortedBy fid_cmp prospect.now.touched.keys) }
    {
        let mut blocks = 0;
        for fid in prospect.touched.iter() {
            blocks = self.plus_growth(prospect, rec, blocks, *fid)?;
        }
        Ok(blocks)
    }

    // The blocks with those by which a node grows as an operation is applied.
    fn plus_applied(&self, rec: &Record, blocks: u64, fid: Fid) -> Result<u64, AllocError>
        ensures { (client : ℕ) → IfOk result (λ sum. sum ≡ blocks + growth_by self.now client rec.now fid) }
    {
        let after = self.blocks_applied(rec, fid)?;
        let more = after.saturating_sub(self.blocks(fid));
        room::plus(blocks, more as u64)
    }

    // By how many blocks these nodes grow as an operation is applied. What goes with the node that it takes out isn't looked for.
    pub(crate) fn growth_by(&self, rec: &Record, touched: &BTreeSet<Fid>) -> Result<u64, AllocError>
        ensures { (client : ℕ) → IfOk result (λ sum. sum ≡ growth_by_on self.now client rec.now touched.now.keys) }
    {
        let mut blocks = 0;
        for fid in touched.iter() {
            blocks = self.plus_applied(rec, blocks, *fid)?;
        }
        Ok(blocks)
    }
}
