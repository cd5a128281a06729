ghost use Rattle.std.specs.Prelude.{◌≡◌, ◌++◌, [], length, IfOk, OnOk, OnErr};
ghost use Rattle.coda_cancel.specs.Cancel.{added};
ghost use Rattle.coda_cancel.specs.Joins.{joins_of};
ghost use Rattle.coda_cancel.specs.Numbers.{IsRising};
ghost use Rattle.coda_cancel.specs.Weights.{total_weight};

use coda_cancel::{Join, Tail};
use coda_fid::Record;
use std::alloc::{AllocError, Global};
use std::marker::Model;

/// The records of a chunk, to which nothing is added, and what they weigh together.
#[derive(Debug, Drop)]
pub(crate) struct Chunk {
    records: Vec<Record>,
    weight: u64,
}

impl Model for Chunk {
    ghost use Rattle.std.specs.Prelude.{◌≡◌, List};
    ghost use Rattle.coda_fid.specs.declared.op.Record.{Record};
    ghost use Rattle.coda_cancel.specs.Weights.{total_weight};

    ghost Value = { List Record };

    ghost view = { λ c. c.records.items };

    ghost invariant = { λ c. c.weight ≡ total_weight c.records.items };
}

impl Chunk {
    /// No records.
    pub(crate) fn new(alloc: Global) -> Chunk
        ensures { result ≡ [] }
    {
        Chunk {
            records: Vec::new(alloc),
            weight: 0,
        }
    }

    /// These records, which weigh so much, in the memory that they have.
    pub(crate) fn of(records: Vec<Record>, weight: u64) -> Chunk
        requires { weight ≡ total_weight records.items }
        ensures { result ≡ records.items }
    {
        Chunk { records, weight }
    }

    /// The records, in the order of their numbers.
    pub(crate) fn records(&self) -> &[Record]
        ensures { result.now ≡ self.now }
    {
        &self.records
    }

    /// How many records there are.
    pub(crate) fn len(&self) -> usize
        ensures { result ≡ length self.now }
    {
        self.records.len()
    }

    /// What the records weigh together.
    pub(crate) fn weight(&self) -> u64
        ensures { result ≡ total_weight self.now }
    {
        self.weight
    }

    /// Puts the records in front of those of a tail, and leaves none here. Where memory is wanted both stay as they were.
    pub(crate) fn thaw(&mut self, tail: &mut Tail) -> Result<Vec<Join>, AllocError>
        requires { IsRising (self.old ++ tail.old) }
        ensures records { OnOk result (tail.new ≡ added self.old tail.old) }
        ensures joins { IfOk result (λ joins. joins.items ≡ joins_of self.old tail.old) }
        ensures emptied { OnOk result (self.new ≡ []) }
        ensures err { OnErr result (self.new ≡ self.old) }
        ensures err_tail { OnErr result (tail.new ≡ tail.old) }
    {
        let joins = tail.put_behind(&mut self.records)?;
        self.weight = 0;
        Ok(joins)
    }

    /// The same records, in memory of their own.
    pub(crate) fn copy(&self, alloc: Global) -> Result<Chunk, AllocError>
        ensures { IfOk result (λ chunk. chunk ≡ self.now) }
    {
        let records = copy_records(alloc, &self.records)?;
        Ok(Chunk {
            records,
            weight: self.weight,
        })
    }
}

fn copy_records(alloc: Global, records: &[Record]) -> Result<Vec<Record>, AllocError>
    ensures { IfOk result (λ copies. copies.items ≡ records.now) }
{
    let mut copies = Vec::with_capacity(alloc, records.len())?;
    for record in records {
        let copy = record.copy()?;
        copies.push(copy)?;
    }
    Ok(copies)
}
