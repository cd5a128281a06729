// The index of records that had none.
ghost use Rattle.std.specs.Prelude.{IfOk, OnOk};
ghost use Rattle.coda_cancel.specs.Mentions.{has, is_mentioned, Gains, IsIndexOf};

use crate::lent::LentRecords;
use crate::mentions::{Mention, put_record};
use std::alloc::{AllocError, Global};
use std::collections::BTreeSet;

/// Puts in what records mention, until memory is wanted.
pub(crate) fn note_all(
    index: &mut BTreeSet<Mention>,
    mut records: LentRecords<'_>,
) -> Result<(), AllocError>
    ensures { OnOk result (Gains (has index.old) (has index.new) (is_mentioned records.entry)) }
{
    while let Some(record) = records.take_first() {
        put_record(index, record)?;
    }
    Ok(())
}

/// The index of records.
pub(crate) fn index_of(
    alloc: Global,
    records: LentRecords<'_>,
) -> Result<BTreeSet<Mention>, AllocError>
    ensures { IfOk result (λ index. IsIndexOf index records.entry) }
{
    let mut index = BTreeSet::new(alloc);
    note_all(&mut index, records)?;
    Ok(index)
}
