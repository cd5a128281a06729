// An index of records by the objects that they mention.
ghost use Rattle.std.specs.Prelude.{ℕ, List, Option, Some, None, ◌⊎◌, ◌≡◌, ◌≤◌, false, [], ◌∷◌, take as first, IfSome, IfNone, OnOk, OnErr};
ghost use Rattle.coda_fid.specs.declared.fid.Fid.{Fid};
ghost use Rattle.coda_fid.specs.declared.op.Record.{Record};
ghost use Rattle.coda_fid.specs.Op.{mentions, over_fids};
ghost use Rattle.coda_cancel.specs.Mentions.{has, tells, names, with_number, IsSame, IsSameElse, Gains, Loses, IsNext, NoneNext, Index, IsIndexOf, any_mentions, AreAhead, IsFirst, NoneBetween};

use coda_fid::{Fid, Op, Over, Record};
use std::alloc::AllocError;
use std::collections::BTreeSet;
use std::collections::btree_set::Range;

// An object that a record of the number mentions.
#[derive(Clone, Copy, Debug, PartialEq, Eq, PartialOrd, Ord)]
pub(crate) struct Mention {
    pub(crate) fid: Fid,
    pub(crate) number: u64,
}

// The replaced object, and else another one.
fn over_or(over: &Option<Over>, fid: Fid) -> Fid
    ensures { (other : Fid) → names (fid ∷ result ∷ []) other ≡ names (fid ∷ over_fids over.now) other }
{
    match over {
        Some(over) => over.fid,
        None => fid,
    }
}

// The objects that an operation mentions: the first of the four, so many.
fn fids(op: &Op) -> ([Fid; 4], usize)
    ensures names { (fid : Fid) → names (first result.1 result.0) fid ≡ mentions op.now fid }
    ensures within { result.1 ≤ 4 }
{
    match op {
        Op::Create { dir, fid, .. } => ([*dir, *fid, *fid, *fid], 2),
        Op::Mkdir { dir, fid, .. } => ([*dir, *fid, *fid, *fid], 2),
        Op::Symlink { dir, fid, .. } => ([*dir, *fid, *fid, *fid], 2),
        Op::Store { fid, .. } => ([*fid; 4], 1),
        Op::Setattr { fid, .. } => ([*fid; 4], 1),
        Op::Remove { dir, fid, .. } => ([*dir, *fid, *fid, *fid], 2),
        Op::Rmdir { dir, fid, .. } => ([*dir, *fid, *fid, *fid], 2),
        Op::Rename {
            from_dir,
            to_dir,
            fid,
            over,
            ..
        } => ([*from_dir, *to_dir, *fid, over_or(over, *fid)], 4),
    }
}

// Puts one in.
fn put(index: &mut BTreeSet<Mention>, fid: Fid, number: u64) -> Result<(), AllocError>
    ensures ok { OnOk result (Gains (has index.old) (has index.new) (with_number number (fid ∷ []))) }
    ensures err { OnErr result (IsSame (has index.old) (has index.new)) }
{
    index.insert(Mention { fid, number })?;
    Ok(())
}

// Takes one out.
fn take(index: &mut BTreeSet<Mention>, fid: Fid, number: u64)
    ensures { Loses (has index.old) (has index.new) (with_number number (fid ∷ [])) }
{
    index.remove(&Mention { fid, number });
}

// Puts in a number with fids, until memory is wanted.
fn put_all(index: &mut BTreeSet<Mention>, fids: &[Fid], number: u64) -> Result<(), AllocError>
    ensures ok { OnOk result (Gains (has index.old) (has index.new) (with_number number fids.now)) }
    ensures err { OnErr result (IsSameElse (has index.old) (has index.new) (with_number number fids.now)) }
{
    for fid in fids {
        put(index, *fid, number)?;
    }
    Ok(())
}

// Takes out a number with fids.
fn take_all(index: &mut BTreeSet<Mention>, fids: &[Fid], number: u64)
    ensures { Loses (has index.old) (has index.new) (with_number number fids.now) }
{
    for fid in fids {
        take(index, *fid, number);
    }
}

/// Puts in what a record mentions, until memory is wanted.
pub(crate) fn put_record(index: &mut BTreeSet<Mention>, rec: &Record) -> Result<(), AllocError>
    ensures { OnOk result (Gains (has index.old) (has index.new) (tells rec.now)) }
{
    let (fids, count) = fids(&rec.op);
    put_all(index, &fids[..count], rec.number)
}

/// Puts in what a record mentions; where memory is wanted, nothing. No record of its number is there.
pub(crate) fn note(index: &mut BTreeSet<Mention>, rec: &Record) -> Result<(), AllocError>
    requires { (fid : Fid) → has index.old fid rec.now.number ≡ false }
    ensures ok { OnOk result (Gains (has index.old) (has index.new) (tells rec.now)) }
    ensures err { OnErr result (IsSame (has index.old) (has index.new)) }
{
    let (fids, count) = fids(&rec.op);
    let done = put_all(index, &fids[..count], rec.number);
    if done.is_err() {
        take_all(index, &fids[..count], rec.number);
    }
    done
}

/// Takes out what a record mentions. Wants no memory.
pub(crate) fn forget(index: &mut BTreeSet<Mention>, rec: &Record)
    ensures { Loses (has index.old) (has index.new) (tells rec.now) }
{
    let (mentioned, count) = fids(&rec.op);
    take_all(index, &mentioned[..count], rec.number);
}

/// What the index has from the object's first number on.
pub(crate) fn mentions_of(index: &BTreeSet<Mention>, fid: Fid) -> Range<'_, Mention>
    ensures { AreAhead index.now fid None result }
{
    index.range(Mention { fid, number: 0 }..)
}

/// Whether a record mentions the object, by the index of the records. Costs one search in it.
pub(crate) fn has_object(index: &BTreeSet<Mention>, fid: Fid) -> bool
    ensures { (recs : List Record) → IsIndexOf index.now recs → result ≡ any_mentions fid recs }
{
    match mentions_of(index, fid).next() {
        Some(mention) => mention.fid == fid,
        None => false,
    }
}

/// Takes the next of the mentions, and answers its number if it is of the object, up to a number.
pub(crate) fn take_next(
    mentions: &mut Range<'_, Mention>,
    fid: Fid,
    last: Option<u64>,
) -> Option<u64>
    ensures some { (index : Index) (after : Option ℕ) → AreAhead index fid after mentions.old → IfSome result (λ number. IsNext index fid after last number × AreAhead index fid (Some number) mentions.new) }
    ensures none { (index : Index) (after : Option ℕ) → AreAhead index fid after mentions.old → IfNone result (NoneNext index fid after last) }
{
    let last = last?;
    let mention = mentions.next()?;
    if mention.fid == fid && mention.number <= last {
        Some(mention.number)
    } else {
        None
    }
}

/// The number of the first record that mentions the object, of those above a number and up to another.
pub(crate) fn next_mention(
    index: &BTreeSet<Mention>,
    fid: Fid,
    after: Option<u64>,
    last: Option<u64>,
) -> Option<u64>
    ensures some { IfSome result (IsNext index.now fid after last) }
    ensures none { IfNone result (NoneNext index.now fid after last) }
{
    let last = last?;
    let from = match after {
        Some(number) => number.checked_add(1)?,
        None => 0,
    };
    if from > last {
        return None;
    }
    first_between(index, fid, from, last)
}

/// The number of the next record that mentions the object, as [`next_mention`]; none at the last one, of this number.
pub(crate) fn next_until(
    index: &BTreeSet<Mention>,
    fid: Fid,
    after: Option<u64>,
    last: Option<u64>,
    end: Option<u64>,
) -> Option<u64>
    ensures some { IfSome result (IsNext index.now fid after last) }
    ensures none { IfNone result ((after ≡ end) ⊎ NoneNext index.now fid after last) }
{
    if after == end {
        return None;
    }
    next_mention(index, fid, after, last)
}

// The first number from one up to another under which the index has the object.
fn first_between(index: &BTreeSet<Mention>, fid: Fid, from: u64, last: u64) -> Option<u64>
    requires { from ≤ last }
    ensures some { IfSome result (IsFirst index.now fid from last) }
    ensures none { IfNone result (NoneBetween index.now fid from last) }
{
    // One bound alone, since each costs a search.
    let start = Mention { fid, number: from };
    let Some(mention) = index.range(start..).next() else {
        return None;
    };
    if mention.fid == fid && mention.number <= last {
        Some(mention.number)
    } else {
        None
    }
}
