// Creations that are undone.
ghost use Rattle.std.specs.Prelude.{◌≡◌, ◌≤◌, true, ◌++◌};
ghost use Rattle.coda_cancel.specs.Cancel.{is_other, is_undone, cancels, without};
ghost use Rattle.coda_cancel.specs.Mentions.{has, tells, Covers, CoversUpTo, IsSameBeyond, Loses, last_number};
ghost use Rattle.coda_cancel.specs.Numbers.{IsRising};
ghost use Rattle.coda_cancel.specs.Shelved.{is_numbered, AtNumber};

use crate::dropping::{creates, writes};
use crate::mentions::{Mention, forget, next_mention};
use crate::shelf::Shelf;
use coda_fid::{Fid, Op};
use std::collections::BTreeSet;

// Whether an operation mentions the object, and is no Store or Setattr of it.
pub(crate) fn is_other(op: &Op, fid: Fid) -> bool
    ensures { result ≡ is_other fid op.now }
{
    op.mentions(fid) && !writes(op, fid)
}

// Whether the records create the object, and no other one mentions it, besides its Stores and Setattrs.
fn is_undone(shelf: &Shelf, index: &BTreeSet<Mention>, fid: Fid) -> bool
    requires { Covers index.now shelf.now.records }
    ensures { result ≡ is_undone fid shelf.now.records }
{
    let last = shelf.last();
    let mut created = false;
    let mut after = None;
    while let Some(number) = next_mention(index, fid, after, last) {
        let op = &shelf.at(number).op;
        if is_other(op, fid) {
            if created || !creates(op, fid) {
                return false;
            }
            created = true;
        }
        after = Some(number);
    }
    created
}

/// Whether the operation removes an object whose creation in these records it undoes.
pub fn cancels(shelf: &Shelf, index: &BTreeSet<Mention>, op: &Op) -> bool
    requires { Covers index.now shelf.now.records }
    ensures { result ≡ cancels op.now shelf.now.records }
{
    match op {
        Op::Remove { fid, .. } => is_undone(shelf, index, *fid),
        Op::Rmdir { fid, .. } => is_undone(shelf, index, *fid),
        _ => false,
    }
}

/// Takes out the record of a number that is there.
pub fn take_one(shelf: &mut Shelf, index: &mut BTreeSet<Mention>, number: u64)
    requires { is_numbered number shelf.old.records ≡ true }
    ensures records { AtNumber number shelf.old.records (λ front rec back. shelf.new.records ≡ front ++ back) }
    ensures index { AtNumber number shelf.old.records (λ front rec back. Loses (has index.old) (has index.new) (tells rec)) }
    ensures rising { IsRising shelf.new.records }
    ensures room { shelf.old.room ≤ shelf.new.room }
{
    let record = shelf.take(number);
    forget(index, &record);
}

/// Takes out what mentions the object.
pub fn take_out(shelf: &mut Shelf, index: &mut BTreeSet<Mention>, fid: Fid)
    requires { Covers index.old shelf.old.records }
    ensures records { shelf.new.records ≡ without fid shelf.old.records }
    ensures indexed { CoversUpTo (last_number shelf.old.records) index.new shelf.new.records }
    ensures beyond { IsSameBeyond (last_number shelf.old.records) index.old index.new }
    ensures rising { IsRising shelf.old.records }
    ensures room { shelf.old.room ≤ shelf.new.room }
{
    let last = shelf.last();
    let mut after = None;
    while let Some(number) = next_mention(index, fid, after, last) {
        take_one(shelf, index, number);
        after = Some(number);
    }
}
