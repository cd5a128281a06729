// Handing kept versions on.
ghost use Rattle.std.specs.Prelude.{◌≡◌, ◌≤◌, ◌<◌, IfSome, ◌&&◌, true, ◌++◌, ◌∷◌, []};
ghost use Rattle.coda_fid.specs.Op.{carried};
ghost use Rattle.coda_cancel.specs.Handing.{nothing, with_over, with_pre, hand};
ghost use Rattle.coda_cancel.specs.Dropping.{drops};
ghost use Rattle.coda_cancel.specs.Cancel.{object, kept, debt};
ghost use Rattle.coda_cancel.specs.Mentions.{has, tells, Loses, Covers, CoversUpTo, IsSameBeyond, NoneBeyond, last_number};
ghost use Rattle.coda_cancel.specs.Numbers.{numbers, least, IsRising};
ghost use Rattle.coda_cancel.specs.Passing.{owed_to};
ghost use Rattle.coda_cancel.specs.Shelved.{is_numbered, AtNumber};

use crate::dropping::drops;
use crate::leaving::Leaving;
use crate::mentions::{Mention, next_until};
use crate::shelf::Shelf;
use crate::undoing::take_one;
use coda_fid::{Fid, Op, Over, Record, Sid};
use std::collections::BTreeSet;

// Gives the replaced object of a rename, if there is one, another kept version.
fn set_over(over: &mut Option<Over>, sid: Sid)
    ensures { over.new ≡ with_over (λ _ _. sid) over.old }
{
    if let Some(over) = over {
        over.pre = sid;
    }
}

fn set_pre(op: &mut Op, sid: Sid)
    ensures { op.new ≡ with_pre (λ _ _. sid) op.old }
{
    match op {
        Op::Create { .. } => {}
        Op::Mkdir { .. } => {}
        Op::Symlink { .. } => {}
        Op::Store { pre, .. } => *pre = sid,
        Op::Setattr { pre, .. } => *pre = sid,
        Op::Remove { pre, .. } => *pre = sid,
        Op::Rmdir { pre, .. } => *pre = sid,
        Op::Rename { over, .. } => set_over(over, sid),
    }
}

/// Hands a record what is owed to an object, if it carries a version of that.
pub fn pay(rec: &mut Record, fid: Fid, owed: Option<Sid>)
    ensures { rec.new ≡ hand (owed_to fid owed) rec.old }
{
    if rec.op.pre_of(fid).is_none() {
        return;
    }
    if let Some(sid) = owed {
        set_pre(&mut rec.op, sid);
    }
}

// Goes past the record of a number: it takes what is owed, or is dropped and hands on in turn what it has.
fn pass(
    shelf: &mut Shelf,
    index: &mut BTreeSet<Mention>,
    number: u64,
    op: &Op,
    fid: Fid,
    owed: Option<Sid>,
) -> Option<Sid>
    requires own { object (carried op.now) ≡ fid }
    requires there { is_numbered number shelf.old.records ≡ true }
    ensures records { AtNumber number shelf.old.records (λ front rec back. shelf.new.records ≡ front ++ kept (drops op.now) (owed_to fid owed) (rec ∷ []) ++ back) }
    ensures owed { AtNumber number shelf.old.records (λ front rec back. owed_to fid result ≡ debt (drops op.now) (owed_to fid owed) (rec ∷ [])) }
    ensures index { AtNumber number shelf.old.records (λ front rec back. Loses (has index.old) (has index.new) (λ f n. drops op.now rec.op && tells rec f n)) }
    ensures rising { IsRising shelf.new.records }
    ensures room { shelf.old.room ≤ shelf.new.room }
{
    let record = shelf.at(number);
    let Some(pre) = record.op.pre_of(fid) else {
        return owed;
    };
    if drops(op, &record.op) {
        take_one(shelf, index, number);
        return Some(owed.unwrap_or(pre));
    }
    shelf.pay(number, fid, owed);
    None
}

// A number before this one, if there is one.
fn number_before(number: u64) -> Option<u64>
    ensures { IfSome result (λ before. before < number) }
{
    number.checked_sub(1)
}

/// Drops what an operation makes needless and hands on what that has, and answers what the operation is owed. The least
/// number that goes is known, and the last that mentions the operation's object.
///
/// Looks at the records from the one to the other that mention it.
pub fn drop_needless(
    shelf: &mut Shelf,
    index: &mut BTreeSet<Mention>,
    op: &Op,
    fid: Fid,
    gone: Leaving,
) -> Option<Sid>
    requires own { object (carried op.now) ≡ fid }
    requires least { gone.least ≡ least (numbers (drops op.now) shelf.old.records) }
    requires end { NoneBeyond shelf.old.records fid gone.end }
    requires indexed { Covers index.old shelf.old.records }
    ensures records { shelf.new.records ≡ kept (drops op.now) nothing shelf.old.records }
    ensures owed { owed_to fid result ≡ debt (drops op.now) nothing shelf.old.records }
    ensures indexed { CoversUpTo (last_number shelf.old.records) index.new shelf.new.records }
    ensures beyond { IsSameBeyond (last_number shelf.old.records) index.old index.new }
    ensures rising { IsRising shelf.old.records }
    ensures room { shelf.old.room ≤ shelf.new.room }
{
    let last = shelf.last();
    let Some(least) = gone.least else {
        return None;
    };
    let mut owed = None;
    let mut after = number_before(least);
    while let Some(number) = next_until(index, fid, after, last, gone.end) {
        owed = pass(shelf, index, number, op, fid, owed);
        after = Some(number);
    }
    owed
}
