// Adding an operation to records, by cancellation.
ghost use Rattle.std.specs.Prelude.{◌≡◌, ◌≤◌, ◌<◌, ◌+◌, ◌^◌, ◌++◌, ◌∷◌, [], Some, IfSome};
ghost use Rattle.std.specs.Vec.{vec_len, vec_capacity};
ghost use Rattle.coda_fid.specs.Op.{carried};
ghost use Rattle.coda_cancel.specs.Cancel.{object, cancels, without, appended, add, added};
ghost use Rattle.coda_cancel.specs.Joins.{joins_of};
ghost use Rattle.coda_cancel.specs.Mentions.{NoneBeyond, CoversUpTo, IsSameBeyond, IsIndexOf};
ghost use Rattle.coda_cancel.specs.Numbers.{AreBelow, IsRising, numbers, least};
ghost use Rattle.coda_cancel.specs.Dropping.{drops};
ghost use Rattle.coda_cancel.specs.Passing.{goes};
ghost use Rattle.coda_cancel.specs.Weights.{total_weight};

use crate::handing::{drop_needless, pay};
use crate::join::Join;
use crate::leaving::{Leaving, leaving_with};
use crate::mentions::{Mention, forget};
use crate::shelf::Shelf;
use crate::undoing::take_out;
use coda_fid::{Fid, Record};
use std::collections::BTreeSet;

// Drops what the operation makes needless, and puts it at the end.
fn append(
    shelf: &mut Shelf,
    index: &mut BTreeSet<Mention>,
    mut rec: Record,
    fid: Fid,
    gone: Leaving,
)
    requires room { 0 < shelf.old.room }
    requires later { AreBelow rec.number shelf.old.records }
    requires indexed { CoversUpTo (Some rec.number) index.old (shelf.old.records ++ rec ∷ []) }
    requires own { object (carried rec.op) ≡ fid }
    requires least { gone.least ≡ least (numbers (drops rec.op) shelf.old.records) }
    requires end { NoneBeyond shelf.old.records fid gone.end }
    ensures records { shelf.new.records ≡ appended shelf.old.records rec }
    ensures indexed { CoversUpTo (Some rec.number) index.new shelf.new.records }
    ensures beyond { IsSameBeyond (Some rec.number) index.old index.new }
    ensures room { shelf.old.room ≤ shelf.new.room + 1 }
{
    let owed = drop_needless(shelf, index, &rec.op, fid, gone);
    pay(&mut rec, fid, owed);
    shelf.push(rec);
}

// Takes out all that mentions the object, and forgets the operation that undoes its creation.
fn undo(shelf: &mut Shelf, index: &mut BTreeSet<Mention>, rec: &Record, fid: Fid)
    requires later { AreBelow rec.now.number shelf.old.records }
    requires indexed { CoversUpTo (Some rec.now.number) index.old (shelf.old.records ++ rec.now ∷ []) }
    ensures records { shelf.new.records ≡ without fid shelf.old.records }
    ensures indexed { CoversUpTo (Some rec.now.number) index.new shelf.new.records }
    ensures beyond { IsSameBeyond (Some rec.now.number) index.old index.new }
    ensures room { shelf.old.room ≤ shelf.new.room }
{
    take_out(shelf, index, fid);
    forget(index, rec);
}

/// Adds an operation that the index knows already, for which there is room; it was asked what goes with
/// it. Wants no memory.
pub(crate) fn add_reserved(
    shelf: &mut Shelf,
    index: &mut BTreeSet<Mention>,
    rec: Record,
    gone: Leaving,
)
    requires room { 0 < shelf.old.room }
    requires later { AreBelow rec.number shelf.old.records }
    requires indexed { CoversUpTo (Some rec.number) index.old (shelf.old.records ++ rec ∷ []) }
    requires cancelled { gone.cancelled ≡ cancels rec.op shelf.old.records }
    requires least { gone.least ≡ least (numbers (goes gone.cancelled rec.op) shelf.old.records) }
    requires end { IfSome (carried rec.op) (λ over. NoneBeyond shelf.old.records over.fid gone.end) }
    ensures records { shelf.new.records ≡ add shelf.old.records rec }
    ensures indexed { CoversUpTo (Some rec.number) index.new shelf.new.records }
    ensures beyond { IsSameBeyond (Some rec.number) index.old index.new }
    ensures room { shelf.old.room ≤ shelf.new.room + 1 }
{
    let Some(over) = rec.op.carried() else {
        shelf.push(rec);
        return;
    };
    if gone.cancelled {
        undo(shelf, index, &rec, over.fid);
    } else {
        append(shelf, index, rec, over.fid, gone);
    }
}

/// Adds operations in turn that the index knows already, notes those that dropped records, and answers what the records
/// weigh then; before, they weigh so much.
pub fn add_each(
    shelf: &mut Shelf,
    index: &mut BTreeSet<Mention>,
    mut later: Vec<Record>,
    joins: &mut Vec<Join>,
    mut weight: u64,
) -> u64
    requires room { vec_len later ≤ shelf.old.room }
    requires joins_room { vec_len joins.old + vec_len later ≤ vec_capacity joins.old }
    requires rising { IsRising (shelf.old.records ++ later.items) }
    requires indexed { IsIndexOf index.old (shelf.old.records ++ later.items) }
    requires weight { weight ≡ total_weight shelf.old.records }
    requires light { total_weight (shelf.old.records ++ later.items) < 2 ^ 64 }
    ensures records { shelf.new.records ≡ added shelf.old.records later.items }
    ensures joins { joins.new.items ≡ joins.old.items ++ joins_of shelf.old.records later.items }
    ensures indexed { IsIndexOf index.new shelf.new.records }
    ensures weight { result ≡ total_weight shelf.new.records }
{
    later.reverse();
    while let Some(rec) = later.pop() {
        let number = rec.number;
        let gone = leaving_with(shelf, index, &rec.op);
        weight = weight - gone.weight + gone.added(&rec);
        add_reserved(shelf, index, rec, gone);
        if let Some(least) = gone.least {
            joins.push_reserved(Join { least, number });
        }
    }
    weight
}
