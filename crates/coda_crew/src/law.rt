// Laws of crews. They are proved, and do nothing.
ghost use Rattle.std.specs.Prelude.{◌≡◌, ℕ, Bool, true, false};
ghost use Rattle.coda_disk.specs.Bays.{KeepsOthers};
ghost use Rattle.coda_actors.specs.Fits.{Fits, AsksOwn, OutFits, Others};
ghost use Rattle.coda_actors.specs.Plain.{PlainActor, Deed, Step};
ghost use Rattle.coda_crew.specs.Crews.{slot_at, KeepsOtherSlots, FitsAll, OutAll, OwnAll, Takes, LeavesBe};

use coda_actors::{Actor, Slot};
use coda_disk::Bay;
use std::collections::BTreeMap;

/// A law of two crews over one bay: a call on a number that isn't one of the other crew's leaves its numbers be; and while they are left
/// be, its slots and the bay stand for it still.
pub fn others_fit<B: Bay, A: Actor<B::D>>(
    before: &B,
    after: &B,
    slots: &BTreeMap<u32, Slot<A, B::D>>,
)
    ensures call { (of : ℕ → Bool) (number : ℕ) → of number ≡ false → Others number (B.out before.now) (B.out after.now)
        → KeepsOthers number (B.has before.now) (B.has after.now) → LeavesBe of (B.out before.now) (B.out after.now) (B.has before.now) (B.has after.now) }
    ensures fits { (of : ℕ → Bool) (plain : ℕ → PlainActor A.form.Entry) → LeavesBe of (B.out before.now) (B.out after.now) (B.has before.now) (B.has after.now)
        → FitsAll A.form B.D.told of (B.out before.now) (B.has before.now) slots.now plain
        → FitsAll A.form B.D.told of (B.out after.now) (B.has after.now) slots.now plain }
    ensures out { (of : ℕ → Bool) → LeavesBe of (B.out before.now) (B.out after.now) (B.has before.now) (B.has after.now)
        → OutAll of (B.out before.now) slots.now → OutAll of (B.out after.now) slots.now }
{}

/// A law of crews: what a call does to one actor, while the bay and each other slot stay as they were, is done to the crew. The disks that
/// are out are in their slots still, and each actor asks for a header of its kind.
pub fn steps_fit<B: Bay, A: Actor<B::D>>(
    bay: &B,
    before: &BTreeMap<u32, Slot<A, B::D>>,
    after: &BTreeMap<u32, Slot<A, B::D>>,
)
    ensures step { (of : ℕ → Bool) (plain : ℕ → PlainActor A.form.Entry) (number : ℕ) (deed : Deed A.form.Entry) (next : PlainActor A.form.Entry)
        → FitsAll A.form B.D.told of (B.out bay.now) (B.has bay.now) before.now plain → KeepsOtherSlots number before.now after.now
        → Step A.form (plain number) deed next → Fits A.form B.D.told (B.out bay.now number) (B.has bay.now number) (slot_at after.now number) next
        → Takes A.form B.D.told of plain number deed (B.out bay.now) (B.has bay.now) after.now }
    ensures out { (of : ℕ → Bool) (number : ℕ) → KeepsOtherSlots number before.now after.now → of number ≡ true → OutFits (B.out bay.now number) (slot_at after.now number)
        → OutAll of (B.out bay.now) before.now → OutAll of (B.out bay.now) after.now }
    ensures own { (number : ℕ) → KeepsOtherSlots number before.now after.now → AsksOwn A.form (slot_at after.now number)
        → OwnAll A.form before.now → OwnAll A.form after.now }
{}
