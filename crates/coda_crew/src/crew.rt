// What is done to the actors of a crew, one at a time, and at the end of their cell.
ghost use Rattle.std.specs.Prelude.{◌≡◌, ℕ, ◌≤◌, ◌++◌, ◌∷◌, [], List, Bool, true, false, IfOk, OnOk, OnErr, Ok, Err, Some, MatchOption};
ghost use Rattle.coda_io.specs.Faults.{counted, Rose, HasCause};
ghost use Rattle.coda_disk.specs.Bays.{KeepsAll, KeepsOthers};
ghost use Rattle.coda_journal.specs.Header.{IsHeader};
ghost use Rattle.coda_journal.specs.declared.header.Header.{Header as AskedHeader};
ghost use Rattle.coda_actors.specs.Fits.{StandsFor, AsksOwn, Others, OutFits};
ghost use Rattle.coda_actors.specs.Plain.{PlainActor, Opens, Crashes, Recovers, Arms, Leaves};
ghost use Rattle.coda_actors.specs.Slots.{is_made, is_up, IsOpened, IsRecovered, count_in, sum_with, passes_in};
ghost use Rattle.coda_crew.specs.Crews.{slot_at, KeepsSlots, KeepsOtherSlots, FitsAll, OutAll, OwnAll, StandsAll, IsAtEntry, Takes, IsOutIfHeld, Lies, out_after, LeavesBe, sum_all, CountsAt};

use crate::fault::CrewFault;
use crate::places::{make_place, pop, put, take};
use coda_actors::{Actor, Mounting, Slot};
use coda_disk::{Bay, BayFault, Disk};
use coda_journal::Header;
use std::alloc::Global;
use std::collections::BTreeMap;

/// The slots of a crew before its first line: no actor is made, and the bay has each disk.
pub fn unmade<B: Bay, A: Actor<B::D>>(alloc: Global, _bay: &B) -> BTreeMap<u32, Slot<A, B::D>>
    ensures fits { (of : ℕ → Bool) (plain : ℕ → PlainActor A.form.Entry) → ((k : ℕ) → of k ≡ true → B.out _bay.now k ≡ false)
        → IsAtEntry A.form of (B.has _bay.now) plain → FitsAll A.form B.D.told of (B.out _bay.now) (B.has _bay.now) result plain }
    ensures out { (of : ℕ → Bool) → ((k : ℕ) → of k ≡ true → B.out _bay.now k ≡ false) → OutAll of (B.out _bay.now) result }
    ensures own { OwnAll A.form result }
    ensures vacant { (k : ℕ) → slot_at result k ≡ Slot.Vacant }
    ensures none { result.entries ≡ [] }
{
    BTreeMap::new(alloc)
}

/// Opens the actor of a number that no line made: mounts its disk under the header that its line asks for. The disk is taken from the bay,
/// unless its slot has it. The actor is up, or down, or isn't made, by how the mounting ended.
///
/// # Errors
///
/// `Memory` where there was none for the place of the actor, and `Bay` where the bay refused the disk. All slots are as they were, and
/// nothing is out that wasn't.
pub fn open<B: Bay, A: Actor<B::D> + Drop>(
    alloc: Global,
    bay: &mut B,
    slots: &mut BTreeMap<u32, Slot<A, B::D>>,
    number: u32,
    header: &Header,
) -> Result<Mounting, CrewFault>
    requires unmade { is_made (slot_at slots.old number) ≡ false }
    requires out { OutFits (B.out bay.old number) (slot_at slots.old number) }
    requires header { IsHeader header.now }
    requires owner { header.now.kind ≡ A.form.owner }
    ensures step { (of : ℕ → Bool) (plain : ℕ → PlainActor A.form.Entry) → FitsAll A.form B.D.told of (B.out bay.old) (B.has bay.old) slots.old plain → of number ≡ true
        → IfOk result (λ mounting. Takes A.form B.D.told of plain number (Opens header.now mounting) (B.out bay.new) (B.has bay.new) slots.new) }
    ensures step_err { (of : ℕ → Bool) (plain : ℕ → PlainActor A.form.Entry) → FitsAll A.form B.D.told of (B.out bay.old) (B.has bay.old) slots.old plain
        → OnErr result (FitsAll A.form B.D.told of (B.out bay.new) (B.has bay.new) slots.new plain) }
    ensures opened { IfOk result (λ mounting. IsOpened A.form mounting (slot_at slots.new number)) }
    ensures out { (of : ℕ → Bool) → OutAll of (B.out bay.old) slots.old → of number ≡ true → OutAll of (B.out bay.new) slots.new }
    ensures own { OwnAll A.form slots.old → OwnAll A.form slots.new }
    ensures slots { KeepsOtherSlots number slots.old slots.new }
    ensures counts { CountsAt number slots.old slots.new }
    ensures slots_err { OnErr result (KeepsSlots slots.old slots.new) }
    ensures others { Others number (B.out bay.old) (B.out bay.new) }
    ensures keeps { KeepsOthers number (B.has bay.old) (B.has bay.new) }
    ensures answered { B.answered bay.new ≡ B.answered bay.old }
    ensures later { OnOk result (count_in A.form B.D.faults (slot_at slots.old number) ≤ count_in A.form B.D.faults (slot_at slots.new number)) }
    ensures cause { IfOk result (λ mounting. mounting ≡ Mounting.DiskFault
        → Rose (count_in A.form B.D.faults (slot_at slots.old number)) (count_in A.form B.D.faults (slot_at slots.new number))) }
    ensures arms { OnOk result (count_in A.form B.D.arms (slot_at slots.new number) ≡ count_in A.form B.D.arms (slot_at slots.old number)) }
    ensures disk_faults { B.disk_faults bay.new ≡ B.disk_faults bay.old }
    ensures disk_arms { B.disk_arms bay.new ≡ B.disk_arms bay.old }
    ensures bay_later { B.faults bay.old ≤ B.faults bay.new }
    ensures bay_cause { result ≡ Err CrewFault.Bay → Rose (B.faults bay.old) (B.faults bay.new) }
    ensures memory { result ≡ Err CrewFault.Memory → B.faults bay.new ≡ B.faults bay.old }
    ensures follows { B.follows bay.old bay.new }
{
    if make_place(slots, number).is_err() {
        return Err(CrewFault::Memory);
    }
    let slot = take(slots, number);
    match coda_actors::open(alloc, bay, number, slot, header) {
        Ok((mounting, slot)) => {
            put(slots, number, slot);
            Ok(mounting)
        }
        Err(_) => Err(CrewFault::Bay),
    }
}

/// Crashes the actor of a number that was made. It is down, and its disk has one of the images that a crash may leave, the one that the
/// bay answers; `choice` says which.
///
/// # Errors
///
/// `BayFault` where the bay refused: the disk is lost, and its number stays out.
pub fn crash<B: Bay, A: Actor<B::D> + Drop>(
    bay: &mut B,
    slots: &mut BTreeMap<u32, Slot<A, B::D>>,
    number: u32,
    choice: u64,
) -> Result<(), BayFault>
    requires made { is_made (slot_at slots.old number) ≡ true }
    requires own { AsksOwn A.form (slot_at slots.old number) }
    ensures step { (of : ℕ → Bool) (plain : ℕ → PlainActor A.form.Entry) → FitsAll A.form B.D.told of (B.out bay.old) (B.has bay.old) slots.old plain → of number ≡ true
        → OnOk result ((image : List ℕ) × (B.answered bay.new ≡ B.answered bay.old ++ image ∷ [])
        × Takes A.form B.D.told of plain number (Crashes image) (B.out bay.new) (B.has bay.new) slots.new) }
    ensures answered_err { OnErr result (B.answered bay.new ≡ B.answered bay.old) }
    ensures down { OnOk result ((is_made (slot_at slots.new number) ≡ true) × (is_up A.form (slot_at slots.new number) ≡ false)) }
    ensures out { (of : ℕ → Bool) → OutAll of (B.out bay.old) slots.old → OnOk result (OutAll of (B.out bay.new) slots.new) }
    ensures own { OwnAll A.form slots.old → OwnAll A.form slots.new }
    ensures slots { KeepsOtherSlots number slots.old slots.new }
    ensures counts { CountsAt number slots.old slots.new }
    ensures lost { OnErr result (slot_at slots.new number ≡ Slot.Vacant) }
    ensures numbers { (k : ℕ) → B.out bay.new k ≡ B.out bay.old k }
    ensures keeps { KeepsAll (B.has bay.old) (B.has bay.new) }
    ensures rested { OnOk result ((count_in A.form B.D.faults (slot_at slots.new number) ≡ 0) × (count_in A.form B.D.arms (slot_at slots.new number) ≡ 0)) }
    ensures disk_faults { B.disk_faults bay.new ≡ sum_with A.form B.D.faults (slot_at slots.old number) (B.disk_faults bay.old) }
    ensures disk_arms { B.disk_arms bay.new ≡ sum_with A.form B.D.arms (slot_at slots.old number) (B.disk_arms bay.old) }
    ensures bay_cause { HasCause (B.faults bay.old) (B.faults bay.new) result }
    ensures follows { B.follows bay.old bay.new }
{
    let slot = take(slots, number);
    match coda_actors::crash(bay, slot, choice) {
        Ok(slot) => {
            put(slots, number, slot);
            Ok(())
        }
        Err(fault) => Err(fault),
    }
}

/// Recovers the actor of a number that was made: mounts its disk once more, under the header that its making line asked for. It is up again
/// where the mounting succeeds, and else down.
pub fn recover<B: Bay, A: Actor<B::D> + Drop>(
    alloc: Global,
    _bay: &B,
    slots: &mut BTreeMap<u32, Slot<A, B::D>>,
    number: u32,
) -> Mounting
    requires made { is_made (slot_at slots.old number) ≡ true }
    requires own { AsksOwn A.form (slot_at slots.old number) }
    ensures step { (of : ℕ → Bool) (plain : ℕ → PlainActor A.form.Entry) → FitsAll A.form B.D.told of (B.out _bay.now) (B.has _bay.now) slots.old plain → of number ≡ true
        → Takes A.form B.D.told of plain number (Recovers result) (B.out _bay.now) (B.has _bay.now) slots.new }
    ensures made { is_made (slot_at slots.new number) ≡ true }
    ensures recovered { IsRecovered A.form result (slot_at slots.new number) }
    ensures out { (of : ℕ → Bool) → OutAll of (B.out _bay.now) slots.old → OutAll of (B.out _bay.now) slots.new }
    ensures own { OwnAll A.form slots.old → OwnAll A.form slots.new }
    ensures slots { KeepsOtherSlots number slots.old slots.new }
    ensures counts { CountsAt number slots.old slots.new }
    ensures later { count_in A.form B.D.faults (slot_at slots.old number) ≤ count_in A.form B.D.faults (slot_at slots.new number) }
    ensures cause { result ≡ Mounting.DiskFault
        → Rose (count_in A.form B.D.faults (slot_at slots.old number)) (count_in A.form B.D.faults (slot_at slots.new number)) }
    ensures arms { count_in A.form B.D.arms (slot_at slots.new number) ≡ count_in A.form B.D.arms (slot_at slots.old number) }
{
    let slot = take(slots, number);
    let (mounting, slot) = coda_actors::recover(alloc, slot);
    put(slots, number, slot);
    mounting
}

/// Lets so many further calls of the disk of an actor through that is up; the next one and all after it fail until a crash.
pub fn arm<B: Bay, A: Actor<B::D> + Drop>(
    _bay: &B,
    slots: &mut BTreeMap<u32, Slot<A, B::D>>,
    number: u32,
    passes: u64,
)
    requires up { is_up A.form (slot_at slots.old number) ≡ true }
    requires own { AsksOwn A.form (slot_at slots.old number) }
    ensures step { (of : ℕ → Bool) (plain : ℕ → PlainActor A.form.Entry) → FitsAll A.form B.D.told of (B.out _bay.now) (B.has _bay.now) slots.old plain → of number ≡ true
        → Takes A.form B.D.told of plain number Arms (B.out _bay.now) (B.has _bay.now) slots.new }
    ensures up { is_up A.form (slot_at slots.new number) ≡ true }
    ensures out { (of : ℕ → Bool) → OutAll of (B.out _bay.now) slots.old → OutAll of (B.out _bay.now) slots.new }
    ensures own { OwnAll A.form slots.old → OwnAll A.form slots.new }
    ensures slots { KeepsOtherSlots number slots.old slots.new }
    ensures counts { CountsAt number slots.old slots.new }
    ensures faults { count_in A.form B.D.faults (slot_at slots.new number) ≡ count_in A.form B.D.faults (slot_at slots.old number) }
    ensures arms { count_in A.form B.D.arms (slot_at slots.new number) ≡ counted (count_in A.form B.D.arms (slot_at slots.old number)) }
    ensures passes { passes_in A.form B.D.passes (slot_at slots.new number) ≡ Some passes }
{
    let slot = take(slots, number);
    let slot = coda_actors::arm(slot, passes);
    put(slots, number, slot);
}

/// Gives the actor of a number up that a line made which is refused afterwards, for the disk of another one. Its disk stays in its slot as it
/// is.
pub fn give_up<B: Bay, A: Actor<B::D> + Drop>(
    _bay: &B,
    slots: &mut BTreeMap<u32, Slot<A, B::D>>,
    number: u32,
)
    requires made { is_made (slot_at slots.old number) ≡ true }
    requires own { AsksOwn A.form (slot_at slots.old number) }
    ensures step { (of : ℕ → Bool) (plain : ℕ → PlainActor A.form.Entry) → FitsAll A.form B.D.told of (B.out _bay.now) (B.has _bay.now) slots.old plain → of number ≡ true
        → Takes A.form B.D.told of plain number Leaves (B.out _bay.now) (B.has _bay.now) slots.new }
    ensures unmade { is_made (slot_at slots.new number) ≡ false }
    ensures out { (of : ℕ → Bool) → OutAll of (B.out _bay.now) slots.old → OutAll of (B.out _bay.now) slots.new }
    ensures own { OwnAll A.form slots.old → OwnAll A.form slots.new }
    ensures slots { KeepsOtherSlots number slots.old slots.new }
    ensures counts { CountsAt number slots.old slots.new }
    ensures faults { count_in A.form B.D.faults (slot_at slots.new number) ≡ count_in A.form B.D.faults (slot_at slots.old number) }
    ensures arms { count_in A.form B.D.arms (slot_at slots.new number) ≡ count_in A.form B.D.arms (slot_at slots.old number) }
{
    let slot = take(slots, number);
    let slot = coda_actors::give_up(slot);
    put(slots, number, slot);
}

/// Whether a line made the actor of a number.
pub fn is_made<A, D>(slots: &BTreeMap<u32, Slot<A, D>>, number: u32) -> bool
    ensures { result ≡ is_made (slot_at slots.now number) }
{
    match slots.get(&number) {
        Some(slot) => slot.is_made(),
        None => false,
    }
}

/// Whether the actor of a number is up.
pub fn is_up<D: Disk, A: Actor<D>>(slots: &BTreeMap<u32, Slot<A, D>>, number: u32) -> bool
    ensures { result ≡ is_up A.form (slot_at slots.now number) }
{
    match slots.get(&number) {
        Some(slot) => slot.is_up(),
        None => false,
    }
}

/// The actor of a number, where it is up.
pub fn get<D: Disk, A: Actor<D>>(slots: &BTreeMap<u32, Slot<A, D>>, number: u32) -> Option<&A>
    ensures { MatchOption result (is_up A.form (slot_at slots.now number) ≡ false)
        (λ actor. (header : AskedHeader) × (slot_at slots.now number ≡ Slot.Started header actor.now) × (A.form.is_down actor.now ≡ false)) }
{
    match slots.get(&number) {
        Some(Slot::Started { actor, .. }) => { if actor.is_down() { None } else { Some(actor) } }
        _ => None,
    }
}

// Gives the disk of a slot back, where it has one.
fn give_one<B: Bay, A: Actor<B::D> + Drop>(bay: &mut B, number: u32, slot: Slot<A, B::D>)
    requires { IsOutIfHeld (B.out bay.old number) slot }
    ensures stands { (plain : PlainActor A.form.Entry) → Lies A.form B.D.told (B.has bay.old number) slot plain → StandsFor A.form (B.has bay.new number) plain.disk }
    ensures here { B.out bay.new number ≡ out_after (B.out bay.old number) slot }
    ensures others { Others number (B.out bay.old) (B.out bay.new) }
    ensures keeps { KeepsOthers number (B.has bay.old) (B.has bay.new) }
    ensures vacant { slot ≡ Slot.Vacant → KeepsAll (B.has bay.old) (B.has bay.new) }
    ensures answered { B.answered bay.new ≡ B.answered bay.old }
    ensures disk_faults { B.disk_faults bay.new ≡ sum_with A.form B.D.faults slot (B.disk_faults bay.old) }
    ensures disk_arms { B.disk_arms bay.new ≡ sum_with A.form B.D.arms slot (B.disk_arms bay.old) }
    ensures faults { B.faults bay.new ≡ B.faults bay.old }
    ensures follows { B.follows bay.old bay.new }
{
    match slot {
        Slot::Vacant => {}
        held => coda_actors::give_back(bay, number, held),
    }
}

/// Gives each disk back to the bay, under its number, as it is. What the disks count is added to the bay's sums.
pub fn give_back<B: Bay, A: Actor<B::D> + Drop>(bay: &mut B, slots: BTreeMap<u32, Slot<A, B::D>>)
    requires { (k : ℕ) → IsOutIfHeld (B.out bay.old k) (slot_at slots k) }
    ensures stands { (of : ℕ → Bool) (plain : ℕ → PlainActor A.form.Entry) → FitsAll A.form B.D.told of (B.out bay.old) (B.has bay.old) slots plain
        → StandsAll A.form of (B.has bay.new) plain }
    ensures out { (of : ℕ → Bool) → OutAll of (B.out bay.old) slots → (k : ℕ) → of k ≡ true → B.out bay.new k ≡ false }
    ensures others { (apart : ℕ → Bool) → ((k : ℕ) → apart k ≡ true → slot_at slots k ≡ Slot.Vacant)
        → LeavesBe apart (B.out bay.old) (B.out bay.new) (B.has bay.old) (B.has bay.new) }
    ensures answered { B.answered bay.new ≡ B.answered bay.old }
    ensures disk_faults { B.disk_faults bay.new ≡ sum_all A.form B.D.faults slots.entries (B.disk_faults bay.old) }
    ensures disk_arms { B.disk_arms bay.new ≡ sum_all A.form B.D.arms slots.entries (B.disk_arms bay.old) }
    ensures faults { B.faults bay.new ≡ B.faults bay.old }
    ensures follows { B.follows bay.old bay.new }
{
    let mut slots = slots;
    while let Some((number, slot)) = pop(&mut slots) {
        give_one(bay, number, slot);
    }
}
