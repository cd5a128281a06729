// The life of an actor, from the line that makes it to the end of its cell.
ghost use Rattle.std.specs.Prelude.{◌≡◌, ℕ, ◌≤◌, ◌<◌, ◌^◌, ◌++◌, ◌∷◌, [], List, Bool, true, false, IfOk, OnOk, OnErr, Err, Some};
ghost use Rattle.coda_io.specs.Faults.{counted, Rose, HasCause};
ghost use Rattle.coda_disk.specs.Bays.{plus, KeepsAll, KeepsOthers, PutsOut};
ghost use Rattle.coda_journal.specs.Header.{IsHeader};
ghost use Rattle.coda_journal.specs.Laws.{HasWords};
ghost use Rattle.coda_actors.specs.Fits.{Fits, FitsHeld, FitsUnmade, Stays, StandsFor, IsOwn, AsksOwn, OutFits, Others};
ghost use Rattle.coda_actors.specs.Plain.{PlainActor, Opens, Crashes, Recovers, Arms, Leaves, Step};
ghost use Rattle.coda_actors.specs.Slots.{is_made, is_up, IsOpened, IsRecovered, count_in, sum_with, passes_in};

use crate::actor::Actor;
use crate::slot::{Mounting, Slot};
use coda_disk::{Bay, BayFault, Disk};
use coda_journal::{Header, MountFault};
use std::alloc::Global;

// What the types of a header's numbers say of them.
fn numbers(number: u32, area: u32, cache: u32)
    ensures number { number < 2 ^ 32 }
    ensures area { area < 2 ^ 32 }
    ensures cache { cache < 2 ^ 32 }
{
    let _ = (number, area, cache);
}

// The bytes of a header hold its numbers.
fn has_words(header: &Header)
    ensures { HasWords header.now }
{
    numbers(header.number, header.area, header.cache);
}

// Mounts a disk of an actor that no line made.
fn make<D: Disk, A: Actor<D>>(alloc: Global, disk: D, header: &Header) -> (Mounting, Slot<A, D>)
    requires header { IsHeader header.now }
    requires owner { header.now.kind ≡ A.form.owner }
    ensures step { (plain : PlainActor A.form.Entry) → FitsUnmade A.form (D.told disk) plain
        → (new : PlainActor A.form.Entry) × Step A.form plain (Opens header.now result.0) new × FitsHeld A.form D.told result.1 new }
    ensures opened { IsOpened A.form result.0 result.1 }
    ensures out { OutFits true result.1 }
    ensures own { AsksOwn A.form result.1 }
    ensures later { D.faults disk ≤ count_in A.form D.faults result.1 }
    ensures cause { result.0 ≡ Mounting.DiskFault → Rose (D.faults disk) (count_in A.form D.faults result.1) }
    ensures arms { count_in A.form D.arms result.1 ≡ D.arms disk }
{
    has_words(header);
    match A::recover(alloc, disk, header) {
        Ok((actor, count)) => (
            Mounting::Entries(count),
            Slot::Started {
                header: *header,
                actor,
            },
        ),
        Err(unmounted) => {
            let disk = unmounted.disk;
            match unmounted.why {
                MountFault::Foreign(at) => (Mounting::Foreign(at), Slot::Spare(disk)),
                MountFault::DiskFault => (
                    Mounting::DiskFault,
                    Slot::Stopped {
                        header: *header,
                        disk,
                    },
                ),
                MountFault::Memory => (Mounting::Memory, Slot::Spare(disk)),
            }
        }
    }
}

/// Mounts the disk of an actor that no line made, under the header that its line asks for. The disk is taken from the bay, unless the
/// slot has it. The actor is up where the mounting succeeds, and down where a call of the disk failed. Where the disk is foreign, or
/// memory was wanting, none is made, and the slot keeps the disk.
///
/// # Errors
///
/// `BayFault` where the bay refused the disk: the slot was vacant, the disk stays with the bay, and its number isn't out.
pub fn open<B: Bay, A: Actor<B::D>>(
    alloc: Global,
    bay: &mut B,
    number: u32,
    slot: Slot<A, B::D>,
    header: &Header,
) -> Result<(Mounting, Slot<A, B::D>), BayFault>
    requires unmade { is_made slot ≡ false }
    requires out { OutFits (B.out bay.old number) slot }
    requires header { IsHeader header.now }
    requires owner { header.now.kind ≡ A.form.owner }
    ensures step { (plain : PlainActor A.form.Entry) → Fits A.form B.D.told (B.out bay.old number) (B.has bay.old number) slot plain
        → IfOk result (λ r. (new : PlainActor A.form.Entry) × Step A.form plain (Opens header.now r.0) new
        × Fits A.form B.D.told (B.out bay.new number) (B.has bay.new number) r.1 new) }
    ensures opened { IfOk result (λ r. IsOpened A.form r.0 r.1) }
    ensures out { IfOk result (λ r. OutFits (B.out bay.new number) r.1) }
    ensures own { IfOk result (λ r. AsksOwn A.form r.1) }
    ensures out_err { OnErr result ((slot ≡ Slot.Vacant) × (B.out bay.new number ≡ false)) }
    ensures others { Others number (B.out bay.old) (B.out bay.new) }
    ensures keeps { KeepsOthers number (B.has bay.old) (B.has bay.new) }
    ensures keeps_err { OnErr result (KeepsAll (B.has bay.old) (B.has bay.new)) }
    ensures answered { B.answered bay.new ≡ B.answered bay.old }
    ensures later { IfOk result (λ r. count_in A.form B.D.faults slot ≤ count_in A.form B.D.faults r.1) }
    ensures cause { IfOk result (λ r. r.0 ≡ Mounting.DiskFault → Rose (count_in A.form B.D.faults slot) (count_in A.form B.D.faults r.1)) }
    ensures arms { IfOk result (λ r. count_in A.form B.D.arms r.1 ≡ count_in A.form B.D.arms slot) }
    ensures disk_faults { B.disk_faults bay.new ≡ B.disk_faults bay.old }
    ensures disk_arms { B.disk_arms bay.new ≡ B.disk_arms bay.old }
    ensures bay_cause { HasCause (B.faults bay.old) (B.faults bay.new) result }
    ensures follows { B.follows bay.old bay.new }
{
    let disk = match slot {
        Slot::Vacant => bay.take(number)?,
        Slot::Spare(disk) => disk,
        Slot::Stopped { .. } => unreachable!(),
        Slot::Started { .. } => unreachable!(),
    };
    Ok(make(alloc, disk, header))
}

/// Crashes the disk of an actor that was made. The actor is down, and its disk has one of the images that a crash may leave, the one that
/// the bay answers; `choice` says which. No fault and no `arm` call of it is counted any more, and each call of it passes.
///
/// # Errors
///
/// `BayFault` where the bay refused: the disk is lost, and its number stays out.
pub fn crash<B: Bay, A: Actor<B::D>>(
    bay: &mut B,
    slot: Slot<A, B::D>,
    choice: u64,
) -> Result<Slot<A, B::D>, BayFault>
    requires made { is_made slot ≡ true }
    requires own { AsksOwn A.form slot }
    ensures step { (plain : PlainActor A.form.Entry) → FitsHeld A.form B.D.told slot plain
        → IfOk result (λ r. (image : List ℕ) × (new : PlainActor A.form.Entry) × (B.answered bay.new ≡ B.answered bay.old ++ image ∷ [])
        × Step A.form plain (Crashes image) new × FitsHeld A.form B.D.told r new) }
    ensures answered_err { OnErr result (B.answered bay.new ≡ B.answered bay.old) }
    ensures down { IfOk result (λ r. (is_made r ≡ true) × (is_up A.form r ≡ false)) }
    ensures own { IfOk result (AsksOwn A.form) }
    ensures out { IfOk result (λ r. (out : Bool) → OutFits out slot → OutFits out r) }
    ensures numbers { (k : ℕ) → B.out bay.new k ≡ B.out bay.old k }
    ensures keeps { KeepsAll (B.has bay.old) (B.has bay.new) }
    ensures rested { IfOk result (λ r. (count_in A.form B.D.faults r ≡ 0) × (count_in A.form B.D.arms r ≡ 0)) }
    ensures disk_faults { B.disk_faults bay.new ≡ sum_with A.form B.D.faults slot (B.disk_faults bay.old) }
    ensures disk_arms { B.disk_arms bay.new ≡ sum_with A.form B.D.arms slot (B.disk_arms bay.old) }
    ensures bay_cause { HasCause (B.faults bay.old) (B.faults bay.new) result }
    ensures follows { B.follows bay.old bay.new }
{
    let (header, whole) = made_disk(slot);
    let disk = bay.crash(whole, choice)?;
    Ok(Slot::Stopped { header, disk })
}

// The disk of an actor that was made, and the header that it asks for.
fn made_disk<D: Disk, A: Actor<D>>(slot: Slot<A, D>) -> (Header, D)
    requires made { is_made slot ≡ true }
    requires own { AsksOwn A.form slot }
    ensures own { IsOwn A.form result.0 }
    ensures out { (out : Bool) → OutFits out slot → out ≡ true }
    ensures stands { (plain : PlainActor A.form.Entry) → FitsHeld A.form D.told slot plain → Stays A.form (D.told result.1) result.0 plain }
    ensures faults { (sum : ℕ) → plus sum (D.faults result.1) ≡ sum_with A.form D.faults slot sum }
    ensures arms { (sum : ℕ) → plus sum (D.arms result.1) ≡ sum_with A.form D.arms slot sum }
    ensures faults_now { D.faults result.1 ≡ count_in A.form D.faults slot }
    ensures arms_now { D.arms result.1 ≡ count_in A.form D.arms slot }
{
    match slot {
        Slot::Vacant => unreachable!(),
        Slot::Spare(_) => unreachable!(),
        Slot::Stopped { header, disk } => (header, disk),
        Slot::Started { header, actor } => (header, actor.into_disk()),
    }
}

/// Mounts once more the disk of an actor that was made, under the header that its making line asked for. What the actor had in memory is
/// dropped, also where it was up. It is up again where the mounting succeeds, and else down.
pub fn recover<D: Disk, A: Actor<D>>(alloc: Global, slot: Slot<A, D>) -> (Mounting, Slot<A, D>)
    requires made { is_made slot ≡ true }
    requires own { AsksOwn A.form slot }
    ensures step { (plain : PlainActor A.form.Entry) → FitsHeld A.form D.told slot plain
        → (new : PlainActor A.form.Entry) × Step A.form plain (Recovers result.0) new × FitsHeld A.form D.told result.1 new }
    ensures made { is_made result.1 ≡ true }
    ensures recovered { IsRecovered A.form result.0 result.1 }
    ensures own { AsksOwn A.form result.1 }
    ensures out { (out : Bool) → OutFits out slot → OutFits out result.1 }
    ensures later { count_in A.form D.faults slot ≤ count_in A.form D.faults result.1 }
    ensures cause { result.0 ≡ Mounting.DiskFault → Rose (count_in A.form D.faults slot) (count_in A.form D.faults result.1) }
    ensures arms { count_in A.form D.arms result.1 ≡ count_in A.form D.arms slot }
{
    let (header, disk) = made_disk(slot);
    match A::recover(alloc, disk, &header) {
        Ok((actor, count)) => (Mounting::Entries(count), Slot::Started { header, actor }),
        Err(unmounted) => {
            let disk = unmounted.disk;
            match unmounted.why {
                MountFault::Foreign(at) => (Mounting::Foreign(at), Slot::Stopped { header, disk }),
                MountFault::DiskFault => (Mounting::DiskFault, Slot::Stopped { header, disk }),
                MountFault::Memory => (Mounting::Memory, Slot::Stopped { header, disk }),
            }
        }
    }
}

/// Lets so many further calls of the disk of an actor through that is up; the next one and all after it fail until a crash. It changes
/// nothing else.
pub fn arm<D: Disk, A: Actor<D>>(slot: Slot<A, D>, passes: u64) -> Slot<A, D>
    requires up { is_up A.form slot ≡ true }
    requires own { AsksOwn A.form slot }
    ensures step { (plain : PlainActor A.form.Entry) → FitsHeld A.form D.told slot plain
        → (new : PlainActor A.form.Entry) × Step A.form plain Arms new × FitsHeld A.form D.told result new }
    ensures up { is_up A.form result ≡ true }
    ensures own { AsksOwn A.form result }
    ensures out { (out : Bool) → OutFits out slot → OutFits out result }
    ensures faults { count_in A.form D.faults result ≡ count_in A.form D.faults slot }
    ensures arms { count_in A.form D.arms result ≡ counted (count_in A.form D.arms slot) }
    ensures passes { passes_in A.form D.passes result ≡ Some passes }
{
    match slot {
        Slot::Vacant => unreachable!(),
        Slot::Spare(_) => unreachable!(),
        Slot::Stopped { .. } => unreachable!(),
        Slot::Started { header, actor } => {
            let mut actor = actor;
            actor.arm(passes);
            Slot::Started { header, actor }
        }
    }
}

/// Gives an actor up that a line made which is refused afterwards, for the disk of another one. Its disk stays in the slot as it is.
pub fn give_up<D: Disk, A: Actor<D>>(slot: Slot<A, D>) -> Slot<A, D>
    requires made { is_made slot ≡ true }
    requires own { AsksOwn A.form slot }
    ensures step { (plain : PlainActor A.form.Entry) → FitsHeld A.form D.told slot plain
        → (new : PlainActor A.form.Entry) × Step A.form plain Leaves new × FitsHeld A.form D.told result new }
    ensures unmade { is_made result ≡ false }
    ensures out { (out : Bool) → OutFits out slot → OutFits out result }
    ensures faults { count_in A.form D.faults result ≡ count_in A.form D.faults slot }
    ensures arms { count_in A.form D.arms result ≡ count_in A.form D.arms slot }
{
    let (_, disk) = made_disk(slot);
    Slot::Spare(disk)
}

/// Gives the disk of a slot back to the bay, under its number, as it is. What the disk counts is added to the bay's sums.
pub fn give_back<B: Bay, A: Actor<B::D>>(bay: &mut B, number: u32, slot: Slot<A, B::D>)
    requires { OutFits (B.out bay.old number) slot }
    ensures stands { (plain : PlainActor A.form.Entry) → Fits A.form B.D.told (B.out bay.old number) (B.has bay.old number) slot plain
        → StandsFor A.form (B.has bay.new number) plain.disk }
    ensures out { PutsOut number false (B.out bay.old) (B.out bay.new) }
    ensures keeps { KeepsOthers number (B.has bay.old) (B.has bay.new) }
    ensures answered { B.answered bay.new ≡ B.answered bay.old }
    ensures disk_faults { B.disk_faults bay.new ≡ sum_with A.form B.D.faults slot (B.disk_faults bay.old) }
    ensures disk_arms { B.disk_arms bay.new ≡ sum_with A.form B.D.arms slot (B.disk_arms bay.old) }
    ensures faults { B.faults bay.new ≡ B.faults bay.old }
    ensures follows { B.follows bay.old bay.new }
{
    match slot {
        Slot::Vacant => {}
        Slot::Spare(disk) => bay.back(number, disk),
        Slot::Stopped { disk, .. } => bay.back(number, disk),
        Slot::Started { actor, .. } => bay.back(number, actor.into_disk()),
    }
}
