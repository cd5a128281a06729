// Laws of actors over crashes and recoveries. They are proved, and do nothing.
ghost use Rattle.std.specs.Prelude.{◌≡◌, true, List, [], ◌∷◌, ◌++◌, Some};
ghost use Rattle.coda_journal.specs.Open.{Stands};
ghost use Rattle.coda_journal.specs.declared.header.Header.{Header as AskedHeader};
ghost use Rattle.coda_actors.specs.Fits.{FitsUp, FitsDown, FitsHeld};
ghost use Rattle.coda_actors.specs.Form.{payloads_of};
ghost use Rattle.coda_actors.specs.Laws.{EntriesStay, CrashesAreRecovered, IsAtRest, ActorsStayAtRest, OwnHeadersAreServed};
ghost use Rattle.coda_actors.specs.Plain.{PlainActor, Adds, Fails, Step};

use crate::actor::Actor;
use crate::slot::Slot;
use coda_disk::Disk;

/// A law of actors: an entry that was acknowledged is in every history that is found later, behind those that were there before it,
/// whatever number of crashes, recoveries, openings and further entries lie between.
pub fn entries_stay<D: Disk, A: Actor<D>>(_actor: &A)
    ensures { EntriesStay A.form }
{}

/// A law of actors: the first recovery behind a crash that succeeds finds the history from before the crash, or that one with the one
/// entry whose append failed, and the image that the bay answered at the crash reads as what is found. So nothing else is kept of it.
pub fn crashes_are_recovered<D: Disk, A: Actor<D>>(_actor: &A)
    ensures { CrashesAreRecovered A.form }
{}

/// A law of actors: one that is up has no entry whose append failed, and no crash behind it that wasn't recovered; its disk has the header
/// that it asks for. So it is after anything that is done to it, and of each slot that stands for it.
pub fn actors_are_at_rest<D: Disk, A: Actor<D>>(slot: &Slot<A, D>)
    ensures stay { ActorsStayAtRest A.form }
    ensures fits { (plain : PlainActor A.form.Entry) → FitsHeld A.form D.told slot.now plain → IsAtRest plain }
{}

/// A law of disks: one is never foreign under the header that it was last given, and one that is foreign is left as it was.
pub fn own_headers_are_served<D: Disk, A: Actor<D>>(_actor: &A)
    ensures { OwnHeadersAreServed A.form }
{}

/// A law of actors: one that was up, and is up after a call with one entry more, stands for the plain actor with that entry; and one that
/// is down after a call of its disk failed, whose disk stands for the history with or without the entry, for the plain actor of which the
/// append of that entry failed.
pub fn additions_fit<D: Disk, A: Actor<D>>(before: &A, after: &A)
    ensures added { (header : AskedHeader) (plain : PlainActor A.form.Entry) (entry : A.form.Entry) → FitsUp A.form header before.now plain
        → A.form.IsUp header after.now (plain.disk.history ++ entry ∷ [])
        → (new : PlainActor A.form.Entry) × Step A.form plain (Adds entry) new × FitsUp A.form header after.now new }
    ensures failed { (header : AskedHeader) (plain : PlainActor A.form.Entry) (entry : A.form.Entry) → FitsUp A.form header before.now plain
        → A.form.MayFollow header plain.disk.history entry
        → Stands (D.told (A.form.disk after.now)) header (payloads_of A.form plain.disk.history) (Some (A.form.payload_of entry))
        → (new : PlainActor A.form.Entry) × Step A.form plain (Fails entry) new × FitsDown A.form (D.told (A.form.disk after.now)) header new }
{}
