// What a slot needs of the actors that it is for.
ghost use Rattle.std.specs.Prelude.{◌≡◌, ◌≢◌, ℕ, ◌≤◌, List, [], ◌∷◌, ◌++◌, Bool, true, false, IfOk, IfErr, None, Some, map};
ghost use Rattle.coda_io.specs.Faults.{counted, Rose};
ghost use Rattle.coda_journal.specs.Header.{IsHeader};
ghost use Rattle.coda_journal.specs.Mount.{NotMounted};
ghost use Rattle.coda_journal.specs.Open.{Stands};
ghost use Rattle.coda_journal.specs.declared.header.Header.{Header as AskedHeader};
ghost use Rattle.coda_actors.specs.Form.{Form, payloads_of, IsOwnDisk, Mounted, WhyForeign};

use coda_disk::Disk;
use coda_journal::{Header, MountFault, Unmounted};
use std::alloc::Global;

/// An actor that stands on a disk: a client, or a server's replica of a volume.
pub trait Actor<D: Disk>: Sized {
    // What it writes, and what is known of it.
    ghost form: { Form Self D };

    /// The actor on a disk, with the state that its entries leave, and how many entries there are.
    ///
    /// # Errors
    ///
    /// The disk is given back. `Foreign` where it holds no journal of such an actor under this header, and never where actors with this
    /// header alone wrote to it; `DiskFault` where a call of the disk was refused; `Memory`.
    fn recover(alloc: Global, disk: D, header: &Header) -> Result<(Self, u64), Unmounted<D>>
        requires header { IsHeader header.now }
        requires owner { header.now.kind ≡ form.owner }
        ensures ok { (D.told disk).honest → IfOk result (λ r. Mounted form header.now (D.told disk) r.0 r.1) }
        ensures err { (D.told disk).honest → IfErr result (λ u. NotMounted header.now (D.told disk) (D.told u.disk) MountFault.DiskFault) }
        ensures foreign { (D.told disk).honest → IfErr result (λ u. (at : ℕ) → u.why ≡ MountFault.Foreign at → WhyForeign header.now (D.told disk) (D.told u.disk) at) }
        ensures seen { (D.told disk).honest → (D.told disk).may_leave (D.told disk).seen }
        ensures never_foreign { (D.told disk).honest → IsOwnDisk form header.now (D.told disk) → IfErr result (λ u. (at : ℕ) → u.why ≢ MountFault.Foreign at) }
        ensures up { IfOk result (λ r. form.is_down r.0 ≡ false) }
        ensures later { IfOk result (λ r. D.faults disk ≤ D.faults (form.disk r.0)) }
        ensures later_err { IfErr result (λ u. D.faults disk ≤ D.faults u.disk) }
        ensures cause { IfErr result (λ u. u.why ≡ MountFault.DiskFault → Rose (D.faults disk) (D.faults u.disk)) }
        ensures arms { IfOk result (λ r. D.arms (form.disk r.0) ≡ D.arms disk) }
        ensures arms_err { IfErr result (λ u. D.arms u.disk ≡ D.arms disk) };

    /// Whether a call of the disk failed since it was recovered.
    fn is_down(&self) -> bool
        ensures { result ≡ form.is_down self.now };

    /// Gives the disk.
    fn into_disk(self) -> D
        ensures { result ≡ form.disk self };

    /// Lets so many further calls of the disk through, while the actor isn't down. It changes nothing else.
    fn arm(&mut self, passes: u64)
        requires { form.is_down self.old ≡ false }
        ensures up { (header : AskedHeader) (history : List form.Entry) → form.IsUp header self.old history → form.IsUp header self.new history }
        ensures same { form.is_down self.new ≡ false }
        ensures faults { D.faults (form.disk self.new) ≡ D.faults (form.disk self.old) }
        ensures arms { D.arms (form.disk self.new) ≡ counted (D.arms (form.disk self.old)) }
        ensures passes { D.passes (form.disk self.new) ≡ Some passes };

    // Each image that a crash may leave of the disk of an actor that is up reads as its history.
    ghost stands: { (a : Self) (header : AskedHeader) (history : List form.Entry) → form.IsUp header a history
        → Stands (D.told (form.disk a)) header (payloads_of form history) None };

    // An actor that is up isn't down, and its history is one.
    ghost lawful: { (a : Self) (header : AskedHeader) (history : List form.Entry) → form.IsUp header a history
        → (form.is_down a ≡ false) × form.IsHistory header history };

    // A history is told by its payloads.
    ghost same: { (header : AskedHeader) (a b : List form.Entry) → form.IsHistory header a → form.IsHistory header b → payloads_of form a ≡ payloads_of form b → a ≡ b };

    // There is the history of no entries, and one that is followed by what may follow it.
    ghost empty: { (header : AskedHeader) → form.IsHistory header [] };

    ghost grows: { (header : AskedHeader) (history : List form.Entry) (entry : form.Entry) → form.IsHistory header history → form.MayFollow header history entry
        → form.IsHistory header (history ++ entry ∷ []) };
}
