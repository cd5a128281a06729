// The trait of a bay of disks.
ghost use Rattle.std.specs.Prelude.{◌≡◌, ℕ, Bool, true, false, List, [], ◌∷◌, ◌++◌, IfOk, OnOk, OnErr};
ghost use Rattle.coda_io.specs.Faults.{HasCause};
ghost use Rattle.coda_disk.specs.Told.{Told, Kept};
ghost use Rattle.coda_disk.specs.Bays.{plus, PutsOut, KeepsAll, KeepsOthers, Crashed, IsRested};

use crate::Disk;
use thiserror::Error;

/// A call of a bay was refused.
#[derive(Clone, Copy, Debug, PartialEq, Eq, Error)]
#[error("bay fault")]
pub struct BayFault;

/// Disks by their numbers, with a count of the bay's own faults, and the sums of the faults and of the `arm` calls of the
/// disks that came back or crashed.
pub trait Bay {
    type D: Disk + Drop;

    // Whether the disk of a number is out: it was taken, and not given back since.
    ghost out: { Self → ℕ → Bool };

    // What the disk of a number tells, while the bay has it.
    ghost has: { Self → ℕ → Told };

    // The images that its crashes left.
    ghost answered: { Self → List (List ℕ) };

    // How many calls were refused, up to the end of the count's type.
    ghost faults: { Self → ℕ };

    // The sum of the faults of the disks that came back or crashed, up to its last value.
    ghost disk_faults: { Self → ℕ };

    // The sum of their `arm` calls, up to its last value.
    ghost disk_arms: { Self → ℕ };

    // The second is the first after some calls.
    ghost follows: { Self → Self → Type 0 };

    /// Takes the disk of a number. Every call of it passes, and none of its faults and `arm` calls is counted yet.
    ///
    /// # Errors
    ///
    /// `BayFault` where the call was refused: the number isn't out, and the count of faults rose.
    fn take(&mut self, number: u32) -> Result<Self::D, BayFault>
        requires { out self.old number ≡ false }
        ensures out { OnOk result (PutsOut number true (out self.old) (out self.new)) }
        ensures out_err { OnErr result ((k : ℕ) → out self.new k ≡ out self.old k) }
        ensures taken { IfOk result (λ d. (has self.old number).honest → Kept (has self.old number) (Self.D.told d)) }
        ensures rested { IfOk result (λ d. IsRested (Self.D.faults d) (Self.D.arms d) (Self.D.passes d)) }
        ensures keeps { KeepsOthers number (has self.old) (has self.new) }
        ensures keeps_err { OnErr result (KeepsAll (has self.old) (has self.new)) }
        ensures answered { answered self.new ≡ answered self.old }
        ensures disk_faults { disk_faults self.new ≡ disk_faults self.old }
        ensures disk_arms { disk_arms self.new ≡ disk_arms self.old }
        ensures cause { HasCause (faults self.old) (faults self.new) result }
        ensures follows { follows self.old self.new };

    /// Crashes a disk that is out, and answers it as the crash leaves it: with one of the images that it might leave, and
    /// nothing else. `choice` says which one. Every call of it passes again. Its faults and `arm` calls are added to the
    /// sums, whatever the call answers.
    ///
    /// # Errors
    ///
    /// `BayFault` where the call was refused: the disk is lost, and the count of faults rose.
    fn crash(&mut self, disk: Self::D, choice: u64) -> Result<Self::D, BayFault>
        ensures out { (k : ℕ) → out self.new k ≡ out self.old k }
        ensures crashed { (Self.D.told disk).honest → IfOk result (λ d. (image : List ℕ)
            × Crashed image (Self.D.told disk) (Self.D.told d) × (answered self.new ≡ answered self.old ++ image ∷ [])) }
        ensures answered { OnErr result (answered self.new ≡ answered self.old) }
        ensures rested { IfOk result (λ d. IsRested (Self.D.faults d) (Self.D.arms d) (Self.D.passes d)) }
        ensures keeps { KeepsAll (has self.old) (has self.new) }
        ensures disk_faults { disk_faults self.new ≡ plus (disk_faults self.old) (Self.D.faults disk) }
        ensures disk_arms { disk_arms self.new ≡ plus (disk_arms self.old) (Self.D.arms disk) }
        ensures cause { HasCause (faults self.old) (faults self.new) result }
        ensures follows { follows self.old self.new };

    /// Gives a disk back as it is. It takes no memory and never fails. Its faults and `arm` calls are added to the sums.
    fn back(&mut self, number: u32, disk: Self::D)
        requires { out self.old number ≡ true }
        ensures out { PutsOut number false (out self.old) (out self.new) }
        ensures back { (Self.D.told disk).honest → Kept (Self.D.told disk) (has self.new number) }
        ensures keeps { KeepsOthers number (has self.old) (has self.new) }
        ensures answered { answered self.new ≡ answered self.old }
        ensures disk_faults { disk_faults self.new ≡ plus (disk_faults self.old) (Self.D.faults disk) }
        ensures disk_arms { disk_arms self.new ≡ plus (disk_arms self.old) (Self.D.arms disk) }
        ensures faults { faults self.new ≡ faults self.old }
        ensures follows { follows self.old self.new };

    // A bay follows itself.
    ghost same: { (a : Self) → follows a a };

    // What follows a bay that follows another follows that other.
    ghost then: { (a b c : Self) → follows a b → follows b c → follows a c };
}

impl<B: Bay> Bay for &mut B {
    ghost use Rattle.std.proofs.Common.{◌∙◌, refl};

    type D = B::D;

    ghost out = { λ b. B.out b.now };

    ghost has = { λ b. B.has b.now };

    ghost answered = { λ b. B.answered b.now };

    ghost faults = { λ b. B.faults b.now };

    ghost disk_faults = { λ b. B.disk_faults b.now };

    ghost disk_arms = { λ b. B.disk_arms b.now };

    ghost follows = { λ a b. b.ghost_name ≡ a.ghost_name };

    ghost same = { λ a. refl };

    ghost then = { λ a b c f g. g ∙ f };

    fn take(&mut self, number: u32) -> Result<B::D, BayFault> {
        Bay::take(&mut **self, number)
    }

    fn crash(&mut self, disk: B::D, choice: u64) -> Result<B::D, BayFault> {
        Bay::crash(&mut **self, disk, choice)
    }

    fn back(&mut self, number: u32, disk: B::D) {
        Bay::back(&mut **self, number, disk)
    }
}
