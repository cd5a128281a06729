// A bay that is lent, which is a bay that follows as the one that it lends does.
ghost use Rattle.std.specs.Prelude.{◌≡◌};

use coda_disk::{Bay, BayFault};

/// A bay that is lent.
#[derive(Drop)]
pub struct LentBay<'a, B: Bay> {
    /// The bay.
    pub bay: &'a mut B,
}

impl<B: Bay> Bay for LentBay<'_, B> {
    ghost use Rattle.std.proofs.Common.{◌∙◌, refl};

    type D = B::D;

    ghost out = { λ lent. B.out lent.bay.now };

    ghost has = { λ lent. B.has lent.bay.now };

    ghost answered = { λ lent. B.answered lent.bay.now };

    ghost faults = { λ lent. B.faults lent.bay.now };

    ghost disk_faults = { λ lent. B.disk_faults lent.bay.now };

    ghost disk_arms = { λ lent. B.disk_arms lent.bay.now };

    ghost follows = { λ a b. (b.bay.ghost_name ≡ a.bay.ghost_name) × B.follows a.bay.now b.bay.now };

    ghost same = { λ a. (refl, B.same a.bay.now) };

    ghost then = { λ a b c f g. (g.0 ∙ f.0, B.then a.bay.now b.bay.now c.bay.now f.1 g.1) };

    fn take(&mut self, number: u32) -> Result<B::D, BayFault> {
        Bay::take(&mut *self.bay, number)
    }

    fn crash(&mut self, disk: B::D, choice: u64) -> Result<B::D, BayFault> {
        Bay::crash(&mut *self.bay, disk, choice)
    }

    fn back(&mut self, number: u32, disk: B::D) {
        Bay::back(&mut *self.bay, number, disk)
    }
}
