// When the calls of a disk or a bay in memory fail.
ghost use Rattle.std.specs.Prelude.{◌≡◌, ◌≤◌, ℕ, ◌↔◌, [], None, Some, IsTrue, MatchBool};
ghost use Rattle.coda_io.specs.Faults.{counted, Rose};

/// Which calls fail, and what was counted of them.
#[derive(Drop)]
pub struct Plan {
    failing: Vec<u64>,
    calls: u64,
    passes: Option<u64>,
    faults: u64,
    arms: u64,
}

impl Plan {
    ghost use Rattle.coda_disk.specs.Bays.{IsRested};
    ghost use Rattle.coda_disk.specs.Plans.{Stops, IsCounted};

    // A plan with the numbers of the calls that fail, where the first call is 1.
    pub(crate) fn new(failing: Vec<u64>) -> Plan
        ensures failing { result.failing ≡ failing }
        ensures calls { result.calls ≡ 0 }
        ensures rested { IsRested result.faults result.arms result.passes }
    {
        Plan {
            failing,
            calls: 0,
            passes: None,
            faults: 0,
            arms: 0,
        }
    }

    // Counts a call, and a fault where it fails. Does it fail?
    pub(crate) fn stops(&mut self) -> bool
        ensures which { IsTrue result ↔ Stops self.old }
        ensures counted { IsCounted self.old self.new }
        ensures faults { MatchBool result (self.new.faults ≡ counted self.old.faults) (self.new.faults ≡ self.old.faults) }
        ensures later { self.old.faults ≤ self.new.faults }
        ensures rose { IsTrue result → Rose self.old.faults self.new.faults }
    {
        self.calls = self.calls.saturating_add(1);
        let fails = self.failing.contains(&self.calls) || self.passes == Some(0);
        if let Some(passes) = self.passes {
            self.passes = Some(passes.saturating_sub(1));
        }
        if fails {
            self.fail();
        }
        fails
    }

    // Counts a fault.
    pub(crate) fn fail(&mut self)
        ensures plan { self.new ≡ record self.old { faults = counted self.old.faults } }
        ensures later { self.old.faults ≤ self.new.faults }
        ensures rose { Rose self.old.faults self.new.faults }
    {
        self.faults = self.faults.saturating_add(1);
    }

    // Lets so many further calls through.
    pub(crate) fn arm(&mut self, passes: u64)
        ensures { self.new ≡ record self.old { passes = Some passes; arms = counted self.old.arms } }
    {
        self.passes = Some(passes);
        self.arms = self.arms.saturating_add(1);
    }

    // Forgets what was counted but the number of calls, and that the disk was armed.
    pub(crate) fn rest(&mut self)
        ensures plan { self.new ≡ record self.old { passes = None; faults = 0; arms = 0 } }
    {
        self.passes = None;
        self.faults = 0;
        self.arms = 0;
    }

    // How many faults there were.
    pub(crate) fn faults(&self) -> u64
        ensures { result ≡ self.now.faults }
    {
        self.faults
    }

    // How many times it was armed.
    pub(crate) fn arms(&self) -> u64
        ensures { result ≡ self.now.arms }
    {
        self.arms
    }
}
