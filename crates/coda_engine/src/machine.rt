// What runs a line.
use crate::status::Kind;
use std::alloc::Global;

/// A line is refused: its first wrong column, from 1, and what is wrong there.
#[derive(Clone, Copy, Debug, PartialEq, Eq)]
pub struct LineFault {
    /// The column of the first byte that is wrong, from 1.
    pub column: u32,
    /// What is wrong there.
    pub kind: Kind,
}

/// Why a line wasn't run.
#[derive(Clone, Copy, Debug, PartialEq, Eq)]
pub enum LineStop {
    /// The line isn't in the language, or not in this state.
    Refused(LineFault),
    /// The line may ask the bay, and replies to earlier lines wait that must be written before.
    Unwritten,
    /// The bay refused a disk, or a crash.
    Bay,
    /// There was no memory.
    Memory,
}

/// What runs the lines of a script, one after another.
pub trait Machine {
    ghost use Rattle.std.specs.Prelude.{ℕ, ◌≤◌, ◌≡◌, ◌+◌, List, IfOk, IfErr, OnOk, Err};
    ghost use Rattle.coda_io.specs.Faults.{Rose};
    ghost use Rattle.coda_engine.specs.declared.status.Kind.{Kind};
    ghost use Rattle.coda_engine.specs.Machine.{HasReason};

    // From the first state, the line may give this text, with its newlines, have these answers of the outside, and leave
    // the last state.
    ghost gives: { Self → List ℕ → List ℕ → List (List ℕ) → Self → Type 0 };

    // In this state the line is refused at this column, for this.
    ghost refuses: { Self → List ℕ → ℕ → Kind → Type 0 };

    // How many calls the bay refused, up to the end of the count's type.
    ghost faults: { Self → ℕ };

    // The line may ask the bay.
    ghost asks: { List ℕ → Type 0 };

    // What a line at which the bay was at fault leaves: the first is the state before it.
    ghost breaks: { Self → Self → Type 0 };

    // After so many lines the machine may run another.
    ghost ready: { Self → ℕ → Type 0 };

    // The second is the first after some lines, of which the last may have stopped.
    ghost follows: { Self → Self → Type 0 };

    /// Runs a line, which has no newline, and answers the bytes of its reply: none, or lines that each have their
    /// newline. A script has at most 16,777,216 lines. It is told whether replies to earlier lines wait to be written: a
    /// line that may ask the bay runs only where none waits, since behind a fault of the bay none may be missing.
    ///
    /// # Errors
    ///
    /// `Refused` where the machine refuses the line, and `Unwritten` where replies must be written before it, since it may
    /// ask the bay; nothing has changed then. `Bay` where the bay refused a call: its count of faults rose, and no reply
    /// waited. `Memory` where there was no memory.
    fn run(&mut self, alloc: Global, line: &[u8], waits: bool) -> Result<Vec<u8>, LineStop>
        requires { (lines : ℕ) × (lines ≤ 16777216) × ready self.old lines }
        ensures ready { OnOk result ((lines : ℕ) → ready self.old lines → ready self.new (lines + 1)) }
        ensures ok { IfOk result (λ text. (outside : List (List ℕ)) × gives self.old line.now text.items outside self.new) }
        ensures reason { IfErr result (HasReason refuses asks breaks self.old line.now waits self.new) }
        ensures later { faults self.old ≤ faults self.new }
        ensures follows { follows self.old self.new }
        ensures bay_fault { result ≡ Err LineStop.Bay → Rose (faults self.old) (faults self.new) };

    // A machine follows itself.
    ghost same: { (a : Self) → follows a a };

    // What follows goes on.
    ghost then: { (a b c : Self) → follows a b → follows b c → follows a c };
}
