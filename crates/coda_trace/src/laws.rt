// What holds of traces.
ghost use Rattle.coda_trace.specs.Laws.{TracesAreRuns, RecoveriesAreNoted};

/// The events of a trace are the steps of a run, each at its place: those before it lead to the cell in which its line
/// happens, and those behind it go on from what that leaves.
pub fn traces_are_runs()
    ensures { TracesAreRuns }
{}

/// A recovery that an event notes counts the entries with which the actor came up: those that it had, or those and the
/// one whose append failed.
pub fn recoveries_are_noted()
    ensures { RecoveriesAreNoted }
{}
