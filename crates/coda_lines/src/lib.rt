//! What each line does in a cell whose clients serve of their caches what they may serve, and fetch in rounds: each
//! line keeps such a cell.
#![tactic(auto)]

ghost use Rattle.coda_lines.specs.Working.{LinesKeepCellsWorking, ReachedCachesAreInOrder, CallsLeaveWhatStepsLeave};
ghost use Rattle.coda_lines.specs.Staling.{AppliedChunksLeaveNoCopies};
ghost use Rattle.coda_lines.specs.Emulating.{ClientsEmulateWhenCutOff};
ghost use Rattle.coda_lines.specs.Outcomes.{TasksHaveOutcomes};

/// A law of lines: in a cell whose clients serve what they may and fetch in rounds, whatever a line does might happen
/// to the actors, keeps the cell, and leaves each client ready for its next call; also a line that is stopped in front
/// of any entry. Nothing goes from a cache, or is replaced there, that is yet to be sent.
pub fn lines_keep_cells_working()
    ensures { LinesKeepCellsWorking }
{}

/// A law of reached cells: what each client has cached is a forest below directories of its volume, each object of it
/// was used, and what a client made and nothing took from where it is bound is where it was made.
pub fn reached_caches_are_in_order()
    ensures { ReachedCachesAreInOrder }
{}

/// A law of calls: what happens in a cell by a client's call leaves the client as the call's steps leave it, with its
/// valid copies and the order in which it used objects.
pub fn calls_leave_what_steps_leave()
    ensures { CallsLeaveWhatStepsLeave }
{}

/// A law of settlements: behind that of a chunk that was applied a client has no valid copy of what the chunk
/// mentioned, and each other copy that it had; a conflict leaves all copies.
pub fn applied_chunks_leave_no_copies()
    ensures { AppliedChunksLeaveNoCopies }
{}

/// A law of states: a client emulates the server of a volume while its link to the server is down, and can then fetch
/// nothing of the volume; over any other link it doesn't, and it can fetch what the replica has.
pub fn clients_emulate_when_cut_off()
    ensures { ClientsEmulateWhenCutOff }
{}

/// A law of tasks: in a cell that works each operation, read and listing has a reply and events, one of each, and
/// fetches at most as many objects as its client's cache has blocks.
pub fn tasks_have_outcomes()
    ensures { TasksHaveOutcomes }
{}
