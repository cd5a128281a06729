// What holds of plain cells and of all their runs.
ghost use Rattle.coda_plain.specs.Elsewhere.{ReplicasStandElsewhere};
ghost use Rattle.coda_plain.specs.Laws.{MovesKeepSound, RunsAreSound, SoundCellsArePromised, LogsGoOn, HistoriesStay, NextObjectsAreFresh, FreezesPartTheLog, MovesRun, SomeChunkIsSettled};

/// A law of cells: what may happen keeps one sound.
pub fn moves_keep_sound()
    ensures { MovesKeepSound }
{}

/// A law of cells: whatever happened in one that was empty, it is sound.
pub fn runs_are_sound()
    ensures { RunsAreSound }
{}

/// A law of cells: of a sound one the histories keep what is promised, whichever of the failed entries join: each chunk is
/// decided at most once, each decision is just, and no operation is lost or done twice.
pub fn sound_cells_are_promised()
    ensures { SoundCellsArePromised }
{}

/// A law of logs: the runs of a log, of the frozen chunk and behind it, are what is pending, and each entry of the history
/// makes of them what the call of that name makes of a log.
pub fn logs_go_on()
    ensures { LogsGoOn }
{}

/// A law of histories: whatever happens, each begins with what it was, and a recovered one is that, or that with the entry
/// whose append failed.
pub fn histories_stay()
    ensures { HistoriesStay }
{}

/// A law of fids: in a sound cell, where a client gives what it creates the next numbers, no pending operation mentions that.
pub fn next_objects_are_fresh()
    ensures { NextObjectsAreFresh }
{}

/// A law of runs: whatever happened in a sound cell, what that left is sound, keeps what is promised, and each history begins
/// with what it was (Kistler and Satyanarayanan 1992: a log is replayed as one transaction).
pub fn moves_run()
    ensures { MovesRun }
{}

/// The laws of runs are of something: in some run a client creates a file, sends it, and settles its chunk.
pub fn some_chunk_is_settled()
    ensures { SomeChunkIsSettled }
{}

/// A law of logs: where a chunk is frozen, what cancellation leaves of what is pending is what it leaves of the chunk, and then
/// what it leaves of the rest.
pub fn freezes_part_the_log()
    ensures { FreezesPartTheLog }
{}

/// A law of replicas whose disks stand where no line has made their volumes: histories agree when such replicas go, what is learned of
/// them meanwhile stays told, and they agree when one comes again, however far the clients' histories went on.
pub fn replicas_stand_elsewhere()
    ensures { ReplicasStandElsewhere }
{}
