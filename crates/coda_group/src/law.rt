// What holds of cells whose volumes have several replicas, and of all their runs.
ghost use Rattle.coda_group.specs.Elsewhere.{GroupsStandElsewhere};
ghost use Rattle.coda_group.specs.Laws.{StepsAreMoves, StepsKeepGroupSound, GroupRunsAreSound, GroupCellsArePromised};
ghost use Rattle.coda_group.specs.Laws.{LettersAreTrue, ResolvedReplicasAreEqualOrMarked, RepairedAreEqual};
ghost use Rattle.coda_group.specs.Laws.{MergeChangesAreResolutions, JoinedListsAreJoined, StepsRun};
ghost use Rattle.coda_group.specs.Laws.{SomeChunkIsTakenOver, SomeVolumeIsRepaired};

/// A law of steps: what a step is made of, a move, a resolution or a repair, may happen in a sound cell entry by entry
/// and letter by letter; so all laws of such moves hold of it.
pub fn steps_are_moves()
    ensures { StepsAreMoves }
{}

/// The invariant: what may happen in a sound cell leaves it sound: a move; a resolution that is installed at all of the
/// replicas which take part, or at some, with an append at the last one that may fail; a repair that is installed so.
/// Whichever of the failed entries join, the replicas of each volume are trees, what any two hold under one fid is of
/// one kind, and nothing is held that no applied chunk made.
pub fn steps_keep_group_sound()
    ensures { StepsKeepGroupSound }
{}

/// A law of runs: whatever happened in a cell that was empty, it is sound.
pub fn group_runs_are_sound()
    ensures { GroupRunsAreSound }
{}

/// What is promised of a sound cell, whichever of the failed entries join: every chunk is decided at most once over
/// all replicas of its volume, none is skipped, and each decision is just; a replica decides nothing again that it
/// took over; a client settles no verdict but that of its chunk's home; no operation is lost or done twice; and
/// replicas are volumes that a resolution may take (Kumar and Satyanarayanan 1993).
pub fn group_cells_are_promised()
    ensures { GroupCellsArePromised }
{}

/// A law of resolutions: behind one, each object that it took up is the same, or marked, at all replicas where what it
/// leaves is installed, and each of these keeps the latest decision of each client (Kumar and Satyanarayanan 1993).
pub fn resolved_replicas_are_equal_or_marked()
    ensures { ResolvedReplicasAreEqualOrMarked }
{}

/// A law of replicas whose disks stand where no line has made their volumes: histories stand when those of a volume go,
/// and when they come again together, however far the clients' histories went on that settle nothing otherwise.
pub fn groups_stand_elsewhere()
    ensures { GroupsStandElsewhere }
{}

/// A law of repairs: behind one, what was repaired is the same, and not marked, at all replicas where what it leaves is
/// installed; and the others hold what they held.
pub fn repaired_are_equal()
    ensures { RepairedAreEqual }
{}

/// The laws are of something: in some run a chunk is decided at one server, another one takes its verdict over by a
/// resolution, tells it to the client, and decides the client's next chunk.
pub fn some_chunk_is_taken_over()
    ensures { SomeChunkIsTakenOver }
{}

/// A law of resolutions: the changes that a merge answers make of each replica what the resolution leaves there, and
/// one that has nothing leaves it as it is.
pub fn merge_changes_are_resolutions()
    ensures { MergeChangesAreResolutions }
{}

/// A law of resolutions: the latest of all lists of last decisions that replicas keep are their last decisions, joined.
pub fn joined_lists_are_joined()
    ensures { JoinedListsAreJoined }
{}

/// The law of repairs is of something: a new volume is repaired at its root.
pub fn some_volume_is_repaired()
    ensures { SomeVolumeIsRepaired }
{}

/// A law of letters: in a sound cell each chunk that is sent was frozen for its server, and each verdict is that of the
/// decision at the home of its chunk, whoever posted it.
pub fn letters_are_true()
    ensures { LettersAreTrue }
{}

/// A law of runs: whatever happened in a sound cell, what that left is sound, keeps what is promised, and each history
/// begins with what it was.
pub fn steps_run()
    ensures { StepsRun }
{}
