ghost use Rattle.coda_cml.specs.Longest.{ChunksAreLongest};
ghost use Rattle.coda_cml.specs.Partition.{SegmentsPartTheFold};
ghost use Rattle.coda_cml.specs.Fronts.{ChunksCutTheRun, NothingIsAnEmptyFold};
ghost use Rattle.coda_cml.specs.Lean.{NothingNeedlessStays, TemporaryObjectsLeaveNothing};
ghost use Rattle.coda_cml.specs.Laws.{ThawIsTheFold, SegmentsAreTheirFolds, CutsPartTheFold, ThawHasTheSegments, RestIsSteady, OperationsKeepSteady, AdditionsAreSound, CancellationIsSound, ConflictsOfFoldsAreReal};

/// A law of cancellation: the records of the back of a steady run, added to those of its front, are the
/// records of the whole run.
pub fn a_thaw_is_the_fold()
    ensures { ThawIsTheFold }
{}

/// A law of cancellation: where a run may be cut, the records up to there are those of its front alone.
pub fn segments_are_their_folds()
    ensures { SegmentsAreTheirFolds }
{}

/// A law of cancellation: where a steady run may be cut, what is left of it is what is left of its front alone, and then
/// what is left of its back alone. So each segment holds the fold of its own operations.
pub fn cuts_part_the_fold()
    ensures { CutsPartTheFold }
{}

/// A law of cancellation: a steady run may be cut exactly where its front and its back may be, and where the
/// records of the back, as they are added to those of the front, join nothing across that number.
pub fn a_thaw_has_the_segments()
    ensures { ThawHasTheSegments }
{}

/// A law of steady runs: the back of one is steady.
pub fn the_rest_is_steady()
    ensures { RestIsSteady }
{}

/// A law of steady runs: one stays steady with one more operation, where this creates nothing that the
/// run mentions, and removes nothing in which something is left that the run created there.
pub fn operations_keep_steady()
    ensures { OperationsKeepSteady }
{}

/// A law of cancellation: where records are applied to a volume, and one more operation is certified after
/// them, the records with this one added are applied, and leave what the operation leaves (Kistler and
/// Satyanarayanan 1992: log optimizations).
pub fn additions_are_sound()
    ensures { AdditionsAreSound }
{}

/// A law of cancellation: where a run of operations is applied to a volume, so is what cancellation leaves
/// of it, and it leaves the same volume (Kistler and Satyanarayanan 1992: log optimizations).
///
/// It holds of every run: fids may be used again, and numbers need not rise.
pub fn cancellation_is_sound()
    ensures { CancellationIsSound }
{}

/// A law of cancellation: where what it leaves of a run is refused on a volume, the whole run is not
/// applied to it either (Kistler and Satyanarayanan 1992: log optimizations).
pub fn conflicts_of_folds_are_real()
    ensures { ConflictsOfFoldsAreReal }
{}

/// A law of chunks: the front that goes is the longest that may go, but reaches at least up to the first segment with a record
/// (Mummert, Ebling and Satyanarayanan 1995: a chunk is a prefix of the log).
pub fn chunks_are_the_longest()
    ensures { ChunksAreLongest }
{}

/// A law of chunks: where no refusal stands against it, the operations of a chunk are a front of the run, up to one behind
/// which nothing drops a record of it.
pub fn chunks_cut_the_run()
    ensures { ChunksCutTheRun }
{}

/// A law of chunks: there is nothing to send exactly where cancellation leaves nothing of the run.
pub fn nothing_is_an_empty_fold()
    ensures { NothingIsAnEmptyFold }
{}

/// A law of segments: in turn, each has the records of its own numbers among what is left of the run, as many as it counts,
/// and all are in one.
pub fn segments_part_the_fold()
    ensures { SegmentsPartTheFold }
{}

/// A law of cancellation: no record that is left of a run is made needless by a later one (Kistler and Satyanarayanan 1992:
/// log optimizations).
pub fn nothing_needless_stays()
    ensures { NothingNeedlessStays }
{}

/// A law of cancellation: an object that is created, written any number of times and removed again leaves nothing in the log,
/// where no record mentions it before (Kistler and Satyanarayanan 1992: identity cancellation).
pub fn temporary_objects_leave_nothing()
    ensures { TemporaryObjectsLeaveNothing }
{}
