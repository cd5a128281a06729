// What holds of cells over all their runs.
ghost use Rattle.coda_cell.specs.Runs.{CellsAreKept, DrainsAreDecided, LinesKeepCells, LinesKeepFronts};
ghost use Rattle.coda_cell.specs.Spelled.{MessagesCanBeSpelled};

/// A law of cells: one in which nothing was made is kept, and in one that is kept the parent of each object that a client
/// holds is a directory of the object's volume, and what is pending of the client is steady.
pub fn cells_are_kept()
    ensures { CellsAreKept }
{}

/// A law of lines: in a cell that is kept whatever a line does might happen to its actors, one entry after the other, and
/// keeps it; so all that is promised of cells where what may happen happens is promised of this one (Kistler and
/// Satyanarayanan 1992: a log is replayed as one transaction).
pub fn lines_keep_cells()
    ensures { LinesKeepCells }
{}

/// A law of lines that are stopped: in a cell that is kept each front of what a line does might happen to its actors,
/// one entry after the other, and keeps it; so a line may be stopped between any two of its entries, as by a disk that
/// is full, and what is promised of cells still holds.
pub fn lines_keep_fronts()
    ensures { LinesKeepFronts }
{}

/// A law of messages: in a cell that is kept, lines whose numbers are in their ranges leave what messages can say; so the records that
/// cancellation leaves of a chunk have a spelling, and what a replica answers to it.
pub fn messages_can_be_spelled()
    ensures { MessagesCanBeSpelled }
{}

/// A law of drains: in a cell that is kept, where no chunk of a client's volume is frozen and nothing stands against a freeze, a drain is
/// answered by the verdict on the operations that it freezes.
pub fn drains_are_decided()
    ensures { DrainsAreDecided }
{}
