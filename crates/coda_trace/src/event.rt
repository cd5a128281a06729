// Steps of a cell as a trace keeps them.
use coda_script::Line;

/// What a step tells of disks, beside its line.
#[derive(Clone, Copy, Debug, PartialEq, Eq)]
pub enum Note {
    /// Neither of the others.
    Plain,
    /// A disk failed in the step, and the line was refused for that.
    Fault,
    /// An actor was recovered from its disk, on which so many entries were found.
    Recovered(u64),
}

/// A step of a cell.
#[derive(Debug, Drop)]
pub struct Event {
    /// The line that was carried out.
    pub line: Line,
    /// What its step tells of disks.
    pub note: Note,
}
