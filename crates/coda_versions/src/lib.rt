//! Versions: that a stale operation is refused, and that an applied chunk overwrote nobody.
#![tactic(auto)]

ghost use Rattle.coda_versions.specs.Versions.{StaleOperationsAreRefused, OperationsLeaveVersions};
ghost use Rattle.coda_versions.specs.Versions.{VersionsComeFromSomewhere, AppliedChunksOverwriteNobody};
ghost use Rattle.coda_versions.specs.Versions.{AppliedDecisionsOverwriteNobody};

/// A law of certification: an operation that carries the version of an object which its client had is certified only
/// where the object is there and has that version. So a stale store, change of attributes, removal or replacement is
/// refused (Kistler and Satyanarayanan 1992).
pub fn stale_operations_are_refused()
    ensures { StaleOperationsAreRefused }
{}

/// A law of operations: what an operation creates or writes has the version that its client and its number are, and
/// what it creates has its time; any other object that is there behind it has its version, times and attributes from
/// before, and all else where the operation doesn't name it as a directory, also where it was moved.
pub fn operations_leave_versions()
    ensures { OperationsLeaveVersions }
{}

/// A law of replays: the version that an object has behind some records is that from before them, or that of the one
/// among them which created or wrote it.
pub fn versions_come_from_somewhere()
    ensures { VersionsComeFromSomewhere }
{}

/// A law of chunks: where a chunk is applied, each object that one of its records stores, sets, removes or replaces had
/// at the server the version that the client saw, or the version that a record before it in the chunk gave it.
pub fn applied_chunks_overwrite_nobody()
    ensures { AppliedChunksOverwriteNobody }
{}

/// A law of decisions: so it is of each decision of a replica that applied its chunk.
pub fn applied_decisions_overwrite_nobody()
    ensures { AppliedDecisionsOverwriteNobody }
{}
