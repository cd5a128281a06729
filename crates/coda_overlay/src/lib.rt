//! What a client's log makes of its copy of one object: the log replayed on the node that a server gave, whatever was
//! cancelled in it.
#![tactic(auto)]

ghost use Rattle.coda_overlay.specs.Laws.{EndsStayTakenOut};
ghost use Rattle.coda_overlay.specs.Laws.{AdditionsOverlay, AdditionsBehindChunksOverlay, ThawsOverlay, FoldsOverlay};
ghost use Rattle.coda_overlay.specs.Laws.{UnmentionedCopiesAreAsGiven, UnmentionedCopiesStay, UnrelatedFrontsGo};
ghost use Rattle.coda_overlay.specs.Laws.{TakenOutStays, PlacesMatter};

/// A law of logs: where a log, replayed on the node that a server gave of an object, leaves the client's copy of it,
/// the log with one operation more leaves what the operation makes of that copy, whatever the operation cancels in
/// the log (Kistler and Satyanarayanan 1992). The operation has to find the names of the copy bound as it says; a
/// creation that it undoes has to be undone where it was made; and it creates nothing that was given.
pub fn additions_overlay()
    ensures { AdditionsOverlay }
{}

/// A law of logs with a frozen chunk: an operation that is added to the records behind the chunk makes of the copy what
/// it makes of one object, chunk and records replayed in order. While the verdict on the chunk is under way a directory
/// may be given that binds what the chunk created, so only what stands behind the chunk has to be younger than what
/// was given.
pub fn additions_behind_chunks_overlay()
    ensures { AdditionsBehindChunksOverlay }
{}

/// A law of thaws: where a chunk met a conflict and the records behind it are added to it again, so that they cancel in
/// it, what they leave of a copy is what chunk and records left.
pub fn thaws_overlay()
    ensures { ThawsOverlay }
{}

/// A law of cancellation at one object: what it leaves of a run of operations makes of a copy what the run makes of it.
pub fn folds_overlay()
    ensures { FoldsOverlay }
{}

/// A law of clean copies: a copy whose object no record of the log mentions is the node that was given, whatever was
/// done to it and undone.
pub fn unmentioned_copies_are_as_given()
    ensures { UnmentionedCopiesAreAsGiven }
{}

/// A law of clean copies: a log that doesn't mention an object leaves what was given of it.
pub fn unmentioned_copies_stay()
    ensures { UnmentionedCopiesStay }
{}

/// A law of applied chunks: a chunk that doesn't mention an object goes from the front of the log, and the rest makes
/// of the copy what all of it made.
pub fn unrelated_fronts_go()
    ensures { UnrelatedFrontsGo }
{}

/// A law of removals: a log that takes an object out, and doesn't create it, goes on taking it out, whatever is added
/// to the log.
pub fn taken_out_stays()
    ensures { TakenOutStays }
{}

/// A law of removals: what takes an object out stays the last record of the log that mentions it, whatever is cancelled,
/// and when a tail comes back behind its chunk; unless nothing of the log mentions the object any more.
pub fn ends_stay_taken_out()
    ensures { EndsStayTakenOut }
{}

/// A creation that is undone elsewhere than where it was made leaves a copy that isn't the node that was given, though
/// the log is empty: the premise of `additions_overlay` that removals are in place is needed.
pub fn places_matter()
    ensures { PlacesMatter }
{}
