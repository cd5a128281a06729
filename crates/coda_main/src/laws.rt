// What holds of lines and of replies, whatever cell they are of.
ghost use Rattle.coda_engine.specs.Exact.{CleanScriptsRun, OneStatus};
ghost use Rattle.coda_runs.specs.Shelved.{LineRefused};
ghost use Rattle.coda_main.specs.Lines.{WhatAsksTheBayIsOfIt};
ghost use Rattle.coda_main.specs.Cached.{CachedIsHeld};
ghost use Rattle.coda_main.specs.Lines.{AnyGives};
ghost use Rattle.coda_main.specs.Tallies.{CountedRepliesAreTold};

/// A reply to a read or a listing says `cached` exactly where the client held the object before the line.
pub fn cached_is_held()
    ensures { CachedIsHeld }
{}

/// Over any bay, a script within the limits whose lines are built or say nothing never ends as one with a bad line or
/// as one that is too long.
pub fn good_lines_run_over_any_bay()
    ensures { CleanScriptsRun AnyGives LineRefused tt tt }
{}

/// A script has one status over all bays, however it is cut into pieces, but for faults and want of memory.
pub fn one_status_over_all_bays()
    ensures { OneStatus AnyGives LineRefused tt tt }
{}

/// What was written for a line tells whether it was counted: no reply but that of a failed disk has its text, and none
/// but `ok` has that of `ok`.
pub fn counted_replies_are_told()
    ensures { CountedRepliesAreTold }
{}

/// A line before which waiting replies are written, since it may ask the bay, is one that has something of the bay where
/// it isn't refused: a disk for the actor that it makes, or a crash.
pub fn what_asks_the_bay_is_of_it()
    ensures { WhatAsksTheBayIsOfIt }
{}
