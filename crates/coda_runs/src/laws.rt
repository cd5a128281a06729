// What all runs of scripts have in common, whatever stands on the disks where they begin.
ghost use Rattle.coda_runs.specs.Again.{WhoNeverCameIsAsItWas, OwnDisksAreNotForeign, WhatOthersHoldIsKept, WhatIsMadeAgainIsCounted, RecoveriesFindTheirOwn, WhatRanCanBeResumed};
ghost use Rattle.coda_runs.specs.Because.{EveryRefusalHasItsCause};
ghost use Rattle.coda_runs.specs.Caches.{CachesAreForests};
ghost use Rattle.coda_runs.specs.Causes.{RefusalsHaveCauses, MissesAreUnreachable};
ghost use Rattle.coda_runs.specs.Complete.{CleanScriptsEnd, ScriptsHaveOneStatus, ScriptsInGrammarAreClean};
ghost use Rattle.coda_runs.specs.Headline.{WhatRanIsKept, ScriptsRun, ChunksAreDecidedOnce, CertifiedChunksAreApplied, ConflictsNameASentRecord, OperationsAreKept, VolumesInOneRowAreDoneOnce, SettlementsAreDecided, LogsArePending, AcknowledgedEntriesStay, ClientsComeBack, ReplicasComeBack, ChunksOverwriteNobody};
ghost use Rattle.coda_runs.specs.Going.{FrozenChunksGoAgain, VerdictsAreTold, VerdictsThaw};
ghost use Rattle.coda_runs.specs.Lettered.{RepliesNameLetters, LettersSayWhatIsSo, LettersHaveEnds};
ghost use Rattle.coda_runs.specs.Performed.{OperationsArePerformed};
ghost use Rattle.coda_runs.specs.Shelved.{RunsGoOn};
ghost use Rattle.coda_runs.specs.Shown.{WhatIsShownIsThere, WhatIsShownIsUp};
ghost use Rattle.coda_runs.specs.Standing.{VerdictsStandAtHome, ChunksStandWithClients};
ghost use Rattle.coda_runs.specs.States.{ShownStatesAreSettled};
ghost use Rattle.coda_runs.specs.Untouched.{RefusedLinesChangeLittle};
ghost use Rattle.coda_runs.specs.Volumes.{LinesActOnMadeVolumes, ScriptsActOnMadeVolumes};

/// A script that the cell can run from its first line to its last, within the limits, never ends as one with a bad
/// line or as one that is too long, whatever stands on the disks of either run.
pub fn clean_scripts_run()
    ensures { CleanScriptsEnd }
{}

/// A script has one status, however it is cut into pieces and whatever stands on disks, but for faults and want of
/// memory.
pub fn one_status()
    ensures { ScriptsHaveOneStatus }
{}

/// A script within the limits whose lines are silent, or in the grammar and built, and crash nobody, can run to its end
/// from whatever cell that runs may leave: each of its lines has a reply, whoever is down and whatever disk fails.
pub fn scripts_in_the_grammar_are_clean()
    ensures { ScriptsInGrammarAreClean }
{}

/// Whatever lines ran over disks that are kept, the cell is kept, so that all that is said of kept cells is so in it;
/// and each volume that they made has its replica in its row.
pub fn what_ran_is_kept()
    ensures { WhatRanIsKept }
{}

/// Whatever stands on the disks of a bay, if it is kept, and whatever lines run there, in whatever order they make
/// actors and on whichever disks: what they leave is kept, so that the next run begins there; it keeps what is
/// promised; no entry that stood on a disk is lost; and each log is what cancellation leaves of what is pending.
pub fn runs_go_on()
    ensures { RunsGoOn }
{}

/// Whatever lines ran over blank disks, what they left has run so; and what is promised of a run from nothing, of
/// clients and of the servers of volumes, is promised of it: each chunk is decided at most once by all servers of its
/// volume, and each operation is done once.
pub fn scripts_run()
    ensures { ScriptsRun }
{}

/// In every cell that is kept, whichever of the entries join whose appends failed, each chunk of a client is decided at
/// most once on the disks of a row (Kistler and Satyanarayanan 1992: a log is replayed as one transaction).
pub fn chunks_are_decided_once()
    ensures { ChunksAreDecidedOnce }
{}

/// In every cell that is kept, where the operations of a chunk certify in turn, as they were before cancellation, the
/// chunk is applied, and leaves the volume that replaying them leaves (Kistler and Satyanarayanan 1992: cancellation
/// changes no outcome).
pub fn certified_chunks_are_applied()
    ensures { CertifiedChunksAreApplied }
{}

/// In every cell that is kept, a conflict names the first of the records sent that certification refuses; the
/// operations of the chunk don't certify either, as they were before cancellation; and the volume is as it was.
pub fn conflicts_name_a_sent_record()
    ensures { ConflictsNameASentRecord }
{}

/// In every cell that is kept, no operation that a client accepted is lost, and none is done twice by the disks of one
/// row: in order, each is in one chunk that a server applied, or was given up, or is pending; what ended in a chunk was
/// applied, and stands on a disk; and what was applied ended in its chunk, or is under way, unless another row has a
/// decision of it.
pub fn operations_are_kept()
    ensures { OperationsAreKept }
{}

/// In every cell that is kept, where one row alone has disks of a volume, nothing is done twice there, without
/// exception: what was applied ended in its chunk, or is under way; and two decisions of a chunk are on one disk.
pub fn volumes_in_one_row_are_done_once()
    ensures { VolumesInOneRowAreDoneOnce }
{}

/// In every cell that is kept, and whatever letters were lost or came twice, a client settled a chunk only by a verdict
/// that is decided on it, on some disk of the volume.
pub fn settlements_are_decided()
    ensures { SettlementsAreDecided }
{}

/// In every cell that is kept, the log of a client that was made is what cancellation leaves of the operations that no
/// chunk applied.
pub fn logs_are_pending()
    ensures { LogsArePending }
{}

/// Whatever lines run in whatever cell, crashes and disks that fail or fill up among them, no entry that a client or a
/// server acknowledged is lost, on whatever disk and whoever is made again: each disk begins with what it held, and who
/// has entries keeps the header (Kistler and Satyanarayanan 1992: the log of a client that isn't connected outlives its
/// crashes).
pub fn acknowledged_entries_stay()
    ensures { AcknowledgedEntriesStay }
{}

/// In whatever cell, a client that is recovered has the history from before its crash, or that one with the one entry
/// whose append failed, and the reply counts its entries.
pub fn clients_come_back()
    ensures { ClientsComeBack }
{}

/// In whatever cell, a server's replica of a volume that is recovered has the entries from before its crash, or those
/// and the one whose append failed, so that a verdict that was answered is kept; and the reply counts them.
pub fn replicas_come_back()
    ensures { ReplicasComeBack }
{}

/// In every cell that is kept, what a reply tells of a letter is so: the chunk of a `send` waits under the number that
/// is named, and no letter is added where one waited that says the same; the answer to a chunk that was delivered waits
/// likewise, and what was delivered waits on; and a letter that is lost waits no more. No other line touches letters,
/// nor does one that is refused.
pub fn replies_name_letters()
    ensures { RepliesNameLetters }
{}

/// In every cell that is kept, and whichever of the entries join whose appends failed, a letter with a chunk says what
/// its client froze for this server under the chunk's number, and a letter with a verdict says that of a decision on a
/// disk of the volume.
pub fn letters_say_what_is_so()
    ensures { LettersSayWhatIsSo }
{}

/// The client, the volume and the server of a letter that waits are there, so that none is refused for an actor that
/// isn't: whatever lines ran, over whatever stood on disks; and whatever lines ran from a cell that is kept in which
/// they are there.
pub fn letters_have_ends()
    ensures { LettersHaveEnds }
{}

/// In every cell that is kept, a verdict that waits in a letter is that of a decision of the server that is the
/// volume's home, where the volume stands now, and stands on its disk, whichever of the entries join whose appends
/// failed. And the verdict on a client's last chunk that a replica keeps, and sends again where the letter was lost, is
/// that of a decision on the replica's own disk, of each replica that stands on a disk.
pub fn verdicts_stand_at_home()
    ensures { VerdictsStandAtHome }
{}

/// In every cell that is kept, a chunk that waits in a letter is one that its client froze for this server, under this
/// number and of these operations, also by what the client's disk gives back, with the entry whose append failed or
/// without it.
pub fn chunks_stand_with_clients()
    ensures { ChunksStandWithClients }
{}

/// In whatever cell, a drain that is answered by a verdict leaves no chunk of the client's log of the volume frozen.
pub fn verdicts_thaw()
    ensures { VerdictsThaw }
{}

/// In whatever cell, an operation that is answered as done did what its line asked, over what its client held and
/// fetched for it: the new object stands under the path's last name with the kind, mode and owner that were asked for,
/// the file has the content, the object has the attributes, is gone with its name, or is bound under the new name
/// alone. All other objects, and all their names, are as they were, but an object that a rename replaces, which is
/// gone. The operation is the last of those that no server applied, with the number that is answered. No other line is
/// answered so.
pub fn operations_are_performed()
    ensures { OperationsArePerformed }
{}

/// In whatever cell, what a reply shows of a file, a link or a directory is in the object that the line's path leads
/// to, over what the client held and what it fetched, which is as the volume's server has it.
pub fn what_is_shown_is_there()
    ensures { WhatIsShownIsThere }
{}

/// In whatever cell, an operation, a read or a listing is done, or it is refused for a cause that holds, over what the
/// client held and fetched: names that lead nowhere, since a directory doesn't bind one, an object isn't a
/// directory or isn't held; what stands at the path isn't what the operation needs; the name is taken; the log is
/// full, or the client accepted as many operations as it may; an actor that it names isn't there; or the disk of its
/// client is the cause, since the client is down, its journal has no room for the next entry, or the append of that
/// failed.
pub fn refusals_have_causes()
    ensures { RefusalsHaveCauses }
{}

/// In whatever cell, a line that is built and is no operation, read or listing is refused only for a cause that holds,
/// in the cell that it met: it names a client or a volume that wasn't made, or a server that doesn't hold the volume;
/// it would make what was made, or more than there may be; the client or the replica that it needs is down, or the
/// link over which it goes; no letter waits under its number; the client's log has a chunk for another server, or
/// cancellation left nothing of it, or its first operations are younger than the window; the client froze as many
/// chunks as it may; an answer is of no chunk that is frozen; a journal has no room for the next entry of the line;
/// the append of that, or the mounting of a disk, failed; or the disk that it mounts was given another header.
pub fn every_refusal_has_its_cause()
    ensures { EveryRefusalHasItsCause }
{}

/// In whatever cell, a line that is built and is refused leaves the cell as it was: volumes, links, letters, the clock
/// and all disks, but for what the client of an operation, a read or a listing fetched, and for the one chunk that a
/// drain froze and the one decision behind it; a disk whose append failed, and whose actor is down; and the one disk
/// that the line mounts, which is as it was, or had no entries and was given its header, and whose actor is down.
pub fn refused_lines_change_little()
    ensures { RefusedLinesChangeLittle }
{}

/// Nothing is shown of a client or of a server's replica that is down.
pub fn what_is_shown_is_up()
    ensures { WhatIsShownIsUp }
{}

/// Whatever a line does, and in whatever cell, no client does anything by it on a volume that isn't made: such a line
/// is refused, or has nothing to do with that volume.
pub fn lines_act_on_made_volumes()
    ensures { LinesActOnMadeVolumes }
{}

/// Whatever lines ran, over whatever stood on disks, no client did anything on a volume that they didn't make, also by
/// the entry whose append failed; so none did anything there at all over blank disks.
pub fn scripts_act_on_made_volumes()
    ensures { ScriptsActOnMadeVolumes }
{}

/// Behind each line, whoever wasn't made before it is as it was, on a disk as it was, but whose disk the line mounts to
/// make it: of clients in whatever cell, and of replicas in every cell whose volumes have theirs, as runs leave it.
pub fn who_never_came_is_as_it_was()
    ensures { WhoNeverCameIsAsItWas }
{}

/// Nobody's own disk is another's: a line that makes a client on a disk that has the header for which it asks, or a
/// volume on disks that all have theirs, isn't refused for the disk of another one.
pub fn own_disks_are_not_foreign()
    ensures { OwnDisksAreNotForeign }
{}

/// Where a line that makes an actor, or recovers one, asks for the disk of another, which was given another header and
/// holds entries, the disk stays as it is, whatever call of it failed: a line with the wrong cache, area, server or
/// order takes nobody's history away.
pub fn what_others_hold_is_kept()
    ensures { WhatOthersHoldIsKept }
{}

/// Where a line makes a client, or a volume on one server, its reply counts the entries that were found on the disk:
/// those that stood there, or those and the one whose append failed; and the actor is up with them.
pub fn what_is_made_again_is_counted()
    ensures { WhatIsMadeAgainIsCounted }
{}

/// A recovery is refused for the disk of another actor only where its actor stands on one: it asks for another header
/// than its disk has. Whatever lines ran over blank disks, none is: each disk is its own.
pub fn recoveries_find_their_own()
    ensures { RecoveriesFindTheirOwn }
{}

/// Whatever lines ran, over whatever disks, there are lines of scripts that make again all that they made, under the
/// same headers and in the same rows, whatever calls of disks fail, unless a disk is another's; and they may happen so
/// over whatever stands on disks.
pub fn what_ran_can_be_resumed()
    ensures { WhatRanCanBeResumed }
{}

/// Whatever ran, where a server applied a chunk, each object that one of the records sent stores, sets, removes or
/// replaces had at that server the version that its client saw, or one that a record before it in the chunk gave it: no
/// chunk overwrites what another client did meanwhile (Kistler and Satyanarayanan 1992).
pub fn chunks_overwrite_nobody()
    ensures { ChunksOverwriteNobody }
{}

/// In every cell that is kept, a chunk that is frozen is the one that a drain or a send names, whatever the window; and
/// where client, replica and link are up and the replica knows the client's chunk before it, a drain is answered by a
/// verdict on it, unless a journal is full or a disk fails. So a chunk whose letter was lost goes again.
pub fn frozen_chunks_go_again()
    ensures { FrozenChunksGoAgain }
{}

/// In every cell that is kept, where a drain is answered by a verdict, the client settled the chunk by it, and a replica
/// of the volume decided it so.
pub fn verdicts_are_told()
    ensures { VerdictsAreTold }
{}

/// In every cell that is kept, what a client caches is a forest: each directory above a cached object is cached too, and
/// no way up goes in a circle, whatever the client moved.
pub fn caches_are_forests()
    ensures { CachesAreForests }
{}

/// A client is in the state that a line shows: whatever state it was in, two looks at the link to the volume's server and
/// at its log make it this one. It emulates exactly where it can't reach the server, and hoards exactly where the link is
/// strong and nothing is left to send (Mummert, Ebling and Satyanarayanan 1995).
pub fn shown_states_are_settled()
    ensures { ShownStatesAreSettled }
{}

/// A client misses only what it can't fetch: in whatever cell, where an operation, a read or a listing is refused since
/// an object is missed, its client can't reach the volume's server, or that doesn't have the object.
pub fn missed_objects_are_out_of_reach()
    ensures { MissesAreUnreachable }
{}
