ghost use Rattle.coda_resolve.specs.Settled.{ResolvedAreEqualOrMarked, ResolvedStay, MarkedStay};
ghost use Rattle.coda_resolve.specs.Resolution.{TakenUpAreEqualOrMarked, SecondChangesNothing};
ghost use Rattle.coda_resolve.specs.Placement.{SettledBindApart, SettledBindAlone, LeadersHaveAll};
ghost use Rattle.coda_resolve.specs.Trees.{TreesStayTrees};
ghost use Rattle.coda_resolve.specs.Outcome.{WalkIsTakenUp};
ghost use Rattle.coda_resolve.specs.Told.{MarksAreTold, GreatestAreJoined, MergedLogsKeepTheLatest};
ghost use Rattle.coda_resolve.specs.FirstCause.{MarksNameTheFirstCause};
ghost use Rattle.coda_resolve.specs.Outcomes.{ChangesLeaveEqualOrMarked, ChangesKeepTreesOfOneKind, SecondOutcomeIsNothing};

/// A law of resolution: an object that some replica has is the same at all replicas after its
/// resolution, or marked at all of them (Kumar and Satyanarayanan 1993).
pub fn resolved_are_equal_or_marked()
    ensures { ResolvedAreEqualOrMarked }
{}

/// A law of resolution: what is the same at all replicas after a resolution stays so in the next one,
/// where an object is a directory at all replicas or at none.
pub fn resolved_stay()
    ensures { ResolvedStay }
{}

/// A law of resolution: what is marked after a resolution stays as each replica has it in the next one,
/// which makes no new mark.
pub fn marked_stay()
    ensures { MarkedStay }
{}

/// A law of resolution: each object that a resolution takes up is then the same at all replicas, or
/// marked at all of them (Kumar and Satyanarayanan 1993).
pub fn taken_up_are_equal_or_marked()
    ensures { TakenUpAreEqualOrMarked }
{}

/// A law of resolution: a second one right after the first takes up no other objects, touches none of
/// them and makes no new mark.
pub fn second_changes_nothing()
    ensures { SecondChangesNothing }
{}

/// A law of resolution: of replicas that are trees of one kind, no two directories that are the same everywhere
/// after a resolution bind one object.
pub fn settled_bind_apart()
    ensures { SettledBindApart }
{}

/// A law of resolution: none of the replicas, where they are trees of one kind, binds an object in another directory
/// than the one that is the same everywhere after the resolution and binds it.
pub fn settled_bind_alone()
    ensures { SettledBindAlone }
{}

/// A law of resolution: each of the replicas, where they are trees of one kind, is a tree again after a resolution.
pub fn trees_stay_trees()
    ensures { TreesStayTrees }
{}

/// A law of resolution: the walk in path order meets nothing but what is taken up, and of replicas that are trees of
/// one kind all of it, each object once.
pub fn walk_is_taken_up()
    ensures { WalkIsTakenUp }
{}

/// A law of resolution: the missing updates of a kind that a copy has contain every other copy's just where
/// it has all of them.
pub fn leaders_have_all()
    ensures { LeadersHaveAll }
{}

/// A law of resolution: after the changes that `merge` makes, each object that was taken up is the same node, with the same
/// updates and log, at all replicas, or it is marked at all of them for the first cause that holds (Kumar and
/// Satyanarayanan 1993).
pub fn changes_leave_equal_or_marked()
    ensures { ChangesLeaveEqualOrMarked }
{}

/// A law of resolution: at whichever replicas the changes that `merge` makes of trees of one kind are installed, the
/// replicas are trees of one kind again.
pub fn changes_keep_trees_of_one_kind()
    ensures { ChangesKeepTreesOfOneKind }
{}

/// A law of resolution: a second `merge` right after the changes of a first has no change, no mark, and touches nothing.
pub fn second_outcome_is_nothing()
    ensures { SecondOutcomeIsNothing }
{}

/// A law of resolution: of replicas that are trees of one kind, an object that a resolution takes up and marks was marked
/// at all of them before, or it is among the new marks, with the cause.
pub fn marks_are_told()
    ensures { MarksAreTold }
{}

/// A law of resolution: of each decision of a client that some replica knows, the joined last decisions have one
/// of that client with the same number or a greater one.
pub fn greatest_are_joined()
    ensures { GreatestAreJoined }
{}

/// A law of resolution: the log of a merged directory is the end of the logs of all copies, in which each update
/// of theirs stands: all of them, or the last 256.
pub fn merged_logs_keep_the_latest()
    ensures { MergedLogsKeepTheLatest }
{}

/// A law of resolution: a directory is marked for a cause just where that is the first of the table that holds, and the new marks
/// name it. A mark that is there comes first, then an update that no log has any more, a move between directories, a name, an
/// object that would be bound twice, or though it was taken out or a replica has it elsewhere, one that was taken out and updated
/// elsewhere, and attributes.
pub fn marks_name_the_first_cause()
    ensures { MarksNameTheFirstCause }
{}
