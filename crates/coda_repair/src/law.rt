ghost use Rattle.coda_repair.specs.Laws.{FoundLeadAlike, RepairedAreEqual, LosersAreMarked, SourceKeepsTheRest};
ghost use Rattle.coda_repair.specs.Laws.{RepairsKeepTreesOfOneKind, RepairsBelongToTheLineage};

/// A law of repair: where a path leads to an object for it, the source is one of the replicas, and the names lead to
/// that object at each of them through the same directories.
pub fn found_lead_alike()
    ensures { FoundLeadAlike }
{}

/// A law of repair: behind one the object and all below it are the same node at all replicas, as the source had it,
/// not marked, with an empty log, and with one vector that has all updates of any replica and one more of the source
/// (Kumar and Satyanarayanan 1993).
pub fn repaired_are_equal()
    ensures { RepairedAreEqual }
{}

/// A law of repair: a directory that loses an object at a replica is marked there (Kumar and Satyanarayanan 1993).
pub fn losers_are_marked()
    ensures { LosersAreMarked }
{}

/// A law of repair: the source keeps all but the object and what is below it as it was.
pub fn source_keeps_the_rest()
    ensures { SourceKeepsTheRest }
{}

/// A law of repair: replicas that are trees of one kind stay so, whichever of them install their changes.
pub fn repairs_keep_trees_of_one_kind()
    ensures { RepairsKeepTreesOfOneKind }
{}

/// A law of repair: where the changes that `repair` answers are installed, at all of the replicas or at some, that is a
/// repair in the life of the volume.
pub fn repairs_belong_to_the_lineage()
    ensures { RepairsBelongToTheLineage }
{}
