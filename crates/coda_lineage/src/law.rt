ghost use Rattle.coda_lineage.specs.Deeds.{CertifiedRecordsAreDecided};
ghost use Rattle.coda_lineage.specs.Lineage.{ReplicasStayTreesOfOneKind, MergesAreResolutions};
ghost use Rattle.coda_lineage.specs.Updates.{DecisionsCountUpdates};

/// A law of replicated volumes: whatever records were decided at its replicas since a volume was new, whichever of
/// them were resolved, whatever was repaired, and whichever of them installed what that left, any of its replicas are
/// trees whose root is a directory, and what any two of them hold under one fid is of one kind (Kumar and
/// Satyanarayanan 1993). So what a resolution leaves at each is a tree, and what it takes up is equal or marked
/// everywhere.
pub fn replicas_stay_trees_of_one_kind()
    ensures { ReplicasStayTreesOfOneKind }
{}

/// A law of decisions: each replica has its nodes, and whatever record certification finds nothing against there can
/// be decided.
pub fn certified_records_are_decided()
    ensures { CertifiedRecordsAreDecided }
{}

/// A law of version vectors and resolution logs: the decision of a record counts one update of the deciding server at
/// each object whose entries, contents or attributes the record changed, in its vector and at the end of its log, and
/// leaves all others as they were (Kumar and Satyanarayanan 1993). A new file or link begins with one update of that
/// server; a new directory with none, and an empty log.
pub fn decisions_count_updates()
    ensures { DecisionsCountUpdates }
{}

/// A law of resolutions: where changes that `merge` answers are installed, at all of the replicas or at some, that is
/// a resolution.
pub fn merges_are_resolutions()
    ensures { MergesAreResolutions }
{}
