ghost use Rattle.coda_vv.specs.Laws.{VectorsIncludeUpdates, MergingJoinsUpdates, BumpsAddOneUpdate, InclusionIsAnOrder, MergingIsTheLeastUpperBound, ComparisonsTellInclusion};

/// A law of vectors: one includes another just where each update of the other is in it.
pub fn vectors_include_updates()
    ensures { VectorsIncludeUpdates }
{}

/// A law of vectors: the merge has the updates that are in one of the two, and no others.
pub fn merging_joins_updates()
    ensures { MergingJoinsUpdates }
{}

/// A law of vectors: a bump adds the server's next update, and no other.
pub fn a_bump_adds_one_update()
    ensures { BumpsAddOneUpdate }
{}

/// A law of vectors: inclusion is an order.
pub fn inclusion_is_an_order()
    ensures { InclusionIsAnOrder }
{}

/// A law of vectors: the merge includes both, and is included by each vector that does.
pub fn merging_is_the_least_upper_bound()
    ensures { MergingIsTheLeastUpperBound }
{}

/// A law of vectors: a comparison says which of the two includes the other, and Equal just where they are one.
pub fn comparisons_tell_inclusion()
    ensures { ComparisonsTellInclusion }
{}
