//! What the entries of a client's history do: laws above the definitions of which entry may follow, and of what it leaves.
#![tactic(auto)]

ghost use Rattle.coda_histories.specs.Forests.{CachesAreForestsInHistories, EntriesKeepForests};
ghost use Rattle.coda_histories.specs.Forests.{OnlyReplacingAsksDirectories, NoParentIsBelowItsChild};
ghost use Rattle.coda_histories.specs.Forests.{FilesInPlaceOfDirectoriesLoseParents};
ghost use Rattle.coda_histories.specs.Laws.{EntriesDoWhatTheySay, OperationsAreAsAsked};

/// A law of histories: an object that was fetched is cached as it was fetched, one that was dropped is not, and all others are as they
/// were; and only an operation changes a cached object that the log mentions, so that nothing which is yet to be sent is lost to a
/// fetch, a drop, a freeze or a settlement (Kistler and Satyanarayanan 1992).
pub fn entries_do_what_they_say()
    ensures { EntriesDoWhatTheySay }
{}

/// A law of operations: each has the time that was given and the next number, and a store or a change of attributes is answered with the
/// object that its path leads to.
pub fn operations_are_as_asked()
    ensures { OperationsAreAsAsked }
{}

/// A law of caches: whatever entries a client's history has, what it leaves cached is a forest. Each object with a parent
/// is cached, its parent is a directory that is cached, and no way up is a cycle: where no fetch gives a file or a link
/// in place of a directory that is cached.
pub fn caches_are_forests_in_histories()
    ensures { CachesAreForestsInHistories }
{}

/// The same of each entry by itself: an operation, a fetch, one of what is cached already, a drop, a freeze, a
/// settlement and giving up leave a forest where there was one.
pub fn entries_keep_forests()
    ensures { EntriesKeepForests }
{}

/// Every entry but a rename onto another object leaves a forest where there was one, whatever fetches give in place of
/// directories.
pub fn only_replacing_asks_directories()
    ensures { OnlyReplacingAsksDirectories }
{}

/// A law of forests: no parent is held below its child.
pub fn no_parent_is_below_its_child()
    ensures { NoParentIsBelowItsChild }
{}

/// A file that is fetched in place of a directory may cost an object its parent: of a client that was just made, this
/// law names entries of which each may follow those before it, and which leave no forest. So what the law of caches asks
/// of fetches can't be left out.
pub fn files_in_place_of_directories_lose_parents()
    ensures { FilesInPlaceOfDirectoriesLoseParents }
{}
