ghost use Rattle.coda_hdb.specs.Laws.{DatabasesKeepTheirOrder, OnePlaceHasOnePath};

/// A law of hoard databases: a path that is there keeps its place and a new one goes last, an added path is there and a
/// removed one isn't, all others stay, and no path is there twice.
pub fn databases_keep_their_order()
    ensures { DatabasesKeepTheirOrder }
{}

/// A law of hoard databases: two paths count as one just where they are one.
pub fn one_place_has_one_path()
    ensures { OnePlaceHasOnePath }
{}
