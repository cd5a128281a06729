ghost use Rattle.coda_reslog.specs.Rings.{RingsKeepTheLatest};

/// A law of rings: the last entries are the end of the list, all of it up to 256 entries, and else 256 of them.
pub fn rings_keep_the_latest()
    ensures { RingsKeepTheLatest }
{}
