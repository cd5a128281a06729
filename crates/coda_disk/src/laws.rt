// Laws of what a crash leaves of a disk in memory.
ghost use Rattle.coda_disk.specs.Laws.{CrashesFillWhatIsPending, CrashesTakeAllOrNothing};

/// A law of crashes: by choice 0 a disk in memory keeps what was synced; by choice 1, where no write since was refused, it
/// has what a read gave.
pub fn crashes_take_all_or_nothing()
    ensures { CrashesTakeAllOrNothing }
{}

/// A law of crashes: by a choice above 1 a disk in memory has, at each place that a write covers which isn't synced, the
/// choice and the place, modulo 256; at each other place stands what was synced there.
pub fn crashes_fill_what_is_pending()
    ensures { CrashesFillWhatIsPending }
{}
