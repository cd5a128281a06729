// A law of the disks that a cell begins with.
ghost use Rattle.coda_site.specs.Shelves.{BlankDisksStand};

use coda_disk::Bay;

/// A law of the disks of a bay: where none of them was ever given a header, they stand for shelves on which nothing stands.
pub fn blank_disks_stand<B: Bay>(_bay: &B)
    ensures { BlankDisksStand B.D.told (B.has _bay.now) }
{}
