// Replicas as actors.
ghost use Rattle.std.specs.Prelude.{◌≡◌};

use crate::actor::Actor;
use coda_disk::Disk;
use coda_journal::{Header, Unmounted};
use coda_replica::Replica;
use std::alloc::Global;

impl<D: Disk> Actor<D> for Replica<D> {
    ghost use Rattle.coda_actors.specs.Replicas.{replica_form};
    ghost use Rattle.coda_actors.specs.ReplicaDisks.{replica_stands, one_replica_history, replica_history_grows};

    ghost form = { replica_form D.told };

    fn recover(alloc: Global, disk: D, header: &Header) -> Result<(Replica<D>, u64), Unmounted<D>> {
        Replica::recover(alloc, disk, header)
    }

    fn is_down(&self) -> bool {
        Replica::is_down(self)
    }

    fn into_disk(self) -> D {
        self.down()
    }

    fn arm(&mut self, passes: u64) {
        Replica::arm(self, passes);
    }

    ghost stands = { replica_stands D.told };

    ghost lawful = { λ a header history up. (up.up, up.lawful) };

    ghost same = { one_replica_history };

    ghost empty = { λ header. tt };

    ghost grows = { replica_history_grows };
}
