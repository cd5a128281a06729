// Clients as actors.
ghost use Rattle.std.specs.Prelude.{◌≡◌};

use crate::actor::Actor;
use coda_disk::Disk;
use coda_journal::{Header, Unmounted};
use coda_venus::Venus;
use std::alloc::Global;

impl<D: Disk> Actor<D> for Venus<D> {
    ghost use Rattle.coda_actors.specs.Clients.{client_form};
    ghost use Rattle.coda_actors.specs.ClientDisks.{client_stands, one_client_history, client_history_grows};

    ghost form = { client_form D.told };

    fn recover(alloc: Global, disk: D, header: &Header) -> Result<(Venus<D>, u64), Unmounted<D>> {
        Venus::recover(alloc, disk, header)
    }

    fn is_down(&self) -> bool {
        Venus::is_down(self)
    }

    fn into_disk(self) -> D {
        self.down()
    }

    fn arm(&mut self, passes: u64) {
        Venus::arm(self, passes);
    }

    ghost stands = { client_stands D.told };

    ghost lawful = { λ a header history up. (up.up, up.lawful) };

    ghost same = { one_client_history };

    ghost empty = { λ header. tt };

    ghost grows = { client_history_grows };
}
