ghost use Rattle.std.specs.Prelude.{◌<◌};
ghost use Rattle.coda_spelling.specs.Spelled.{AreSpelled};
ghost use Rattle.coda_venus.specs.Logs.{AreSendable};

use crate::client::Client;
use coda_journal::Journal;

/// A client's cache manager on a disk (Kistler and Satyanarayanan 1992): a journal of what it performed, froze, settled, fetched
/// and dropped, and what that leaves.
///
/// Each call adds at most one payload to the journal, and takes all memory before the first call of the disk. Once a call of the
/// disk failed the client is down: each call answers so, until the disk is recovered.
#[derive(Drop)]
pub struct Venus<D> {
    pub(crate) journal: Journal<D>,
    pub(crate) client: Client,
    pub(crate) down: bool,

    ghost numbered: { client.number < 256 },
    ghost spelled: { AreSpelled client.cache.nodes },
    ghost sendable: { ∥ AreSendable client.logs ∥₁ },
}
