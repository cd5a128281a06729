// A client: what it holds and its logs.
use crate::volume_log::VolumeLog;
use coda_cache::Cache;
use std::alloc::{AllocError, Global};
use std::collections::BTreeMap;

/// A client's cache manager: the nodes that it holds, of whatever volume, and its log of each volume that it worked on
/// (Kistler and Satyanarayanan 1992).
#[derive(Drop)]
pub struct Client {
    /// Where its memory comes from.
    pub alloc: Global,
    /// The client's number.
    pub number: u8,
    /// The nodes that it holds, each below its parent.
    pub cache: Cache,
    /// Its log of each volume that it worked on.
    pub logs: BTreeMap<u32, VolumeLog>,
}

impl Client {
    ghost use Rattle.std.specs.Prelude.{◌≡◌, IfOk};
    ghost use Rattle.coda_spelling.specs.Spelled.{AreSpelled};
    ghost use Rattle.coda_venus.specs.State.{ClientState, new_client};
    ghost use Rattle.coda_venus.specs.Code.{sight, IsClient};

    /// A client with so many blocks of cache, which holds nothing. Fails for want of memory alone.
    pub fn new(alloc: Global, number: u8, blocks: u32) -> Result<Client, AllocError>
        ensures new { IfOk result (IsClient (new_client number blocks)) }
        ensures number { IfOk result (λ c. c.number ≡ number) }
        ensures spelled { IfOk result (λ c. AreSpelled c.cache.nodes) }
    {
        let cache = Cache::new(alloc, blocks)?;
        Ok(Client {
            alloc,
            number,
            cache,
            logs: BTreeMap::new(alloc),
        })
    }

    /// How many objects the client created in a volume.
    pub fn creations(&self, volume: u32) -> u32
        ensures { result ≡ (sight self.now volume).creations }
    {
        match self.logs.get(&volume) {
            Some(log) => log.creations,
            None => 0,
        }
    }
}
