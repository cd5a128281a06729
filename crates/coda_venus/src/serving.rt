// What a client is asked over what it may serve of its cache, by one who fetches what it misses.
ghost use Rattle.std.specs.Prelude.{◌≡◌, ◌≤◌, ◌<◌, ◌++◌, List, Bool, true, false, IfOk, IfErr, OnOk};
ghost use Rattle.std.specs.BTreeMap as tree;
ghost use Rattle.std.specs.Ordering.{nat_cmp};
ghost use Rattle.coda_fid.specs.Fid.{root_of};
ghost use Rattle.coda_journal.specs.declared.header.Header.{Header as AskedHeader};
ghost use Rattle.coda_spelling.specs.Spelled.{IsSpelled, AreSpelled};
ghost use Rattle.coda_venus.specs.Ask.{asked, IsAskSpelled};
ghost use Rattle.coda_venus.specs.Caching.{served_nodes, served_sight, used_in};
ghost use Rattle.coda_venus.specs.Code.{has_room, is_full, volume_in, MayPerform, IsClient};
ghost use Rattle.coda_venus.specs.History.{Payload};
ghost use Rattle.coda_venus.specs.Keeping.{record_of, record_for, seen_at, readable, listable, IsOwn};
ghost use Rattle.coda_venus.specs.Looking.{OrMemory};
ghost use Rattle.coda_venus.specs.Making.{makes_new};
ghost use Rattle.coda_venus.specs.Operating.{MayBegin};
ghost use Rattle.coda_venus.specs.Serving.{looked_up, looked_up_to_rename, looked_up_for};
ghost use Rattle.coda_venus.specs.State.{ClientState};

use crate::ask::{Ask, created_by, front, object_of, too_big};
use crate::client::Client;
use crate::refused::Refused;
use crate::seen::Seen;
use crate::venus::Venus;
use crate::volume_log::VolumeLog;
use coda_cache::Cache;
use coda_disk::Disk;
use coda_fid::{Fid, Name, Op, Path, Record};
use std::alloc::AllocError;

// Notes that these were used in turn, where they are cached.
fn use_in(cache: &mut Cache, fids: &[Fid])
    ensures { cache.new ≡ used_in cache.old fids.now }
{
    for fid in fids {
        cache.touch(*fid);
    }
}

impl Client {
    // Puts the objects that are looked up along names behind others, in order: the last of them is the first that may
    // not be served, where one may not.
    fn look_up(
        &self,
        emulating: bool,
        fids: &mut Vec<Fid>,
        from: Fid,
        names: &[Name],
    ) -> Result<(), AllocError>
        ensures { OnOk result (fids.new.items
            ≡ fids.old.items ++ looked_up (served_nodes emulating self.now) from names.now) }
    {
        let mut at = from;
        for name in names {
            fids.push(at)?;
            match self.step(emulating, at, name) {
                Ok(next) => at = next,
                Err(_) => return Ok(()),
            }
        }
        fids.push(at)?;
        Ok(())
    }

    // The objects that are looked up along names from the root of a volume.
    fn looked_up_along(
        &self,
        emulating: bool,
        volume: u32,
        names: &[Name],
    ) -> Result<Vec<Fid>, AllocError>
        ensures { IfOk result (λ v. v.items ≡ looked_up (served_nodes emulating self.now) (root_of volume) names.now) }
    {
        let mut fids = Vec::new(self.alloc);
        self.look_up(emulating, &mut fids, Fid::root(volume), names)?;
        Ok(fids)
    }

    // Those that a rename looks up: along the old path, and where that leads to an object along the new one.
    fn looked_up_to_rename(
        &self,
        emulating: bool,
        volume: u32,
        from: &Path,
        to: &Path,
    ) -> Result<Vec<Fid>, AllocError>
        ensures { IfOk result (λ v. v.items
            ≡ looked_up_to_rename (served_nodes emulating self.now) volume from.now to.now) }
    {
        let mut fids = self.looked_up_along(emulating, volume, from.names())?;
        match self.resolve(emulating, Fid::root(volume), from.names()) {
            Ok(_) => {
                self.look_up(emulating, &mut fids, Fid::root(volume), to.names())?;
                Ok(fids)
            }
            Err(_) => Ok(fids),
        }
    }

    // Those that an ask looks up.
    fn looked_up(&self, emulating: bool, volume: u32, ask: &Ask) -> Result<Vec<Fid>, AllocError>
        ensures { IfOk result (λ v. v.items ≡ looked_up_for (served_nodes emulating self.now) volume (asked ask.now)) }
    {
        match ask {
            Ask::Create { path, .. } => self.looked_up_along(
                emulating,
                volume,
                front(path.names()),
            ),
            Ask::Mkdir { path, .. } => self.looked_up_along(emulating, volume, front(path.names())),
            Ask::Symlink { path, .. } => self.looked_up_along(
                emulating,
                volume,
                front(path.names()),
            ),
            Ask::Store { path, .. } => self.looked_up_along(emulating, volume, path.names()),
            Ask::Setattr { path, .. } => self.looked_up_along(emulating, volume, path.names()),
            Ask::Remove { path } => self.looked_up_along(emulating, volume, path.names()),
            Ask::Rmdir { path } => self.looked_up_along(emulating, volume, path.names()),
            Ask::Rename { from, to } => self.looked_up_to_rename(emulating, volume, from, to),
        }
    }

    // Notes that these were used in turn, where they are cached.
    fn use_all(&mut self, fids: &[Fid])
        ensures cache { self.new.cache ≡ used_in self.old.cache fids.now }
        ensures client { (c : ClientState) → IsClient c self.old → IsClient c self.new }
        ensures same { (self.new.number ≡ self.old.number) × (self.new.logs ≡ self.old.logs) }
    {
        use_in(&mut self.cache, fids);
    }

    // The next record of a volume that an ask becomes at a time, over what may be served.
    fn record_for(
        &self,
        emulating: bool,
        time: u64,
        volume: u32,
        ask: &Ask,
    ) -> Result<Record, Refused>
        ensures record { (c : ClientState) → IsClient c self.now → (c.volumes volume).log.last ≤ 4294967295
            → OrMemory result
            (record_for (served_sight emulating self.now volume) (c.volumes volume) time volume (asked ask.now)) }
        ensures spelled { self.now.number < 256 → AreSpelled self.now.cache.nodes → IsAskSpelled (asked ask.now)
            → IfOk result (λ rec. rec.number ≤ 4294967295 → IsSpelled rec) }
        ensures begin { IfOk result (λ rec. MayBegin (served_nodes emulating self.now) rec.op) }
        ensures perform { IfOk result (λ rec. has_room (volume_in (tree.get nat_cmp self.now.logs volume)) rec ≡ true
            → is_full (volume_in (tree.get nat_cmp self.now.logs volume)) ≡ false
            → MayPerform (volume_in (tree.get nat_cmp self.now.logs volume)) rec) }
        ensures own { IfErr result IsOwn }
    {
        if let Some(size) = too_big(ask) {
            return Err(Refused::TooBig(size));
        }
        match self.accept(emulating, volume, ask) {
            Ok(op) => Ok(self.record_of(volume, time, op)),
            Err(refusal) => Err(refusal),
        }
    }

    // The record that an operation becomes at a time, the next on a volume.
    fn record_of(&self, volume: u32, time: u64, op: Op) -> Record
        ensures record { (volume_in (tree.get nat_cmp self.now.logs volume)).log.last ≤ 4294967295
            → result ≡ record_of (volume_in (tree.get nat_cmp self.now.logs volume)) time op }
        ensures parts { (1 ≤ result.number) × (result.time ≡ time) × (result.op ≡ op) }
    {
        match self.logs.get(&volume) {
            Some(log) => log.record_of(time, op),
            None => VolumeLog::new(self.alloc).record_of(time, op),
        }
    }
}

impl<D: Disk> Venus<D> {
    ghost use Rattle.coda_venus.specs.Standing.{IsUp};

    /// The record that an ask becomes at a time in seconds, the next on a volume, while the client isn't down: what it
    /// is asked is accepted over what may be served. Nothing changes. Whether there is room for the record isn't
    /// asked.
    ///
    /// # Errors
    ///
    /// The first of these that applies: `TooBig`; what acceptance refuses, `Need` of an object that may not be served
    /// among it. Or `Memory`, which may come before any of them.
    pub fn accept_served(
        &self,
        emulating: bool,
        now: u64,
        volume: u32,
        ask: &Ask,
    ) -> Result<Record, Refused>
        requires { self.now.down ≡ false }
        ensures record { (c : ClientState) → IsClient c self.now.client
            → OrMemory result
            (record_for (served_sight emulating self.now.client volume) (c.volumes volume) now volume (asked ask.now)) }
        ensures spelled { IsAskSpelled (asked ask.now) → IfOk result (λ rec. rec.number ≤ 4294967295 → IsSpelled rec) }
        ensures begin { IfOk result (λ rec. MayBegin (served_nodes emulating self.now.client) rec.op) }
        ensures perform { IfOk result (λ rec. has_room (volume_in (tree.get nat_cmp self.now.client.logs volume)) rec ≡ true
            → is_full (volume_in (tree.get nat_cmp self.now.client.logs volume)) ≡ false
            → MayPerform (volume_in (tree.get nat_cmp self.now.client.logs volume)) rec) }
        ensures own { IfErr result IsOwn }
    {
        self.client.record_for(emulating, now, volume, ask)
    }

    /// Whether an operation makes nothing that is cached, while the client isn't down. Where so, and it was accepted over what may
    /// be served, it may begin over all that is cached.
    pub fn makes_new(&self, op: &Op) -> bool
        requires { self.now.down ≡ false }
        ensures new { result ≡ makes_new self.now.client.cache.nodes op.now }
        ensures begin { (emulating : Bool) → result ≡ true → MayBegin (served_nodes emulating self.now.client) op.now
            → MayBegin self.now.client.cache.nodes op.now }
    {
        created_by(op) == 0 || self.client.cache.peek(object_of(op)).is_none()
    }

    /// Whether the log of a volume would keep within its limits with a record more, while the client isn't down: 4,096
    /// records, and 16 MiB. Where not, its operation is to be refused with `LogFull`.
    pub fn has_log_room(&self, volume: u32, rec: &Record) -> bool
        requires { self.now.down ≡ false }
        ensures log { result ≡ has_room (volume_in (tree.get nat_cmp self.now.client.logs volume)) rec.now }
        ensures client { (c : ClientState) → IsClient c self.now.client → result ≡ has_room (c.volumes volume) rec.now }
    {
        match self.client.logs.get(&volume) {
            Some(log) => log.has_room(rec),
            None => VolumeLog::new(self.client.alloc).has_room(rec),
        }
    }

    /// Whether as many operations were performed on a volume as there may be, 2^32 - 1, while the client isn't down.
    /// Where so, the next one is to be refused with `JournalFull`.
    pub fn is_full(&self, volume: u32) -> bool
        requires { self.now.down ≡ false }
        ensures log { result ≡ is_full (volume_in (tree.get nat_cmp self.now.client.logs volume)) }
        ensures client { (c : ClientState) → IsClient c self.now.client → result ≡ is_full (c.volumes volume) }
    {
        match self.client.logs.get(&volume) {
            Some(log) => log.is_full(),
            None => VolumeLog::new(self.client.alloc).is_full(),
        }
    }

    /// The objects that an ask looks up over what may be served, in order, while the client isn't down: the last one
    /// of a path is the first that may not be served, where one may not. It costs the depth of the paths. Fails for
    /// want of memory alone.
    pub fn looked_up(&self, emulating: bool, volume: u32, ask: &Ask) -> Result<Vec<Fid>, AllocError>
        requires { self.now.down ≡ false }
        ensures { IfOk result (λ v. v.items
            ≡ looked_up_for (served_nodes emulating self.now.client) volume (asked ask.now)) }
    {
        self.client.looked_up(emulating, volume, ask)
    }

    /// Those that are looked up along a path, to show the object there: as `looked_up`.
    pub fn looked_up_along(
        &self,
        emulating: bool,
        volume: u32,
        path: &Path,
    ) -> Result<Vec<Fid>, AllocError>
        requires { self.now.down ≡ false }
        ensures { IfOk result (λ v. v.items
            ≡ looked_up (served_nodes emulating self.now.client) (root_of volume) path.now) }
    {
        self.client.looked_up_along(emulating, volume, path.names())
    }

    /// Notes that these objects were used in turn, those that are cached, while the client isn't down. Nothing else
    /// changes.
    pub fn use_all(&mut self, fids: &[Fid])
        requires { self.old.down ≡ false }
        ensures cache { self.new.client.cache ≡ used_in self.old.client.cache fids.now }
        ensures up { (header : AskedHeader) (history : List Payload) → IsUp D.told header self.old history
            → IsUp D.told header self.new history }
        ensures client { (c : ClientState) → IsClient c self.old.client → IsClient c self.new.client }
        ensures same { (self.new.client.number ≡ self.old.client.number)
            × (self.new.client.logs ≡ self.old.client.logs) }
        ensures journal { (self.new.journal ≡ self.old.journal) × (self.new.down ≡ false) }
    {
        self.client.use_all(fids);
    }

    /// The file or link at a path, over what may be served, while the client isn't down.
    ///
    /// # Errors
    ///
    /// The first of these that applies on the way: `Need` of an object that may not be served, `NotDir`, `NotFound`;
    /// `IsDir` of a directory; and `Memory`.
    pub fn read_served(&self, emulating: bool, volume: u32, path: &Path) -> Result<Seen, Refused>
        requires { self.now.down ≡ false }
        ensures { OrMemory result (seen_at readable (served_nodes emulating self.now.client) volume path.now) }
    {
        self.client.read(emulating, volume, path)
    }

    /// The directory at a path, over what may be served, while the client isn't down.
    ///
    /// # Errors
    ///
    /// As `read_served`, but `NotDir` of an object that is no directory.
    pub fn list_served(&self, emulating: bool, volume: u32, path: &Path) -> Result<Seen, Refused>
        requires { self.now.down ≡ false }
        ensures { OrMemory result (seen_at listable (served_nodes emulating self.now.client) volume path.now) }
    {
        self.client.list(emulating, volume, path)
    }
}
