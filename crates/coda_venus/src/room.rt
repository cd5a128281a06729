// Room in a client's cache: who goes for what is fetched and for what is performed, and what is kept of it.
ghost use Rattle.std.specs.Prelude.{◌≡◌, ◌≢◌, ◌⊎◌, ◌+◌, ◌≤◌, ℕ, List, [], ◌∷◌, ◌++◌, true, false, Ok, Err, IfOk, IfErr, OnOk, OnErr, IsErrOf};
ghost use Rattle.std.specs.BTreeMap as tree;
ghost use Rattle.std.specs.Ordering.{nat_cmp};
ghost use Rattle.coda_fid.specs.declared.fid.Fid.{Fid as AFid};
ghost use Rattle.coda_io.specs.Faults.{Rose};
ghost use Rattle.coda_tree.specs.Blocks.{blocks_of};
ghost use Rattle.coda_certify.specs.Replay.{MayApply};
ghost use Rattle.coda_plain.specs.Deeds.{Operated};
ghost use Rattle.coda_cache.specs.Room.{evicted_for, evicted_after};
ghost use Rattle.coda_cache.specs.Steps.{invalidated_from};
ghost use Rattle.coda_journal.specs.declared.header.Header.{Header as AskedHeader};
ghost use Rattle.coda_record.specs.Entries.{node as a_node};
ghost use Rattle.coda_record.specs.Form.{four};
ghost use Rattle.coda_record.specs.Spelling.{HasSpelling};
ghost use Rattle.coda_record.specs.Table.{volume as a_volume};
ghost use Rattle.coda_record.specs.declared.entry.ClientEntry.TheVariants.{Op as OpEntry, Fetched as FetchedEntry};
ghost use Rattle.coda_spelling.specs.Spelled.{IsSpelled};
ghost use Rattle.coda_venus.specs.Caching.{log_mentions, invalidated_in, valid_in, installed_in, performed_in, AreMentioned};
ghost use Rattle.coda_venus.specs.Code.{held_of, volume_in, MayPerform};
ghost use Rattle.coda_venus.specs.History.{Payload, state_of, MayEnterAll};
ghost use Rattle.coda_venus.specs.Keeping.{KeepingOne, Falls};
ghost use Rattle.coda_venus.specs.Operating.{MayBegin};
ghost use Rattle.coda_venus.specs.Rounds.{dropping, parent_of_fetched};
ghost use Rattle.coda_venus.specs.State.{volume_after};

use crate::entries::{has_room, installed_frame, performed_frame};
use crate::installing::{fid_spelled, parent_spelled};
use crate::marks::invalidate_all;
use crate::refused::Refused;
use crate::venus::Venus;
use coda_cache::{CacheFault, kind_blocks};
use coda_disk::Disk;
use coda_fid::{Fid, Record};
use coda_tree::Node;

impl<D: Disk> Venus<D> {
    ghost use Rattle.coda_venus.specs.Standing.{IsUp};

    // ---- who goes

    /// Keeps from now on what finds cached nodes by their use, which is to be called before room is asked for: else
    /// each call looks at all that is cached. It costs a constant where that is kept.
    pub fn keep_order(&mut self)
        ensures same { (self.new.client ≡ self.old.client) × (self.new.journal ≡ self.old.journal) × (self.new.down ≡ self.old.down) }
        ensures up { (header : AskedHeader) (history : List Payload) → IsUp D.told header self.old history → IsUp D.told header self.new history }
    {
        self.client.cache.index();
    }

    /// Who goes for an object that is to be fetched, in order, where these are kept: see `evict_for` of `Cache`. It
    /// comes under the directory under which it is cached; where it isn't cached, a root under none, and another
    /// object under the first directory that binds it.
    ///
    /// # Errors
    ///
    /// `CacheFull` exactly where the blocks that are pinned, and those that are needed besides, exceed the size; else
    /// only `Memory`, which stands too for a number of blocks that doesn't fit in 64 bits, or of the object in 32.
    pub fn room_for(&self, fid: Fid, node: &Node, keep: &[Fid]) -> Result<Vec<Fid>, CacheFault>
        ensures gone { IfOk result (λ v. evicted_for self.now.client.cache fid (parent_of_fetched (held_of self.now.client) fid) (blocks_of node.now.kind) keep.now ≡ Ok v.items) }
        ensures causes { IfErr result (λ why. (why ≡ CacheFault.Memory) ⊎ (evicted_for self.now.client.cache fid (parent_of_fetched (held_of self.now.client) fid) (blocks_of node.now.kind) keep.now ≡ Err why)) }
    {
        let blocks = kind_blocks(&node.kind)?;
        let parent = self.client.parent_of_fetched(fid);
        self.client.cache.evict_for(fid, parent, blocks, keep)
    }

    /// Who goes for an operation on a volume that looked up these, in order: see `evict_after` of `Cache`. The
    /// operation isn't performed.
    ///
    /// It costs a constant where what the operation adds fits beside all that is cached; else also the records of the
    /// log, by the logarithm of how many there are.
    ///
    /// # Errors
    ///
    /// `CacheFull` exactly where the blocks that are pinned once the operation is performed, and those of what is
    /// kept besides, exceed the size; else only `Memory`, which stands too for a number of blocks that doesn't fit in
    /// 64 bits, or of one object in 32.
    pub fn room_after(
        &self,
        volume: u32,
        rec: &Record,
        looked: &[Fid],
    ) -> Result<Vec<Fid>, CacheFault>
        requires apply { MayApply self.now.client.cache.nodes rec.now.op }
        requires next { rec.now.number ≡ (volume_in (tree.get nat_cmp self.now.client.logs volume)).log.last + 1 }
        ensures gone { (mentioned : List AFid) → AreMentioned (volume_after (volume_in (tree.get nat_cmp self.now.client.logs volume)) (Operated rec.now)) volume mentioned
            → IfOk result (λ v. evicted_after self.now.client.cache self.now.client.number volume rec.now mentioned looked.now ≡ Ok v.items) }
        ensures causes { (mentioned : List AFid) → AreMentioned (volume_after (volume_in (tree.get nat_cmp self.now.client.logs volume)) (Operated rec.now)) volume mentioned
            → IfErr result (λ why. (why ≡ CacheFault.Memory) ⊎ (evicted_after self.now.client.cache self.now.client.number volume rec.now mentioned looked.now ≡ Err why)) }
    {
        if self.client.cache.fits_after(rec)? {
            return Ok(Vec::new(self.client.alloc));
        }
        let mentioned = self.client.mentioned_after(volume, rec)?;
        self.client
            .cache
            .evict_after(volume, rec, &mentioned, looked)
    }

    // ---- what is kept

    // Keeps an object that was fetched, for which these go. The payload is made, and its room tested, before what is
    // held changes.
    fn keep_installed(
        &mut self,
        fid: Fid,
        parent: Option<Fid>,
        node: Node,
        from: u8,
        gone: &[Fid],
    ) -> Result<(), Refused>
        requires up { self.old.down ≡ false }
        requires node { HasSpelling (a_node four) node }
        requires parent { parent ≡ parent_of_fetched (held_of self.old.client) fid }
        ensures keeps { (header : AskedHeader) (history : List Payload) → IsUp D.told header self.old history
            → MayEnterAll (state_of header history) (dropping gone.now ++ FetchedEntry fid parent node ∷ [])
            → KeepingOne D.told header self.old history (dropping gone.now ++ FetchedEntry fid parent node ∷ []) self.new result }
        ensures cache { OnOk result (self.new.client.cache ≡ installed_in (log_mentions self.old.client) self.old.client.cache gone.now fid parent node from) }
        ensures same { OnErr result (self.new.down ≡ false → (self.new.client ≡ self.old.client) × (self.new.journal ≡ self.old.journal)) }
        ensures rest { (self.new.client.number ≡ self.old.client.number) × (self.new.client.logs ≡ self.old.client.logs) }
        ensures never { result ≢ Err Refused.Down }
        ensures falls { Falls self.old.down self.new.down result }
        ensures later { D.faults self.old.journal.disk ≤ D.faults self.new.journal.disk }
        ensures cause { IsErrOf result Refused.DiskFault → Rose (D.faults self.old.journal.disk) (D.faults self.new.journal.disk) }
        ensures arms { D.arms self.new.journal.disk ≡ D.arms self.old.journal.disk }
    {
        fid_spelled(fid);
        parent_spelled(parent);
        self.client.cache.agree();
        let frame = installed_frame(self.client.alloc, gone, fid, parent, &node)?;
        if !has_room(&self.journal, &frame) {
            return Err(Refused::JournalFull);
        }
        self.client.take_in(fid, parent, node, from, gone)?;
        self.write(&frame)
    }

    /// Keeps an object that was fetched from a server, for which these go: they are dropped, and it is cached under
    /// its directory (`room_for`) as a valid copy from there, dirty where the log mentions it. All of it is one
    /// payload of the journal, which is on the disk before it is answered.
    ///
    /// Whatever it answers, a crash at any moment since its start leaves the history that was there, or that history
    /// with this payload, where the entries of that may follow.
    ///
    /// # Errors
    ///
    /// `Down` exactly where the client is down. Else `JournalFull` where the journal has no room for the payload, and
    /// `Memory`, which change nothing; or `DiskFault`, after which the client is down.
    pub fn install(&mut self, fid: Fid, node: Node, from: u8, gone: &[Fid]) -> Result<(), Refused>
        requires node { HasSpelling (a_node four) node }
        ensures keeps { (header : AskedHeader) (history : List Payload) → IsUp D.told header self.old history
            → MayEnterAll (state_of header history) (dropping gone.now ++ FetchedEntry fid (parent_of_fetched (held_of self.old.client) fid) node ∷ [])
            → KeepingOne D.told header self.old history (dropping gone.now ++ FetchedEntry fid (parent_of_fetched (held_of self.old.client) fid) node ∷ []) self.new result }
        ensures cache { OnOk result (self.new.client.cache ≡ installed_in (log_mentions self.old.client) self.old.client.cache gone.now fid (parent_of_fetched (held_of self.old.client) fid) node from) }
        ensures same { OnErr result (self.new.down ≡ false → (self.new.client ≡ self.old.client) × (self.new.journal ≡ self.old.journal)) }
        ensures rest { (self.new.client.number ≡ self.old.client.number) × (self.new.client.logs ≡ self.old.client.logs) }
        ensures down { self.old.down ≡ true → (result ≡ Err Refused.Down) × (self.new ≡ self.old) }
        ensures only_down { result ≡ Err Refused.Down → self.old.down ≡ true }
        ensures falls { Falls self.old.down self.new.down result }
        ensures later { D.faults self.old.journal.disk ≤ D.faults self.new.journal.disk }
        ensures cause { IsErrOf result Refused.DiskFault → Rose (D.faults self.old.journal.disk) (D.faults self.new.journal.disk) }
        ensures arms { D.arms self.new.journal.disk ≡ D.arms self.old.journal.disk }
    {
        if self.down {
            return Err(Refused::Down);
        }
        let parent = self.client.parent_of_fetched(fid);
        self.keep_installed(fid, parent, node, from, gone)
    }

    // Keeps an operation that was accepted, for which these go. The payload is made, and its room tested, before what
    // is held and the log change.
    fn keep_performed(&mut self, volume: u32, rec: Record, gone: &[Fid]) -> Result<(), Refused>
        requires up { self.old.down ≡ false }
        requires volume { HasSpelling a_volume volume }
        requires spelled { IsSpelled rec }
        requires begin { MayBegin self.old.client.cache.nodes rec.op }
        requires perform { MayPerform (volume_in (tree.get nat_cmp self.old.client.logs volume)) rec }
        ensures keeps { (header : AskedHeader) (history : List Payload) → IsUp D.told header self.old history
            → MayEnterAll (state_of header history) (dropping gone.now ++ OpEntry volume rec ∷ [])
            → KeepingOne D.told header self.old history (dropping gone.now ++ OpEntry volume rec ∷ []) self.new result }
        ensures cache { OnOk result (self.new.client.cache ≡ performed_in (log_mentions self.new.client) self.old.client.cache gone.now self.old.client.number rec) }
        ensures same { OnErr result (self.new.down ≡ false → (self.new.client.cache ≡ self.old.client.cache) × (self.new.journal ≡ self.old.journal)) }
        ensures number { self.new.client.number ≡ self.old.client.number }
        ensures never { result ≢ Err Refused.Down }
        ensures falls { Falls self.old.down self.new.down result }
        ensures later { D.faults self.old.journal.disk ≤ D.faults self.new.journal.disk }
        ensures cause { IsErrOf result Refused.DiskFault → Rose (D.faults self.old.journal.disk) (D.faults self.new.journal.disk) }
        ensures arms { D.arms self.new.journal.disk ≡ D.arms self.old.journal.disk }
    {
        let frame = performed_frame(self.client.alloc, gone, volume, &rec)?;
        if !has_room(&self.journal, &frame) {
            return Err(Refused::JournalFull);
        }
        self.client.perform(volume, rec, gone)?;
        self.write(&frame)
    }

    /// Keeps an operation that was accepted, for which these go: it is carried out on what is cached, put behind the
    /// log of its volume, and they are dropped. What it mentions is dirty where the log mentions it then. All of it
    /// is one payload of the journal, which is on the disk before it is answered.
    ///
    /// Whatever it answers, a crash at any moment since its start leaves the history that was there, or that history
    /// with this payload, where the entries of that may follow.
    ///
    /// # Errors
    ///
    /// `Down` exactly where the client is down. Else `JournalFull` where the journal has no room for the payload, and
    /// `Memory`, which change nothing; or `DiskFault`, after which the client is down.
    pub fn perform(&mut self, volume: u32, rec: Record, gone: &[Fid]) -> Result<(), Refused>
        requires volume { HasSpelling a_volume volume }
        requires spelled { IsSpelled rec }
        requires begin { MayBegin self.old.client.cache.nodes rec.op }
        requires perform { MayPerform (volume_in (tree.get nat_cmp self.old.client.logs volume)) rec }
        ensures keeps { (header : AskedHeader) (history : List Payload) → IsUp D.told header self.old history
            → MayEnterAll (state_of header history) (dropping gone.now ++ OpEntry volume rec ∷ [])
            → KeepingOne D.told header self.old history (dropping gone.now ++ OpEntry volume rec ∷ []) self.new result }
        ensures cache { OnOk result (self.new.client.cache ≡ performed_in (log_mentions self.new.client) self.old.client.cache gone.now self.old.client.number rec) }
        ensures same { OnErr result (self.new.down ≡ false → (self.new.client.cache ≡ self.old.client.cache) × (self.new.journal ≡ self.old.journal)) }
        ensures number { self.new.client.number ≡ self.old.client.number }
        ensures down { self.old.down ≡ true → (result ≡ Err Refused.Down) × (self.new ≡ self.old) }
        ensures only_down { result ≡ Err Refused.Down → self.old.down ≡ true }
        ensures falls { Falls self.old.down self.new.down result }
        ensures later { D.faults self.old.journal.disk ≤ D.faults self.new.journal.disk }
        ensures cause { IsErrOf result Refused.DiskFault → Rose (D.faults self.old.journal.disk) (D.faults self.new.journal.disk) }
        ensures arms { D.arms self.new.journal.disk ≡ D.arms self.old.journal.disk }
    {
        if self.down {
            return Err(Refused::Down);
        }
        self.keep_performed(volume, rec, gone)
    }

    // ---- copies that aren't valid any more

    /// Makes the copies of these not valid, and answers how many were valid.
    pub fn invalidate(&mut self, fids: &[Fid]) -> u64
        ensures count { result ≡ valid_in self.old.client.cache fids.now }
        ensures cache { self.new.client.cache ≡ invalidated_in self.old.client.cache fids.now }
        ensures up { (header : AskedHeader) (history : List Payload) → IsUp D.told header self.old history → IsUp D.told header self.new history }
        ensures rest { (self.new.down ≡ self.old.down) × (self.new.journal ≡ self.old.journal) × (self.new.client.number ≡ self.old.client.number) × (self.new.client.logs ≡ self.old.client.logs) }
    {
        invalidate_all(&mut self.client.cache, fids)
    }

    /// Makes no copy of a volume's objects valid that is from a server.
    pub fn cut(&mut self, volume: u32, server: u8)
        ensures cache { self.new.client.cache ≡ invalidated_from self.old.client.cache volume server }
        ensures up { (header : AskedHeader) (history : List Payload) → IsUp D.told header self.old history → IsUp D.told header self.new history }
        ensures rest { (self.new.down ≡ self.old.down) × (self.new.journal ≡ self.old.journal) × (self.new.client.number ≡ self.old.client.number) × (self.new.client.logs ≡ self.old.client.logs) }
    {
        self.client.cache.invalidate_from(volume, server);
    }
}
