// What a client makes of its cache as objects are fetched from servers and operations are performed: who goes, where
// copies are from, and which nodes the log mentions.
ghost use Rattle.std.specs.Prelude.{◌≡◌, ◌≤◌, cond, if◌then◌else◌, is_some, ◌++◌, take, Some, OnOk, OnErr};
ghost use Rattle.std.specs.BTreeMap as tree;
ghost use Rattle.std.specs.Ordering.{nat_cmp};
ghost use Rattle.coda_fid.specs.declared.fid.Fid.{Fid};
ghost use Rattle.coda_fid.specs.Fid.{same_fid};
ghost use Rattle.coda_fid.specs.Op.{fids_of};
ghost use Rattle.coda_walk.specs.Going.{is_listed};
ghost use Rattle.coda_cache.specs.Uses.{except};
ghost use Rattle.coda_cache.specs.State.{source_of};
ghost use Rattle.coda_cache.specs.Steps.{invalidated, without, taken_from, dropped, taken_out};
ghost use Rattle.coda_record.specs.declared.entry.ClientEntry.TheVariants.{Op as OpEntry};
ghost use Rattle.coda_venus.specs.Caching.{log_mentions, listed_in, above_taken, marked_by, invalidated_in, valid_in, installed_in, performed_in};
ghost use Rattle.coda_venus.specs.Code.{MayPerform, volume_in};
ghost use Rattle.coda_venus.specs.Held.{held_after_operation, held_after_drops};
ghost use Rattle.coda_venus.specs.Operating.{MayBegin};
ghost use Rattle.coda_venus.specs.Rounds.{parent_of_fetched};
ghost use Rattle.coda_venus.specs.State.{ClientState, client_after};

use crate::client::Client;
use coda_cache::{Cache, taken_out};
use coda_fid::{Fid, Op, Record};
use coda_tree::Node;
use std::alloc::AllocError;

// The objects that an operation mentions: the first of the four, so many.
pub(crate) fn named(op: &Op) -> ([Fid; 4], usize)
    ensures named { (f : Fid) → is_listed (take result.1 result.0) f ≡ is_listed (fids_of op.now) f }
    ensures within { result.1 ≤ 4 }
{
    match op {
        Op::Create { dir, fid, .. } => ([*dir, *fid, *fid, *fid], 2),
        Op::Mkdir { dir, fid, .. } => ([*dir, *fid, *fid, *fid], 2),
        Op::Symlink { dir, fid, .. } => ([*dir, *fid, *fid, *fid], 2),
        Op::Store { fid, .. } => ([*fid; 4], 1),
        Op::Setattr { fid, .. } => ([*fid; 4], 1),
        Op::Remove { dir, fid, .. } => ([*dir, *fid, *fid, *fid], 2),
        Op::Rmdir { dir, fid, .. } => ([*dir, *fid, *fid, *fid], 2),
        Op::Rename {
            from_dir,
            to_dir,
            fid,
            over,
            ..
        } => match over {
            Some(over) => ([*from_dir, *to_dir, *fid, over.fid], 4),
            None => ([*from_dir, *to_dir, *fid, *fid], 3),
        },
    }
}

// Drops an object, unless it is kept.
fn drop_unless(cache: &mut Cache, fid: Fid, kept: Fid)
    ensures { cache.new ≡ cond (same_fid fid kept) cache.old (without cache.old fid) }
{
    if fid != kept {
        cache.take_out(fid);
    }
}

// Drops these, but for one that is kept.
fn drop_but(cache: &mut Cache, gone: &[Fid], kept: Fid)
    ensures { cache.new ≡ dropped cache.old (except gone.now kept) }
{
    for fid in gone {
        drop_unless(cache, *fid, kept);
    }
}

// Makes a copy not valid, and answers 1 where it was.
fn invalidate_one(cache: &mut Cache, fid: Fid) -> u64
    ensures count { result ≡ (if is_some (source_of cache.old fid) then 1 else 0) }
    ensures few { result ≤ 1 }
    ensures left { cache.new ≡ invalidated cache.old fid }
{
    if cache.invalidate(fid) { 1 } else { 0 }
}

// Makes the copies of these not valid, and counts those that were.
pub(crate) fn invalidate_all(cache: &mut Cache, fids: &[Fid]) -> u64
    ensures count { result ≡ valid_in cache.old fids.now }
    ensures left { cache.new ≡ invalidated_in cache.old fids.now }
{
    let mut count = 0;
    for fid in fids {
        count += invalidate_one(cache, *fid);
    }
    count
}

impl Client {
    ghost use Rattle.coda_venus.specs.Code.{IsClient, held_of};

    // The directory under which an object is cached that is fetched: its own one where it is cached, none for a root,
    // and else the first that binds it.
    pub(crate) fn parent_of_fetched(&self, fid: Fid) -> Option<Fid>
        ensures { result ≡ parent_of_fetched (held_of self.now) fid }
    {
        match self.cache.peek(fid) {
            Some(_) => self.parent(fid),
            None => {
                if fid == Fid::root(fid.volume) {
                    None
                } else {
                    self.cache.binder(fid)
                }
            }
        }
    }

    // Takes in an object that was fetched from a server, for which these go. It is put before they do, since that
    // alone wants memory: then all is as it was.
    pub(crate) fn take_in(
        &mut self,
        fid: Fid,
        parent: Option<Fid>,
        node: Node,
        from: u8,
        gone: &[Fid],
    ) -> Result<(), AllocError>
        requires { parent ≡ parent_of_fetched (held_of self.old) fid }
        ensures cache { OnOk result (self.new.cache ≡ installed_in (log_mentions self.old) self.old.cache gone.now fid parent node from) }
        ensures err { OnErr result (self.new ≡ self.old) }
        ensures rest { (self.new.number ≡ self.old.number) × (self.new.logs ≡ self.old.logs) }
    {
        self.cache.agree();
        let dirty = self.is_dirty(fid);
        self.cache.put(fid, parent, node, Some(from))?;
        drop_but(&mut self.cache, gone, fid);
        self.cache.mark(fid, dirty);
        Ok(())
    }

    // Makes each of these dirty just where the log mentions it, where it is cached.
    fn mark_all(&mut self, fids: &[Fid])
        ensures cache { self.new.cache ≡ marked_by (log_mentions self.old) self.old.cache fids.now }
        ensures rest { (self.new.number ≡ self.old.number) × (self.new.logs ≡ self.old.logs) }
    {
        for fid in fids {
            let dirty = self.is_dirty(*fid);
            self.cache.mark(*fid, dirty);
        }
    }

    // The directory above what an operation takes out, where it takes out something that has one.
    fn above_taken(&self, op: &Op) -> Option<Fid>
        ensures { listed_in result ≡ above_taken self.now.cache (taken_out op.now) }
    {
        match taken_out(op) {
            Some(fid) => self.cache.parent(fid),
            None => None,
        }
    }

    // Makes the same of what an operation mentions, and of the directory above what it took out.
    fn mark_touched(&mut self, mentioned: &[Fid], above: Option<Fid>)
        ensures cache { self.new.cache ≡ marked_by (log_mentions self.old) self.old.cache (mentioned.now ++ listed_in above) }
        ensures rest { (self.new.number ≡ self.old.number) × (self.new.logs ≡ self.old.logs) }
    {
        self.mark_all(mentioned);
        if let Some(dir) = above {
            self.mark_all(&[dir]);
        }
    }

    // Performs an operation that was accepted, for which these go, and puts it behind the log of its volume. They go
    // last, so that nothing has to be undone where memory is wanting: then all is as it was.
    pub(crate) fn perform(
        &mut self,
        volume: u32,
        rec: Record,
        gone: &[Fid],
    ) -> Result<(), AllocError>
        requires begin { MayBegin self.old.cache.nodes rec.op }
        requires perform { MayPerform (volume_in (tree.get nat_cmp self.old.logs volume)) rec }
        ensures entered { (c : ClientState) → IsClient c self.old
            → OnOk result (IsClient (record (client_after c (OpEntry volume rec)) { held = held_after_drops (held_after_operation c.held c.number rec) gone.now }) self.new) }
        ensures err { (c : ClientState) → IsClient c self.old → OnErr result (IsClient c self.new) }
        ensures cache { OnOk result (self.new.cache ≡ performed_in (log_mentions self.new) self.old.cache gone.now self.old.number rec) }
        ensures cache_err { OnErr result (self.new.cache ≡ self.old.cache) }
        ensures nodes { OnOk result (self.new.cache.nodes ≡ taken_from (held_after_operation (held_of self.old) self.old.number rec).nodes gone.now) }
        ensures number { self.new.number ≡ self.old.number }
    {
        let (fids, count) = named(&rec.op);
        let above = self.above_taken(&rec.op);
        self.enter_operation(volume, rec)?;
        self.mark_touched(&fids[..count], above);
        self.cache.drop_all(gone);
        Ok(())
    }
}
