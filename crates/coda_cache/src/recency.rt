ghost use Rattle.std.specs.Prelude.{◌≡◌, true, false, cond, [], IfOk, OnOk, OnErr};
ghost use Rattle.std.specs.Map.{keys_of};
ghost use Rattle.coda_cache.specs.Uses.{latest, except};
ghost use Rattle.coda_walk.specs.Going.{is_listed};

use coda_fid::Fid;
use coda_tree::FidHash;
use lru::LruCache;
use std::alloc::{AllocError, Global};
use std::hash::BuildHasherDefault;
use std::marker::Model;

/// In which order objects were used.
///
/// Contracts see the list of their fids, the least recently used first, each once. A change takes constant time.
#[derive(Drop)]
pub struct Recency {
    used: LruCache<Fid, (), FidHash>,
}

impl Model for Recency {
    ghost use Rattle.std.specs.Prelude.{List};
    ghost use Rattle.std.specs.Coded.{coded_list};
    ghost use Rattle.coda_fid.specs.Fid.{coded_fid};
    ghost use Rattle.coda_fid.specs.declared.fid.Fid.{Fid};
    ghost use Rattle.coda_cache.specs.Uses.{in_order, IsUnbounded};

    ghost Value = { List Fid };

    ghost coded = { coded_list coded_fid };

    ghost view = { λ a. in_order a.used.entries };

    ghost invariant = { λ a. IsUnbounded a.used };
}

// The keys, the most recently used first.
fn latest_first(alloc: Global, used: &LruCache<Fid, (), FidHash>) -> Result<Vec<Fid>, AllocError>
    ensures { IfOk result (λ v. v.items ≡ keys_of used.now.entries) }
{
    let mut fids = Vec::new(alloc);
    for (fid, _) in used {
        fids.push(*fid)?;
    }
    Ok(fids)
}

impl Recency {
    /// No objects. Fails for want of memory alone.
    pub fn new(alloc: Global) -> Result<Recency, AllocError>
        ensures { IfOk result (λ r. r ≡ []) }
    {
        let used = LruCache::unbounded_with_hasher(alloc, BuildHasherDefault::new())?;
        Ok(Recency { used })
    }

    /// Whether an object is among them.
    pub fn contains(&self, fid: Fid) -> bool
        ensures { result ≡ is_listed self.now fid }
    {
        self.used.contains(&fid)
    }

    /// Notes that an object was used that is among them.
    pub fn touch(&mut self, fid: Fid)
        requires { is_listed self.old fid ≡ true }
        ensures { self.new ≡ latest self.old fid }
    {
        let _count = self.used.len();
        let _ = self.used.promote(&fid);
    }

    // Notes that an object was used, where it is among them, and answers whether it is.
    pub(crate) fn touch_if_there(&mut self, fid: Fid) -> bool
        ensures there { result ≡ is_listed self.old fid }
        ensures used { self.new ≡ cond (is_listed self.old fid) (latest self.old fid) self.old }
    {
        let _count = self.used.len();
        self.used.promote(&fid)
    }

    /// Notes that an object was used that was not among them. Fails for want of memory alone, and then changes nothing.
    pub fn begin(&mut self, fid: Fid) -> Result<(), AllocError>
        requires { is_listed self.old fid ≡ false }
        ensures ok { OnOk result (self.new ≡ latest self.old fid) }
        ensures err { OnErr result (self.new ≡ self.old) }
    {
        let _count = self.used.len();
        match self.used.put(fid, ()) {
            Ok(_) => Ok(()),
            Err(_) => Err(AllocError),
        }
    }

    /// Forgets an object.
    pub fn take_out(&mut self, fid: Fid)
        ensures { self.new ≡ except self.old fid }
    {
        let _count = self.used.len();
        let _ = self.used.pop(&fid);
    }

    /// The objects in their order. Fails for want of memory alone.
    pub fn list(&self, alloc: Global) -> Result<Vec<Fid>, AllocError>
        ensures { IfOk result (λ v. v.items ≡ self.now) }
    {
        let mut fids = latest_first(alloc, &self.used)?;
        fids.reverse();
        Ok(fids)
    }
}
