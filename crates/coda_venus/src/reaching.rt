// Which objects paths lead to, over what a client holds.
ghost use Rattle.std.specs.Prelude.{◌≡◌, ◌↔◌, true, IfOk, OnOk};
ghost use Rattle.std.specs.FinMap as map;
ghost use Rattle.coda_venus.specs.Reaching.{IsReached, AreReached, bound_by, Meets, Gathers};

use crate::client::Client;
use coda_fid::Fid;
use coda_tree::{Entries, NodeKind};
use indexmap::IndexSet;
use std::alloc::AllocError;

impl Client {
    // Whether going up from an object, by the directories that bind it, leads to the root: then some path leads down that way. A step
    // is a look-up, where no other name was bound to what it goes up from, and else a search of what is held.
    fn leads_up(&self, volume: u32, fid: Fid) -> bool
        ensures { result ≡ true → IsReached self.now.cache.nodes volume fid }
    {
        if self.cache.peek(fid).is_none() {
            return false;
        }
        let root = Fid::root(volume);
        let mut at = fid;
        for _ in 0..self.cache.len() {
            if at == root {
                return true;
            }
            match self.cache.binder(at) {
                Some(dir) => at = dir,
                None => return false,
            }
        }
        at == root
    }

    // Puts an object behind those that were met, if it is held and isn't among them.
    fn meet(&self, met: &mut IndexSet<Fid>, fid: Fid) -> Result<(), AllocError>
        ensures { OnOk result (Meets self.now.cache.nodes met.old.keys fid met.new.keys) }
    {
        if self.cache.peek(fid).is_some() {
            met.insert(fid)?;
        }
        Ok(())
    }

    // Puts what entries bind and the client holds behind the objects that were met.
    fn gather(&self, met: &mut IndexSet<Fid>, entries: &Entries) -> Result<(), AllocError>
        ensures { OnOk result (Gathers self.now.cache.nodes met.old.keys entries.now met.new.keys) }
    {
        for index in 0..entries.len() {
            let Some((_, fid)) = entries.at(index) else {
                unreachable!()
            };
            self.meet(met, fid)?;
        }
        Ok(())
    }

    // Puts what an object binds and the client holds behind the objects that were met.
    fn gather_bound(&self, met: &mut IndexSet<Fid>, dir: Fid) -> Result<(), AllocError>
        ensures { OnOk result (Gathers self.now.cache.nodes met.old.keys (bound_by (map.get self.now.cache.nodes dir)) met.new.keys) }
    {
        match self.cache.peek(dir) {
            Some(node) => match &node.kind {
                NodeKind::Dir(entries) => self.gather(met, entries),
                NodeKind::File(_) => Ok(()),
                NodeKind::Link(_) => Ok(()),
            },
            None => Ok(()),
        }
    }

    // The objects that paths lead to, each behind a directory that binds it. A step for each name that these bind.
    fn all_reached(&self, volume: u32) -> Result<IndexSet<Fid>, AllocError>
        ensures { IfOk result (λ met. AreReached self.now.cache.nodes volume met.keys) }
    {
        let mut met = IndexSet::new(self.alloc);
        self.meet(&mut met, Fid::root(volume))?;
        let mut index = 0;
        while index < met.len() {
            let dir = met[index];
            self.gather_bound(&mut met, dir)?;
            index += 1;
        }
        Ok(met)
    }

    /// Whether some path leads to an object. It costs the depth, where what is bound on the way up is bound once and leads to the
    /// root; else all that is held is searched.
    pub fn reaches(&self, volume: u32, fid: Fid) -> Result<bool, AllocError>
        ensures { IfOk result (λ b. (b ≡ true) ↔ IsReached self.now.cache.nodes volume fid) }
    {
        if self.leads_up(volume, fid) {
            return Ok(true);
        }
        let met = self.all_reached(volume)?;
        Ok(met.contains(&fid))
    }
}
