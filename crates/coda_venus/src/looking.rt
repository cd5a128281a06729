// Where paths lead over what a client may serve of what it has cached.
ghost use Rattle.std.specs.Prelude.{Ok, option_copied};
ghost use Rattle.coda_venus.specs.Looking.{OrMemory};
ghost use Rattle.coda_venus.specs.Keeping.{seen_at, readable, listable};

use crate::client::Client;
use crate::refused::Refused;
use crate::seen::Seen;
use coda_fid::{Fid, Name, Path};
use coda_tree::{Node, NodeKind};

// A copy of a node, as it is shown.
fn seen(fid: Fid, node: &Node) -> Result<Seen, Refused>
    ensures { OrMemory result (Ok (record { fid = fid; node = node.now })) }
{
    let node = node.copy()?;
    Ok(Seen { fid, node })
}

impl Client {
    ghost use Rattle.std.specs.Prelude.{◌≡◌};
    ghost use Rattle.std.specs.FinMap as map;
    ghost use Rattle.coda_venus.specs.Caching.{serves, served_nodes};
    ghost use Rattle.coda_venus.specs.Looking.{held, step_from, resolve, then_find};

    // Whether an object that is cached may be served: its volume is emulated, or its copy is valid, or the log
    // mentions it.
    fn may_serve(&self, emulating: bool, fid: Fid) -> bool
        ensures { result ≡ serves emulating self.now fid }
    {
        emulating || (self.cache.source(fid).is_some() || self.is_dirty(fid))
    }

    /// The node of an object that is cached, where it may be served: its volume is emulated, or its copy is valid, or
    /// the log of its volume mentions it.
    pub fn serve(&self, emulating: bool, fid: Fid) -> Option<&Node>
        ensures { option_copied result ≡ map.get (served_nodes emulating self.now) fid }
    {
        match self.cache.peek(fid) {
            Some(node) => {
                if self.may_serve(emulating, fid) {
                    Some(node)
                } else {
                    None
                }
            }
            None => None,
        }
    }

    /// An object, where it may be served.
    pub fn held(&self, emulating: bool, fid: Fid) -> Result<Fid, Refused>
        ensures { result ≡ held (map.get (served_nodes emulating self.now) fid) fid }
    {
        match self.serve(emulating, fid) {
            Some(_) => Ok(fid),
            None => Err(Refused::Need(fid)),
        }
    }

    /// Where a name leads from an object that may be served.
    pub fn step(&self, emulating: bool, at: Fid, name: &Name) -> Result<Fid, Refused>
        ensures { result ≡ step_from (map.get (served_nodes emulating self.now) at) at name.now }
    {
        match self.serve(emulating, at) {
            Some(node) => match &node.kind {
                NodeKind::Dir(entries) => match entries.find(name) {
                    Some(next) => Ok(next),
                    None => Err(Refused::NotFound),
                },
                NodeKind::File(_) => Err(Refused::NotDir),
                NodeKind::Link(_) => Err(Refused::NotDir),
            },
            None => Err(Refused::Need(at)),
        }
    }

    // Where names lead in turn from an object, over what may be served, up to the last object, which may be none of
    // that.
    pub(crate) fn follow(&self, emulating: bool, from: Fid, names: &[Name]) -> Result<Fid, Refused>
        ensures { resolve (served_nodes emulating self.now) from names.now
            ≡ then_find result (λ at. held (map.get (served_nodes emulating self.now) at) at) }
    {
        let mut at = from;
        for name in names {
            match self.step(emulating, at, name) {
                Ok(next) => at = next,
                Err(refusal) => return Err(refusal),
            }
        }
        Ok(at)
    }

    /// Where names lead in turn from an object, over what may be served.
    pub fn resolve(&self, emulating: bool, from: Fid, names: &[Name]) -> Result<Fid, Refused>
        ensures { result ≡ resolve (served_nodes emulating self.now) from names.now }
    {
        let at = self.follow(emulating, from, names)?;
        self.held(emulating, at)
    }

    /// The file or link at a path.
    pub fn read(&self, emulating: bool, volume: u32, path: &Path) -> Result<Seen, Refused>
        ensures { OrMemory result (seen_at readable (served_nodes emulating self.now) volume path.now) }
    {
        let fid = self.resolve(emulating, Fid::root(volume), path.names())?;
        match self.serve(emulating, fid) {
            Some(node) => match &node.kind {
                NodeKind::File(_) => seen(fid, node),
                NodeKind::Link(_) => seen(fid, node),
                NodeKind::Dir(_) => Err(Refused::IsDir),
            },
            None => Err(Refused::Need(fid)),
        }
    }

    /// The directory at a path.
    pub fn list(&self, emulating: bool, volume: u32, path: &Path) -> Result<Seen, Refused>
        ensures { OrMemory result (seen_at listable (served_nodes emulating self.now) volume path.now) }
    {
        let fid = self.resolve(emulating, Fid::root(volume), path.names())?;
        match self.serve(emulating, fid) {
            Some(node) => match &node.kind {
                NodeKind::Dir(_) => seen(fid, node),
                NodeKind::File(_) => Err(Refused::NotDir),
                NodeKind::Link(_) => Err(Refused::NotDir),
            },
            None => Err(Refused::Need(fid)),
        }
    }
}
