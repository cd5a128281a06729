ghost use Rattle.std.specs.Prelude.{◌<◌, ℕ, ◌≡◌, ◌↔◌, true, cond, List, Some, None, Ok, IfOk, IfErr, OnOk, OnErr, IsSomeAnd, IsTrue, option_map, option_copied};
ghost use Rattle.std.specs.FinMap as map;
ghost use Rattle.std.specs.BTreeMap as tree;
ghost use Rattle.coda_fid.specs.Fid.{root_of, fid_cmp};
ghost use Rattle.coda_fid.specs.declared.fid.Fid.{Fid};
ghost use Rattle.coda_tree.specs.Tree.{IsBelow, AtDepth};
ghost use Rattle.coda_tree.specs.Volume.{child, has, added, detached, moved, replaced, changed, written, content_patch, attrs_patch, fresh, fresh_root, parent_of, below_within, is_below, IsVolume, IsDirAt, IsLeaf, BindsAsMuch, MayMove, MayReplace};
ghost use Rattle.coda_tree.specs.Slots.{nodes_in, IsWhole};
ghost use Rattle.coda_tree.specs.Volumes.{seen};
ghost use Rattle.coda_tree.specs.Keeping.{IsKeptIn};
ghost use Rattle.coda_tree.specs.Lookup.{lookup_of, step_from, Leads, Stops};

use crate::body::Body;
use crate::{Node, NodeKind};
use coda_fid::{Attrs, Bytes, Fid, Name, Path, Sid};
use std::alloc::{AllocError, Global};
use std::marker::Model;
use thiserror::Error;

/// Why a path leads nowhere, with the number of the component that stopped it, from 0.
#[derive(Clone, Copy, Debug, PartialEq, Eq, Error)]
pub enum PathFault {
    /// The directory does not bind the name.
    #[error("component {0} is not there")]
    NotFound(usize),
    /// What stands before the name is no directory.
    #[error("component {0} is looked for in what is no directory")]
    NotDir(usize),
}

/// A volume: a tree of nodes whose root is a directory (Satyanarayanan et al. 1990).
///
/// Each node stands at its fid. Each but the root is bound once, at one name of one directory, and each is reached
/// from the root, whose fid the volume's number gives. Contracts see the number and a finite map from fids to nodes;
/// `number` and `len` say that they are those of a volume. A fid is found by its hash, and with it the directory that
/// binds it.
#[derive(Drop)]
pub struct Volume {
    body: Body,
}

impl Model for Volume {
    ghost use Rattle.coda_tree.specs.Volume.{Tree, coded_tree};
    ghost use Rattle.coda_tree.specs.contracts.node.Node as node_row;

    ghost Value = { Tree };

    ghost coded = { coded_tree node_row.the_row.coded };

    ghost use Rattle.coda_tree.specs.Volumes.{tree_of, IsWholeVolume};

    ghost view = { tree_of };

    ghost invariant = { IsWholeVolume };
}

impl Volume {
    /// A volume with an empty root directory of owner 0 and mode 0o755. Fails for want of memory alone.
    pub fn new(alloc: Global, number: u32) -> Result<Volume, AllocError>
        ensures { IfOk result (λ v. v ≡ fresh number) }
    {
        let body = Body::new(alloc, number)?;
        Ok(Volume { body })
    }

    // The volume of objects without empty slots.
    pub(crate) fn from_body(body: Body) -> Volume
        requires { IsWhole body.slots }
        ensures { result ≡ seen body }
    {
        Volume { body }
    }

    // Its objects.
    pub(crate) fn into_body(self) -> Body
        ensures body { seen result ≡ self }
        ensures kept { IsKeptIn result.number result.slots }
        ensures whole { IsWhole result.slots }
    {
        let _number = self.body.number();
        self.body
    }

    /// Its objects.
    pub fn body(&self) -> &Body
        ensures number { result.now.number ≡ self.now.number }
        ensures nodes { nodes_in result.now.slots ≡ self.now.nodes }
    {
        &self.body
    }

    /// The volume's number, which gives its root's fid.
    pub fn number(&self) -> u32
        ensures number { result ≡ self.now.number }
        ensures volume { IsVolume (root_of self.now.number) self.now.nodes }
    {
        self.body.number()
    }

    /// How many nodes there are, the root among them. Each is reached from the root by fewer bindings than that.
    pub fn len(&self) -> usize
        ensures count { result ≡ map.len self.now.nodes }
        ensures volume { IsVolume (root_of self.now.number) self.now.nodes }
        ensures depth { (depth : ℕ) (f : Fid) → AtDepth (child self.now.nodes) (root_of self.now.number) depth f → depth < result }
    {
        self.body.len()
    }

    /// The node at a fid.
    pub fn get(&self, fid: Fid) -> Option<&Node>
        ensures { option_copied result ≡ map.get self.now.nodes fid }
    {
        self.body.get(fid)
    }

    /// What the directory at a fid binds at a name; `None` too where no directory stands there.
    pub fn child(&self, dir: Fid, name: &Name) -> Option<Fid>
        ensures { result ≡ child self.now.nodes dir name.now }
    {
        self.body.child(dir, name)
    }

    // What a path leads to from the root, step by step.
    fn walked(&self, path: &Path) -> Result<Fid, PathFault>
        ensures { result ≡ lookup_of self.now.nodes (root_of self.now.number) 0 path.now }
    {
        let mut at = Fid::root(self.number());
        let names = path.names();
        for (component, name) in names.iter().enumerate() {
            at = self.step(at, name, component)?;
        }
        Ok(at)
    }

    /// What a path leads to from the root, or the first component at which it stops.
    #[tactic(auto, using(crate::proofs::Ways::leads, crate::proofs::Ways::led, crate::proofs::Ways::stops))]
    pub fn lookup(&self, path: &Path) -> Result<Fid, PathFault>
        ensures steps { result ≡ lookup_of self.now.nodes (root_of self.now.number) 0 path.now }

        // It is where the names lead, each bound in the directory before it.
        ensures leads { IfOk result (λ fid. Leads self.now.nodes (root_of self.now.number) path.now fid) }
        ensures only { (fid : Fid) → Leads self.now.nodes (root_of self.now.number) path.now fid → result ≡ Ok fid }
        ensures stops { IfErr result (λ why. Stops self.now.nodes (root_of self.now.number) 0 path.now why) }
    {
        self.walked(path)
    }

    /// Whether a node is another or stands below it. Takes time in the depth of the first.
    pub fn is_below(&self, fid: Fid, of: Fid) -> bool
        ensures exact { result ≡ is_below self.now.nodes fid of }
        ensures below { has self.now.nodes fid ≡ true → (IsTrue result ↔ IsBelow (child self.now.nodes) of fid) }
    {
        self.body.is_below(fid, of)
    }

    /// Puts a node that binds nothing at a free fid and binds it in a directory at a free name. Fails for want of
    /// memory alone, and then changes nothing.
    pub fn add(&mut self, dir: Fid, name: Name, fid: Fid, node: Node) -> Result<(), AllocError>
        requires dir_there { IsDirAt self.old.nodes dir }
        requires name_free { child self.old.nodes dir name ≡ None }
        requires fid_free { map.get self.old.nodes fid ≡ None }
        requires leaf { IsLeaf node }
        ensures ok { OnOk result (self.new ≡ record self.old { nodes = added self.old.nodes dir name fid node }) }
        ensures err { OnErr result (self.new ≡ self.old) }
    {
        let _ = self.body.add(dir, name, fid, node)?;
        Ok(())
    }

    /// Takes a node that binds nothing out of the directory that binds it, and out of the volume.
    pub fn detach(&mut self, dir: Fid, name: &Name)
        requires { IsSomeAnd (child self.old.nodes dir name.now) (λ f. (n : List ℕ) → child self.old.nodes f n ≡ None) }
        ensures { (f : Fid) → child self.old.nodes dir name.now ≡ Some f → self.new ≡ record self.old { nodes = detached self.old.nodes dir name.now f } }
    {
        if let Some(fid) = self.child(dir, name) {
            let _ = self.body.detach(dir, name, fid);
            self.body.purge(fid);
        }
    }

    /// Moves a node to a free name of a directory that does not stand at or below it. Fails for want of memory alone,
    /// and then changes nothing.
    pub fn move_to(&mut self, from: Fid, name: &Name, to: Fid, new: Name) -> Result<(), AllocError>
        requires { MayMove self.old.nodes from name.now to new }
        ensures ok { (f : Fid) → child self.old.nodes from name.now ≡ Some f → OnOk result (self.new ≡ record self.old { nodes = moved self.old.nodes from name.now to new f }) }
        ensures err { OnErr result (self.new ≡ self.old) }
    {
        if let Some(fid) = self.child(from, name) {
            self.body.move_to(from, name, to, new, fid)?;
        }
        Ok(())
    }

    /// Moves a node that binds nothing to the name of another that binds nothing, which is taken out of the volume.
    /// Takes no memory.
    pub fn replace(&mut self, old: Fid, from: Fid, name: &Name, to: Fid, new: &Name)
        requires { MayReplace self.old.nodes old from name.now to new.now }
        ensures { (f : Fid) → child self.old.nodes from name.now ≡ Some f → self.new ≡ record self.old { nodes = replaced self.old.nodes old from name.now to new.now f } }
    {
        if let Some(fid) = self.child(from, name) {
            let _ = self.body.replace(old, from, name, to, new, fid);
            self.body.purge(old);
        }
    }

    /// Sets the content of the file at a fid, the time, and the version that this leaves. A link or a directory keeps
    /// what it holds. Takes no memory, and does nothing where there is no node.
    pub fn store(&mut self, fid: Fid, content: Bytes, mtime: u64, sid: Sid)
        ensures { self.new ≡ record self.old { nodes = changed self.old.nodes fid (written (content_patch content mtime) sid) } }
    {
        drop(self.body.exchange(fid, content, mtime, sid));
    }

    /// Sets attributes of the node at a fid, and the version that this leaves. Takes no memory, and does nothing where
    /// there is no node.
    pub fn set_attributes(&mut self, fid: Fid, attrs: &Attrs, sid: Sid)
        ensures { self.new ≡ record self.old { nodes = changed self.old.nodes fid (written (attrs_patch attrs.now) sid) } }
    {
        self.body.set_attributes(fid, attrs, sid);
    }

    /// Puts a node in the place of one that binds the same, where a directory stays one. Takes no memory.
    pub fn set(&mut self, fid: Fid, node: Node)
        requires { IsSomeAnd (map.get self.old.nodes fid) (λ was. BindsAsMuch was node) }
        ensures { self.new ≡ record self.old { nodes = changed self.old.nodes fid (λ _. node) } }
    {
        self.body.set(fid, node);
    }

    /// A copy with all content. Fails for want of memory alone.
    pub fn copy(&self) -> Result<Volume, AllocError>
        ensures { IfOk result (λ v. v ≡ self.now) }
    {
        let body = self.body.copy()?;
        Ok(Volume { body })
    }

    // What one component of a path leads to.
    fn step(&self, dir: Fid, name: &Name, component: usize) -> Result<Fid, PathFault>
        ensures { result ≡ step_from (map.get self.now.nodes dir) name.now component }
    {
        match self.get(dir) {
            Some(node) => match &node.kind {
                NodeKind::Dir(entries) => match entries.find(name) {
                    Some(next) => Ok(next),
                    None => Err(PathFault::NotFound(component)),
                },
                NodeKind::File(_) | NodeKind::Link(_) => Err(PathFault::NotDir(component)),
            },
            None => Err(PathFault::NotDir(component)),
        }
    }
}
