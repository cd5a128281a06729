ghost use Rattle.std.specs.Prelude.{◌≡◌, List};
ghost use Rattle.coda_fid.specs.declared.fid.Fid.{Fid};

use crate::Ring;
use coda_fid::Fid;
use coda_tree::Node;
use coda_vv::Vv;
use std::marker::Model;

/// What a replica holds of an object.
#[derive(Debug, Drop)]
pub struct Held {
    /// The node.
    pub node: Node,
    /// The updates that are in it.
    pub vector: Vv,
    /// Its resolution log, where it is a directory.
    pub ring: Option<Ring>,
}

/// Objects with what a replica holds of each, in an order.
///
/// Contracts see the list.
#[derive(Debug, Drop)]
pub struct HeldObjects {
    items: Vec<(Fid, Held)>,
}

impl Model for HeldObjects {
    ghost use Rattle.std.specs.Prelude.{List};
    ghost use Rattle.std.specs.Coded.{coded×, coded_list};
    ghost use Rattle.coda_fid.specs.Fid.{coded_fid};
    ghost use Rattle.coda_fid.specs.declared.fid.Fid.{Fid};
    ghost use Rattle.coda_reslog.specs.declared.change.Held.{Held};
    ghost use Rattle.coda_reslog.specs.contracts.change.Held as held_row;

    ghost Value = { List (Fid × Held) };

    ghost coded = { coded_list (coded× coded_fid held_row.the_row.coded) };

    ghost view = { λ h. h.items.items };
}

impl HeldObjects {
    /// What the vector holds.
    pub fn from_vec(items: Vec<(Fid, Held)>) -> HeldObjects
        ensures { result ≡ items.items }
    {
        HeldObjects { items }
    }

    /// The objects, in their order.
    pub fn objects(&self) -> &[(Fid, Held)]
        ensures { result.now ≡ self.now }
    {
        &self.items
    }

    /// The vector of the objects, in the memory that they have.
    pub fn into_vec(self) -> Vec<(Fid, Held)>
        ensures { result.items ≡ self }
    {
        self.items
    }
}

/// Objects, in an order.
///
/// Contracts see the list of their fids.
#[derive(Debug, Drop)]
pub struct Fids {
    items: Vec<Fid>,
}

impl Model for Fids {
    ghost Value = { List Fid };

    ghost view = { λ f. f.items.items };
}

impl Fids {
    /// What the vector holds.
    pub fn from_vec(items: Vec<Fid>) -> Fids
        ensures { result ≡ items.items }
    {
        Fids { items }
    }

    /// The fids, in their order.
    pub fn fids(&self) -> &[Fid]
        ensures { result.now ≡ self.now }
    {
        &self.items
    }
}

/// What becomes of a replica by a resolution or a repair: the objects that it then holds so, and those that go.
#[derive(Debug, Drop)]
pub struct Change {
    /// The objects that change or come, in increasing order of fids.
    pub held: HeldObjects,
    /// The objects that go, in increasing order.
    pub gone: Fids,
}
