ghost use Rattle.std.specs.Prelude.{◌≡◌, IfOk, OnOk, cond, Some, None};
ghost use Rattle.std.specs.BTreeMap as tree;
ghost use Rattle.coda_fid.specs.declared.fid.Fid.{Fid};
ghost use Rattle.coda_fid.specs.Fid.{fid_cmp, same_fid};
ghost use Rattle.coda_walk.specs.Planning.{parent_at, way_up};
ghost use Rattle.coda_walk.specs.Climbing.{IsIndex, first_of, blocks_at};

use crate::Item;
use coda_fid::Fid;
use std::alloc::{AllocError, Global};
use std::collections::BTreeMap;

// Puts an item in, unless its object has one.
fn put_first(index: &mut BTreeMap<Fid, Item>, item: &Item) -> Result<(), AllocError>
    ensures { OnOk result ((f : Fid) → tree.get fid_cmp index.new f ≡ first_of (tree.get fid_cmp index.old f) (cond (same_fid item.now.fid f) (Some item.now) None)) }
{
    if !index.contains_key(&item.fid) {
        index.insert(item.fid, *item)?;
    }
    Ok(())
}

// Items by the fids of their objects.
pub(crate) fn by_fid(alloc: Global, items: &[Item]) -> Result<BTreeMap<Fid, Item>, AllocError>
    ensures { IfOk result (λ index. IsIndex index items.now) }
{
    let mut index = BTreeMap::new(alloc);
    for item in items {
        put_first(&mut index, item)?;
    }
    Ok(index)
}

// The directory under which an object stands.
pub(crate) fn parent(items: &[Item], index: &BTreeMap<Fid, Item>, fid: Fid) -> Option<Fid>
    requires { IsIndex index.now items.now }
    ensures { result ≡ parent_at items.now fid }
{
    match index.get(&fid) {
        Some(item) => item.parent,
        None => None,
    }
}

// The blocks that an object takes.
pub(crate) fn blocks(items: &[Item], index: &BTreeMap<Fid, Item>, fid: Fid) -> u32
    requires { IsIndex index.now items.now }
    ensures { result ≡ blocks_at items.now fid }
{
    match index.get(&fid) {
        Some(item) => item.blocks,
        None => 0,
    }
}
