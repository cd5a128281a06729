ghost use Rattle.std.specs.Prelude.{◌≡◌, ◌+◌, ◌≤◌, IfOk, cond, not, nat_lt};
ghost use Rattle.std.specs.Bool.{OnTrue};
ghost use Rattle.coda_walk.specs.Going.{is_listed};
ghost use Rattle.coda_cache.specs.Room.{pinned_blocks, is_needed, blocks_where, is_further, further_blocks};

use coda_fid::Fid;
use coda_walk::Item;
use std::alloc::AllocError;

// A sum, which fails where it doesn't fit in 64 bits.
pub(crate) fn plus(blocks: u64, more: u64) -> Result<u64, AllocError>
    ensures { IfOk result (λ sum. sum ≡ blocks + more) }
{
    match blocks.checked_add(more) {
        Some(sum) => Ok(sum),
        None => Err(AllocError),
    }
}

// The blocks with those of an item, where it counts.
fn plus_counted(blocks: u64, counts: bool, item: &Item) -> Result<u64, AllocError>
    ensures { IfOk result (λ sum. sum ≡ blocks + cond counts item.now.blocks 0) }
{
    if counts {
        plus(blocks, item.blocks as u64)
    } else {
        Ok(blocks)
    }
}

// The blocks of pinned items, which fail where they don't fit in 64 bits.
pub(crate) fn pinned_blocks(items: &[Item]) -> Result<u64, AllocError>
    ensures { IfOk result (λ sum. sum ≡ pinned_blocks items.now) }
{
    let mut blocks = 0;
    for item in items {
        blocks = plus_counted(blocks, item.pinned, item)?;
    }
    Ok(blocks)
}

// Whether a fid is among the fids.
pub(crate) fn is_listed(fids: &[Fid], fid: Fid) -> bool
    ensures { result ≡ is_listed fids.now fid }
{
    fids.iter().any(|other| *other == fid)
}

// Whether an item is needed besides that of an object: it is kept, and not pinned.
fn is_needed(fid: Fid, kept: &[Fid], item: &Item) -> bool
    ensures { result ≡ is_needed fid kept.now item.now }
{
    item.fid != fid && !item.pinned && is_listed(kept, item.fid)
}

// The blocks that an object needs and those of the items that are needed besides it, which fail where they don't fit in 64
// bits.
pub(crate) fn needed_blocks(
    fid: Fid,
    kept: &[Fid],
    items: &[Item],
    more: u32,
) -> Result<u64, AllocError>
    ensures { IfOk result (λ sum. sum ≡ more + blocks_where (is_needed fid kept.now) items.now) }
{
    let mut blocks = more as u64;
    for item in items {
        blocks = plus_counted(blocks, is_needed(fid, kept, item), item)?;
    }
    Ok(blocks)
}

// Whether blocks that are pinned and blocks that are needed fit in so many.
pub(crate) fn fits(size: u32, pinned: u64, needed: u64) -> bool
    ensures { result ≡ not (nat_lt size (pinned + needed)) }
{
    match pinned.checked_add(needed) {
        Some(sum) => sum <= size as u64,
        None => false,
    }
}

// Whether so many blocks more fit beside those that are taken.
pub(crate) fn has_room(size: u32, taken: u64, more: u32) -> bool
    ensures { OnTrue result (taken + more ≤ size) }
{
    match taken.checked_add(more as u64) {
        Some(all) => all <= size as u64,
        None => false,
    }
}

// Whether an item is needed besides those that are pinned: it is kept.
fn is_further(kept: &[Fid], item: &Item) -> bool
    ensures { result ≡ is_further kept.now item.now }
{
    !item.pinned && is_listed(kept, item.fid)
}

// The blocks of items that are kept, besides those that are pinned, which fail where they don't fit in 64 bits.
pub(crate) fn further_blocks(kept: &[Fid], items: &[Item]) -> Result<u64, AllocError>
    ensures { IfOk result (λ sum. sum ≡ further_blocks kept.now items.now) }
{
    let mut blocks = 0;
    for item in items {
        blocks = plus_counted(blocks, is_further(kept, item), item)?;
    }
    Ok(blocks)
}
