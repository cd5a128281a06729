ghost use Rattle.std.specs.Prelude.{◌≡◌, ◌&&◌, ◌||◌, ◌++◌, true, Some, IfOk, OnOk};
ghost use Rattle.std.specs.List.{filter};
ghost use Rattle.coda_fid.specs.declared.fid.Fid.{Fid};
ghost use Rattle.coda_walk.specs.Going.{is_listed};
ghost use Rattle.coda_cache.specs.State.{is_cached, parent_of};
ghost use Rattle.coda_cache.specs.Ways.{is_below};
ghost use Rattle.coda_cache.specs.Indexed.{is_parent, is_kept_under, is_under_any};

use crate::above::is_parent;
use crate::children::FidSet;
use crate::contents::Contents;
use coda_fid::Fid;
use coda_tree::FidMap;
use std::alloc::AllocError;

// Adds those of these nodes that are cached under a directory.
fn add_among(
    contents: &Contents,
    level: &mut Vec<Fid>,
    fids: &FidSet,
    dir: Fid,
) -> Result<(), AllocError>
    ensures { OnOk result (level.new.items ≡ level.old.items ++ filter (λ f. is_parent dir (parent_of contents.now f)) fids.now.keys) }
{
    for fid in fids.iter() {
        if is_parent(dir, contents.parent(*fid)) {
            level.push(*fid)?;
        }
    }
    Ok(())
}

// Adds the nodes that are cached under a directory.
fn add_under(
    contents: &Contents,
    parents: &FidMap<FidSet>,
    level: &mut Vec<Fid>,
    dir: Fid,
) -> Result<(), AllocError>
    requires { (f : Fid) → parent_of contents.now f ≡ Some dir → is_kept_under parents.now dir f ≡ true }
    ensures { OnOk result ((f : Fid) → is_listed level.new.items f ≡ (is_listed level.old.items f || is_parent dir (parent_of contents.now f))) }
{
    match parents.get(&dir) {
        Some(fids) => add_among(contents, level, fids, dir),
        None => Ok(()),
    }
}

// The nodes that are cached under one of these.
fn next_level(
    contents: &Contents,
    parents: &FidMap<FidSet>,
    level: &[Fid],
) -> Result<Vec<Fid>, AllocError>
    requires { (f p : Fid) → parent_of contents.now f ≡ Some p → is_kept_under parents.now p f ≡ true }
    ensures { IfOk result (λ v. (f : Fid) → is_listed v.items f ≡ is_under_any contents.now level.now f) }
{
    let mut next = Vec::new(contents.alloc());
    for dir in level {
        add_under(contents, parents, &mut next, *dir)?;
    }
    Ok(next)
}

// Adds those of these nodes that are cached.
fn add_cached(contents: &Contents, below: &mut Vec<Fid>, level: &[Fid]) -> Result<(), AllocError>
    ensures { OnOk result (below.new.items ≡ below.old.items ++ filter (is_cached contents.now) level.now) }
{
    for fid in level {
        if contents.contains(*fid) {
            below.push(*fid)?;
        }
    }
    Ok(())
}

// The cached nodes that are a node, or cached below it: down by one level after the other, and there are no more levels than
// nodes. Fails for want of memory alone.
pub(crate) fn below(
    contents: &Contents,
    parents: &FidMap<FidSet>,
    fid: Fid,
) -> Result<Vec<Fid>, AllocError>
    requires { (f p : Fid) → parent_of contents.now f ≡ Some p → is_kept_under parents.now p f ≡ true }
    ensures { IfOk result (λ v. (f : Fid) → is_listed v.items f ≡ (is_below contents.now f fid && is_cached contents.now f)) }
{
    let mut below = Vec::new(contents.alloc());
    let mut level = Vec::new(contents.alloc());
    level.push(fid)?;
    for _step in 0..contents.len() {
        if level.is_empty() {
            return Ok(below);
        }
        add_cached(contents, &mut below, &level)?;
        level = next_level(contents, parents, &level)?;
    }
    Ok(below)
}
