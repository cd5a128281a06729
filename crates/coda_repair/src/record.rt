ghost use Rattle.std.specs.Prelude.{◌≡◌, ◌≤◌, ◌↔◌, ℕ, true, false, map, option_map, IfOk, IfSome, Err, Some};
ghost use Rattle.std.specs.FinMap as finmap;
ghost use Rattle.std.specs.FinMap.{is_sorted};
ghost use Rattle.coda_fid.specs.Fid.{root_of, fid_cmp};
ghost use Rattle.coda_fid.specs.declared.fid.Fid.{Fid};
ghost use Rattle.coda_reslog.specs.declared.change.Change.{Change};
ghost use Rattle.coda_record.specs.declared.view.View.{View};
ghost use Rattle.coda_resolve.specs.Copies.{is_marked};
ghost use Rattle.coda_resolve.specs.Views.{objects_of, replicas_of, volume_of, AreInOrder};
ghost use Rattle.coda_repair.specs.Finding.{held_by, is_marked_by, HaveRoom, LeadsTo, LeadsNowhere, LeadsToUnmarked};
ghost use Rattle.coda_repair.specs.Repaired.{changed_servers, servers_of, AreRepairsOf};

use crate::finding::{found, is_marked, view_of};
use crate::part::changes_of;
use crate::reach::subtree;
use coda_fid::{Fid, Path};
use coda_record::View;
use coda_reslog::Change;
use std::alloc::{AllocError, Global};
use std::marker::Model;
use thiserror::Error;

/// Changes of replicas, each with the replica's server.
///
/// Contracts see the list.
#[derive(Debug, Drop)]
pub struct Changes {
    items: Vec<(u8, Change)>,
}

impl Model for Changes {
    ghost use Rattle.std.specs.Prelude.{ℕ, List};
    ghost use Rattle.std.specs.Coded.{coded×, coded_list, coded_ℕ};
    ghost use Rattle.coda_reslog.specs.declared.change.Change.{Change};
    ghost use Rattle.coda_reslog.specs.contracts.change.Change as change_row;

    ghost Value = { List (ℕ × Change) };

    ghost coded = { coded_list (coded× coded_ℕ change_row.the_row.coded) };

    ghost view = { λ c. c.items.items };
}

impl Changes {
    /// The changes, in their order.
    pub fn changes(&self) -> &[(u8, Change)]
        ensures { result.now ≡ self.now }
    {
        &self.items
    }

    /// The vector of the changes, in the memory that they have.
    pub fn into_vec(self) -> Vec<(u8, Change)>
        ensures { result.items ≡ self }
    {
        self.items
    }
}

/// A repair of an object: what becomes of each replica.
#[derive(Debug, Drop)]
pub struct RepairRecord {
    /// The object.
    pub fid: Fid,
    /// The server whose replica is taken as right.
    pub from: u8,
    /// The change of each replica, in the order of the views.
    pub changes: Changes,
}

/// Why nothing is repaired.
#[derive(Clone, Copy, Debug, PartialEq, Eq, Error, Drop)]
pub enum RepairFault {
    /// The source has no object at the path, or elsewhere the path leads to another, or through a marked directory.
    #[error("the path leads to no one object at all replicas")]
    NotFound,
    /// The source has the object, and doesn't have it marked.
    #[error("the object is not marked")]
    NotMarked,
    /// There is no memory.
    #[error("there is no memory")]
    Memory,
}

impl From<AllocError> for RepairFault {
    ghost use Rattle.coda_repair.specs.declared.record.RepairFault.{RepairFault};

    ghost from_gives = { λ _ fault. fault ≡ RepairFault.Memory };

    fn from(_fault: AllocError) -> RepairFault {
        RepairFault::Memory
    }
}

// The volume of the views: that of the first.
fn volume_of(views: &[View]) -> u32
    ensures { result ≡ volume_of views.now }
{
    match views {
        [] => 0,
        [first, ..] => first.volume,
    }
}

// The changes by which the object, and all below it, become everywhere what the source has.
fn repairs(
    alloc: Global,
    views: &[View],
    right: &View,
    from: u8,
    top: Fid,
) -> Result<Changes, AllocError>
    requires order { AreInOrder views.now }
    requires sorted { is_sorted fid_cmp right.now.held ≡ true }
    requires from_one { 1 ≤ from }
    requires to_eight { from ≤ 8 }
    requires room { HaveRoom from views.now }
    ensures servers { IfOk result (λ changes. changed_servers changes ≡ servers_of views.now) }
    ensures changes { IfOk result (λ changes. AreRepairsOf views.now from (objects_of right.now) top changes) }
{
    let subtree = subtree(alloc, right, top)?;
    let items = changes_of(alloc, views, right, from, &subtree, top)?;
    Ok(Changes { items })
}

// The object that the path leads to at the source, if it leads there alike at all replicas, and the source's view.
fn target<'a>(views: &'a [View], from: u8, path: &Path) -> Option<(&'a View, Fid)>
    requires { AreInOrder views.now }
    ensures sorted { IfSome result (λ p. is_sorted fid_cmp p.0.now.held ≡ true) }
    ensures source { IfSome result (λ p. held_by views.now from ≡ objects_of p.0.now) }
    ensures found { (top : Fid) → (option_map (λ p. p.1) result ≡ Some top) ↔ LeadsTo views.now from path.now top }
{
    let Some(right) = view_of(views, from) else {
        return None;
    };
    let root = Fid::root(volume_of(views));
    match found(views, right, from, root, path.names()) {
        Some(top) => Some((right, top)),
        None => None,
    }
}

/// Repairs an inconsistent object: it and all below it become at all replicas what one of them has (Kumar and
/// Satyanarayanan 1993).
///
/// The views are of one volume, in the order of servers, each with its objects in the order of fids, and the server is
/// one from 1 to 8, that of a view, of which fewer than 2^63 updates are in what a replica holds of any object. At each
/// replica the object and all below it are put as the server has them, not marked, with all updates that any replica
/// has and one more of the server, and with empty logs. What a replica has besides below one of these objects goes; and
/// a directory that binds one of them elsewhere binds it no more, and is marked. Each change names nothing else.
///
/// # Errors
///
/// `NotFound` exactly where the path leads to no object that the server's replica has, or where at another replica the
/// same names don't lead through the same directories to the same object, or one of these directories is marked; and
/// `NotMarked` exactly where there is such an object and the server's replica doesn't have it marked. So `Memory` comes
/// for an object alone that can be repaired.
pub fn repair(
    alloc: Global,
    views: &[View],
    from: u8,
    path: &Path,
) -> Result<RepairRecord, RepairFault>
    requires order { AreInOrder views.now }
    requires from_one { 1 ≤ from }
    requires to_eight { from ≤ 8 }
    requires room { HaveRoom from views.now }
    ensures found { IfOk result (λ r. LeadsTo views.now from path.now r.fid) }
    ensures marked { IfOk result (λ r. is_marked_by views.now from r.fid ≡ true) }
    ensures from { IfOk result (λ r. r.from ≡ from) }
    ensures servers { IfOk result (λ r. changed_servers r.changes ≡ servers_of views.now) }
    ensures changes { IfOk result (λ r. AreRepairsOf views.now from (held_by views.now from) r.fid r.changes) }
    ensures not_found { (result ≡ Err RepairFault.NotFound) ↔ LeadsNowhere views.now from path.now }
    ensures not_marked { (result ≡ Err RepairFault.NotMarked) ↔ LeadsToUnmarked views.now from path.now }
{
    let Some((right, top)) = target(views, from, path) else {
        return Err(RepairFault::NotFound);
    };
    if !is_marked(right, top) {
        return Err(RepairFault::NotMarked);
    }
    let changes = repairs(alloc, views, right, from, top)?;
    Ok(RepairRecord {
        fid: top,
        from,
        changes,
    })
}
