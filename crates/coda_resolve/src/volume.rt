ghost use Rattle.std.specs.Prelude.{◌≡◌, ◌++◌, ◌∷◌, [], ◌||◌, ℕ, List, map, reverse, IfOk, OnOk};
ghost use Rattle.std.specs.List.{flat_map};
ghost use Rattle.coda_fid.specs.Fid.{root_of};
ghost use Rattle.coda_fid.specs.declared.fid.Fid.{Fid};
ghost use Rattle.coda_reslog.specs.declared.change.Change.{Change};
ghost use Rattle.coda_record.specs.declared.view.View.{View};
ghost use Rattle.coda_resolve.specs.Changes.{is_among, IsOutcome};
ghost use Rattle.coda_resolve.specs.Counted.{has_fid};
ghost use Rattle.coda_resolve.specs.Lasts.{joined_lasts};
ghost use Rattle.coda_resolve.specs.Outcome.{taken_up};
ghost use Rattle.coda_resolve.specs.Placement.{AreTreesOfOneKind};
ghost use Rattle.coda_resolve.specs.Renewals.{IsPart, AreParts, changes_of};
ghost use Rattle.coda_resolve.specs.Resolution.{Objects, Replicas};
ghost use Rattle.coda_resolve.specs.Reading.{AreAllRenewed};
ghost use Rattle.coda_resolve.specs.Survey.{ArePlain, AreOthersBut};
ghost use Rattle.coda_resolve.specs.Views.{replicas_of, volume_of, AreInOrder};

use crate::hints::all_hints;
use crate::lasts::joined;
use crate::marks::marks_among;
use crate::part::{Part, Renewals, part_of};
use crate::reading::read;
use crate::walking::{Survey, take_up};
use crate::why::Mark;
use coda_fid::Fid;
use coda_record::{Lasts, View};
use coda_reslog::Change;
use std::alloc::{AllocError, Global};
use std::collections::BTreeSet;
use std::marker::Model;

/// Changes of replicas, each with the replica's server.
///
/// Contracts see the list.
#[derive(Debug, Drop)]
pub struct Changes {
    items: Vec<(u8, Change)>,
}

impl Model for Changes {
    ghost use Rattle.std.specs.Prelude.{ℕ, List};
    ghost use Rattle.std.specs.Coded.{coded×, coded_list, coded_ℕ};
    ghost use Rattle.coda_reslog.specs.declared.change.Change.{Change};
    ghost use Rattle.coda_reslog.specs.contracts.change.Change as change_row;

    ghost Value = { List (ℕ × Change) };

    ghost coded = { coded_list (coded× coded_ℕ change_row.the_row.coded) };

    ghost view = { λ c. c.items.items };
}

impl Changes {
    /// The changes, in their order.
    pub fn changes(&self) -> &[(u8, Change)]
        ensures { result.now ≡ self.now }
    {
        &self.items
    }

    /// The vector of the changes, in the memory that they have.
    pub fn into_vec(self) -> Vec<(u8, Change)>
        ensures { result.items ≡ self }
    {
        self.items
    }
}

/// Marks, in an order.
///
/// Contracts see the list.
#[derive(Debug, Drop)]
pub struct Marks {
    items: Vec<Mark>,
}

impl Model for Marks {
    ghost use Rattle.std.specs.Prelude.{List};
    ghost use Rattle.std.specs.Coded.{coded_list};
    ghost use Rattle.coda_resolve.specs.declared.why.Mark.{Mark};
    ghost use Rattle.coda_resolve.specs.contracts.why.Mark as mark_row;

    ghost Value = { List Mark };

    ghost coded = { coded_list mark_row.the_row.coded };

    ghost view = { λ m. m.items.items };
}

impl Marks {
    /// The marks, in their order.
    pub fn marks(&self) -> &[Mark]
        ensures { result.now ≡ self.now }
    {
        &self.items
    }
}

/// What a resolution makes of the replicas of a volume.
#[derive(Debug, Drop)]
pub struct Outcome {
    /// The change of each replica, in the order of the views; it is empty where the replica stays as it is.
    pub changes: Changes,
    /// The last decision of each client that has any, in order of clients.
    pub lasts: Lasts,
    /// What is marked anew, in path order, each object with the first cause that holds.
    pub marks: Marks,
    /// Of how many objects some replica then has another node, a new one, or none any more.
    pub touched: u64,
}

// The changes of some replicas, and the objects of which one of these then has another node.
#[derive(Drop)]
struct Parts {
    changes: Vec<(u8, Change)>,
    touched: BTreeSet<Fid>,
}

// Adds the fids to the set.
fn add_fids(set: &mut BTreeSet<Fid>, fids: &[Fid]) -> Result<(), AllocError>
    ensures { OnOk result ((f : Fid) → has_fid set.new f ≡ (has_fid set.old f || is_among fids.now f)) }
{
    for fid in fids {
        set.insert(*fid)?;
    }
    Ok(())
}

// Adds what becomes of a replica.
fn add_part(
    changes: &mut Vec<(u8, Change)>,
    touched: &mut BTreeSet<Fid>,
    server: u8,
    part: Part,
) -> Result<(), AllocError>
    ensures change { OnOk result (changes.new.items ≡ changes.old.items ++ (server, part.change) ∷ []) }
    ensures parts { OnOk result ((views : Replicas) (root : Fid) (done : Replicas) (view : Objects) → IsPart views root view part.change part.touched.items → AreParts views root done changes.old.items touched.old → AreParts views root (done ++ view ∷ []) changes.new.items touched.new) }
{
    add_fids(touched, &part.touched)?;
    changes.push((server, part.change))?;
    Ok(())
}

// What becomes of each replica, from what a resolution takes up.
fn parts_of(
    alloc: Global,
    views: &[View],
    survey: &Survey,
    changed: &[Fid],
    mut renewals: Vec<Renewals>,
) -> Result<Parts, AllocError>
    requires order { AreInOrder views.now }
    requires changed { ArePlain (replicas_of views.now) changed.now }
    requires others { AreOthersBut (replicas_of views.now) changed.now survey.now.fids.items survey.now.others.items }
    requires renewals { AreAllRenewed (replicas_of views.now) views.now changed.now (reverse renewals.items) }
    ensures servers { IfOk result (λ parts. map (λ (change : ℕ × Change). change.0) parts.changes.items ≡ map (λ (view : View). view.server) views.now) }
    ensures parts { IfOk result (λ parts. (root : Fid) → AreTreesOfOneKind (replicas_of views.now) root → survey.now.fids.items ≡ taken_up (replicas_of views.now) root → AreParts (replicas_of views.now) root (replicas_of views.now) parts.changes.items parts.touched) }
{
    let mut changes = Vec::new(alloc);
    let mut touched = BTreeSet::new(alloc);
    for view in views {
        let Some(own) = renewals.pop() else {
            unreachable!()
        };
        let hints = survey.hints.get(changes.len());
        let part = part_of(alloc, views, view, survey, changed, hints, own)?;
        add_part(&mut changes, &mut touched, view.server, part)?;
    }
    Ok(Parts { changes, touched })
}

// The volume of the views: that of the first.
fn volume_of(views: &[View]) -> u32
    ensures { result ≡ volume_of views.now }
{
    match views {
        [] => 0,
        [first, ..] => first.volume,
    }
}

/// Resolves the replicas of a volume by their logs, directory by directory from the root down (Kumar and Satyanarayanan
/// 1993).
///
/// The views are of one volume, in the order of servers, each with its objects in the order of fids. Of replicas that are
/// trees, in which an object is a directory at all that have it or at none, the outcome is exact: each change makes of its replica what the resolution leaves of it and names nothing else,
/// the marks are the new ones in path order, and so many objects are touched. The work is linear in what each directory
/// binds and in the entries of its logs, times a logarithm; no node is compared twice, unless copies with the same updates differ.
///
/// # Errors
///
/// There is no memory.
pub fn merge(alloc: Global, views: &[View]) -> Result<Outcome, AllocError>
    requires { AreInOrder views.now }
    ensures servers { IfOk result (λ outcome. map (λ (change : ℕ × Change). change.0) outcome.changes ≡ map (λ (view : View). view.server) views.now) }
    ensures lasts { IfOk result (λ outcome. outcome.lasts ≡ joined_lasts (flat_map (λ (view : View). view.lasts) views.now)) }
    ensures outcome { IfOk result (λ outcome. AreTreesOfOneKind (replicas_of views.now) (root_of (volume_of views.now)) → IsOutcome (replicas_of views.now) (root_of (volume_of views.now)) (changes_of outcome.changes) outcome.marks outcome.touched) }
{
    let mut hints = all_hints(alloc, views)?;
    let reading = read(alloc, views, &mut hints)?;
    let known = reading.known;
    let survey = take_up(alloc, views, Fid::root(volume_of(views)), &known, hints)?;
    let marks = marks_among(alloc, views, &survey.others)?;
    let parts = parts_of(alloc, views, &survey, &known.changed, reading.renewals)?;
    let lasts = joined(alloc, views)?;
    let touched = parts.touched.len() as u64;
    Ok(Outcome {
        changes: Changes {
            items: parts.changes,
        },
        lasts,
        marks: Marks { items: marks },
        touched,
    })
}
