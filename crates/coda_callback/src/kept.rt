ghost use Rattle.std.specs.Prelude.{◌≡◌, ◌+◌, true, false, ◌++◌, map, IfOk, OnOk, OnErr, IfSome, IfNone, not};
ghost use Rattle.coda_fid.specs.declared.fid.Fid.{Fid};
ghost use Rattle.coda_callback.specs.declared.interest.Interest.{Interest};
ghost use Rattle.coda_callback.specs.Callbacks.{interest_cmp, interest};
ghost use Rattle.std.specs.List.{list_any};
ghost use Rattle.std.specs.BTreeSet.{IsOrdered, btree_set_len};
ghost use Rattle.coda_callback.specs.Kept.{AreBounded, has, is_watched, watches_on, interest_of, fids_among, AreThoseOn, IsAmong, Gains, GainsSome, Loses, LosesOne, GainsOne, LosesClient, IsSame};

use crate::interest::{Interest, Watch};
use coda_fid::Fid;
use std::alloc::{AllocError, Global};
use std::collections::BTreeSet;

// ---- by object

// The interests in one object, of those that are watched.
fn add_on(found: &mut Vec<Interest>, watched: &BTreeSet<Watch>, fid: Fid) -> Result<(), AllocError>
    ensures ok { OnOk result (found.new.items ≡ found.old.items ++ map interest_of (watches_on watched.now fid)) }
{
    let first = Watch { fid, client: 0 };
    let last = Watch { fid, client: 255 };
    for watch in watched.range(first..=last) {
        let interest = Interest {
            client: watch.client,
            fid: watch.fid,
        };
        found.push(interest)?;
    }
    Ok(())
}

// The interests in one of the objects, of those that are watched.
pub(crate) fn watched_on(
    alloc: Global,
    watched: &BTreeSet<Watch>,
    fids: &[Fid],
) -> Result<Vec<Interest>, AllocError>
    requires { AreBounded (is_watched watched.now) }
    ensures { IfOk result (λ found. AreThoseOn (is_watched watched.now) fids.now found.items) }
{
    let mut found = Vec::new(alloc);
    for fid in fids {
        add_on(&mut found, watched, *fid)?;
    }
    Ok(found)
}

// ---- by client

// The first interest of a client.
pub(crate) fn first_of(kept: &BTreeSet<Interest>, client: u8) -> Option<Interest>
    requires { AreBounded (has kept.now) }
    ensures some { IfSome result (λ i. (i.client ≡ client) × (has kept.now i ≡ true)) }
    ensures none { IfNone result ((fid : Fid) → has kept.now (interest client fid) ≡ false) }
{
    match kept
        .range(Interest::least(client)..=Interest::greatest(client))
        .next()
    {
        Some(interest) => Some(*interest),
        None => None,
    }
}

// The objects that a client has an interest in, in increasing order.
pub(crate) fn fids_of(
    alloc: Global,
    kept: &BTreeSet<Interest>,
    client: u8,
) -> Result<Vec<Fid>, AllocError>
    requires { AreBounded (has kept.now) }
    ensures fids { IfOk result (λ fids. fids.items ≡ fids_among kept.now.keys client) }
    ensures ordered { IsOrdered interest_cmp kept.now }
{
    let mut fids = Vec::new(alloc);
    for interest in kept.range(Interest::least(client)..=Interest::greatest(client)) {
        fids.push(interest.fid)?;
    }
    Ok(fids)
}

// Takes out all interests of a client.
pub(crate) fn forget_client(kept: &mut BTreeSet<Interest>, client: u8)
    requires { AreBounded (has kept.old) }
    ensures { LosesClient (has kept.old) (has kept.new) client }
{
    while let Some(interest) = first_of(kept, client) {
        forget_one(kept, interest);
    }
}

// Takes out all interests of a client from both sets.
pub(crate) fn forget_watching(
    promised: &mut BTreeSet<Interest>,
    watched: &mut BTreeSet<Watch>,
    client: u8,
)
    requires bounded { AreBounded (has promised.old) }
    requires mirrored { IsSame (is_watched watched.old) (has promised.old) }
    ensures promised { LosesClient (has promised.old) (has promised.new) client }
    ensures mirrored { IsSame (is_watched watched.new) (has promised.new) }
{
    while let Some(interest) = first_of(promised, client) {
        forget_one(promised, interest);
        forget_watch(watched, interest);
    }
}

// ---- one interest

// Takes one interest out.
fn forget_one(kept: &mut BTreeSet<Interest>, interest: Interest)
    requires { has kept.old interest ≡ true }
    ensures lost { LosesOne (has kept.old) (has kept.new) interest }
    ensures fewer { btree_set_len kept.new + 1 ≡ btree_set_len kept.old }
{
    kept.remove(&interest);
}

// Takes one interest out of those that are watched.
fn forget_watch(watched: &mut BTreeSet<Watch>, interest: Interest)
    ensures { LosesOne (is_watched watched.old) (is_watched watched.new) interest }
{
    watched.remove(&interest.watch());
}

// Puts one interest into both sets; where memory is wanted, into neither.
pub(crate) fn watch_one(
    promised: &mut BTreeSet<Interest>,
    watched: &mut BTreeSet<Watch>,
    interest: Interest,
) -> Result<(), AllocError>
    requires { IsSame (is_watched watched.old) (has promised.old) }
    ensures ok { OnOk result (GainsOne (has promised.old) (has promised.new) interest) }
    ensures mirrored { IsSame (is_watched watched.new) (has promised.new) }
    ensures err { OnErr result (IsSame (has promised.new) (has promised.old)) }
{
    if !put_one(promised, interest)? {
        return Ok(());
    }
    let done = put_watch(watched, interest);
    if done.is_err() {
        forget_one(promised, interest);
    }
    done
}

// Puts one interest in, and says whether it is new.
fn put_one(kept: &mut BTreeSet<Interest>, interest: Interest) -> Result<bool, AllocError>
    ensures added { IfOk result (λ added. added ≡ not (has kept.old interest)) }
    ensures ok { OnOk result (GainsOne (has kept.old) (has kept.new) interest) }
    ensures err { OnErr result (IsSame (has kept.new) (has kept.old)) }
{
    let added = kept.insert(interest)?;
    Ok(added)
}

// Puts one interest into those that are watched.
fn put_watch(watched: &mut BTreeSet<Watch>, interest: Interest) -> Result<(), AllocError>
    ensures ok { OnOk result (GainsOne (is_watched watched.old) (is_watched watched.new) interest) }
    ensures err { OnErr result (IsSame (is_watched watched.new) (is_watched watched.old)) }
{
    watched.insert(interest.watch())?;
    Ok(())
}

// ---- several interests

// Puts in interests that aren't there; where memory is wanted, none of them.
pub(crate) fn announce(kept: &mut BTreeSet<Interest>, moved: &[Interest]) -> Result<(), AllocError>
    requires { (q : Interest) → IsAmong moved.now q → has kept.old q ≡ false }
    ensures ok { OnOk result (Gains (has kept.old) (has kept.new) moved.now) }
    ensures err { OnErr result (IsSame (has kept.new) (has kept.old)) }
{
    let done = put_all(kept, moved);
    if done.is_err() {
        forget(kept, moved);
    }
    done
}

// Puts interests in, until memory is wanted.
fn put_all(kept: &mut BTreeSet<Interest>, moved: &[Interest]) -> Result<(), AllocError>
    ensures ok { OnOk result (Gains (has kept.old) (has kept.new) moved.now) }
    ensures some { OnErr result (GainsSome (has kept.old) (has kept.new) moved.now) }
{
    for interest in moved {
        put_one(kept, *interest)?;
    }
    Ok(())
}

// Takes interests out.
pub(crate) fn forget(kept: &mut BTreeSet<Interest>, moved: &[Interest])
    ensures { Loses (has kept.old) (has kept.new) moved.now }
{
    for interest in moved {
        kept.remove(interest);
    }
}

// Takes interests out of those that are watched.
pub(crate) fn forget_watches(watched: &mut BTreeSet<Watch>, moved: &[Interest])
    ensures { Loses (is_watched watched.old) (is_watched watched.new) moved.now }
{
    for interest in moved {
        forget_watch(watched, *interest);
    }
}
