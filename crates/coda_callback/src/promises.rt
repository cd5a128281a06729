ghost use Rattle.std.specs.Prelude.{◌≡◌, ◌↔◌, IsTrue, IfOk, OnOk, OnErr};
ghost use Rattle.coda_fid.specs.declared.fid.Fid.{Fid};
ghost use Rattle.coda_callback.specs.Callbacks.{no_callbacks, is_waiting, promised, broken_by, IsOutbox, collected, dropped};

use crate::interest::{Interest, Watch};
use crate::kept::{
    announce, fids_of, first_of, forget, forget_client, forget_watches, forget_watching, watch_one,
    watched_on,
};
use coda_fid::Fid;
use std::alloc::{AllocError, Global};
use std::collections::BTreeSet;
use std::marker::Model;

/// The callbacks of one server's copy of a volume: which clients were promised word when an object changes, and which
/// objects changed since (Satyanarayanan and others 1990; Kistler and Satyanarayanan 1992).
///
/// Contracts see the promises that stand and, as each client's outbox, the objects that wait for it.
#[derive(Drop)]
pub struct Promises {
    alloc: Global,
    // Promises and outboxes by client, and the promises by object too.
    promised: BTreeSet<Interest>,
    watched: BTreeSet<Watch>,
    waiting: BTreeSet<Interest>,
}

impl Model for Promises {
    ghost use Rattle.std.specs.FinSet as set;
    ghost use Rattle.coda_callback.specs.Callbacks.{Callbacks, coded_callbacks};
    ghost use Rattle.coda_callback.specs.Kept.{AreKept};

    ghost Value = { Callbacks };

    ghost coded = { coded_callbacks };

    ghost view = { λ a. record { promises = set.from_list a.promised.keys; outboxes = set.from_list a.waiting.keys } };

    ghost invariant = { λ a. AreKept a.promised a.watched a.waiting };
}

impl Promises {
    /// No promises, and no word that waits. It takes no memory until the first promise.
    pub fn new(alloc: Global) -> Promises
        ensures { result ≡ no_callbacks }
    {
        Promises {
            alloc,
            promised: BTreeSet::new(alloc),
            watched: BTreeSet::new(alloc),
            waiting: BTreeSet::new(alloc),
        }
    }

    /// Promises a client word when an object changes. What waited for it of the object doesn't wait any more.
    ///
    /// Where memory is wanted nothing changes.
    pub fn promise(&mut self, client: u8, fid: Fid) -> Result<(), AllocError>
        ensures ok { OnOk result (self.new ≡ promised self.old client fid) }
        ensures err { OnErr result (self.new ≡ self.old) }
    {
        let interest = Interest::of(client, fid);
        watch_one(&mut self.promised, &mut self.watched, interest)?;
        self.waiting.remove(&interest);
        Ok(())
    }

    /// Objects changed: moves every promise on one of them, of whatever client, into that client's outbox.
    ///
    /// It costs the promises that are moved and a look-up for each object. Where memory is wanted nothing changes.
    pub fn broken_by(&mut self, fids: &[Fid]) -> Result<(), AllocError>
        ensures ok { OnOk result (self.new ≡ broken_by self.old fids.now) }
        ensures err { OnErr result (self.new ≡ self.old) }
    {
        let moved = watched_on(self.alloc, &self.watched, fids)?;
        announce(&mut self.waiting, &moved)?;
        forget(&mut self.promised, &moved);
        forget_watches(&mut self.watched, &moved);
        Ok(())
    }

    /// Hands a client's outbox over, in increasing order of fids, and empties it.
    ///
    /// Where memory is wanted nothing changes.
    pub fn collect(&mut self, client: u8) -> Result<Vec<Fid>, AllocError>
        ensures fids { IfOk result (λ fids. IsOutbox self.old client fids.items) }
        ensures ok { OnOk result (self.new ≡ collected self.old client) }
        ensures err { OnErr result (self.new ≡ self.old) }
    {
        let fids = fids_of(self.alloc, &self.waiting, client)?;
        forget_client(&mut self.waiting, client);
        Ok(fids)
    }

    /// Whether something waits in a client's outbox.
    pub fn waiting(&self, client: u8) -> bool
        ensures { IsTrue result ↔ ((fid : Fid) × IsTrue (is_waiting self.now client fid)) }
    {
        first_of(&self.waiting, client).is_some()
    }

    /// Forgets a client: its promises, and what waits for it. It takes no memory.
    pub fn drop_client(&mut self, client: u8)
        ensures { self.new ≡ dropped self.old client }
    {
        forget_watching(&mut self.promised, &mut self.watched, client);
        forget_client(&mut self.waiting, client);
    }
}
