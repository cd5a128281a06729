// The last decisions of a replica.
ghost use Rattle.std.specs.Prelude.{◌≡◌, IsSome, IfOk, OnOk, OnErr, Some};
ghost use Rattle.std.specs.FinMap as map;
ghost use Rattle.coda_replica.specs.State.{number_and_verdict, put_back};

use coda_certify::Verdict;
use coda_record::Last;
use std::alloc::{AllocError, Global};
use std::collections::BTreeMap;
use std::marker::Model;

// The last chunk that was decided for each client that has one, with its verdict.
//
// Contracts see a finite map by client.
#[derive(Drop)]
pub(crate) struct LastTable {
    lasts: BTreeMap<u8, Last>,
}

impl Model for LastTable {
    ghost use Rattle.std.specs.FinMap as map;
    ghost use Rattle.std.specs.Coded.{coded_ℕ};
    ghost use Rattle.coda_replica.specs.State.{Lasts};
    ghost use Rattle.coda_record.specs.contracts.last.Last as last_row;

    ghost Value = { Lasts };

    ghost coded = { map.code coded_ℕ last_row.the_row.coded };

    ghost view = { λ t. map.from_entries t.lasts.entries };
}

impl LastTable {
    // No decisions. It takes no memory.
    pub(crate) fn new(alloc: Global) -> LastTable
        ensures { result ≡ map.empty }
    {
        LastTable {
            lasts: BTreeMap::new(alloc),
        }
    }

    // A client's last decision, where it has one.
    fn get(&self, client: u8) -> Option<Last>
        ensures { result ≡ map.get self.now client }
    {
        self.lasts.get(&client).copied()
    }

    // A client's last decision; of number 0 where it has none.
    pub(crate) fn last(&self, client: u8) -> Last
        ensures { number_and_verdict (Some result) ≡ number_and_verdict (map.get self.now client) }
    {
        match self.get(client) {
            Some(last) => last,
            None => Last {
                client,
                number: 0,
                verdict: Verdict::Applied,
            },
        }
    }

    // Puts a client's last decision in, and answers the one that was there. Fails for want of memory alone, and then
    // changes nothing.
    pub(crate) fn put(&mut self, last: Last) -> Result<Option<Last>, AllocError>
        ensures ok { OnOk result (self.new ≡ map.insert self.old last.client last) }
        ensures was { IfOk result (λ was. was ≡ map.get self.old last.client) }
        ensures err { OnErr result (self.new ≡ self.old) }
    {
        Ok(self.lasts.insert(last.client, last)?)
    }

    // Puts a decision, or none, in the place of a client's last one, which is there. It takes no memory.
    pub(crate) fn put_back(&mut self, client: u8, was: Option<Last>)
        requires { IsSome (map.get self.old client) }
        ensures { self.new ≡ put_back self.old client was }
    {
        match was {
            Some(last) => {
                let _ = self.lasts.insert(client, last);
            }
            None => {
                let _ = self.lasts.remove(&client);
            }
        }
    }
}
