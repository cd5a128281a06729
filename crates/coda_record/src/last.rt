ghost use Rattle.std.specs.Prelude.{◌≡◌};

use coda_certify::Verdict;
use std::marker::Model;

/// The chunk of a client that a replica decided last, with its verdict.
#[derive(Clone, Copy, Debug, PartialEq, Eq)]
pub struct Last {
    /// The client.
    pub client: u8,
    /// The chunk's number, from 1.
    pub number: u64,
    /// What became of its records.
    pub verdict: Verdict,
}

/// The last decisions of clients.
///
/// Contracts see the list.
#[derive(Debug, Drop)]
pub struct Lasts {
    items: Vec<Last>,
}

impl Model for Lasts {
    ghost use Rattle.std.specs.Prelude.{List};
    ghost use Rattle.coda_record.specs.declared.last.Last.{Last};

    ghost Value = { List Last };

    ghost view = { λ l. l.items.items };
}

impl Lasts {
    /// What the vector holds.
    pub fn from_vec(items: Vec<Last>) -> Lasts
        ensures { result ≡ items.items }
    {
        Lasts { items }
    }

    /// The decisions, in their order.
    pub fn lasts(&self) -> &[Last]
        ensures { result.now ≡ self.now }
    {
        &self.items
    }
}
