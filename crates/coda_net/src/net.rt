ghost use Rattle.std.specs.Prelude.{◌≡◌, ◌≤◌, ◌<◌, ◌^◌, ◌+◌, ◌⊎◌, ℕ, [], true, false, length, Some, None, Err, Ok, IfOk, IfErr, OnErr, OnOk, if◌then◌else◌, ◌==◌, ◌&&◌};
ghost use Rattle.coda_state.specs.declared.state.Link.TheVariants.{Down};
ghost use Rattle.coda_net.specs.Pool.{deliver_refusal, found, is_down, letter_at, link_of, posted_to, trim_refusal, trimmed, without};

use crate::pool::{find, lose_oldest_of, lost_for, may_trim, put, trim};
use crate::{Letter, NetFault};
use coda_state::Link;
use indexmap::IndexMap;
use std::alloc::Global;
use std::marker::Model;

/// The letters between clients and servers, and their links.
///
/// Letters have numbers from 1, in the order in which they were posted. A letter that is delivered stays, so it may be
/// delivered again, until it is lost: by [`lose`](Net::lose), or since there are too many. Contracts see the letters
/// with their numbers, how many were posted, and the links.
#[derive(Drop)]
pub struct Net {
    alloc: Global,
    letters: IndexMap<u64, Letter>,
    posted: u64,
    links: IndexMap<(u8, u8), Link>,
}

impl Model for Net {
    ghost use Rattle.coda_net.specs.Pool.{Pool, AreKept};

    ghost Value = { Pool };

    ghost view = { λ n. record { letters = n.letters.entries; posted = n.posted; links = n.links.entries } };

    ghost invariant = { λ n. AreKept n.letters.entries n.posted };
}

impl Net {
    /// A network without letters, whose links are down. It takes no memory until the first letter or link.
    pub fn new(alloc: Global) -> Net
        ensures letters { result.letters ≡ [] }
        ensures posted { result.posted ≡ 0 }
        ensures links { (client server : ℕ) → link_of result client server ≡ Down }
    {
        Net {
            alloc,
            letters: IndexMap::new(alloc),
            posted: 0,
            links: IndexMap::new(alloc),
        }
    }

    /// The link between a client and a server: down until it is set.
    pub fn link(&self, client: u8, server: u8) -> Link
        ensures { result ≡ link_of self.now client server }
    {
        match self.links.get(&(client, server)) {
            Some(link) => *link,
            None => Link::Down,
        }
    }

    /// Sets a link. The letters stay.
    ///
    /// # Errors
    ///
    /// `Memory` alone. Nothing changes then.
    pub fn set_link(&mut self, client: u8, server: u8, link: Link) -> Result<(), NetFault>
        ensures set { OnOk result ((c s : ℕ) → link_of self.new c s ≡ (if (client == c) && (server == s) then link else link_of self.old c s)) }
        ensures letters { self.new.letters ≡ self.old.letters }
        ensures posted { self.new.posted ≡ self.old.posted }
        ensures err { IfErr result (λ why. (why ≡ NetFault.Memory) × ((c s : ℕ) → link_of self.new c s ≡ link_of self.old c s)) }
    {
        self.links.insert((client, server), link)?;
        Ok(())
    }

    /// Posts a letter, and answers its number.
    ///
    /// At most 1,024 letters wait that may be lost, with at most 64 MiB: the oldest of them are lost, as few as make
    /// the rest and the new one fit. It asks that fewer than 2^63 letters were posted before, and that a letter that
    /// may be lost has at most 64 MiB.
    ///
    /// # Errors
    ///
    /// `LinkDown` exactly where the link of its ends is down, and else only `Memory`. Nothing changes then.
    pub fn post(&mut self, letter: Letter) -> Result<u64, NetFault>
        requires few { self.old.posted < 2 ^ 63 }
        requires small { letter.lossy ≡ true → length letter.bytes ≤ 67108864 }
        ensures number { IfOk result (λ n. (n ≡ self.old.posted + 1) × (self.new.posted ≡ n)) }
        ensures later { self.new.posted ≤ self.old.posted + 1 }
        ensures letters { IfOk result (λ n. self.new.letters ≡ posted_to self.old.letters n letter) }
        ensures links { self.new.links ≡ self.old.links }
        ensures up { OnOk result (is_down (link_of self.old letter.client letter.server) ≡ false) }
        ensures down { is_down (link_of self.old letter.client letter.server) ≡ true → result ≡ Err NetFault.LinkDown }
        ensures causes { IfErr result (λ why. (why ≡ NetFault.Memory) ⊎ ((why ≡ NetFault.LinkDown) × (is_down (link_of self.old letter.client letter.server) ≡ true))) }
        ensures err { OnErr result (self.new ≡ self.old) }
    {
        if self.is_down(letter.client, letter.server) {
            return Err(NetFault::LinkDown);
        }
        let lost = lost_for(&self.letters, &letter);
        let number = self.posted + 1;
        put(&mut self.letters, number, letter)?;
        lose_oldest_of(&mut self.letters, lost);
        self.posted = number;
        Ok(number)
    }

    /// The least number of a letter that waits, from the client to the server and with these bytes.
    pub fn find(&self, client: u8, server: u8, bytes: &[u8]) -> Option<u64>
        ensures { result ≡ found self.now.letters client server bytes.now }
    {
        find(&self.letters, client, server, bytes)
    }

    /// Delivers a letter: lends it, and leaves it where it is.
    ///
    /// # Errors
    ///
    /// `NoMessage` exactly where no letter of that number was posted, or it is lost; else `LinkDown` exactly where the
    /// link of its ends is down.
    pub fn deliver(&self, number: u64) -> Result<&Letter, NetFault>
        ensures ok { IfOk result (λ letter. letter_at self.now.letters number ≡ Some letter.now) }
        ensures up { OnOk result (deliver_refusal self.now number ≡ None) }
        ensures err { IfErr result (λ why. deliver_refusal self.now number ≡ Some why) }
    {
        match self.letters.get(&number) {
            None => Err(NetFault::NoMessage(number)),
            Some(letter) => {
                if self.is_down(letter.client, letter.server) {
                    return Err(NetFault::LinkDown);
                }
                Ok(letter)
            }
        }
    }

    /// Loses a letter, and hands it over.
    ///
    /// # Errors
    ///
    /// `NoMessage` exactly where no letter of that number was posted, or it is lost. Nothing changes then.
    pub fn lose(&mut self, number: u64) -> Result<Letter, NetFault>
        ensures ok { IfOk result (λ letter. letter_at self.old.letters number ≡ Some letter) }
        ensures gone { OnOk result (self.new.letters ≡ without self.old.letters number) }
        ensures posted { self.new.posted ≡ self.old.posted }
        ensures links { self.new.links ≡ self.old.links }
        ensures why { IfErr result (λ why. (why ≡ NetFault.NoMessage number) × (letter_at self.old.letters number ≡ None)) }
        ensures err { OnErr result (self.new ≡ self.old) }
    {
        match self.letters.shift_remove(&number) {
            Some(letter) => Ok(letter),
            None => Err(NetFault::NoMessage(number)),
        }
    }

    /// Trims a letter to its first bytes. It waits on under its number, and counts for the limits as before, with the
    /// bytes that are left.
    ///
    /// # Errors
    ///
    /// `NoMessage` exactly where no letter of that number was posted, or it is lost; else `NotShorter` exactly where it
    /// has no more bytes than that, with how many it has. Nothing changes then. No memory is taken.
    pub fn trim(&mut self, number: u64, length: u64) -> Result<(), NetFault>
        ensures letters { OnOk result (self.new.letters ≡ trimmed self.old.letters number length) }
        ensures shorter { OnOk result (trim_refusal self.old number length ≡ None) }
        ensures posted { self.new.posted ≡ self.old.posted }
        ensures links { self.new.links ≡ self.old.links }
        ensures why { IfErr result (λ why. trim_refusal self.old number length ≡ Some why) }
        ensures err { OnErr result (self.new ≡ self.old) }
    {
        may_trim(&self.letters, number, length)?;
        trim(self.alloc, &mut self.letters, number, length);
        Ok(())
    }

    // Whether the link between a client and a server is down.
    fn is_down(&self, client: u8, server: u8) -> bool
        ensures { result ≡ is_down (link_of self.now client server) }
    {
        matches!(self.link(client, server), Link::Down)
    }
}
