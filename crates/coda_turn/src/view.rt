use crate::book::Book;
use atomic_table::{Join, Play, Split, TableRule};
use std::collections::LinkedList;
use std::snapshot::Snapshot;

/// What a seat at the table knows, for proofs alone: no value of it is made.
pub struct View<O, E> {
    /// How the turn was opened; nothing once the seat has no parts.
    pub opening: Option<O>,
    /// How many entries there were when the turn was made.
    pub start: u64,
    /// The history as the seat saw it last.
    pub seen: LinkedList<E>,
    /// The entries that the seat added, each with its place in the history.
    pub mine: LinkedList<(u64, E)>,
    /// How many of the 2^32 parts the seat has.
    pub parts: u64,
    /// The odd words that the seat made.
    pub held: LinkedList<u64>,
    /// The odd words of other seats that it found.
    pub met: LinkedList<u64>,
    /// What a pass that was joined had seen, until the next look.
    pub aside: LinkedList<E>,
    /// The history when the seat took the turn, while it holds it.
    pub holding: Option<LinkedList<E>>,
}

/// The rule of the table: there is one history, and each entry is in one seat's own.
pub struct TurnRule;

impl<S: Book> TableRule<Option<S>, View<S::Opening, S::Entry>, Snapshot<S>> for TurnRule {
    ghost use Rattle.coda_turn.specs.Rule.{OneHistory, newcomer};

    ghost holds = { λ begun. OneHistory S.opening S.entries begun.value };

    ghost first = { λ begun. newcomer (S.opening begun.value) (S.entries begun.value) };
}

/// A look at the word.
pub struct Look;

impl<S, O, E> Play<Option<S>, View<O, E>> for Look {
    ghost use Rattle.coda_turn.specs.Plays.{looked};

    ghost then = { looked };
}

/// The exchange that takes the turn where the word is even.
pub struct Take;

impl<S: Book> Play<Option<S>, View<S::Opening, S::Entry>> for Take {
    ghost use Rattle.coda_turn.specs.Plays.{took};

    ghost then = { took S.opening S.entries };
}

/// The store that gives the turn back.
pub struct Leave;

impl<S: Book> Play<Option<S>, View<S::Opening, S::Entry>> for Leave {
    ghost use Rattle.coda_turn.specs.Plays.{left};

    ghost then = { left S.entries };
}

/// One part for a new seat.
pub struct Part;

impl<O, E> Split<View<O, E>> for Part {
    ghost use Rattle.coda_turn.specs.Plays.{kept_part, given_part};

    ghost left = { kept_part };

    ghost right = { given_part };
}

/// Two seats as one.
pub struct Both;

impl<O, E> Join<View<O, E>> for Both {
    ghost use Rattle.coda_turn.specs.Rule.{nobody};
    ghost use Rattle.coda_turn.specs.Plays.{joined};

    ghost both = { joined };

    ghost spent = { nobody };
}
