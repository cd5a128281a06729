ghost use Rattle.std.specs.Prelude.{◌≡◌, ℕ, ◌<◌, ◌≤◌, [], ◌∷◌, ◌^◌, length, drop, Some, None, IfOk, IfErr, IsPermutation};
ghost use Rattle.coda_turn.specs.Rule.{placed};
ghost use Rattle.std.specs.Prelude.{◌-◌, ◌++◌, ◌%◌, List};
ghost use mathlib.Core.List.{IsPrefix};
ghost use Rattle.coda_turn.specs.Known.{first_pass, IsJoin, IsStep};

use crate::book::{Book, Step};
use crate::view::{Both, Leave, Look, Part, Take, TurnRule, View};
use atomic_table::{Refused, Seat, Table};
use std::alloc::{AllocError, Global};
use std::marker::Model;
use std::snapshot::Snapshot;
use std::sync::Wait;

/// A lock round a state, whose holders are one behind the other: the state's entries are one history of all steps.
///
/// Its word is twice the number of entries, modulo 2^64, and one more while a step is under way. Contracts see which
/// turn it is.
#[derive(Drop)]
pub struct Turn<S: Book> {
    table: Table<Option<S>, View<S::Opening, S::Entry>, Snapshot<S>, TurnRule, Global>,
}

impl<S: Book> Model for Turn<S> {
    ghost use Rattle.std.specs.Prelude.{◌≡◌};
    ghost use Rattle.atomic_table.specs.Seated.{TableId};

    ghost Value = { TableId };

    ghost view = { λ t. t.table.shared.table_id };

    ghost invariant = { λ t. (t.table.shared.table_id.words ≡ 1) × (t.table.shared.table_id.slots ≡ 1) };
}

/// What a thread takes steps with. A thread has a pass of its own for each turn that it uses.
///
/// Contracts see what the pass knows: its turn, how that was opened, what it has seen of the history, which entries are
/// its own, and which words it held and met.
#[derive(Drop)]
pub struct Pass<S: Book> {
    seat: Seat<Option<S>, View<S::Opening, S::Entry>>,
}

impl<S: Book> Model for Pass<S> {
    ghost use Rattle.coda_turn.specs.Known.{Known};

    ghost Value = { Known S.Opening S.Entry };

    ghost use Rattle.coda_turn.specs.Known.{known, IsIdle};

    ghost view = { λ p. known p.seat.table_id p.seat.me.0 };

    ghost invariant = { λ p. IsIdle p.seat.me };
}

/// Another pass held the turn: the step wasn't taken.
#[derive(Drop)]
pub struct Busy<T> {
    /// The odd word that was found, which another pass of the turn had made.
    pub word: u64,
    /// The step, given back.
    pub step: T,
}

impl<S: Book> Turn<S> {
    /// A turn round the state, and its first pass, which has all parts. Where memory is wanted the state is dropped.
    pub fn new(alloc: Global, state: S) -> Result<(Turn<S>, Pass<S>), AllocError>
    where
        S: Drop,
        ensures { IfOk result (λ t. t.1 ≡ first_pass t.0 (S.opening state) (S.entries state)) }
    {
        let begun = Snapshot::of(&state);
        let word = state.length().wrapping_mul(2);
        let mut slots = Vec::with_capacity(alloc, 1)?;
        slots.push_reserved(Some(state));
        match Table::new(alloc, &[word], slots, &begun) {
            Ok((table, seat)) => Ok((Turn { table }, Pass { seat })),
            Err(Refused { slots: _ }) => Err(AllocError),
        }
    }

    /// Gives one of the pass's parts to a new pass, which has seen as much and made no entry.
    ///
    /// The pass has two parts or more. A first pass has 2^32 of them.
    pub fn split(&self, pass: &mut Pass<S>) -> Pass<S>
        requires own { pass.old.turn ≡ self.now }
        requires parts { 2 ≤ pass.old.parts }
        ensures kept { pass.new ≡ record pass.old { parts = pass.old.parts - 1 } }
        ensures given { result ≡ record pass.old { mine = []; parts = 1; held = []; met = [] } }
    {
        let seat = self.table.shared.split_seat::<Part>(&mut pass.seat);
        Pass { seat }
    }

    /// Takes in another pass of the turn, with its parts and its entries. What was seen is the longer of both.
    pub fn join(&self, pass: &mut Pass<S>, other: Pass<S>)
        requires own { (pass.old.turn ≡ self.now) × (other.turn ≡ self.now) }
        ensures { IsJoin pass.old other pass.new }
    {
        let Pass { seat } = other;
        self.table.shared.join_seat::<Both>(&mut pass.seat, seat);
        self.table.shared.load::<Look>(&mut pass.seat, 0);
    }

    /// The state, with all that was done to it. The pass has taken in all others again, so it has all parts.
    ///
    /// Its entries are, each once and at its place, all that were added since the turn was made.
    pub fn close(self, pass: Pass<S>) -> S
        requires own { pass.turn ≡ self }
        requires parts { pass.parts ≡ 2 ^ 32 }
        ensures opening { pass.opening ≡ Some (S.opening result) }
        ensures seen { IsPrefix pass.seen (S.entries result) }
        ensures all { IsPermutation pass.mine (placed pass.start (drop pass.start (S.entries result))) }
    {
        let Turn { table } = self;
        let Pass { seat } = pass;
        let mut closed = table.close_with(seat);
        let slot = closed.take(0);
        closed.free();
        match slot {
            Some(state) => state,
            None => unreachable!(),
        }
    }

    /// Takes the step, unless another pass holds the turn; it doesn't wait.
    ///
    /// # Errors
    ///
    /// `Busy` exactly where this call's own exchange found an odd word, which another pass had made: a pass remembers
    /// each such word as its exchange finds it, so one came to those that it met. Nothing else changes then.
    pub fn try_with<T: Step<S>>(&self, pass: &mut Pass<S>, step: T) -> Result<T::Answer, Busy<T>>
        requires own { pass.old.turn ≡ self.now }
        ensures ok { IfOk result (λ a. IsStep (T.does step) (T.lacks step) pass.old pass.new a) }
        ensures none_met { IfOk result (λ a. pass.new.met ≡ pass.old.met) }
        ensures busy { IfErr result (λ b. (b.step ≡ step) × (b.word % 2 ≡ 1) × (pass.new ≡ record pass.old { met = pass.old.met ++ b.word ∷ [] })) }
    {
        let shared = &self.table.shared;
        let word = shared.fetch_or::<Take>(&mut pass.seat, 0, 1);
        if word % 2 == 1 {
            return Err(Busy { word, step });
        }
        let Some(mut state) = shared.exchange(&mut pass.seat, 0, None) else {
            unreachable!()
        };
        let answer = step.run(&mut state);
        let rest = state.length().wrapping_mul(2);
        let none = shared.exchange(&mut pass.seat, 0, Some(state));
        let None = none else { unreachable!() };
        shared.store::<Leave>(&mut pass.seat, 0, rest);
        Ok(answer)
    }

    /// Takes the step once no other pass holds the turn. It may wait.
    ///
    /// The pass remembers each odd word that was found on the way.
    pub fn with<T: Step<S>, R: Wait>(&self, rt: &R, pass: &mut Pass<S>, step: T) -> T::Answer
        requires own { pass.old.turn ≡ self.now }
        ensures { (words : List ℕ) × IsStep (T.does step) (T.lacks step) (record pass.old { met = pass.old.met ++ words }) pass.new result }
    {
        let mut step = step;
        for _ in rt.forever() {
            match self.try_with(pass, step) {
                Ok(answer) => return answer,
                Err(
                    Busy {
                        word: _,
                        step: again,
                    },
                ) => step = again,
            }
        }
        unreachable!()
    }
}
