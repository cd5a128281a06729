ghost use Rattle.std.specs.Prelude.{◌≡◌, [], length, Some, None, true, false};

use super::*;
use std::alloc::Global;
use std::sync::Wait;
use std::test::Fail;
use std::thread::{Threads, join};

// One call: who made it, and how many calls there were before.
#[derive(Clone, Copy)]
struct Call {
    by: u64,
    reply: u64,
}

// A book of calls.
#[derive(Drop)]
struct Counter {
    calls: Vec<Call>,
}

impl Counter {
    fn new(alloc: Global) -> Counter
        ensures { result.calls.items ≡ [] }
    {
        Counter {
            calls: Vec::new(alloc),
        }
    }

    // How many calls were made by one, and whether each has the number of those before it as its reply.
    fn count(&self, by: u64) -> (usize, bool) {
        let in_order = self
            .calls
            .iter()
            .enumerate()
            .all(|(place, call)| call.reply == place as u64);
        (
            self.calls.iter().filter(|call| call.by == by).count(),
            in_order,
        )
    }
}

impl Book for Counter {
    type Opening = ();

    type Entry = Call;

    ghost opening = { λ c. tt };

    ghost entries = { λ c. c.calls.items };

    fn length(&self) -> u64 {
        self.calls.len() as u64
    }
}

// A call that answers how many there were before, or nothing where memory is wanted.
#[derive(Drop)]
struct Add {
    by: u64,
}

impl Step<Counter> for Add {
    type Answer = Option<u64>;

    ghost does = { λ step opened before call answer. (call.by ≡ step.by) × (call.reply ≡ length before) × (answer ≡ Some (length before)) };

    ghost lacks = { λ step answer. answer ≡ None };

    fn run(self, state: &mut Counter) -> Option<u64> {
        let reply = state.length();
        match state.calls.push(Call { by: self.by, reply }) {
            Ok(()) => Some(reply),
            Err(_) => None,
        }
    }
}

// A call that tries another turn, and its own turn with a second pass.
#[derive(Drop)]
struct Nested<'a> {
    by: u64,
    own: &'a Turn<Counter>,
    second: Pass<Counter>,
    other: &'a Turn<Counter>,
    third: Pass<Counter>,
    ghost of_own: { second.turn ≡ own.now },
    ghost of_other: { third.turn ≡ other.now },
}

// Whether the call was stored and the other turn was free, the odd word that stood in its own, and its second pass.
#[derive(Drop)]
struct Told {
    stored: bool,
    free: bool,
    word: u64,
    second: Pass<Counter>,
}

impl<'a> Step<Counter> for Nested<'a> {
    type Answer = Told;

    ghost does = { λ step opened before call answer. (call.by ≡ step.by) × (call.reply ≡ length before) × (answer.stored ≡ true) × (answer.second.turn ≡ step.second.turn) };

    ghost lacks = { λ step answer. (answer.stored ≡ false) × (answer.second.turn ≡ step.second.turn) };

    fn run(self, state: &mut Counter) -> Told {
        let Nested {
            by,
            own,
            mut second,
            other,
            mut third,
        } = self;
        let free = other.try_with(&mut third, Add { by }).is_ok();
        let word = match own.try_with(&mut second, Add { by }) {
            Ok(_) => 0,
            Err(busy) => busy.word,
        };
        let reply = state.length();
        let stored = state.calls.push(Call { by, reply }).is_ok();
        Told {
            stored,
            free,
            word,
            second,
        }
    }
}

// Makes 1,000 calls with a pass.
fn call_often<R: Wait>(rt: &R, turn: &Turn<Counter>, pass: Pass<Counter>, by: u64) -> Pass<Counter>
    requires { pass.turn ≡ turn.now }
    ensures own { result.turn ≡ pass.turn }
    ensures parts { result.parts ≡ pass.parts }
{
    let mut pass = pass;
    for _call in 0..1000 {
        turn.with(rt, &mut pass, Add { by });
    }
    pass
}

// Two threads make 1,000 calls each: what they leave behind, once the turn is closed.
fn call_from_two<R: Threads + Wait + Sync>(rt: &R, alloc: Global) -> Option<Counter> {
    let Ok((turn, mut pass)) = Turn::new(alloc, Counter::new(alloc)) else {
        return None;
    };
    let other = turn.split(&mut pass);
    let shared = &turn;
    let (mut pass, other) = join(
        rt,
        move || -> Pass<Counter>
            requires { pass.turn ≡ shared.now }
            ensures { (result.turn ≡ pass.turn) × (result.parts ≡ pass.parts) }
        { call_often(rt, shared, pass, 1) },
        move || -> Pass<Counter>
            requires { other.turn ≡ shared.now }
            ensures { (result.turn ≡ other.turn) × (result.parts ≡ other.parts) }
        { call_often(rt, shared, other, 2) },
    );
    turn.join(&mut pass, other);
    Some(turn.close(pass))
}

#[test]
fn the_history_has_each_call_once(rt: HostRuntime) -> Result<(), Fail> {
    let counter = call_from_two(&rt, rt.alloc()).ok_or("memory")?;
    assert_eq!(rt; counter.count(1), (1000, true));
    assert_eq!(rt; counter.count(2), (1000, true));
    assert_eq!(rt; counter.calls.len(), 2000);
    Ok(())
}

#[test]
fn a_step_meets_its_own_word(rt: HostRuntime) -> Result<(), Fail> {
    let (own, mut first) = Turn::new(rt.alloc(), Counter::new(rt.alloc()))?;
    let second = own.split(&mut first);
    let (other, third) = Turn::new(rt.alloc(), Counter::new(rt.alloc()))?;
    let step = Nested {
        by: 7,
        own: &own,
        second,
        other: &other,
        third,
    };
    let told = own.try_with(&mut first, step).ok().ok_or("it was free")?;
    assert!(rt; told.stored && told.free);
    assert_eq!(rt; told.word, 1);
    let Told {
        stored: _,
        free: _,
        word: _,
        mut second,
    } = told;
    assert!(rt; own.try_with(&mut second, Add { by: 8 }).is_ok());
    Ok(())
}
