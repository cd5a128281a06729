//! Last decisions and answers, read from the front of what is left and written behind what is there.
ghost use Rattle.std.specs.Prelude.{◌≡◌, ◌≤◌, ◌++◌, OnOk, length};
ghost use Rattle.std.specs.List.{flat_map};
ghost use Rattle.coda_record.specs.Form.{gives};
ghost use Rattle.coda_record.specs.Parts.{items};
ghost use Rattle.coda_record.specs.Table.{last_above as a_last_above, lasts as last_decisions, answer as an_answer};
ghost use Rattle.coda_record.specs.Spelling.{HasSpelling};
ghost use Rattle.coda_record.specs.Reading.{read};
ghost use Rattle.coda_record.specs.Outcome.{Gives};

use crate::answer::Answer;
use crate::last::{Last, Lasts};
use coda_values::lengths::length_of_reason;
use coda_values::parts::u64_between;
use coda_values::reading::{GREATEST, reason, verdict};
use coda_values::writing::{put_reason, put_u8, put_u32, put_u64, put_verdict};
use coda_values::{Cursor, Fault};
use std::alloc::{AllocError, Global};

// The last decision on a client that is greater than another.
#[tactic(auto, unfolding(crate::specs::Table::last_above))]
fn last_above(cursor: &mut Cursor, before: u8) -> Result<Last, Fault>
    ensures { Gives (λ l. (l, cursor.new)) result (read (a_last_above before).form cursor.old) }
{
    let left = cursor.left();
    let client = cursor.u8()?;
    if client <= before {
        return Err(Fault::Broken { left });
    }
    let number = u64_between(cursor, 1, GREATEST)?;
    let verdict = verdict(cursor)?;
    Ok(Last {
        client,
        number,
        verdict,
    })
}

// So many last decisions, in increasing order of clients.
fn lasts_of(alloc: Global, cursor: &mut Cursor, count: u32) -> Result<Vec<Last>, Fault>
    ensures { Gives (λ ls. (ls.items, cursor.new)) result (read (items a_last_above (λ l. l.client) 0 count (λ ls. gives ls)) cursor.old) }
{
    let mut lasts = Vec::new(alloc);
    let mut before = 0;
    for _ in 0..count {
        let last = last_above(cursor, before)?;
        before = last.client;
        lasts.push(last)?;
    }
    Ok(lasts)
}

/// Last decisions, in increasing order of clients.
#[tactic(auto, unfolding(crate::specs::Table::lasts))]
pub fn lasts(alloc: Global, cursor: &mut Cursor) -> Result<Lasts, Fault>
    ensures { Gives (λ ls. (ls, cursor.new)) result (read last_decisions.form cursor.old) }
{
    let count = cursor.u32()?;
    let lasts = lasts_of(alloc, cursor, count)?;
    Ok(Lasts::from_vec(lasts))
}

/// An answer.
#[tactic(auto, unfolding(crate::specs::Table::answer))]
pub fn answer(cursor: &mut Cursor) -> Result<Answer, Fault>
    ensures { Gives (λ a. (a, cursor.new)) result (read an_answer.form cursor.old) }
{
    let tag = cursor.tag()?;
    match tag.byte {
        0 => Ok(Answer::Applied),
        1 => {
            let number = u64_between(cursor, 1, GREATEST)?;
            let reason = reason(cursor)?;
            Ok(Answer::Conflict(number, reason))
        }
        2 => Ok(Answer::Behind(u64_between(cursor, 0, GREATEST)?)),
        3 => Ok(Answer::Old(u64_between(cursor, 0, GREATEST)?)),
        _ => Err(tag.unknown()),
    }
}

// The last decision on a client.
#[tactic(auto, unfolding(crate::specs::Table::last_above))]
fn put_last(out: &mut Vec<u8>, last: &Last) -> Result<(), AllocError>
    ensures { OnOk result (out.new.items ≡ out.old.items ++ ((a_last_above 0).piece last.now).bytes) }
{
    put_u8(out, last.client)?;
    put_u64(out, last.number)?;
    put_verdict(out, &last.verdict)
}

// Last decisions, one after the other.
fn put_all_lasts(out: &mut Vec<u8>, lasts: &[Last]) -> Result<(), AllocError>
    ensures { OnOk result (out.new.items ≡ out.old.items ++ flat_map (λ l. ((a_last_above 0).piece l).bytes) lasts.now) }
{
    for last in lasts {
        put_last(out, last)?;
    }
    Ok(())
}

/// Last decisions, in increasing order of clients.
#[tactic(auto, unfolding(crate::specs::Table::lasts))]
pub fn put_lasts(out: &mut Vec<u8>, lasts: &[Last]) -> Result<(), AllocError>
    requires { HasSpelling last_decisions lasts.now }
    ensures { OnOk result (out.new.items ≡ out.old.items ++ (last_decisions.piece lasts.now).bytes) }
{
    put_u32(out, lasts.len() as u32)?;
    put_all_lasts(out, lasts)
}

/// An answer.
#[tactic(auto, unfolding(crate::specs::Table::answer))]
pub fn put_answer(out: &mut Vec<u8>, answer: &Answer) -> Result<(), AllocError>
    ensures { OnOk result (out.new.items ≡ out.old.items ++ (an_answer.piece answer.now).bytes) }
{
    match answer {
        Answer::Applied => put_u8(out, 0),
        Answer::Conflict(number, reason) => {
            put_u8(out, 1)?;
            put_u64(out, *number)?;
            put_reason(out, reason)
        }
        Answer::Behind(number) => {
            put_u8(out, 2)?;
            put_u64(out, *number)
        }
        Answer::Old(number) => {
            put_u8(out, 3)?;
            put_u64(out, *number)
        }
    }
}

/// The bytes of an answer.
#[tactic(auto, using(crate::proofs::Spans::answer_bytes))]
pub fn length_of_answer(answer: &Answer) -> usize
    ensures exact { result ≡ length (an_answer.piece answer.now).bytes }
    ensures small { result ≤ 28 }
{
    match answer {
        Answer::Applied => 1,
        Answer::Conflict(_, reason) => 9 + length_of_reason(reason),
        Answer::Behind(_) => 9,
        Answer::Old(_) => 9,
    }
}
