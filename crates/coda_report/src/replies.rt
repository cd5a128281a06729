// The texts of replies.
ghost use Rattle.std.specs.Prelude.{◌≡◌, ◌∷◌, [], ◌++◌, IfOk, OnOk, codes, length, string_bytes};
ghost use Rattle.std.specs.Fmt.{decimal};
ghost use Rattle.std.specs.List.{flat_map};
ghost use Rattle.std.specs.FinMap as map;
ghost use Rattle.coda_fid.specs.Fid.{fid_text};
ghost use Rattle.coda_script.specs.Refusals.{number_of_refusal, refusal_name};
ghost use Rattle.coda_report.specs.Printing.{line};
ghost use Rattle.coda_report.specs.Texts.{arg_text, entry_line, given_up_text, listing_text, numbers_text, readable_text, refused_text, reply_text, source_text, state_text, IsWhole};

use crate::outcomes::{
    put_delivered, put_drained, put_frozen, put_hoarded, put_resolved, put_settled, put_walked,
    state_word,
};
use crate::printing::{put_content, put_fid, put_number};
use crate::records::put_records;
use coda_fid::{Bytes, Fid, Name, Record};
use coda_script::{Arg, Args, ClientState, Numbers, Readable, Refusal, Reply};
use coda_text::{put_byte, put_printed};
use coda_tree::Entries;
use std::alloc::{AllocError, Global};
use std::fmt::Write;

/// The bytes for which a reply has room from the start; most are shorter.
const USUAL_LENGTH: usize = 48;

fn put_entry(out: &mut String, name: &Name, fid: Fid) -> Result<(), AllocError>
    ensures { OnOk result (string_bytes out.new ≡ string_bytes out.old ++ entry_line (name.now, fid)) }
{
    put_printed(out, name.bytes())?;
    writeln!(out, " {fid}")
}

fn put_entries(out: &mut String, entries: &Entries) -> Result<(), AllocError>
    ensures { OnOk result (string_bytes out.new ≡ string_bytes out.old ++ flat_map entry_line (map.entries entries.now)) }
{
    for index in 0..entries.len() {
        let (name, fid) = entries.at(index).unwrap();
        put_entry(out, name, fid)?;
    }
    Ok(())
}

// Puts what a directory binds, by the bytes of the names.
fn put_listing(out: &mut String, fetched: bool, entries: &Entries) -> Result<(), AllocError>
    ensures { OnOk result (string_bytes out.new ≡ string_bytes out.old ++ listing_text fetched entries.now) }
{
    let count = entries.len();
    if fetched {
        writeln!(out, "fetched {count}")?;
    } else {
        writeln!(out, "cached {count}")?;
    }
    put_entries(out, entries)
}

// Puts whether an object was fetched in this line or held before.
fn put_source(out: &mut String, fetched: bool) -> Result<(), AllocError>
    ensures { OnOk result (string_bytes out.new ≡ string_bytes out.old ++ source_text fetched) }
{
    if fetched {
        out.push_str("fetched ")
    } else {
        out.push_str("cached ")
    }
}

// Puts a file's length and the first of its content, or a link's target.
fn put_readable(out: &mut String, what: &Readable) -> Result<(), AllocError>
    ensures { OnOk result (string_bytes out.new ≡ string_bytes out.old ++ readable_text what.now) }
{
    match what {
        Readable::File(content) => {
            let length = content.len();
            write!(out, "{length} ")?;
            put_content(out, content.bytes())
        }
        Readable::Link(target) => {
            out.push_str("link ")?;
            put_content(out, target.bytes())
        }
    }
}

fn put_read(out: &mut String, fetched: bool, what: &Readable) -> Result<(), AllocError>
    ensures { OnOk result (string_bytes out.new ≡ string_bytes out.old ++ line (source_text fetched ++ readable_text what.now)) }
{
    put_source(out, fetched)?;
    put_readable(out, what)?;
    put_byte(out, b'\n')
}

// Puts numbers, each behind a blank.
fn put_numbers(out: &mut String, numbers: &[u64]) -> Result<(), AllocError>
    ensures { OnOk result (string_bytes out.new ≡ string_bytes out.old ++ numbers_text numbers.now) }
{
    for number in numbers {
        let number = *number;
        write!(out, " {number}")?;
    }
    Ok(())
}

// Puts a word and numbers.
fn put_numbered(out: &mut String, word: &str, numbers: &Numbers) -> Result<(), AllocError>
    ensures { OnOk result (string_bytes out.new ≡ string_bytes out.old ++ line (word.now ++ numbers_text numbers.now)) }
{
    out.push_str(word)?;
    put_numbers(out, numbers.numbers())?;
    put_byte(out, b'\n')
}

// Puts how many records a client gave up, and each on a line.
fn put_given_up(out: &mut String, records: &[Record]) -> Result<(), AllocError>
    ensures { OnOk result (string_bytes out.new ≡ string_bytes out.old ++ given_up_text records.now) }
{
    let count = records.len();
    writeln!(out, "gave-up {count}")?;
    put_records(out, records)
}

fn put_state(out: &mut String, state: ClientState) -> Result<(), AllocError>
    ensures { OnOk result (string_bytes out.new ≡ string_bytes out.old ++ line (state_text state)) }
{
    out.push_str(state_word(state))?;
    put_byte(out, b'\n')
}

// Puts what a refusal names.
fn put_arg(out: &mut String, arg: Arg) -> Result<(), AllocError>
    ensures { OnOk result (string_bytes out.new ≡ string_bytes out.old ++ arg_text arg) }
{
    match arg {
        Arg::Number(number) => write!(out, " {number}"),
        Arg::Object(fid) => write!(out, " {fid}"),
    }
}

fn put_args(out: &mut String, args: &[Arg]) -> Result<(), AllocError>
    ensures { OnOk result (string_bytes out.new ≡ string_bytes out.old ++ flat_map arg_text args.now) }
{
    for arg in args {
        put_arg(out, *arg)?;
    }
    Ok(())
}

// Puts the number and the name of a refusal.
fn put_name(out: &mut String, refusal: Refusal) -> Result<(), AllocError>
    ensures { OnOk result (string_bytes out.new ≡ string_bytes out.old ++ (codes "refused " ++ decimal (number_of_refusal refusal) ++ 32 ∷ refusal_name refusal)) }
{
    let number = refusal.number();
    write!(out, "refused {number} {refusal}")
}

fn put_refused(out: &mut String, refusal: Refusal, args: &Args) -> Result<(), AllocError>
    ensures { OnOk result (string_bytes out.new ≡ string_bytes out.old ++ line (refused_text refusal args.now)) }
{
    put_name(out, refusal)?;
    put_args(out, args.args())?;
    put_byte(out, b'\n')
}

// Puts the number of an operation and the object that it names.
fn put_done(out: &mut String, number: u64, fid: Fid) -> Result<(), AllocError>
    ensures { OnOk result (string_bytes out.new ≡ string_bytes out.old ++ line (codes "done " ++ decimal number ++ 32 ∷ fid_text fid)) }
{
    out.push_str("done ")?;
    put_number(out, number)?;
    put_byte(out, b' ')?;
    put_fid(out, fid)?;
    put_byte(out, b'\n')
}

// Puts a reply.
fn put_reply(out: &mut String, alloc: Global, reply: &Reply) -> Result<(), AllocError>
    requires { IsWhole reply.now }
    ensures { OnOk result (string_bytes out.new ≡ string_bytes out.old ++ reply_text reply.now) }
{
    match reply {
        Reply::Opened(entries) => put_numbered(out, "opened", entries),
        Reply::Accepted => out.push_str("ok\n"),
        Reply::Done { number, fid } => put_done(out, *number, *fid),
        Reply::Read { fetched, what } => put_read(out, *fetched, what),
        Reply::Listed { fetched, entries } => put_listing(out, *fetched, entries),
        Reply::Hoarded(entries) => put_hoarded(out, alloc, entries.entries()),
        Reply::Walked {
            keep,
            fetch,
            drop,
            used,
            size,
        } => put_walked(out, *keep, *fetch, *drop, *used, *size),
        Reply::Sent { message, chunk } => writeln!(out, "message {message} chunk {chunk}"),
        Reply::Drained { chunk, answer } => put_drained(out, *chunk, *answer),
        Reply::Delivered {
            chunk,
            answer,
            message,
        } => put_delivered(out, *chunk, *answer, *message),
        Reply::Settled { chunk, verdict } => put_settled(out, *chunk, *verdict),
        Reply::StillFrozen { chunk, why } => put_frozen(out, *chunk, *why),
        Reply::Broken { copies } => writeln!(out, "broken {copies}"),
        Reply::Lost { message } => writeln!(out, "lost {message}"),
        Reply::Posted(messages) => put_numbered(out, "posted", messages),
        Reply::GaveUp(records) => put_given_up(out, records.records()),
        Reply::Crashed => out.push_str("crashed\n"),
        Reply::Recovered { entries } => writeln!(out, "recovered {entries}"),
        Reply::Resolved { touched, marks } => put_resolved(out, *touched, marks.marks()),
        Reply::Repaired(fid) => writeln!(out, "repaired {fid}"),
        Reply::ShowVolume { .. } => unreachable!(),
        Reply::ShowLog { .. } => unreachable!(),
        Reply::State(state) => put_state(out, *state),
        Reply::Refused { refusal, args } => put_refused(out, *refusal, args),
    }
}

/// The text of a reply that has all that its text shows: any but those that name a volume or a log to be shown.
///
/// Fails for want of memory alone.
pub fn reply_text(alloc: Global, reply: &Reply) -> Result<Bytes, AllocError>
    requires { IsWhole reply.now }
    ensures { IfOk result (λ text. text ≡ reply_text reply.now) }
{
    let mut text = String::with_capacity(alloc, USUAL_LENGTH)?;
    put_reply(&mut text, alloc, reply)?;
    Ok(Bytes::from_vec(text.into_bytes()))
}
