// The texts of what became of chunks, of hoard walks and of resolutions.
ghost use Rattle.std.specs.Prelude.{◌≡◌, ◌++◌, ◌∷◌, [], OnOk, length, string_bytes, codes};
ghost use Rattle.std.specs.List.{flat_map};
ghost use Rattle.std.specs.Fmt.{decimal};
ghost use Rattle.coda_report.specs.Printing.{line};
ghost use Rattle.coda_report.specs.Texts.{answer_text, blocks_text, chunk_text, expansion_text, hoard_line, hoarded_text, mark_line, planned_text, resolved_text, undecided_text, verdict_text, walked_text, why_text, state_text};

use crate::paths::put_path;
use coda_certify::Verdict;
use coda_script::{Answer, ClientState, Expansion, HoardEntry, Mark, Undecided, Why};
use coda_text::{put_byte, put_printed};
use std::alloc::{AllocError, Global};
use std::fmt::Write;

// Puts a verdict.
fn put_verdict(out: &mut String, verdict: Verdict) -> Result<(), AllocError>
    ensures { OnOk result (string_bytes out.new ≡ string_bytes out.old ++ verdict_text verdict) }
{
    match verdict {
        Verdict::Applied => out.push_str("applied"),
        Verdict::Conflict(number, why) => write!(out, "conflict {number} {why}"),
    }
}

// Puts what became of a chunk.
fn put_answer(out: &mut String, answer: Answer) -> Result<(), AllocError>
    ensures { OnOk result (string_bytes out.new ≡ string_bytes out.old ++ answer_text answer) }
{
    match answer {
        Answer::Decided(verdict) => put_verdict(out, verdict),
        Answer::Behind(last) => write!(out, "behind {last}"),
        Answer::Old(last) => write!(out, "old {last}"),
    }
}

// Puts a chunk of a number and what became of it.
fn put_chunk(out: &mut String, chunk: u64, answer: Answer) -> Result<(), AllocError>
    ensures { OnOk result (string_bytes out.new ≡ string_bytes out.old ++ chunk_text chunk answer) }
{
    write!(out, "chunk {chunk} ")?;
    put_answer(out, answer)
}

/// Puts a chunk that was sent and answered.
pub fn put_drained(out: &mut String, chunk: u64, answer: Answer) -> Result<(), AllocError>
    ensures { OnOk result (string_bytes out.new ≡ string_bytes out.old ++ line (chunk_text chunk answer)) }
{
    put_chunk(out, chunk, answer)?;
    put_byte(out, b'\n')
}

/// Puts a chunk that was delivered, and the message with its answer.
pub fn put_delivered(
    out: &mut String,
    chunk: u64,
    answer: Answer,
    message: u64,
) -> Result<(), AllocError>
    ensures { OnOk result (string_bytes out.new ≡ string_bytes out.old ++ line (chunk_text chunk answer ++ codes " message " ++ decimal message)) }
{
    put_chunk(out, chunk, answer)?;
    writeln!(out, " message {message}")
}

/// Puts a chunk that is settled.
pub fn put_settled(out: &mut String, chunk: u64, verdict: Verdict) -> Result<(), AllocError>
    ensures { OnOk result (string_bytes out.new ≡ string_bytes out.old ++ line (codes "settled " ++ decimal chunk ++ 32 ∷ verdict_text verdict)) }
{
    write!(out, "settled {chunk} ")?;
    put_verdict(out, verdict)?;
    put_byte(out, b'\n')
}

/// Puts a chunk that stays frozen.
pub fn put_frozen(out: &mut String, chunk: u64, why: Undecided) -> Result<(), AllocError>
    ensures { OnOk result (string_bytes out.new ≡ string_bytes out.old ++ line (codes "frozen " ++ decimal chunk ++ 32 ∷ undecided_text why)) }
{
    match why {
        Undecided::Behind(last) => writeln!(out, "frozen {chunk} behind {last}"),
        Undecided::Old(last) => writeln!(out, "frozen {chunk} old {last}"),
    }
}

// The word for what a hoard entry takes.
fn expansion_word(expansion: Expansion) -> &'static str
    ensures { result.now ≡ expansion_text expansion }
{
    match expansion {
        Expansion::Alone => "none",
        Expansion::Children => "children",
        Expansion::Descendants => "descendants",
    }
}

// Puts the line of a hoard entry.
fn put_hoard_entry(out: &mut String, alloc: Global, entry: &HoardEntry) -> Result<(), AllocError>
    ensures { OnOk result (string_bytes out.new ≡ string_bytes out.old ++ hoard_line entry.now) }
{
    let (volume, priority) = (entry.volume, entry.priority);
    let word = expansion_word(entry.expansion);
    write!(out, "{volume} ")?;
    put_path(out, alloc, &entry.path)?;
    writeln!(out, " {priority} {word}")
}

fn put_hoard_entries(
    out: &mut String,
    alloc: Global,
    entries: &[HoardEntry],
) -> Result<(), AllocError>
    ensures { OnOk result (string_bytes out.new ≡ string_bytes out.old ++ flat_map hoard_line entries.now) }
{
    for entry in entries {
        put_hoard_entry(out, alloc, entry)?;
    }
    Ok(())
}

/// Puts how many hoard entries there are, and each on a line.
pub fn put_hoarded(
    out: &mut String,
    alloc: Global,
    entries: &[HoardEntry],
) -> Result<(), AllocError>
    ensures { OnOk result (string_bytes out.new ≡ string_bytes out.old ++ hoarded_text entries.now) }
{
    let count = entries.len();
    writeln!(out, "entries {count}")?;
    put_hoard_entries(out, alloc, entries)
}

// Puts how many objects a hoard walk kept, fetched and dropped.
fn put_planned(out: &mut String, keep: u64, fetch: u64, drop: u64) -> Result<(), AllocError>
    ensures { OnOk result (string_bytes out.new ≡ string_bytes out.old ++ planned_text keep fetch drop) }
{
    write!(out, "walk keep {keep} fetch {fetch} drop {drop}")
}

// Puts how many blocks of the cache are used.
fn put_blocks(out: &mut String, used: u64, size: u64) -> Result<(), AllocError>
    ensures { OnOk result (string_bytes out.new ≡ string_bytes out.old ++ blocks_text used size) }
{
    write!(out, " used {used} of {size}")
}

/// Puts what a hoard walk did.
pub fn put_walked(
    out: &mut String,
    keep: u64,
    fetch: u64,
    drop: u64,
    used: u64,
    size: u64,
) -> Result<(), AllocError>
    ensures { OnOk result (string_bytes out.new ≡ string_bytes out.old ++ walked_text keep fetch drop used size) }
{
    put_planned(out, keep, fetch, drop)?;
    put_blocks(out, used, size)?;
    put_byte(out, b'\n')
}

// Puts why an object is marked.
fn put_why(out: &mut String, why: &Why) -> Result<(), AllocError>
    ensures { OnOk result (string_bytes out.new ≡ string_bytes out.old ++ why_text why.now) }
{
    match why {
        Why::Wrapped { origin, number } => {
            let (origin, number) = (*origin, *number);
            write!(out, "wrapped {origin} {number}")
        }
        Why::CrossRename => out.push_str("cross-rename"),
        Why::NameName(name) => {
            out.push_str("name-name ")?;
            put_printed(out, name.bytes())
        }
        Why::DoubleName(fid) => {
            let fid = *fid;
            write!(out, "double-name {fid}")
        }
        Why::RemoveUpdate(fid) => {
            let fid = *fid;
            write!(out, "remove-update {fid}")
        }
        Why::AttrAttr => out.push_str("attr-attr"),
        Why::FileFile => out.push_str("file-file"),
        Why::Kept => out.push_str("kept"),
    }
}

// Puts the line of a mark.
fn put_mark(out: &mut String, mark: &Mark) -> Result<(), AllocError>
    ensures { OnOk result (string_bytes out.new ≡ string_bytes out.old ++ mark_line mark.now) }
{
    let fid = mark.fid;
    write!(out, "{fid} ")?;
    put_why(out, &mark.why)?;
    put_byte(out, b'\n')
}

fn put_marks(out: &mut String, marks: &[Mark]) -> Result<(), AllocError>
    ensures { OnOk result (string_bytes out.new ≡ string_bytes out.old ++ flat_map mark_line marks.now) }
{
    for mark in marks {
        put_mark(out, mark)?;
    }
    Ok(())
}

/// Puts how many objects differ from before, and each new mark on a line.
pub fn put_resolved(out: &mut String, touched: u64, marks: &[Mark]) -> Result<(), AllocError>
    ensures { OnOk result (string_bytes out.new ≡ string_bytes out.old ++ resolved_text touched marks.now) }
{
    let count = marks.len();
    writeln!(out, "resolved {touched} marked {count}")?;
    put_marks(out, marks)
}

/// The word for a client's state.
pub fn state_word(state: ClientState) -> &'static str
    ensures { result.now ≡ state_text state }
{
    match state {
        ClientState::Hoarding => "hoarding",
        ClientState::Emulating => "emulating",
        ClientState::WriteDisconnected => "write-disconnected",
    }
}
