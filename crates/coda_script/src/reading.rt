// Reading a line.
ghost use Rattle.std.specs.Prelude.{◌≡◌, IfOk, IfSome, IfNone, true};
ghost use Rattle.coda_script.specs.Reading.{read};
ghost use Rattle.coda_script.specs.Table.{script, setup_forms, actor_forms, last_forms, extra_forms};
ghost use Rattle.coda_script.specs.Lines.{first_byte, is_silent, read_words, line_of};
ghost use Rattle.coda_script.specs.Outcome.{Gives};
ghost use Rattle.coda_script.specs.Ranges.{InRange};
ghost use Rattle.coda_script.specs.Spelling.{Says, ReadsAll};

use crate::slots::{takes, wrong};
use crate::turns::{placed, read_turns};
use crate::{Line, LineFault, actors, extras, operations, services};
use coda_text::{Cursor, is_separator};
use std::alloc::Global;

// Lines of messages cut short, hard links, access lists, backups and resolvers of files.
#[tactic(auto, unfolding(crate::specs::Table::extra_forms))]
fn extra_line(alloc: Global, cursor: &mut Cursor) -> Result<Line, LineFault>
    ensures { Gives (λ l. l) result (read extra_forms cursor.old) }
{
    if takes(cursor, b"trim") {
        return extras::trim(cursor);
    }
    if takes(cursor, b"hardlink") {
        return extras::hardlink(alloc, cursor);
    }
    if takes(cursor, b"acl") {
        return extras::acl(alloc, cursor);
    }
    if takes(cursor, b"clone") {
        return extras::clone(cursor);
    }
    if takes(cursor, b"peek") {
        return extras::peek(alloc, cursor);
    }
    if takes(cursor, b"unclone") {
        return extras::unclone(cursor);
    }
    if takes(cursor, b"asr") {
        return extras::asr(alloc, cursor);
    }
    if takes(cursor, b"heal") {
        return extras::heal(alloc, cursor);
    }
    wrong(cursor)
}

// Lines of replicas and of what is shown, and those behind.
#[tactic(auto, unfolding(crate::specs::Table::last_forms))]
fn last_line(alloc: Global, cursor: &mut Cursor) -> Result<Line, LineFault>
    ensures { Gives (λ l. l) result (read last_forms cursor.old) }
{
    if takes(cursor, b"resolve") {
        return services::resolve(alloc, cursor);
    }
    if takes(cursor, b"repair") {
        return services::repair(alloc, cursor);
    }
    if takes(cursor, b"show") {
        return services::show(cursor);
    }
    extra_line(alloc, cursor)
}

// Lines of disks, hoarding, messages and callbacks, and those behind.
#[tactic(auto, unfolding(crate::specs::Table::actor_forms))]
fn actor_line(alloc: Global, cursor: &mut Cursor) -> Result<Line, LineFault>
    ensures { Gives (λ l. l) result (read actor_forms cursor.old) }
{
    if takes(cursor, b"hoard") {
        return services::hoard(alloc, cursor);
    }
    if takes(cursor, b"walk") {
        return services::walk(cursor);
    }
    if takes(cursor, b"send") {
        return services::send(cursor);
    }
    if takes(cursor, b"deliver") {
        return services::deliver(cursor);
    }
    if takes(cursor, b"lose") {
        return services::lose(cursor);
    }
    if takes(cursor, b"breaks") {
        return services::breaks(cursor);
    }
    if takes(cursor, b"crash") {
        return services::crash(cursor);
    }
    if takes(cursor, b"recover") {
        return services::recover(cursor);
    }
    if takes(cursor, b"arm") {
        return services::arm(cursor);
    }
    last_line(alloc, cursor)
}

// Lines of actors, links, the clock and what a client does beside its operations, and those behind.
#[tactic(auto, unfolding(crate::specs::Table::setup_forms))]
fn setup_line(alloc: Global, cursor: &mut Cursor) -> Result<Line, LineFault>
    ensures { Gives (λ l. l) result (read setup_forms cursor.old) }
{
    if takes(cursor, b"volume") {
        return actors::volume(alloc, cursor);
    }
    if takes(cursor, b"client") {
        return actors::client(cursor);
    }
    if takes(cursor, b"link") {
        return actors::link(cursor);
    }
    if takes(cursor, b"tick") {
        return actors::tick(cursor);
    }
    if takes(cursor, b"list") {
        return actors::list(alloc, cursor);
    }
    if takes(cursor, b"drain") {
        return actors::drain(cursor);
    }
    if takes(cursor, b"refresh") {
        return actors::refresh(cursor);
    }
    if takes(cursor, b"giveup") {
        return actors::giveup(cursor);
    }
    actor_line(alloc, cursor)
}

// Any line but those of threads.
#[tactic(auto, unfolding(crate::specs::Table::script))]
fn script_line(alloc: Global, cursor: &mut Cursor) -> Result<Line, LineFault>
    ensures { Gives (λ l. l) result (read script cursor.old) }
{
    if takes(cursor, b"create") {
        return operations::create(alloc, cursor);
    }
    if takes(cursor, b"mkdir") {
        return operations::mkdir(alloc, cursor);
    }
    if takes(cursor, b"symlink") {
        return operations::symlink(alloc, cursor);
    }
    if takes(cursor, b"store") {
        return operations::store(alloc, cursor);
    }
    if takes(cursor, b"setattr") {
        return operations::setattr(alloc, cursor);
    }
    if takes(cursor, b"remove") {
        return operations::remove(alloc, cursor);
    }
    if takes(cursor, b"rmdir") {
        return operations::rmdir(alloc, cursor);
    }
    if takes(cursor, b"rename") {
        return operations::rename(alloc, cursor);
    }
    if takes(cursor, b"read") {
        return operations::read(alloc, cursor);
    }
    setup_line(alloc, cursor)
}

// What the words of a line say.
#[tactic(auto, unfolding(crate::specs::Lines::read_words))]
fn line(alloc: Global, cursor: &mut Cursor) -> Result<Line, LineFault>
    ensures { Gives (λ l. l) result (read_words cursor.old) }
{
    let turns = read_turns(cursor)?;
    let line = script_line(alloc, cursor)?;
    placed(turns, line)
}

// The first byte that is no separator.
fn first_byte(line: &[u8]) -> Option<u8>
    ensures { result ≡ first_byte line.now }
{
    for byte in line {
        if !is_separator(*byte) {
            return Some(*byte);
        }
    }
    None
}

// Whether the line is blank or a comment.
fn is_silent(line: &[u8]) -> bool
    ensures { result ≡ is_silent line.now }
{
    match first_byte(line) {
        None => true,
        Some(byte) => byte == b'#',
    }
}

// What a line says, if it says anything.
#[tactic(auto, unfolding(crate::specs::Lines::line_of))]
fn whole_line(alloc: Global, bytes: &[u8]) -> Result<Option<Line>, LineFault>
    ensures { Gives (λ o. o) result (line_of bytes.now) }
{
    if is_silent(bytes) {
        return Ok(None);
    }
    let mut cursor = Cursor::of(bytes);
    Ok(Some(line(alloc, &mut cursor)?))
}

/// What a line of a script says: nothing for a blank line or a comment, which begins with `#`.
///
/// A line has no newline in it. Reading goes once over the line, and takes memory for
/// what the line says and for one decoded word at a time.
///
/// # Errors
///
/// `BadLine` exactly where the line is neither silent nor in the grammar, with the first wrong column from the left:
///
/// - a missing word is `Count`, at the column behind the line's last byte;
/// - a word too many is `Count`, or `Word` where an optional word might stand;
/// - a wrong word is `Word`, a wrong number or one out of its range `Number`, a wrong path `Path`, a quoted text that is
///   none or isn't of the length that it must have `Text`;
/// - what is no word of a line at all is `Text`;
/// - `at T LINE` is `Mode` at column 1 where LINE is well formed and isn't what a client does in a thread.
pub fn read_line(alloc: Global, bytes: &[u8]) -> Result<Option<Line>, LineFault>
    // What is read is spelled so.
    ensures found { IfOk result (λ o. IfSome o (λ said. Says bytes.now said)) }

    // What is read names things in their ranges.
    ensures ranges { IfOk result (λ o. IfSome o InRange) }

    // What is spelled so is read, unless memory runs out.
    ensures only { ReadsAll bytes.now result }

    // Nothing is read from blank lines and comments alone.
    ensures silent { IfOk result (λ o. IfNone o (is_silent bytes.now ≡ true)) }

    // Which fault it is.
    ensures exact { Gives (λ o. o) result (line_of bytes.now) }
{
    whole_line(alloc, bytes)
}
