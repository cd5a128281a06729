// The threads that a line names in front.
ghost use Rattle.std.specs.Prelude.{◌≡◌, codes};
ghost use Rattle.coda_script.specs.Slots.{is_word};
ghost use Rattle.coda_script.specs.Reading.{is_next};
ghost use Rattle.coda_script.specs.Lines.{with_thread, turns_at, placed};
ghost use Rattle.coda_script.specs.Outcome.{Gives};
ghost use Rattle.coda_script.specs.declared.turns.Turns.TheVariants.{Unnamed};

use crate::slots::number;
use crate::{Line, LineFault};
use coda_engine::Kind;
use coda_text::{Cursor, Head};

/// The threads that stand before a line, each behind a word `at`.
#[derive(Clone, Copy, Debug, PartialEq, Eq)]
pub enum Turns {
    /// None.
    Unnamed,
    /// This one.
    Thread(u8),
    /// Several, where none may stand.
    Several,
}

fn with_thread(seen: Turns, thread: u8) -> Turns
    ensures { result ≡ with_thread seen thread }
{
    match seen {
        Turns::Unnamed => Turns::Thread(thread),
        Turns::Thread(_) => Turns::Several,
        Turns::Several => Turns::Several,
    }
}

fn is_at_next(cursor: &Cursor) -> bool
    ensures { result ≡ is_next (is_word (codes "at")) cursor.now.words }
{
    match cursor.head() {
        Head::End { .. } => false,
        Head::Bad { .. } => false,
        Head::Word { text, .. } => text == b"at".as_slice(),
    }
}

/// The threads that stand before a line.
pub fn read_turns(cursor: &mut Cursor) -> Result<Turns, LineFault>
    ensures { Gives (λ t. (t, cursor.new)) result (turns_at Unnamed cursor.old cursor.old.words) }
{
    let mut seen = Turns::Unnamed;
    while is_at_next(cursor) {
        cursor.advance();
        let thread = number(cursor, 1, 8)? as u8;
        seen = with_thread(seen, thread);
    }
    Ok(seen)
}

// What a line says behind threads, if any are named. Few lines name some, and taking a line apart takes a large frame: it
// is kept out of the way of the others.
#[cold]
#[inline(never)]
fn in_turn(turns: Turns, line: Line) -> Result<Line, LineFault>
    ensures { Gives (λ l. l) result (placed turns line) }
{
    let misplaced = LineFault::BadLine {
        column: 1,
        kind: Kind::Mode,
    };
    match turns {
        Turns::Unnamed => Ok(line),
        Turns::Thread(thread) => match line {
            Line::Task(task) => Ok(Line::At { thread, task }),
            _ => Err(misplaced),
        },
        Turns::Several => Err(misplaced),
    }
}

/// What a line says behind the threads that it names.
pub fn placed(turns: Turns, line: Line) -> Result<Line, LineFault>
    ensures { Gives (λ l. l) result (placed turns line) }
{
    match turns {
        Turns::Unnamed => Ok(line),
        Turns::Thread(_) => in_turn(turns, line),
        Turns::Several => in_turn(turns, line),
    }
}
