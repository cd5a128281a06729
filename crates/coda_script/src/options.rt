// Optional parts of a line, and its end.
ghost use Rattle.std.specs.Prelude.{codes, if◌then◌else◌};
ghost use Rattle.coda_engine.specs.declared.status.Kind.TheVariants as kinds;
ghost use Rattle.coda_script.specs.Slots.{between, octal};
ghost use Rattle.coda_script.specs.Reading.{option_at, end_at};
ghost use Rattle.coda_script.specs.Outcome.{Gives};

use crate::slots::{ends, number, takes};
use crate::{Line, LineFault, slots};
use coda_engine::Kind;
use coda_text::Cursor;

/// `mode M`, perhaps.
#[tactic(auto, unfolding(crate::specs::Reading::option_at))]
pub fn mode(cursor: &mut Cursor) -> Result<Option<u16>, LineFault>
    ensures { Gives (λ o. (o, cursor.new)) result (option_at (codes "mode") octal cursor.old) }
{
    if takes(cursor, b"mode") {
        let mode = slots::mode(cursor)?;
        return Ok(Some(mode));
    }
    Ok(None)
}

/// `owner O`, perhaps.
#[tactic(auto, unfolding(crate::specs::Reading::option_at))]
pub fn owner(cursor: &mut Cursor) -> Result<Option<u32>, LineFault>
    ensures { Gives (λ o. (o, cursor.new)) result (option_at (codes "owner") (between 0 4294967295) cursor.old) }
{
    if takes(cursor, b"owner") {
        let owner = number(cursor, 0, 4_294_967_295)? as u32;
        return Ok(Some(owner));
    }
    Ok(None)
}

/// `mtime N`, perhaps.
#[tactic(auto, unfolding(crate::specs::Reading::option_at))]
pub fn mtime(cursor: &mut Cursor) -> Result<Option<u64>, LineFault>
    ensures { Gives (λ o. (o, cursor.new)) result (option_at (codes "mtime") (between 0 18446744073709551615) cursor.old) }
{
    if takes(cursor, b"mtime") {
        let mtime = number(cursor, 0, u64::MAX)?;
        return Ok(Some(mtime));
    }
    Ok(None)
}

/// `area M`, perhaps.
#[tactic(auto, unfolding(crate::specs::Reading::option_at))]
pub fn area(cursor: &mut Cursor) -> Result<Option<u8>, LineFault>
    ensures { Gives (λ o. (o, cursor.new)) result (option_at (codes "area") (between 1 64) cursor.old) }
{
    if takes(cursor, b"area") {
        let area = number(cursor, 1, 64)? as u8;
        return Ok(Some(area));
    }
    Ok(None)
}

/// `window W`, perhaps.
#[tactic(auto, unfolding(crate::specs::Reading::option_at))]
pub fn window(cursor: &mut Cursor) -> Result<Option<u64>, LineFault>
    ensures { Gives (λ o. (o, cursor.new)) result (option_at (codes "window") (between 0 18446744073709551615) cursor.old) }
{
    if takes(cursor, b"window") {
        let window = number(cursor, 0, u64::MAX)?;
        return Ok(Some(window));
    }
    Ok(None)
}

/// The line says that and ends here.
pub fn says(cursor: &Cursor, line: Line) -> Result<Line, LineFault>
    ensures { Gives (λ l. l) result (end_at kinds.Count line cursor.now cursor.now.words) }
{
    ends(cursor, Kind::Count, line)
}

/// The line says that and ends here, behind an optional part that stood there or not.
pub fn closes(cursor: &Cursor, present: bool, line: Line) -> Result<Line, LineFault>
    ensures { Gives (λ l. l) result (end_at (if present then kinds.Count else kinds.Word) line cursor.now cursor.now.words) }
{
    ends(cursor, if present { Kind::Count } else { Kind::Word }, line)
}
