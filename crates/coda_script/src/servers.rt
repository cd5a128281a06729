// Servers, one after another.
ghost use Rattle.std.specs.Prelude.{◌≡◌, ◌≤◌};
ghost use Rattle.coda_script.specs.Slots.{is_server};
ghost use Rattle.coda_script.specs.Reading.{is_next, servers_at};
ghost use Rattle.coda_script.specs.Outcome.{Gives};

use crate::LineFault;
use crate::slots::number;
use coda_text::{Cursor, Head};
use std::alloc::Global;

// Whether a word comes next that stands for a server: any, or one that begins with a digit.
fn is_server_next(cursor: &Cursor, all: bool) -> bool
    ensures { result ≡ is_next (is_server all) cursor.now.words }
{
    match cursor.head() {
        Head::End { .. } => false,
        Head::Bad { .. } => false,
        Head::Word { text, .. } => match text {
            [] => all,
            [first, ..] => all || first.is_ascii_digit(),
        },
    }
}

/// The servers above one, each above the one before it: all words up to the line's end, or those that begin with a
/// digit.
pub fn servers_above(
    alloc: Global,
    cursor: &mut Cursor,
    first: u8,
    all: bool,
) -> Result<Vec<u8>, LineFault>
    requires { first ≤ 8 }
    ensures { Gives (λ v. (v.items, cursor.new)) result (servers_at all first cursor.old cursor.old.words) }
{
    let mut items = Vec::new(alloc);
    let mut last = first;
    while is_server_next(cursor, all) {
        last = number(cursor, last as u64 + 1, 8)? as u8;
        items.push(last)?;
    }
    Ok(items)
}
