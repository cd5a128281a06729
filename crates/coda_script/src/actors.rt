// The forms that make actors and links, move the clock, and let a client send and look.
ghost use Rattle.std.specs.Prelude.{◌≡◌, ◌≤◌, IfOk};
ghost use Rattle.coda_script.specs.Reading.{read};
ghost use Rattle.coda_script.specs.Table.{volume_form, client_form, link_form, tick_form, list_form, drain_form, refresh_form, giveup_form};
ghost use Rattle.coda_script.specs.Outcome.{Gives};

use crate::options::{area, closes, says, window};
use crate::servers::servers_above;
use crate::slots::{number, path, takes, wrong};
use crate::{Line, LineFault, Servers, Strength, Task};
use coda_text::Cursor;
use std::alloc::Global;

#[tactic(auto, unfolding(crate::specs::Table::volume_form))]
pub fn volume(alloc: Global, cursor: &mut Cursor) -> Result<Line, LineFault>
    ensures { Gives (λ l. l) result (read volume_form cursor.old) }
{
    let volume = number(cursor, 1, 4_294_967_295)? as u32;
    if !takes(cursor, b"on") {
        return wrong(cursor);
    }
    let first = number(cursor, 1, 8)? as u8;
    let mut items = servers_above(alloc, cursor, first, false)?;
    items.insert(0, first)?;
    let area = area(cursor)?;
    let present = area.is_some();
    let line = Line::Volume {
        volume,
        servers: Servers { items },
        area,
    };
    closes(cursor, present, line)
}

#[tactic(auto, unfolding(crate::specs::Table::client_form))]
pub fn client(cursor: &mut Cursor) -> Result<Line, LineFault>
    ensures { Gives (λ l. l) result (read client_form cursor.old) }
{
    let client = number(cursor, 1, 255)? as u8;
    if !takes(cursor, b"cache") {
        return wrong(cursor);
    }
    let blocks = number(cursor, 1, 32_768)? as u32;
    let area = area(cursor)?;
    let present = area.is_some();
    let line = Line::Client {
        client,
        blocks,
        area,
    };
    closes(cursor, present, line)
}

#[tactic(auto, unfolding(crate::specs::Table::link_form))]
pub fn link(cursor: &mut Cursor) -> Result<Line, LineFault>
    ensures { Gives (λ l. l) result (read link_form cursor.old) }
{
    let client = number(cursor, 1, 255)? as u8;
    let server = number(cursor, 1, 8)? as u8;
    let strength = if takes(cursor, b"strong") {
        Strength::Strong
    } else if takes(cursor, b"weak") {
        Strength::Weak
    } else if takes(cursor, b"down") {
        Strength::Down
    } else {
        return wrong(cursor);
    };
    let line = Line::Link {
        client,
        server,
        strength,
    };
    says(cursor, line)
}

#[tactic(auto, unfolding(crate::specs::Table::tick_form))]
pub fn tick(cursor: &mut Cursor) -> Result<Line, LineFault>
    ensures { Gives (λ l. l) result (read tick_form cursor.old) }
{
    let seconds = number(cursor, 0, 1_000_000_000)? as u32;
    says(cursor, Line::Tick { seconds })
}

#[tactic(auto, unfolding(crate::specs::Table::list_form))]
pub fn list(alloc: Global, cursor: &mut Cursor) -> Result<Line, LineFault>
    ensures { Gives (λ l. l) result (read list_form cursor.old) }
{
    let client = number(cursor, 1, 255)? as u8;
    let volume = number(cursor, 1, 4_294_967_295)? as u32;
    let path = path(alloc, cursor)?;
    let task = Task::List {
        client,
        volume,
        path,
    };
    says(cursor, Line::Task(task))
}

#[tactic(auto, unfolding(crate::specs::Table::drain_form))]
pub fn drain(cursor: &mut Cursor) -> Result<Line, LineFault>
    ensures { Gives (λ l. l) result (read drain_form cursor.old) }
{
    let client = number(cursor, 1, 255)? as u8;
    let volume = number(cursor, 1, 4_294_967_295)? as u32;
    let server = number(cursor, 1, 8)? as u8;
    let window = window(cursor)?;
    let present = window.is_some();
    let task = Task::Drain {
        client,
        volume,
        server,
        window,
    };
    closes(cursor, present, Line::Task(task))
}

#[tactic(auto, unfolding(crate::specs::Table::refresh_form))]
pub fn refresh(cursor: &mut Cursor) -> Result<Line, LineFault>
    ensures { Gives (λ l. l) result (read refresh_form cursor.old) }
{
    let client = number(cursor, 1, 255)? as u8;
    let volume = number(cursor, 1, 4_294_967_295)? as u32;
    let server = number(cursor, 1, 8)? as u8;
    let task = Task::Refresh {
        client,
        volume,
        server,
    };
    says(cursor, Line::Task(task))
}

#[tactic(auto, unfolding(crate::specs::Table::giveup_form))]
pub fn giveup(cursor: &mut Cursor) -> Result<Line, LineFault>
    ensures { Gives (λ l. l) result (read giveup_form cursor.old) }
{
    let client = number(cursor, 1, 255)? as u8;
    let volume = number(cursor, 1, 4_294_967_295)? as u32;
    let task = Task::Giveup { client, volume };
    says(cursor, Line::Task(task))
}
