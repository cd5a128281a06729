// The forms of hoarding, messages, callbacks, disks and replicas.
ghost use Rattle.std.specs.Prelude.{◌≡◌};
ghost use Rattle.coda_script.specs.Reading.{read};
ghost use Rattle.coda_script.specs.Table.{hoard_add_form, hoard_form, walk_form, send_form, deliver_form, lose_form, breaks_form, crash_form, recover_form, arm_form, resolve_form, repair_form, show_form};
ghost use Rattle.coda_script.specs.Outcome.{Gives};

use crate::options::{closes, says, window};
use crate::servers::servers_above;
use crate::slots::{ends, number, path, takes, wrong};
use crate::{Expansion, Line, LineFault, Servers};
use coda_engine::Kind;
use coda_fid::Path;
use coda_text::Cursor;
use std::alloc::Global;

fn hoard_entry(client: u8, volume: u32, path: Path, priority: u16, expansion: Expansion) -> Line
    ensures { result ≡ Line.HoardAdd client volume path priority expansion }
{
    Line::HoardAdd {
        client,
        volume,
        path,
        priority,
        expansion,
    }
}

#[tactic(auto, unfolding(crate::specs::Table::hoard_add_form))]
fn hoard_add(alloc: Global, cursor: &mut Cursor) -> Result<Line, LineFault>
    ensures { Gives (λ l. l) result (read hoard_add_form cursor.old) }
{
    let client = number(cursor, 1, 255)? as u8;
    let volume = number(cursor, 1, 4_294_967_295)? as u32;
    let path = path(alloc, cursor)?;
    let priority = number(cursor, 1, 1000)? as u16;
    if takes(cursor, b"children") {
        let line = hoard_entry(client, volume, path, priority, Expansion::Children);
        return says(cursor, line);
    }
    if takes(cursor, b"descendants") {
        let line = hoard_entry(client, volume, path, priority, Expansion::Descendants);
        return says(cursor, line);
    }
    let line = hoard_entry(client, volume, path, priority, Expansion::Alone);
    ends(cursor, Kind::Word, line)
}

#[tactic(auto, unfolding(crate::specs::Table::hoard_form))]
pub fn hoard(alloc: Global, cursor: &mut Cursor) -> Result<Line, LineFault>
    ensures { Gives (λ l. l) result (read hoard_form cursor.old) }
{
    if takes(cursor, b"add") {
        return hoard_add(alloc, cursor);
    }
    let line = if takes(cursor, b"remove") {
        let client = number(cursor, 1, 255)? as u8;
        let volume = number(cursor, 1, 4_294_967_295)? as u32;
        let path = path(alloc, cursor)?;
        Line::HoardRemove {
            client,
            volume,
            path,
        }
    } else if takes(cursor, b"clear") {
        let client = number(cursor, 1, 255)? as u8;
        Line::HoardClear { client }
    } else if takes(cursor, b"list") {
        let client = number(cursor, 1, 255)? as u8;
        Line::HoardList { client }
    } else {
        return wrong(cursor);
    };
    says(cursor, line)
}

#[tactic(auto, unfolding(crate::specs::Table::walk_form))]
pub fn walk(cursor: &mut Cursor) -> Result<Line, LineFault>
    ensures { Gives (λ l. l) result (read walk_form cursor.old) }
{
    let client = number(cursor, 1, 255)? as u8;
    let volume = number(cursor, 1, 4_294_967_295)? as u32;
    says(cursor, Line::Walk { client, volume })
}

#[tactic(auto, unfolding(crate::specs::Table::send_form))]
pub fn send(cursor: &mut Cursor) -> Result<Line, LineFault>
    ensures { Gives (λ l. l) result (read send_form cursor.old) }
{
    let client = number(cursor, 1, 255)? as u8;
    let volume = number(cursor, 1, 4_294_967_295)? as u32;
    let server = number(cursor, 1, 8)? as u8;
    let window = window(cursor)?;
    let present = window.is_some();
    let line = Line::Send {
        client,
        volume,
        server,
        window,
    };
    closes(cursor, present, line)
}

#[tactic(auto, unfolding(crate::specs::Table::deliver_form))]
pub fn deliver(cursor: &mut Cursor) -> Result<Line, LineFault>
    ensures { Gives (λ l. l) result (read deliver_form cursor.old) }
{
    let message = number(cursor, 0, u64::MAX)?;
    says(cursor, Line::Deliver { message })
}

#[tactic(auto, unfolding(crate::specs::Table::lose_form))]
pub fn lose(cursor: &mut Cursor) -> Result<Line, LineFault>
    ensures { Gives (λ l. l) result (read lose_form cursor.old) }
{
    let message = number(cursor, 0, u64::MAX)?;
    says(cursor, Line::Lose { message })
}

#[tactic(auto, unfolding(crate::specs::Table::breaks_form))]
pub fn breaks(cursor: &mut Cursor) -> Result<Line, LineFault>
    ensures { Gives (λ l. l) result (read breaks_form cursor.old) }
{
    let server = number(cursor, 1, 8)? as u8;
    let volume = number(cursor, 1, 4_294_967_295)? as u32;
    says(cursor, Line::Breaks { server, volume })
}

#[tactic(auto, unfolding(crate::specs::Table::crash_form))]
pub fn crash(cursor: &mut Cursor) -> Result<Line, LineFault>
    ensures { Gives (λ l. l) result (read crash_form cursor.old) }
{
    let line = if takes(cursor, b"client") {
        let client = number(cursor, 1, 255)? as u8;
        let choice = number(cursor, 0, u64::MAX)?;
        Line::CrashClient { client, choice }
    } else if takes(cursor, b"replica") {
        let server = number(cursor, 1, 8)? as u8;
        let volume = number(cursor, 1, 4_294_967_295)? as u32;
        let choice = number(cursor, 0, u64::MAX)?;
        Line::CrashReplica {
            server,
            volume,
            choice,
        }
    } else {
        return wrong(cursor);
    };
    says(cursor, line)
}

#[tactic(auto, unfolding(crate::specs::Table::recover_form))]
pub fn recover(cursor: &mut Cursor) -> Result<Line, LineFault>
    ensures { Gives (λ l. l) result (read recover_form cursor.old) }
{
    let line = if takes(cursor, b"client") {
        let client = number(cursor, 1, 255)? as u8;
        Line::RecoverClient { client }
    } else if takes(cursor, b"replica") {
        let server = number(cursor, 1, 8)? as u8;
        let volume = number(cursor, 1, 4_294_967_295)? as u32;
        Line::RecoverReplica { server, volume }
    } else {
        return wrong(cursor);
    };
    says(cursor, line)
}

#[tactic(auto, unfolding(crate::specs::Table::arm_form))]
pub fn arm(cursor: &mut Cursor) -> Result<Line, LineFault>
    ensures { Gives (λ l. l) result (read arm_form cursor.old) }
{
    let line = if takes(cursor, b"client") {
        let client = number(cursor, 1, 255)? as u8;
        let passes = number(cursor, 0, u64::MAX)?;
        Line::ArmClient { client, passes }
    } else if takes(cursor, b"replica") {
        let server = number(cursor, 1, 8)? as u8;
        let volume = number(cursor, 1, 4_294_967_295)? as u32;
        let passes = number(cursor, 0, u64::MAX)?;
        Line::ArmReplica {
            server,
            volume,
            passes,
        }
    } else {
        return wrong(cursor);
    };
    says(cursor, line)
}

#[tactic(auto, unfolding(crate::specs::Table::resolve_form))]
pub fn resolve(alloc: Global, cursor: &mut Cursor) -> Result<Line, LineFault>
    ensures { Gives (λ l. l) result (read resolve_form cursor.old) }
{
    let volume = number(cursor, 1, 4_294_967_295)? as u32;
    let first = number(cursor, 1, 8)? as u8;
    let second = number(cursor, u64::from(first) + 1, 8)? as u8;
    let mut items = servers_above(alloc, cursor, second, true)?;
    items.insert(0, second)?;
    items.insert(0, first)?;
    let line = Line::Resolve {
        volume,
        servers: Servers { items },
    };
    says(cursor, line)
}

#[tactic(auto, unfolding(crate::specs::Table::repair_form))]
pub fn repair(alloc: Global, cursor: &mut Cursor) -> Result<Line, LineFault>
    ensures { Gives (λ l. l) result (read repair_form cursor.old) }
{
    let volume = number(cursor, 1, 4_294_967_295)? as u32;
    let server = number(cursor, 1, 8)? as u8;
    let path = path(alloc, cursor)?;
    let line = Line::Repair {
        volume,
        server,
        path,
    };
    says(cursor, line)
}

#[tactic(auto, unfolding(crate::specs::Table::show_form))]
pub fn show(cursor: &mut Cursor) -> Result<Line, LineFault>
    ensures { Gives (λ l. l) result (read show_form cursor.old) }
{
    let line = if takes(cursor, b"volume") {
        let server = number(cursor, 1, 8)? as u8;
        let volume = number(cursor, 1, 4_294_967_295)? as u32;
        Line::ShowVolume { server, volume }
    } else if takes(cursor, b"log") {
        let client = number(cursor, 1, 255)? as u8;
        let volume = number(cursor, 1, 4_294_967_295)? as u32;
        Line::ShowLog { client, volume }
    } else if takes(cursor, b"state") {
        let client = number(cursor, 1, 255)? as u8;
        let volume = number(cursor, 1, 4_294_967_295)? as u32;
        Line::ShowState { client, volume }
    } else {
        return wrong(cursor);
    };
    says(cursor, line)
}
