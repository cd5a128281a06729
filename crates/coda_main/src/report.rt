// The texts of replies, in the cell that a line left.
ghost use Rattle.std.specs.Prelude.{◌≡◌, false, [], Some, IfOk};
ghost use Rattle.coda_cell.specs.Cells.{volume_at};
ghost use Rattle.coda_cell.specs.State.{ClientState};
ghost use Rattle.coda_shelves.specs.Cells.{Cell as PlainCell, state_of};
ghost use Rattle.coda_shelves.specs.Lines.{client_down, replica_down};
ghost use Rattle.coda_site.specs.Shelves.{Shows};
ghost use Rattle.coda_runs.specs.Shown.{CanShow};
ghost use Rattle.coda_script.specs.declared.reply.Reply.TheVariants.{ShowVolume, ShowLog};
ghost use Rattle.coda_main.specs.Tallies.{IsText};
ghost use Rattle.coda_runs.specs.Texts.{shown_volume, shown_log, text_of};

use coda_cml::Log;
use coda_disk::Bay;
use coda_fid::Bytes;
use coda_report::{log_text, reply_text, volume_text};
use coda_script::Reply;
use coda_site::Cell;
use std::alloc::{AllocError, Global};

fn no_text(alloc: Global) -> Bytes
    ensures { result ≡ [] }
{
    Bytes::from_vec(Vec::new(alloc))
}

// The volume that a server has.
fn volume_shown<B: Bay>(
    alloc: Global,
    cell: &Cell<B>,
    server: u8,
    volume: u32,
) -> Result<Bytes, AllocError>
    ensures said { IfOk result (λ text. IsText (ShowVolume server volume) text) }
    ensures shown { IfOk result (λ text. (plain : PlainCell) → Shows B.D.told (B.out cell.now.bay) (B.has cell.now.bay) plain cell.now.site
        → replica_down plain server volume ≡ false → text ≡ shown_volume server (volume_at ((state_of plain).replicas volume) server)) }
{
    match cell.volume(server, volume) {
        Some(tree) => volume_text(alloc, tree, server),
        None => Ok(no_text(alloc)),
    }
}

// The log that a client has of a volume.
fn log_shown<B: Bay>(
    alloc: Global,
    cell: &Cell<B>,
    client: u8,
    volume: u32,
) -> Result<Bytes, AllocError>
    ensures said { IfOk result (λ text. IsText (ShowLog client volume) text) }
    ensures shown { IfOk result (λ text. (plain : PlainCell) → Shows B.D.told (B.out cell.now.bay) (B.has cell.now.bay) plain cell.now.site
        → client_down plain client ≡ false → (c : ClientState) → (state_of plain).clients client ≡ Some c → text ≡ shown_log (Some c) volume) }
{
    match cell.log(client, volume) {
        Some(log) => log_text(alloc, log),
        None => log_text(alloc, &Log::new(alloc)),
    }
}

/// The text of a reply in the cell that the line left.
pub fn text_of<B: Bay>(alloc: Global, cell: &Cell<B>, reply: &Reply) -> Result<Bytes, AllocError>
    ensures said { IfOk result (λ text. IsText reply.now text) }
    ensures printed { IfOk result (λ text. (plain : PlainCell) → Shows B.D.told (B.out cell.now.bay) (B.has cell.now.bay) plain cell.now.site
        → CanShow plain reply.now → text ≡ text_of (state_of plain) reply.now) }
{
    match reply {
        Reply::ShowVolume { server, volume } => volume_shown(alloc, cell, *server, *volume),
        Reply::ShowLog { client, volume } => log_shown(alloc, cell, *client, *volume),
        _ => reply_text(alloc, reply),
    }
}
