// A cell with the trace of its steps.
ghost use Rattle.std.specs.Prelude.{◌≡◌, ◌≢◌, ◌≤◌, ◌<◌, ◌+◌, ◌^◌, ℕ, true, false, List, [], length, Some, None, MatchOption, IfOk, OnErr, Err};
ghost use Rattle.coda_io.specs.Faults.{Rose};
ghost use Rattle.coda_script.specs.Ranges.{InRange};
ghost use Rattle.coda_cell.specs.Cells.{volume_at};
ghost use Rattle.coda_cell.specs.State.{ClientState, log_of, new_volume};
ghost use Rattle.coda_shelves.specs.Cells.{Cell as PlainCell, begun_on, shelves_of, state_of};
ghost use Rattle.coda_shelves.specs.Kept.{AreKept};
ghost use Rattle.coda_shelves.specs.Lines.{is_built, Happens, client_down, replica_down};
ghost use Rattle.coda_shelves.specs.Shelves.{Shelves};
ghost use Rattle.coda_site.specs.Makings.{asks_bay};
ghost use Rattle.coda_site.specs.Shelves.{Shows, Leads, AreOnDisks};
ghost use Rattle.coda_site.specs.Sites.{IsReady, IsClosable};
ghost use Rattle.coda_site.specs.Totals.{IsCounted, IsFault, has_armed, total, totals};
ghost use Rattle.coda_disk.specs.Bays.{plus};
ghost use Rattle.coda_trace.specs.Notes.{IsNoteOf, IsTraced};
ghost use Rattle.coda_trace.specs.Told.{AreSteps, GoesOn};

use crate::copying::copy_line;
use crate::event::{Event, Note};
use coda_cml::Log;
use coda_disk::Bay;
use coda_script::{Line, Refusal, Reply};
use coda_site::{Cell, CellFault};
use coda_tree::Volume;
use std::alloc::Global;

// What a step is noted as that has this reply.
fn note_of(reply: &Reply) -> Note
    ensures { IsNoteOf reply.now result }
{
    match reply {
        Reply::Recovered { entries } => Note::Recovered(*entries),
        Reply::Refused { refusal, args } => {
            if *refusal == Refusal::DiskFault && args.args().is_empty() {
                Note::Fault
            } else {
                Note::Plain
            }
        }
        _ => Note::Plain,
    }
}

/// A cell, and the trace of its steps: each line that was carried out, with what its step tells of disks. It grows with
/// the script, by a copy of each line.
#[derive(Drop)]
pub struct TracedCell<B: Bay> {
    /// The cell.
    pub cell: Cell<B>,
    /// The steps so far, in their order.
    pub events: Vec<Event>,
}

impl<B: Bay> TracedCell<B> {
    /// A cell in which nothing was made, with an empty trace. No number of the bay is out.
    pub fn new(alloc: Global, bay: B) -> TracedCell<B>
        requires { (number : ℕ) → B.out bay number ≡ false }
        ensures bay { result.cell.bay ≡ bay }
        ensures ready { IsReady B.D.told (B.out result.cell.bay) result.cell.site }
        ensures closable { IsClosable (B.out result.cell.bay) result.cell.site }
        ensures posted { result.cell.site.net.posted ≡ 0 }
        ensures empty { (result.cell.site.servers.items ≡ []) × (result.cell.site.areas ≡ 0) }
        ensures shelves { (shelves : Shelves) → AreKept shelves → AreOnDisks B.D.told (B.has result.cell.bay) shelves → Shows B.D.told (B.out result.cell.bay) (B.has result.cell.bay) (begun_on shelves) result.cell.site }
        ensures counts { totals B.D.told B.D.faults B.D.arms (B.disk_faults result.cell.bay) (B.disk_arms result.cell.bay) result.cell.site ≡ record { faults = plus (B.disk_faults bay) 0; arms = plus (B.disk_arms bay) 0 } }
        ensures untraced { result.events.items ≡ [] }
    {
        TracedCell {
            cell: Cell::new(alloc, bay),
            events: Vec::new(alloc),
        }
    }

    /// Carries out a line that is built, answers its reply, and adds the step to the trace. Memory for that is taken
    /// first, so a line that was answered is in the trace.
    ///
    /// # Errors
    ///
    /// `Memory`, and `Bay` where the bay refused a disk, or a crash. The trace is then as it was.
    pub fn step(&mut self, line: &Line) -> Result<Reply, CellFault>
        requires built { is_built line.now ≡ true }
        requires range { InRange line.now }
        requires ready { IsReady B.D.told (B.out self.old.cell.bay) self.old.cell.site }
        requires few { self.old.cell.site.net.posted < 2 ^ 63 }
        requires short { length self.old.events.items < 2 ^ 32 }
        ensures ready { result ≢ Err CellFault.Bay → IsReady B.D.told (B.out self.new.cell.bay) self.new.cell.site }
        ensures closable { IsClosable (B.out self.new.cell.bay) self.new.cell.site }
        ensures does { (plain : PlainCell) → Shows B.D.told (B.out self.old.cell.bay) (B.has self.old.cell.bay) plain self.old.cell.site
            → IfOk result (λ reply. Leads B.D.told (B.out self.new.cell.bay) (B.has self.new.cell.bay) (Happens plain line.now) reply (B.answered self.old.cell.bay) (B.answered self.new.cell.bay) self.new.cell.site) }
        ensures posted { self.new.cell.site.net.posted ≤ self.old.cell.site.net.posted + 1 }
        ensures later { B.faults self.old.cell.bay ≤ B.faults self.new.cell.bay }
        ensures bay_cause { result ≡ Err CellFault.Bay → Rose (B.faults self.old.cell.bay) (B.faults self.new.cell.bay) }
        ensures asked { result ≡ Err CellFault.Bay → asks_bay line.now ≡ true }
        ensures answered_err { OnErr result (B.answered self.new.cell.bay ≡ B.answered self.old.cell.bay) }
        ensures follows { B.follows self.old.cell.bay self.new.cell.bay }
        ensures counts { IsCounted (IsFault result) (has_armed line.now result) (totals B.D.told B.D.faults B.D.arms (B.disk_faults self.old.cell.bay) (B.disk_arms self.old.cell.bay) self.old.cell.site) (totals B.D.told B.D.faults B.D.arms (B.disk_faults self.new.cell.bay) (B.disk_arms self.new.cell.bay) self.new.cell.site) }
        ensures traced { IfOk result (λ reply. IsTraced line.now reply (totals B.D.told B.D.faults B.D.arms (B.disk_faults self.old.cell.bay) (B.disk_arms self.old.cell.bay) self.old.cell.site) (totals B.D.told B.D.faults B.D.arms (B.disk_faults self.new.cell.bay) (B.disk_arms self.new.cell.bay) self.new.cell.site) self.old.events.items self.new.events.items) }
        ensures untraced { OnErr result (self.new.events.items ≡ self.old.events.items) }

        // Where the trace has the steps of a run to a cell that the site shows, it has those of a run to what the line
        // leaves.
        ensures steps { (start plain : PlainCell) (images : List (List ℕ)) → Shows B.D.told (B.out self.old.cell.bay) (B.has self.old.cell.bay) plain self.old.cell.site
            → AreSteps start self.old.events.items images plain → IfOk result (λ _. GoesOn B.D.told (B.out self.new.cell.bay) (B.has self.new.cell.bay) start self.new.events.items images (B.answered self.old.cell.bay) (B.answered self.new.cell.bay) self.new.cell.site) }
    {
        self.events.reserve(1)?;
        let line_copy = copy_line(line)?;
        match self.cell.step(line) {
            Ok(reply) => {
                let event = Event {
                    line: line_copy,
                    note: note_of(&reply),
                };
                self.events.push_reserved(event);
                Ok(reply)
            }
            Err(fault) => {
                drop(line_copy);
                Err(fault)
            }
        }
    }

    /// The trace: the lines that were carried out, in their order, each with what its step tells of disks.
    pub fn trace(&self) -> &[Event]
        ensures { result.now ≡ self.now.events.items }
    {
        &self.events
    }

    /// Gives every disk back, and answers the bay. It takes no memory.
    pub fn close(self) -> B
        requires { IsClosable (B.out self.cell.bay) self.cell.site }
        ensures out { IsReady B.D.told (B.out self.cell.bay) self.cell.site → (number : ℕ) → B.out result number ≡ false }
        ensures shelves { (plain : PlainCell) → IsReady B.D.told (B.out self.cell.bay) self.cell.site → Shows B.D.told (B.out self.cell.bay) (B.has self.cell.bay) plain self.cell.site → AreOnDisks B.D.told (B.has result) (shelves_of plain) }
        ensures answered { B.answered result ≡ B.answered self.cell.bay }
        ensures faults { B.faults result ≡ B.faults self.cell.bay }
        ensures follows { B.follows self.cell.bay result }
        ensures faults_out { plus (B.disk_faults result) 0 ≡ total B.D.told B.D.faults (B.disk_faults self.cell.bay) self.cell.site }
        ensures arms_out { plus (B.disk_arms result) 0 ≡ total B.D.told B.D.arms (B.disk_arms self.cell.bay) self.cell.site }
    {
        self.cell.close()
    }

    /// The volume that a server has; `None` where it has none of this number, or is down.
    pub fn volume(&self, server: u8, volume: u32) -> Option<&Volume>
        ensures shown { (plain : PlainCell) → Shows B.D.told (B.out self.now.cell.bay) (B.has self.now.cell.bay) plain self.now.cell.site
            → replica_down plain server volume ≡ false
            → MatchOption result (volume_at ((state_of plain).replicas volume) server ≡ None) (λ tree. volume_at ((state_of plain).replicas volume) server ≡ Some tree.now) }
    {
        self.cell.volume(server, volume)
    }

    /// A client's log of a volume; `None` where the client isn't there or is down, or never had a log of the volume.
    pub fn log(&self, client: u8, volume: u32) -> Option<&Log>
        ensures shown { (plain : PlainCell) → Shows B.D.told (B.out self.now.cell.bay) (B.has self.now.cell.bay) plain self.now.cell.site
            → client_down plain client ≡ false → (c : ClientState) → (state_of plain).clients client ≡ Some c
            → MatchOption result (log_of (c.volumes volume) ≡ log_of new_volume) (λ log. log.now ≡ log_of (c.volumes volume)) }
    {
        self.cell.log(client, volume)
    }
}
