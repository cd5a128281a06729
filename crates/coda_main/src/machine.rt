// The cell as a machine that runs the lines of a script.
ghost use Rattle.std.specs.Prelude.{◌≡◌, ◌<◌, ◌≤◌, ◌+◌, ◌^◌, true, IfOk, IfErr, OnOk, IfSome, Ok, Err};
ghost use Rattle.coda_io.specs.Faults.{Rose};
ghost use Rattle.coda_script.specs.Lines.{line_of};
ghost use Rattle.coda_script.specs.Ranges.{InRange};
ghost use Rattle.coda_script.specs.declared.reply.Reply.{Reply};
ghost use Rattle.coda_shelves.specs.Cells.{Cell as PlainCell};
ghost use Rattle.coda_shelves.specs.Lines.{is_built};
ghost use Rattle.coda_site.specs.Makings.{asks_bay};
ghost use Rattle.coda_site.specs.Shelves.{Shows};
ghost use Rattle.coda_site.specs.Totals.{IsCounted, IsFault, has_armed, total, totals};
ghost use Rattle.coda_main.specs.Reported.{Answered};
ghost use Rattle.coda_main.specs.Shows.{BreaksOff, moment, MayGoOn, MayClose, StopsSo, StopsWithin, stop_at};
ghost use Rattle.coda_main.specs.Tallies.{IsText};

use crate::report::text_of;
use coda_disk::Bay;
use coda_engine::{Kind, LineFault, LineStop, Machine};
use coda_script::{Line, read_line};
use coda_site::{Cell, CellFault, asks_bay, is_built};
use std::alloc::Global;

/// How a line is refused that isn't built, or that the command doesn't take: at its first column.
const NOT_BUILT: LineStop = LineStop::Refused(LineFault {
    column: 1,
    kind: Kind::Mode,
});

/// A cell on the disks of a bay that runs lines.
#[derive(Drop)]
pub struct CellMachine<B: Bay> {
    /// The cell, with what the lines so far left of it.
    pub cell: Cell<B>,
}

// Why a line was not read.
fn stop_of(fault: coda_script::LineFault) -> LineStop
    ensures { result ≡ stop_at fault }
{
    match fault {
        coda_script::LineFault::BadLine { column, kind } => match u32::try_from(column) {
            Ok(column) => LineStop::Refused(LineFault { column, kind }),
            Err(_) => LineStop::Memory,
        },
        coda_script::LineFault::Memory => LineStop::Memory,
    }
}

// Lets a line go. Taking any line apart takes a large frame: this is kept out of the way of tasks, which are most lines.
#[cold]
#[inline(never)]
fn let_go(_said: Line) {}

// Lets a line go that was carried out.
fn done_with(said: Line) {
    match said {
        Line::Task(task) => drop(task),
        other => let_go(other),
    }
}

// What a line says, which is then built; nothing where it is silent.
fn built_line(alloc: Global, line: &[u8]) -> Result<Option<Line>, LineStop>
    ensures spelled { IfOk result (λ o. line_of line.now ≡ Ok o) }
    ensures built { IfOk result (λ o. IfSome o (λ said. is_built said ≡ true)) }
    ensures ranges { IfOk result (λ o. IfSome o InRange) }
    ensures refused { IfErr result (StopsSo line.now) }
{
    match read_line(alloc, line) {
        Ok(Some(said)) => {
            if is_built(&said) {
                Ok(Some(said))
            } else {
                let_go(said);
                Err(NOT_BUILT)
            }
        }
        Ok(None) => Ok(None),
        Err(fault) => Err(stop_of(fault)),
    }
}

// Carries out a line that is built, and writes its reply in the cell that it leaves.
fn answer<B: Bay>(alloc: Global, cell: &mut Cell<B>, said: &Line) -> Result<Vec<u8>, LineStop>
    requires built { is_built said.now ≡ true }
    requires range { InRange said.now }
    requires goes_on { MayGoOn B.D.told (moment (B.out cell.old.bay) (B.has cell.old.bay) (B.answered cell.old.bay) cell.old.site) }
    requires few { cell.old.site.net.posted < 2 ^ 63 }
    ensures goes_on { OnOk result (MayGoOn B.D.told (moment (B.out cell.new.bay) (B.has cell.new.bay) (B.answered cell.new.bay) cell.new.site)) }
    ensures closable { MayClose (moment (B.out cell.new.bay) (B.has cell.new.bay) (B.answered cell.new.bay) cell.new.site) }
    ensures answered { IfOk result (λ text. (reply : Reply) × IsText reply text.items × IsCounted (IsFault (Ok reply)) (has_armed said.now (Ok reply)) (totals B.D.told B.D.faults B.D.arms (B.disk_faults cell.old.bay) (B.disk_arms cell.old.bay) cell.old.site) (totals B.D.told B.D.faults B.D.arms (B.disk_faults cell.new.bay) (B.disk_arms cell.new.bay) cell.new.site)
        × ((plain : PlainCell) → Shows B.D.told (B.out cell.old.bay) (B.has cell.old.bay) plain cell.old.site
        → Answered B.D.told plain said.now reply text.items (moment (B.out cell.old.bay) (B.has cell.old.bay) (B.answered cell.old.bay) cell.old.site) (moment (B.out cell.new.bay) (B.has cell.new.bay) (B.answered cell.new.bay) cell.new.site))) }
    ensures stopped { IfErr result StopsWithin }
    ensures posted { cell.new.site.net.posted ≤ cell.old.site.net.posted + 1 }
    ensures later { B.faults cell.old.bay ≤ B.faults cell.new.bay }
    ensures bay_cause { result ≡ Err LineStop.Bay → Rose (B.faults cell.old.bay) (B.faults cell.new.bay) }
    ensures asked { result ≡ Err LineStop.Bay → asks_bay said.now ≡ true }
    ensures broken { result ≡ Err LineStop.Bay → BreaksOff (moment (B.out cell.old.bay) (B.has cell.old.bay) (B.answered cell.old.bay) cell.old.site) (totals B.D.told B.D.faults B.D.arms (B.disk_faults cell.old.bay) (B.disk_arms cell.old.bay) cell.old.site) (moment (B.out cell.new.bay) (B.has cell.new.bay) (B.answered cell.new.bay) cell.new.site) (totals B.D.told B.D.faults B.D.arms (B.disk_faults cell.new.bay) (B.disk_arms cell.new.bay) cell.new.site) }
    ensures follows { B.follows cell.old.bay cell.new.bay }
    ensures faults_later { total B.D.told B.D.faults (B.disk_faults cell.old.bay) cell.old.site ≤ total B.D.told B.D.faults (B.disk_faults cell.new.bay) cell.new.site }
{
    let reply = match cell.step(said) {
        Ok(reply) => reply,
        Err(CellFault::Bay) => return Err(LineStop::Bay),
        Err(CellFault::Memory) => return Err(LineStop::Memory),
    };
    match text_of(alloc, cell, &reply) {
        Ok(text) => Ok(text.into_vec()),
        Err(_) => Err(LineStop::Memory),
    }
}

impl<B: Bay> Machine for CellMachine<B> {
    ghost use Rattle.coda_main.specs.Lines.{AsksBay};
    ghost use Rattle.coda_main.specs.Reported.{Ran};
    ghost use Rattle.coda_main.specs.Shows.{BreaksOff, MayRun};
    ghost use Rattle.coda_runs.specs.Shelved.{IsBadLine};
    ghost use Rattle.coda_site.specs.Totals.{total, totals};
    ghost use Rattle.std.proofs.Math.Nat.{le_refl, le_trans};

    ghost gives = { λ old line text outside new. Ran B.D.told (moment (B.out old.cell.bay) (B.has old.cell.bay) (B.answered old.cell.bay) old.cell.site) (totals B.D.told B.D.faults B.D.arms (B.disk_faults old.cell.bay) (B.disk_arms old.cell.bay) old.cell.site) line text outside (moment (B.out new.cell.bay) (B.has new.cell.bay) (B.answered new.cell.bay) new.cell.site) (totals B.D.told B.D.faults B.D.arms (B.disk_faults new.cell.bay) (B.disk_arms new.cell.bay) new.cell.site) };

    ghost refuses = { λ machine line column kind. IsBadLine line column kind };

    ghost faults = { λ machine. B.faults machine.cell.bay };

    ghost asks = { λ line. AsksBay line };

    ghost breaks = { λ old new. BreaksOff (moment (B.out old.cell.bay) (B.has old.cell.bay) (B.answered old.cell.bay) old.cell.site) (totals B.D.told B.D.faults B.D.arms (B.disk_faults old.cell.bay) (B.disk_arms old.cell.bay) old.cell.site) (moment (B.out new.cell.bay) (B.has new.cell.bay) (B.answered new.cell.bay) new.cell.site) (totals B.D.told B.D.faults B.D.arms (B.disk_faults new.cell.bay) (B.disk_arms new.cell.bay) new.cell.site) };

    ghost ready = { λ machine lines. MayRun B.D.told (moment (B.out machine.cell.bay) (B.has machine.cell.bay) (B.answered machine.cell.bay) machine.cell.site) lines };

    ghost follows = { λ old new. (MayClose (moment (B.out old.cell.bay) (B.has old.cell.bay) (B.answered old.cell.bay) old.cell.site) → MayClose (moment (B.out new.cell.bay) (B.has new.cell.bay) (B.answered new.cell.bay) new.cell.site)) × B.follows old.cell.bay new.cell.bay × (total B.D.told B.D.faults (B.disk_faults old.cell.bay) old.cell.site ≤ total B.D.told B.D.faults (B.disk_faults new.cell.bay) new.cell.site) };

    ghost same = { λ a. ((λ closable. closable), B.same a.cell.bay, le_refl (total B.D.told B.D.faults (B.disk_faults a.cell.bay) a.cell.site)) };

    ghost then = { λ a b c f g. ((λ closable. g.0 (f.0 closable)), B.then a.cell.bay b.cell.bay c.cell.bay f.1 g.1, le_trans f.2 g.2) };

    fn run(&mut self, alloc: Global, line: &[u8], waits: bool) -> Result<Vec<u8>, LineStop> {
        match built_line(alloc, line) {
            Ok(Some(said)) => {
                if waits && asks_bay(&said) {
                    let_go(said);
                    return Err(LineStop::Unwritten);
                }
                let text = answer(alloc, &mut self.cell, &said);
                done_with(said);
                text
            }
            Ok(None) => Ok(Vec::new(alloc)),
            Err(stop) => Err(stop),
        }
    }
}
