// The top call: a script is read, runs in a cell on the disks of a bay, and its report is written.
ghost use Rattle.std.specs.Prelude.{◌≡◌, ◌≢◌, ◌↔◌, ◌≤◌, ℕ, false, List, map};
ghost use Rattle.std.specs.String.{string_bytes};
ghost use Rattle.coda_io.specs.Faults.{Rose};
ghost use Rattle.coda_shelves.specs.Kept.{AreKept};
ghost use Rattle.coda_shelves.specs.Shelves.{Shelves};
ghost use Rattle.coda_site.specs.Shelves.{AreOnDisks};
ghost use Rattle.coda_disk.specs.Bays.{plus};
ghost use Rattle.coda_main.specs.Reported.{IsReport, IsReportOfLines};
ghost use Rattle.coda_main.specs.Tallies.{IsReportOfDisks};
ghost use Rattle.coda_main.specs.Lines.{IsRun};

use crate::lent::LentBay;
use crate::machine::CellMachine;
use coda_disk::Bay;
use coda_engine::{Status, run};
use coda_io::{Sink, Source};
use coda_site::Cell;
use std::alloc::Global;

// Runs the script that the source has in a cell on the disks of a bay, and answers the bay, to which all disks are
// given back that the cell has then.
fn run_and_close<S: Source, K: Sink, B: Bay + Drop>(
    alloc: Global,
    source: &mut S,
    sink: &mut K,
    bay: B,
) -> (Status, B)
    requires { (number : ℕ) → B.out bay number ≡ false }
    ensures report { (shelves : Shelves) → AreKept shelves → AreOnDisks B.D.told (B.has bay) shelves
        → IsReport B.D.told (B.has result.1) (B.answered bay) (B.answered result.1) (B.disk_faults bay) (B.disk_faults result.1) (B.disk_arms bay) (B.disk_arms result.1) (S.left source.old) (S.left source.new) (K.held sink.old) (K.held sink.new) result.0 shelves }
    ensures lines { IsReportOfLines (S.left source.old) (S.left source.new) (K.held sink.old) (K.held sink.new) result.0 }
    ensures disks { IsReportOfDisks (B.disk_faults bay) (B.disk_faults result.1) (B.disk_arms bay) (B.disk_arms result.1) (S.left source.old) (S.left source.new) (K.held sink.old) (K.held sink.new) result.0 }
    ensures disk_faults_later { plus (B.disk_faults bay) 0 ≤ B.disk_faults result.1 }
    ensures given_back { result.0 ≢ Status.Memory → result.0 ≢ Status.BayFault → (number : ℕ) → B.out result.1 number ≡ false }
    ensures source_fault { result.0 ≡ Status.SourceFault → Rose (S.faults source.old) (S.faults source.new) }
    ensures sink_fault { result.0 ≡ Status.SinkFault → Rose (K.faults sink.old) (K.faults sink.new) }
    ensures bay_fault { result.0 ≡ Status.BayFault → Rose (B.faults bay) (B.faults result.1) }
    ensures source_later { S.faults source.old ≤ S.faults source.new }
    ensures sink_later { K.faults sink.old ≤ K.faults sink.new }
    ensures bay_later { B.faults bay ≤ B.faults result.1 }
    ensures follows { B.follows bay result.1 }
{
    let mut machine = CellMachine {
        cell: Cell::new(alloc, bay),
    };
    let status = run(alloc, &mut machine, source, sink);
    (status, machine.cell.close())
}

// The same over a bay that is lent: what comes back is lent of the same bay.
fn run_lent<'a, S: Source, K: Sink, B: Bay>(
    alloc: Global,
    source: &mut S,
    sink: &mut K,
    lent: LentBay<'a, B>,
) -> (Status, LentBay<'a, B>)
    requires { (number : ℕ) → B.out lent.bay.now number ≡ false }
    ensures report { (shelves : Shelves) → AreKept shelves → AreOnDisks B.D.told (B.has lent.entry.bay.now) shelves
        → IsReport B.D.told (B.has result.1.bay.now) (B.answered lent.entry.bay.now) (B.answered result.1.bay.now) (B.disk_faults lent.entry.bay.now) (B.disk_faults result.1.bay.now) (B.disk_arms lent.entry.bay.now) (B.disk_arms result.1.bay.now) (S.left source.old) (S.left source.new) (K.held sink.old) (K.held sink.new) result.0 shelves }
    ensures lines { IsReportOfLines (S.left source.old) (S.left source.new) (K.held sink.old) (K.held sink.new) result.0 }
    ensures disks { IsReportOfDisks (B.disk_faults lent.entry.bay.now) (B.disk_faults result.1.bay.now) (B.disk_arms lent.entry.bay.now) (B.disk_arms result.1.bay.now) (S.left source.old) (S.left source.new) (K.held sink.old) (K.held sink.new) result.0 }
    ensures disk_faults_later { plus (B.disk_faults lent.entry.bay.now) 0 ≤ B.disk_faults result.1.bay.now }
    ensures given_back { result.0 ≢ Status.Memory → result.0 ≢ Status.BayFault → (number : ℕ) → B.out result.1.bay.now number ≡ false }
    ensures source_fault { result.0 ≡ Status.SourceFault → Rose (S.faults source.old) (S.faults source.new) }
    ensures sink_fault { result.0 ≡ Status.SinkFault → Rose (K.faults sink.old) (K.faults sink.new) }
    ensures bay_fault { result.0 ≡ Status.BayFault → Rose (B.faults lent.entry.bay.now) (B.faults result.1.bay.now) }
    ensures source_later { S.faults source.old ≤ S.faults source.new }
    ensures sink_later { K.faults sink.old ≤ K.faults sink.new }
    ensures bay_later { B.faults lent.entry.bay.now ≤ B.faults result.1.bay.now }
    ensures follows { B.follows lent.entry.bay.now result.1.bay.now }
    ensures same_reference { result.1.bay.ghost_name ≡ lent.entry.bay.ghost_name }
{
    run_and_close(alloc, source, sink, lent)
}

/// Runs the script that the source has, from an empty cell on the disks of a bay, and writes its report to the sink.
///
/// A cell is its disks: whatever stands on those of the bay, if it is kept, as each run leaves it and as disks are that hold nothing,
/// and whatever lines come, in whatever order they make actors, on whichever disks, whatever crashes and whatever disks fail, what was
/// written is the report of a run over it. That run keeps what is promised: each chunk is decided at most once, each decision is just, no
/// operation is lost, and none is done twice but where its volume is made on another disk than the one that decided it (Kistler and
/// Satyanarayanan 1992); no entry that stood on a disk is lost, whoever is made again; and each log is what cancellation leaves of what is
/// pending. Unless memory was wanting or the bay at fault, the disks then stand for what the run left, where the next one goes on.
///
/// All this is said of a bay whose disks stand for something, as honest disks do. What a file holds no contract knows: the promises on
/// disks say nothing of a bay of files, which is tested.
///
/// Over any bay, the status is that of the lines: each line that ran is built or says nothing, and one that ended the
/// run is refused. Unless memory was wanting, the bay's sum of the faults of disks rose by as many at least as the replies
/// tell, and its sum of `arm` calls by the lines that armed a disk; unless the bay was at fault too, it has all its disks again.
pub fn run_script<S: Source, K: Sink, B: Bay>(
    alloc: Global,
    source: &mut S,
    sink: &mut K,
    bay: &mut B,
) -> Status
    requires { (number : ℕ) → B.out bay.old number ≡ false }
    ensures report { (shelves : Shelves) → AreKept shelves → AreOnDisks B.D.told (B.has bay.old) shelves
        → IsReport B.D.told (B.has bay.new) (B.answered bay.old) (B.answered bay.new) (B.disk_faults bay.old) (B.disk_faults bay.new) (B.disk_arms bay.old) (B.disk_arms bay.new) (S.left source.old) (S.left source.new) (K.held sink.old) (K.held sink.new) result shelves }
    ensures lines { IsReportOfLines (S.left source.old) (S.left source.new) (K.held sink.old) (K.held sink.new) result }
    ensures disks { IsReportOfDisks (B.disk_faults bay.old) (B.disk_faults bay.new) (B.disk_arms bay.old) (B.disk_arms bay.new) (S.left source.old) (S.left source.new) (K.held sink.old) (K.held sink.new) result }
    ensures disk_faults_later { plus (B.disk_faults bay.old) 0 ≤ B.disk_faults bay.new }
    ensures given_back { result ≢ Status.Memory → result ≢ Status.BayFault → (number : ℕ) → B.out bay.new number ≡ false }
    ensures source_fault { result ≡ Status.SourceFault → Rose (S.faults source.old) (S.faults source.new) }
    ensures sink_fault { result ≡ Status.SinkFault → Rose (K.faults sink.old) (K.faults sink.new) }
    ensures bay_fault { result ≡ Status.BayFault → Rose (B.faults bay.old) (B.faults bay.new) }
    ensures source_later { S.faults source.old ≤ S.faults source.new }
    ensures sink_later { K.faults sink.old ≤ K.faults sink.new }
    ensures bay_later { B.faults bay.old ≤ B.faults bay.new }
    ensures follows { B.follows bay.old bay.new }
{
    let (status, lent) = run_lent(alloc, source, sink, LentBay { bay });
    let _bay = lent.bay;
    status
}

/// Does what the words of a command line ask for. The one word `run` runs the script that the source has; all other
/// words are `Usage`, and then nothing is read or written, and no disk is taken.
pub fn coda<S: Source, K: Sink, B: Bay>(
    alloc: Global,
    words: &[String],
    source: &mut S,
    sink: &mut K,
    bay: &mut B,
) -> Status
    requires { (number : ℕ) → B.out bay.old number ≡ false }
    ensures usage { (result ≡ Status.Usage) ↔ ¬ IsRun (map string_bytes words.now) }
    ensures unused { result ≡ Status.Usage → (source.new ≡ source.old) × (sink.new ≡ sink.old) × (bay.new ≡ bay.old) }
    ensures report { IsRun (map string_bytes words.now) → (shelves : Shelves) → AreKept shelves → AreOnDisks B.D.told (B.has bay.old) shelves
        → IsReport B.D.told (B.has bay.new) (B.answered bay.old) (B.answered bay.new) (B.disk_faults bay.old) (B.disk_faults bay.new) (B.disk_arms bay.old) (B.disk_arms bay.new) (S.left source.old) (S.left source.new) (K.held sink.old) (K.held sink.new) result shelves }
    ensures lines { IsRun (map string_bytes words.now) → IsReportOfLines (S.left source.old) (S.left source.new) (K.held sink.old) (K.held sink.new) result }
    ensures disks { IsRun (map string_bytes words.now) → IsReportOfDisks (B.disk_faults bay.old) (B.disk_faults bay.new) (B.disk_arms bay.old) (B.disk_arms bay.new) (S.left source.old) (S.left source.new) (K.held sink.old) (K.held sink.new) result }
    ensures disk_faults_later { plus (B.disk_faults bay.old) 0 ≤ B.disk_faults bay.new }
    ensures given_back { result ≢ Status.Memory → result ≢ Status.BayFault → (number : ℕ) → B.out bay.new number ≡ false }
    ensures source_fault { result ≡ Status.SourceFault → Rose (S.faults source.old) (S.faults source.new) }
    ensures sink_fault { result ≡ Status.SinkFault → Rose (K.faults sink.old) (K.faults sink.new) }
    ensures bay_fault { result ≡ Status.BayFault → Rose (B.faults bay.old) (B.faults bay.new) }
    ensures source_later { S.faults source.old ≤ S.faults source.new }
    ensures sink_later { K.faults sink.old ≤ K.faults sink.new }
    ensures bay_later { B.faults bay.old ≤ B.faults bay.new }
    ensures follows { B.follows bay.old bay.new }
{
    match words {
        [word] if word.as_str() == "run" => run_script(alloc, source, sink, bay),
        _ => Status::Usage,
    }
}
