ghost use Rattle.std.specs.Prelude.{ℕ, List, Some};
ghost use Rattle.coda_disk.specs.Bays.{Crashed};
ghost use Rattle.coda_journal.specs.declared.header.Header.{Header as AskedHeader};
ghost use Rattle.coda_venus.specs.History.{Payload};
ghost use Rattle.coda_venus.specs.Laws.{LogsAreFolds};
ghost use Rattle.coda_venus.specs.Standing.{IsUp, StandsFor, IsClientDisk};

use crate::venus::Venus;
use coda_disk::Disk;

/// A law of disks: each image that a crash may leave of the disk of a client that is up reads as a history under its header, and so
/// does each that one may leave after a call of the disk failed, and after a crash of a disk of which that was so.
pub fn clients_stay_ours<D: Disk>(venus: &Venus<D>, crashed: &D)
    ensures up { (header : AskedHeader) (history : List Payload) → IsUp D.told header venus.now history → IsClientDisk header (D.told venus.now.journal.disk) }
    ensures failed { (header : AskedHeader) (history : List Payload) (payload : Payload) → StandsFor (D.told venus.now.journal.disk) header history (Some payload)
        → IsClientDisk header (D.told venus.now.journal.disk) }
    ensures crash { (header : AskedHeader) (image : List ℕ) → IsClientDisk header (D.told venus.now.journal.disk)
        → Crashed image (D.told venus.now.journal.disk) (D.told crashed.now) → IsClientDisk header (D.told crashed.now) }
{}

/// A law of logs: while what is pending is a steady run, the log is what cancellation leaves of it: of the operations that are frozen,
/// and of those behind them (Mummert, Ebling and Satyanarayanan 1995).
pub fn logs_are_folds()
    ensures { LogsAreFolds }
{}
