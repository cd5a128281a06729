// A client that is recovered from its disk.
ghost use Rattle.std.specs.Prelude.{◌≡◌, ◌≢◌, ℕ, ◌≤◌, false, IfOk, IfErr};
ghost use Rattle.coda_io.specs.Faults.{Rose};
ghost use Rattle.coda_journal.specs.Header.{IsHeader};
ghost use Rattle.coda_journal.specs.declared.header.Kind.TheVariants.{Client as OfClient};

use crate::recovering::client_of;
use crate::venus::Venus;
use coda_disk::Disk;
use coda_journal::{Header, Journal, MountFault, Unmounted};
use std::alloc::Global;

impl<D: Disk> Venus<D> {
    ghost use Rattle.coda_venus.specs.Recovering.{Recovered, NotRecovered};
    ghost use Rattle.coda_venus.specs.Standing.{IsClientDisk};

    /// The client on a disk, with the state that its payloads leave, and how many payloads there are. A disk that isn't made becomes
    /// that of a client that holds nothing. It costs the bytes of the payloads, and what their entries cost anew.
    ///
    /// # Errors
    ///
    /// The disk is given back. `Foreign` where it holds no journal under this header, or a payload that can't follow those before
    /// it, with the place of its gate, and never for a disk on which clients with this header alone wrote; `DiskFault` where a call
    /// of the disk was refused; `Memory`.
    pub fn recover(alloc: Global, disk: D, header: &Header) -> Result<(Venus<D>, u64), Unmounted<D>>
        requires header { IsHeader header.now }
        requires kind { header.now.kind ≡ OfClient }
        ensures ok { (D.told disk).honest → IfOk result (λ r. Recovered D.told header.now disk r.0 r.1) }
        ensures err { (D.told disk).honest → IfErr result (λ u. NotRecovered header.now (D.told disk) (D.told u.disk) u.why) }
        // What the disk's law says of it, for a caller that has the disk's type from a bay.
        ensures seen { (D.told disk).honest → (D.told disk).may_leave (D.told disk).seen }
        ensures never_foreign { (D.told disk).honest → IsClientDisk header.now (D.told disk) → IfErr result (λ u. (at : ℕ) → u.why ≢ MountFault.Foreign at) }
        ensures ours { (D.told disk).honest → IsClientDisk header.now (D.told disk) → IfErr result (λ u. IsClientDisk header.now (D.told u.disk)) }
        ensures up { IfOk result (λ r. r.0.down ≡ false) }
        ensures later { IfOk result (λ r. D.faults disk ≤ D.faults r.0.journal.disk) }
        ensures later_err { IfErr result (λ u. D.faults disk ≤ D.faults u.disk) }
        ensures cause { IfErr result (λ u. u.why ≡ MountFault.DiskFault → Rose (D.faults disk) (D.faults u.disk)) }
        ensures arms { IfOk result (λ r. D.arms r.0.journal.disk ≡ D.arms disk) }
        ensures arms_err { IfErr result (λ u. D.arms u.disk ≡ D.arms disk) }
    {
        let (journal, payloads) = Journal::mount(alloc, disk, header)?;
        match client_of(alloc, header, &payloads, journal.start) {
            Ok(client) => {
                let venus = Venus {
                    journal,
                    client,
                    down: false,
                };
                Ok((venus, payloads.len() as u64))
            }
            Err(why) => Err(Unmounted {
                disk: journal.into_disk(),
                why,
            }),
        }
    }
}
