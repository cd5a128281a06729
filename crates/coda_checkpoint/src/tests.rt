ghost use Rattle.coda_journal.specs.Header.{IsHeader};

use crate::Store;
use coda_disk::MemDisk;
use coda_fid::Bytes;
use coda_journal::{Frame, Header, JournalFault, Kind};
use std::alloc::Global;
use std::test::Fail;

const ENTRY: &[u8] = b"entry";

const SNAPSHOT: &[u8] = b"snapshot";

// The list that is found once a disk is mounted again.
#[derive(Clone, Copy, Debug, PartialEq, Eq)]
enum Found {
    Old,
    Snapshot,
    Other,
}

// After so many calls of the disk a truncation is stopped, and by this choice the disk crashes: what is found then.
const STOPS: [(u64, u64, Found); 10] = [
    (0, 0, Found::Old),
    (0, 1, Found::Old),
    (1, 0, Found::Old),
    (1, 1, Found::Old),
    (2, 0, Found::Old),
    (2, 1, Found::Snapshot),
    (3, 0, Found::Old),
    (3, 1, Found::Snapshot),
    (4, 0, Found::Snapshot),
    (4, 1, Found::Snapshot),
];

// A client's header, with areas of one MiB.
fn header() -> Header
    ensures { IsHeader result }
{
    Header {
        kind: Kind::Client,
        number: 1,
        server: 0,
        group: 0,
        area: 1,
        cache: 100,
    }
}

fn mounted(alloc: Global, image: Vec<u8>) -> Option<(Store<MemDisk>, Vec<Bytes>)> {
    let disk = MemDisk::new(alloc, image, Vec::new(alloc)).ok()?;
    Store::mount(alloc, disk, &header()).ok()
}

// A store with two entries, in the first area, or behind a truncation in the second one.
fn with_two_entries(alloc: Global, in_second: bool) -> Option<Store<MemDisk>> {
    let (mut store, _) = mounted(alloc, Vec::new(alloc))?;
    let entry = Frame::new(alloc, ENTRY).ok()?;
    if in_second {
        store.truncate(&entry).ok()?;
    } else {
        store.append(&entry).ok()?;
    }
    store.append(&entry).ok()?;
    Some(store)
}

fn found_in(payloads: &[Bytes]) -> Found {
    match payloads {
        [first, second] if first.bytes() == ENTRY && second.bytes() == ENTRY => Found::Old,
        [only] if only.bytes() == SNAPSHOT => Found::Snapshot,
        _ => Found::Other,
    }
}

// Whether the truncation was done, and what is found.
fn stopped(alloc: Global, in_second: bool, passes: u64, choice: u64) -> Option<(bool, Found)> {
    let mut store = with_two_entries(alloc, in_second)?;
    let snapshot = Frame::new(alloc, SNAPSHOT).ok()?;
    store.arm(passes);
    let done = store.truncate(&snapshot).is_ok();
    let image = store.into_disk().image(choice).ok()?;
    let (_, payloads) = mounted(alloc, image)?;
    Some((done, found_in(&payloads)))
}

#[test]
fn truncations_stop_at_each_call(rt: HostRuntime) -> Result<(), Fail> {
    for in_second in [false, true] {
        for (passes, choice, found) in STOPS {
            let told = stopped(rt.alloc(), in_second, passes, choice).ok_or("memory")?;
            assert_eq!(rt; told, (passes == 4, found), "{passes} {choice}");
        }
    }
    Ok(())
}

// The answer to a snapshot of so many bytes, on a disk of which no call passes.
fn armed(alloc: Global, size: usize) -> Option<Result<(), JournalFault>> {
    let mut store = with_two_entries(alloc, false)?;
    let snapshot = Frame::new(alloc, &(vec![in alloc; 0; size]).ok()?).ok()?;
    store.arm(0);
    Some(store.truncate(&snapshot))
}

#[test]
fn what_has_no_room_asks_nothing_of_the_disk(rt: HostRuntime) -> Result<(), Fail> {
    let full = JournalFault::JournalFull {
        used: 20,
        need: 0x10_0000,
        area: 0x10_0000,
    };
    let fits = armed(rt.alloc(), 0x10_0000 - 6).ok_or("memory")?;
    assert_eq!(rt; fits, Err(JournalFault::DiskFault));
    let larger = armed(rt.alloc(), 0x10_0000 - 5).ok_or("memory")?;
    assert_eq!(rt; larger, Err(full));
    Ok(())
}
