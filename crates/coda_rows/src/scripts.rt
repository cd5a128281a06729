// A script is run in memory, over a bay of disks in memory.
ghost use Rattle.std.specs.Prelude.{◌≡◌, ◌≢◌, ℕ, IfOk, false};
ghost use Rattle.std.specs.Ordering.{nat_cmp};
ghost use Rattle.std.specs.BTreeMap.{get};
ghost use Rattle.coda_disk.specs.Places.{is_out};

use crate::header::{bay_of, header, numbers, said};
use crate::outlets::{Outlet, Pieces};
use crate::texts::{number, put, put_parts};
use coda_disk::MemBay;
use coda_io::{MemSink, MemSource};
use coda_main::{Status, coda};
use std::alloc::Global;

// The words of the command line.
fn words(alloc: Global, header: &[&str]) -> Vec<String> {
    let mut words = Vec::new(alloc);
    for word in said(header, "# words").unwrap_or(" run").split(' ').skip(1) {
        let mut copy = String::new(alloc);
        put(&mut copy, word);
        let _ = words.push(copy);
    }
    words
}

// What a run reads: the script, in pieces of so many bytes.
fn source(alloc: Global, script: &[u8], header: &[&str]) -> Pieces {
    let mut copy = Vec::new(alloc);
    put_parts(&mut copy, &[script]);
    let failing = numbers(alloc, header, "# source fails at call ", 5);
    let piece = said(header, "# pieces of ").unwrap_or("65536");
    Pieces {
        source: MemSource::new(copy, failing),
        piece: number(piece, 0).min(65_536) as usize,
    }
}

// What a run writes to.
fn sink(alloc: Global, header: &[&str]) -> Outlet {
    let failing = numbers(alloc, header, "# sink fails at call ", 5);
    let (room, most) = match said(header, "# sink takes ") {
        Some(room) => (number(room, 0), 3),
        None => (u64::MAX, u64::MAX),
    };
    Outlet {
        sink: MemSink::new(Vec::new(alloc), failing),
        room,
        most,
        faults: 0,
    }
}

// Puts the images that a bay answered at crashes, each as a line of hex digits.
fn put_images(alloc: Global, report: &mut Vec<u8>, bay: &MemBay) {
    for image in bay.images() {
        if let Ok(digits) = hex::encode(alloc, image.bytes()) {
            put_parts(report, &[b"image ", digits.as_bytes(), b"\n"]);
        }
    }
}

// How a run ended: the exit code, and behind a colon what goes to standard error, without the program's name.
fn ending(alloc: Global, status: Status) -> String {
    let code = status.code();
    let text = format!(in alloc; "{status}").unwrap_or(String::new(alloc));
    let message = text.as_str().strip_prefix("coda: ").unwrap_or("");
    format!(in alloc; "{code}: {message}").unwrap_or(String::new(alloc))
}

// Puts how a run ended, where it should have ended otherwise.
fn put_ending(alloc: Global, report: &mut Vec<u8>, status: Status, wanted: &str) {
    let ending = ending(alloc, status);
    if ending.as_str() != wanted {
        put_parts(report, &[b"\nstatus ", ending.as_bytes(), b"\n"]);
    }
}

// Runs a script over a bay, and puts what was written: how it ended.
fn outcome(
    alloc: Global,
    bay: &mut MemBay,
    script: &[u8],
    header: &[&str],
    report: &mut Vec<u8>,
) -> Status
    requires { (k : ℕ) → is_out (get nat_cmp bay.old.places k) ≡ false }
    ensures { result ≢ Status.Memory → result ≢ Status.BayFault
        → (k : ℕ) → is_out (get nat_cmp bay.new.places k) ≡ false }
{
    let mut source = source(alloc, script, header);
    let mut sink = sink(alloc, header);
    let status = coda(alloc, &words(alloc, header), &mut source, &mut sink, bay);
    put_parts(report, &[sink.sink.bytes()]);
    if said(header, "# images").is_some() {
        put_images(alloc, report, bay);
    }
    put_ending(
        alloc,
        report,
        status,
        said(header, "# status ").unwrap_or("0: "),
    );
    status
}

// Puts what the runs of a text write, one after the other over one bay.
fn put_runs(alloc: Global, bay: &mut MemBay, text: &str, report: &mut Vec<u8>)
    requires { (k : ℕ) → is_out (get nat_cmp bay.old.places k) ≡ false }
{
    let mut is_later = false;
    for script in text.split("# again\n") {
        if is_later {
            put_parts(report, &[b"# again\n"]);
        }
        let status = outcome(
            alloc,
            bay,
            script.as_bytes(),
            &header(alloc, script),
            report,
        );
        // Such a run may keep disks of the bay, so no other follows it.
        if status == Status::BayFault || status == Status::Memory {
            return;
        }
        is_later = true;
    }
}

/// What a script writes, or several over one bay, run by their headers: one report behind the other, with the line
/// between them, and how a run ended where its header says something else. One that is no text has no header.
pub fn reported(alloc: Global, script: &[u8]) -> Vec<u8> {
    let mut report = Vec::new(alloc);
    let text = std::str::from_utf8(script);
    if let Ok(mut bay) = bay_of(alloc, &header(alloc, text.unwrap_or(""))) {
        match text {
            Ok(text) => put_runs(alloc, &mut bay, text, &mut report),
            Err(_) => {
                let _ = outcome(alloc, &mut bay, script, &[], &mut report);
            }
        }
    }
    report
}
