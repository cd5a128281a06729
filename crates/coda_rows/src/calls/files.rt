// Disks that are files, in the folder `coda-disks`.
use crate::texts::{number, put};
use coda_disk::{Bay, Disk, FileBay, FileDisk};
use std::fs::OpenOptions;
use std::io;

/// Puts whether files could be reached.
pub fn put_reached(outcome: io::Result<()>, out: &mut String) {
    put(
        out,
        if outcome.is_ok() {
            "reached"
        } else {
            "io fault"
        },
    );
}

// Puts what a disk of at most 16 bytes has.
fn put_contents(rt: &HostRuntime, disk: &mut FileDisk, out: &mut String) {
    let mut found = [0; 16];
    match disk.read(0, &mut found) {
        Ok(count) => {
            let digits = hex::encode(rt.alloc(), found.get(..count).unwrap_or(&[]));
            put(out, digits.unwrap_or(String::new(rt.alloc())).as_str());
        }
        Err(_) => put(out, "fault"),
    }
}

// Whether abc is written at 2, and the disk refuses further calls then.
fn is_written(disk: &mut FileDisk) -> bool {
    let is_done = disk.write_at(2, b"abc").is_ok() && disk.sync().is_ok();
    disk.arm(0);
    is_done
}

// Puts what a crash leaves of a disk.
fn put_crashed(
    rt: &HostRuntime,
    bay: &mut FileBay<&HostRuntime>,
    disk: FileDisk,
    out: &mut String,
) {
    match bay.crash(disk, 0) {
        Ok(mut again) => put_contents(rt, &mut again, out),
        Err(_) => put(out, "bay fault"),
    }
}

/// `left NUMBER`: what a crash leaves of the disk, on which abc was written at 2; it refused a further call.
pub fn put_left(rt: &HostRuntime, call: &str, out: &mut String) {
    let mut bay = FileBay::new(rt.alloc(), rt);
    match bay.take(number(call, 1).min(4_294_967_295) as u32) {
        Ok(mut disk) => {
            if is_written(&mut disk) {
                put_crashed(rt, &mut bay, disk, out);
            } else {
                put(out, "fault");
            }
        }
        Err(_) => put(out, "bay fault"),
    }
}

/// `sealed FILE`: what a write says to a file that was opened for reading alone, and how many faults there are then.
pub fn put_sealed(rt: &HostRuntime, file: &str, out: &mut String) {
    match OpenOptions::new().read(true).open(rt, file) {
        Ok(file) => {
            let mut disk = FileDisk::new(1, file);
            let said = disk.write_at(0, b"x");
            let faults = disk.faults();
            let _ = write!(out, "{said:?} {faults}");
        }
        Err(_) => put(out, "io fault"),
    }
}
