// What the first lines of a script, which are comments, ask of its run, and the bay that they hand in.
ghost use Rattle.std.specs.Prelude.{◌≡◌, ℕ, IfOk, false};
ghost use Rattle.std.specs.Ordering.{nat_cmp};
ghost use Rattle.std.specs.BTreeMap.{get};
ghost use Rattle.coda_disk.specs.Places.{is_out};

use crate::texts::{bytes, number, put_parts, word};
use coda_disk::{MemBay, MemDisk};
use std::alloc::{AllocError, Global};

/// The first lines of a script, as far as they are comments.
pub fn header(alloc: Global, script: &str) -> Vec<&str> {
    let mut header = Vec::new(alloc);
    for line in script.split('\n') {
        if !line.starts_with("# ") {
            break;
        }
        let _ = header.push(line);
    }
    header
}

/// What stands behind this front, in the first line that has it.
pub fn said<'a>(header: &[&'a str], front: &str) -> Option<&'a str> {
    for line in header {
        if let Some((_, rest)) = line.split_once(front) {
            return Some(rest);
        }
    }
    None
}

/// The number of the word at a place, in each line with this front.
pub fn numbers(alloc: Global, header: &[&str], front: &str, at: usize) -> Vec<u64> {
    let mut numbers = Vec::new(alloc);
    for line in header {
        if line.starts_with(front) {
            let _ = numbers.push(number(line, at));
        }
    }
    numbers
}

// The disk of a number: what bytes it has, and which calls of it fail, from 1.
fn disk_of(alloc: Global, header: &[&str], number: &str) -> Result<MemDisk, AllocError> {
    let has = format!(in alloc; "# disk {number} has ")?;
    let fails = format!(in alloc; "# disk {number} fails at call ")?;
    let mut image = Vec::new(alloc);
    for line in header {
        if line.starts_with(has.as_str()) {
            put_parts(&mut image, &[&bytes(alloc, line, 4)]);
        }
    }
    MemDisk::new(alloc, image, numbers(alloc, header, fails.as_str(), 6))
}

/// The bay with the disks that are named. One that several lines name is put anew for each.
pub fn bay_of(alloc: Global, header: &[&str]) -> Result<MemBay, AllocError>
    ensures { IfOk result (λ bay. (k : ℕ) → is_out (get nat_cmp bay.places k) ≡ false) }
{
    let mut bay = MemBay::new(alloc, numbers(alloc, header, "# bay fails at call ", 5));
    for line in header {
        if line.starts_with("# disk ") {
            let disk = disk_of(alloc, header, word(line, 2))?;
            bay.add(number(line, 2).min(4_294_967_295) as u32, disk)?;
        }
    }
    Ok(bay)
}
