// Disks and bays in files. They tell nothing of what a file holds.
ghost use Rattle.std.specs.Prelude.{◌≡◌, ◌≢◌, ◌≤◌, ℕ, [], length, Option, None, Some, Bool, true, false, IfOk, IsTrue};
ghost use Rattle.std.specs.Ordering.{nat_cmp};
ghost use Rattle.std.specs.BTreeMap.{get};
ghost use Rattle.coda_disk.specs.Untold.{untold};
ghost use Rattle.coda_disk.specs.Passing.{one_fewer};
ghost use Rattle.coda_disk.specs.Bays.{IsRested};

use crate::{Bay, BayFault, Disk, DiskFault};
use std::alloc::Global;
use std::collections::BTreeMap;
use std::fs::{self, File, Files, OpenFile, OpenOptions};
use std::io;
use std::os::unix::fs::FileExt;

/// A file, with a count of its errors and one of its calls of `arm`.
#[derive(Drop)]
pub struct FileDisk {
    number: u32,
    file: File,
    passes: Option<u64>,
    faults: u64,
    arms: u64,
}

impl FileDisk {
    ghost use Rattle.coda_disk.specs.Bays.{IsRested};

    /// This file, as the disk of a number.
    pub fn new(number: u32, file: File) -> FileDisk
        ensures number { result.number ≡ number }
        ensures rested { IsRested result.faults result.arms result.passes }
    {
        FileDisk {
            number,
            file,
            passes: None,
            faults: 0,
            arms: 0,
        }
    }

    /// The number of the disk.
    pub fn number(&self) -> u32
        ensures { result ≡ self.now.number }
    {
        self.number
    }

    /// How many errors were counted.
    pub fn faults(&self) -> u64
        ensures { result ≡ self.now.faults }
    {
        self.faults
    }

    /// How many calls of `arm` were counted.
    pub fn arms(&self) -> u64
        ensures { result ≡ self.now.arms }
    {
        self.arms
    }
}

// Reads until the buffer is full or the file ends.
fn read_all(file: &File, at: u64, buf: &mut [u8]) -> io::Result<usize>
    ensures { IfOk result (λ n. n ≤ length buf.new) }
{
    let mut done = 0;
    while done < buf.len() {
        let count = file.read_at(&mut buf[done..], at.wrapping_add(done as u64))?;
        if count == 0 {
            return Ok(done);
        }
        done += count;
    }
    Ok(done)
}

// Uses up one of the calls that pass. Does this one pass?
fn passes_on(passes: &mut Option<u64>) -> bool
    ensures fewer { passes.new ≡ one_fewer passes.old }
    ensures stopped { passes.old ≡ Some 0 → result ≡ false }
{
    match *passes {
        Some(0) => false,
        Some(n) => {
            *passes = Some(n - 1);
            true
        }
        None => true,
    }
}

impl Disk for FileDisk {
    ghost told = { λ d. untold };

    ghost faults = { λ d. d.faults };

    ghost arms = { λ d. d.arms };

    ghost passes = { λ d. d.passes };

    ghost fails = { λ d. d.passes ≡ Some 0 };

    ghost seen_now = { λ d h. absurd h };

    ghost counts_now = { λ d t c h le now. absurd h };

    ghost only_now = { λ d c h left. absurd h };

    fn size(&mut self) -> Result<u64, DiskFault> {
        if passes_on(&mut self.passes) {
            if let Ok(data) = self.file.metadata() {
                return Ok(data.len());
            }
        }
        self.faults = self.faults.saturating_add(1);
        Err(DiskFault)
    }

    fn read(&mut self, at: u64, buf: &mut [u8]) -> Result<usize, DiskFault> {
        if passes_on(&mut self.passes) {
            if let Ok(count) = read_all(&self.file, at, buf) {
                return Ok(count);
            }
        }
        self.faults = self.faults.saturating_add(1);
        Err(DiskFault)
    }

    fn write_at(&mut self, at: u64, bytes: &[u8]) -> Result<(), DiskFault> {
        if passes_on(&mut self.passes) && self.file.write_all_at(bytes, at).is_ok() {
            return Ok(());
        }
        self.faults = self.faults.saturating_add(1);
        Err(DiskFault)
    }

    fn cut(&mut self, size: u64) -> Result<(), DiskFault> {
        if passes_on(&mut self.passes) && self.file.set_len(size).is_ok() {
            return Ok(());
        }
        self.faults = self.faults.saturating_add(1);
        Err(DiskFault)
    }

    fn sync(&mut self) -> Result<(), DiskFault> {
        // (what no read of the file needs, as the time of the write, isn't waited for)
        if passes_on(&mut self.passes) && self.file.sync_data().is_ok() {
            return Ok(());
        }
        self.faults = self.faults.saturating_add(1);
        Err(DiskFault)
    }

    fn arm(&mut self, count: u64) {
        self.passes = Some(count);
        self.arms = self.arms.saturating_add(1);
    }
}

/// Disks in the files `coda-disks/disk-N` of the current folder, with a count of its errors. A disk that is out is locked, so a second
/// program can't take it, which it counts as an error. A crash opens the file again.
#[derive(Drop)]
pub struct FileBay<R> {
    alloc: Global,
    files: R,
    out: BTreeMap<u32, bool>,
    faults: u64,
    disk_faults: u64,
    disk_arms: u64,
}

impl<R> FileBay<R> {
    /// A bay of which no disk is out.
    pub fn new(alloc: Global, files: R) -> FileBay<R>
        ensures none { (k : ℕ) → get nat_cmp result.out k ≡ None }
        ensures counts { (result.faults ≡ 0) × (result.disk_faults ≡ 0) × (result.disk_arms ≡ 0) }
    {
        FileBay {
            alloc,
            files,
            out: BTreeMap::new(alloc),
            faults: 0,
            disk_faults: 0,
            disk_arms: 0,
        }
    }
}

// Opens the file of a number, and locks it: two programs in one folder would write over each other's entries. The lock ends with the
// handle, so also where the program is killed. The folder and the file are made where they are missing.
fn open<R: Files<File = File>>(alloc: Global, files: &R, number: u32) -> io::Result<FileDisk>
    ensures { IfOk result (λ d. IsRested d.faults d.arms d.passes) }
{
    fs::create_dir_all(files, "coda-disks")?;
    let path = format!(in alloc; "coda-disks/disk-{number}")?;
    let file = OpenOptions::new()
        .read(true)
        .write(true)
        .create(true)
        .open(files, &path)?;
    file.try_lock()?;
    // That there is a file outlives a crash of the machine once it is synced, and the folder that has it, and the one above.
    file.sync_all()?;
    fs::open(files, "coda-disks")?.sync_all()?;
    fs::open(files, ".")?.sync_all()?;
    Ok(FileDisk::new(number, file))
}

// Marks a number as out. Was there memory for it?
fn mark(out: &mut BTreeMap<u32, bool>, number: u32) -> bool
    ensures made { IsTrue result → get nat_cmp out.new number ≡ Some true }
    ensures same { (result ≡ false) → (k : ℕ) → get nat_cmp out.new k ≡ get nat_cmp out.old k }
    ensures others { (k : ℕ) → k ≢ number → get nat_cmp out.new k ≡ get nat_cmp out.old k }
{
    out.insert(number, true).is_ok()
}

// Marks a number that has a mark as not out.
fn unmark(out: &mut BTreeMap<u32, bool>, number: u32)
    ensures here { (is : Bool) → get nat_cmp out.old number ≡ Some is → get nat_cmp out.new number ≡ Some false }
    ensures others { (k : ℕ) → k ≢ number → get nat_cmp out.new k ≡ get nat_cmp out.old k }
{
    match out.get_mut(&number) {
        Some(is) => *is = false,
        None => {}
    }
}

impl<R: Files<File = File>> Bay for FileBay<R> {
    ghost use Rattle.coda_disk.specs.Places.{is_marked};

    type D = FileDisk;

    ghost out = { λ b k. is_marked (get nat_cmp b.out k) };

    ghost has = { λ b k. untold };

    ghost answered = { λ b. [] };

    ghost faults = { λ b. b.faults };

    ghost disk_faults = { λ b. b.disk_faults };

    ghost disk_arms = { λ b. b.disk_arms };

    ghost follows = { λ a b. Unit {0} };

    ghost same = { λ a. tt };

    ghost then = { λ a b c f g. tt };

    fn take(&mut self, number: u32) -> Result<FileDisk, BayFault> {
        let Ok(disk) = open(self.alloc, &self.files, number) else {
            self.faults = self.faults.saturating_add(1);
            return Err(BayFault);
        };
        if !mark(&mut self.out, number) {
            self.faults = self.faults.saturating_add(1);
            return Err(BayFault);
        }
        Ok(disk)
    }

    fn crash(&mut self, disk: FileDisk, _choice: u64) -> Result<FileDisk, BayFault> {
        self.disk_faults = self.disk_faults.saturating_add(disk.faults());
        self.disk_arms = self.disk_arms.saturating_add(disk.arms());
        let number = disk.number();
        // What the old handle has locked can't be opened again before it is closed.
        drop(disk);
        match open(self.alloc, &self.files, number) {
            Ok(again) => Ok(again),
            Err(_) => {
                self.faults = self.faults.saturating_add(1);
                Err(BayFault)
            }
        }
    }

    fn back(&mut self, number: u32, disk: FileDisk) {
        self.disk_faults = self.disk_faults.saturating_add(disk.faults());
        self.disk_arms = self.disk_arms.saturating_add(disk.arms());
        unmark(&mut self.out, number);
    }
}
