// A disk in memory, which fails at the calls that it is told to fail at.
ghost use Rattle.std.specs.Prelude.{◌≡◌, ℕ, ◌+◌, ◌^◌, ◌<◌, ◌≤◌, true, [], List, length, take, drop, Some, IfOk, OnOk, IsTrue, vec_len};
ghost use Rattle.coda_disk.specs.Told.{put};
ghost use Rattle.coda_disk.specs.Memory.{state_of, fresh, is_inside, are_inside};
ghost use Rattle.coda_disk.specs.Images.{filled, left_of, crashed_call};

use crate::calls::{end_span, keep, placed, put_bytes, stop, write};
use crate::{Call, Disk, DiskFault, Past, Plan};
use std::alloc::{AllocError, Global};

/// Bytes in memory. A crash may leave what a real disk may leave: what it keeps for that is the bytes that were synced last
/// and the calls since.
#[derive(Drop)]
pub struct MemDisk {
    alloc: Global,
    past: Past,
    synced: Vec<u8>,
    calls: Vec<Call>,
    bytes: Vec<u8>,
    plan: Plan,

    ghost seen: { bytes.items ≡ (state_of synced.items calls.items).seen },
    ghost inside: { are_inside (fresh synced.items) calls.items ≡ true },
}

impl MemDisk {
    ghost use Rattle.coda_disk.specs.Bays.{IsRested};
    ghost use Rattle.coda_disk.specs.Images.{image_of};
    ghost use Rattle.coda_disk.specs.Memory.{told_of};
    ghost use Rattle.coda_disk.specs.declared.calls.Past.TheVariants.{Made};

    /// A disk with these bytes, all of them synced. `failing` has the numbers of the calls that fail, where the first call
    /// is 1.
    pub fn new(alloc: Global, bytes: Vec<u8>, failing: Vec<u64>) -> Result<MemDisk, AllocError>
        ensures bytes { IfOk result (λ d. (d.past ≡ Made) × (d.synced.items ≡ bytes.items) × (d.calls.items ≡ [])) }
        ensures failing { IfOk result (λ d. (d.plan.failing ≡ failing) × (d.plan.calls ≡ 0)) }
        ensures rested { IfOk result (λ d. IsRested d.plan.faults d.plan.arms d.plan.passes) }
    {
        Ok(MemDisk {
            alloc,
            past: Past::Made,
            synced: bytes.clone()?,
            calls: Vec::new(alloc),
            bytes,
            plan: Plan::new(failing),
        })
    }

    /// The image that a crash leaves by this choice: with 0 what was synced; with 1 every write since too, also one that
    /// was refused; with another choice each byte of such a write is the choice and its offset, modulo 256.
    ///
    /// # Errors
    ///
    /// `AllocError` where there was no memory for it.
    pub fn image(&self, choice: u64) -> Result<Vec<u8>, AllocError>
        ensures exact { IfOk result (λ v. v.items ≡ image_of choice self.now.synced.items self.now.calls.items) }
        ensures allowed { IfOk result (λ v. (told_of self.now.past self.now.synced.items self.now.calls.items).may_leave v.items) }
    {
        let mut image = self.synced.to_vec(self.alloc)?;
        if choice == 0 {
            return Ok(image);
        }
        for call in self.calls.as_slice() {
            crash_call(self.alloc, &mut image, call, choice)?;
        }
        Ok(image)
    }

    /// How many faults were counted.
    pub fn faults(&self) -> u64
        ensures { result ≡ self.now.plan.faults }
    {
        self.plan.faults()
    }

    /// How many calls of `arm` were counted.
    pub fn arms(&self) -> u64
        ensures { result ≡ self.now.plan.arms }
    {
        self.plan.arms()
    }

    // The same disk, with no fault and no call of `arm` counted, of which every call passes.
    pub(crate) fn rested(mut self) -> MemDisk
        ensures disk { (result.past ≡ self.past) × (result.synced ≡ self.synced) × (result.calls ≡ self.calls) }
        ensures failing { (result.plan.failing ≡ self.plan.failing) × (result.plan.calls ≡ self.plan.calls) }
        ensures rested { IsRested result.plan.faults result.plan.arms result.plan.passes }
    {
        self.plan.rest();
        self
    }
}

// So many bytes from an offset on, each of which is the choice and its offset, modulo 256.
fn filled_bytes(alloc: Global, choice: u64, at: u64, count: usize) -> Result<Vec<u8>, AllocError>
    requires { at + count < 2 ^ 64 }
    ensures { IfOk result (λ v. v.items ≡ filled choice at count) }
{
    let mut bytes = Vec::new(alloc);
    for i in 0..count {
        let place = at + i as u64;
        bytes.push(((choice % 256 + place % 256) % 256) as u8)?;
    }
    Ok(bytes)
}

// What a crash leaves of a write, by its choice.
fn crash_write(
    alloc: Global,
    image: &mut Vec<u8>,
    at: u64,
    bytes: &[u8],
    choice: u64,
) -> Result<(), AllocError>
    requires { at ≤ vec_len image.old }
    ensures { OnOk result (image.new.items ≡ put image.old.items at (left_of choice at bytes.now)) }
{
    let done = if choice == 1 {
        put_bytes(image, at as usize, bytes)
    } else {
        let filled = filled_bytes(alloc, choice, at, bytes.len())?;
        put_bytes(image, at as usize, &filled)
    };
    if done { Ok(()) } else { Err(AllocError) }
}

// What a crash leaves of a call, by its choice.
fn crash_call(
    alloc: Global,
    image: &mut Vec<u8>,
    call: &Call,
    choice: u64,
) -> Result<(), AllocError>
    requires { IsTrue (is_inside image.old.items call.now) }
    ensures { OnOk result (image.new.items ≡ crashed_call choice image.old.items call.now) }
{
    match call {
        Call::Write(at, bytes) => crash_write(alloc, image, *at, bytes, choice),
        Call::Stopped(at, bytes) => crash_write(alloc, image, *at, bytes, choice),
        Call::Resize(size) => {
            image.truncate(*size as usize);
            Ok(())
        }
    }
}

impl Disk for MemDisk {
    ghost use Rattle.coda_disk.specs.Plans.{Stops};
    ghost use Rattle.coda_disk.specs.Memory.{told_of};
    ghost use Rattle.coda_disk.specs.Pasts.{counts_in_memory, only_in_memory};

    ghost told = { λ d. told_of d.past d.synced.items d.calls.items };

    ghost faults = { λ d. d.plan.faults };

    ghost arms = { λ d. d.plan.arms };

    ghost passes = { λ d. d.plan.passes };

    ghost fails = { λ d. Stops d.plan };

    ghost seen_now = { λ d h. h };

    ghost counts_now = { λ d t c h le now. counts_in_memory d.past d.synced.items d.calls.items t c le now };

    ghost only_now = { λ d c h left. only_in_memory d.past d.synced.items d.calls.items c left };

    fn size(&mut self) -> Result<u64, DiskFault> {
        if self.plan.stops() {
            return Err(DiskFault);
        }
        Ok(self.bytes.len() as u64)
    }

    fn read(&mut self, at: u64, buf: &mut [u8]) -> Result<usize, DiskFault> {
        if self.plan.stops() {
            return Err(DiskFault);
        }
        let start = (at as usize).min(self.bytes.len());
        let count = buf.len().min(self.bytes.len() - start);
        buf[..count].copy_from_slice(&self.bytes[start..start + count]);
        Ok(count)
    }

    fn write_at(&mut self, at: u64, bytes: &[u8]) -> Result<(), DiskFault> {
        let stopped = self.plan.stops();
        let Ok((start, written)) = placed(self.alloc, self.bytes.len(), at, bytes) else {
            if !stopped {
                self.plan.fail();
            }
            return Err(DiskFault);
        };
        if stopped {
            stop(&mut self.calls, start, written);
            return Err(DiskFault);
        }
        if !write(&mut self.calls, &mut self.bytes, start, written) {
            self.plan.fail();
            return Err(DiskFault);
        }
        Ok(())
    }

    fn cut(&mut self, size: u64) -> Result<(), DiskFault> {
        if self.plan.stops() {
            return Err(DiskFault);
        }
        if !keep(&mut self.calls, Call::Resize(size)) {
            self.plan.fail();
            return Err(DiskFault);
        }
        self.bytes.truncate(size as usize);
        Ok(())
    }

    fn sync(&mut self) -> Result<(), DiskFault> {
        if self.plan.stops() {
            return Err(DiskFault);
        }
        if !end_span(
            &mut self.past,
            &mut self.synced,
            &mut self.calls,
            &self.bytes,
        ) {
            self.plan.fail();
            return Err(DiskFault);
        }
        Ok(())
    }

    fn arm(&mut self, count: u64) {
        self.plan.arm(count);
    }
}
