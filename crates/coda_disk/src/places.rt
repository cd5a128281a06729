// A bay of disks in memory.
ghost use Rattle.std.specs.Prelude.{◌≡◌, ◌≢◌, ℕ, List, [], ◌∷◌, ◌++◌, Option, None, Some, IfOk, IfSome, OnOk, OnErr, MatchOption, IsTrue, true, false};
ghost use Rattle.std.specs.Ordering.{nat_cmp};
ghost use Rattle.std.specs.BTreeMap.{get};
ghost use Rattle.coda_disk.specs.Bays.{Crashed, IsRested};
ghost use Rattle.coda_disk.specs.Images.{image_of};
ghost use Rattle.coda_disk.specs.Places.{told, has_disk};
ghost use Rattle.coda_disk.specs.declared.calls.Past.TheVariants.{Made};

use crate::{Bay, BayFault, Image, MemDisk, Plan};
use std::alloc::{AllocError, Global};
use std::collections::BTreeMap;
use std::mem;

/// Disks in memory by their numbers. A number for which none was handed in has an empty disk.
#[derive(Drop)]
pub struct MemBay {
    alloc: Global,
    places: BTreeMap<u32, Option<MemDisk>>,
    images: Vec<Image>,
    plan: Plan,
    disk_faults: u64,
    disk_arms: u64,
}

impl MemBay {
    /// A bay of empty disks. `failing` has the numbers of the calls of `take` and `crash` that fail, where the first call
    /// is 1.
    pub fn new(alloc: Global, failing: Vec<u64>) -> MemBay
        ensures places { (k : ℕ) → get nat_cmp result.places k ≡ None }
        ensures images { result.images.items ≡ [] }
        ensures failing { (result.plan.failing ≡ failing) × (result.plan.calls ≡ 0) }
        ensures counts { (result.plan.faults ≡ 0) × (result.disk_faults ≡ 0) × (result.disk_arms ≡ 0) }
    {
        MemBay {
            alloc,
            places: BTreeMap::new(alloc),
            images: Vec::new(alloc),
            plan: Plan::new(failing),
            disk_faults: 0,
            disk_arms: 0,
        }
    }

    /// Hands in the disk of a number.
    ///
    /// # Errors
    ///
    /// `AllocError` where there was no memory for it: nothing changed.
    pub fn add(&mut self, number: u32, disk: MemDisk) -> Result<(), AllocError>
        ensures here { OnOk result (get nat_cmp self.new.places number ≡ Some (Some disk)) }
        ensures others { (k : ℕ) → k ≢ number → get nat_cmp self.new.places k ≡ get nat_cmp self.old.places k }
        ensures same { OnErr result ((k : ℕ) → get nat_cmp self.new.places k ≡ get nat_cmp self.old.places k) }
        ensures counts { (self.new.disk_faults ≡ self.old.disk_faults) × (self.new.disk_arms ≡ self.old.disk_arms) }
        ensures images { self.new.images ≡ self.old.images }
    {
        match self.places.insert(number, Some(disk)) {
            Ok(_) => Ok(()),
            Err(_) => Err(AllocError),
        }
    }

    /// The images that its crashes left, in order.
    pub fn images(&self) -> &[Image]
        ensures { result.now ≡ self.now.images.items }
    {
        &self.images
    }
}

// Takes the disk out of the place of a number, where it has one.
fn take_out(places: &mut BTreeMap<u32, Option<MemDisk>>, number: u32) -> Option<MemDisk>
    ensures { MatchOption result
        ((has_disk (get nat_cmp places.old number) ≡ false) × ((k : ℕ) → get nat_cmp places.new k ≡ get nat_cmp places.old k))
        (λ disk. (get nat_cmp places.old number ≡ Some (Some disk)) × (get nat_cmp places.new number ≡ Some None)
        × ((k : ℕ) → k ≢ number → get nat_cmp places.new k ≡ get nat_cmp places.old k)) }
{
    match places.get_mut(&number) {
        Some(place) => mem::replace(place, None),
        None => None,
    }
}

// Puts a disk into its place.
fn put_back(places: &mut BTreeMap<u32, Option<MemDisk>>, number: u32, disk: MemDisk)
    ensures here { get nat_cmp places.old number ≡ Some None → get nat_cmp places.new number ≡ Some (Some disk) }
    ensures others { (k : ℕ) → k ≢ number → get nat_cmp places.new k ≡ get nat_cmp places.old k }
{
    match places.get_mut(&number) {
        Some(place) => *place = Some(disk),
        None => {}
    }
}

// Makes an empty place. Was there memory for it?
fn make_place(places: &mut BTreeMap<u32, Option<MemDisk>>, number: u32) -> bool
    ensures made { IsTrue result → get nat_cmp places.new number ≡ Some None }
    ensures same { (result ≡ false) → (k : ℕ) → get nat_cmp places.new k ≡ get nat_cmp places.old k }
    ensures others { (k : ℕ) → k ≢ number → get nat_cmp places.new k ≡ get nat_cmp places.old k }
{
    places.insert(number, None).is_ok()
}

// The crash of a disk, where there is memory to keep its image.
fn crash_kept(alloc: Global, images: &mut Vec<Image>, disk: MemDisk, choice: u64) -> Option<MemDisk>
    ensures crashed { MatchOption result (images.new.items ≡ images.old.items)
        (λ d. Crashed (image_of choice disk.synced.items disk.calls.items) (told disk) (told d)
        × (images.new.items ≡ images.old.items ++ image_of choice disk.synced.items disk.calls.items ∷ [])) }
    ensures exact { IfSome result (λ d. (d.past ≡ Made) × (d.synced.items ≡ image_of choice disk.synced.items disk.calls.items) × (d.calls.items ≡ [])) }
    ensures rested { IfSome result (λ d. IsRested d.plan.faults d.plan.arms d.plan.passes) }
{
    let Ok(image) = disk.image(choice) else {
        return None;
    };
    let Ok(copy) = image.clone() else {
        return None;
    };
    let Ok(left) = MemDisk::new(alloc, image, Vec::new(alloc)) else {
        return None;
    };
    if images.push(Image::new(copy)).is_err() {
        return None;
    }
    Some(left)
}

impl Bay for MemBay {
    ghost use Rattle.coda_io.specs.Faults.{HasCause};
    ghost use Rattle.coda_disk.specs.Told.{Told};
    ghost use Rattle.coda_disk.specs.Bays.{plus, KeepsAll};
    ghost use Rattle.coda_disk.specs.Places.{is_out, told_at};

    type D = MemDisk;

    ghost out = { λ b k. is_out (get nat_cmp b.places k) };

    ghost has = { λ b k. told_at (get nat_cmp b.places k) };

    ghost answered = { λ b. b.images.items };

    ghost faults = { λ b. b.plan.faults };

    ghost disk_faults = { λ b. b.disk_faults };

    ghost disk_arms = { λ b. b.disk_arms };

    ghost follows = { λ a b. Unit {0} };

    ghost same = { λ a. tt };

    ghost then = { λ a b c f g. tt };

    fn take(&mut self, number: u32) -> Result<MemDisk, BayFault> {
        if self.plan.stops() {
            return Err(BayFault);
        }
        if let Some(disk) = take_out(&mut self.places, number) {
            return Ok(disk.rested());
        }
        let Ok(disk) = MemDisk::new(self.alloc, Vec::new(self.alloc), Vec::new(self.alloc)) else {
            self.plan.fail();
            return Err(BayFault);
        };
        if !make_place(&mut self.places, number) {
            self.plan.fail();
            return Err(BayFault);
        }
        Ok(disk)
    }

    /// Crashes a disk, which it answers with exactly the image of the choice: with 0 what was synced; with 1 every write since
    /// too, also one that was refused; with another choice each byte of such a write is the choice and its offset,
    /// modulo 256.
    fn crash(&mut self, disk: MemDisk, choice: u64) -> Result<MemDisk, BayFault>
        ensures out { (k : ℕ) → is_out (get nat_cmp self.new.places k) ≡ is_out (get nat_cmp self.old.places k) }
        ensures crashed { (told disk).honest → IfOk result (λ d. (image : List ℕ)
            × Crashed image (told disk) (told d) × (self.new.images.items ≡ self.old.images.items ++ image ∷ [])) }
        ensures answered { OnErr result (self.new.images.items ≡ self.old.images.items) }
        ensures rested { IfOk result (λ d. IsRested d.plan.faults d.plan.arms d.plan.passes) }
        ensures keeps { KeepsAll (λ k. told_at (get nat_cmp self.old.places k)) (λ k. told_at (get nat_cmp self.new.places k)) }
        ensures disk_faults { self.new.disk_faults ≡ plus self.old.disk_faults disk.plan.faults }
        ensures disk_arms { self.new.disk_arms ≡ plus self.old.disk_arms disk.plan.arms }
        ensures cause { HasCause self.old.plan.faults self.new.plan.faults result }
        ensures exact { IfOk result (λ d. (d.past ≡ Made) × (d.synced.items ≡ image_of choice disk.synced.items disk.calls.items) × (d.calls.items ≡ [])) }
        ensures image { OnOk result (self.new.images.items ≡ self.old.images.items ++ image_of choice disk.synced.items disk.calls.items ∷ []) }
    {
        self.disk_faults = self.disk_faults.saturating_add(disk.faults());
        self.disk_arms = self.disk_arms.saturating_add(disk.arms());
        if self.plan.stops() {
            return Err(BayFault);
        }
        match crash_kept(self.alloc, &mut self.images, disk, choice) {
            Some(left) => Ok(left),
            None => {
                self.plan.fail();
                Err(BayFault)
            }
        }
    }

    fn back(&mut self, number: u32, disk: MemDisk) {
        self.disk_faults = self.disk_faults.saturating_add(disk.faults());
        self.disk_arms = self.disk_arms.saturating_add(disk.arms());
        put_back(&mut self.places, number, disk);
    }
}
