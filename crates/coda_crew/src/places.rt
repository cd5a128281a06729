// Slots by the numbers of their disks.
ghost use Rattle.std.specs.Prelude.{◌≡◌, ℕ, [], ◌∷◌, MatchOption, OnOk};
ghost use Rattle.coda_crew.specs.Crews.{slot_at, HasPlace, KeepsSlots, KeepsOtherSlots, CountsAt};

use coda_actors::Slot;
use std::alloc::AllocError;
use std::collections::BTreeMap;
use std::mem;

/// Takes the slot of a number out, and leaves its place, where it has one, vacant.
pub fn take<A, D>(slots: &mut BTreeMap<u32, Slot<A, D>>, number: u32) -> Slot<A, D>
    ensures taken { result ≡ slot_at slots.old number }
    ensures here { slot_at slots.new number ≡ Slot.Vacant }
    ensures others { KeepsOtherSlots number slots.old slots.new }
    ensures place { HasPlace slots.old number → HasPlace slots.new number }
    ensures counts { CountsAt number slots.old slots.new }
{
    match slots.get_mut(&number) {
        Some(place) => mem::replace(place, Slot::Vacant),
        None => Slot::Vacant,
    }
}

/// Puts a slot into the place of a number, which is vacant. It takes no memory.
pub fn put<A: Drop, D: Drop>(slots: &mut BTreeMap<u32, Slot<A, D>>, number: u32, slot: Slot<A, D>)
    requires { HasPlace slots.old number }
    ensures here { slot_at slots.new number ≡ slot }
    ensures others { KeepsOtherSlots number slots.old slots.new }
    ensures counts { CountsAt number slots.old slots.new }
{
    match slots.get_mut(&number) {
        Some(place) => *place = slot,
        None => unreachable!(),
    }
}

// Makes a place for a number, if it has none.
pub(crate) fn make_place<A: Drop, D: Drop>(
    slots: &mut BTreeMap<u32, Slot<A, D>>,
    number: u32,
) -> Result<(), AllocError>
    ensures same { KeepsSlots slots.old slots.new }
    ensures place { OnOk result (HasPlace slots.new number) }
    ensures counts { CountsAt number slots.old slots.new }
{
    if slots.contains_key(&number) {
        return Ok(());
    }
    match slots.insert(number, Slot::Vacant) {
        Ok(_) => Ok(()),
        Err(_) => Err(AllocError),
    }
}

// Takes any slot out, with its place.
pub(crate) fn pop<A, D>(slots: &mut BTreeMap<u32, Slot<A, D>>) -> Option<(u32, Slot<A, D>)>
    ensures slot { MatchOption result ((k : ℕ) → slot_at slots.old k ≡ Slot.Vacant)
        (λ r. (r.1 ≡ slot_at slots.old r.0) × (slot_at slots.new r.0 ≡ Slot.Vacant) × KeepsOtherSlots r.0 slots.old slots.new) }
    ensures entries { MatchOption result ((slots.old.entries ≡ []) × (slots.new.entries ≡ [])) (λ r. slots.old.entries ≡ r ∷ slots.new.entries) }
{
    slots.pop_first()
}
