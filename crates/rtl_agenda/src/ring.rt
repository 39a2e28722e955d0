//! Changes of times within one turn, in a ring of slots.

ghost use Rattle.std.specs.Prelude.{◌≡◌, ◌<◌, ◌≤◌, ◌%◌, ◌++◌, ◌∷◌, [], ℕ, true, false, IfOk, IfSome, IfNone, OnOk, OnErr, length, slice_set};
ghost use Rattle.rtl_agenda.specs.Occupied.{most_slots};
ghost use Rattle.rtl_agenda.specs.Wheel.{IsFilled, IsRing, IsWithinTurn, entries_of, is_filled, slot_at};

use crate::agenda::{Change, NoMemory};
use crate::occupied::Occupied;
use crate::slot::Slot;
use std::alloc::Global;
use std::mem;

/// A ring of slots: each time stands in the slot of its remainder modulo their number.
#[derive(Drop)]
pub struct Ring {
    alloc: Global,
    pub slots: Vec<Slot>,
    pub occupied: Occupied,
    spare: Vec<Change>,
    pub ghost ring: { IsRing (entries_of slots.items) occupied.words.items },
}

impl Ring {
    /// So many slots, with no change.
    pub fn new(alloc: Global, count: usize) -> Result<Self, NoMemory>
        requires some { 0 < count }
        requires bounded { count ≤ most_slots }
        ensures { IfOk result (λ r. (s : ℕ) → is_filled (slot_at (entries_of r.slots.items) s).1 ≡ false) }
    {
        Ok(Ring {
            alloc,
            slots: empty_slots(alloc, count)?,
            occupied: Occupied::new(alloc, count)?,
            spare: Vec::new(alloc),
        })
    }

    // The slot of a time.
    fn slot_of(&self, time: u64) -> usize
        ensures { result ≡ time % length self.now.slots.items }
    {
        (time % self.slots.len() as u64) as usize
    }

    /// Puts a change last among those of its time, whose slot has those of no other. Where memory
    /// is refused, nothing is changed.
    pub fn push(&mut self, time: u64, change: Change) -> Result<(), NoMemory>
        ensures ok { let slots = entries_of self.old.slots.items in let s = time % length slots in
            OnOk result
            (entries_of self.new.slots.items ≡ slice_set slots s (time, (slot_at slots s).1 ++ change ∷ [])) }
        ensures refused { OnErr result (entries_of self.new.slots.items ≡ entries_of self.old.slots.items) }
    {
        let slot = self.slot_of(time);
        self.slots[slot].push(time, change, &mut self.spare)?;
        self.occupied.set(slot, true);
        Ok(())
    }

    /// Puts all changes of a time into its slot.
    pub fn put(&mut self, time: u64, changes: Vec<Change>)
        requires { is_filled changes.items ≡ true }
        ensures { let slots = entries_of self.old.slots.items in
            entries_of self.new.slots.items ≡ slice_set slots (time % length slots) (time, changes.items) }
    {
        let slot = self.slot_of(time);
        self.slots[slot] = Slot { time, changes };
        self.occupied.set(slot, true);
    }

    /// Takes the changes of a slot, which has none from then on. Those taken before make room for
    /// others.
    pub fn take(&mut self, slot: usize, taken: &mut Vec<Change>)
        requires { slot < length self.old.slots.items }
        ensures taken { taken.new.items ≡ (slot_at (entries_of self.old.slots.items) slot).1 }
        ensures rest { let slots = entries_of self.old.slots.items in
            entries_of self.new.slots.items ≡ slice_set slots slot ((slot_at slots slot).0, []) }
    {
        let changes = mem::replace(&mut self.slots[slot].changes, Vec::new(self.alloc));
        self.spare = mem::replace(taken, changes);
        self.occupied.set(slot, false);
    }

    /// The slot of the least time. All times lie within one turn from one on.
    pub fn first_from(&self, from: u64) -> Option<usize>
        requires { IsWithinTurn (entries_of self.now.slots.items) from }
        ensures within { IfSome result (λ slot. slot < length self.now.slots.items) }
        ensures filled { IfSome result (λ slot. IsFilled (entries_of self.now.slots.items) slot) }
        ensures least { let slots = entries_of self.now.slots.items in
            IfSome result (λ slot. (s : ℕ) → IsFilled slots s → (slot_at slots slot).0 ≤ (slot_at slots s).0) }
        ensures none { IfNone result ((s : ℕ) → is_filled (slot_at (entries_of self.now.slots.items) s).1 ≡ false) }
    {
        match self.occupied.next_from(self.slot_of(from)) {
            Some(slot) => Some(slot),
            None => self.occupied.next_from(0),
        }
    }
}

// So many slots with no change.
fn empty_slots(alloc: Global, count: usize) -> Result<Vec<Slot>, NoMemory>
    ensures count { IfOk result (λ slots. length slots.items ≡ count) }
    ensures empty { IfOk result (λ slots. (s : ℕ) → is_filled (slot_at (entries_of slots.items) s).1 ≡ false) }
{
    let mut slots = Vec::with_capacity(alloc, count)?;
    for _ in 0..count {
        slots.push(Slot {
            time: 0,
            changes: Vec::new(alloc),
        })?;
    }
    Ok(slots)
}
