//! Which of a row of slots are occupied.

ghost use Rattle.std.specs.Prelude.{◌≡◌, ◌≢◌, ◌≤◌, ◌<◌, ◌*◌, ◌/◌, ◌-◌, ℕ, true, false, IfOk, IfSome, IfNone, length};
ghost use Rattle.rtl_agenda.specs.Occupied.{is_marked, most_slots};

use crate::agenda::NoMemory;
use std::alloc::Global;

/// A row of slots, each occupied or not, a bit for each.
#[derive(Drop)]
pub struct Occupied {
    pub words: Vec<u64>,
    pub ghost bounded: { length words.items ≤ 1024 },
}

impl Occupied {
    /// So many slots, none occupied.
    pub fn new(alloc: Global, slots: usize) -> Result<Self, NoMemory>
        requires { slots ≤ most_slots }
        ensures all { IfOk result (λ o. slots ≤ length o.words.items * 64) }
        ensures none { IfOk result (λ o. (s : ℕ) → is_marked o.words.items s ≡ false) }
    {
        let mut words = Vec::new(alloc);
        words.resize(slots.div_ceil(64), 0)?;
        Ok(Occupied { words })
    }

    /// Says of a slot whether it is occupied.
    pub fn set(&mut self, slot: usize, occupied: bool)
        requires { slot < length self.old.words.items * 64 }
        ensures at { is_marked self.new.words.items slot ≡ occupied }
        ensures others { (s : ℕ) → s ≢ slot → is_marked self.new.words.items s ≡ is_marked self.old.words.items s }
        ensures all { length self.new.words.items ≡ length self.old.words.items }
    {
        let bit = 1u64 << (slot % 64);
        if occupied {
            self.words[slot / 64] |= bit;
        } else {
            self.words[slot / 64] &= !bit;
        }
    }

    /// The first occupied slot from one on.
    pub fn next_from(&self, from: usize) -> Option<usize>
        ensures from { IfSome result (λ slot. from ≤ slot) }
        ensures occupied { IfSome result (λ slot. is_marked self.now.words.items slot ≡ true) }
        ensures first { IfSome result (λ slot. (s : ℕ) → from ≤ s → s < slot
            → is_marked self.now.words.items s ≡ false) }
        ensures none { IfNone result ((s : ℕ) → from ≤ s → is_marked self.now.words.items s ≡ false) }
    {
        let mut slot = from;
        while slot / 64 < self.words.len() {
            let rest = self.words[slot / 64] >> (slot % 64);
            if rest != 0 {
                return Some(slot + rest.trailing_zeros() as usize);
            }
            slot = (slot / 64 + 1) * 64;
        }
        None
    }
}
