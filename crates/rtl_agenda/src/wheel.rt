//! An agenda over a ring of slots.

ghost use Rattle.std.specs.Prelude.{◌≡◌, ◌∷◌, ◌≤◌, ◌<◌, [], Some, None, IfOk, IfSome, IfNone, unwrap_or};
ghost use Rattle.rtl_agenda.specs.Agenda.{IsOrderly};
ghost use Rattle.rtl_agenda.specs.MapState.{waiting_of};
ghost use Rattle.rtl_agenda.specs.Occupied.{most_slots};
ghost use Rattle.rtl_agenda.specs.Wheel.{IsAhead, IsParted, entries_of, turned_to, waiting_in};

use crate::agenda::{Agenda, Change, NoMemory};
use crate::ring::Ring;
use crate::time_map::TimeMap;
use std::alloc::Global;

/// An agenda that keeps the times of one turn in a ring of slots, each in the slot of its remainder
/// modulo their number, and later times in an ordered map. A turn is as many ns as there are slots.
#[derive(Drop)]
pub struct Wheel {
    near: Ring,
    far: TimeMap,
    last: Option<u64>,
    taken: Vec<Change>,
    ghost parted: { IsParted (waiting_of far.times.entries) (entries_of near.slots.items) (unwrap_or last 0) },
    ghost orderly: { IsOrderly
        (turned_to (waiting_of far.times.entries) (entries_of near.slots.items) last taken.items) },
}

impl Wheel {
    /// An agenda of so many slots, 1 to 65,536, in which no change waits and no time has been
    /// taken.
    pub fn new(alloc: Global, slots: usize) -> Result<Self, NoMemory>
        requires some { 0 < slots }
        requires bounded { slots ≤ most_slots }
        ensures { IfOk result (λ w. ⟦<Wheel as Agenda>⟧.state w ≡ record { waiting = []; last = None; taken = [] }) }
    {
        Ok(Wheel {
            near: Ring::new(alloc, slots)?,
            far: TimeMap::new(alloc),
            last: None,
            taken: Vec::new(alloc),
        })
    }
}

impl Agenda for Wheel {
    ghost state = { λ w.
        turned_to (waiting_of w.far.times.entries) (entries_of w.near.slots.items) w.last w.taken.items };

    ghost orderly = { λ w. w.orderly };

    fn push(&mut self, time: u64, change: Change) -> Result<(), NoMemory> {
        if time - self.last.unwrap_or(0) < self.near.slots.len() as u64 {
            return self.near.push(time, change);
        }
        self.far.push(time, change)
    }

    fn next(&mut self) -> Option<u64> {
        let from = self.last.unwrap_or(0);
        let time = take_least(&mut self.near, &mut self.far, from, &mut self.taken)?;
        draw_near(&mut self.near, &mut self.far, time);
        self.last = Some(time);
        Some(time)
    }

    fn changes(&self) -> &[Change] {
        &self.taken
    }
}

// Takes the least time off, which a slot has where any has one, and its changes.
fn take_least(near: &mut Ring, far: &mut TimeMap, from: u64, taken: &mut Vec<Change>) -> Option<u64>
    requires { IsParted (waiting_of far.old.times.entries) (entries_of near.old.slots.items) from }
    ensures least { IfSome result (λ time.
        waiting_in (waiting_of far.old.times.entries) (entries_of near.old.slots.items)
        ≡ (time, taken.new.items) ∷ waiting_in (waiting_of far.new.times.entries) (entries_of near.new.slots.items)) }
    ensures ahead { IfSome result (λ time.
        IsAhead (waiting_of far.new.times.entries) (entries_of near.new.slots.items) time) }
    ensures empty { IfNone result
        (waiting_in (waiting_of far.old.times.entries) (entries_of near.old.slots.items) ≡ []) }
    ensures near { IfNone result (entries_of near.new.slots.items ≡ entries_of near.old.slots.items) }
    ensures far { IfNone result (waiting_of far.new.times.entries ≡ waiting_of far.old.times.entries) }
    ensures taken { IfNone result (taken.new.items ≡ taken.old.items) }
{
    if let Some(slot) = near.first_from(from) {
        let time = near.slots[slot].time;
        near.take(slot, taken);
        return Some(time);
    }
    let (time, changes) = far.take_first()?;
    *taken = changes;
    Some(time)
}

// Draws the times that are within a turn from one on into their slots.
fn draw_near(near: &mut Ring, far: &mut TimeMap, from: u64)
    requires { IsAhead (waiting_of far.old.times.entries) (entries_of near.old.slots.items) from }
    ensures waiting { waiting_in (waiting_of far.new.times.entries) (entries_of near.new.slots.items)
        ≡ waiting_in (waiting_of far.old.times.entries) (entries_of near.old.slots.items) }
    ensures parted { IsParted (waiting_of far.new.times.entries) (entries_of near.new.slots.items) from }
{
    while let Some((time, changes)) = far.take_near(from, near.slots.len()) {
        near.put(time, changes);
    }
}
