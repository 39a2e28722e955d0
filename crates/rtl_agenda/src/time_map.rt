//! Changes by their times, in an ordered map.

ghost use Rattle.std.specs.Prelude.{◌≡◌, ◌<◌, ◌≤◌, ◌-◌, ◌∷◌, [], ℕ, List, IfSome, IfNone, OnOk, OnErr};
ghost use Rattle.std.specs.List.{AllByRecursion};
ghost use Rattle.std.specs.Map.{keys_of};
ghost use Rattle.rtl_agenda.specs.Agenda.{Change, with_change};
ghost use Rattle.rtl_agenda.specs.MapState.{IsInOrder, waiting_of};

use crate::agenda::{Change, NoMemory};
use std::alloc::Global;
use std::collections::BTreeMap;

/// The changes of each time for which some wait.
#[derive(Drop)]
pub struct TimeMap {
    alloc: Global,
    pub times: BTreeMap<u64, Vec<Change>>,
    pub ghost in_order: { IsInOrder (waiting_of times.entries) },
}

impl TimeMap {
    /// A map in which no change waits. It takes no memory.
    pub fn new(alloc: Global) -> Self
        ensures { waiting_of result.times.entries ≡ [] }
    {
        TimeMap {
            alloc,
            times: BTreeMap::new(alloc),
        }
    }

    /// Puts a change last among those of its time. Where memory is refused, nothing is changed.
    pub fn push(&mut self, time: u64, change: Change) -> Result<(), NoMemory>
        ensures ok { OnOk result
            (waiting_of self.new.times.entries ≡ with_change (waiting_of self.old.times.entries) time change) }
        ensures refused { OnErr result (waiting_of self.new.times.entries ≡ waiting_of self.old.times.entries) }
    {
        if let Some(changes) = self.times.get_mut(&time) {
            changes.push(change)?;
            return Ok(());
        }
        let mut changes = Vec::new(self.alloc);
        changes.push(change)?;
        self.times.insert(time, changes)?;
        Ok(())
    }

    /// Takes the least time off, with its changes. It takes no memory.
    pub fn take_first(&mut self) -> Option<(u64, Vec<Change>)>
        ensures first { IfSome result (λ e.
            waiting_of self.old.times.entries ≡ (e.0, e.1.items) ∷ waiting_of self.new.times.entries) }
        ensures empty { IfNone result (waiting_of self.old.times.entries ≡ []) }
        ensures unchanged { IfNone result (waiting_of self.new.times.entries ≡ waiting_of self.old.times.entries) }
    {
        self.times.pop_first()
    }

    /// Takes the least time off, with its changes, if it is less than so far ahead of another.
    pub fn take_near(&mut self, from: u64, turn: usize) -> Option<(u64, Vec<Change>)>
        ensures first { IfSome result (λ e.
            waiting_of self.old.times.entries ≡ (e.0, e.1.items) ∷ waiting_of self.new.times.entries) }
        ensures near { IfSome result (λ e. e.0 - from < turn) }
        ensures far { IfNone result
            (AllByRecursion (λ t. turn ≤ t - from) (keys_of (waiting_of self.old.times.entries))) }
        ensures unchanged { IfNone result (waiting_of self.new.times.entries ≡ waiting_of self.old.times.entries) }
    {
        if self.first()?.saturating_sub(from) >= turn as u64 {
            return None;
        }
        self.take_first()
    }

    // The least time.
    fn first(&self) -> Option<u64>
        ensures some { IfSome result (λ time. (changes : List Change) × (rest : List (ℕ × List Change))
            × (waiting_of self.now.times.entries ≡ (time, changes) ∷ rest)) }
        ensures none { IfNone result (waiting_of self.now.times.entries ≡ []) }
    {
        let first = self.times.first_key_value()?;
        Some(*first.0)
    }
}
