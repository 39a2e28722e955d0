//! An agenda over an ordered map.

ghost use Rattle.std.specs.Prelude.{◌≡◌, [], None};
ghost use Rattle.rtl_agenda.specs.Agenda.{IsOrderly};
ghost use Rattle.rtl_agenda.specs.MapState.{state_of};

use crate::agenda::{Agenda, Change, NoMemory};
use crate::time_map::TimeMap;
use std::alloc::Global;

/// An agenda that keeps its times in an ordered map.
#[derive(Drop)]
pub struct MapAgenda {
    waiting: TimeMap,
    last: Option<u64>,
    taken: Vec<Change>,
    ghost orderly: { IsOrderly (state_of waiting.times last taken) },
}

impl MapAgenda {
    /// An agenda in which no change waits and no time has been taken. It takes no memory.
    pub fn new(alloc: Global) -> Self
        ensures { ⟦<MapAgenda as Agenda>⟧.state result ≡ record { waiting = []; last = None; taken = [] } }
    {
        MapAgenda {
            waiting: TimeMap::new(alloc),
            last: None,
            taken: Vec::new(alloc),
        }
    }
}

impl Agenda for MapAgenda {
    ghost state = { λ a. state_of a.waiting.times a.last a.taken };

    ghost orderly = { λ a. a.orderly };

    fn push(&mut self, time: u64, change: Change) -> Result<(), NoMemory> {
        self.waiting.push(time, change)
    }

    fn next(&mut self) -> Option<u64> {
        let (time, changes) = self.waiting.take_first()?;
        self.last = Some(time);
        self.taken = changes;
        Some(time)
    }

    fn changes(&self) -> &[Change] {
        &self.taken
    }
}
