//! The changes of a time in its slot.

ghost use Rattle.std.specs.Prelude.{◌≡◌, ◌++◌, ◌∷◌, [], OnOk, OnErr};
ghost use Rattle.rtl_agenda.specs.Wheel.{entry_of};

use crate::agenda::{Change, NoMemory};
use std::mem;

/// A time and the changes that wait for it, if there are some.
#[derive(Drop)]
pub struct Slot {
    pub time: u64,
    pub changes: Vec<Change>,
}

impl Slot {
    /// Puts a change last, and gives the slot its time. An empty slot takes the room of the spare
    /// list.
    pub fn push(
        &mut self,
        time: u64,
        change: Change,
        spare: &mut Vec<Change>,
    ) -> Result<(), NoMemory>
        ensures ok { OnOk result (entry_of self.new ≡ (time, (entry_of self.old).1 ++ change ∷ [])) }
        ensures refused { OnErr result (entry_of self.new ≡ entry_of self.old) }
    {
        take_room(&mut self.changes, spare);
        self.changes.push(change)?;
        self.time = time;
        Ok(())
    }
}

// Gives a list that is empty the room of the spare one.
fn take_room(changes: &mut Vec<Change>, spare: &mut Vec<Change>)
    ensures { changes.new.items ≡ changes.old.items }
{
    if changes.is_empty() {
        spare.clear();
        mem::swap(changes, spare);
    }
}
