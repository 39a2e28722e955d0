//! New values of inputs.

ghost use Rattle.std.specs.Prelude.{◌≡◌, ◌<◌, ⊤, length, All, IfOk};
ghost use Rattle.rtl_kernel.specs.kernel.Simulation.{changes_of, each_given};
ghost use Rattle.rtl_kernel.specs.values.TwoValues.{AreChanged};
ghost use Rattle.rtl_kernel.specs.wakes.Woken.{wakers_of};
ghost use Rattle.rtl_levels.specs.Marks.{AreBelow, IsGiven, Marks};
ghost use Rattle.rtl_levels.specs.States.{Advances, HaveReaders};

use crate::marks::mark_readers;
use crate::schedule::Schedule;
use crate::state::State;
use std::alloc::{AllocError, Global};
use vhdl_values::Nine;

/// Gives nets values, one after the other.
pub fn set_inputs(changes: &[(usize, Nine)], values: &mut Vec<u8>)
    requires { All (λ c. c.0 < length values.old.items) changes.now }
    ensures { AreChanged (changes_of changes.now) values.old.items values.new.items }
{
    for (net, value) in changes {
        values[*net] = value.code();
    }
}

/// A change for each of these nets, which gives it the value of the same number.
pub fn changes_to(
    alloc: Global,
    nets: &[usize],
    given: &[Nine],
) -> Result<Vec<(usize, Nine)>, AllocError>
    requires { length given.now ≡ length nets.now }
    ensures { IfOk result (λ changes. changes_of changes.items ≡ each_given nets.now given.now) }
{
    let mut changes = Vec::with_capacity(alloc, nets.len())?;
    for number in 0..nets.len() {
        changes.push((nets[number], given[number]))?;
    }
    Ok(changes)
}

/// Gives nets values, one after the other, and marks the readers and the chunks of those that
/// change.
pub fn take_inputs(
    schedule: &Schedule,
    changes: &[(usize, Nine)],
    woken: &mut Vec<bool>,
    state: &mut State,
)
    requires there { All (λ c. c.0 < length state.old.values.items) changes.now }
    requires have_readers { HaveReaders schedule.now.readers state.old }
    requires each_clocked { length (wakers_of schedule.now.clocked) ≡ length state.old.values.items }
    requires clocked { AreBelow (wakers_of schedule.now.clocked) (length woken.old.items) }
    ensures values { AreChanged (changes_of changes.now) state.old.values.items state.new.values.items }
    ensures woken { Marks (wakers_of schedule.now.clocked) (IsGiven (changes_of changes.now))
        state.old.values.items state.new.values.items woken.old.items woken.new.items }
    ensures advances { Advances schedule.now.readers (λ _. ⊤) state.old state.new }
{
    for (net, value) in changes {
        let code = value.code();
        mark_readers(&schedule.clocked, &state.values, *net, code, woken);
        state.set(&schedule.readers, *net, code);
    }
}
