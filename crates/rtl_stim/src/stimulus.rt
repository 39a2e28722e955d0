//! Stimuli.

ghost use Rattle.std.specs.Prelude.{◌≡◌, ◌<◌, ◌≤◌, ℕ, Contains, IfSome, Some, length, map, vec_len};
ghost use Rattle.rtl_stim_lines.specs.Inputs.{input_at};
ghost use Rattle.rtl_stim_lines.specs.Reading.{latest_time};
ghost use Rattle.rtl_stim_lines.specs.Times.{element_value, nets_of, value_at};
ghost use Rattle.rtl_stim_lines.specs.View.{course_in, element_view, schedule_view};
ghost use Rattle.rtl_stim.specs.Stimuli.{initial_values};
ghost use Rattle.rtl_stim.specs.Moments.{IsStimulus};

use crate::ports::elements_at;
use rtl_stim_lines::{Element, InputTable, Schedule};
use std::marker::Model;
use vhdl_values::Nine;

/// A stimulus of a netlist: the value of each input at each time, in ns, up to a stop.
#[derive(Drop)]
pub struct Stimulus {
    pub(crate) inputs: InputTable,
    pub(crate) schedule: Schedule,
    pub(crate) initial: Vec<Nine>,
    /// The net of each input's first element. The nets of the inputs rise.
    pub(crate) firsts: Vec<usize>,
}

impl Model for Stimulus {
    ghost use Rattle.rtl_stim.specs.Stimuli.{StimulusView};

    ghost Value = { StimulusView };

    ghost use Rattle.rtl_stim.specs.Kept.{stimulus_view, IsKept};

    ghost view = { stimulus_view };

    ghost invariant = { IsKept };
}

impl Stimulus {
    /// The last time, in ns, which is at most 10^15. A caller in another crate also learns here
    /// what holds of every stimulus.
    pub fn stop(&self) -> u64
        ensures stop { result ≡ self.now.schedule.stop }
        ensures in_time { self.now.schedule.stop ≤ latest_time }
        ensures holds { IsStimulus self.now }
    {
        self.schedule.stop
    }

    /// The value of each input at 0, in the order of the netlist's `inputs`. It takes no memory.
    pub fn initial(&self) -> &[Nine]
        ensures { result.now ≡ initial_values self.now }
    {
        self.initial.as_slice()
    }

    /// The value of a net at a time, in ns: of an input, and `U` of any other net. It takes no
    /// memory, and time by the logarithm of the inputs and in proportion to the elements of one.
    pub fn value(&self, net: usize, time: u64) -> Nine
        ensures { result ≡ value_at self.now.inputs self.now.schedule net time }
    {
        let Some(place) = self.place_of(net) else {
            return Nine::U;
        };
        let elements = elements_at(&self.inputs, place);
        value_among(&self.schedule, place, elements, net, time).unwrap_or(Nine::U)
    }

    /// The place of the only input that may have a net.
    pub(crate) fn place_of(&self, net: usize) -> Option<usize>
        ensures within { IfSome result (λ place. place < length self.now.inputs) }
        ensures only { (place : ℕ) → place < length self.now.inputs
            → Contains (nets_of (input_at self.now.inputs place)) net
            → result ≡ Some place }
    {
        match self.firsts.binary_search(&net) {
            Ok(place) => Some(place),
            Err(behind) => behind.checked_sub(1),
        }
    }
}

/// The value at a time of a net among the elements of the input at a place.
fn value_among(
    schedule: &Schedule,
    place: usize,
    elements: &[Element],
    net: usize,
    time: u64,
) -> Option<Nine>
    requires { place < vec_len schedule.now.courses }
    ensures { result ≡ element_value (course_in (schedule_view schedule.now) place) 0 (map element_view elements.now)
        net time }
{
    for (from_left, element) in elements.iter().enumerate() {
        if element.net == net {
            return Some(schedule.value(place, from_left, element.start, time));
        }
    }
    None
}
