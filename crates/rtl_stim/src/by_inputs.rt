//! The first time with a race, input by input.

ghost use Rattle.std.specs.Prelude.{◌≡◌, false, ℕ, ◌<◌, ◌≤◌, IsTrue, IfSome, IfNone, length, map};
ghost use Rattle.rtl_model.specs.basics.Lists.{RisesBy};
ghost use Rattle.rtl_model.specs.simulation.Report.{clock_key};
ghost use Rattle.rtl_stim_lines.specs.Inputs.{input_at};
ghost use Rattle.rtl_stim_lines.specs.Times.{nets_of};
ghost use Rattle.rtl_stim.specs.Quiet.{AreFree, HasNoneHere, HasPassed, IsFirstTime};

use crate::filling::next_busy;
use crate::ports::elements_at;
use crate::races::{active_clock, some_change};
use crate::stimulus::Stimulus;
use rtl_stim_lines::Element;
use vhdl_values::Edge;

/// Whether one of these elements changes at an active edge of a clock.
fn has_race(stimulus: &Stimulus, clocks: &[(usize, Edge)], elements: &[Element], time: u64) -> bool
    requires later { 0 < time }
    requires clocks { RisesBy clock_key clocks.now }
    ensures race { IsTrue result → HasNoneHere stimulus.now clocks.now (map (λ e. e.net) elements.now) time → ⊥ }
    ensures none { result ≡ false → HasNoneHere stimulus.now clocks.now (map (λ e. e.net) elements.now) time }
{
    active_clock(stimulus, clocks, time).is_some() && some_change(stimulus, clocks, elements, time)
}

impl Stimulus {
    /// The first time before another at which the input at a place has a race, the other time where
    /// it has none.
    fn race_before(&self, clocks: &[(usize, Edge)], place: usize, past: u64) -> u64
        requires clocks { RisesBy clock_key clocks.now }
        requires there { place < length self.now.inputs }
        requires some { 0 < past }
        ensures later { 0 < result }
        ensures within { result ≤ past }
        ensures race { result < past
            → HasNoneHere self.now clocks.now (nets_of (input_at self.now.inputs place)) result → ⊥ }
        ensures none { (t : ℕ) → 0 < t → t < result
            → HasNoneHere self.now clocks.now (nets_of (input_at self.now.inputs place)) t }
    {
        let elements = elements_at(&self.inputs, place);
        let mut now = 0;
        while let Some(time) = next_busy(&self.schedule.courses[place], now, past - 1) {
            if has_race(self, clocks, elements, time) {
                return time;
            }
            now = time;
        }
        past
    }

    /// The first time with a race, the one behind the stop where there is none. It looks at the
    /// times at which an input changes that is no clock.
    fn time_by_inputs(&self, clocks: &[(usize, Edge)]) -> u64
        requires { RisesBy clock_key clocks.now }
        ensures { HasPassed self.now clocks.now (length self.now.inputs) result }
    {
        let mut past = self.stop() + 1;
        for place in 0..self.inputs.len() {
            if self.is_data(clocks, place) {
                past = self.race_before(clocks, place, past);
            }
        }
        past
    }

    /// The first time with a race; none where no time up to the stop has one. It takes no memory,
    /// and time by the changes of inputs that are no clocks times the clocks.
    pub(crate) fn race_by_inputs(&self, clocks: &[(usize, Edge)]) -> Option<u64>
        requires { RisesBy clock_key clocks.now }
        ensures found { IfSome result (IsFirstTime self.now clocks.now) }
        ensures none { IfNone result (AreFree self.now clocks.now self.now.schedule.stop) }
    {
        let time = self.time_by_inputs(clocks);
        if time <= self.stop() {
            Some(time)
        } else {
            None
        }
    }
}
