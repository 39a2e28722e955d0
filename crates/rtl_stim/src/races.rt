//! The first race under a stimulus.

ghost use Rattle.std.specs.Prelude.{◌≡◌, false, ℕ, suc, ◌+◌, ◌<◌, ◌≤◌, All, Contains, IsTrue, Some, None, IfSome, IfNone, IfOk, OnOk, length, map, slice_index};
ghost use Rattle.rtl_model.specs.basics.Lists.{RisesBy};
ghost use Rattle.rtl_model.specs.nets.CoreNetlist.{core_netlist};
ghost use Rattle.rtl_model.specs.simulation.Races.{HasNoRace, IsFirstRace};
ghost use Rattle.rtl_model.specs.simulation.Report as report;
ghost use Rattle.rtl_model.specs.simulation.Report.{clock_key};
ghost use Rattle.rtl_net.specs.Nets.{flat};
ghost use Rattle.rtl_stim_lines.specs.Courses.{is_busy};
ghost use Rattle.rtl_stim_lines.specs.Inputs.{input_at};
ghost use Rattle.rtl_stim_lines.specs.Times.{all_nets, nets_of, value_at};
ghost use Rattle.rtl_stim_lines.specs.View.{course_view};
ghost use Rattle.rtl_stim.specs.Stimuli.{moments, inputs_at};
ghost use Rattle.rtl_stim.specs.Quiet.{IsNoClock, IsWithin, IsActiveAt, HasEdgeAt, IsChangedAt, IsRaceHere, HasNoneHere, clock_at, found_or_past};
ghost use Rattle.rtl_stim.specs.Quiet.{AreChanges, AreFree, Changes, HasAdded, HasSearched, IsAmong, IsFirstTime};

use crate::filling::next_busy;
use crate::ports::elements_at;
use crate::stimulus::Stimulus;
use rtl_agenda::NoMemory;
use rtl_net::Net;
use rtl_stim_lines::{Course, Element};
use std::alloc::Global;
use std::collections::BTreeSet;
use vhdl_values::{Edge, edge};

/// A data input that changes at an active edge of a clock, both by their nets, at a time in ns.
#[derive(Clone, Copy)]
pub struct Race {
    pub time: u64,
    pub input: usize,
    pub clock: usize,
}

/// Whether a net is one of the clocks. It takes time by the logarithm of their number.
fn is_clock(clocks: &[(usize, Edge)], net: usize) -> bool
    requires { RisesBy clock_key clocks.now }
    ensures clock { IsTrue result → (edge : Edge) × Contains clocks.now (net, edge) }
    ensures none { result ≡ false → IsNoClock clocks.now net }
{
    let mut low = 0;
    let mut high = clocks.len();
    while low < high {
        let middle = low + (high - low) / 2;
        let (clock, _) = clocks[middle];
        if clock == net {
            return true;
        }
        if clock < net {
            low = middle + 1;
        } else {
            high = middle;
        }
    }
    false
}

/// The first clock with an active edge at a time.
pub(crate) fn active_clock(
    stimulus: &Stimulus,
    clocks: &[(usize, Edge)],
    time: u64,
) -> Option<usize>
    requires { 0 < time }
    ensures found { IfSome result (λ clock. (k : ℕ) × (k < length clocks.now)
        × IsActiveAt stimulus.now clocks.now time k
        × (clock_at clocks.now k ≡ clock) × ((j : ℕ) → j < k → IsActiveAt stimulus.now clocks.now time j → ⊥)) }
    ensures none { IfNone result ((k : ℕ) → k < length clocks.now → IsActiveAt stimulus.now clocks.now time k → ⊥) }
{
    for (clock, kind) in clocks {
        if edge(
            *kind,
            stimulus.value(*clock, time - 1),
            stimulus.value(*clock, time),
        ) {
            return Some(*clock);
        }
    }
    None
}

/// Whether a net is no clock and changes at a time.
fn changes(stimulus: &Stimulus, clocks: &[(usize, Edge)], net: usize, time: u64) -> bool
    requires later { 0 < time }
    requires clocks { RisesBy clock_key clocks.now }
    ensures changed { IsTrue result → IsChangedAt stimulus.now clocks.now time net }
    ensures unchanged { result ≡ false → IsChangedAt stimulus.now clocks.now time net → ⊥ }
{
    let before = stimulus.value(net, time - 1).code();
    let now = stimulus.value(net, time).code();
    before != now && !is_clock(clocks, net)
}

/// The first of these inputs that is no clock and changes at a time.
fn changed_input(
    stimulus: &Stimulus,
    clocks: &[(usize, Edge)],
    inputs: &[usize],
    time: u64,
) -> Option<usize>
    requires later { 0 < time }
    requires clocks { RisesBy clock_key clocks.now }
    ensures found { IfSome result (λ input. (k : ℕ) × (k < length inputs.now) × (slice_index inputs.now k ≡ input)
        × IsChangedAt stimulus.now clocks.now time input
        × ((j : ℕ) → j < k → IsChangedAt stimulus.now clocks.now time (slice_index inputs.now j) → ⊥)) }
    ensures none { IfNone result ((k : ℕ) → k < length inputs.now
        → IsChangedAt stimulus.now clocks.now time (slice_index inputs.now k) → ⊥) }
{
    for input in inputs {
        if changes(stimulus, clocks, *input, time) {
            return Some(*input);
        }
    }
    None
}

/// The race at a time, of the first of these inputs that changes and the first clock with an active
/// edge.
fn race_at(
    inputs: &[usize],
    clocks: &[(usize, Edge)],
    stimulus: &Stimulus,
    time: u64,
) -> Option<Race>
    requires later { 0 < time }
    requires clocks { RisesBy clock_key clocks.now }
    ensures found { IfSome result
        (λ race. (race.time ≡ time) × IsRaceHere stimulus.now clocks.now inputs.now time race.input race.clock) }
    ensures none { IfNone result (HasNoneHere stimulus.now clocks.now inputs.now time) }
{
    let clock = active_clock(stimulus, clocks, time)?;
    let input = changed_input(stimulus, clocks, inputs, time)?;
    Some(Race { time, input, clock })
}

/// Whether all these elements are clocks.
fn are_clocks(clocks: &[(usize, Edge)], elements: &[Element]) -> bool
    requires { RisesBy clock_key clocks.now }
    ensures { IsTrue result → All (λ n. IsNoClock clocks.now n → ⊥) (map (λ e. e.net) elements.now) }
{
    for element in elements {
        if !is_clock(clocks, element.net) {
            return false;
        }
    }
    true
}

/// Whether one of these elements is no clock and changes at a time.
pub(crate) fn some_change(
    stimulus: &Stimulus,
    clocks: &[(usize, Edge)],
    elements: &[Element],
    time: u64,
) -> bool
    requires later { 0 < time }
    requires clocks { RisesBy clock_key clocks.now }
    ensures changed { IsTrue result → Changes stimulus.now clocks.now (map (λ e. e.net) elements.now) time }
    ensures unchanged { result ≡ false → Changes stimulus.now clocks.now (map (λ e. e.net) elements.now) time → ⊥ }
{
    for element in elements {
        if changes(stimulus, clocks, element.net, time) {
            return true;
        }
    }
    false
}

/// The first of these times after now, up to a last one, at which a course is busy.
fn next_meeting(course: &Course, times: &BTreeSet<u64>, now: u64, last: u64) -> Option<u64>
    ensures within { IsWithin now last result }
    ensures among { IfSome result (λ t. IsAmong times.now t) }
    ensures none { (t : ℕ) → now < t → t < found_or_past result last
        → IsTrue (is_busy (course_view course.now) t) → IsAmong times.now t → ⊥ }
{
    let mut seen = now;
    while let Some(busy) = next_busy(course, seen, last) {
        let time = next_of(times, busy)?;
        if time == busy {
            return Some(time);
        }
        seen = time - 1;
    }
    None
}

/// The first of these times that isn't before another.
fn next_of(times: &BTreeSet<u64>, from: u64) -> Option<u64>
    ensures found { IfSome result (λ t. (from ≤ t) × IsAmong times.now t) }
    ensures none { (t : ℕ) → from ≤ t → IfSome result (λ found. t < found) → IsAmong times.now t → ⊥ }
{
    match times.range(from..).next() {
        Some(time) => Some(*time),
        None => None,
    }
}

/// Beside how many clocks at most races are searched for input by input, each change beside each
/// clock.
const FEW: usize = 16;

/// How often the data inputs with clock lines toggle, some times more or less, in what is searched
/// for races at once.
const TOGGLES: u64 = 16384;

/// How often an input with this course toggles up to a stop, or once more; 0 where it has no clock
/// line.
fn toggles_of(course: &Course, stop: u64) -> u64
    requires { stop < 18446744073709551615 }
    ensures { result ≤ stop + 1 }
{
    match course {
        Course::Sets(_) => 0,
        Course::Ticks { first: _, half } => stop.checked_div(*half).unwrap_or(0) + 1,
    }
}

impl Stimulus {
    /// Whether an element of the input at a place is no clock.
    pub(crate) fn is_data(&self, clocks: &[(usize, Edge)], place: usize) -> bool
        requires clocks { RisesBy clock_key clocks.now }
        requires there { place < length self.now.inputs }
        ensures { result ≡ false → All (λ n. IsNoClock clocks.now n → ⊥) (nets_of (input_at self.now.inputs place)) }
    {
        !are_clocks(clocks, elements_at(&self.inputs, place))
    }

    /// How many ns are searched for races at once, so that data inputs with clock lines take little
    /// memory, and an early race is found early.
    fn span(&self, clocks: &[(usize, Edge)]) -> u64
        requires { RisesBy clock_key clocks.now }
        ensures { 0 < result }
    {
        let stop = self.stop();
        let mut toggles = 0u64;
        for place in 0..self.inputs.len() {
            if self.is_data(clocks, place) {
                toggles = toggles.saturating_add(toggles_of(&self.schedule.courses[place], stop));
            }
        }
        stop / (toggles / TOGGLES + 1) + 1
    }

    /// Adds the times behind one and up to a last one at which the input at a place changes. It
    /// takes memory for each of them.
    fn add_changes(
        &self,
        clocks: &[(usize, Edge)],
        place: usize,
        from: u64,
        last: u64,
        times: &mut BTreeSet<u64>,
    ) -> Result<(), NoMemory>
        requires clocks { RisesBy clock_key clocks.now }
        requires there { place < length self.now.inputs }
        ensures { OnOk result
            (HasAdded self.now clocks.now (nets_of (input_at self.now.inputs place)) from last times.old times.new) }
    {
        let elements = elements_at(&self.inputs, place);
        let mut now = from;
        while let Some(time) = next_busy(&self.schedule.courses[place], now, last) {
            if some_change(self, clocks, elements, time) {
                times.insert(time)?;
            }
            now = time;
        }
        Ok(())
    }

    /// The times behind one and up to a last one at which an input changes that is no clock. It
    /// takes memory for each of them.
    fn change_times(
        &self,
        alloc: Global,
        clocks: &[(usize, Edge)],
        from: u64,
        last: u64,
    ) -> Result<BTreeSet<u64>, NoMemory>
        requires { RisesBy clock_key clocks.now }
        ensures { IfOk result (AreChanges self.now clocks.now (length self.now.inputs) from last) }
    {
        let mut times = BTreeSet::new(alloc);
        for place in 0..self.inputs.len() {
            if self.is_data(clocks, place) {
                self.add_changes(clocks, place, from, last, &mut times)?;
            }
        }
        Ok(times)
    }

    /// The first of these times before another at which a net has an edge, the other time where
    /// there is none.
    fn edge_before(&self, times: &BTreeSet<u64>, past: u64, net: usize, kind: Edge) -> u64
        requires { 0 < past }
        ensures later { 0 < result }
        ensures within { result ≤ past }
        ensures edge { result < past → IsAmong times.now result × HasEdgeAt self.now net kind result }
        ensures none { (t : ℕ) → 0 < t → t < result → HasEdgeAt self.now net kind t → IsAmong times.now t → ⊥ }
    {
        let Some(place) = self.place_of(net) else {
            return past;
        };
        let mut now = 0;
        while let Some(time) = next_meeting(&self.schedule.courses[place], times, now, past - 1) {
            if edge(kind, self.value(net, time - 1), self.value(net, time)) {
                return time;
            }
            now = time;
        }
        past
    }

    /// The first of these times up to a last one at which a clock has its edge, the one behind the
    /// last where there is none.
    fn first_time(&self, clocks: &[(usize, Edge)], times: &BTreeSet<u64>, last: u64) -> u64
        requires { last < 18446744073709551615 }
        ensures { HasSearched self.now clocks.now times.now last (length clocks.now) result }
    {
        let mut past = last + 1;
        for (clock, kind) in clocks {
            past = self.edge_before(times, past, *clock, *kind);
        }
        past
    }

    /// The first time with a race; none where no time up to the stop has one. It takes memory for
    /// the changes of one span.
    fn race_by_clocks(
        &self,
        alloc: Global,
        clocks: &[(usize, Edge)],
    ) -> Result<Option<u64>, NoMemory>
        requires { RisesBy clock_key clocks.now }
        ensures found { IfOk result (λ found. IfSome found (IsFirstTime self.now clocks.now)) }
        ensures none { IfOk result (λ found. IfNone found (AreFree self.now clocks.now self.now.schedule.stop)) }
    {
        let stop = self.stop();
        let span = self.span(clocks);
        let mut from = 0;
        while from < stop {
            let last = from + span.min(stop - from);
            let times = self.change_times(alloc, clocks, from, last)?;
            let time = self.first_time(clocks, &times, last);
            if time <= last {
                return Ok(Some(time));
            }
            from = last;
        }
        Ok(None)
    }

    /// The first time with a race; none where no time up to the stop has one. It goes by inputs
    /// where the clocks are few.
    fn race_time(&self, alloc: Global, clocks: &[(usize, Edge)]) -> Result<Option<u64>, NoMemory>
        requires { RisesBy clock_key clocks.now }
        ensures found { IfOk result (λ found. IfSome found (IsFirstTime self.now clocks.now)) }
        ensures none { IfOk result (λ found. IfNone found (AreFree self.now clocks.now self.now.schedule.stop)) }
    {
        if clocks.len() <= FEW {
            return Ok(self.race_by_inputs(clocks));
        }
        self.race_by_clocks(alloc, clocks)
    }
}

/// The earliest race of a netlist whose clocks these are, with the lowest data input that changes
/// and the lowest clock with an active edge; `None` exactly where no moment up to the stop has one.
///
/// It looks at the times at which a data input changes, and passes over the edges of clocks at
/// which none does. Beside more than a few clocks it takes memory for the changes of one span of
/// time: for each that a line of the stimulus says, and for some ten thousand toggles.
pub fn first_race(
    alloc: Global,
    net: &Net,
    clocks: &[(usize, Edge)],
    stimulus: &Stimulus,
) -> Result<Option<Race>, NoMemory>
    requires clocks { report.AreClocks (core_netlist (flat net.now)) clocks.now }
    requires inputs { all_nets stimulus.now.inputs ≡ net.now.inputs }
    ensures found { IfOk result (λ found. IfSome found (λ race. (m : ℕ) × (suc m < length (moments stimulus.now))
        × (slice_index (moments stimulus.now) (suc m) ≡ race.time)
        × IsFirstRace (core_netlist (flat net.now)) clocks.now (inputs_at stimulus.now) m race.input race.clock)) }
    ensures none { IfOk result
        (λ found. IfNone found ((last : ℕ) → HasNoRace (core_netlist (flat net.now)) (inputs_at stimulus.now) last)) }
{
    net.is_elaborated();
    let Some(time) = stimulus.race_time(alloc, clocks)? else {
        return Ok(None);
    };
    Ok(race_at(net.inputs(), clocks, stimulus, time))
}
