//! What an input does.

ghost use Rattle.std.specs.Prelude.{◌≡◌, ◌<◌, ◌+◌, ◌^◌, ◌/◌, IfSome, IfNone, option_map};
ghost use Rattle.rtl_stim_lines.specs.Courses as said;
ghost use Rattle.rtl_stim_lines.specs.Courses.{course_value, is_busy, IsNextToggle};
ghost use Rattle.rtl_stim_lines.specs.Reading.{after_set, after_clock, in_line};
ghost use Rattle.rtl_stim_lines.specs.View.{course_view, value_in, Leads};

use crate::faults::StimFault;
use fault_rules::StimRule;
use std::collections::BTreeMap;
use vhdl_values::{Nine, Vec9};

/// What an input does.
#[derive(Drop)]
pub enum Course {
    /// It is set at these times, each to the values that its elements have from then on.
    Sets(BTreeMap<u64, Vec9>),
    /// It is a clock.
    Ticks { first: u64, half: u64 },
}

impl Course {
    /// Sets the input at a time, which the line of this number says.
    pub fn set(&mut self, line: usize, time: u64, values: Vec9) -> Result<(), StimFault>
        ensures { Leads (in_line line (after_set time values (course_view self.old))) (course_view self.new) result }
    {
        match self {
            Course::Ticks { .. } => Err(StimFault::in_line(StimRule::ClockAndSet, line)),
            Course::Sets(sets) => match sets.insert(time, values) {
                Ok(None) => Ok(()),
                Ok(Some(_)) => Err(StimFault::in_line(StimRule::SetTwice, line)),
                Err(_) => Err(StimFault::NoMemory),
            },
        }
    }

    /// Makes the input a clock, which the line of this number says.
    pub fn tick(&mut self, line: usize, first: u64, half: u64) -> Result<(), StimFault>
        ensures { Leads (in_line line (after_clock first half (course_view self.old))) (course_view self.new) result }
    {
        match self {
            Course::Ticks { .. } => return Err(StimFault::in_line(StimRule::SetTwice, line)),
            Course::Sets(sets) => {
                if !sets.is_empty() {
                    return Err(StimFault::in_line(StimRule::ClockAndSet, line));
                }
            }
        }
        *self = Course::Ticks { first, half };
        Ok(())
    }

    /// The value at a time of the element at this place from the left, whose default is `start`.
    pub fn value(&self, place: usize, start: Nine, time: u64) -> Nine
        ensures { result ≡ course_value (course_view self.now) place start time }
    {
        match self {
            Course::Ticks { first, half } => clock_value(*first, *half, time),
            Course::Sets(sets) => set_value(set_by(sets, time), place, start),
        }
    }

    /// Whether it is set at a time, or a clock that toggles there.
    pub fn is_busy(&self, time: u64) -> bool
        ensures { result ≡ is_busy (course_view self.now) time }
    {
        match self {
            Course::Sets(sets) => sets.contains_key(&time),
            Course::Ticks { first, half } => {
                *first <= time && (time - first).checked_rem(*half).unwrap_or(time - first) == 0
            }
        }
    }
}

/// The values that are set last, not after a time.
fn set_by(sets: &BTreeMap<u64, Vec9>, time: u64) -> Option<Vec9>
    ensures { result ≡ option_map (λ s. s.1) (said.set_by sets.now.entries time) }
{
    match sets.range(..=time).next_back() {
        None => None,
        Some((_, values)) => Some(*values),
    }
}

/// The value at a place, or the default where nothing is set.
fn set_value(values: Option<Vec9>, place: usize, start: Nine) -> Nine
    ensures { result ≡ value_in values place start }
{
    match values {
        None => start,
        Some(values) => {
            if place < values.len() {
                return values.get(place);
            }
            start
        }
    }
}

/// The value of a clock at a time.
#[tactic(auto, using(crate::proofs::Clocks::no_halves))]
fn clock_value(first: u64, half: u64, time: u64) -> Nine
    ensures { result ≡ said.clock_value first half time }
{
    if time < first {
        return Nine::Zero;
    }
    if halves(time - first, half) % 2 == 0 {
        return Nine::One;
    }
    Nine::Zero
}

/// How many half periods have gone by.
#[tactic(auto, using(crate::proofs::Clocks::no_halves))]
fn halves(elapsed: u64, half: u64) -> u64
    ensures { result ≡ elapsed / half }
{
    if half == 0 {
        return 0;
    }
    elapsed / half
}

/// The first time after another at which a clock toggles, `None` where it never does. It is at most
/// the latest time of a stimulus and a half period more.
pub fn next_toggle(first: u64, half: u64, now: u64) -> Option<u64>
    requires bounded { now + half < 2 ^ 64 }
    ensures next { IfSome result (λ time. IsNextToggle first half now time) }
    ensures none { IfNone result (half ≡ 0) }
{
    if half == 0 {
        return None;
    }
    if now < first {
        return Some(first);
    }
    Some(now + (half - (now - first) % half))
}
