//! What an agenda is filled with.

ghost use Rattle.std.specs.Prelude.{◌≡◌, ◌≢◌, false, ℕ, ◌<◌, ◌≤◌, ◌∷◌, [], AllPairs, Some, None, map, length, vec_len, OnOk, OnErr, IfSome, IsTrue};
ghost use Rattle.rtl_agenda.specs.Agenda.{IsAfter};
ghost use Rattle.rtl_stim_lines.specs.Courses.{is_busy};
ghost use Rattle.rtl_stim_lines.specs.Inputs.{input_at};
ghost use Rattle.rtl_stim_lines.specs.Times.{nets_of};
ghost use Rattle.rtl_stim_lines.specs.Filling.{Waits, HaveOwnNets};
ghost use Rattle.rtl_stim_lines.specs.View.{course_in, course_view, element_view, inputs_view, schedule_view};
ghost use Rattle.rtl_stim.specs.Pushes as spec;
ghost use Rattle.rtl_stim.specs.Left.{WaitsPartly};
ghost use Rattle.rtl_stim.specs.Pushes.{HasPushed, KeepsTaken, IsFreeAt, IsFree, element_pushes, place_pushes};
ghost use Rattle.rtl_stim.specs.Quiet.{IsWithin, found_or_past};

use crate::ports::elements_at;
use crate::stimulus::Stimulus;
use rtl_agenda::{Agenda, NoMemory};
use rtl_stim_lines::{Course, Element, InputTable, Schedule};
use std::collections::BTreeMap;
use vhdl_values::Vec9;

impl Stimulus {
    /// Fills a new agenda with what comes after 0: of each input the next values that are set, and
    /// of a clock the next toggle.
    ///
    /// It takes the agenda's memory for these. Where that is refused, some of these wait, and
    /// nothing else.
    pub fn load<A: Agenda>(&self, agenda: &mut A) -> Result<(), NoMemory>
        requires waiting { (A.state agenda.old).waiting ≡ [] }
        requires last { (A.state agenda.old).last ≡ None }
        ensures kept { KeepsTaken (A.state agenda.old) (A.state agenda.new) }
        ensures waits { OnOk result (Waits self.now.inputs self.now.schedule 0 (A.state agenda.new).waiting) }
        ensures left { OnErr result (WaitsPartly self.now.inputs self.now.schedule 0 [] (A.state agenda.new).waiting) }
    {
        for place in 0..self.schedule.courses.len() {
            push_due(agenda, &self.inputs, &self.schedule, place, 0)?;
        }
        Ok(())
    }

    /// Brings what comes next of each input that was set or toggled at the time that was taken from
    /// the agenda last.
    ///
    /// It looks at the changes of that time alone, and takes the agenda's memory for what comes
    /// next. Where that is refused, what waited waits still, with some of these.
    pub fn refill<A: Agenda>(&self, time: u64, agenda: &mut A) -> Result<(), NoMemory>
        requires last { (A.state agenda.old).last ≡ Some time }
        requires waited { (now : ℕ) × (now < time)
            × Waits self.now.inputs self.now.schedule now
            ((time, (A.state agenda.old).taken) ∷ (A.state agenda.old).waiting) }
        ensures kept { KeepsTaken (A.state agenda.old) (A.state agenda.new) }
        ensures waits { OnOk result (Waits self.now.inputs self.now.schedule time (A.state agenda.new).waiting) }
        ensures left { OnErr result (WaitsPartly self.now.inputs self.now.schedule time (A.state agenda.old).waiting
            (A.state agenda.new).waiting) }
    {
        for index in 0..agenda.changes().len() {
            let (net, _) = agenda.changes()[index];
            if let Ok(place) = self.firsts.binary_search(&net) {
                push_due(agenda, &self.inputs, &self.schedule, place, time)?;
            }
        }
        Ok(())
    }
}

/// Pushes what comes first of the input at a place after now.
fn push_due<A: Agenda>(
    agenda: &mut A,
    inputs: &InputTable,
    schedule: &Schedule,
    place: usize,
    now: u64,
) -> Result<(), NoMemory>
    requires there { place < vec_len schedule.now.courses }
    requires input { place < length (inputs_view inputs.now) }
    requires own { HaveOwnNets (inputs_view inputs.now) }
    requires later { (t : ℕ) → now < t → IsAfter (A.state agenda.old).last t }
    requires free { IsFree (A.state agenda.old).waiting (nets_of (input_at (inputs_view inputs.now) place)) }
    ensures kept { KeepsTaken (A.state agenda.old) (A.state agenda.new) }
    ensures pushed { HasPushed (A.state agenda.old).waiting (A.state agenda.new).waiting
        (place_pushes (inputs_view inputs.now) (schedule_view schedule.now) now place) result }
{
    match next_busy(&schedule.courses[place], now, schedule.stop) {
        None => Ok(()),
        Some(time) => push_elements(agenda, schedule, place, elements_at(inputs, place), time),
    }
}

/// Pushes the value of each element at a time.
fn push_elements<A: Agenda>(
    agenda: &mut A,
    schedule: &Schedule,
    place: usize,
    elements: &[Element],
    time: u64,
) -> Result<(), NoMemory>
    requires there { place < vec_len schedule.now.courses }
    requires own { AllPairs (λ n m. n ≢ m) (map (λ e. e.net) elements.now) }
    requires later { IsAfter (A.state agenda.old).last time }
    requires free { IsFreeAt (A.state agenda.old).waiting time (map (λ e. e.net) elements.now) }
    ensures kept { KeepsTaken (A.state agenda.old) (A.state agenda.new) }
    ensures pushed { HasPushed (A.state agenda.old).waiting (A.state agenda.new).waiting
        (element_pushes (course_in (schedule_view schedule.now) place) (map element_view elements.now) time) result }
{
    for (from_left, element) in elements.iter().enumerate() {
        let value = schedule.value(place, from_left, element.start, time);
        agenda.push(time, (element.net, value))?;
    }
    Ok(())
}

/// The first time after now, up to the stop, at which a course is busy.
#[inline]
pub fn next_busy(course: &Course, now: u64, stop: u64) -> Option<u64>
    ensures within { IsWithin now stop result }
    ensures busy { IfSome result (λ t. IsTrue (is_busy (course_view course.now) t)) }
    ensures idle { (b : ℕ) → now < b → b < found_or_past result stop → is_busy (course_view course.now) b ≡ false }
{
    match course {
        Course::Ticks { first, half } => next_toggle(*first, *half, now, stop),
        Course::Sets(sets) => next_set(sets, now, stop),
    }
}

/// The first time after now, up to the stop, at which an input is set.
fn next_set(sets: &BTreeMap<u64, Vec9>, now: u64, stop: u64) -> Option<u64>
    ensures within { IsWithin now stop result }
    ensures busy { IfSome result (λ t. IsTrue (is_busy (course_view (Course.Sets sets.now)) t)) }
    ensures idle { (b : ℕ) → now < b → b < found_or_past result stop
        → is_busy (course_view (Course.Sets sets.now)) b ≡ false }
{
    if stop <= now {
        return None;
    }
    match sets.range(now + 1..).next() {
        Some((time, _)) if *time <= stop => Some(*time),
        _ => None,
    }
}

/// The first time after now, up to the stop, at which a clock toggles.
fn next_toggle(first: u64, half: u64, now: u64, stop: u64) -> Option<u64>
    ensures next { spec.up_to stop result ≡ spec.up_to stop (spec.next_time first half now) }
    ensures within { IfSome result (λ t. t ≤ stop) }
    ensures later { IfSome result (λ t. now < t) }
{
    if now < first {
        return if first <= stop { Some(first) } else { None };
    }
    if half == 0 || stop < now {
        return None;
    }
    let wait = half - (now - first) % half;
    if wait <= stop - now {
        Some(now + wait)
    } else {
        None
    }
}
