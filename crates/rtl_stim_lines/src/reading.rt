//! From the lines of a stimulus to the course of each input.

ghost use Rattle.std.specs.Prelude.{◌≡◌, ◌<◌, IfOk, IfSome, length, position, vec_len, Ok};
ghost use Rattle.rtl_stim_lines.specs.Lines.{ends_line, lines_of};
ghost use Rattle.rtl_stim_lines.specs.Inputs as named;
ghost use Rattle.rtl_stim_lines.specs.Bounded.{after_kept, stop_kept};
ghost use Rattle.rtl_stim_lines.specs.Reading as said;
ghost use Rattle.rtl_stim_lines.specs.Reading.{nothing_said, after_line, after_lines, schedule_of, in_line};
ghost use Rattle.rtl_stim_lines.specs.View.{inputs_view, said_view, AreVectors, Leads, IsGiven};

use crate::courses::Course;
use crate::faults::StimFault;
use crate::forms::{Form, form_of};
use crate::inputs::{InputTable, input_named};
use crate::numbers::Time;
use crate::schedule::Schedule;
use crate::values::values_for;
use crate::words::{says_nothing, without_return, words_of};
use fault_rules::StimRule;
use std::alloc::{AllocError, Global};
use std::collections::BTreeMap;

/// What lines have said.
#[derive(Drop)]
pub struct Said {
    /// The course of each input.
    pub courses: Vec<Course>,
    pub stop: Option<u64>,
}

/// Reads the lines of a stimulus of these inputs.
pub fn read_schedule(alloc: Global, text: &[u8], inputs: &InputTable) -> Result<Schedule, StimFault>
    requires { AreVectors (inputs_view inputs.now) }
    ensures given { IsGiven (schedule_of (inputs_view inputs.now) text.now) result }
    ensures each { IfOk result (λ schedule. vec_len schedule.courses ≡ length (inputs_view inputs.now)) }
{
    let mut said = Said::new(alloc, inputs)?;
    said.read_lines(alloc, inputs, text)?;
    match said.stop {
        None => Err(StimFault::NoStop),
        Some(stop) => Ok(Schedule {
            courses: said.courses,
            stop,
        }),
    }
}

/// Where the first line of a text ends that a line feed ends.
pub fn line_end(text: &[u8]) -> Option<usize>
    ensures end { result ≡ position ends_line text.now }
    ensures within { IfSome result (λ end. end < length text.now) }
{
    text.iter().position(|byte| *byte == b'\n')
}

impl Said {
    /// Nothing is said of these inputs.
    pub(crate) fn new(alloc: Global, inputs: &InputTable) -> Result<Said, AllocError>
        ensures said { IfOk result (λ said. said_view said ≡ nothing_said (inputs_view inputs.now)) }
        ensures each { IfOk result (λ said. vec_len said.courses ≡ length (inputs_view inputs.now)) }
    {
        let mut courses = Vec::new(alloc);
        for place in 0..inputs.len() {
            courses.push(Course::Sets(BTreeMap::new(alloc)))?;
        }
        Ok(Said {
            courses,
            stop: None,
        })
    }

    /// Takes in the lines of a text.
    fn read_lines(
        &mut self,
        alloc: Global,
        inputs: &InputTable,
        text: &[u8],
    ) -> Result<(), StimFault>
        requires vectors { AreVectors (inputs_view inputs.now) }
        requires each { vec_len self.old.courses ≡ length (inputs_view inputs.now) }
        ensures said { Leads (after_lines (inputs_view inputs.now) 1 (lines_of text.now) (Ok (said_view self.old)))
            (said_view self.new) result }
        ensures each { vec_len self.new.courses ≡ vec_len self.old.courses }
    {
        let mut at = 0;
        let mut line = 1;
        while let Some(end) = line_end(&text[at..]) {
            self.read_line(alloc, inputs, line, without_return(&text[at..at + end]))?;
            at += end + 1;
            line += 1;
        }
        self.read_line(alloc, inputs, line, &text[at..])
    }

    /// Takes in the line of this number.
    fn read_line(
        &mut self,
        alloc: Global,
        inputs: &InputTable,
        number: usize,
        line: &[u8],
    ) -> Result<(), StimFault>
        requires vectors { AreVectors (inputs_view inputs.now) }
        requires each { vec_len self.old.courses ≡ length (inputs_view inputs.now) }
        ensures said { Leads (in_line number (after_line (inputs_view inputs.now) (said_view self.old) line.now))
            (said_view self.new) result }
        ensures each { vec_len self.new.courses ≡ vec_len self.old.courses }
    {
        let words = words_of(alloc, line)?;
        if says_nothing(&words) {
            return Ok(());
        }
        match form_of(&words) {
            None => Err(StimFault::in_line(StimRule::BadLine, number)),
            Some(form) => self.read_form(alloc, inputs, number, form),
        }
    }

    /// Takes in what the line of this number says.
    fn read_form(
        &mut self,
        alloc: Global,
        inputs: &InputTable,
        line: usize,
        form: Form,
    ) -> Result<(), StimFault>
        requires vectors { AreVectors (inputs_view inputs.now) }
        requires each { vec_len self.old.courses ≡ length (inputs_view inputs.now) }
        ensures said { Leads (in_line line (after_kept (inputs_view inputs.now) (said_view self.old) form.entry))
            (said_view self.new) result }
        ensures each { vec_len self.new.courses ≡ vec_len self.old.courses }
    {
        match form {
            Form::At { time, name, value } => {
                let time = time.within(line)?;
                self.read_set(alloc, inputs, line, time, name, value)
            }
            Form::Clock { name, first, half } => {
                let first = first.within(line)?;
                let half = half.within(line)?;
                self.read_clock(alloc, inputs, line, name, first, half)
            }
            Form::Stop { time } => self.read_stop(line, time),
        }
    }

    /// Takes in that an input is set at a time.
    pub(crate) fn read_set(
        &mut self,
        alloc: Global,
        inputs: &InputTable,
        line: usize,
        time: u64,
        name: &[u8],
        text: &[u8],
    ) -> Result<(), StimFault>
        requires vectors { AreVectors (inputs_view inputs.now) }
        requires each { vec_len self.old.courses ≡ length (inputs_view inputs.now) }
        ensures said { Leads (in_line line (said.set_input (inputs_view inputs.now) (said_view self.old)
            (named.input_named (inputs_view inputs.now) name.now) time text.now)) (said_view self.new) result }
        ensures each { vec_len self.new.courses ≡ vec_len self.old.courses }
    {
        let Some((place, input)) = input_named(alloc, inputs, name)? else {
            return Err(StimFault::in_line(StimRule::NotAnInput, line));
        };
        let Some(values) = values_for(input, text) else {
            return Err(StimFault::in_line(StimRule::BadValue, line));
        };
        self.courses[place].set(line, time, values)
    }

    /// Takes in that an input is a clock.
    fn read_clock(
        &mut self,
        alloc: Global,
        inputs: &InputTable,
        line: usize,
        name: &[u8],
        first: u64,
        half: u64,
    ) -> Result<(), StimFault>
        requires each { vec_len self.old.courses ≡ length (inputs_view inputs.now) }
        ensures said { Leads (in_line line (said.set_clock (inputs_view inputs.now) (said_view self.old)
            (named.input_named (inputs_view inputs.now) name.now) first half)) (said_view self.new) result }
        ensures each { vec_len self.new.courses ≡ vec_len self.old.courses }
    {
        let Some((place, input)) = input_named(alloc, inputs, name)? else {
            return Err(StimFault::in_line(StimRule::NotAnInput, line));
        };
        if !input.is_scalar {
            return Err(StimFault::in_line(StimRule::BadValue, line));
        }
        self.courses[place].tick(line, first, half)
    }

    /// Takes in the stop.
    fn read_stop(&mut self, line: usize, time: Time) -> Result<(), StimFault>
        ensures said { Leads (in_line line (stop_kept (said_view self.old) time)) (said_view self.new) result }
        ensures each { vec_len self.new.courses ≡ vec_len self.old.courses }
    {
        if self.stop.is_some() {
            return Err(StimFault::in_line(StimRule::BadLine, line));
        }
        self.stop = Some(time.within(line)?);
        Ok(())
    }
}
