//! From a text to the stimulus of a netlist.

ghost use Rattle.std.specs.Prelude.{◌≡◌, ◌<◌, ◌≤◌, ◌++◌, All, length, map, vec_len, IfOk, OnOk};
ghost use Rattle.rtl_stim_lines.specs.Filling.{HaveOwnNets};
ghost use Rattle.rtl_stim_lines.specs.View.{inputs_view, schedule_view, course_in, element_view};
ghost use Rattle.rtl_stim_lines.specs.Times.{all_nets, value_at};
ghost use Rattle.rtl_stim_lines.specs.Pairs.{pair_view};
ghost use Rattle.rtl_stim_lines.specs.Reading.{latest_time};
ghost use Rattle.rtl_stim.specs.Ports as ports;
ghost use Rattle.rtl_stim.specs.Stimuli.{IsPaired, IsRead};
ghost use Rattle.rtl_stim.specs.Kept.{element_values};
ghost use Rattle.rtl_stim.specs.Pushes.{first_net};

use crate::ports::{elements_at, inputs_of};
use crate::stimulus::Stimulus;
use rtl_net::Net;
use rtl_stim_lines::{Element, InputTable, Schedule, StimFault, read_pairs, read_schedule};
use std::alloc::{AllocError, Global};
use vhdl_values::Nine;

impl Stimulus {
    /// Reads the text of a stimulus for a netlist. It takes memory for each in port of the top and
    /// for each line, and none for the edges of a clock.
    ///
    /// # Errors
    ///
    /// The first bad line's fault, by the line's number from 1; `NoStop` where all lines are good
    /// and none says when to stop; `NoMemory` where a growth was refused. Never `Race`.
    pub fn read(alloc: Global, net: &Net, text: &[u8]) -> Result<Stimulus, StimFault>
        requires { ports.HasOwnPorts net.now }
        ensures { IsRead net.now text.now result }
    {
        net.is_elaborated();
        let inputs = inputs_of(alloc, net)?;
        let schedule = read_schedule(alloc, text, &inputs)?;
        Ok(with_initial(alloc, net, inputs, schedule)?)
    }

    /// The stimulus that sets each input that is named to its value at 0, and stops there. It takes
    /// memory for each in port of the top and for each pair.
    ///
    /// # Errors
    ///
    /// The first bad pair's fault, by its place from 1: `BadLine` where a name or a value is
    /// missing. `NoMemory` where a growth was refused. Never `Race` or `NoStop`.
    pub fn of_pairs(
        alloc: Global,
        net: &Net,
        pairs: &[Option<(&[u8], &[u8])>],
    ) -> Result<Stimulus, StimFault>
        requires { ports.HasOwnPorts net.now }
        ensures { IsPaired net.now (map pair_view pairs.now) result }
    {
        net.is_elaborated();
        let inputs = inputs_of(alloc, net)?;
        let schedule = read_pairs(alloc, pairs, &inputs)?;
        Ok(with_initial(alloc, net, inputs, schedule)?)
    }
}

/// The stimulus of a netlist's inputs with their courses.
fn with_initial(
    alloc: Global,
    net: &Net,
    inputs: InputTable,
    schedule: Schedule,
) -> Result<Stimulus, AllocError>
    requires own { ports.HasOwnPorts net.now }
    requires inputs { inputs_view inputs ≡ ports.inputs_of net.now }
    requires each { vec_len schedule.courses ≡ length (inputs_view inputs) }
    requires in_time { schedule.stop ≤ latest_time }
    ensures { IfOk result (λ s. s ≡ record { inputs = inputs_view inputs; schedule = schedule_view schedule }) }
{
    net.is_elaborated();
    let initial = initial_values(alloc, &inputs, &schedule)?;
    let firsts = first_nets(alloc, &inputs)?;
    Ok(Stimulus {
        inputs,
        schedule,
        initial,
        firsts,
    })
}

/// The net of each input's first element.
fn first_nets(alloc: Global, inputs: &InputTable) -> Result<Vec<usize>, AllocError>
    requires { All (λ input. 1 ≤ length input.elements) (inputs_view inputs.now) }
    ensures { IfOk result (λ firsts. firsts.items ≡ map first_net (inputs_view inputs.now)) }
{
    let mut firsts = Vec::with_capacity(alloc, inputs.len())?;
    for place in 0..inputs.len() {
        firsts.push(elements_at(inputs, place)[0].net)?;
    }
    Ok(firsts)
}

/// The value of each input's element at 0.
fn initial_values(
    alloc: Global,
    inputs: &InputTable,
    schedule: &Schedule,
) -> Result<Vec<Nine>, AllocError>
    requires own { HaveOwnNets (inputs_view inputs.now) }
    requires each { vec_len schedule.now.courses ≡ length (inputs_view inputs.now) }
    ensures { IfOk result (λ values. values.items
        ≡ map (λ n. value_at (inputs_view inputs.now) (schedule_view schedule.now) n 0)
        (all_nets (inputs_view inputs.now))) }
{
    let mut values = Vec::new(alloc);
    for place in 0..inputs.len() {
        push_values(&mut values, schedule, place, elements_at(inputs, place))?;
    }
    Ok(values)
}

/// Appends the value at 0 of each element of the input at a place.
fn push_values(
    values: &mut Vec<Nine>,
    schedule: &Schedule,
    place: usize,
    elements: &[Element],
) -> Result<(), AllocError>
    requires { place < vec_len schedule.now.courses }
    ensures { OnOk result (values.new.items ≡ values.old.items
        ++ element_values (course_in (schedule_view schedule.now) place) 0 (map element_view elements.now)) }
{
    for (from_left, element) in elements.iter().enumerate() {
        values.push(schedule.value(place, from_left, element.start, 0))?;
    }
    Ok(())
}
