//! What nets, drivers and variables start with.

ghost use Rattle.std.specs.Prelude.{◌≡◌, ◌<◌, All, length, map, IfOk};
ghost use Rattle.rtl_model.specs.nets.FlatNetlist.{element_starts};
ghost use Rattle.rtl_net.specs.Nets.{variable_view};
ghost use Rattle.rtl_kernel.specs.drivers.Rows.{rows};
ghost use Rattle.rtl_kernel.specs.drivers.Starts.{AreFresh, start_row, starts_of};
ghost use Rattle.rtl_kernel.specs.kernel.Simulation.{each_given};
ghost use Rattle.rtl_kernel.specs.values.TwoValues.{AreChanged};

use rtl_drives::Drives;
use rtl_eval::Exec;
use rtl_net::{Driver, Net, Process, Variable};
use std::alloc::{AllocError, Global};
use vhdl_values::Nine;

/// What the drivers of each process start with.
pub fn start_rows(alloc: Global, processes: &[Process]) -> Result<Vec<Vec<u8>>, AllocError>
    ensures { IfOk result (λ all. rows all.items ≡ map start_row processes.now) }
{
    let mut all = Vec::with_capacity(alloc, processes.len())?;
    for process in processes {
        all.push(start_values(alloc, &process.drives)?)?;
    }
    Ok(all)
}

/// What these drivers start with.
fn start_values(alloc: Global, drives: &[Driver]) -> Result<Vec<u8>, AllocError>
    ensures { IfOk result (λ v. v.items ≡ starts_of drives.now) }
{
    let mut starts = Vec::with_capacity(alloc, drives.len())?;
    for driver in drives {
        starts.push(driver.start)?;
    }
    Ok(starts)
}

/// What the elements of these variables start each run with.
pub fn variable_starts(alloc: Global, variables: &[Variable]) -> Result<Vec<u8>, AllocError>
    ensures { IfOk result (λ v. v.items ≡ element_starts (map variable_view variables.now)) }
{
    let mut starts = Vec::new(alloc);
    for variable in variables {
        starts.extend_from_slice(variable.starts.as_slice())?;
    }
    Ok(starts)
}

/// The outcomes of these processes before any run, each with the room that its body's run wants.
pub fn fresh_outcomes<E: Exec>(
    alloc: Global,
    processes: &[Process],
    bodies: &[E],
) -> Result<Vec<Drives>, AllocError>
    requires { length bodies.now ≡ length processes.now }
    ensures { IfOk result (λ all. AreFresh E.most processes.now bodies.now all.items) }
{
    let mut outcomes = Vec::with_capacity(alloc, processes.len())?;
    for number in 0..processes.len() {
        let process = &processes[number];
        let starts = variable_starts(alloc, &process.variables)?;
        let room = bodies[number].room();
        outcomes.push(Drives::new(alloc, process.drives.len(), &starts, room)?)?;
    }
    Ok(outcomes)
}

/// What the nets start with, where the inputs have these values.
pub fn first_codes(alloc: Global, net: &Net, initial: &[Nine]) -> Result<Vec<u8>, AllocError>
    requires { length initial.now ≡ length net.now.inputs }
    ensures { IfOk result (λ v. AreChanged (each_given net.now.inputs initial.now) net.now.starts v.items) }
{
    net.is_elaborated();
    let mut codes = starting_codes(alloc, net)?;
    give_each(net.inputs(), initial, &mut codes);
    Ok(codes)
}

/// Gives each of these nets the value of the same number.
fn give_each(nets: &[usize], values: &[Nine], codes: &mut [u8])
    requires as_many { length values.now ≡ length nets.now }
    requires there { All (λ n. n < length codes.old) nets.now }
    ensures { AreChanged (each_given nets.now values.now) codes.old codes.new }
{
    for number in 0..nets.len() {
        codes[nets[number]] = values[number].code();
    }
}

/// What the nets start with.
pub fn starting_codes(alloc: Global, net: &Net) -> Result<Vec<u8>, AllocError>
    ensures { IfOk result (λ v. v.items ≡ net.now.starts) }
{
    let nets = net.nets();
    let mut codes = Vec::with_capacity(alloc, nets)?;
    for number in 0..nets {
        codes.push(net.start(number))?;
    }
    Ok(codes)
}
