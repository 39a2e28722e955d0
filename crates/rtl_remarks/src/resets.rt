//! Registers that the branch of a reset leaves out.

ghost use Rattle.std.specs.Prelude.{◌≡◌, IfOk};
ghost use Rattle.std.specs.List.Sorted.{IsStrictlyIncreasing};
ghost use Rattle.rtl_model.specs.bodies.Kinds.{clocking};
ghost use Rattle.rtl_net.specs.Nets.{body_of};
ghost use Rattle.rtl_body_facts.specs.Paths.{driven};
ghost use Rattle.rtl_body_facts.specs.Reading.{is_in};
ghost use Rattle.rtl_remarks.specs.Remarks as spec;
ghost use Rattle.rtl_remarks.specs.Tables.{AreThose};

use crate::branches::guarded;
use crate::lists::chosen;
use rtl_body_facts::{assigned_nets, sort_once};
use rtl_net::{Driver, NoMemory, Process};
use std::alloc::Global;

/// The nets of some drivers, rising.
pub fn targets_of(alloc: Global, drives: &[Driver]) -> Result<Vec<usize>, NoMemory>
    ensures { IfOk result (λ nets. AreThose (λ n. is_in n (driven drives.now)) nets.items) }
{
    let mut nets: Vec<usize> = drives.iter().map(|driver| driver.net).collect(alloc)?;
    sort_once(&mut nets);
    Ok(nets)
}

/// The nets that a process drives and the branch of its reset doesn't assign, rising.
pub(crate) fn left_out(
    alloc: Global,
    wide: bool,
    inputs: &[usize],
    process: &Process,
) -> Result<Vec<usize>, NoMemory>
    requires { IsStrictlyIncreasing inputs.now }
    ensures { IfOk result (λ nets. AreThose (spec.leaves_out process.now
        (spec.reset_branch (clocking wide inputs.now (body_of process.now)))) nets.items) }
{
    match guarded(wide, inputs, process, true) {
        Some(branch) => {
            let assigned = assigned_nets(alloc, &process.drives, branch)?;
            let targets = targets_of(alloc, &process.drives)?;
            chosen(alloc, &targets, &assigned, false)
        }
        None => Ok(Vec::new(alloc)),
    }
}
