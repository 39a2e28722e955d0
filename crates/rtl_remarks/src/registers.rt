//! Registers that start undefined and stay so.

ghost use Rattle.std.specs.Prelude.{◌≡◌, Some, IfOk};
ghost use Rattle.std.specs.List.Sorted.{IsStrictlyIncreasing};
ghost use Rattle.rtl_model.specs.bodies.Kinds.{clocking};
ghost use Rattle.rtl_net.specs.Bodies.{statements_of};
ghost use Rattle.rtl_net.specs.Nets.{body_of};
ghost use Rattle.rtl_remarks.specs.Remarks as spec;
ghost use Rattle.rtl_remarks.specs.Tables.{AreThose};

use crate::assigned::may_assign;
use crate::branches::guarded;
use crate::lists::chosen;
use rtl_body_facts::sort_once;
use rtl_net::{Driver, NoMemory, Process, Statement};
use std::alloc::Global;
use vhdl_values::Nine;

/// The nets of drivers that start with `U`, rising.
fn starting_undefined(alloc: Global, drives: &[Driver]) -> Result<Vec<usize>, NoMemory>
    ensures { IfOk result (λ nets. AreThose (spec.starts_undefined drives.now) nets.items) }
{
    let mut nets = Vec::new(alloc);
    for driver in drives {
        if driver.start == Nine::U.code() {
            nets.push(driver.net)?;
        }
    }
    sort_once(&mut nets);
    Ok(nets)
}

/// The nets that stay undefined of those that a sequence of this process assigns, rising.
fn stay_in(
    alloc: Global,
    process: &Process,
    statements: &[Statement],
) -> Result<Vec<usize>, NoMemory>
    ensures { IfOk result (λ nets. AreThose (spec.stays_undefined process.now (Some (statements_of statements.now)))
        nets.items) }
{
    let kept = may_assign(alloc, &process.drives, true, statements)?;
    let freed = may_assign(alloc, &process.drives, false, statements)?;
    let never_freed = chosen(alloc, &kept, &freed, false)?;
    let starting = starting_undefined(alloc, &process.drives)?;
    chosen(alloc, &never_freed, &starting, true)
}

/// The nets that a process drives and that stay undefined, rising.
pub(crate) fn stay_undefined(
    alloc: Global,
    wide: bool,
    inputs: &[usize],
    process: &Process,
) -> Result<Vec<usize>, NoMemory>
    requires { IsStrictlyIncreasing inputs.now }
    ensures { IfOk result (λ nets. AreThose (spec.stays_undefined process.now
        (spec.edge_branch (clocking wide inputs.now (body_of process.now)))) nets.items) }
{
    match guarded(wide, inputs, process, false) {
        Some(branch) => stay_in(alloc, process, branch),
        None => Ok(Vec::new(alloc)),
    }
}
