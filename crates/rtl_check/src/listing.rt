//! Lists of faults that name no net of a process: two drivers; and processes that are neither
//! clocked nor combinational, or whose resets are unsteady.

ghost use Rattle.std.specs.Prelude.{◌≡◌, ◌↔◌, ◌<◌, ℕ, false, length, slice_index_or, IsTrue, OnOk};
ghost use Rattle.rtl_model.specs.simulation.Accepted.{HasUnsteadyReset};
ghost use Rattle.rtl_net.specs.Core.{core};
ghost use Rattle.rtl_process_kinds.specs.KindViews.{AreKinds};
ghost use Rattle.rtl_check.specs.Rules.{is_mixed};
ghost use Rattle.rtl_check.specs.Listing.{is_of_number, one_place, AddsFaults};

use crate::fault::CheckFault;
use rtl_body_facts::ProcessKind;
use rtl_calm_nets::unsteady_resets;
use rtl_net::{Net, NoMemory};
use std::alloc::Global;

/// Appends the fault of a net that has two sources or more.
fn two_drivers_at(net: &Net, number: usize, faults: &mut Vec<CheckFault>) -> Result<(), NoMemory>
    requires { number < length net.now.types }
    ensures { OnOk result (AddsFaults (core net.now) (one_place 1 number) faults.old.items faults.new.items) }
{
    let sources = net.sources(number);
    if sources.len() < 2 {
        return Ok(());
    }
    faults.push(CheckFault::TwoDrivers {
        net: number,
        first: sources[0],
        second: sources[1],
    })?;
    Ok(())
}

/// Appends the faults of nets that have two sources or more.
pub fn two_drivers(net: &Net, faults: &mut Vec<CheckFault>) -> Result<(), NoMemory>
    ensures { OnOk result (AddsFaults (core net.now) (is_of_number 1) faults.old.items faults.new.items) }
{
    for number in 0..net.nets() {
        two_drivers_at(net, number, faults)?;
    }
    Ok(())
}

/// Whether a process of this kind is neither clocked nor combinational.
fn is_mixed(kind: ProcessKind) -> bool
    ensures { result ≡ is_mixed kind }
{
    match kind {
        ProcessKind::Mixed => true,
        _ => false,
    }
}

/// Appends the fault of a process that is neither clocked nor combinational, or whose reset is
/// unsteady.
fn mixed_at(
    net: &Net,
    kinds: &[ProcessKind],
    unsteady: &[bool],
    process: usize,
    faults: &mut Vec<CheckFault>,
) -> Result<(), NoMemory>
    requires kinds { AreKinds (core net.now) kinds.now }
    requires each_process { length unsteady.now ≡ length kinds.now }
    requires unsteady { (p : ℕ) → IsTrue (slice_index_or unsteady.now p false) ↔ HasUnsteadyReset (core net.now) p }
    requires there { process < length kinds.now }
    ensures { OnOk result (AddsFaults (core net.now) (one_place 2 process) faults.old.items faults.new.items) }
{
    if is_mixed(kinds[process]) || unsteady[process] {
        faults.push(CheckFault::Mixed { process })?;
    }
    Ok(())
}

/// Appends the faults of processes that are neither clocked nor combinational, or whose resets are
/// unsteady.
pub fn mixed(
    alloc: Global,
    net: &Net,
    kinds: &[ProcessKind],
    faults: &mut Vec<CheckFault>,
) -> Result<(), NoMemory>
    requires { AreKinds (core net.now) kinds.now }
    ensures { OnOk result (AddsFaults (core net.now) (is_of_number 2) faults.old.items faults.new.items) }
{
    let unsteady = unsteady_resets(alloc, net, kinds)?;
    for process in 0..kinds.len() {
        mixed_at(net, kinds, &unsteady, process, faults)?;
    }
    Ok(())
}
