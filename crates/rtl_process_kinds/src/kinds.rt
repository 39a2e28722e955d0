//! The kinds of all processes of a netlist.

ghost use Rattle.std.specs.Prelude.{◌≡◌, ◌<◌, length, IfOk};
ghost use Rattle.rtl_model.specs.simulation.Netlist as m;
ghost use Rattle.rtl_net.specs.Core.{core};
ghost use Rattle.rtl_process_kinds.specs.KindViews as v;
ghost use Rattle.rtl_process_kinds.specs.KindViews.{AreKinds, IsKind, combinational_at};

use rtl_body_facts::{ProcessKind, kind_of};
use rtl_net::{Net, NoMemory};
use std::alloc::Global;

/// The kind of each process.
pub fn kinds_of(alloc: Global, net: &Net) -> Result<Vec<ProcessKind>, NoMemory>
    ensures { IfOk result (λ kinds. AreKinds (core net.now) kinds.items) }
{
    let processes = net.processes();
    let mut kinds = Vec::new(alloc);
    for process in 0..processes.len() {
        kinds.push(kind_at(net, process))?;
    }
    Ok(kinds)
}

/// The kind of one process.
pub fn kind_at(net: &Net, process: usize) -> ProcessKind
    requires { process < length net.now.processes }
    ensures { IsKind (m.process (core net.now) process) result }
{
    net.is_elaborated();
    let inputs = net.inputs();
    let processes = net.processes();
    kind_of(net.is_wide(), inputs, &processes[process].body)
}

/// Whether there is a process of this number that is combinational.
pub fn is_combinational(kinds: &[ProcessKind], process: usize) -> bool
    ensures { result ≡ combinational_at kinds.now process }
{
    if process >= kinds.len() {
        return false;
    }
    match kinds[process] {
        ProcessKind::Combinational => true,
        ProcessKind::Clocked(_) => false,
        ProcessKind::Mixed => false,
    }
}

/// Whether a process of this kind has a reset.
pub fn resets(kind: ProcessKind) -> bool
    ensures { result ≡ v.resets kind }
{
    match kind {
        ProcessKind::Clocked(clocking) => clocking.reset.is_some(),
        _ => false,
    }
}
