//! Which nets processes drive.

ghost use Rattle.std.specs.Prelude.{◌≡◌, ◌<◌, length};
ghost use Rattle.rtl_model.specs.simulation.Netlist as m;
ghost use Rattle.rtl_model.specs.simulation.Levels as l;
ghost use Rattle.rtl_net.specs.Nets.{source_view};
ghost use Rattle.rtl_net.specs.Core.{core};
ghost use Rattle.rtl_process_kinds.specs.Drivers as d;
ghost use Rattle.rtl_body_facts.specs.declared.kinds.ProcessKind.{ProcessKind};
ghost use Rattle.rtl_process_kinds.specs.KindViews.{IsKind, reset_kept};

use crate::wakes::wakes_of;
use rtl_body_facts::clocking_of;
use rtl_net::{Net, Source, nets_meet_the_laws};

/// Whether a source is a driver.
fn is_driver(source: Source) -> bool
    ensures { result ≡ l.is_driver (source_view source) }
{
    match source {
        Source::Driven { .. } => true,
        Source::Idle { .. } => false,
    }
}

/// Whether a process drives a net.
pub fn is_driven(net: &Net, number: usize) -> bool
    requires { number < length net.now.types }
    ensures { result ≡ d.is_driven (core net.now) number }
{
    let sources = net.sources(number);
    for source in sources {
        if is_driver(*source) {
            return true;
        }
    }
    false
}

/// Whether a process is sensitive to a net that a process drives.
pub fn follows_driver(net: &Net, process: usize) -> bool
    requires { process < length net.now.processes }
    ensures { result ≡ d.follows_driver (core net.now) (m.process (core net.now) process) }
{
    let wakes = wakes_of(net, process);
    for wake in wakes {
        if is_driven(net, *wake) {
            return true;
        }
    }
    false
}

/// The net of a process's reset, if it has one.
fn reset_at(net: &Net, process: usize) -> Option<usize>
    requires { process < length net.now.processes }
    ensures { (kind : ProcessKind) × IsKind (m.process (core net.now) process) kind × (result ≡ reset_kept kind) }
{
    net.is_elaborated();
    let processes = net.processes();
    let clocking = clocking_of(net.is_wide(), net.inputs(), &processes[process].body)?;
    clocking.reset
}

/// The net of a process's reset, if it has one that some process drives.
pub fn inner_reset(net: &Net, process: usize) -> Option<usize>
    requires { process < length net.now.processes }
    ensures { d.IsInner (core net.now) process result }
{
    nets_meet_the_laws();
    net.is_elaborated();
    let reset = reset_at(net, process)?;
    if is_driven(net, reset) {
        Some(reset)
    } else {
        None
    }
}
