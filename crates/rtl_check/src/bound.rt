//! The bound on delta cycles.

ghost use Rattle.std.specs.Prelude.{◌≡◌, ◌<◌, ◌+◌, ◌^◌, length};
ghost use Rattle.rtl_model.specs.simulation.Netlist as m;
ghost use Rattle.rtl_model.specs.simulation.Levels as l;
ghost use Rattle.rtl_net.specs.Core.{core};
ghost use Rattle.rtl_check.specs.Views.{AreClockNets};
ghost use Rattle.rtl_process_kinds.specs.KindViews.{AreKinds};
ghost use Rattle.rtl_check.specs.Bounds as b;

use rtl_body_facts::ProcessKind;
use rtl_net::Net;
use rtl_process_kinds::{follows_driver, resets};

/// Whether a process has a reset and is sensitive to a net that a process drives.
fn is_late(net: &Net, kinds: &[ProcessKind], process: usize) -> bool
    requires kinds { AreKinds (core net.now) kinds.now }
    requires there { process < length kinds.now }
    ensures { result ≡ b.is_late (core net.now) (m.process (core net.now) process) }
{
    resets(kinds[process]) && follows_driver(net, process)
}

/// Whether there is such a process.
fn has_late_reset(net: &Net, kinds: &[ProcessKind]) -> bool
    requires { AreKinds (core net.now) kinds.now }
    ensures { result ≡ l.has_late_reset (core net.now) }
{
    for process in 0..kinds.len() {
        if is_late(net, kinds, process) {
            return true;
        }
    }
    false
}

/// 1 where it is so, else 0.
pub fn one_if(so: bool) -> u32
    ensures { result ≡ b.one_if so }
{
    if so { 1 } else { 0 }
}

/// The bound on delta cycles of a netlist with this greatest level.
pub fn bound_of(net: &Net, kinds: &[ProcessKind], clocks: &[usize], greatest: u32) -> u32
    requires kinds { AreKinds (core net.now) kinds.now }
    requires clocks { AreClockNets (core net.now) clocks.now }
    requires few { greatest + 2 < 2 ^ 32 }
    ensures { result ≡ l.bound (core net.now) greatest }
{
    let registers = one_if(!clocks.is_empty());
    let resets = one_if(has_late_reset(net, kinds));
    greatest + registers + resets
}
