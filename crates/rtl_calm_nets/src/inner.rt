//! Whether a netlist has a reset that is made inside.

ghost use Rattle.std.specs.Prelude.{◌↔◌, IsTrue};
ghost use Rattle.rtl_net.specs.Core.{core};
ghost use Rattle.rtl_calm_nets.specs.InnerResets.{HasInnerReset};

use rtl_net::Net;
use rtl_process_kinds::inner_reset;

/// Whether a netlist is of the wider language and some process drives the reset of a process, so
/// that it is judged by nets. It takes no memory.
pub fn has_inner_reset(net: &Net) -> bool
    ensures { IsTrue result ↔ HasInnerReset (core net.now) }
{
    if !net.is_wide() {
        return false;
    }
    let processes = net.processes();
    for process in 0..processes.len() {
        if inner_reset(net, process).is_some() {
            return true;
        }
    }
    false
}
