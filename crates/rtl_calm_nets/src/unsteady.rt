//! Unsteady resets.

ghost use Rattle.std.specs.Prelude.{◌≡◌, ◌↔◌, ◌<◌, ℕ, false, IfOk, IsTrue, length, slice_index_or};
ghost use Rattle.rtl_model.specs.simulation.Accepted.{HasUnsteadyReset};
ghost use Rattle.rtl_net.specs.Core.{core};
ghost use Rattle.rtl_process_kinds.specs.KindViews.{AreKinds};
ghost use Rattle.rtl_calm_nets.specs.NetOrigins.{AreClockMarks};
ghost use Rattle.rtl_calm_nets.specs.CalmPlaces.{AreCalm};

use crate::inner::has_inner_reset;
use crate::outside::{clock_marks, is_marked};
use crate::places::{calm_nets, place_of};
use crate::resets::reset_of;
use rtl_body_facts::ProcessKind;
use rtl_net::{Net, NoMemory};
use std::alloc::Global;

/// Whether a process of a wide netlist has an unsteady reset, where these nets are clocks and these
/// are calm.
fn is_unsteady(
    net: &Net,
    kinds: &[ProcessKind],
    clocks: &[bool],
    calm: &[bool],
    process: usize,
) -> bool
    requires wide { IsTrue net.now.wide }
    requires kinds { AreKinds (core net.now) kinds.now }
    requires clocks { AreClockMarks (core net.now) clocks.now }
    requires calm { AreCalm (core net.now) calm.now }
    requires there { process < length kinds.now }
    ensures { IsTrue result ↔ HasUnsteadyReset (core net.now) process }
{
    net.is_elaborated();
    match reset_of(net, kinds[process], process) {
        Some(reset) => {
            !is_marked(clocks, reset.net) && !is_marked(calm, place_of(reset.net, reset.asked))
        },
        None => false,
    }
}

/// Of each process whether it has an unsteady reset: in the wider language one that is no clock,
/// and may come and go within a moment. It takes time and memory in proportion to nets, processes
/// and what bodies look at; where no process drives a reset, memory for the result alone.
pub fn unsteady_resets(
    alloc: Global,
    net: &Net,
    kinds: &[ProcessKind],
) -> Result<Vec<bool>, NoMemory>
    requires { AreKinds (core net.now) kinds.now }
    ensures each_process { IfOk result (λ unsteady. length unsteady.items ≡ length kinds.now) }
    ensures each { IfOk result (λ unsteady. (p : ℕ)
        → IsTrue (slice_index_or unsteady.items p false) ↔ HasUnsteadyReset (core net.now) p) }
{
    if !has_inner_reset(net) {
        return Ok(vec![in alloc; false; kinds.len()]?);
    }
    let clocks = clock_marks(alloc, net, kinds)?;
    let calm = calm_nets(alloc, net, kinds, &clocks)?;
    let mut unsteady = Vec::new(alloc);
    for process in 0..kinds.len() {
        unsteady.push(is_unsteady(net, kinds, &clocks, &calm, process))?;
    }
    Ok(unsteady)
}
