//! Whether a clocked process keeps the rules of clocks and resets.

ghost use Rattle.std.specs.Prelude.{◌≡◌, ◌↔◌, IsTrue};
ghost use Rattle.std.specs.List.Sorted.{IsStrictlyIncreasing};
ghost use Rattle.rtl_model.specs.basics.Lists.{RisesBy};
ghost use Rattle.rtl_model.specs.simulation.Report.{clock_key};
ghost use Rattle.rtl_body_facts.specs.Reading.{is_in};
ghost use Rattle.rtl_process_kinds.specs.KindViews.{nets_tested};
ghost use Rattle.rtl_recheck.specs.Kept.{AreWithin, HasNoClockAsData, clock_nets};

use rtl_body_facts::{Clocking, contains_rising};
use rtl_check::is_used;
use rtl_net::Process;
use vhdl_values::Edge;

/// Whether all of some nets are among others.
pub fn are_within(nets: &[usize], others: &[usize]) -> bool
    requires { IsStrictlyIncreasing others.now }
    ensures { IsTrue result ↔ AreWithin nets.now others.now }
{
    for net in nets {
        if !contains_rising(others, *net) {
            return false;
        }
    }
    true
}

/// Whether the nets that the tests of a clocked process look at, its clock and its reset, are among
/// others.
pub fn tested_are_within(clocking: Clocking, others: &[usize]) -> bool
    requires { IsStrictlyIncreasing others.now }
    ensures { IsTrue result ↔ AreWithin (nets_tested clocking) others.now }
{
    match clocking.reset {
        None => are_within(&[clocking.clock], others),
        Some(reset) => are_within(&[clocking.clock, reset], others),
    }
}

/// Whether a net is one of a report's clocks. It takes time by the logarithm of their number.
fn is_clock(clocks: &[(usize, Edge)], net: usize) -> bool
    requires { RisesBy clock_key clocks.now }
    ensures { result ≡ is_in net (clock_nets clocks.now) }
{
    clocks
        .binary_search_by_key(&net, |&(clock, _)| clock)
        .is_ok()
}

/// Whether a clocked process uses no clock as data.
pub fn has_no_clock_as_data(clocks: &[(usize, Edge)], process: &Process, clocking: Clocking) -> bool
    requires { RisesBy clock_key clocks.now }
    ensures { IsTrue result ↔ HasNoClockAsData (clock_nets clocks.now) process.now clocking }
{
    for net in &process.reads {
        if is_clock(clocks, *net) && is_used(clocking, *net) {
            return false;
        }
    }
    true
}
