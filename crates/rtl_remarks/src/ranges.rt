//! Integers that a process may give a number outside their range.

ghost use Rattle.std.specs.Prelude.{◌≡◌, ◌&&◌, false, IfOk};
ghost use Rattle.std.specs.List.Sorted.{IsStrictlyIncreasing};
ghost use Rattle.rtl_net.specs.Nets.{body_of};
ghost use Rattle.rtl_body_facts.specs.Reading.{is_in};
ghost use Rattle.rtl_outside_ranges.specs.Outside.{gives};
ghost use Rattle.rtl_remarks.specs.Tables.{AreThose};

use crate::lists::chosen;
use rtl_net::{NoMemory, Process};
use rtl_outside_ranges::given_outside;
use std::alloc::Global;

/// Their digits, rising, of the digits of all integers and by the nets that logic makes.
pub(crate) fn leaving_range(
    alloc: Global,
    integers: &[usize],
    logic: &[usize],
    process: &Process,
) -> Result<Vec<usize>, NoMemory>
    requires rise { IsStrictlyIncreasing integers.now }
    requires logic { IsStrictlyIncreasing logic.now }
    ensures { IfOk result (λ nets. AreThose (λ n. is_in n integers.now
        && gives process.now.drives.items (λ m. is_in m logic.now) (λ m. false) n (body_of process.now))
        nets.items) }
{
    let given = given_outside(alloc, logic, process)?;
    chosen(alloc, integers, &given, true)
}
