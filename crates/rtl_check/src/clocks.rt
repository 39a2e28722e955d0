//! The clocks of a netlist.

ghost use Rattle.std.specs.Prelude.{◌≡◌, ◌||◌, ℕ, IfOk, OnOk};
ghost use Rattle.rtl_body_facts.specs.Reading.{is_in};
ghost use Rattle.rtl_net.specs.Core.{core};
ghost use Rattle.rtl_check.specs.Views.{AreClockNets};
ghost use Rattle.rtl_process_kinds.specs.KindViews.{AreKinds};
ghost use Rattle.rtl_check.specs.Rules.{has_clock};

use rtl_body_facts::{ProcessKind, sort_once};
use rtl_net::{Net, NoMemory};
use std::alloc::Global;

/// Appends the clock of a process of this kind, if it has one.
fn push_clock(kind: ProcessKind, clocks: &mut Vec<usize>) -> Result<(), NoMemory>
    ensures { OnOk result ((n : ℕ) → is_in n clocks.new.items ≡ (is_in n clocks.old.items || has_clock n kind)) }
{
    match kind {
        ProcessKind::Clocked(clocking) => {
            clocks.push(clocking.clock)?;
            Ok(())
        }
        _ => Ok(()),
    }
}

/// The nets that clock some process, rising.
pub fn clock_nets(alloc: Global, net: &Net, kinds: &[ProcessKind]) -> Result<Vec<usize>, NoMemory>
    requires { AreKinds (core net.now) kinds.now }
    ensures { IfOk result (λ v. AreClockNets (core net.now) v.items) }
{
    let mut clocks = Vec::new(alloc);
    for kind in kinds {
        push_clock(*kind, &mut clocks)?;
    }
    sort_once(&mut clocks);
    Ok(clocks)
}
