//! Processes of a design without nets: nothing resumes them.

ghost use Rattle.std.specs.Prelude.{List};
ghost use Rattle.std.specs.List.{AllZip};
ghost use Rattle.vhdl_elab_rules.specs.Numbering.{Located};
ghost use Rattle.vhdl_elab.specs.Made.{IsLocated};
ghost use Rattle.vhdl_elab.specs.Settled.{NetsAreBelow, IsSettled};

use rtl_net::Process;

/// Leaves nothing that resumes a process where there are no nets.
pub(crate) fn settle(processes: &mut [Process], nets: usize)
    ensures { (xs : List Located) → AllZip IsLocated xs processes.old → NetsAreBelow nets xs
        → AllZip (IsSettled nets) xs processes.new }
{
    if nets > 0 {
        return;
    }
    for i in 0..processes.len() {
        processes[i].wakes.clear();
    }
}
