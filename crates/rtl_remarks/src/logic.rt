//! What logic makes.

ghost use Rattle.std.specs.Prelude.{◌≡◌, ◌||◌, ℕ, IfOk, OnOk};
ghost use Rattle.rtl_body_facts.specs.Reading.{is_in};
ghost use Rattle.rtl_remarks.specs.Remarks as spec;
ghost use Rattle.rtl_remarks.specs.Tables.{AreThose};

use crate::resets::targets_of;
use rtl_body_facts::{body_has_event, sort_once};
use rtl_net::{Net, NoMemory, Process};
use std::alloc::Global;

/// The nets that combinational processes drive, rising.
pub(crate) fn logic_of(alloc: Global, net: &Net) -> Result<Vec<usize>, NoMemory>
    ensures { IfOk result (λ nets. AreThose (spec.is_logic net.now) nets.items) }
{
    let mut nets = Vec::new(alloc);
    let processes = net.processes();
    for process in processes {
        push_made(alloc, process, &mut nets)?;
    }
    sort_once(&mut nets);
    Ok(nets)
}

/// Appends the nets that a process drives, if it is combinational.
fn push_made(alloc: Global, process: &Process, nets: &mut Vec<usize>) -> Result<(), NoMemory>
    ensures { OnOk result ((n : ℕ) → is_in n nets.new.items
        ≡ (is_in n nets.old.items || spec.is_made process.now n)) }
{
    if body_has_event(&process.body) {
        return Ok(());
    }
    let targets = targets_of(alloc, &process.drives)?;
    nets.extend_from_slice(&targets)?;
    Ok(())
}
