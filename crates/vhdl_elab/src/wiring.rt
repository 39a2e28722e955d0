//! The parts of the flat netlist of a numbered design.

ghost use Rattle.std.specs.Prelude.{◌≡◌, All, length, IfOk};
ghost use Rattle.rtl_net.specs.Elaborated.{ReadsOfBody};
ghost use Rattle.rtl_net.specs.Parts.{assembled, IdleAreThere};
ghost use Rattle.vhdl_expand_operands.specs.Results.{Expands};
ghost use Rattle.vhdl_elab_rules.specs.Numbering.{Numbered};
ghost use Rattle.vhdl_elab_rules.specs.Shown.{as_shown, net_shown};
ghost use Rattle.vhdl_elab.specs.Made.{IsMade};
ghost use Rattle.vhdl_elab.specs.Wired.{wired, NetsAreThere};

use crate::made::Made;
use crate::settled::settle;
use crate::wires::told;
use rtl_net::Parts;
use std::alloc::Global;
use vhdl_expand_rules::ElabFault;

/// The parts of the flat netlist of the numbered design that these tables are made of, where it
/// breaks no rule of a design as a whole: an unresolved element with two sources, and an out port
/// with several sources that is read. It takes the memory of a table of what the sources of nets
/// hold.
pub fn wire(alloc: Global, made: Made) -> Result<Parts, ElabFault>
    requires uses { length made.uses.items ≡ length made.elements.items }
    requires defaults { length made.kinds.items ≡ length made.defaults.items }
    ensures given { (d : Numbered) → IsMade d made → NetsAreThere d
        → Expands (λ p. net_shown (assembled p)) (as_shown (wired d)) result }
    ensures reads { (d : Numbered) → IsMade d made → NetsAreThere d
        → IfOk result (λ p. All ReadsOfBody p.processes.items) }
    ensures idle { (d : Numbered) → IsMade d made → NetsAreThere d → IfOk result IdleAreThere }
{
    let mut made = made;
    let nets = made.kinds.len();
    settle(&mut made.processes, nets);
    let wires = told(alloc, &made)?;
    Ok(Parts {
        kinds: made.kinds,
        starts: wires.starts,
        idle: wires.idle,
        inputs: wires.inputs,
        processes: made.processes,
        scopes: made.scopes,
        signals: made.signals,
    })
}
