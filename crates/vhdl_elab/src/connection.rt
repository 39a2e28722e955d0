//! The parts of the flat netlist of a design.

ghost use Rattle.std.specs.Prelude.{◌≡◌, true, All, IfOk};
ghost use Rattle.rtl_net.specs.Elaborated.{ReadsOfBody};
ghost use Rattle.rtl_net.specs.Parts.{assembled, IdleAreThere};
ghost use Rattle.vhdl_expand_tree.specs.Views.{design_view};
ghost use Rattle.vhdl_elab_rules.specs.Elaboration.{netlist_of};
ghost use Rattle.vhdl_elab_rules.specs.Limits.{counts, is_within_limits};
ghost use Rattle.vhdl_elab_rules.specs.Numbering.{numbered_design};
ghost use Rattle.vhdl_expand_operands.specs.Results.{Expands};
ghost use Rattle.vhdl_elab_rules.specs.Shown.{as_shown, net_shown};
ghost use Rattle.vhdl_elab.specs.Ready.{InstanceIsReady};
ghost use Rattle.vhdl_elab.specs.Wired.{NetsAreThere};

use crate::walk::number;
use crate::wiring::wire;
use rtl_net::Parts;
use std::alloc::Global;
use vhdl_expand_rules::ElabFault;
use vhdl_expand_tree::Design;

/// The parts of the flat netlist of a design within the limits, where it breaks no rule of a design
/// as a whole (IEEE 1076-2008, 6.4.2.3, 14.7.2, 14.7.3): its instances, nets and processes are
/// numbered and its nets are wired. It takes the memory of the netlist's parts, and for a while
/// that of a table of elements and one of what the sources of nets hold.
pub fn connect(alloc: Global, design: Design) -> Result<Parts, ElabFault>
    requires ready { InstanceIsReady (design_view design).top }
    requires there { NetsAreThere (numbered_design (design_view design)) }
    requires within { is_within_limits (counts (numbered_design (design_view design))) ≡ true }
    ensures given { Expands (λ p. net_shown (assembled p)) (as_shown (netlist_of (design_view design))) result }
    ensures reads { IfOk result (λ p. All ReadsOfBody p.processes.items) }
    ensures idle { IfOk result IdleAreThere }
{
    let made = number(alloc, design)?;
    wire(alloc, made)
}
