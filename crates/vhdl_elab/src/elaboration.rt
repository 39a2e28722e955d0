//! Elaboration, from the top on.

ghost use Rattle.std.specs.Prelude.{◌≢◌, IfErr, IfOk, IsTrue};
ghost use Rattle.rtl_net.specs.Elaborated.{IsNet};
ghost use Rattle.rtl_net.specs.Parts.{assembled, IdleAreThere};
ghost use Rattle.rtl_stim.specs.Ports.{HasOwnPorts};
ghost use Rattle.vhdl_names_laws.specs.Laws.{small_ports_are_distinct};
ghost use Rattle.vhdl_names_rules.specs.units.Bytes.{units_bytes};
ghost use Rattle.vhdl_names_rules.specs.sound.Units.{are_sound};
ghost use Rattle.vhdl_names_rules.specs.sound.Named.{are_named};
ghost use Rattle.vhdl_names_units.specs.views.Units.{units_view};
ghost use Rattle.vhdl_expand_operands.specs.Results.{Charges};
ghost use Rattle.vhdl_elab_rules.specs.Elaboration.{elaborated_net};
ghost use Rattle.vhdl_elab_rules.specs.Refused.{MayRefuse};
ghost use Rattle.vhdl_elab_rules.specs.Shown.{as_shown, net_shown};
ghost use Rattle.vhdl_expand_rules.specs.Elab.{fault_told};
ghost use Rattle.vhdl_expand_rules.specs.views.Tops.{top_view};
ghost use Rattle.vhdl_expand_rules.specs.declared.fault.ElabFault.TheVariants.{NoMemory};

use crate::connection::connect;
use rtl_net::Parts;
use std::alloc::Global;
use vhdl_expand::expand;
use vhdl_expand_rules::{ElabFault, Top};
use vhdl_names_units::Units;

/// Elaborates the design with this top, to the parts of its netlist. The generics of the top have
/// the values that are set, or their defaults, and its ports are joined to nothing. It takes the
/// memory of the tree of instances and then of the parts, within the limits of elaboration. The
/// units are such as `vhdl_names::analyse` promises of a file that `vhdl_parser::parse` gives of
/// the tokens of `vhdl_lexer::lex`.
pub fn elaborate(alloc: Global, units: &Units, top: Top<'_>) -> Result<Parts, ElabFault>
    requires sound { IsTrue (are_sound (units_view units.now)) }
    requires named { IsTrue (are_named (units_view units.now)) }
    ensures given { Charges (units_bytes (units_view units.now)) (λ p. net_shown (assembled p))
        (as_shown (elaborated_net (units_view units.now) (top_view top.entry))) result }
    ensures refused { IfErr result (λ fault. fault ≢ NoMemory
        → MayRefuse (units_view units.now) (top_view top.entry) (fault_told fault)) }
    ensures net { IfOk result (λ p. IsNet (assembled p)) }
    ensures idle { IfOk result IdleAreThere }

    // Where the ports of each entity have names of their own, those of the top have, so that a
    // stimulus can speak of them.
    ensures ports { IfOk result (λ p. IsTrue (small_ports_are_distinct (units_view units.now))
        → HasOwnPorts (assembled p)) }
{
    let design = expand(alloc, units, top)?;
    connect(alloc, design)
}
