//! A law of ports, as the contract of a function that does nothing.

ghost use Rattle.vhdl_elab_rules.specs.Ports.{EachHasOwnPorts};

/// In a netlist that shows what is elaborated from sound units whose ports have names of their own,
/// the ports of the top have names of their own, and the elements of its in ports, in order, are
/// the inputs.
pub fn elaborated_have_own_ports()
    ensures { EachHasOwnPorts }
{}
