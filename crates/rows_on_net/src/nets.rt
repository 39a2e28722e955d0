//! Where netlists come from.

ghost use Rattle.std.specs.Prelude.{IfSome};
ghost use Rattle.rtl_stim.specs.Ports.{HasOwnPorts};

use rtl_net::Net;
use std::alloc::Global;

/// Opens netlists.
pub trait Nets {
    /// The netlist of this text in VHDL below this top, if it has one.
    fn open(&self, alloc: Global, text: &[u8], top: &[u8]) -> Option<Net>
        ensures { IfSome result HasOwnPorts };
}
