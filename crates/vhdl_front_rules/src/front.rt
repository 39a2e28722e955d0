//! From the bytes of a source to its netlist, for whoever reads sources.

ghost use Rattle.std.specs.Prelude.{IfOk, IfErr, length};
ghost use Rattle.rtl_stim.specs.Ports.{HasOwnPorts};
ghost use Rattle.vhdl_front_rules.specs.Asking.{asked_view};
ghost use Rattle.vhdl_front_rules.specs.Designs.{IsNetOf};
ghost use Rattle.vhdl_front_rules.specs.Faults.{LiesIn};
ghost use Rattle.vhdl_front_rules.specs.Refusals.{Refuses};

use crate::asked::Asked;
use crate::fault::SourceFault;
use rtl_net::Net;
use std::alloc::Global;

/// Whatever turns sources into netlists.
pub trait Front {
    /// The netlist of a source under a top, which is an entity in it (IEEE 1076-2008, 13.5 and
    /// clause 14). It takes memory in proportion to the source and to the netlist.
    ///
    /// # Errors
    ///
    /// The first layer that refuses the source, with its fault: `Lex`, `Syntax`, `Name` or `Elab`,
    /// told at a byte of the source or at its end. `Name` is the first rule that the file breaks as
    /// it is read, with its byte; the problem of `Elab` is the first broken rule's, or `TooMany`.
    /// `NoMemory` where memory was refused.
    fn open(alloc: Global, asked: Asked<'_>) -> Result<Net, SourceFault>
        ensures net { IfOk result (λ net. IsNetOf (asked_view asked.entry) net) }
        ensures ports { IfOk result (λ net. HasOwnPorts net) }
        ensures refused { IfErr result (Refuses (asked_view asked.entry)) }
        ensures told { IfErr result (LiesIn (length (asked_view asked.entry).source)) };
}
