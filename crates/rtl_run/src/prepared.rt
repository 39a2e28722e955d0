//! What the runs of an accepted netlist begin with.

ghost use Rattle.std.specs.Prelude.{MatchResult};
ghost use Rattle.rtl_stim.specs.Ports.{HasOwnPorts};
ghost use Rattle.rtl_run.specs.Admitted.{RefusesNet};
ghost use Rattle.rtl_run.specs.Beginnings.{IsPrepared};

use crate::admission::{Admitted, admit};
use crate::fault::MachineFault;
use rtl_eval_code::{Code, codes};
use rtl_net::Net;
use rtl_stim::{Agenda, Wheel};
use std::alloc::Global;

/// How many slots the agenda of a simulation has.
pub const SLOTS: usize = 256;

/// A stimulus without a race, the bodies of the netlist's processes, and an agenda in which nothing
/// waits.
#[derive(Drop)]
pub(crate) struct Prepared<'a> {
    pub(crate) admitted: Admitted,
    pub(crate) bodies: Vec<Code<'a>>,
    pub(crate) agenda: Wheel,
}

/// Admits a netlist with the stimulus that a text says, and makes what its run wants.
///
/// # Errors
///
/// As `admit`. `Memory` where the bodies or the agenda get none.
pub(crate) fn prepare<'a>(
    alloc: Global,
    net: &'a Net,
    text: &[u8],
) -> Result<Prepared<'a>, MachineFault>
    requires { HasOwnPorts net.now }
    ensures { MatchResult result
        (λ p. IsPrepared net.now text.now p.admitted p.bodies.items (⟦<Wheel as Agenda>⟧.state p.agenda))
        (RefusesNet net.now text.now) }
{
    let admitted = admit(alloc, net, text)?;
    let bodies = codes(alloc, net)?;
    let agenda = Wheel::new(alloc, SLOTS)?;
    Ok(Prepared {
        admitted,
        bodies,
        agenda,
    })
}
