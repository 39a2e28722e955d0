//! Resets: their tests, and what their branches assign.

ghost use Rattle.std.specs.Prelude.{◌<◌, length};
ghost use Rattle.rtl_model.specs.simulation.Netlist as m;
ghost use Rattle.rtl_net.specs.Core.{core};
ghost use Rattle.rtl_process_kinds.specs.KindViews.{IsKind};
ghost use Rattle.rtl_calm_nets.specs.NetOrigins.{IsResetTest};

use rtl_body_facts::ProcessKind;
use rtl_net::Net;
use rtl_process_kinds::{Asked, asked_last};

/// A reset's test: its net, and the value that it asks for.
#[derive(Clone, Copy)]
pub struct ResetTest {
    pub net: usize,
    pub asked: Asked,
}

/// The reset of a process that is of this kind, if it has one.
pub fn reset_of(net: &Net, kind: ProcessKind, process: usize) -> Option<ResetTest>
    requires there { process < length net.now.processes }
    requires kind { IsKind (m.process (core net.now) process) kind }
    ensures { IsResetTest (core net.now) process result }
{
    net.is_elaborated();
    match kind {
        ProcessKind::Clocked(clocking) => {
            let net_tested = clocking.reset?;
            let asked = asked_last(&net.processes()[process].body)?;
            Some(ResetTest {
                net: net_tested,
                asked,
            })
        }
        _ => None,
    }
}
