//! The pass over a netlist's parts.

ghost use Rattle.std.specs.Prelude.{◌≡◌, IfOk, IfErr, OnOk, length, map};
ghost use Rattle.rtl_kept_bodies.specs.declared.keeping.KeepFault.TheVariants.{TooMany};
ghost use Rattle.rtl_keeping.specs.Kept.{HaveRoom, HasRoomForKept, KeepsVariables};
ghost use Rattle.rtl_keeping.specs.Steps.{AreReady, KeepsAll};
ghost use Rattle.rtl_net.specs.Elaborated.{IsNet};
ghost use Rattle.rtl_net.specs.Nets.{flat, type_of, process_view};
ghost use Rattle.rtl_net.specs.Parts.{assembled, IdleAreThere};

use crate::nets::Nets;
use rtl_kept_bodies::{KeepFault, keep as keep_variables};
use rtl_net::{Parts, Process};
use rtl_variable_registers::kept_is_sound;
use std::alloc::Global;

/// The parts of a netlist, whose variables are kept by nets. It takes the memory of the nets, and a
/// time proportional to the netlist.
///
/// # Errors
///
/// `TooMany` where there would be more nets than a netlist has, and `NoMemory`.
pub fn keep(alloc: Global, parts: Parts) -> Result<Parts, KeepFault>
    requires net { IsNet (assembled parts) }
    requires idle { IdleAreThere parts }
    ensures kept { IfOk result (λ kept. KeepsVariables (assembled parts) (assembled kept)) }
    ensures net { IfOk result (λ kept. IsNet (assembled kept)) }
    ensures idle { IfOk result IdleAreThere }
    ensures room { OnOk result (HasRoomForKept (flat (assembled parts))) }
    ensures too_many { IfErr result (λ fault. fault ≡ TooMany → HasRoomForKept (flat (assembled parts)) → ⊥) }
{
    kept_is_sound();
    let mut processes = parts.processes;
    let mut nets = Nets {
        kinds: parts.kinds,
        starts: parts.starts,
        signals: parts.signals,
    };
    keep_all(alloc, &mut processes, &mut nets)?;
    nets.put_in_order()?;
    Ok(Parts {
        kinds: nets.kinds,
        starts: nets.starts,
        idle: parts.idle,
        inputs: parts.inputs,
        processes,
        scopes: parts.scopes,
        signals: nets.signals,
    })
}

/// Keeps the variables of these processes, and adds their nets to these.
fn keep_all(alloc: Global, processes: &mut [Process], nets: &mut Nets) -> Result<(), KeepFault>
    requires { AreReady (map type_of nets.old.kinds.items) processes.old }
    ensures kept { OnOk result (KeepsAll processes.old processes.new nets.old nets.new) }
    ensures too_many { IfErr result (λ fault. fault ≡ TooMany
        → HaveRoom (length nets.old.kinds.items) (map process_view processes.old) → ⊥) }
{
    for number in 0..processes.len() {
        let process = &mut processes[number];
        let marks = keep_variables(alloc, process, nets.kinds.len())?;
        nets.add_all(alloc, process, number, &marks)?;
    }
    Ok(())
}
