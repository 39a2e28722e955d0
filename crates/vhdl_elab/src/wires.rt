//! What is told of a design as a whole: its idle ports, inputs, and what its nets start with, or
//! why it is refused.

ghost use Rattle.std.specs.Prelude.{◌≡◌, ◌≢◌, length, IfOk, IfErr};
ghost use Rattle.vhdl_expand_rules.specs.declared.fault.ElabFault.TheVariants.{NoMemory};
ghost use Rattle.vhdl_expand_rules.specs.Elab as elab;
ghost use Rattle.vhdl_elab.specs.Wires.{IsWires, IsRefused};

use crate::made::Made;
use crate::tables::{idle_ports, inputs, read_of_shared, two_unresolved};
use rtl_net::IdlePort;
use std::alloc::Global;
use vhdl_connect::{held, starts};
use vhdl_expand_rules::{ElabFault, ElabProblem};

/// What is told of a design as a whole.
#[derive(Drop)]
pub(crate) struct Wires {
    /// In order of the text.
    pub(crate) idle: Vec<IdlePort>,
    /// The nets of the top's in ports, rising.
    pub(crate) inputs: Vec<usize>,
    /// What each net starts with.
    pub(crate) starts: Vec<u8>,
}

/// What is told of a design by its tables. It takes the memory of a table of what the sources of
/// nets hold.
pub(crate) fn told(alloc: Global, made: &Made) -> Result<Wires, ElabFault>
    requires uses { length made.now.uses.items ≡ length made.now.elements.items }
    requires defaults { length made.now.kinds.items ≡ length made.now.defaults.items }
    ensures wired { IfOk result (λ w. IsWires made.now w) }
    ensures refused { IfErr result (λ fault. fault ≢ NoMemory → IsRefused made.now (elab.fault_told fault)) }
{
    let idle = idle_ports(alloc, &made.elements, &made.uses)?;
    let values = held(alloc, made.kinds.len(), &made.processes, &idle)?;
    if let Some(at) = two_unresolved(&made.elements, &made.uses) {
        return Err(ElabProblem::TwoUnresolved.at(at));
    }
    if let Some(at) = read_of_shared(&made.elements, &made.uses, &values) {
        return Err(ElabProblem::ReadOfShared.at(at));
    }
    let inputs = inputs(alloc, &made.elements)?;
    let starts = starts(alloc, &made.defaults, &values)?;
    Ok(Wires {
        idle,
        inputs,
        starts,
    })
}
