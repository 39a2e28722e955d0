//! By which levels the machine of an accepted netlist runs.

ghost use Rattle.std.specs.Prelude.{◌≡◌, length, IfOk};
ghost use Rattle.rtl_model.specs.simulation.Accepted.{IsAccepted};
ghost use Rattle.rtl_model.specs.simulation.Machine.{IsFirst};
ghost use Rattle.rtl_kernel.specs.kernel.Kept.{RunBodies};
ghost use Rattle.rtl_kernel.specs.kernel.Simulation.{initial_inputs};
ghost use Rattle.rtl_net.specs.Nets.{flat};
ghost use Rattle.rtl_net.specs.Core.{core};
ghost use Rattle.rtl_run.specs.Admitted.{AreMachineLevels};

use rtl_eval::Exec;
use rtl_levels::Machine;
use rtl_model::simulation_laws;
use rtl_net::Net;
use std::alloc::{AllocError, Global};
use vhdl_values::Nine;

/// Levels by which a netlist is judged.
#[derive(Drop)]
pub enum MachineLevels {
    /// Those of its processes.
    OfProcesses(Vec<Option<u32>>),
    /// Those of its nets.
    OfNets(Vec<u32>),
}

/// The machine of an accepted netlist at its first moment, by levels. The k-th body runs the k-th
/// process, and there is a value for each of the netlist's inputs, in their order.
pub(crate) fn first_machine<'a, E: Exec>(
    alloc: Global,
    net: &'a Net,
    bodies: &'a [E],
    levels: &MachineLevels,
    initial: &[Nine],
) -> Result<Machine<'a, E>, AllocError>
    requires accepted { IsAccepted (core net.now) }
    requires levels { AreMachineLevels (core net.now) levels.now }
    requires bodies { RunBodies E.process E.types (flat net.now) bodies.now }
    requires initial { length initial.now ≡ length net.now.inputs }
    ensures net { IfOk result (λ m. m.net ≡ net.now) }
    ensures first { IfOk result (λ m. IsFirst (core net.now) (initial_inputs (flat net.now) initial.now) m.values) }
{
    match levels {
        MachineLevels::OfProcesses(levels) => Machine::new(alloc, net, bodies, levels, initial),
        MachineLevels::OfNets(nets) => {
            simulation_laws::levels_by_nets_rise();
            net.is_elaborated();
            Machine::leveled(alloc, net, bodies, nets, initial)
        }
    }
}
