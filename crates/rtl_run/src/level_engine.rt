//! The engine that simulates by levels.

ghost use Rattle.rtl_run.specs.levels.Settled.{MachineSettled};

use byte_streams::Watch;
use rtl_eval::Exec;
use rtl_levels::Machine;
use rtl_net_groups::Touched;
use rtl_simulation::{Engine, RunFault};
use vhdl_values::Nine;

/// The synchronous machine of an accepted netlist, which is at the first moment from the start on.
#[derive(Drop)]
pub(crate) struct LevelEngine<'a, E: Exec> {
    pub(crate) machine: Machine<'a, E>,
}

impl<E: Exec> Engine for LevelEngine<'_, E> {
    ghost has_begun = { λ e r. MachineSettled r 0 e.machine };

    ghost is_at = { λ e r m. MachineSettled r m e.machine };

    ghost valuation = { λ e. e.machine.values };

    ghost chunks = { λ e. e.machine.touched };

    fn values(&self) -> &[u8] {
        self.machine.values()
    }

    fn touched(&self) -> &Touched {
        self.machine.touched()
    }

    fn start<V: Watch>(&mut self, _watch: &mut V) -> Result<(), RunFault> {
        Ok(())
    }

    fn step<V: Watch>(
        &mut self,
        _time: u64,
        changes: &[(usize, Nine)],
        _watch: &mut V,
    ) -> Result<(), RunFault> {
        self.machine.step(changes);
        Ok(())
    }
}
