//! Why a netlist is not simulated as a machine.

ghost use Rattle.std.specs.Prelude.{◌≡◌, ℕ};
ghost use Rattle.rtl_run.specs.declared.fault.MachineFault.TheVariants.{Memory, Output};
ghost use Rattle.rtl_simulation.specs.declared.summary.RunFault.TheVariants.{NoSettling};
ghost use Rattle.rtl_run.specs.Faults.{of_run, of_stim};

use byte_streams::WriteFailed;
use rtl_check::CheckFault;
use rtl_simulation::RunFault;
use rtl_stim::StimFault;
use std::alloc::AllocError;

/// Why a netlist is not simulated, or why its trace was not written whole.
#[derive(Drop)]
pub enum MachineFault {
    /// What the checker found, in order.
    Rejected(Vec<CheckFault>),
    /// The stimulus is refused, or has a race.
    Stim(StimFault),
    /// Memory was refused.
    Memory,
    /// The output took less than the whole text.
    Output,
}

impl From<AllocError> for MachineFault {
    ghost from_gives = { λ _ fault. fault ≡ Memory };

    fn from(_refused: AllocError) -> MachineFault {
        MachineFault::Memory
    }
}

impl From<StimFault> for MachineFault {
    ghost from_gives = { λ stim fault. fault ≡ of_stim stim };

    fn from(stim: StimFault) -> MachineFault {
        match stim {
            StimFault::NoMemory => MachineFault::Memory,
            _ => MachineFault::Stim(stim),
        }
    }
}

impl From<WriteFailed> for MachineFault {
    ghost from_gives = { λ _ fault. fault ≡ Output };

    fn from(_failed: WriteFailed) -> MachineFault {
        MachineFault::Output
    }
}

/// Why a simulation fails whose moments all settle.
pub(crate) fn settled_fault(fault: RunFault) -> MachineFault
    requires { (time : ℕ) → fault ≡ NoSettling time → ⊥ }
    ensures { result ≡ of_run fault }
{
    match fault {
        RunFault::NoSettling { .. } => unreachable!(),
        RunFault::Memory => MachineFault::Memory,
        RunFault::Output => MachineFault::Output,
    }
}
