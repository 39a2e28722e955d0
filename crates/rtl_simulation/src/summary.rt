//! What a simulation answers.

ghost use Rattle.std.specs.Prelude.{◌≡◌};
ghost use Rattle.rtl_simulation.specs.declared.summary.RunFault.TheVariants.{Memory, Output};

use rtl_vcd::VcdFault;
use std::alloc::AllocError;

/// What a simulation came to.
#[derive(Clone, Copy)]
pub struct Summary {
    /// How many moments there were.
    pub moments: u64,
    /// The greatest number of delta cycles that a moment took.
    pub most_deltas: u32,
}

/// Why a simulation did not come to its end.
#[derive(Clone, Copy)]
pub enum RunFault {
    /// A driver is still active after as many delta cycles as are allowed, at this time in ns.
    NoSettling { time: u64 },
    /// Memory was refused.
    Memory,
    /// The output took less than the whole text.
    Output,
}

impl From<AllocError> for RunFault {
    ghost from_gives = { λ _ fault. fault ≡ Memory };

    fn from(_refused: AllocError) -> RunFault {
        RunFault::Memory
    }
}

impl From<VcdFault> for RunFault {
    ghost from_gives = { λ _ fault. fault ≡ Output };

    fn from(_failed: VcdFault) -> RunFault {
        RunFault::Output
    }
}
