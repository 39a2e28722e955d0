//! Faults that name a process and one of its nets.

ghost use Rattle.std.specs.Prelude.{◌≡◌};
ghost use Rattle.rtl_check.specs.Views.{fault_view};
ghost use Rattle.rtl_check.specs.Rules.{fault_of};

use crate::fault::CheckFault;

/// What a process and a net break.
#[derive(Clone, Copy)]
pub enum Rule {
    ClockNotInput,
    EdgeNotSensitive,
    ClockAsData,
    MissingSensitivity,
    Latch,
}

impl Rule {
    /// The fault of a process and a net that break it.
    pub fn fault(self, process: usize, net: usize) -> CheckFault
        ensures { fault_view result ≡ fault_of self process net }
    {
        match self {
            Rule::ClockNotInput => CheckFault::ClockNotInput { process, net },
            Rule::EdgeNotSensitive => CheckFault::EdgeNotSensitive { process, net },
            Rule::ClockAsData => CheckFault::ClockAsData { process, net },
            Rule::MissingSensitivity => CheckFault::MissingSensitivity { process, net },
            Rule::Latch => CheckFault::Latch { process, net },
        }
    }
}
