//! Why a stimulus is refused.

ghost use Rattle.std.specs.Prelude.{◌≡◌};
ghost use Rattle.rtl_stim_lines.specs.declared.faults.StimFault.TheVariants.{NoMemory};

use fault_rules::StimRule;
use std::alloc::AllocError;
use thiserror::Error;

/// Why a stimulus is refused. `line` counts from 1.
#[derive(Clone, Copy, Debug, Error)]
pub enum StimFault {
    /// A line breaks this rule.
    #[error("{rule}, in line {line}", rule = .rule.words())]
    InLine {
        rule: StimRule,
        line: usize,
    },
    /// No line says when to stop.
    #[error("{rule}", rule = StimRule::NoStop.words())]
    NoStop,
    /// A data input changes at an active clock edge; both are given by their net, the time in ns.
    #[error("{rule}, of the nets {input} and {clock} at {time} ns", rule = StimRule::Race.words())]
    Race {
        time: u64,
        input: usize,
        clock: usize,
    },
    /// Memory was refused.
    #[error("out of memory")]
    NoMemory,
}

impl StimFault {
    /// This rule is broken in a line.
    pub fn in_line(rule: StimRule, line: usize) -> StimFault
        ensures { result ≡ StimFault.InLine rule line }
    {
        StimFault::InLine { rule, line }
    }
}

impl From<AllocError> for StimFault {
    ghost from_gives = { λ _ fault. fault ≡ NoMemory };

    fn from(_refused: AllocError) -> StimFault {
        StimFault::NoMemory
    }
}
