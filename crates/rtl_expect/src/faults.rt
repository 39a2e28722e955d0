//! Why a file of expected values is refused.

ghost use Rattle.std.specs.Prelude.{◌≡◌};
ghost use Rattle.rtl_expect.specs.declared.faults.ExpectFault.TheVariants.{NoMemory};

use fault_rules::ExpectRule;
use std::alloc::AllocError;
use thiserror::Error;

/// Why a file of expected values is refused. `line` counts from 1.
#[derive(Clone, Copy, Debug, Error)]
pub enum ExpectFault {
    /// A line breaks this rule.
    #[error("{rule}, in line {line}", rule = .rule.words())]
    InLine { rule: ExpectRule, line: usize },
    /// Memory was refused.
    #[error("out of memory")]
    NoMemory,
}

impl ExpectFault {
    /// This rule is broken in a line.
    pub(crate) fn in_line(rule: ExpectRule, line: usize) -> ExpectFault
        ensures { result ≡ ExpectFault.InLine rule line }
    {
        ExpectFault::InLine { rule, line }
    }
}

impl From<AllocError> for ExpectFault {
    ghost from_gives = { λ _ fault. fault ≡ NoMemory };

    fn from(_refused: AllocError) -> ExpectFault {
        ExpectFault::NoMemory
    }
}
