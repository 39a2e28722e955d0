//! Why a call of this library is refused.

ghost use Rattle.std.specs.Prelude.{◌≡◌};
ghost use Rattle.rtlsim_command_faults.specs.Faults.{of_source, of_stim, of_expect, of_run, of_machine, status_of};
ghost use Rattle.rtlsim_command_faults.specs.Places.{byte_of};
ghost use Rattle.rtlsim_command_faults.specs.declared.faults.Fault.TheVariants.{Memory};

use crate::status::Status;
use fault_rules::{ExpectRule, RunRule};
use rtl_check::CheckFault;
use rtl_expect::{ExpectFault, FirstDifferences};
use rtl_run::MachineFault;
use rtl_simulation::RunFault;
use rtl_stim::StimFault;
use std::alloc::AllocError;
use std::fmt;
use thiserror::Error;
use vhdl_expand_rules::ElabFault;
use vhdl_front_rules::SourceFault;
use vhdl_lexer::LexFault;
use vhdl_names_rules::NameFault;
use vhdl_parser_rules::SyntaxFault;

/// Why a call of this library is refused, by the first layer that refuses. Each layer's want of
/// memory is `Memory`.
#[derive(Drop, Error)]
pub enum Fault {
    /// The source has no tokens.
    #[error(transparent)]
    Lex(LexFault),
    /// The tokens are no file.
    #[error(transparent)]
    Syntax(SyntaxFault),
    /// A rule on names or types is broken.
    #[error(transparent)]
    Name(NameFault),
    /// The file's units have no such design.
    #[error(transparent)]
    Elab(ElabFault),
    /// What the checker found, in order.
    #[error("faults of the checker: {}", .0.len())]
    Rejected(Vec<CheckFault>),
    /// The stimulus is refused.
    #[error(transparent)]
    Stim(StimFault),
    /// The expected values are refused.
    #[error(transparent)]
    Expect(ExpectFault),
    /// The first values that aren't the expected ones.
    #[error("{rule}", rule = ExpectRule::Differs.words())]
    Differs(FirstDifferences),
    /// The name at this place, from 1, chooses nothing to be traced.
    #[error("{rule}, name {place}", rule = RunRule::NotTraced.words())]
    Untraced { place: usize },
    /// The simulation does not settle at this time, in ns.
    #[error("{rule}, at {time} ns", rule = RunRule::NoSettling.words())]
    NoSettling { time: u64 },
    /// Memory was refused.
    #[error("out of memory")]
    Memory,
    /// The sink took less than the whole.
    #[error("the output failed")]
    Output,
}

impl Fault {
    /// The status with which the program ends.
    pub fn status(&self) -> Status
        ensures { result ≡ status_of self.now }
    {
        match self {
            Fault::Lex(LexFault::NoMemory)
            | Fault::Syntax(SyntaxFault::NoMemory)
            | Fault::Name(NameFault::NoMemory)
            | Fault::Elab(ElabFault::NoMemory)
            | Fault::Stim(StimFault::NoMemory)
            | Fault::Expect(ExpectFault::NoMemory)
            | Fault::Memory => Status::Memory,
            Fault::Lex(_) | Fault::Syntax(_) | Fault::Name(_) | Fault::Elab(_) => Status::Source,
            Fault::Rejected(_) => Status::Rejected,
            Fault::Stim(_) | Fault::Expect(_) | Fault::Untraced { .. } => Status::Stimulus,
            Fault::Differs(_) => Status::Differs,
            Fault::NoSettling { .. } => Status::Unsettled,
            Fault::Output => Status::Failed,
        }
    }

    /// The byte of the source at which one of its faults is told; other faults have none.
    pub fn byte(&self) -> Option<usize>
        ensures { result ≡ byte_of self.now }
    {
        match self {
            Fault::Lex(fault) => fault.byte(),
            Fault::Syntax(fault) => fault.byte(),
            Fault::Name(NameFault::At { at, .. }) | Fault::Elab(ElabFault::At { at, .. }) => {
                Some(*at)
            }
            _ => None,
        }
    }
}

impl fmt::Debug for Fault {
    fn fmt<W: fmt::Write>(&self, f: &mut fmt::Formatter<W>) -> fmt::Result {
        fmt::Display::fmt(self, f)
    }
}

impl From<SourceFault> for Fault {
    ghost from_gives = { λ source fault. fault ≡ of_source source };

    fn from(source: SourceFault) -> Fault {
        match source {
            SourceFault::Lex(fault) => Fault::Lex(fault),
            SourceFault::Syntax(fault) => Fault::Syntax(fault),
            SourceFault::Name(fault) => Fault::Name(fault),
            SourceFault::Elab(fault) => Fault::Elab(fault),
            SourceFault::NoMemory => Fault::Memory,
        }
    }
}

impl From<StimFault> for Fault {
    ghost from_gives = { λ stim fault. fault ≡ of_stim stim };

    fn from(stim: StimFault) -> Fault {
        match stim {
            StimFault::NoMemory => Fault::Memory,
            _ => Fault::Stim(stim),
        }
    }
}

impl From<ExpectFault> for Fault {
    ghost from_gives = { λ expect fault. fault ≡ of_expect expect };

    fn from(expect: ExpectFault) -> Fault {
        match expect {
            ExpectFault::NoMemory => Fault::Memory,
            ExpectFault::InLine { .. } => Fault::Expect(expect),
        }
    }
}

impl From<RunFault> for Fault {
    ghost from_gives = { λ run fault. fault ≡ of_run run };

    fn from(run: RunFault) -> Fault {
        match run {
            RunFault::NoSettling { time } => Fault::NoSettling { time },
            RunFault::Memory => Fault::Memory,
            RunFault::Output => Fault::Output,
        }
    }
}

impl From<MachineFault> for Fault {
    ghost from_gives = { λ machine fault. fault ≡ of_machine machine };

    fn from(machine: MachineFault) -> Fault {
        match machine {
            MachineFault::Rejected(faults) => Fault::Rejected(faults),
            MachineFault::Stim(fault) => Fault::Stim(fault),
            MachineFault::Memory => Fault::Memory,
            MachineFault::Output => Fault::Output,
        }
    }
}

impl From<AllocError> for Fault {
    ghost from_gives = { λ _ fault. fault ≡ Memory };

    fn from(_refused: AllocError) -> Fault {
        Fault::Memory
    }
}
