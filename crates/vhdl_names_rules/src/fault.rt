//! Why the names and types of a file are refused.

ghost use Rattle.std.specs.Prelude.{◌≡◌};
ghost use Rattle.vhdl_names_rules.specs.BrokenRules.{rule_of};
ghost use Rattle.vhdl_names_rules.specs.declared.fault.NameFault.TheVariants.{NoMemory};

use fault_rules::NameRule;
use std::alloc::{AllocError, AllocFailed};
use thiserror::Error;

/// What is wrong with a name or a type. The clauses are those of IEEE 1076-2008. They are numbered
/// from 1 in this order.
#[derive(Clone, Copy, Debug)]
pub enum NameProblem {
    /// A name that no declaration in sight has (12.3).
    Undeclared,
    /// A name that is declared twice in one region (12.1), or a formal that is associated twice.
    Twice,
    /// A name of something else than what has to stand here.
    WrongKind,
    /// An expression of another type than the one that is wanted (9.1).
    TypeMismatch,
    /// A name or operator of a package that no use clause makes visible (12.4).
    NotVisible,
    /// An in port as a target, or as the actual of an out port (6.5.2).
    WriteOfIn,
    /// A case without `others` where a value is missing (10.9).
    NoOthers,
    /// A choice of a value that an earlier one has (10.9).
    ChoiceTwice,
    /// A second architecture of one entity.
    SecondArchitecture,
    /// A process without a sensitivity list.
    NoSensitivity,
    /// A form that parses and is no part of the language.
    LeftOut,
}

/// Why a file is not well typed. `at` is a byte of the source, counted from 0.
#[derive(Clone, Copy, Debug, Error)]
pub enum NameFault {
    /// This is wrong with what stands here.
    #[error("{rule}, at byte {at}", rule = .problem.rule().words())]
    At { problem: NameProblem, at: usize },
    /// Memory was refused.
    #[error("out of memory")]
    NoMemory,
}

impl NameProblem {
    /// The fault of this problem at a byte of the source.
    pub fn at(self, at: usize) -> NameFault
        ensures { result ≡ NameFault.At self at }
    {
        NameFault::At { problem: self, at }
    }

    /// The rule that it breaks.
    pub fn rule(self) -> NameRule
        ensures { result ≡ rule_of self }
    {
        match self {
            NameProblem::Undeclared => NameRule::Undeclared,
            NameProblem::Twice => NameRule::Twice,
            NameProblem::WrongKind => NameRule::WrongKind,
            NameProblem::TypeMismatch => NameRule::TypeMismatch,
            NameProblem::NotVisible => NameRule::NotVisible,
            NameProblem::WriteOfIn => NameRule::WriteOfIn,
            NameProblem::NoOthers => NameRule::NoOthers,
            NameProblem::ChoiceTwice => NameRule::ChoiceTwice,
            NameProblem::SecondArchitecture => NameRule::SecondArchitecture,
            NameProblem::NoSensitivity => NameRule::NoSensitivity,
            NameProblem::LeftOut => NameRule::LeftOut,
        }
    }
}

impl From<AllocError> for NameFault {
    ghost from_gives = { λ _ fault. fault ≡ NoMemory };

    fn from(_refused: AllocError) -> NameFault {
        NameFault::NoMemory
    }
}

impl<T: Drop> From<AllocFailed<T>> for NameFault {
    ghost from_gives = { λ _ fault. fault ≡ NoMemory };

    fn from(_refused: AllocFailed<T>) -> NameFault {
        NameFault::NoMemory
    }
}

/// A fault, of something that is let go.
pub fn without<T: Drop>(_held: T, fault: NameFault) -> NameFault
    ensures { result ≡ fault }
{
    fault
}
