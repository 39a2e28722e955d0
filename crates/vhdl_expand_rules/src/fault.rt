//! Why a design is not elaborated.

ghost use Rattle.std.specs.Prelude.{◌≡◌};
ghost use Rattle.vhdl_expand_rules.specs.BrokenRules.{rule_of};
ghost use Rattle.vhdl_expand_rules.specs.declared.fault.ElabFault.TheVariants.{NoMemory};

use fault_rules::ElabRule;
use std::alloc::{AllocError, AllocFailed};
use thiserror::Error;

/// What is wrong with a design (IEEE 1076-2008, clause 14). They are numbered from 1 in this order.
#[derive(Clone, Copy, Debug)]
pub enum ElabProblem {
    /// No entity of that name, or no architecture for it or for an instance (14.2).
    NoTop,
    /// A generic with no value and no default (6.5.6.2).
    NoGeneric,
    /// A generic or constant outside its type (5.2.3).
    GenericRange,
    /// A static expression without a value, or a negative number where a natural is needed (9.4).
    StaticError,
    /// Lengths that have to be equal and are not (9.2.2, 10.5.2.2, 6.5.7.3): so many elements stand
    /// where so many are needed, or left and right of an operator.
    Length { found: usize, needed: usize },
    /// An index or slice outside its declaration or against its direction, or a vector without
    /// elements (8.4, 8.5).
    Index,
    /// A vector of more than 64 elements.
    TooWide,
    /// An in port without an actual and without a default (6.5.6.3).
    Unassociated,
    /// An element of an unresolved declaration with two sources (6.4.2.3).
    TwoUnresolved,
    /// An out port that is read, whose net has several sources.
    ReadOfShared,
    /// More than 32 instances within one another.
    TooDeep,
    /// More turns, processes, instances, nets, statements or elements of variables than the limits.
    TooMany,
}

/// Why a design is not elaborated. `at` is a byte of the source, counted from 0.
#[derive(Clone, Copy, Debug, Error)]
pub enum ElabFault {
    /// This is wrong with what stands here.
    #[error("{rule}, at byte {at}", rule = .problem.rule().words())]
    At { problem: ElabProblem, at: usize },
    /// Memory was refused.
    #[error("out of memory")]
    NoMemory,
}

impl ElabProblem {
    /// The fault of this problem at a byte of the source.
    pub fn at(self, at: usize) -> ElabFault
        ensures { result ≡ ElabFault.At self at }
    {
        ElabFault::At { problem: self, at }
    }

    /// The rule that it breaks.
    pub fn rule(self) -> ElabRule
        ensures { result ≡ rule_of self }
    {
        match self {
            ElabProblem::NoTop => ElabRule::NoTop,
            ElabProblem::NoGeneric => ElabRule::NoGeneric,
            ElabProblem::GenericRange => ElabRule::GenericRange,
            ElabProblem::StaticError => ElabRule::StaticError,
            ElabProblem::Length { .. } => ElabRule::Length,
            ElabProblem::Index => ElabRule::Index,
            ElabProblem::TooWide => ElabRule::TooWide,
            ElabProblem::Unassociated => ElabRule::Unassociated,
            ElabProblem::TwoUnresolved => ElabRule::TwoUnresolved,
            ElabProblem::ReadOfShared => ElabRule::ReadOfShared,
            ElabProblem::TooDeep => ElabRule::TooDeep,
            ElabProblem::TooMany => ElabRule::TooMany,
        }
    }
}

impl From<AllocError> for ElabFault {
    ghost from_gives = { λ _ fault. fault ≡ NoMemory };

    fn from(_refused: AllocError) -> ElabFault {
        ElabFault::NoMemory
    }
}

impl<T: Drop> From<AllocFailed<T>> for ElabFault {
    ghost from_gives = { λ _ fault. fault ≡ NoMemory };

    fn from(_refused: AllocFailed<T>) -> ElabFault {
        ElabFault::NoMemory
    }
}
