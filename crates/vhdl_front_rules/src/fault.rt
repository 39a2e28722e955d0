//! Why a source has no netlist.

ghost use Rattle.std.specs.Prelude.{◌≡◌};
ghost use Rattle.vhdl_front_rules.specs.Faults.{of_lex, of_syntax, of_name, of_elab, of_keep};
ghost use Rattle.vhdl_front_rules.specs.declared.fault.SourceFault.TheVariants.{NoMemory};

use rtl_keeping::KeepFault;
use std::alloc::AllocError;
use thiserror::Error;
use vhdl_expand_rules::{ElabFault, ElabProblem};
use vhdl_lexer::LexFault;
use vhdl_names_rules::NameFault;
use vhdl_parser_rules::SyntaxFault;

/// Why a source has no netlist with this top, by the first layer that refuses it. A layer's want of
/// memory is `NoMemory`.
#[derive(Clone, Copy, Debug, Error)]
pub enum SourceFault {
    /// The source has no tokens.
    #[error(transparent)]
    Lex(LexFault),
    /// The tokens are no file.
    #[error(transparent)]
    Syntax(SyntaxFault),
    /// A rule on names or types is broken.
    #[error(transparent)]
    Name(NameFault),
    /// The file's units have no design with this top.
    #[error(transparent)]
    Elab(ElabFault),
    /// Memory was refused.
    #[error("out of memory")]
    NoMemory,
}

impl From<LexFault> for SourceFault {
    ghost from_gives = { λ lex fault. fault ≡ of_lex lex };

    fn from(lex: LexFault) -> SourceFault {
        match lex {
            LexFault::NoMemory => SourceFault::NoMemory,
            _ => SourceFault::Lex(lex),
        }
    }
}

impl From<SyntaxFault> for SourceFault {
    ghost from_gives = { λ syntax fault. fault ≡ of_syntax syntax };

    fn from(syntax: SyntaxFault) -> SourceFault {
        match syntax {
            SyntaxFault::NoMemory => SourceFault::NoMemory,
            _ => SourceFault::Syntax(syntax),
        }
    }
}

impl From<NameFault> for SourceFault {
    ghost from_gives = { λ name fault. fault ≡ of_name name };

    fn from(name: NameFault) -> SourceFault {
        match name {
            NameFault::NoMemory => SourceFault::NoMemory,
            _ => SourceFault::Name(name),
        }
    }
}

impl From<ElabFault> for SourceFault {
    ghost from_gives = { λ elab fault. fault ≡ of_elab elab };

    fn from(elab: ElabFault) -> SourceFault {
        match elab {
            ElabFault::NoMemory => SourceFault::NoMemory,
            _ => SourceFault::Elab(elab),
        }
    }
}

/// The nets of kept variables count among those of the design.
impl From<KeepFault> for SourceFault {
    ghost from_gives = { λ keep fault. fault ≡ of_keep keep };

    fn from(keep: KeepFault) -> SourceFault {
        match keep {
            KeepFault::TooMany => SourceFault::Elab(ElabProblem::TooMany.at(0)),
            KeepFault::NoMemory => SourceFault::NoMemory,
        }
    }
}

impl From<AllocError> for SourceFault {
    ghost from_gives = { λ _ fault. fault ≡ NoMemory };

    fn from(_refused: AllocError) -> SourceFault {
        SourceFault::NoMemory
    }
}
