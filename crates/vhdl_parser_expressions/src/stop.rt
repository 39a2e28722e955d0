//! Why a parser stops.

ghost use Rattle.std.specs.Prelude.{◌≡◌};
ghost use Rattle.vhdl_parser_expressions.specs.declared.stop.Stop.TheVariants.{NoMemory};

use std::alloc::{AllocError, AllocFailed};

/// Why a parser stopped. The token that it met is its next one.
#[derive(Clone, Copy)]
pub enum Stop {
    /// What is read doesn't go on with the next token.
    Unexpected,
    /// No token is left, and one has to stand.
    EndOfFile,
    /// One level more would open than may.
    TooDeep,
    /// Memory was refused.
    NoMemory,
}

impl From<AllocError> for Stop {
    ghost from_gives = { λ _ e. e ≡ NoMemory };

    fn from(_e: AllocError) -> Stop {
        Stop::NoMemory
    }
}

impl<T: Drop> From<AllocFailed<T>> for Stop {
    ghost from_gives = { λ _ e. e ≡ NoMemory };

    fn from(_e: AllocFailed<T>) -> Stop {
        Stop::NoMemory
    }
}
