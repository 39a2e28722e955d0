//! Why a source has no tokens.

ghost use Rattle.std.specs.Prelude.{◌≡◌, Option};
ghost use Rattle.vhdl_lexer.specs.Fault.{fault_number, fault_byte};
ghost use Rattle.vhdl_lexer.specs.declared.fault.LexFault.TheVariants.{NoMemory};

use fault_rules::LexRule;
use std::alloc::AllocFailed;
use thiserror::Error;

/// Why a source has no tokens. `at` is a byte of the source, counted from 0, and never above the
/// source's length: of the first five faults the first byte of the token that starts first and
/// is none.
#[derive(Clone, Copy, Debug, Error)]
pub enum LexFault {
    /// A byte that begins no token, or one outside 32 to 126 in a string.
    #[error("{rule}, at byte {at}", rule = LexRule::BadByte.words())]
    BadByte { at: usize },
    /// A delimited comment with no `*/` (15.9).
    #[error("{rule}, at byte {at}", rule = LexRule::OpenComment.words())]
    OpenComment { at: usize },
    /// A string or bit string that isn't closed on its line (15.7, 15.8).
    #[error("{rule}, at byte {at}", rule = LexRule::OpenString.words())]
    OpenString { at: usize },
    /// A word with an underscore at its beginning, at its end or beside another (15.4.2).
    #[error("{rule}, at byte {at}", rule = LexRule::BadIdentifier.words())]
    BadIdentifier { at: usize },
    /// A number or bit string with a digit, an underscore or a form that isn't read, or an integer
    /// above 2,147,483,647 (15.5, 15.8).
    #[error("{rule}, at byte {at}", rule = LexRule::BadNumber.words())]
    BadNumber { at: usize },
    /// A source above 4,194,304 bytes; `at` is the first byte above them.
    #[error("{rule}, at byte {at}", rule = LexRule::TooLong.words())]
    TooLong { at: usize },
    /// The list of tokens could not grow.
    #[error("out of memory")]
    NoMemory,
}

impl LexFault {
    /// The number under which the fault is reported, from 1 to 7.
    pub fn number(&self) -> u8
        ensures { result ≡ fault_number self.now }
    {
        match *self {
            LexFault::BadByte { .. } => 1,
            LexFault::OpenComment { .. } => 2,
            LexFault::OpenString { .. } => 3,
            LexFault::BadIdentifier { .. } => 4,
            LexFault::BadNumber { .. } => 5,
            LexFault::TooLong { .. } => 6,
            LexFault::NoMemory => 7,
        }
    }

    /// The byte of the source at which the fault is reported. `NoMemory` has none.
    pub fn byte(&self) -> Option<usize>
        ensures { result ≡ fault_byte self.now }
    {
        match *self {
            LexFault::BadByte { at }
            | LexFault::OpenComment { at }
            | LexFault::OpenString { at }
            | LexFault::BadIdentifier { at }
            | LexFault::BadNumber { at }
            | LexFault::TooLong { at } => Some(at),
            LexFault::NoMemory => None,
        }
    }
}

impl<T: Drop> From<AllocFailed<T>> for LexFault {
    ghost from_gives = { λ _ e. e ≡ NoMemory };

    fn from(_e: AllocFailed<T>) -> LexFault {
        LexFault::NoMemory
    }
}
