//! Why tokens are no file.

ghost use Rattle.std.specs.Prelude.{◌≡◌, Option};
ghost use Rattle.vhdl_parser_rules.specs.Fault.{fault_number, fault_byte};

use fault_rules::SyntaxRule;
use thiserror::Error;

/// Why tokens are no file. `at` is a byte of the source, counted from 0, and never above the
/// source's length: where the token starts at which the reading stopped, or the source's length
/// where it stopped behind the last token.
#[derive(Clone, Copy, Debug, Error)]
pub enum SyntaxFault {
    /// No file goes on with this token.
    #[error("{rule}, at byte {at}", rule = SyntaxRule::Unexpected.words())]
    Unexpected { at: usize },
    /// The tokens end where a file goes on.
    #[error("{rule}, at byte {at}", rule = SyntaxRule::EndOfFile.words())]
    EndOfFile { at: usize },
    /// More than 64 levels are open.
    #[error("{rule}, at byte {at}", rule = SyntaxRule::TooDeep.words())]
    TooDeep { at: usize },
    /// A part of the tree could not grow.
    #[error("out of memory")]
    NoMemory,
}

impl SyntaxFault {
    /// The number under which the fault is reported, from 1 to 4.
    pub fn number(&self) -> u8
        ensures { result ≡ fault_number self.now }
    {
        match *self {
            SyntaxFault::Unexpected { .. } => 1,
            SyntaxFault::EndOfFile { .. } => 2,
            SyntaxFault::TooDeep { .. } => 3,
            SyntaxFault::NoMemory => 4,
        }
    }

    /// The byte of the source at which the fault is reported. `NoMemory` has none.
    pub fn byte(&self) -> Option<usize>
        ensures { result ≡ fault_byte self.now }
    {
        match *self {
            SyntaxFault::Unexpected { at }
            | SyntaxFault::EndOfFile { at }
            | SyntaxFault::TooDeep { at } => Some(at),
            SyntaxFault::NoMemory => None,
        }
    }
}
