//! The next fault of a source.

ghost use Rattle.std.specs.Prelude.{None, Some};
ghost use Rattle.rtlsim_command_faults.specs.Next.{Finds};
ghost use Rattle.vhdl_lexer.specs.Cut.{Cuts};
ghost use Rattle.vhdl_names_further.specs.Taken.{past};
ghost use Rattle.vhdl_front_rules.specs.Asking.{asked_view};

use std::alloc::Global;
use vhdl_front_rules::{Asked, Front, SourceFault};
use vhdl_lexer::Token;
use vhdl_names_further::take_out;
use vhdl_names_rules::NameFault;

/// What is found behind a fault of names.
#[derive(Drop)]
pub(crate) enum Next {
    /// This fault of what is left of the source.
    Found { left: Vec<u8>, fault: NameFault },
    /// None.
    Nothing,
    /// Memory was refused.
    NoMemory,
}

/// Takes out what is at fault, and reads what is left of the source.
pub(crate) fn next_fault<F: Front>(
    alloc: Global,
    asked: Asked<'_>,
    tokens: &[Token],
    mut left: Vec<u8>,
    fault: NameFault,
) -> Next
    requires { Cuts None 0 asked.source.now tokens.now }
    ensures { Finds (asked_view asked.entry) (past (asked_view asked.entry).source tokens.now left.items fault) result }
{
    if take_out(asked.source, tokens, fault, &mut left) {
        read::<F>(alloc, asked, left)
    } else {
        Next::Nothing
    }
}

/// Reads what is left of the source.
fn read<F: Front>(alloc: Global, asked: Asked<'_>, left: Vec<u8>) -> Next
    ensures { Finds (asked_view asked.entry) (Some left.items) result }
{
    let asked = asked.of_text(&left);
    match F::open(alloc, asked) {
        Err(SourceFault::Name(fault)) => Next::Found { left, fault },
        Err(SourceFault::NoMemory) => Next::NoMemory,
        Ok(_) | Err(_) => Next::Nothing,
    }
}
