//! What is read in the wider language alone.

ghost use Rattle.std.specs.Prelude.{◌≡◌};
ghost use Rattle.vhdl_parser_expressions.specs.reader.Input.{Reads};
ghost use Rattle.vhdl_parser_statements.specs.reader.Wide as read;

use vhdl_lexer::Language;
use vhdl_parser_expressions::{Parser, Stop};

/// Whether it is the wider language.
pub fn is_wide(language: Language) -> bool
    ensures { result ≡ read.is_wide language }
{
    match language {
        Language::Profile => false,
        Language::Wide => true,
    }
}

/// Goes on in the wider language, and refuses what comes next in the other.
#[tactic(auto, unfolding(crate::specs::reader::Wide::wide))]
pub fn wide(parser: &Parser<'_>, language: Language) -> Result<(), Stop>
    ensures { Reads (λ _. tt) (read.wide language parser.now) result parser.now }
{
    match language {
        Language::Profile => Err(parser.refuse()),
        Language::Wide => Ok(()),
    }
}
