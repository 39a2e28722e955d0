//! What was read, and a token behind it. Where that is refused, it is let go here.

ghost use Rattle.std.specs.Prelude.{◌≡◌, IfOk};
ghost use Rattle.vhdl_parser_expressions.specs.reader.Behind.{start};
ghost use Rattle.vhdl_parser_expressions.specs.reader.Input.{Reads, expect};

use crate::parser::Parser;
use crate::stop::Stop;
use vhdl_lexer::TokenKind;

/// What was read, and behind it a token of this kind.
#[tactic(auto, using(crate::proofs::Started::starts))]
pub fn followed<T: Drop>(parser: &mut Parser<'_>, found: T, kind: TokenKind) -> Result<T, Stop>
    ensures same { IfOk result (λ x. x ≡ found) }
    ensures reads { Reads (λ _. start parser.old) (expect kind parser.old) result parser.new }
{
    parser.expect(kind)?;
    Ok(found)
}
