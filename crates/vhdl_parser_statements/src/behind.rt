//! What was read, and the words behind it. Where they are refused, it is let go here.

ghost use Rattle.std.specs.Prelude.{◌≡◌, IfOk};
ghost use Rattle.vhdl_tree.specs.View.{option_ident_view};
ghost use Rattle.vhdl_parser_expressions.specs.reader.Input.{Reads};
ghost use Rattle.vhdl_parser_statements.specs.reader.Sequential as read;

use crate::sequential::end_of;
use vhdl_lexer::TokenKind;
use vhdl_parser_expressions::{Parser, Stop};
use vhdl_tree::Identifier;

/// What was read, and behind it `end word [ id ] ;`.
pub fn ended<T: Drop>(
    parser: &mut Parser<'_>,
    found: T,
    word: TokenKind,
) -> Result<(T, Option<Identifier>), Stop>
    ensures same { IfOk result (λ r. r.0 ≡ found) }
    ensures reads { Reads (λ r. option_ident_view r.1) (read.end_of word parser.old) result parser.new }
{
    let label = end_of(parser, word)?;
    Ok((found, label))
}
