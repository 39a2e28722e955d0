//! Declarations of enumeration types and subtypes.

ghost use Rattle.std.specs.Prelude.{◌≡◌};
ghost use Rattle.vhdl_tree.specs.View.{enumeration_view, subtype_declaration_view};
ghost use Rattle.vhdl_parser_expressions.specs.reader.Input.{Reads};
ghost use Rattle.vhdl_parser_statements.specs.reader.Subtypes as read;

use crate::language::wide;
use crate::objects::{identifiers, subtype};
use vhdl_lexer::{Language, TokenKind};
use vhdl_parser_expressions::{Parser, Stop, below, followed};
use vhdl_tree::{Enumeration, SubtypeDeclaration};

/// An enumeration type (5.2.2), in which so many levels may be opened.
#[tactic(auto, unfolding(crate::specs::reader::Subtypes::enumeration_of))]
pub fn enumeration(parser: &mut Parser<'_>, levels: usize) -> Result<Enumeration, Stop>
    ensures { Reads enumeration_view (read.enumeration_of levels parser.old) result parser.new }
{
    parser.expect(TokenKind::Type)?;
    let name = parser.identifier()?;
    let name = followed(parser, name, TokenKind::Is)?;
    let name = followed(parser, name, TokenKind::LeftParen)?;
    below(levels)?;
    let literals = identifiers(parser)?;
    let literals = followed(parser, literals, TokenKind::RightParen)?;
    let literals = followed(parser, literals, TokenKind::Semicolon)?;
    Ok(Enumeration { name, literals })
}

/// A subtype's declaration (6.3) of the wider language, in which so many levels may be opened.
#[tactic(auto, unfolding(crate::specs::reader::Subtypes::subtype_declaration))]
pub fn subtype_declaration(
    parser: &mut Parser<'_>,
    language: Language,
    levels: usize,
) -> Result<SubtypeDeclaration, Stop>
    ensures { Reads subtype_declaration_view (read.subtype_declaration language levels parser.old) result parser.new }
{
    wide(parser, language)?;
    parser.expect(TokenKind::Subtype)?;
    let name = parser.identifier()?;
    let name = followed(parser, name, TokenKind::Is)?;
    let subtype = subtype(parser, language, levels)?;
    followed(
        parser,
        SubtypeDeclaration { name, subtype },
        TokenKind::Semicolon,
    )
}
