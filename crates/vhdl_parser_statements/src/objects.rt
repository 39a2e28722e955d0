//! Identifiers, subtypes, and declarations of objects.

ghost use Rattle.std.specs.Prelude.{◌≡◌};
ghost use Rattle.vhdl_tree.specs.View.{idents_view, constraint_view, option_constraint_view, value_view, option_value_view, subtype_view, constants_view};
ghost use Rattle.vhdl_parser_expressions.specs.reader.Input.{Reads};
ghost use Rattle.vhdl_parser_statements.specs.reader.Subtypes as read;
ghost use Rattle.vhdl_parser_statements.specs.reader.Subtypes.{objects_view};

use vhdl_lexer::{Language, TokenKind};
use vhdl_parser_expressions::{Parser, Stop, below, followed, separated};
use vhdl_tree::{Constants, Constraint, Identifier, Subtype, Value};

/// One identifier or more, with commas between.
pub fn identifiers(parser: &mut Parser<'_>) -> Result<Vec<Identifier>, Stop>
    ensures { Reads idents_view (read.idents parser.old) result parser.new }
{
    separated(parser, TokenKind::Comma, |parser| parser.identifier())
}

/// `( range )`
#[tactic(auto, unfolding(crate::specs::reader::Subtypes::index_constraint))]
fn index_constraint(
    parser: &mut Parser<'_>,
    language: Language,
    levels: usize,
) -> Result<Constraint, Stop>
    ensures { Reads constraint_view (read.index_constraint language levels parser.old) result parser.new }
{
    parser.expect(TokenKind::LeftParen)?;
    let inner = below(levels)?;
    let range = parser.discrete_range(language, inner)?;
    let range = followed(parser, range, TokenKind::RightParen)?;
    Ok(Constraint::Index(range))
}

/// `range range`, in which the first is the reserved word.
#[tactic(auto, unfolding(crate::specs::reader::Subtypes::range_constraint))]
fn range_constraint(parser: &mut Parser<'_>, levels: usize) -> Result<Constraint, Stop>
    ensures { Reads constraint_view (read.range_constraint levels parser.old) result parser.new }
{
    parser.expect(TokenKind::Range)?;
    Ok(Constraint::Range(parser.discrete_range(Language::Wide, levels)?))
}

#[tactic(auto, unfolding(crate::specs::reader::Subtypes::optional_constraint))]
fn optional_constraint(
    parser: &mut Parser<'_>,
    language: Language,
    levels: usize,
) -> Result<Option<Constraint>, Stop>
    ensures { Reads option_constraint_view (read.optional_constraint language levels parser.old) result parser.new }
{
    if parser.sees(TokenKind::LeftParen) {
        return Ok(Some(index_constraint(parser, language, levels)?));
    }
    match language {
        Language::Wide if parser.sees(TokenKind::Range) => {
            Ok(Some(range_constraint(parser, levels)?))
        }
        Language::Wide | Language::Profile => Ok(None),
    }
}

/// A subtype, in which so many levels may be opened.
#[tactic(auto, unfolding(crate::specs::reader::Subtypes::subtype))]
pub fn subtype(parser: &mut Parser<'_>, language: Language, levels: usize) -> Result<Subtype, Stop>
    ensures { Reads subtype_view (read.subtype language levels parser.old) result parser.new }
{
    let mark = parser.identifier()?;
    let constraint = optional_constraint(parser, language, levels)?;
    Ok(Subtype { mark, constraint })
}

/// A default, if one comes next.
#[tactic(auto, unfolding(crate::specs::reader::Subtypes::optional_default, crate::specs::reader::Subtypes::default_value, vhdl_parser_expressions::specs::reader::Input::optional))]
pub fn optional_default(
    parser: &mut Parser<'_>,
    language: Language,
    levels: usize,
) -> Result<Option<Value>, Stop>
    ensures { Reads option_value_view (read.optional_default language levels parser.old) result parser.new }
{
    if !parser.sees(TokenKind::Assign) {
        return Ok(None);
    }
    parser.expect(TokenKind::Assign)?;
    Ok(Some(parser.value(language, levels)?))
}

/// `word ids : subtype [ := value ] ;` by its names, its subtype and its default, in which so many
/// levels may be opened.
#[tactic(auto, unfolding(crate::specs::reader::Subtypes::objects))]
pub fn object_declaration(
    parser: &mut Parser<'_>,
    language: Language,
    levels: usize,
    word: TokenKind,
) -> Result<(Vec<Identifier>, Subtype, Option<Value>), Stop>
    ensures { Reads objects_view (read.objects language levels word parser.old) result parser.new }
{
    parser.expect(word)?;
    let names = identifiers(parser)?;
    let names = followed(parser, names, TokenKind::Colon)?;
    let subtype = subtype(parser, language, levels)?;
    let default = optional_default(parser, language, levels)?;
    followed(parser, (names, subtype, default), TokenKind::Semicolon)
}

/// The value behind a constant's subtype, and the semicolon behind it.
#[tactic(auto, unfolding(crate::specs::reader::Subtypes::constant_value))]
fn constant_value(parser: &mut Parser<'_>, language: Language, levels: usize) -> Result<Value, Stop>
    ensures { Reads value_view (read.constant_value language levels parser.old) result parser.new }
{
    parser.expect(TokenKind::Assign)?;
    let value = parser.value(language, levels)?;
    followed(parser, value, TokenKind::Semicolon)
}

/// Constants of one subtype and value, in which so many levels may be opened.
#[tactic(auto, unfolding(crate::specs::reader::Subtypes::constants_of))]
pub fn constants(
    parser: &mut Parser<'_>,
    language: Language,
    levels: usize,
) -> Result<Constants, Stop>
    ensures { Reads constants_view (read.constants_of language levels parser.old) result parser.new }
{
    parser.expect(TokenKind::Constant)?;
    let names = identifiers(parser)?;
    let names = followed(parser, names, TokenKind::Colon)?;
    let subtype = subtype(parser, language, levels)?;
    let value = constant_value(parser, language, levels)?;
    Ok(Constants {
        names,
        subtype,
        value,
    })
}
