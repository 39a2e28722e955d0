//! Entities, architectures and files.

ghost use Rattle.std.specs.Prelude.{◌≡◌};
ghost use Rattle.vhdl_lexer.specs.declared.token.TokenKind.TheVariants as k;
ghost use Rattle.vhdl_tree.specs.View.{option_ident_view, texts_view, assertion_view, assertions_view, option_assertions_view, entity_view, architecture_view, library_unit_view, unit_view, units_view, file_view};
ghost use Rattle.vhdl_parser_expressions.specs.reader.Input as input;
ghost use Rattle.vhdl_parser_expressions.specs.reader.Input.{Reads};
ghost use Rattle.vhdl_parser_statements.specs.reader.Sequential as sequential;
ghost use Rattle.vhdl_parser.specs.reader.Units as read;

use crate::concurrent::concurrents;
use crate::context::context_clause;
use vhdl_lexer::{Language, TokenKind};
use vhdl_parser_declarations::{declarations, optional_generics, optional_ports};
use vhdl_parser_expressions::{Parser, Stop, followed, many, optional};
use vhdl_parser_statements::{is_wide, label, text};
use vhdl_tree::{
    Architecture, Assertion, DesignUnit, Entity, File, Identifier, LibraryUnit, MAX_OPEN,
};

fn begins_attribute(language: Language, kind: Option<TokenKind>) -> bool
    ensures { result ≡ read.begins_attribute language kind }
{
    match kind {
        Some(TokenKind::Attribute) => is_wide(language),
        _ => false,
    }
}

/// The texts behind `attribute` in an entity.
#[tactic(auto, unfolding(crate::specs::reader::Units::attributes))]
fn attributes(parser: &mut Parser<'_>, language: Language) -> Result<Vec<Vec<TokenKind>>, Stop>
    ensures { Reads texts_view (read.attributes language parser.old) result parser.new }
{
    let found = Vec::new(parser.alloc);
    many(
        parser,
        |parser| begins_attribute(language, parser.peek()),
        |parser| text(parser, language, MAX_OPEN, TokenKind::Attribute),
        found,
    )
}

fn begins_assertion(parser: &Parser<'_>) -> bool
    ensures { result ≡ read.begins_assertion (input.next_kind parser.now) }
{
    match parser.peek() {
        Some(TokenKind::Identifier) | Some(TokenKind::Assert) => true,
        _ => false,
    }
}

#[tactic(auto, unfolding(vhdl_parser_expressions::specs::reader::Input::optional))]
fn assertion_label(parser: &mut Parser<'_>) -> Result<Option<Identifier>, Stop>
    ensures { Reads option_ident_view (input.optional (input.is_kind k.Identifier) sequential.label parser.old) result
        parser.new }
{
    optional!(parser, TokenKind::Identifier, label(parser)?)
}

/// An assertion of an entity (3.2.4).
#[tactic(auto, unfolding(crate::specs::reader::Units::entity_assertion, crate::specs::reader::Concurrent::assert))]
fn assertion(parser: &mut Parser<'_>) -> Result<Assertion, Stop>
    ensures { Reads assertion_view (read.entity_assertion parser.old) result parser.new }
{
    let label = assertion_label(parser)?;
    let text = text(parser, Language::Wide, MAX_OPEN, TokenKind::Assert)?;
    Ok(Assertion { label, text })
}

#[tactic(auto, unfolding(crate::specs::reader::Units::entity_statements))]
fn entity_statements(parser: &mut Parser<'_>) -> Result<Vec<Assertion>, Stop>
    ensures { Reads assertions_view (read.entity_statements parser.old) result parser.new }
{
    parser.expect(TokenKind::Begin)?;
    let found = Vec::new(parser.alloc);
    many(parser, begins_assertion, assertion, found)
}

/// `begin` and the assertions behind it, if it comes next in the wider language.
#[tactic(auto, unfolding(crate::specs::reader::Units::optional_statements))]
fn optional_statements(
    parser: &mut Parser<'_>,
    language: Language,
) -> Result<Option<Vec<Assertion>>, Stop>
    ensures { Reads option_assertions_view (read.optional_statements language parser.old) result parser.new }
{
    match language {
        Language::Wide if parser.sees(TokenKind::Begin) => Ok(Some(entity_statements(parser)?)),
        Language::Wide | Language::Profile => Ok(None),
    }
}

#[tactic(auto, unfolding(crate::specs::reader::Units::entity_unit))]
fn entity(parser: &mut Parser<'_>, language: Language) -> Result<Entity, Stop>
    ensures { Reads entity_view (read.entity_unit language parser.old) result parser.new }
{
    let at = parser.expect(TokenKind::Entity)?;
    let name = parser.identifier()?;
    let name = followed(parser, name, TokenKind::Is)?;
    let generics = optional_generics(parser, language, MAX_OPEN)?;
    let ports = optional_ports(parser, language, MAX_OPEN)?;
    let attributes = attributes(parser, language)?;
    let statements = optional_statements(parser, language)?;
    let front = (name, generics, ports, attributes, statements);
    let front = followed(parser, front, TokenKind::End)?;
    let end_word = parser.eat(TokenKind::Entity)?;
    let end_name = parser.optional_identifier()?;
    let (name, generics, ports, attributes, statements) = front;
    let found = Entity {
        at,
        name,
        generics,
        ports,
        attributes,
        statements,
        end_word,
        end_name,
    };
    followed(parser, found, TokenKind::Semicolon)
}

#[tactic(auto, unfolding(crate::specs::reader::Units::architecture_unit))]
fn architecture(parser: &mut Parser<'_>, language: Language) -> Result<Architecture, Stop>
    ensures { Reads architecture_view (read.architecture_unit language parser.old) result parser.new }
{
    let at = parser.expect(TokenKind::Architecture)?;
    let name = parser.identifier()?;
    let name = followed(parser, name, TokenKind::Of)?;
    let entity = parser.identifier()?;
    let names = followed(parser, (name, entity), TokenKind::Is)?;
    let declarations = declarations(parser, language, MAX_OPEN)?;
    let front = followed(parser, (names, declarations), TokenKind::Begin)?;
    let statements = concurrents(parser, language, MAX_OPEN)?;
    let (front, statements) = followed(parser, (front, statements), TokenKind::End)?;
    let end_word = parser.eat(TokenKind::Architecture)?;
    let end_name = parser.optional_identifier()?;
    let ((name, entity), declarations) = front;
    let found = Architecture {
        at,
        name,
        entity,
        declarations,
        statements,
        end_word,
        end_name,
    };
    followed(parser, found, TokenKind::Semicolon)
}

#[tactic(auto, unfolding(crate::specs::reader::Units::library_unit))]
fn library_unit(parser: &mut Parser<'_>, language: Language) -> Result<LibraryUnit, Stop>
    ensures { Reads library_unit_view (read.library_unit language parser.old) result parser.new }
{
    match parser.peek() {
        Some(TokenKind::Entity) => Ok(LibraryUnit::Entity(entity(parser, language)?)),
        Some(TokenKind::Architecture) => Ok(LibraryUnit::Architecture(architecture(
            parser, language,
        )?)),
        _ => Err(parser.refuse()),
    }
}

#[tactic(auto, unfolding(crate::specs::reader::Units::unit))]
fn unit(parser: &mut Parser<'_>, language: Language) -> Result<DesignUnit, Stop>
    ensures { Reads unit_view (read.unit language parser.old) result parser.new }
{
    let context = context_clause(parser)?;
    let unit = library_unit(parser, language)?;
    Ok(DesignUnit { context, unit })
}

fn is_more(parser: &Parser<'_>) -> bool
    ensures { result ≡ input.is_more (input.next_kind parser.now) }
{
    match parser.peek() {
        Some(_) => true,
        None => false,
    }
}

fn units(parser: &mut Parser<'_>, language: Language) -> Result<Vec<DesignUnit>, Stop>
    ensures { Reads units_view (read.units language parser.old) result parser.new }
{
    let found = Vec::new(parser.alloc);
    many(parser, is_more, |parser| unit(parser, language), found)
}

/// A whole file of this language.
#[tactic(auto, unfolding(crate::specs::reader::Units::file, crate::specs::reader::Units::finish))]
pub fn file(parser: &mut Parser<'_>, language: Language) -> Result<File, Stop>
    ensures { Reads file_view (read.file language parser.old) result parser.new }
{
    let units = units(parser, language)?;
    if is_more(parser) {
        return Err(parser.refuse());
    }
    Ok(File { units })
}
