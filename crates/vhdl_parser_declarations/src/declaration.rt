//! Declarations of an architecture.

ghost use Rattle.std.specs.Prelude.{◌≡◌};
ghost use Rattle.vhdl_tree.specs.View.{signals_view, component_view, declaration_view, declarations_view};
ghost use Rattle.vhdl_parser_declarations.specs.reader.Declarations as read;
ghost use Rattle.vhdl_parser_expressions.specs.reader.Input.{Reads};

use crate::interface::{optional_generics, optional_ports};
use vhdl_lexer::{Language, TokenKind};
use vhdl_parser_expressions::{Parser, Stop, many};
use vhdl_parser_statements::{
    constants, ended, enumeration, is_wide, object_declaration, subtype_declaration, text,
};
use vhdl_tree::{Component, Declaration, Signals};

#[tactic(auto, unfolding(crate::specs::reader::Declarations::signals_of))]
fn signals(parser: &mut Parser<'_>, language: Language, levels: usize) -> Result<Signals, Stop>
    ensures { Reads signals_view (read.signals_of language levels parser.old) result parser.new }
{
    let (names, subtype, default) = object_declaration(
        parser,
        language,
        levels,
        TokenKind::Signal,
    )?;
    Ok(Signals {
        names,
        subtype,
        default,
    })
}

#[tactic(auto, unfolding(crate::specs::reader::Declarations::component_of))]
fn component(parser: &mut Parser<'_>, language: Language, levels: usize) -> Result<Component, Stop>
    ensures { Reads component_view (read.component_of language levels parser.old) result parser.new }
{
    parser.expect(TokenKind::Component)?;
    let name = parser.identifier()?;
    let is_word = parser.eat(TokenKind::Is)?;
    let generics = optional_generics(parser, language, levels)?;
    let ports = optional_ports(parser, language, levels)?;
    let found = (name, generics, ports);
    let ((name, generics, ports), end_name) = ended(parser, found, TokenKind::Component)?;
    Ok(Component {
        name,
        is_word,
        generics,
        ports,
        end_name,
    })
}

#[tactic(auto, unfolding(crate::specs::reader::Declarations::declaration))]
fn declaration(
    parser: &mut Parser<'_>,
    language: Language,
    levels: usize,
) -> Result<Declaration, Stop>
    ensures { Reads declaration_view (read.declaration language levels parser.old) result parser.new }
{
    match parser.peek() {
        Some(TokenKind::Signal) => Ok(Declaration::Signals(signals(parser, language, levels)?)),
        Some(TokenKind::Constant) => Ok(Declaration::Constants(constants(
            parser, language, levels,
        )?)),
        Some(TokenKind::Type) => Ok(Declaration::Enumeration(enumeration(parser, levels)?)),
        Some(TokenKind::Component) => Ok(Declaration::Component(component(
            parser, language, levels,
        )?)),
        Some(TokenKind::Subtype) => Ok(Declaration::Subtype(subtype_declaration(
            parser, language, levels,
        )?)),
        Some(TokenKind::Attribute) => Ok(Declaration::Attribute(text(
            parser,
            language,
            levels,
            TokenKind::Attribute,
        )?)),
        _ => Err(parser.refuse()),
    }
}

fn begins_declaration(language: Language, kind: Option<TokenKind>) -> bool
    ensures { result ≡ read.begins_declaration language kind }
{
    match kind {
        Some(TokenKind::Signal)
        | Some(TokenKind::Constant)
        | Some(TokenKind::Type)
        | Some(TokenKind::Component) => true,
        Some(TokenKind::Subtype) | Some(TokenKind::Attribute) => is_wide(language),
        _ => false,
    }
}

/// The declarations of an architecture, in which so many levels may be opened.
pub fn declarations(
    parser: &mut Parser<'_>,
    language: Language,
    levels: usize,
) -> Result<Vec<Declaration>, Stop>
    ensures { Reads declarations_view (read.declarations language levels parser.old) result parser.new }
{
    let found = Vec::new(parser.alloc);
    many(
        parser,
        |parser| begins_declaration(language, parser.peek()),
        |parser| declaration(parser, language, levels),
        found,
    )
}
