//! Instances.

ghost use Rattle.std.specs.Prelude.{◌≡◌, option_map};
ghost use Rattle.vhdl_lexer.specs.declared.token.TokenKind.TheVariants as k;
ghost use Rattle.vhdl_tree.specs.View.{ident_view, option_ident_view, associations_view, instantiated_view, instance_view};
ghost use Rattle.vhdl_parser_expressions.specs.reader.Input as input;
ghost use Rattle.vhdl_parser_expressions.specs.reader.Input.{Reads};
ghost use Rattle.vhdl_parser.specs.reader.Instance as read;

use vhdl_lexer::{Language, TokenKind};
use vhdl_parser_expressions::{Parser, Stop, below, followed, optional};
use vhdl_tree::{Association, Identifier, Instance, Instantiated};

#[tactic(auto, unfolding(crate::specs::reader::Instance::chosen))]
fn chosen_architecture(parser: &mut Parser<'_>, levels: usize) -> Result<Identifier, Stop>
    ensures { Reads ident_view (read.chosen levels parser.old) result parser.new }
{
    parser.expect(TokenKind::LeftParen)?;
    let _inner = below(levels)?;
    let name = parser.identifier()?;
    followed(parser, name, TokenKind::RightParen)
}

#[tactic(auto, unfolding(vhdl_parser_expressions::specs::reader::Input::optional))]
fn optional_architecture(parser: &mut Parser<'_>, levels: usize) -> Result<Option<Identifier>, Stop>
    ensures { Reads option_ident_view (input.optional (input.is_kind k.LeftParen) (read.chosen levels) parser.old)
        result parser.new }
{
    optional!(
        parser,
        TokenKind::LeftParen,
        chosen_architecture(parser, levels)?
    )
}

#[tactic(auto, unfolding(crate::specs::reader::Instance::of_entity))]
fn instantiated_entity(parser: &mut Parser<'_>, levels: usize) -> Result<Instantiated, Stop>
    ensures { Reads instantiated_view (read.of_entity levels parser.old) result parser.new }
{
    parser.expect(TokenKind::Entity)?;
    let library = parser.identifier()?;
    let library = followed(parser, library, TokenKind::Dot)?;
    let name = parser.identifier()?;
    let architecture = optional_architecture(parser, levels)?;
    Ok(Instantiated::Entity {
        library,
        name,
        architecture,
    })
}

#[tactic(auto, unfolding(crate::specs::reader::Instance::instantiated, crate::specs::reader::Instance::of_component))]
fn instantiated(parser: &mut Parser<'_>, levels: usize) -> Result<Instantiated, Stop>
    ensures { Reads instantiated_view (read.instantiated levels parser.old) result parser.new }
{
    if parser.sees(TokenKind::Entity) {
        return instantiated_entity(parser, levels);
    }
    let component_word = parser.eat(TokenKind::Component)?;
    let name = parser.identifier()?;
    Ok(Instantiated::Component {
        component_word,
        name,
    })
}

#[tactic(auto, unfolding(crate::specs::reader::Instance::map_of))]
fn map_of(
    parser: &mut Parser<'_>,
    language: Language,
    levels: usize,
    word: TokenKind,
) -> Result<Vec<Association>, Stop>
    ensures { Reads associations_view (read.map_of language levels word parser.old) result parser.new }
{
    parser.expect(word)?;
    parser.expect(TokenKind::Map)?;
    parser.expect(TokenKind::LeftParen)?;
    let inner = below(levels)?;
    let all = parser.associations(language, inner)?;
    followed(parser, all, TokenKind::RightParen)
}

#[tactic(auto, unfolding(vhdl_parser_expressions::specs::reader::Input::optional))]
fn optional_map(
    parser: &mut Parser<'_>,
    language: Language,
    levels: usize,
    word: TokenKind,
) -> Result<Option<Vec<Association>>, Stop>
    ensures { Reads (option_map associations_view)
        (input.optional (input.is_kind word) (read.map_of language levels word) parser.old) result parser.new }
{
    optional!(parser, word, map_of(parser, language, levels, word)?)
}

/// An instance behind its label, in which so many levels may be opened.
#[tactic(auto, unfolding(crate::specs::reader::Instance::instance))]
pub fn instance(
    parser: &mut Parser<'_>,
    language: Language,
    levels: usize,
) -> Result<Instance, Stop>
    ensures { Reads instance_view (read.instance language levels parser.old) result parser.new }
{
    let unit = instantiated(parser, levels)?;
    let generics = optional_map(parser, language, levels, TokenKind::Generic)?;
    let ports = optional_map(parser, language, levels, TokenKind::Port)?;
    let found = Instance {
        unit,
        generics,
        ports,
    };
    followed(parser, found, TokenKind::Semicolon)
}
