//! Generics and ports.

ghost use Rattle.std.specs.Prelude.{◌≡◌};
ghost use Rattle.vhdl_lexer.specs.declared.token.TokenKind.TheVariants as k;
ghost use Rattle.vhdl_tree.specs.View.{option_expr_view, subtype_view, generic_view, generics_view, option_generics_view, port_view, ports_view, option_ports_view};
ghost use Rattle.vhdl_parser_declarations.specs.reader.Declarations as read;
ghost use Rattle.vhdl_parser_expressions.specs.reader.Input.{Reads};

use vhdl_lexer::{Language, TokenKind};
use vhdl_parser_expressions::{Parser, Stop, below, followed, optional, separated};
use vhdl_parser_statements::{identifiers, optional_default, subtype};
use vhdl_tree::{Expr, Generic, Mode, Port, Subtype};

/// `word ( items ) ;`
macro_rules! clause {
    ($parser:expr, $language:expr, $levels:expr, $word:expr, $items:ident) => {{
        $parser.expect($word)?;
        $parser.expect(TokenKind::LeftParen)?;
        let inner = below($levels)?;
        let found = $items($parser, $language, inner)?;
        let found = followed($parser, found, TokenKind::RightParen)?;
        followed($parser, found, TokenKind::Semicolon)
    }};
}

#[tactic(auto, unfolding(crate::specs::reader::Declarations::optional_generic_default, vhdl_parser_expressions::specs::reader::Input::optional))]
fn optional_generic_default(
    parser: &mut Parser<'_>,
    language: Language,
    levels: usize,
) -> Result<Option<Expr>, Stop>
    ensures { Reads option_expr_view (read.optional_generic_default language levels parser.old) result parser.new }
{
    optional!(
        parser,
        TokenKind::Assign,
        {
            parser.expect(TokenKind::Assign)?;
            parser.expr(language, levels)?
        }
    )
}

/// A type's name alone, or in the wider language any subtype.
#[tactic(auto, unfolding(crate::specs::reader::Declarations::generic_subtype))]
fn generic_subtype(
    parser: &mut Parser<'_>,
    language: Language,
    levels: usize,
) -> Result<Subtype, Stop>
    ensures { Reads subtype_view (read.generic_subtype language levels parser.old) result parser.new }
{
    match language {
        Language::Profile => Ok(Subtype {
            mark: parser.identifier()?,
            constraint: None,
        }),
        Language::Wide => subtype(parser, language, levels),
    }
}

#[tactic(auto, unfolding(crate::specs::reader::Declarations::generic))]
fn generic(parser: &mut Parser<'_>, language: Language, levels: usize) -> Result<Generic, Stop>
    ensures { Reads generic_view (read.generic language levels parser.old) result parser.new }
{
    let constant_word = parser.eat(TokenKind::Constant)?;
    let names = identifiers(parser)?;
    let names = followed(parser, names, TokenKind::Colon)?;
    let in_word = parser.eat(TokenKind::In)?;
    let subtype = generic_subtype(parser, language, levels)?;
    let default = optional_generic_default(parser, language, levels)?;
    Ok(Generic {
        constant_word,
        names,
        in_word,
        subtype,
        default,
    })
}

fn generic_list(
    parser: &mut Parser<'_>,
    language: Language,
    levels: usize,
) -> Result<Vec<Generic>, Stop>
    ensures { Reads generics_view (read.items (read.generic language) levels parser.old) result parser.new }
{
    separated(
        parser,
        TokenKind::Semicolon,
        |parser| generic(parser, language, levels),
    )
}

fn generics(
    parser: &mut Parser<'_>,
    language: Language,
    levels: usize,
) -> Result<Vec<Generic>, Stop>
    ensures { Reads generics_view (read.clause k.Generic (read.generic language) levels parser.old) result parser.new }
{
    clause!(parser, language, levels, TokenKind::Generic, generic_list)
}

/// A generic clause, if one comes next, in which so many levels may be opened.
#[tactic(auto, unfolding(crate::specs::reader::Declarations::optional_generics, vhdl_parser_expressions::specs::reader::Input::optional))]
pub fn optional_generics(
    parser: &mut Parser<'_>,
    language: Language,
    levels: usize,
) -> Result<Option<Vec<Generic>>, Stop>
    ensures { Reads option_generics_view (read.optional_generics language levels parser.old) result parser.new }
{
    optional!(
        parser,
        TokenKind::Generic,
        generics(parser, language, levels)?
    )
}

#[tactic(auto, unfolding(crate::specs::reader::Declarations::mode))]
fn mode(parser: &mut Parser<'_>) -> Result<Option<Mode>, Stop>
    ensures { Reads (λ m. m) (read.mode parser.old) result parser.new }
{
    match parser.peek() {
        Some(TokenKind::In) => {
            parser.expect(TokenKind::In)?;
            Ok(Some(Mode::In))
        }
        Some(TokenKind::Out) => {
            parser.expect(TokenKind::Out)?;
            Ok(Some(Mode::Out))
        }
        _ => Ok(None),
    }
}

#[tactic(auto, unfolding(crate::specs::reader::Declarations::port))]
fn port(parser: &mut Parser<'_>, language: Language, levels: usize) -> Result<Port, Stop>
    ensures { Reads port_view (read.port language levels parser.old) result parser.new }
{
    let signal_word = parser.eat(TokenKind::Signal)?;
    let names = identifiers(parser)?;
    let names = followed(parser, names, TokenKind::Colon)?;
    let mode = mode(parser)?;
    let subtype = subtype(parser, language, levels)?;
    let default = optional_default(parser, language, levels)?;
    Ok(Port {
        signal_word,
        names,
        mode,
        subtype,
        default,
    })
}

fn port_list(parser: &mut Parser<'_>, language: Language, levels: usize) -> Result<Vec<Port>, Stop>
    ensures { Reads ports_view (read.items (read.port language) levels parser.old) result parser.new }
{
    separated(
        parser,
        TokenKind::Semicolon,
        |parser| port(parser, language, levels),
    )
}

fn ports(parser: &mut Parser<'_>, language: Language, levels: usize) -> Result<Vec<Port>, Stop>
    ensures { Reads ports_view (read.clause k.Port (read.port language) levels parser.old) result parser.new }
{
    clause!(parser, language, levels, TokenKind::Port, port_list)
}

/// A port clause, if one comes next, in which so many levels may be opened.
#[tactic(auto, unfolding(crate::specs::reader::Declarations::optional_ports, vhdl_parser_expressions::specs::reader::Input::optional))]
pub fn optional_ports(
    parser: &mut Parser<'_>,
    language: Language,
    levels: usize,
) -> Result<Option<Vec<Port>>, Stop>
    ensures { Reads option_ports_view (read.optional_ports language levels parser.old) result parser.new }
{
    optional!(parser, TokenKind::Port, ports(parser, language, levels)?)
}
