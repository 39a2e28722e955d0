//! Context clauses.

ghost use Rattle.std.specs.Prelude.{◌≡◌};
ghost use Rattle.vhdl_tree.specs.View.{selected_view, selecteds_view, context_view, contexts_view};
ghost use Rattle.vhdl_parser_expressions.specs.reader.Input as input;
ghost use Rattle.vhdl_parser_expressions.specs.reader.Input.{Reads};
ghost use Rattle.vhdl_parser.specs.reader.Context as read;

use vhdl_lexer::TokenKind;
use vhdl_parser_expressions::{Parser, Stop, followed, many, separated};
use vhdl_parser_statements::identifiers;
use vhdl_tree::{ContextItem, Selected};

/// `word list ;`
macro_rules! item {
    ($parser:expr, $word:ident, $list:ident) => {{
        $parser.expect(TokenKind::$word)?;
        let all = $list($parser)?;
        let all = followed($parser, all, TokenKind::Semicolon)?;
        Ok(ContextItem::$word(all))
    }};
}

#[tactic(auto, unfolding(crate::specs::reader::Context::selected))]
fn selected(parser: &mut Parser<'_>) -> Result<Selected, Stop>
    ensures { Reads selected_view (read.selected parser.old) result parser.new }
{
    let library = parser.identifier()?;
    let library = followed(parser, library, TokenKind::Dot)?;
    let name = parser.identifier()?;
    let found = followed(parser, Selected { library, name }, TokenKind::Dot)?;
    followed(parser, found, TokenKind::All)
}

fn selecteds(parser: &mut Parser<'_>) -> Result<Vec<Selected>, Stop>
    ensures { Reads selecteds_view (read.selecteds parser.old) result parser.new }
{
    separated(parser, TokenKind::Comma, selected)
}

#[tactic(auto, unfolding(crate::specs::reader::Context::library_clause))]
fn library_clause(parser: &mut Parser<'_>) -> Result<ContextItem, Stop>
    ensures { Reads context_view (read.library_clause parser.old) result parser.new }
{
    item!(parser, Library, identifiers)
}

#[tactic(auto, unfolding(crate::specs::reader::Context::use_clause))]
fn use_clause(parser: &mut Parser<'_>) -> Result<ContextItem, Stop>
    ensures { Reads context_view (read.use_clause parser.old) result parser.new }
{
    item!(parser, Use, selecteds)
}

#[tactic(auto, unfolding(crate::specs::reader::Context::context_item))]
fn context_item(parser: &mut Parser<'_>) -> Result<ContextItem, Stop>
    ensures { Reads context_view (read.context_item parser.old) result parser.new }
{
    if parser.sees(TokenKind::Library) {
        library_clause(parser)
    } else {
        use_clause(parser)
    }
}

fn begins_context(parser: &Parser<'_>) -> bool
    ensures { result ≡ read.begins_context (input.next_kind parser.now) }
{
    match parser.peek() {
        Some(TokenKind::Library) | Some(TokenKind::Use) => true,
        _ => false,
    }
}

/// The context clause of a unit (IEEE 1076-2008, 13.4), which may be empty.
pub fn context_clause(parser: &mut Parser<'_>) -> Result<Vec<ContextItem>, Stop>
    ensures { Reads contexts_view (read.context parser.old) result parser.new }
{
    let found = Vec::new(parser.alloc);
    many(parser, begins_context, context_item, found)
}
