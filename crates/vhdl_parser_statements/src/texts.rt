//! Texts that are read and dropped, behind `attribute` (IEEE 1076-2008, 6.7, 7.2), `assert` and
//! `report` (10.3, 10.4, 11.5).

ghost use Rattle.std.specs.Prelude.{◌≡◌};
ghost use Rattle.vhdl_tree.specs.View.{text_view};
ghost use Rattle.vhdl_tree.specs.grammar.Texts as text;
ghost use Rattle.vhdl_parser_expressions.specs.reader.Input.{Reads};
ghost use Rattle.vhdl_parser_statements.specs.reader.Texts as read;

use crate::language::wide;
use vhdl_lexer::{Language, TokenKind};
use vhdl_parser_expressions::{Parser, Stop, below, followed};

fn is_operand(kind: TokenKind) -> bool
    ensures { result ≡ text.is_operand kind }
{
    matches!(
        kind,
        TokenKind::Identifier
            | TokenKind::Integer
            | TokenKind::Character
            | TokenKind::String
            | TokenKind::BitString
            | TokenKind::Null
    )
}

fn ends_operand(kind: TokenKind) -> bool
    ensures { result ≡ text.ends_operand kind }
{
    is_operand(kind) || matches!(kind, TokenKind::RightParen | TokenKind::All)
}

/// Whether it is a word that says what an attribute is of (7.2).
fn is_entity_class(kind: TokenKind) -> bool
    ensures { result ≡ text.is_entity_class kind }
{
    matches!(
        kind,
        TokenKind::Entity
            | TokenKind::Architecture
            | TokenKind::Configuration
            | TokenKind::Procedure
            | TokenKind::Function
            | TokenKind::Package
            | TokenKind::Type
            | TokenKind::Subtype
            | TokenKind::Constant
            | TokenKind::Signal
            | TokenKind::Variable
            | TokenKind::Component
            | TokenKind::Label
            | TokenKind::Literal
            | TokenKind::Units
            | TokenKind::Group
            | TokenKind::File
    )
}

/// Whether it stands between operands.
fn is_between(kind: TokenKind) -> bool
    ensures { result ≡ text.is_between kind }
{
    match kind {
        // Delimiters and signs.
        TokenKind::Tick
        | TokenKind::Comma
        | TokenKind::Dot
        | TokenKind::Colon
        | TokenKind::Arrow
        | TokenKind::Bar
        | TokenKind::Ampersand
        | TokenKind::Plus
        | TokenKind::Minus
        | TokenKind::Star
        | TokenKind::Slash
        | TokenKind::Equal
        | TokenKind::NotEqual
        | TokenKind::Less
        | TokenKind::LessEqual
        | TokenKind::Greater
        | TokenKind::GreaterEqual => true,
        // Operators.
        TokenKind::And
        | TokenKind::Or
        | TokenKind::Xor
        | TokenKind::Xnor
        | TokenKind::Nand
        | TokenKind::Nor
        | TokenKind::Not
        | TokenKind::Abs
        | TokenKind::Mod
        | TokenKind::Rem
        | TokenKind::Sll
        | TokenKind::Srl
        | TokenKind::Sla
        | TokenKind::Sra
        | TokenKind::Rol
        | TokenKind::Ror => true,
        // Other words.
        TokenKind::To
        | TokenKind::Downto
        | TokenKind::Range
        | TokenKind::Others
        | TokenKind::All
        | TokenKind::Open
        | TokenKind::Report
        | TokenKind::Severity
        | TokenKind::Of
        | TokenKind::Is => true,
        _ => false,
    }
}

/// Whether a text goes on with a token of this kind, which is no parenthesis, behind another.
fn may_follow(last: TokenKind, kind: TokenKind) -> bool
    ensures { result ≡ text.may_follow last kind }
{
    if is_operand(kind) {
        let is_unit = last == TokenKind::Integer && kind == TokenKind::Identifier;
        return !ends_operand(last) || is_unit;
    }
    if is_entity_class(kind) {
        return last == TokenKind::Colon;
    }
    is_between(kind)
}

/// The next token of a text behind this one, and how many levels are left behind it, where so many
/// of them are left: nothing where the text doesn't go on with it.
#[tactic(auto, unfolding(crate::specs::reader::Texts::text_token))]
fn text_token(
    parser: &mut Parser<'_>,
    levels: usize,
    room: usize,
    last: TokenKind,
) -> Result<Option<(TokenKind, usize)>, Stop>
    ensures { Reads (λ next. next) (read.text_token levels room last parser.old) result parser.new }
{
    let Some(kind) = parser.peek() else {
        return Ok(None);
    };
    if kind == TokenKind::LeftParen {
        parser.expect(kind)?;
        return Ok(Some((kind, below(room)?)));
    }
    if kind == TokenKind::RightParen && room < levels {
        parser.expect(kind)?;
        return Ok(Some((kind, room + 1)));
    }
    if may_follow(last, kind) {
        parser.expect(kind)?;
        return Ok(Some((kind, room)));
    }
    Ok(None)
}

/// The text that was found, if it may end here.
#[tactic(auto, unfolding(crate::specs::reader::Texts::text_end))]
fn text_end(
    parser: &Parser<'_>,
    levels: usize,
    room: usize,
    last: TokenKind,
    found: Vec<TokenKind>,
) -> Result<Vec<TokenKind>, Stop>
    ensures { Reads text_view (read.text_end levels room last (text_view found) parser.now) result parser.now }
{
    if room == levels && ends_operand(last) {
        Ok(found)
    } else {
        Err(parser.refuse())
    }
}

#[tactic(auto, unfolding(crate::specs::reader::Texts::text_tokens))]
fn text_tokens(parser: &mut Parser<'_>, levels: usize) -> Result<Vec<TokenKind>, Stop>
    ensures { Reads text_view (read.text_tokens levels parser.old) result parser.new }
{
    let mut found = Vec::new(parser.alloc);
    let mut room = levels;
    let mut last = TokenKind::Semicolon;
    for _turn in 0..parser.left() {
        let Some((kind, left)) = text_token(parser, levels, room, last)? else {
            return text_end(parser, levels, room, last, found);
        };
        found.push(kind)?;
        room = left;
        last = kind;
    }
    text_end(parser, levels, room, last, found)
}

/// `word text ;`, of which the kinds of the text's tokens are kept: in the wider language, in which
/// so many levels may be opened.
#[tactic(auto, unfolding(crate::specs::reader::Texts::text_of))]
pub fn text(
    parser: &mut Parser<'_>,
    language: Language,
    levels: usize,
    word: TokenKind,
) -> Result<Vec<TokenKind>, Stop>
    ensures { Reads text_view (read.text_of language levels word parser.old) result parser.new }
{
    wide(parser, language)?;
    parser.expect(word)?;
    let found = text_tokens(parser, levels)?;
    followed(parser, found, TokenKind::Semicolon)
}
