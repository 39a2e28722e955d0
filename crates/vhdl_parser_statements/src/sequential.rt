//! Sequential statements.

ghost use Rattle.std.specs.Prelude.{◌≡◌};
ghost use Rattle.vhdl_lexer.specs.declared.token.TokenKind.TheVariants as k;
ghost use Rattle.vhdl_tree.specs.View.{ident_view, option_ident_view, statement_view, sequential_view, sequentials_view};
ghost use Rattle.vhdl_tree.specs.View.{option_sequentials_view, conditional_view, conditionals_view, alternative_view, alternatives_view};
ghost use Rattle.vhdl_parser_expressions.specs.reader.Input as input;
ghost use Rattle.vhdl_parser_expressions.specs.reader.Input.{Reads};
ghost use Rattle.vhdl_parser_statements.specs.reader.Sequential as read;

use crate::assignments::assignment;
use crate::behind::ended;
use crate::language::is_wide;
use crate::texts::text;
use vhdl_lexer::{Language, TokenKind};
use vhdl_parser_expressions::{Parser, Stop, below, followed};
use vhdl_tree::{Alternative, Conditional, Identifier, Sequential, Statement};

fn begins_statement(language: Language, kind: Option<TokenKind>) -> bool
    ensures { result ≡ read.begins_sequential language kind }
{
    match kind {
        Some(TokenKind::Identifier) => true,
        Some(TokenKind::Null) => true,
        Some(TokenKind::If) => true,
        Some(TokenKind::Case) => true,
        Some(TokenKind::For) => true,
        Some(TokenKind::Assert) | Some(TokenKind::Report) => is_wide(language),
        _ => false,
    }
}

/// `id :`
#[tactic(auto, unfolding(crate::specs::reader::Sequential::label))]
pub fn label(parser: &mut Parser<'_>) -> Result<Identifier, Stop>
    ensures { Reads ident_view (read.label parser.old) result parser.new }
{
    let label = parser.identifier()?;
    followed(parser, label, TokenKind::Colon)
}

/// `id :`, if it comes next.
#[tactic(auto, unfolding(crate::specs::reader::Sequential::optional_label))]
pub fn optional_label(parser: &mut Parser<'_>) -> Result<Option<Identifier>, Stop>
    ensures { Reads option_ident_view (read.optional_label parser.old) result parser.new }
{
    if !parser.sees_both(TokenKind::Identifier, TokenKind::Colon) {
        return Ok(None);
    }
    Ok(Some(label(parser)?))
}

/// `end word [ id ] ;`
#[tactic(auto, unfolding(crate::specs::reader::Sequential::end_of))]
pub fn end_of(parser: &mut Parser<'_>, word: TokenKind) -> Result<Option<Identifier>, Stop>
    ensures { Reads option_ident_view (read.end_of word parser.old) result parser.new }
{
    parser.expect(TokenKind::End)?;
    parser.expect(word)?;
    let label = parser.optional_identifier()?;
    followed(parser, label, TokenKind::Semicolon)
}

#[tactic(auto, unfolding(crate::specs::reader::Sequential::null_statement))]
fn null_statement(parser: &mut Parser<'_>) -> Result<Statement, Stop>
    ensures { Reads statement_view (read.null_statement parser.old) result parser.new }
{
    let at = parser.expect(TokenKind::Null)?;
    parser.expect(TokenKind::Semicolon)?;
    Ok(Statement::Null { at })
}

/// Sequential statements, in which so many levels may be opened.
#[cycle(statement)]
#[tactic(auto, unfolding(crate::specs::reader::Sequential::statements_with), using(crate::proofs::Taken::each_turn))]
pub fn statements(
    parser: &mut Parser<'_>,
    language: Language,
    levels: usize,
) -> Result<Vec<Sequential>, Stop>
    ensures { Reads sequentials_view (read.statements language levels parser.old) result parser.new }
{
    let mut found = Vec::new(parser.alloc);
    for _turn in 0..parser.left() {
        if !begins_statement(language, parser.peek()) {
            return Ok(found);
        }
        found.push(sequential(parser, language, levels)?)?;
    }
    Ok(found)
}

#[cycle(statement)]
#[tactic(auto, unfolding(crate::specs::reader::Sequential::sequential))]
fn sequential(
    parser: &mut Parser<'_>,
    language: Language,
    levels: usize,
) -> Result<Sequential, Stop>
    ensures { Reads sequential_view
        (read.sequential language levels (read.deeper language levels) parser.old) result parser.new }
{
    let label = optional_label(parser)?;
    let statement = statement(parser, language, levels)?;
    Ok(Sequential { label, statement })
}

#[cycle(statement)]
#[tactic(auto, unfolding(crate::specs::reader::Sequential::statement_of))]
fn statement(parser: &mut Parser<'_>, language: Language, levels: usize) -> Result<Statement, Stop>
    ensures { Reads statement_view
        (read.statement_of language levels (read.deeper language levels) parser.old) result parser.new }
{
    match parser.peek() {
        Some(TokenKind::Identifier) => assignment(parser, language, levels),
        Some(TokenKind::Null) => null_statement(parser),
        Some(TokenKind::If) => if_statement(parser, language, levels),
        Some(TokenKind::Case) => case_statement(parser, language, levels),
        Some(TokenKind::For) => for_statement(parser, language, levels),
        Some(TokenKind::Assert) => Ok(Statement::Assert(text(
            parser,
            language,
            levels,
            TokenKind::Assert,
        )?)),
        Some(TokenKind::Report) => Ok(Statement::Report(text(
            parser,
            language,
            levels,
            TokenKind::Report,
        )?)),
        _ => Err(parser.refuse()),
    }
}

#[cycle(statement)]
#[tactic(auto, unfolding(crate::specs::reader::Sequential::if_statement))]
fn if_statement(
    parser: &mut Parser<'_>,
    language: Language,
    levels: usize,
) -> Result<Statement, Stop>
    ensures { Reads statement_view
        (read.if_statement language levels (read.deeper language levels) parser.old) result parser.new }
{
    let at = parser.expect(TokenKind::If)?;
    let inner = below(levels)?;
    if_rest(parser, language, inner, at)
}

#[cycle(statement)]
#[tactic(auto, unfolding(crate::specs::reader::Sequential::if_rest))]
fn if_rest(
    parser: &mut Parser<'_>,
    language: Language,
    levels: usize,
    at: usize,
) -> Result<Statement, Stop>
    ensures { Reads statement_view
        (read.if_rest language levels (read.statements language levels) at parser.old) result parser.new }
{
    let branches = branches(parser, language, levels)?;
    let otherwise = otherwise(parser, language, levels)?;
    let ((branches, otherwise), end_label) = ended(parser, (branches, otherwise), TokenKind::If)?;
    Ok(Statement::conditional(at, branches, otherwise, end_label))
}

/// As `separated`, which a cycle of calls can't pass itself to.
#[cycle(statement)]
#[tactic(auto, unfolding(vhdl_parser_expressions::specs::reader::Input::separated), using(crate::proofs::Taken::each_turn))]
fn branches(
    parser: &mut Parser<'_>,
    language: Language,
    levels: usize,
) -> Result<Vec<Conditional>, Stop>
    ensures { Reads conditionals_view
        (read.branches language levels (read.statements language levels) parser.old) result parser.new }
{
    let mut found = Vec::new(parser.alloc);
    found.push(condition(parser, language, levels)?)?;
    for _turn in 0..parser.left() {
        if !parser.sees(TokenKind::Elsif) {
            return Ok(found);
        }
        parser.expect(TokenKind::Elsif)?;
        found.push(condition(parser, language, levels)?)?;
    }
    Ok(found)
}

#[cycle(statement)]
#[tactic(auto, unfolding(crate::specs::reader::Sequential::condition))]
fn condition(
    parser: &mut Parser<'_>,
    language: Language,
    levels: usize,
) -> Result<Conditional, Stop>
    ensures { Reads conditional_view
        (read.condition language levels (read.statements language levels) parser.old) result parser.new }
{
    let condition = parser.expr(language, levels)?;
    let condition = followed(parser, condition, TokenKind::Then)?;
    let statements = statements(parser, language, levels)?;
    Ok(Conditional::new(condition, statements))
}

#[cycle(statement)]
#[tactic(auto, unfolding(vhdl_parser_expressions::specs::reader::Input::optional, crate::specs::reader::Sequential::else_part))]
fn otherwise(
    parser: &mut Parser<'_>,
    language: Language,
    levels: usize,
) -> Result<Option<Vec<Sequential>>, Stop>
    ensures { Reads option_sequentials_view
        (input.optional (input.is_kind k.Else) (read.else_part language levels (read.statements language levels))
        parser.old) result parser.new }
{
    if !parser.sees(TokenKind::Else) {
        return Ok(None);
    }
    parser.expect(TokenKind::Else)?;
    Ok(Some(statements(parser, language, levels)?))
}

#[cycle(statement)]
#[tactic(auto, unfolding(crate::specs::reader::Sequential::case_statement))]
fn case_statement(
    parser: &mut Parser<'_>,
    language: Language,
    levels: usize,
) -> Result<Statement, Stop>
    ensures { Reads statement_view
        (read.case_statement language levels (read.deeper language levels) parser.old) result parser.new }
{
    let at = parser.expect(TokenKind::Case)?;
    let inner = below(levels)?;
    case_rest(parser, language, inner, at)
}

#[cycle(statement)]
#[tactic(auto, unfolding(crate::specs::reader::Sequential::case_rest))]
fn case_rest(
    parser: &mut Parser<'_>,
    language: Language,
    levels: usize,
    at: usize,
) -> Result<Statement, Stop>
    ensures { Reads statement_view
        (read.case_rest language levels (read.statements language levels) at parser.old) result parser.new }
{
    let selector = parser.expr(language, levels)?;
    let selector = followed(parser, selector, TokenKind::Is)?;
    let selector = followed(parser, selector, TokenKind::When)?;
    let all = alternatives(parser, language, levels)?;
    let ((selector, all), end_label) = ended(parser, (selector, all), TokenKind::Case)?;
    Ok(Statement::selection(at, selector, all, end_label))
}

/// As `separated`, which a cycle of calls can't pass itself to.
#[cycle(statement)]
#[tactic(auto, unfolding(vhdl_parser_expressions::specs::reader::Input::separated), using(crate::proofs::Taken::each_turn))]
fn alternatives(
    parser: &mut Parser<'_>,
    language: Language,
    levels: usize,
) -> Result<Vec<Alternative>, Stop>
    ensures { Reads alternatives_view
        (read.alternatives language levels (read.statements language levels) parser.old) result parser.new }
{
    let mut found = Vec::new(parser.alloc);
    found.push(alternative(parser, language, levels)?)?;
    for _turn in 0..parser.left() {
        if !parser.sees(TokenKind::When) {
            return Ok(found);
        }
        parser.expect(TokenKind::When)?;
        found.push(alternative(parser, language, levels)?)?;
    }
    Ok(found)
}

#[cycle(statement)]
#[tactic(auto, unfolding(crate::specs::reader::Sequential::alternative_part))]
fn alternative(
    parser: &mut Parser<'_>,
    language: Language,
    levels: usize,
) -> Result<Alternative, Stop>
    ensures { Reads alternative_view
        (read.alternative_part language levels (read.statements language levels) parser.old) result
        parser.new }
{
    let choices = parser.choices(language, levels)?;
    let choices = followed(parser, choices, TokenKind::Arrow)?;
    let statements = statements(parser, language, levels)?;
    Ok(Alternative::new(choices, statements))
}

#[cycle(statement)]
#[tactic(auto, unfolding(crate::specs::reader::Sequential::for_statement))]
fn for_statement(
    parser: &mut Parser<'_>,
    language: Language,
    levels: usize,
) -> Result<Statement, Stop>
    ensures { Reads statement_view
        (read.for_statement language levels (read.deeper language levels) parser.old) result parser.new }
{
    let at = parser.expect(TokenKind::For)?;
    let inner = below(levels)?;
    for_rest(parser, language, inner, at)
}

#[cycle(statement)]
#[tactic(auto, unfolding(crate::specs::reader::Sequential::for_rest))]
fn for_rest(
    parser: &mut Parser<'_>,
    language: Language,
    levels: usize,
    at: usize,
) -> Result<Statement, Stop>
    ensures { Reads statement_view
        (read.for_rest language levels (read.statements language levels) at parser.old) result parser.new }
{
    let parameter = parser.identifier()?;
    let parameter = followed(parser, parameter, TokenKind::In)?;
    let range = parser.discrete_range(language, levels)?;
    let head = followed(parser, (parameter, range), TokenKind::Loop)?;
    let statements = statements(parser, language, levels)?;
    let ((head, statements), end_label) = ended(parser, (head, statements), TokenKind::Loop)?;
    let (parameter, range) = head;
    Ok(Statement::repetition(at, parameter, range, statements, end_label))
}
