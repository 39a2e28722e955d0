//! Concurrent statements.

ghost use Rattle.std.specs.Prelude.{◌≡◌};
ghost use Rattle.vhdl_tree.specs.View.{ident_view, option_ident_view, scheme_view, assignment_view, concurrent_view, concurrents_view};
ghost use Rattle.vhdl_parser.specs.reader.Concurrent as read;
ghost use Rattle.vhdl_parser.specs.reader.Concurrent.{generate_body_view};
ghost use Rattle.vhdl_parser_expressions.specs.reader.Input.{Reads};

use crate::instances::instance;
use vhdl_lexer::{Language, TokenKind};
use vhdl_parser_expressions::{Parser, Stop, below, followed};
use vhdl_parser_statements::{
    conditional_waveforms, ended, is_wide, optional_label, process, selected_assignment, text,
};
use vhdl_tree::{Assertion, Assignment, Concurrent, Identifier, Scheme};

fn begins_concurrent(language: Language, kind: Option<TokenKind>) -> bool
    ensures { result ≡ read.begins_concurrent language kind }
{
    match kind {
        Some(TokenKind::Identifier) => true,
        Some(TokenKind::With) => true,
        Some(TokenKind::Process) => true,
        Some(TokenKind::Assert) => is_wide(language),
        _ => false,
    }
}

#[tactic(auto, unfolding(crate::specs::reader::Concurrent::assign))]
fn assignment(
    parser: &mut Parser<'_>,
    language: Language,
    levels: usize,
    label: Option<Identifier>,
) -> Result<Assignment, Stop>
    ensures { Reads assignment_view
        (read.assign language levels (option_ident_view label) parser.old) result parser.new }
{
    let target = parser.name(language, levels)?;
    let front = followed(parser, (label, target), TokenKind::LessEqual)?;
    let (branches, otherwise) = conditional_waveforms(parser, language, levels)?;
    let (label, target) = front;
    let found = Assignment {
        label,
        target,
        branches,
        otherwise,
    };
    followed(parser, found, TokenKind::Semicolon)
}

fn selected(
    parser: &mut Parser<'_>,
    language: Language,
    levels: usize,
    label: Option<Identifier>,
) -> Result<Concurrent, Stop>
    ensures { Reads concurrent_view
        (read.select_with language levels (option_ident_view label) parser.old) result parser.new }
{
    let assignment = selected_assignment(parser, language, levels)?;
    Ok(Concurrent::Selected { label, assignment })
}

#[tactic(auto, unfolding(crate::specs::reader::Concurrent::assert))]
fn assertion(
    parser: &mut Parser<'_>,
    language: Language,
    levels: usize,
    label: Option<Identifier>,
) -> Result<Concurrent, Stop>
    ensures { Reads concurrent_view (read.assert_with language levels (option_ident_view label) parser.old) result
        parser.new }
{
    let text = text(parser, language, levels, TokenKind::Assert)?;
    Ok(Concurrent::Assert(Assertion { label, text }))
}

fn process_statement(
    parser: &mut Parser<'_>,
    language: Language,
    levels: usize,
    label: Option<Identifier>,
) -> Result<Concurrent, Stop>
    ensures { Reads concurrent_view (read.process_with language levels (option_ident_view label) parser.old) result
        parser.new }
{
    let process = process(parser, language, levels)?;
    Ok(Concurrent::Process { label, process })
}

fn instance_statement(
    parser: &mut Parser<'_>,
    language: Language,
    levels: usize,
    label: Identifier,
) -> Result<Concurrent, Stop>
    ensures { Reads concurrent_view
        (read.instance_with language levels (ident_view label) parser.old) result parser.new }
{
    let instance = instance(parser, language, levels)?;
    Ok(Concurrent::Instance { label, instance })
}

/// Whether a component's name comes next, and no target.
fn sees_component(parser: &Parser<'_>) -> bool
    ensures { result ≡ read.sees_component parser.now }
{
    parser.sees_both(TokenKind::Identifier, TokenKind::Generic)
        || parser.sees_both(TokenKind::Identifier, TokenKind::Port)
        || parser.sees_both(TokenKind::Identifier, TokenKind::Semicolon)
}

#[tactic(auto, unfolding(crate::specs::reader::Concurrent::named_with))]
fn instance_or_assignment(
    parser: &mut Parser<'_>,
    language: Language,
    levels: usize,
    label: Identifier,
) -> Result<Concurrent, Stop>
    ensures { Reads concurrent_view (read.named_with language levels (ident_view label) parser.old) result parser.new }
{
    if sees_component(parser) {
        instance_statement(parser, language, levels, label)
    } else {
        Ok(Concurrent::Assignment(assignment(parser, language, levels, Some(label))?))
    }
}

#[tactic(auto, unfolding(crate::specs::reader::Concurrent::unlabelled))]
fn unlabelled(
    parser: &mut Parser<'_>,
    language: Language,
    levels: usize,
) -> Result<Concurrent, Stop>
    ensures { Reads concurrent_view (read.unlabelled language levels parser.old) result parser.new }
{
    match parser.peek() {
        Some(TokenKind::With) => selected(parser, language, levels, None),
        Some(TokenKind::Process) => process_statement(parser, language, levels, None),
        Some(TokenKind::Identifier) => Ok(Concurrent::Assignment(assignment(
            parser, language, levels, None,
        )?)),
        Some(TokenKind::Assert) => assertion(parser, language, levels, None),
        _ => Err(parser.refuse()),
    }
}

/// Concurrent statements of this language, in which so many levels may be opened.
#[cycle(concurrent)]
#[tactic(auto, unfolding(crate::specs::reader::Concurrent::concurrents_with), using(vhdl_parser_statements::proofs::Taken::each_turn))]
pub fn concurrents(
    parser: &mut Parser<'_>,
    language: Language,
    levels: usize,
) -> Result<Vec<Concurrent>, Stop>
    ensures { Reads concurrents_view (read.concurrents language levels parser.old) result parser.new }
{
    let mut found = Vec::new(parser.alloc);
    for _turn in 0..parser.left() {
        if !begins_concurrent(language, parser.peek()) {
            return Ok(found);
        }
        found.push(concurrent(parser, language, levels)?)?;
    }
    Ok(found)
}

#[cycle(concurrent)]
#[tactic(auto, unfolding(crate::specs::reader::Concurrent::concurrent))]
fn concurrent(
    parser: &mut Parser<'_>,
    language: Language,
    levels: usize,
) -> Result<Concurrent, Stop>
    ensures { Reads concurrent_view
        (read.concurrent language levels (read.deeper_concurrents language levels) parser.old) result parser.new }
{
    match optional_label(parser)? {
        None => unlabelled(parser, language, levels),
        Some(label) => labelled(parser, language, levels, label),
    }
}

#[cycle(concurrent)]
#[tactic(auto, unfolding(crate::specs::reader::Concurrent::labelled))]
fn labelled(
    parser: &mut Parser<'_>,
    language: Language,
    levels: usize,
    label: Identifier,
) -> Result<Concurrent, Stop>
    ensures { Reads concurrent_view
        (read.labelled language levels (read.deeper_concurrents language levels) (ident_view label) parser.old) result
        parser.new }
{
    match parser.peek() {
        Some(TokenKind::With) => selected(parser, language, levels, Some(label)),
        Some(TokenKind::Process) => process_statement(parser, language, levels, Some(label)),
        Some(TokenKind::Entity) | Some(TokenKind::Component) => instance_statement(
            parser, language, levels, label,
        ),
        Some(TokenKind::For) => for_generate(parser, language, levels, label),
        Some(TokenKind::If) => if_generate(parser, language, levels, label),
        Some(TokenKind::Identifier) => instance_or_assignment(parser, language, levels, label),
        Some(TokenKind::Assert) => assertion(parser, language, levels, Some(label)),
        _ => Err(parser.refuse()),
    }
}

#[tactic(auto, unfolding(crate::specs::reader::Concurrent::for_scheme))]
fn for_scheme(parser: &mut Parser<'_>, language: Language, levels: usize) -> Result<Scheme, Stop>
    ensures { Reads scheme_view (read.for_scheme language levels parser.old) result parser.new }
{
    let parameter = parser.identifier()?;
    let parameter = followed(parser, parameter, TokenKind::In)?;
    let range = parser.discrete_range(language, levels)?;
    Ok(Scheme::For { parameter, range })
}

#[cycle(concurrent)]
#[tactic(auto, unfolding(crate::specs::reader::Concurrent::for_generate))]
fn for_generate(
    parser: &mut Parser<'_>,
    language: Language,
    levels: usize,
    label: Identifier,
) -> Result<Concurrent, Stop>
    ensures { Reads concurrent_view
        (read.for_generate language levels (read.deeper_concurrents language levels) (ident_view label) parser.old)
        result parser.new }
{
    let at = parser.expect(TokenKind::For)?;
    let inner = below(levels)?;
    let scheme = for_scheme(parser, language, inner)?;
    generated(parser, language, inner, label, at, scheme)
}

#[cycle(concurrent)]
#[tactic(auto, unfolding(crate::specs::reader::Concurrent::if_generate))]
fn if_generate(
    parser: &mut Parser<'_>,
    language: Language,
    levels: usize,
    label: Identifier,
) -> Result<Concurrent, Stop>
    ensures { Reads concurrent_view
        (read.if_generate language levels (read.deeper_concurrents language levels) (ident_view label) parser.old)
        result parser.new }
{
    let at = parser.expect(TokenKind::If)?;
    let inner = below(levels)?;
    let condition = parser.expr(language, inner)?;
    generated(parser, language, inner, label, at, Scheme::If { condition })
}

/// A generate statement by what stands before its statements, which may open so many levels.
#[cycle(concurrent)]
#[tactic(auto, unfolding(crate::specs::reader::Concurrent::generate_rest))]
fn generated(
    parser: &mut Parser<'_>,
    language: Language,
    levels: usize,
    label: Identifier,
    at: usize,
    scheme: Scheme,
) -> Result<Concurrent, Stop>
    ensures { Reads concurrent_view
        (read.generate_rest (read.concurrents language levels) (ident_view label) at (scheme_view scheme) parser.old)
        result parser.new }
{
    let (begin_word, statements, end_label) = generate_body(parser, language, levels)?;
    Ok(Concurrent::generated(label, at, scheme, begin_word, statements, end_label))
}

/// Whether `begin` stands there, the statements behind it, and the label at the end.
#[cycle(concurrent)]
#[tactic(auto, unfolding(crate::specs::reader::Concurrent::generate_body))]
fn generate_body(
    parser: &mut Parser<'_>,
    language: Language,
    levels: usize,
) -> Result<(bool, Vec<Concurrent>, Option<Identifier>), Stop>
    ensures { Reads generate_body_view (read.generate_body (read.concurrents language levels) parser.old) result
        parser.new }
{
    parser.expect(TokenKind::Generate)?;
    let begin_word = parser.eat(TokenKind::Begin)?;
    let statements = concurrents(parser, language, levels)?;
    let (statements, end_label) = ended(parser, statements, TokenKind::Generate)?;
    Ok((begin_word, statements, end_label))
}
