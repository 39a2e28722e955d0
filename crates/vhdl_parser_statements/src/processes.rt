//! Processes.

ghost use Rattle.std.specs.Prelude.{◌≡◌};
ghost use Rattle.vhdl_tree.specs.View.{names_view, sensitivity_view, variables_view, process_declaration_view, process_declarations_view, wait_view, option_wait_view, process_view};
ghost use Rattle.vhdl_parser_expressions.specs.reader.Input.{Reads};
ghost use Rattle.vhdl_parser_statements.specs.reader.Process as read;
ghost use Rattle.vhdl_parser_statements.specs.reader.Process.{body_view};

use crate::behind::ended;
use crate::language::{is_wide, wide};
use crate::objects::{constants, object_declaration};
use crate::sequential::statements;
use crate::types::{enumeration, subtype_declaration};
use vhdl_lexer::{Language, TokenKind};
use vhdl_parser_expressions::{Parser, Stop, below, followed, many, optional, separated};
use vhdl_tree::{
    Identifier, Name, Process, ProcessDeclaration, Sensitivity, Sequential, Variables, Wait,
};

fn names(parser: &mut Parser<'_>, language: Language, levels: usize) -> Result<Vec<Name>, Stop>
    ensures { Reads names_view (read.names language levels parser.old) result parser.new }
{
    separated(
        parser,
        TokenKind::Comma,
        |parser| parser.name(language, levels),
    )
}

#[tactic(auto, unfolding(crate::specs::reader::Process::sensitivity_list))]
fn sensitivity_list(
    parser: &mut Parser<'_>,
    language: Language,
    levels: usize,
) -> Result<Sensitivity, Stop>
    ensures { Reads sensitivity_view (read.sensitivity_list language levels parser.old) result parser.new }
{
    if parser.sees(TokenKind::All) {
        parser.expect(TokenKind::All)?;
        Ok(Sensitivity::All)
    } else {
        Ok(Sensitivity::Names(names(parser, language, levels)?))
    }
}

#[tactic(auto, unfolding(crate::specs::reader::Process::sensitivity))]
fn sensitivity(
    parser: &mut Parser<'_>,
    language: Language,
    levels: usize,
) -> Result<Sensitivity, Stop>
    ensures { Reads sensitivity_view (read.sensitivity language levels parser.old) result parser.new }
{
    parser.expect(TokenKind::LeftParen)?;
    let inner = below(levels)?;
    let found = sensitivity_list(parser, language, inner)?;
    followed(parser, found, TokenKind::RightParen)
}

#[tactic(auto, unfolding(crate::specs::reader::Process::optional_sensitivity))]
fn optional_sensitivity(
    parser: &mut Parser<'_>,
    language: Language,
    levels: usize,
) -> Result<Sensitivity, Stop>
    ensures { Reads sensitivity_view (read.optional_sensitivity language levels parser.old) result parser.new }
{
    if parser.sees(TokenKind::LeftParen) {
        sensitivity(parser, language, levels)
    } else {
        Ok(Sensitivity::Absent)
    }
}

#[tactic(auto, unfolding(crate::specs::reader::Process::variables_of))]
fn variables(parser: &mut Parser<'_>, language: Language, levels: usize) -> Result<Variables, Stop>
    ensures { Reads variables_view (read.variables_of language levels parser.old) result parser.new }
{
    let (names, subtype, default) = object_declaration(
        parser,
        language,
        levels,
        TokenKind::Variable,
    )?;
    Ok(Variables {
        names,
        subtype,
        default,
    })
}

fn begins_declaration(language: Language, kind: Option<TokenKind>) -> bool
    ensures { result ≡ read.begins_process_declaration language kind }
{
    match kind {
        Some(TokenKind::Variable) => true,
        Some(TokenKind::Constant) | Some(TokenKind::Type) | Some(TokenKind::Subtype) => {
            is_wide(language)
        }
        _ => false,
    }
}

/// A declaration of a process, which in the narrower language is one of variables.
#[tactic(auto, unfolding(crate::specs::reader::Process::process_declaration))]
fn declaration(
    parser: &mut Parser<'_>,
    language: Language,
    levels: usize,
) -> Result<ProcessDeclaration, Stop>
    ensures { Reads process_declaration_view (read.process_declaration language levels parser.old) result parser.new }
{
    match parser.peek() {
        Some(TokenKind::Variable) => Ok(ProcessDeclaration::Variables(variables(
            parser, language, levels,
        )?)),
        Some(TokenKind::Constant) => {
            wide(parser, language)?;
            Ok(ProcessDeclaration::Constants(constants(parser, language, levels)?))
        }
        Some(TokenKind::Type) => {
            wide(parser, language)?;
            Ok(ProcessDeclaration::Enumeration(enumeration(parser, levels)?))
        }
        Some(TokenKind::Subtype) => Ok(ProcessDeclaration::Subtype(subtype_declaration(
            parser, language, levels,
        )?)),
        _ => Err(parser.refuse()),
    }
}

fn declarations(
    parser: &mut Parser<'_>,
    language: Language,
    levels: usize,
) -> Result<Vec<ProcessDeclaration>, Stop>
    ensures { Reads process_declarations_view (read.process_declarations language levels parser.old) result parser.new }
{
    let found = Vec::new(parser.alloc);
    many(
        parser,
        |parser| begins_declaration(language, parser.peek()),
        |parser| declaration(parser, language, levels),
        found,
    )
}

#[tactic(auto, unfolding(crate::specs::reader::Process::wait_until))]
fn wait_until(parser: &mut Parser<'_>, levels: usize) -> Result<Wait, Stop>
    ensures { Reads wait_view (read.wait_until levels parser.old) result parser.new }
{
    let at = parser.expect(TokenKind::Wait)?;
    parser.expect(TokenKind::Until)?;
    let condition = parser.expr(Language::Wide, levels)?;
    let condition = followed(parser, condition, TokenKind::Semicolon)?;
    Ok(Wait { at, condition })
}

/// What a process waits for first, if it does, where the wider language is read.
#[tactic(auto, unfolding(vhdl_parser_expressions::specs::reader::Input::optional))]
fn optional_wait(
    parser: &mut Parser<'_>,
    language: Language,
    levels: usize,
) -> Result<Option<Wait>, Stop>
    ensures { Reads option_wait_view (read.optional_wait language levels parser.old) result parser.new }
{
    match language {
        Language::Profile => Ok(None),
        Language::Wide => optional!(parser, TokenKind::Wait, wait_until(parser, levels)?),
    }
}

/// What a process waits for, its statements, and the label at its end.
#[tactic(auto, unfolding(crate::specs::reader::Process::body))]
fn body(
    parser: &mut Parser<'_>,
    language: Language,
    levels: usize,
) -> Result<(Option<Wait>, Vec<Sequential>, Option<Identifier>), Stop>
    ensures { Reads body_view (read.body language levels parser.old) result parser.new }
{
    parser.expect(TokenKind::Begin)?;
    let wait = optional_wait(parser, language, levels)?;
    let statements = statements(parser, language, levels)?;
    let ((wait, statements), end_label) = ended(parser, (wait, statements), TokenKind::Process)?;
    Ok((wait, statements, end_label))
}

/// A process of this language behind its label, in which so many levels may be opened.
#[tactic(auto, unfolding(crate::specs::reader::Process::process))]
pub fn process(parser: &mut Parser<'_>, language: Language, levels: usize) -> Result<Process, Stop>
    ensures { Reads process_view (read.process language levels parser.old) result parser.new }
{
    let at = parser.expect(TokenKind::Process)?;
    let sensitivity = optional_sensitivity(parser, language, levels)?;
    let is_word = parser.eat(TokenKind::Is)?;
    let declarations = declarations(parser, language, levels)?;
    let (wait, statements, end_label) = body(parser, language, levels)?;
    Ok(Process {
        at,
        sensitivity,
        is_word,
        declarations,
        wait,
        statements,
        end_label,
    })
}
