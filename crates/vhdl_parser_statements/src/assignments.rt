//! Assignments in processes.

ghost use Rattle.std.specs.Prelude.{◌≡◌};
ghost use Rattle.vhdl_tree.specs.View.{name_view, value_view, option_value_view, branches_view, statement_view};
ghost use Rattle.vhdl_tree.specs.grammar.Sequential as grammar;
ghost use Rattle.vhdl_parser_expressions.specs.reader.Input.{Reads};
ghost use Rattle.vhdl_parser_statements.specs.reader.Sequential as read;
ghost use Rattle.vhdl_parser_statements.specs.reader.Waveforms.{conditional_view};

use crate::waveforms::conditional_waveforms;
use vhdl_lexer::{Language, TokenKind};
use vhdl_parser_expressions::{Parser, Stop, followed};
use vhdl_tree::{Branch, Name, Statement, Value};

/// The sign behind the target of an assignment.
fn assign_kind(is_variable: bool) -> TokenKind
    ensures { result ≡ grammar.assign_kind is_variable }
{
    if is_variable {
        TokenKind::Assign
    } else {
        TokenKind::LessEqual
    }
}

/// `target <= value` (10.5.2), or with `:=` (10.6.2).
fn plainly(is_variable: bool, target: Name, value: Value) -> Statement
    ensures { statement_view result ≡ read.plainly is_variable (name_view target) (value_view value) }
{
    if is_variable {
        Statement::VariableAssignment { target, value }
    } else {
        Statement::SignalAssignment { target, value }
    }
}

/// An assignment by its branches with conditions, and its last value.
fn assigned(
    is_variable: bool,
    target: Name,
    branches: Vec<Branch>,
    otherwise: Option<Value>,
) -> Statement
    ensures { statement_view result
        ≡ read.assignment_of is_variable (name_view target) (branches_view branches) (option_value_view otherwise) }
{
    match (branches.is_empty(), otherwise) {
        (true, Some(value)) => plainly(is_variable, target, value),
        (_, otherwise) => Statement::ConditionalAssignment {
            is_variable,
            target,
            branches,
            otherwise,
        },
    }
}

/// What is assigned: a value, which in the wider language may have conditions (10.5.3, 10.6.3).
fn assigned_waveforms(
    parser: &mut Parser<'_>,
    language: Language,
    levels: usize,
) -> Result<(Vec<Branch>, Option<Value>), Stop>
    ensures { Reads conditional_view (read.assigned_waveforms language levels parser.old) result parser.new }
{
    match language {
        Language::Profile => {
            let value = parser.value(language, levels)?;
            Ok((Vec::new(parser.alloc), Some(value)))
        }
        Language::Wide => conditional_waveforms(parser, language, levels),
    }
}

/// An assignment behind its target.
#[tactic(auto, unfolding(crate::specs::reader::Sequential::assign_behind))]
fn assign_behind(
    parser: &mut Parser<'_>,
    language: Language,
    levels: usize,
    is_variable: bool,
    target: Name,
) -> Result<Statement, Stop>
    ensures { Reads statement_view (read.assign_behind language levels is_variable (name_view target) parser.old)
        result parser.new }
{
    let target = followed(parser, target, assign_kind(is_variable))?;
    let (branches, otherwise) = assigned_waveforms(parser, language, levels)?;
    let found = assigned(is_variable, target, branches, otherwise);
    followed(parser, found, TokenKind::Semicolon)
}

/// An assignment (10.5, 10.6), in which so many levels may be opened.
#[tactic(auto, unfolding(crate::specs::reader::Sequential::assign))]
pub(crate) fn assignment(
    parser: &mut Parser<'_>,
    language: Language,
    levels: usize,
) -> Result<Statement, Stop>
    ensures { Reads statement_view (read.assign language levels parser.old) result parser.new }
{
    let target = parser.name(language, levels)?;
    match parser.peek() {
        Some(TokenKind::LessEqual) => assign_behind(parser, language, levels, false, target),
        Some(TokenKind::Assign) => assign_behind(parser, language, levels, true, target),
        _ => Err(parser.refuse()),
    }
}
