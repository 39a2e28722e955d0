//! The faults of grammar of a source behind its first.

ghost use Rattle.std.specs.Prelude.{is_ok, map};
ghost use Rattle.rtlsim_refusals.specs.Explained.{told_view};
ghost use Rattle.rtlsim_command_faults.specs.Grammar as spec;
ghost use Rattle.rtlsim_command_faults.specs.Next.{Adds};
ghost use Rattle.vhdl_source_files.specs.Files.{file_view};
ghost use Rattle.vhdl_lexer.specs.Cut.{AreWithin};
ghost use Rattle.vhdl_front_rules.specs.Asking.{asked_view};
ghost use Rattle.vhdl_parser_further.specs.Left.{left};
ghost use Rattle.vhdl_parser_further.specs.Refusals.{Finds};

use crate::expecting::expected_by;
use crate::reports::syntax_report;
use crate::search::{End, MOST_TOLD, is_none, push_report};
use rtlsim_refusals::{Lexed, Told};
use std::alloc::{AllocError, Global};
use vhdl_front_rules::Asked;
use vhdl_lexer::{Token, lex};
use vhdl_parser_further::{Next, next_fault};
use vhdl_parser_rules::SyntaxFault;
use vhdl_source_files::SourceFile;

/// Finds the faults of grammar of a source behind its first, which is told at this byte, and
/// appends what is told of them.
pub(crate) fn find_grammar<'f>(
    alloc: Global,
    files: &[SourceFile<'f>],
    asked: Asked<'_>,
    first: Option<usize>,
    told: &mut Vec<Told<'f>>,
) -> End
    ensures { Adds (spec.GrammarBehind (map file_view files.now) (asked_view asked.entry) first)
        (map told_view told.old.items) (map told_view told.new.items) result }
{
    let Some(at) = first else {
        return End::Whole;
    };
    let Ok(tokens) = lex(alloc, asked.source) else {
        return End::NoMemory;
    };
    find_from(alloc, files, asked, tokens, at, MOST_TOLD - 1, told)
}

/// Finds the faults behind one of these tokens that is told at this byte, so many of them at most.
fn find_from<'f>(
    alloc: Global,
    files: &[SourceFile<'f>],
    asked: Asked<'_>,
    tokens: Vec<Token>,
    at: usize,
    more: u32,
    told: &mut Vec<Told<'f>>,
) -> End
    requires { AreWithin asked.source.now tokens.items }
    ensures { Adds (spec.GrammarFrom (map file_view files.now) (asked_view asked.entry) more tokens.items at)
        (map told_view told.old.items) (map told_view told.new.items) result }
{
    match next_behind(alloc, asked, tokens, at) {
        Next::Found { left, fault, at } => {
            if is_none(more) {
                return End::More;
            }
            match push_grammar(alloc, files, asked, &left, fault, told) {
                Ok(()) => find_from(alloc, files, asked, left, at, more - 1, told),
                Err(_refused) => End::NoMemory,
            }
        }
        Next::Nothing => End::Whole,
        Next::NoMemory => End::NoMemory,
    }
}

/// Appends what is told of a fault of grammar of these tokens.
fn push_grammar<'f>(
    alloc: Global,
    files: &[SourceFile<'f>],
    asked: Asked<'_>,
    tokens: &[Token],
    fault: SyntaxFault,
    told: &mut Vec<Told<'f>>,
) -> Result<(), AllocError>
    requires { AreWithin asked.source.now tokens.now }
    ensures { spec.Appends (map file_view files.now) (asked_view asked.entry) tokens.now fault (is_ok result)
        (map told_view told.old.items) (map told_view told.new.items) }
{
    let report = syntax_report(fault);
    let expected = expected_by(alloc, asked.language, asked.source, tokens, report)?;
    let lexed = Lexed {
        text: asked.source,
        tokens,
    };
    push_report(alloc, asked.language, files, lexed, expected, report, told)
}

/// The next fault behind one of these tokens, which are let go.
fn next_behind(alloc: Global, asked: Asked<'_>, tokens: Vec<Token>, at: usize) -> Next
    requires { AreWithin asked.source.now tokens.items }
    ensures { Finds asked.entry.language asked.entry.source.now (left tokens.items at) at result }
{
    next_fault(alloc, asked.language, asked.source, &tokens, at)
}
