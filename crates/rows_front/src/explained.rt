//! Explanations of sources that are refused.

ghost use Rattle.vhdl_lexer.specs.Cut.{AreWithin};

use crate::problems::rule_of;
use crate::source::{push_written, source_of};
use fault_rules::{Place, Report, Rule, Subject};
use rows_calls::Text;
use rtlsim_refusals::{Lexed, explain_refusal, push_paragraph, told_source};
use std::alloc::Global;
use vhdl_expected::expected_at;
use vhdl_lexer::{Language, LexFault, Token, lex};
use vhdl_parser::parse;
use vhdl_parser_rules::{Expected, SyntaxFault};
use vhdl_source_files::SourceFile;

/// Adds the explanation of why the lexer or the parser refuses a source, with `\n` and `\t` for
/// ends of lines and tabs.
pub fn push_explanation(found: &mut Text, alloc: Global, written: &str) {
    let source = source_of(alloc, written);
    found.heed(&source);
    let bytes = source.as_bytes();
    match lex(alloc, bytes) {
        Ok(tokens) => push_parsed(found, alloc, bytes, &tokens),
        Err(fault) => push_lexed(found, alloc, bytes, fault),
    }
}

/// Adds the explanation of a fault of the lexer.
fn push_lexed(found: &mut Text, alloc: Global, source: &[u8], fault: LexFault) {
    let mut out = Text::new(alloc);
    if let Some(rule) = rule_of("lex", fault.number()) {
        let report = report_of(rule, fault.byte().unwrap_or(0), Subject::Word);
        explain_refusal(&file_of(source), report, &mut out);
    }
    push_written(found, &out);
}

/// Adds the explanation of a fault of the parser, if there is one.
fn push_parsed(found: &mut Text, alloc: Global, source: &[u8], tokens: &[Token])
    requires within { AreWithin source.now tokens.now }
{
    match parse(alloc, source, tokens) {
        Ok(_) => found.push("read"),
        Err(fault) => push_refused(found, alloc, source, tokens, fault),
    }
}

/// Adds the explanation of a fault of the parser.
fn push_refused(
    found: &mut Text,
    alloc: Global,
    source: &[u8],
    tokens: &[Token],
    fault: SyntaxFault,
)
    requires within { AreWithin source.now tokens.now }
{
    let mut out = Text::new(alloc);
    let at = fault.byte().unwrap_or(0);
    let expected = match fault {
        SyntaxFault::Unexpected { at } => expected_at(alloc, Language::Profile, source, tokens, at),
        _ => Ok(Expected::Nothing),
    };
    if let Some(rule) = rule_of("syntax", fault.number()) {
        let report = report_of(rule, at, Subject::Word);
        let expected = expected.unwrap_or(Expected::Nothing);
        explain_at(alloc, source, tokens, expected, report, &mut out);
    }
    push_written(found, &out);
}

/// Explains a report on a source with these tokens, as the file `d.vhd`, unless memory is refused.
pub fn explain_at(
    alloc: Global,
    source: &[u8],
    tokens: &[Token],
    expected: Expected,
    report: Report,
    out: &mut Text,
) {
    let lexed = Lexed {
        text: source,
        tokens,
    };
    let files = file_of(source);
    let told = told_source(alloc, Language::Profile, &files, lexed, expected, report);
    if let Ok(Some(told)) = told {
        push_paragraph(&told, out);
    }
}

/// A source as the file `d.vhd`.
fn file_of(source: &[u8]) -> [SourceFile<'_>; 1] {
    [SourceFile {
        name: b"d.vhd",
        text: source,
    }]
}

/// A report on a rule at a byte.
pub fn report_of(rule: Rule, at: usize, subject: Subject) -> Report {
    Report {
        rule,
        place: Place::Byte(at),
        subject,
    }
}
