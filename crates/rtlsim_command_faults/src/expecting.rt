//! What was expected at a token of a source that the parser refuses.

ghost use Rattle.std.specs.Prelude.{◌≡◌, IfOk};
ghost use Rattle.vhdl_parser_rules.specs.Expected.{expected_of};
ghost use Rattle.rtlsim_command_faults.specs.Expecting as spec;
ghost use Rattle.vhdl_slips.specs.Words.{with_tokens};
ghost use Rattle.vhdl_lexer.specs.Cut.{AreWithin};

use fault_rules::{Place, Report, Rule, SyntaxRule};
use std::alloc::{AllocError, Global};
use vhdl_expected::expected_at;
use vhdl_lexer::{Language, Token};
use vhdl_parser_rules::Expected;

/// What was expected at the token that a report on a source in a language has refused; nothing of
/// another report.
pub(crate) fn expected_by(
    alloc: Global,
    language: Language,
    source: &[u8],
    tokens: &[Token],
    report: Option<Report>,
) -> Result<Expected, AllocError>
    requires { AreWithin source.now tokens.now }
    ensures { IfOk result (λ found. spec.IsExpectedBy language (with_tokens source.now tokens.now) report
        (expected_of found)) }
{
    match refused_byte(report) {
        Some(at) => expected_at(alloc, language, source, tokens, at),
        None => Ok(Expected::Nothing),
    }
}

fn refused_byte(report: Option<Report>) -> Option<usize>
    ensures { result ≡ spec.refused_byte report }
{
    let report = report?;
    refused_at(report.rule, report.place)
}

/// Where a rule has a token refused.
fn refused_at(rule: Rule, place: Place) -> Option<usize>
    ensures { result ≡ spec.refused_at rule place }
{
    match rule {
        Rule::Syntax(SyntaxRule::Unexpected) => byte_of(place),
        _ => None,
    }
}

fn byte_of(place: Place) -> Option<usize>
    ensures { result ≡ spec.byte_of place }
{
    match place {
        Place::Byte(at) => Some(at),
        _ => None,
    }
}
