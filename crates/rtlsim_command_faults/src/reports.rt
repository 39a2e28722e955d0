//! What faults report.

ghost use Rattle.std.specs.Prelude.{◌≡◌, Some};
ghost use Rattle.rtlsim_command_faults.specs.Reports as spec;

use fault_rules::{LexRule, Place, Report, Rule, RunRule, StimRule, Subject, SyntaxRule};
use rtl_expect::ExpectFault;
use rtl_stim::StimFault;
use vhdl_expand_rules::{ElabFault, ElabProblem};
use vhdl_lexer::LexFault;
use vhdl_names_rules::NameFault;
use vhdl_parser_rules::SyntaxFault;

/// A report of the word at a byte.
fn of_word(rule: Rule, at: usize) -> Option<Report>
    ensures { result ≡ Some (spec.at_byte rule at Subject.Word) }
{
    Some(Report {
        rule,
        place: Place::Byte(at),
        subject: Subject::Word,
    })
}

/// What a lexer's fault reports.
pub(crate) fn lex_report(fault: LexFault) -> Option<Report>
    ensures { result ≡ spec.lex_report fault }
{
    match fault {
        LexFault::BadByte { at } => of_word(Rule::Lex(LexRule::BadByte), at),
        LexFault::OpenComment { at } => of_word(Rule::Lex(LexRule::OpenComment), at),
        LexFault::OpenString { at } => of_word(Rule::Lex(LexRule::OpenString), at),
        LexFault::BadIdentifier { at } => of_word(Rule::Lex(LexRule::BadIdentifier), at),
        LexFault::BadNumber { at } => of_word(Rule::Lex(LexRule::BadNumber), at),
        LexFault::TooLong { at } => of_word(Rule::Lex(LexRule::TooLong), at),
        LexFault::NoMemory => None,
    }
}

/// What a parser's fault reports.
pub(crate) fn syntax_report(fault: SyntaxFault) -> Option<Report>
    ensures { result ≡ spec.syntax_report fault }
{
    match fault {
        SyntaxFault::Unexpected { at } => of_word(Rule::Syntax(SyntaxRule::Unexpected), at),
        SyntaxFault::EndOfFile { at } => of_word(Rule::Syntax(SyntaxRule::EndOfFile), at),
        SyntaxFault::TooDeep { at } => of_word(Rule::Syntax(SyntaxRule::TooDeep), at),
        SyntaxFault::NoMemory => None,
    }
}

/// What a fault of names and types reports.
pub(crate) fn name_report(fault: NameFault) -> Option<Report>
    ensures { result ≡ spec.name_report fault }
{
    match fault {
        NameFault::At { problem, at } => of_word(Rule::Name(problem.rule()), at),
        NameFault::NoMemory => None,
    }
}

/// What a fault of elaboration reports.
pub(crate) fn elab_report(fault: ElabFault) -> Option<Report>
    ensures { result ≡ spec.elab_report fault }
{
    match fault {
        ElabFault::At { problem, at } => Some(Report {
            rule: Rule::Elab(problem.rule()),
            place: Place::Byte(at),
            subject: elab_subject(problem),
        }),
        ElabFault::NoMemory => None,
    }
}

/// What a problem of elaboration is told of.
fn elab_subject(problem: ElabProblem) -> Subject
    ensures { result ≡ spec.elab_subject problem }
{
    match problem {
        ElabProblem::NoTop => Subject::Nothing,
        ElabProblem::Length { found, needed } => Subject::Lengths { found, needed },
        _ => Subject::Word,
    }
}

/// What a fault of a stimulus reports.
pub(crate) fn stim_report(fault: StimFault) -> Option<Report>
    ensures { result ≡ spec.stim_report fault }
{
    match fault {
        StimFault::InLine { rule, line } => Some(Report {
            rule: Rule::Stim(rule),
            place: Place::Line(line),
            subject: Subject::Nothing,
        }),
        StimFault::NoStop => Some(Report {
            rule: Rule::Stim(StimRule::NoStop),
            place: Place::Nowhere,
            subject: Subject::Nothing,
        }),
        StimFault::Race { time, input, clock } => Some(Report {
            rule: Rule::Stim(StimRule::Race),
            place: Place::Time(time),
            subject: Subject::Race { input, clock },
        }),
        StimFault::NoMemory => None,
    }
}

/// What a fault of a file of expected values reports.
pub(crate) fn expect_report(fault: ExpectFault) -> Option<Report>
    ensures { result ≡ spec.expect_report fault }
{
    match fault {
        ExpectFault::InLine { rule, line } => Some(Report {
            rule: Rule::Expect(rule),
            place: Place::Line(line),
            subject: Subject::Nothing,
        }),
        ExpectFault::NoMemory => None,
    }
}

/// What a name reports that chooses nothing to be traced.
pub(crate) fn untraced_report(place: usize) -> Report
    ensures { result ≡ spec.untraced_report place }
{
    Report {
        rule: Rule::Run(RunRule::NotTraced),
        place: Place::Line(place),
        subject: Subject::Nothing,
    }
}

/// What a moment reports that doesn't settle.
pub(crate) fn settle_report(time: u64) -> Report
    ensures { result ≡ spec.settle_report time }
{
    Report {
        rule: Rule::Run(RunRule::NoSettling),
        place: Place::Time(time),
        subject: Subject::Nothing,
    }
}
