//! Explanations of problems of names and types and of elaboration.

use crate::explained::{explain_at, report_of};
use crate::source::{push_source, push_written, source_of};
use fault_rules::{ElabRule, LexRule, NameRule, Rule, Subject, SyntaxRule};
use rows_calls::Text;
use std::alloc::Global;
use vhdl_lexer::lex;
use vhdl_parser_rules::Expected;

/// The rules of a layer, in the order of their numbers.
macro_rules! rules {
    ($layer:ident $rules:ident: $($rule:ident)+) => {
        [$(Rule::$layer($rules::$rule)),+]
    };
}

static LEX_RULES: [Rule; 6] = rules!(
    Lex LexRule: BadByte OpenComment OpenString BadIdentifier BadNumber TooLong
);

static SYNTAX_RULES: [Rule; 3] = rules!(Syntax SyntaxRule: Unexpected EndOfFile TooDeep);

static NAME_RULES: [Rule; 11] = rules!(
    Name NameRule: Undeclared Twice WrongKind TypeMismatch NotVisible WriteOfIn NoOthers ChoiceTwice
    SecondArchitecture NoSensitivity LeftOut
);

static ELAB_RULES: [Rule; 12] = rules!(
    Elab ElabRule: NoTop NoGeneric GenericRange StaticError Length Index TooWide Unassociated
    TwoUnresolved ReadOfShared TooDeep TooMany
);

/// Adds the explanation of a problem at the mark of a text: `name NUMBER TEXT` or `elab NUMBER
/// TEXT`.
pub fn push_problem(found: &mut Text, alloc: Global, written: &str) {
    let (layer, rest) = written.split_once(' ').unwrap_or((written, ""));
    let (number, text) = rest.split_once(' ').unwrap_or((rest, ""));
    let (before, after) = text.split_once('^').unwrap_or((text, ""));
    let mut source = source_of(alloc, before);
    let at = source.as_bytes().len();
    push_source(&mut source, after);
    let mut out = Text::new(alloc);
    if let Ok(tokens) = lex(alloc, source.as_bytes()) {
        if let Some(rule) = rule_of(layer, number.parse::<u8>().unwrap_or(0)) {
            let report = report_of(rule, at, subject_of(rule));
            explain_at(
                alloc,
                source.as_bytes(),
                &tokens,
                Expected::Nothing,
                report,
                &mut out,
            );
        }
    }
    found.heed(&source);
    push_written(found, &out);
}

/// The rule of a layer that has a number.
pub fn rule_of(layer: &str, number: u8) -> Option<Rule> {
    let rules: &[Rule] = match layer.as_bytes() {
        b"lex" => &LEX_RULES,
        b"syntax" => &SYNTAX_RULES,
        b"name" => &NAME_RULES,
        _ => &ELAB_RULES,
    };
    Some(*rules.get(usize::from(number.saturating_sub(1)))?)
}

/// What is told of a rule.
fn subject_of(rule: Rule) -> Subject {
    match rule {
        Rule::Elab(ElabRule::NoTop) => Subject::Nothing,
        Rule::Elab(ElabRule::Length) => Subject::Lengths {
            found: 3,
            needed: 4,
        },
        _ => Subject::Word,
    }
}
