//! Reports.

ghost use Rattle.fault_rules.specs.Rules.{AreWords, words_of};

use crate::checking::CheckRule;
use crate::expecting::ExpectRule;
use crate::remarking::RemarkRule;
use crate::settling::RunRule;
use crate::source::{ElabRule, LexRule, NameRule, SyntaxRule};
use crate::stimuli::StimRule;
use crate::words::Words;

/// A rule of a layer.
#[derive(Clone, Copy)]
pub enum Rule {
    Lex(LexRule),
    Syntax(SyntaxRule),
    Name(NameRule),
    Elab(ElabRule),
    Check(CheckRule),
    Stim(StimRule),
    Expect(ExpectRule),
    Run(RunRule),
    Remark(RemarkRule),
}

impl Rule {
    /// What is said of it.
    pub fn words(self) -> &'static Words<&'static str>
        ensures { AreWords (words_of self) result.now }
    {
        match self {
            Rule::Lex(rule) => rule.words(),
            Rule::Syntax(rule) => rule.words(),
            Rule::Name(rule) => rule.words(),
            Rule::Elab(rule) => rule.words(),
            Rule::Check(rule) => rule.words(),
            Rule::Stim(rule) => rule.words(),
            Rule::Expect(rule) => rule.words(),
            Rule::Run(rule) => rule.words(),
            Rule::Remark(rule) => rule.words(),
        }
    }
}

/// Where a rule is broken.
#[derive(Clone, Copy)]
pub enum Place {
    /// In no one place.
    Nowhere,
    /// At a byte of the source, counted from 0.
    Byte(usize),
    /// In a line of the stimulus or of the expected values, counted from 1.
    Line(usize),
    /// At a time, in ns.
    Time(u64),
    /// Where the process of this number is declared.
    Process(usize),
}

/// What a report is told of.
#[derive(Clone, Copy)]
pub enum Subject {
    /// Nothing more than its place.
    Nothing,
    /// The word at its place.
    Word,
    /// The word at its place, and two lengths.
    Lengths {
        found: usize,
        needed: usize,
    },
    /// A net.
    Net {
        net: usize,
    },
    /// A process.
    Process {
        process: usize,
    },
    /// A process and a net.
    ProcessNet {
        process: usize,
        net: usize,
    },
    /// A net and two sources of it, each by its process; an idle port has none.
    Sources {
        net: usize,
        first: Option<usize>,
        second: Option<usize>,
    },
    /// The processes of a circle, which the fault lists.
    Circle,
    /// A process and an element of one of its variables.
    Element {
        process: usize,
        variable: usize,
        place: usize,
    },
    /// An input and a clock.
    Race {
        input: usize,
        clock: usize,
    },
}

/// What a fault or a remark tells.
#[derive(Clone, Copy)]
pub struct Report {
    pub rule: Rule,
    pub place: Place,
    pub subject: Subject,
}
