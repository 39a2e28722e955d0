//! The kinds of remarks. They have no help.

ghost use Rattle.fault_rules.specs.Rules.{AreWords, remarking_words};

use crate::words::{Words, rule};

/// The kinds of remarks. They have no help.
#[derive(Clone, Copy)]
pub enum RemarkRule {
    Undriven,
    Unassigned,
    IdlePort,
    NotReset,
    ClockRead,
    NeverKnown,
    UnreadElement,
    ClockWithoutLine,
    InputWithoutLine,
    OutsideRange,
}

/// What is said of each, in their order.
static REMARKING: [Words<&str>; 10] = [
    rule! { remark 1 Undriven: "process " PROCESS " reads " NET ", which nothing drives" },
    rule! { remark 2 Unassigned: "nothing drives the out port " NET },
    rule! { remark 3 IdlePort: "nothing assigns, inside its instance, an out port that drives " NET },
    rule! { remark 4 NotReset: "the reset of process " PROCESS " leaves out " NET ", which keeps its value while the \
        reset holds" },
    rule! { remark 5 ClockRead: "process " PROCESS " reads as data the clock " NET },
    rule! { remark 6 NeverKnown: "process " PROCESS " computes " NET " from its own value, but has no reset for it and \
        drives it from U on, and so it is never 0 or 1" },
    rule! { remark 7 UnreadElement: "nothing reads " NET ", though other elements of this in port are read" },
    rule! { remark 8 ClockWithoutLine: "no line of the stimulus drives the clock " NET },
    rule! { remark 9 InputWithoutLine: "no line of the stimulus drives the input " NET },
    rule! { remark 10 OutsideRange: "process " PROCESS " may give " NET " a number outside its range, which makes it x" },
];

impl RemarkRule {
    /// What is said of it.
    pub fn words(self) -> &'static Words<&'static str>
        ensures { AreWords (remarking_words self) result.now }
    {
        &REMARKING[self as usize]
    }
}
