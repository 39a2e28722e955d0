//! The rules on a run.

ghost use Rattle.fault_rules.specs.Rules.{AreWords, settling_words};

use crate::words::{Words, rule};

/// The rules on a run.
#[derive(Clone, Copy)]
pub enum RunRule {
    /// A moment doesn't settle.
    NoSettling,
    /// A name of `--trace` chooses nothing.
    NotTraced,
}

/// What is said of each, in their order.
static SETTLING: [Words<&str>; 2] = [
    rule! { settle 1 NoSettling: "at " TIME " ns nets still change after 1000 delta cycles"
        => "see what check tells: processes that feed each other in a circle, or a latch or clock that is made \
            inside" },
    rule! { trace 1 NotASignal: "this name chooses no port or signal"
        => "write what stands in the top by its name alone, what stands in an instance behind its labels, as u1.q" },
];

impl RunRule {
    /// What is said of it.
    pub fn words(self) -> &'static Words<&'static str>
        ensures { AreWords (settling_words self) result.now }
    {
        &SETTLING[self as usize]
    }
}
