//! The rules on expected values. One alone has a sentence and a help.

ghost use Rattle.fault_rules.specs.Rules.{AreWords, expecting_words};

use crate::words::{Words, rule};

/// The rules on expected values. One alone has a sentence and a help.
#[derive(Clone, Copy, Debug)]
pub enum ExpectRule {
    /// A value isn't the expected one.
    Differs,
    /// A time is behind the stop.
    AfterStop,
    /// A line has no form.
    BadLine,
    /// A name is no signal's.
    NotASignal,
    /// A value doesn't fit its signal.
    BadValue,
    /// A time is too large.
    TimeTooLarge,
}

/// What is said of each, in their order.
static EXPECTING: [Words<&str>; 6] = [
    rule! { expect 1 Differs },
    rule! { expect 2 AfterStop },
    rule! { expect 3 BadLine },
    rule! { expect 4 NotASignal: "no port or signal has this name"
        => "write a signal of the top by its name alone, another one behind its instances' labels, as u1.q" },
    rule! { expect 5 BadValue },
    rule! { expect 6 TimeTooLarge },
];

impl ExpectRule {
    /// What is said of it.
    pub fn words(self) -> &'static Words<&'static str>
        ensures { AreWords (expecting_words self) result.now }
    {
        &EXPECTING[self as usize]
    }
}
