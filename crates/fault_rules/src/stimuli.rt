//! The rules on stimuli.

ghost use Rattle.fault_rules.specs.Rules.{AreWords, stimuli_words};

use crate::words::{Words, rule};

/// The rules on stimuli.
#[derive(Clone, Copy, Debug)]
pub enum StimRule {
    BadLine,
    NotAnInput,
    BadValue,
    SetTwice,
    ClockAndSet,
    NoStop,
    TimeTooLarge,
    Race,
}

/// What is said of each, in their order.
static STIMULI: [Words<&str>; 8] = [
    rule! { stim 1 BadLine: "the line isn't understood"
        => "write at TIME NAME VALUE, as at 20 en 1, clock NAME FIRST HALF, as clock clk 5 5, or, once, stop TIME, in \
            small letters; each sets one input, with no comma; a time is a whole number alone, in ns; a comment is a \
            line of its own that begins with #" },
    rule! { stim 2 NotAnInput: "the name is no in port of the top"
        => "see the spelling of the port, which in a line stands alone before its value, as in at 20 en 1; in ports of \
            the top alone are set, each as a whole, and no out port and no signal inside" },
    rule! { stim 3 BadValue: "the value doesn't fit the input"
        => "write for each element one of U X 0 1 Z W L H -, the leftmost first, with no quotation mark and no x; an \
            integer in decimal digits, and within its range; a boolean as true or false; a clock has one element" },
    rule! { stim 4 SetTwice: "the input is set twice, at one time or by two clocks"
        => "keep one of the two words or lines that set it, or give a line another time; an input has one clock" },
    rule! { stim 5 ClockAndSet: "the input is a clock, and is set too"
        => "drop the clock, or what sets the input" },
    rule! { stim 6 NoStop: "no line says when the run stops"
        => "add a line as stop 1000, with the last time in ns" },
    rule! { stim 7 TimeTooLarge: "the time is above 1000000000000000 ns"
        => "write a time in whole nanoseconds up to that" },
    rule! { stim 8 Race: "at " TIME " ns the input " INPUT " changes at an edge of the clock " CLOCK
        => "let the input change at another time than the clock's edge, as real data does: at that edge the order \
            would count" },
];

impl StimRule {
    /// What is said of it.
    pub fn words(self) -> &'static Words<&'static str>
        ensures { AreWords (stimuli_words self) result.now }
    {
        &STIMULI[self as usize]
    }
}
