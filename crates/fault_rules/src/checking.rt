//! The rules of the checker.

ghost use Rattle.fault_rules.specs.Rules.{AreWords, checking_words};

use crate::words::{Words, rule};

/// The rules of the checker.
#[derive(Clone, Copy)]
pub enum CheckRule {
    TwoDrivers,
    Mixed,
    ClockNotInput,
    EdgeNotSensitive,
    ClockAsData,
    MissingSensitivity,
    Latch,
    Loop,
    StoredVariable,
}

/// What is said of each, in their order.
static CHECKING: [Words<&str>; 9] = [
    rule! { fault 1 TwoDrivers: PROCESSES " both drive " NET
        => "let one of them drive it, with all of its assignments, or give each a signal of its own and choose \
            between these; in a generate see which element each turn has to drive, as hit(i) of a vector, or \
            c(i + 1)" },
    rule! { fault 2 Mixed: "process " PROCESS " has an edge or an event, and is none of the registers that are read"
        => "write a register as one if: its asynchronous reset first, the edge as the only other branch, and enables \
            inside that; a second edge takes a process of its own; the reset is tested as rst = '1' or rst = '0', or, with \
            --wide, by a boolean's name, and its branch assigns constants" },
    rule! { fault 3 ClockNotInput: "process " PROCESS " has the clock " NET ", which is no input of the top"
        => "clock it by an input of the top, and let what gates or divides it be an enable inside the edge" },
    rule! { fault 4 EdgeNotSensitive: "process " PROCESS " is clocked or reset by " NET ", and isn't sensitive to it"
        => "add it to the sensitivity list" },
    rule! { fault 5 ClockAsData: "process " PROCESS " uses as data or as a reset the clock " NET
        => "take a signal that is no clock, or an enable that changes with the other data" },
    rule! { fault 6 MissingSensitivity: "process " PROCESS " reads " NET ", and isn't sensitive to it"
        => "where the process assigns it too, see whether another signal is meant, as state for next_state, or compute \
            it in a variable, as v := v + 1, and assign that at the end; else add it to the sensitivity list, or write \
            process (all); where a register is meant, test rising_edge(clk)" },
    rule! { fault 7 Latch: "process " PROCESS " leaves out, on some path, the assignment of " NET ", so that it would \
        keep its value"
        => "in a process assign a default before the if or case; or add the missing else or choice, in a when .. else \
            too; a register tests rising_edge(clk)" },
    rule! { fault 8 Loop: "in a circle of processes each is sensitive to what the next drives, and the last to what \
        the first drives: " CIRCLE
        => "see in each of these processes whether the right signal is read, as state for next_state; one that reads \
            what it drives itself computes in a variable, as v := v xor a(i), and assigns that at its end; one whose \
            outputs don't need all of its inputs is split; a value that is to be kept is assigned under \
            rising_edge(clk)" },
    rule! { fault 9 StoredVariable: "process " PROCESS " may read, before it assigns it, the variable " VARIABLE ", \
        which would so keep its value from run to run"
        => "assign it at the beginning of the process; what keeps its value is a signal, assigned inside the edge" },
];

impl CheckRule {
    /// What is said of it.
    pub fn words(self) -> &'static Words<&'static str>
        ensures { AreWords (checking_words self) result.now }
    {
        &CHECKING[self as usize]
    }
}
