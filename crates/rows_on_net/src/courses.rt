//! Netlists, and what is done with them step by step.

use vhdl_values::Nine;

/// A netlist by its top and its text in VHDL, and its steps.
pub struct Course {
    pub top: &'static str,
    pub text: &'static str,
    /// What the inputs are at the start.
    pub initial: &'static [Nine],
    /// What the first input gets, and how many delta cycles the step may take.
    pub steps: &'static [(Given, u32)],
}

/// What an input gets in a cycle.
#[derive(Clone, Copy)]
pub enum Given {
    Nothing,
    Value(Nine),
    /// The first value, and then the second.
    Both(Nine, Nine),
}

const COUNTER_TEXT: &str = "library ieee; use ieee.std_logic_1164.all; use ieee.numeric_std.all; \
    entity cnt is port (clk : in std_logic; y : out std_logic_vector(1 downto 0)); end; \
    architecture r of cnt is signal q : unsigned(1 downto 0) := \"00\"; begin \
    process (clk) begin if rising_edge(clk) then q <= q + 1; end if; end process; \
    y <= std_logic_vector(q); end;";

const REGISTERS_TEXT: &str = "library ieee; use ieee.std_logic_1164.all; \
    entity row is port (clk, d : in std_logic); end; \
    architecture r of row is signal q1, q2 : std_logic := '0'; begin \
    process (clk) begin if rising_edge(clk) then q1 <= d; end if; end process; \
    process (clk) begin if rising_edge(clk) then q2 <= q1; end if; end process; end;";

/// A counter whose clock rises.
pub const COUNTER: &Course = &Course {
    top: "cnt",
    text: COUNTER_TEXT,
    initial: &[Nine::Zero],
    steps: &[
        (Given::Nothing, 2),
        (Given::Value(Nine::One), 2),
        (Given::Nothing, 1),
    ],
};

/// The same with too few delta cycles at first.
pub const CUT_COUNTER: &Course = &Course {
    top: "cnt",
    text: COUNTER_TEXT,
    initial: &[Nine::Zero],
    steps: &[
        (Given::Nothing, 2),
        (Given::Value(Nine::One), 1),
        (Given::Nothing, 1),
    ],
};

/// Two registers in a row whose clock rises, falls and rises, with '1' at the input.
pub const REGISTERS: &Course = &Course {
    top: "row",
    text: REGISTERS_TEXT,
    initial: &[Nine::Zero, Nine::One],
    steps: &[
        (Given::Nothing, 2),
        (Given::Value(Nine::One), 2),
        (Given::Value(Nine::Zero), 2),
        (Given::Value(Nine::One), 2),
    ],
};

/// The same, whose clock rises and falls in one cycle: it has no event, so that nothing runs (IEEE
/// 1076-2008, 14.7.3.4). Then it rises.
pub const FALLING_BACK: &Course = &Course {
    top: "row",
    text: REGISTERS_TEXT,
    initial: &[Nine::Zero, Nine::One],
    steps: &[
        (Given::Nothing, 1),
        (Given::Both(Nine::One, Nine::Zero), 1),
        (Given::Value(Nine::One), 1),
    ],
};

/// A signal that is assigned its own inverse.
pub const OSCILLATOR_FROM_U: &Course = &Course {
    top: "osc",
    text: "library ieee; use ieee.std_logic_1164.all; entity osc is end; \
        architecture r of osc is signal y : std_logic; begin y <= not y; end;",
    initial: &[],
    steps: &[(Given::Nothing, 1_000)],
};

/// The same, from '0' on.
pub const OSCILLATOR_FROM_0: &Course = &Course {
    top: "osc",
    text: "library ieee; use ieee.std_logic_1164.all; entity osc is end; \
        architecture r of osc is signal y : std_logic := '0'; begin y <= not y; end;",
    initial: &[],
    steps: &[(Given::Nothing, 1_000)],
};

/// A signal that two processes drive, one with '0' and one with '1'.
pub const TWO_DRIVERS: &Course = &Course {
    top: "two",
    text: "library ieee; use ieee.std_logic_1164.all; entity two is end; \
        architecture r of two is signal s : std_logic; begin s <= '0'; s <= '1'; end;",
    initial: &[],
    steps: &[(Given::Nothing, 1_000)],
};

/// A signal that follows an input, and wakes too on the output of a sibling, which it doesn't read.
pub const SIBLINGS: &Course = &Course {
    top: "sib",
    text: "library ieee; use ieee.std_logic_1164.all; \
        entity sib is port (a : in std_logic); end; \
        architecture r of sib is signal y, z : std_logic; begin z <= not a; \
        process (a, z) begin y <= a; end process; end;",
    initial: &[Nine::Zero],
    steps: &[
        (Given::Nothing, 1_000),
        (Given::Value(Nine::One), 1),
        (Given::Nothing, 1),
    ],
};
