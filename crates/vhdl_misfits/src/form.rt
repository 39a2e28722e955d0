//! What is told in several rows of what has a type that doesn't fit, and what helps.

use vhdl_slips::Said;

pub const BEGINS: Said = (
    "begins a value, and a condition stands here",
    "write the whole test, as sel = \"10\", n = 5 or en = '1'",
);

pub const JOINED: Said = (
    "joins elements and vectors of one type, and no tests or whole numbers",
    "join tests by and; convert a side by unsigned(v), std_logic_vector(n) or to_unsigned(i, 4)",
);

pub const JOINED_NUMBER: Said = (
    "joins elements and vectors, and no whole numbers",
    "write '0' for 0, and \"101\" or to_unsigned(5, 3) for 5",
);

pub const SHIFTED: Said = (
    "takes unsigned and a whole number, and gives unsigned",
    "write unsigned(v) for a vector v, and std_logic_vector(..) round it where a vector stands; a length is known \
     before the run; for a count n write shift_left(a, to_integer(n)) with --wide, and else in a loop: if n = i then u \
     <= shift_left(a, i); end if;",
);

pub const WHOLE_NUMBER: Said = (
    "takes unsigned, and gives a whole number that only a run knows",
    "write to_integer(unsigned(v)) for a vector v; ranges, lengths and choices are known before the run; for a loop to \
     to_integer(a) write all turns, and inside if i <= to_integer(a) then",
);

pub const EXCHANGED: Said = (
    "takes unsigned first, and a whole number behind the comma",
    "write resize(n, 8) or shift_left(n, 1), and to_unsigned(5, 8) for a number in 8 elements",
);

pub const CONVERTED: Said = (
    "takes other arguments, or gives a value that doesn't fit here",
    "unsigned(v) takes a vector alone, std_logic_vector(n) a number as unsigned (of n resize(n, 8) changes the length), \
     to_unsigned(5, 8) two whole numbers, and rising_edge(clk) one element; declare as unsigned what counts",
);

pub const LACKING: Said = (
    "lacks its second argument, a length or a count",
    "write resize(a, 9), to_unsigned(5, 8), shift_left(a, 1) or shift_right(a, 1)",
);

pub const POWER: Said = (
    "begins a power, and that is of whole numbers that are known before the run",
    "write shift_left(to_unsigned(1, 8), to_integer(n)) for 2 ** to_integer(n)",
);

pub const FOREIGN_CALL: Said = (
    "is a function of std_logic_arith, a package that isn't read here",
    "numeric_std has to_unsigned(5, 8) for conv_unsigned(5, 8), resize(n, 8) for ext(n, 8) and shift_left(n, 1) for \
     shl, of unsigned; std_logic_vector(..) makes a vector; unsigned is compared with numbers, as n = 5",
);

pub const REDUCTION: Said = (
    "is a function of std_logic_misc, a package that isn't read here",
    "write '1' when v /= \"0000\" else '0' for or_reduce(v), '1' when v = \"1111\" else '0' for and_reduce(v), and a \
     loop for xor_reduce: p := p xor v(i);",
);

pub const EDGE: Said = (
    "is a word of Verilog",
    "write rising_edge(clk) for posedge, and falling_edge(clk) for negedge",
);

pub const BOUND: Said = (
    "is no whole number that is known before the run, and one stands here",
    "take a number, a generic, a constant of type integer, or the index of a loop; for a part that moves write \
     v(to_integer(p) + 1 downto to_integer(p)) with --wide, and else compare in a loop: if p = i then",
);

pub const NAMED: Said = (
    "is no value of the type of what it is assigned to",
    "to_unsigned(i, 3) converts a whole number, std_logic_vector(n) unsigned, and unsigned(v) a vector; v(3) is \
     one element; an enumeration takes its own literals, and what is declared of it; with --wide to_integer(n) is a whole \
     number, s = '1' a boolean, and '1' when f else '0' one element of a boolean f",
);

pub const TURN: Said = (
    "is a whole number, as the index of a loop or generate, and what it is assigned to is none",
    "write to_unsigned(i, 3) for unsigned, and std_logic_vector(to_unsigned(i, 3)) for a vector",
);

pub const STRAYED_CHOICE: Said = (
    "begins a choice outside of the selector's range",
    "leave it out, or widen the range that the selector is declared with",
);

pub const OVERLAPPING: Said = (
    "begins a choice with a number that an earlier one has already",
    "drop one of the two choices, or write ranges that part the numbers: when 0 to 3 => and when 4 to 7 =>",
);

pub const STRAYED_START: Said = (
    "is declared with a value outside of its range, or with a range without numbers",
    "see whether its range goes upward by to, as 0 to 9, or downward by downto, and whether its value lies in that",
);

pub const STRAYED_FORMAL: Said = (
    "is declared with a range without numbers, or has a value outside of its range",
    "see whether its range goes upward by to, as 0 to 9, or downward by downto, and whether its default lies in that",
);

pub const STRAYED_ACTUAL: Said = (
    "doesn't fit the range of the port that it is given to",
    "declare a port and its signal with one range, or the narrower one where the numbers come from: both have negative \
     numbers, or neither has",
);

pub const UNCHOSEN: Said = (
    "doesn't name each number that its selector may have, and has no others",
    "let others be the last choice: in a case `when others =>`, in a with .. select `, b when others`; or give each \
     number of the selector's range a choice",
);

pub const CROWDED_CHOICES: Said = (
    "has more than 4096 numbers in its alternatives, the last one aside",
    "let others, or the widest range, be the last alternative; or write an if: if c < 0 then",
);
