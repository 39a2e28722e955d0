//! What is told of a type that doesn't fit, and where.

ghost use Rattle.std.specs.Prelude.{◌≡◌, map};
ghost use Rattle.vhdl_misfits.specs.Misfits as spec;

use crate::form::{
    BEGINS, BOUND, CONVERTED, CROWDED_CHOICES, EDGE, EXCHANGED, FOREIGN_CALL, JOINED,
    JOINED_NUMBER, LACKING, NAMED, OVERLAPPING, POWER, REDUCTION, SHIFTED, STRAYED_ACTUAL,
    STRAYED_CHOICE, STRAYED_FORMAL, STRAYED_START, TURN, UNCHOSEN, WHOLE_NUMBER,
};
use crate::row::{Provided, Row, row};
use crate::sort::Sort;
use vhdl_lexer::TokenKind;

/// Of what is no value, or no condition; of all rows the first that fits counts.
pub static CONDITIONS: [Row; 10] = [
    // a literal that is no value, and what fills no vector
    row!(b"" [] [Is(String)] NoElements (
        "has a character in it that is none of U X 0 1 Z W L H -",
        "write the digits 0 and 1, and other values in capitals; with underscores write b\"0000_1111\"; a literal of \
         an enumeration has no quotation marks",
    )),
    row!(b"" [] [Is(Character)] NoValue (
        "is none of the nine values U X 0 1 Z W L H -",
        "write them in capitals, as 'Z'; a number, as n = 5, and a literal of an enumeration have no ticks",
    )),
    row!(b"" [] [Is(LeftParen) Is(Others)] Always (
        "begins (others => ..), which fills a vector, and what gets it is none",
        "write '0' for one element, 0 for a whole number, false for a boolean, and a literal of its enumeration",
    )),
    // a condition
    row!(b"" [Any Is(If)] [] Static (
        "begins what is no test of whole numbers that are known before the run, and the condition of a generate is one",
        "compare generics, constants of type integer and indices of generates, as n > 1; what depends on a signal is an \
         if in a process, or an assignment with when",
    )),
    row!(b"" [Any Condition] [Any Tested] Always (
        "is no test, and a condition stands here",
        "write the whole test, as sel = \"10\", n = 5, en = '1' or rising_edge(clk)",
    )),
    row!(b"" [Any Condition] [Is(Not)] NoTest BEGINS),
    row!(b"" [Any Condition] [Any Operator] NoTest BEGINS),
    row!(b"" [Any Condition] [Is(Identifier) Is(LeftParen)] Slice BEGINS),
    row!(b"unsigned" [Any Condition] [Any Is(LeftParen)] NoTest BEGINS),
    row!(b"resize" [Any Condition] [Any Is(LeftParen)] NoTest BEGINS),
];

/// Of what is assigned to, or assigned.
pub static ASSIGNED: [Row; 9] = [
    row!(b"" [Any Statement] [Is(Identifier) Is(LeftParen)] Target (
        "can't be assigned to so: it has no elements, or no such index or slice",
        "leave out the index of one element, and write (3 downto 0) for (3, 0); for v(p) write \
         v(to_integer(unsigned(p))) with --wide, and else compare in a loop: for i in 0 to 3 loop if p = i then v(i) \
         <= d; end if; end loop;",
    )),
    row!(b"" [Is(Others) Is(Arrow)] [] Test (
        "begins a test, and others fills a vector with a single element",
        "write (others => '1') when en = '1' else (others => '0'); in a process write an if",
    )),
    row!(b"" [Any Begun] [] Test (
        "begins a test, and a value stands here",
        "write y <= '1' when n = 5 else '0'; in a process write an if",
    )),
    row!(b"" [Any Given] [Is(LeftParen)] Value (
        "begins a value of another type than what it is assigned to",
        "unsigned(v), std_logic_vector(n) and to_unsigned(5, 8) convert; v(3) is one element of a vector",
    )),
    row!(b"" [Any Begun] [Is(Not)] Always (
        "begins a value of another type than is needed here, or negates what has no inverse",
        "one element, a vector, unsigned and a test are negated, and keep their type: write not v(3), \
         std_logic_vector(not n) or unsigned(not v)",
    )),
    row!(b"" [Any Given] [Any Arithmetic] Value (
        "begins a computation, which gives unsigned or a whole number, and is assigned to another type",
        "write std_logic_vector(a + b) where a vector is assigned to, to_unsigned(i + 1, 4) of whole numbers for \
         unsigned, and with --wide to_integer(a) + 1 of unsigned for a whole number",
    )),
    row!(b"" [Any Given] [Any Is(Ampersand)] Value (
        "begins what & joins to a vector, and is assigned to another type",
        "write unsigned('0' & v) where unsigned is assigned to, and std_logic_vector('0' & n) for a vector; one \
         element is assigned without &",
    )),
    row!(b"" [Any Given] [Any Logical] Value (
        "begins a value of another type than what it is assigned to",
        "and, or and xor keep the type of their operands: write std_logic_vector(a xor b) of unsigned, unsigned(v \
         xor w) of vectors, v(3) for one element, and with --wide (a and b) = '1' for a boolean",
    )),
    row!(b"" [Any Begun] [Sign Is(Integer) End] Value (
        "begins a whole number, which doesn't fit here",
        "write to_unsigned(5, 8) for 5; unsigned has no negative numbers, and 0 - n for -n",
    )),
];

/// Of a name that is assigned, or goes on with a value.
pub static NAMES: [Row; 4] = [
    row!(b"" [Any Assignment] [Is(Identifier) End] Turn TURN),
    row!(b"" [Any Assignment] [Is(Identifier) End] Value NAMED),
    row!(b"" [Any Further] [Is(Identifier) Ended] Turn TURN),
    row!(b"" [Any Further] [Is(Identifier) Ended] Always NAMED),
];

/// Of a call.
pub static CALLS: [Row; 11] = [
    row!(b"resize" [] [Any Is(LeftParen)] OneArgument LACKING),
    row!(b"shift_left" [] [Any Is(LeftParen)] OneArgument LACKING),
    row!(b"shift_right" [] [Any Is(LeftParen)] OneArgument LACKING),
    row!(b"to_unsigned" [] [Any Is(LeftParen)] OneArgument LACKING),
    row!(b"resize" [] [Any Is(LeftParen) Is(Integer)] Always EXCHANGED),
    row!(b"shift_left" [] [Any Is(LeftParen) Is(Integer)] Always EXCHANGED),
    row!(b"shift_right" [] [Any Is(LeftParen) Is(Integer)] Always EXCHANGED),
    row!(b"resize" [] [Any Is(LeftParen)] Always SHIFTED),
    row!(b"shift_left" [] [Any Is(LeftParen)] Always SHIFTED),
    row!(b"shift_right" [] [Any Is(LeftParen)] Always SHIFTED),
    row!(b"to_integer" [] [Any Is(LeftParen)] Always WHOLE_NUMBER),
];

/// Of a conversion, and of a name and its parentheses.
pub static CONVERSIONS: [Row; 13] = [
    row!(b"unsigned" [] [Any Is(LeftParen)] Always CONVERTED),
    row!(b"std_logic_vector" [] [Any Is(LeftParen)] Always CONVERTED),
    row!(b"std_ulogic_vector" [] [Any Is(LeftParen)] Always CONVERTED),
    row!(b"to_unsigned" [] [Any Is(LeftParen)] Always CONVERTED),
    row!(b"rising_edge" [] [Any Is(LeftParen)] Always CONVERTED),
    row!(b"falling_edge" [] [Any Is(LeftParen)] Always CONVERTED),
    row!(b"" [] [Is(Identifier) Is(LeftParen)] Element (
        "is declared as one element, a whole number or a boolean, and has no index or slice",
        "declare it as a vector, as std_logic_vector(3 downto 0), as long as it has to be, or leave the parentheses out; \
         assign to_unsigned(c, 4) of a whole number c to unsigned, and take the elements of that",
    )),
    row!(b"" [Any Condition] [Is(Identifier) Is(Tick)] Element (
        "is declared as one element, a whole number or a boolean, and has no such attribute here",
        "an edge is one of a signal of one element, as rising_edge(clk); test a boolean by its name alone, and a whole \
         number as c = 5",
    )),
    row!(b"" [Any Given] [Is(Identifier) Is(LeftParen)] Joined (
        "has no such index, or begins what & joins to a vector, and is assigned to another type",
        "write unsigned(v(0) & w) where unsigned is assigned to, std_logic_vector(n(0) & '1') where a vector is, and one \
         element without &; for v(p) write v(to_integer(unsigned(p))) with --wide, and else compare in a loop: for i in \
         0 to 3 loop if p = i then y <= v(i); end if; end loop;",
    )),
    row!(b"" [Is(Identifier) Is(Arrow)] [Is(Identifier) Is(LeftParen)] Slice (
        "has no such slice, or is of another type than its formal",
        "a conversion is no actual: assign the slice to a signal of the formal's type, as s <= unsigned(v(3 downto 0)), \
         and give that signal's name",
    )),
    row!(b"" [] [Is(Identifier) Is(LeftParen)] Slice (
        "has no such slice, or begins a value of another type than is needed here",
        "write unsigned(v(3 downto 0)) where unsigned is needed, and std_logic_vector(n(3 downto 0)) where a vector is, \
         in a map the name of a signal that this is assigned to; v(3) is one element",
    )),
    row!(b"" [Is(Identifier) Assignment] [Is(Identifier) Is(LeftParen)] Value (
        "has no such index, or begins a value of another type than the whole target",
        "give the target its element or slice too, as hit(i) <= req(i) and en; v(3) is one element, v(3 downto 0) a \
         vector; for v(p) write v(to_integer(unsigned(p))) with --wide, and else compare in a loop: for i in 0 to 3 \
         loop if p = i then y <= v(i); end if; end loop;",
    )),
    row!(b"" [] [Is(Identifier) Is(LeftParen)] Alone (
        "has no such index, or gives an element or slice of another type",
        "v(3) is one element, v(3 downto 0) a vector; for v(p) write v(to_integer(unsigned(p))) with --wide, and else \
         compare in a loop: for i in 0 to 3 loop if p = i then y <= v(i); end if; end loop;",
    )),
];

/// Of a name in another place, or a literal.
pub static PLACES: [Row; 7] = [
    row!(b"" [Is(Others) Any] [Is(Identifier) Plain] Always (
        "is or begins no single element, and others fills each element with one",
        "write (others => '0'), or (others => v(0)) for one element of v",
    )),
    row!(b"" [Any Bound] [Is(Identifier) Plain] Always BOUND),
    row!(b"" [Any Range] [Is(Identifier)] Range BOUND),
    row!(b"" [Any Selector] [Is(Identifier) Plain] Always (
        "begins a test or a whole number, and these select with --wide alone",
        "give --wide, or write an if for a test; case and with select by one element, a vector, unsigned or an enumeration",
    )),
    row!(b"" [] [Is(Integer) End] Always (
        "is a whole number, which doesn't fit here",
        "write '0' for one element, \"0101\" or (others => '0') for a vector, to_unsigned(5, 8) for unsigned, and true or \
         false for a boolean",
    )),
    row!(b"" [] [Vector End] Always (
        "is a vector, which doesn't fit here",
        "write '1' for one element, and 5 for a whole number; a literal of an enumeration has no quotation marks",
    )),
    row!(b"" [] [Is(Character) End] Always (
        "is one element, which doesn't fit here",
        "write a vector as \"0101\" or (others => '0'), a whole number as 5, a boolean as true or false, and a literal of \
         an enumeration without ticks",
    )),
];

/// Of an operator that compares, or joins tests or values.
pub static OPERATORS: [Row; 9] = [
    row!(b"" [] [Equality Is(Character)] Always (
        "compares two values of one type, and two tests with --wide alone",
        "'0' and '1' are single elements: of a vector v write v(0) = '1' or v = \"0001\", and of unsigned or a whole \
         number n = 1; rising_edge(clk), booleans and other tests stand alone, without = '1'",
    )),
    row!(b"" [] [Equality Is(Integer)] Always (
        "compares two values of one type, and two tests with --wide alone",
        "a number is compared with unsigned: write unsigned(v) = 5 or v = \"0101\" of a vector v, or declare v as \
         unsigned where it counts; en = '1' of one element, and state = idle of an enumeration",
    )),
    row!(b"" [] [Equality Vector] Always (
        "compares two values of one type, and two tests with --wide alone",
        "a string is a vector: write en = '1' of one element, i = 2 of a whole number, and state = idle of an enumeration",
    )),
    row!(b"" [] [Equality] Always (
        "compares two values of one type, and two tests with --wide alone",
        "unsigned(v) = n compares a vector v with unsigned; an element is compared with an element, and an enumeration \
         with one of its own literals, as state = idle",
    )),
    row!(b"" [] [Relation] Always (
        "compares unsigned and whole numbers alone",
        "write unsigned(v) < unsigned(w) of vectors, and n < 5 of unsigned; compare elements, booleans and literals of an \
         enumeration by = and /=; of tests write not a and b for a < b",
    )),
    row!(b"" [] [Logical Is(Not)] Always (
        "joins here two tests, or two elements, vectors or unsigned of one type",
        "not full is a value where full is one: write full = '0' beside a test, as en = '1' and full = '0', and for v and \
         not full of a vector v write v when full = '0' else (others => '0'); a test is negated as not (n = 5)",
    )),
    row!(b"" [] [Logical Is(Identifier) Tested] Always (
        "joins here two tests, or two elements, vectors or unsigned of one type",
        "a name alone is a test only where it is a boolean's: write en = '1' of one element, v = \"01\" of a vector v, n = 1 \
         of unsigned, and state = idle of an enumeration",
    )),
    row!(b"" [] [Logical] Test (
        "joins here two tests, or two elements, vectors or unsigned of one type",
        "a value and a test don't join: write a xor b for a xor (b = '1'), b when n = 5 else '0' for b and n = 5, and for a \
         vector v and a test v when en = '1' else (others => '0'), or in a process an if",
    )),
    row!(b"" [] [Logical] Always (
        "joins here two tests, or two elements, vectors or unsigned of one type",
        "write a whole test on both sides, as op = \"00\" or op = \"01\", en = '1' and n = 5; convert a value by \
         unsigned(v) or std_logic_vector(n); for v and en, v a vector and en one element, write v when en = '1' else (others \
         => '0'), for v or en (others => '1') when en = '1' else v, or in a process an if",
    )),
];

/// Of one that makes vectors or numbers.
pub static COMPUTING: [Row; 8] = [
    row!(b"" [] [Is(Ampersand) Is(Integer)] Always JOINED_NUMBER),
    row!(b"" [Arithmetic Is(Integer)] [Is(Ampersand)] Always JOINED),
    row!(b"" [Any Is(Integer)] [Is(Ampersand)] Always JOINED_NUMBER),
    row!(b"" [] [Is(Ampersand)] Always JOINED),
    row!(b"" [] [Is(Star) Is(Star)] Always POWER),
    row!(b"" [] [Sum] Always (
        "computes with unsigned and whole numbers alone here, and unsigned has no sign",
        "write n + 1 for n + '1', n + ('0' & en) for one element en, 0 - n for -n of unsigned, and unsigned(v) + 1 \
         for a vector v, with std_logic_vector(..) round it where a vector stands, or declare as unsigned what counts; of an \
         enumeration name the next literal",
    )),
    row!(b"" [] [Arithmetic] Always (
        "computes with whole numbers alone here, and not with unsigned",
        "write n(1 downto 0) for n mod 4, shift_right(n, 2) for n / 4, and with --wide to_unsigned(to_integer(n) mod 10, 8) \
         for n mod 10",
    )),
    row!(b"" [] [Is(Not)] Always (
        "negates what stands right behind it, and that has no inverse",
        "put a whole test into parentheses, as not (n = 3); a whole number and an enumeration have no inverse",
    )),
];

/// Of a name that isn't declared, where another package or language has it.
pub static FOREIGN: [Row; 12] = [
    row!(b"conv_integer" [] [Any Is(LeftParen)] Always FOREIGN_CALL),
    row!(b"conv_unsigned" [] [Any Is(LeftParen)] Always FOREIGN_CALL),
    row!(b"conv_std_logic_vector" [] [Any Is(LeftParen)] Always FOREIGN_CALL),
    row!(b"ext" [] [Any Is(LeftParen)] Always FOREIGN_CALL),
    row!(b"shl" [] [Any Is(LeftParen)] Always FOREIGN_CALL),
    row!(b"shr" [] [Any Is(LeftParen)] Always FOREIGN_CALL),
    row!(b"or_reduce" [] [Any Is(LeftParen)] Always REDUCTION),
    row!(b"and_reduce" [] [Any Is(LeftParen)] Always REDUCTION),
    row!(b"xor_reduce" [] [Any Is(LeftParen)] Always REDUCTION),
    row!(b"posedge" [] [Any Is(LeftParen)] Always EDGE),
    row!(b"negedge" [] [Any Is(LeftParen)] Always EDGE),
    row!(b"default" [] [Any Is(Arrow)] Always (
        "is no choice in VHDL, where others stands for what is left",
        "write when others =>",
    )),
];

/// Of what gets numbers outside of its range, or is one.
pub static STRAYED: [Row; 12] = [
    row!(b"" [Any Is(When)] [] Always STRAYED_CHOICE),
    row!(b"" [Any Is(Bar)] [] Always STRAYED_CHOICE),
    row!(b"" [Any Is(Signal)] [] Always STRAYED_START),
    row!(b"" [Any Is(Variable)] [] Always STRAYED_START),
    row!(b"" [Any Is(Constant)] [] Always STRAYED_START),
    row!(b"" [Is(Port) Is(LeftParen)] [] Always STRAYED_START),
    row!(b"" [] [Is(Identifier) Assignment] Always (
        "is assigned a number outside of its range",
        "see the range that it is declared with, and widen that, or assign another number; branches that are never taken \
         are computed too",
    )),
    row!(b"" [Any Is(Semicolon)] [Is(Identifier)] Moded STRAYED_FORMAL),
    row!(b"" [Any Is(Assign)] [] Always (
        "begins a value outside of the range of the constant that gets it",
        "see whether that range goes upward by to, as 0 to 9, or downward by downto, and widen it, or give another value",
    )),
    row!(b"" [Is(Identifier) Is(Arrow)] [Is(Identifier)] Always STRAYED_ACTUAL),
    row!(b"" [Is(Map) Is(LeftParen)] [Is(Identifier)] Always STRAYED_ACTUAL),
    row!(b"" [Any Is(Comma)] [Is(Identifier)] Undeclared STRAYED_ACTUAL),
];

/// Of a choice that isn't apart from the others.
pub static OVERLAPS: [Row; 4] = [
    row!(b"" [Any Is(When)] [Plain Plain] Always OVERLAPPING),
    row!(b"" [Any Is(Bar)] [Plain Plain] Always OVERLAPPING),
    row!(b"" [Any Is(When)] [Is(LeftParen)] Always OVERLAPPING),
    row!(b"" [Any Is(Bar)] [Is(LeftParen)] Always OVERLAPPING),
];

/// Of what can't be computed.
pub static UNCOMPUTED: [Row; 2] = [
    row!(b"" [] [Selector] Always UNCHOSEN),
    row!(b"" [] [Is(Identifier) Is(LeftParen)] Slice (
        "has a slice whose length only a run knows, or which can't be computed",
        "let the same number that moves stand in both bounds, as v(8 * i + 7 downto 8 * i); see whether a bound divides by 0",
    )),
];

/// Of what has more than the limits let it have.
pub static CROWDED: [Row; 1] = [row!(b"" [] [Selector] Always CROWDED_CHOICES)];

/// The tables of what doesn't fit.
pub(crate) fn misfits() -> [&'static [Row]; 8]
    ensures { map spec.rows_of result ≡ spec.misfits }
{
    [
        &CONDITIONS,
        &ASSIGNED,
        &NAMES,
        &CALLS,
        &CONVERSIONS,
        &PLACES,
        &OPERATORS,
        &COMPUTING,
    ]
}
