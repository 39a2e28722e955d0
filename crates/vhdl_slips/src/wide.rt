//! What is said with `--wide` of forms and slips where it reads more, or declares more.

use crate::form::Said;

pub const NUMBER_RANGE: Said = (
    "isn't read here: a range is read behind the type of a whole number in declarations, and in no loop or choice",
    "write for i in 0 to 3 loop; or declare subtype index is integer range 0 to 3; and write for i in index loop",
);

pub const MESSAGE: Said = (
    "can't stand here: an assertion is a statement, and a report one of a process",
    "end by `;` what stands before it; both are read and dropped, so look at the trace",
);

pub const ABSOLUTE: Said = (
    "can't stand here: an absolute value behind not, abs or ** is put in parentheses",
    "write 2 ** (abs n)",
);

/// A second `*`.
pub const POWER: Said = (
    "can't stand here: ** is written without a space, and the power of a power needs parentheses",
    "write 2 ** n, and (2 ** n) ** m",
);

/// What is qualified, behind something else than the name of a type.
pub const QUALIFIED: Said = (
    "can't stand here: the name of a type stands before the ' of a qualified expression, and no range",
    "declare subtype nibble is std_logic_vector(3 downto 0); and write nibble'(a, b, c, d)",
);

/// `=>` behind a part of a formal.
pub const FORMAL: Said = (
    "can't stand here: it follows a choice or a formal, and a formal is a whole port or generic",
    "assign the parts to a signal, and give its name: port map (v => s); compare by >=",
);

pub const OTHERS: Said = (
    "can't stand here: others stands last in an aggregate, before =>, and alone as the last choice of a case",
    "assign (others => '0') to a signal and name that in a port map; write when others => in a case",
);

pub const COMMA: Said = (
    "can't stand here: ports, generics and statements are parted by `;`",
    "write `;` where one declaration ends and the next begins, and parentheses round the values of an aggregate",
);

/// `when` behind the end of a line.
pub const WHEN_LINE: Said = (
    "can't stand here, at the beginning of a line",
    "put at the end of the line before a `;` or is, where that is missing",
);

pub const DECLARATION: Said = (
    "can't stand here: no declaration stands among statements, and a process declares variables, constants and types \
     alone",
    "declare it before the begin of the process or of the architecture, for a generate as a vector with an element \
     for each turn",
);

pub const DECLARATION_LINE: Said = (
    "can't stand here, at the beginning of a line",
    "put a `;` at the end of the line before, where that is missing; no declaration stands among statements: declare \
     it before the begin of the process or, as signals and components are, of the architecture",
);

/// An attribute that isn't served, or not of what stands before it.
pub const ATTRIBUTE: Said = (
    "isn't served here: vectors, and their types with a range, have left, right, high, low, length, range and \
     reverse_range; whole numbers no length; signals have event",
    "write the bounds themselves, or a constant in their place",
);

/// Values in aggregates and in maps.
pub const ACTUAL: Said = (
    "begins what can't stand here: a value behind => in an aggregate is one element, a port map gives names of \
     signals, and a generic map what is known before the run",
    "write vectors by &, or in an aggregate without choices; of a port assign the value to a signal first, and give \
     that signal's name; a formal has => behind it",
);

/// A vector type without the one range that it needs.
pub const VECTOR: Said = (
    "needs its range here",
    "write std_logic_vector(7 downto 0), or the name of a subtype that has its range",
);

/// A type of one element with a range.
pub const ELEMENT: Said = (
    "is one element: no range follows it",
    "write std_logic_vector(3 downto 0) for several",
);

pub const BOOLEAN: Said = (
    "can't stand here so: boolean takes no range, qualifies no value, and is no choice and no range for a loop",
    "write boolean alone behind the colon, and the test itself for boolean'(a = b)",
);

/// A type of whole numbers where it has no range behind it, or qualifies a value.
pub const WHOLE_NUMBER: Said = (
    "can't stand here so: a type of whole numbers takes range 0 to 9 behind it, qualifies no value, and has no range \
     for a loop",
    "write integer range 0 to 9 for integer(0 to 9), k itself for natural'(k), and for i in 0 to 3 loop",
);

/// What is no literal and no constant, behind `when` or `|`.
pub const CHOICE: Said = (
    "begins what is no choice: a choice is a literal of the selector's type, or a constant that a literal declares; \
     whole numbers have ranges too, and constants that hang on no generic; booleans and enumerations literals alone",
    "write when 0 to 3 | 5 of a whole number, as in case to_integer(u) is, when true of a boolean, when \"00\" | \"01\" of \
     a vector or unsigned, when '0' of one element, and a literal of an enumeration; compare with a generic, or the index \
     of a loop, by if",
);

pub const DEFAULT: Said = (
    "can't stand here: the value of a constant and a default are known before the run",
    "name no signal, port or variable in it, and no edge; assign what is computed to a signal",
);

/// The number of what the run doesn't change.
pub const STATIC_NUMBER: Said = (
    "is served of what names a signal, a port or a variable",
    "declare what is known before the run as an integer: constant n : integer := 5;",
);

/// A type that a declaration or a loop names.
pub const MARK: Said = (
    "can't stand here so: a vector takes one range, a whole number range 0 to 9, one element, a boolean and an \
     enumeration none, and a loop goes through a type that has a range of its own",
    "declare the range once, at the type or at its subtype; write for i in 0 to 3 loop for other turns",
);
