//! Forms of VHDL that aren't read: what is said of each.

use vhdl_lexer::TokenKind;

/// What is said behind the word, and what a designer does about it.
pub type Said = (&'static str, &'static str);

/// What has to stand before a word for a form to begin there.
#[derive(Clone, Copy)]
pub enum Behind {
    /// Anything.
    Anything,
    /// A token of this kind.
    Kind(TokenKind),
    /// The end of a name or literal, or `)`.
    Operand,
    /// The colon of a declaration, or its mode.
    Declared,
    /// A token of this kind, and then a name or literal.
    Opener(TokenKind),
    /// A token of this kind, then a name, and its index up to here.
    Index(TokenKind),
    /// A name with which a statement begins, or a type in a declaration.
    Target,
    /// The end of a line that may lack its `;` or its last word.
    NewLine,
    /// A label and a name, and the name's index, or what of it stands before here.
    Instance,
    /// The `begin` of an architecture, and no process that isn't ended.
    Concurrent,
}

/// A form begins at this word, in letters of either case, behind that; the empty word stands for
/// any.
pub type FormWord = (&'static [u8], Behind, Said);

pub const WHOLE_NUMBERS: Said = (
    "isn't read here: signals, ports and variables of whole numbers are read with --wide alone",
    "give --wide, or declare it as unsigned(7 downto 0), as wide as it needs, and write n + 1 or n = 5 as before; \
     leave out the index of a loop, which its for declares",
);

pub const NUMBER_RANGE: Said = (
    "isn't read here: a whole number has a range of its own with --wide alone",
    "give --wide, or drop the range of a generic or constant, and declare a signal, port or variable as \
     unsigned(7 downto 0), as wide as it needs, and write n + 1 or n = 5 as before",
);

pub const RANGE_ATTRIBUTE: Said = (
    "isn't read here: of the attributes only 'event is served",
    "write the bounds themselves, or a generic in their place",
);

pub const ARRAY: Said = (
    "isn't read here: array types aren't served",
    "take one vector of at most 64 elements and slices of it, or a signal for each word",
);

pub const RECORD: Said = (
    "isn't read here: records and selected names aren't served",
    "write a name alone, with no type, library or package before it; declare a signal for each element of a record",
);

/// A point behind the name with which an instance or a type begins.
pub const INSTANCE: Said = (
    "isn't read here: an instance names its entity behind the word entity, and a type has no package before it",
    "write u : entity work.k port map (..), and types by their own names",
);

pub const OTHER_TYPE: Said = (
    "isn't read here: such types and objects aren't served",
    "use std_logic, std_logic_vector, unsigned or an enumeration; a generic is an integer, natural or positive",
);

pub const BOOLEAN: Said = (
    "isn't read here: it is a type with --wide alone",
    "give --wide, or use std_logic, '1' for true and '0' for false, and test it by = '1'; make a generic a natural, 1 \
     or 0",
);

pub const SUBPROGRAM: Said = (
    "isn't read here: functions and procedures aren't served",
    "write the computation as a process with a variable, or as an entity of its own",
);

pub const PACKAGE: Said = (
    "isn't read here: packages of one's own aren't served",
    "declare its constants and types in the architecture that uses them",
);

pub const ATTRIBUTE: Said = (
    "isn't read here: attributes aren't declared or specified here",
    "leave the line out; it changes nothing that is simulated",
);

pub const ALIAS: Said = (
    "isn't read here: aliases aren't served",
    "write the name itself, or assign it to a signal of the other name",
);

pub const SUBTYPE: Said = (
    "isn't read here: subtypes are declared with --wide alone",
    "give --wide, or write the type with its range at each declaration",
);

pub const MODE: Said = (
    "isn't read here: ports are in or out",
    "take an in port and an out port; an out port can be read",
);

pub const WAIT: Said = (
    "isn't read here: a process doesn't wait",
    "write a register as process (clk) with if rising_edge(clk) then .. end if; inside, any other process as \
     process (all); what a testbench waits for stands in the stimulus",
);

pub const WAIT_HEAD: Said = (
    "isn't read here: a process waits at its head alone, for one edge, and has no list then",
    "write process begin wait until rising_edge(clk); what a testbench waits for stands in the stimulus",
);

pub const DELAY: Said = (
    "isn't read here: assignments have no delay",
    "leave out the delay; inputs change at times that the stimulus says",
);

pub const MESSAGE: Said = (
    "isn't read here: messages and assertions aren't served",
    "leave it out, and look at the trace",
);

pub const BLOCK: Said = (
    "isn't read here: blocks, guards and configurations aren't served",
    "write the statements in the architecture, and name the entity in the instance: entity work.name",
);

pub const OTHER_LOOP: Said = (
    "isn't read here: a loop is `for i in range loop`, and goes through its whole range",
    "write a for loop over all turns, with an if inside it",
);

pub const AGGREGATE: Said = (
    "isn't read here: the only aggregate is (others => value), and a formal is a whole port",
    "write a & b for (a, b), and \"0001\" for (0 => '1', others => '0'); or assign (others => '0') first and then \
     the element that differs",
);

/// A logical operator before one vector.
pub const REDUCTION: Said = (
    "isn't read here: a logical operator stands between two operands",
    "assign a variable the first element, and go on in a loop: for i in 1 to 7 loop p := p xor v(i); end loop;",
);

pub const SHIFT: Said = (
    "isn't read here: shifts and rotations aren't operators here",
    "write shift_left(p, 1) or shift_right(p, 1) of unsigned, or slices and &",
);

pub const ABSOLUTE: Said = (
    "isn't read here: there are no absolute values",
    "compare with 0, and subtract in the branch where the number is negative",
);

pub const POWER: Said = (
    "isn't read here: ** isn't served",
    "write the power as a number or as a generic",
);

pub const QUALIFIED: Said = (
    "isn't read here: qualified expressions aren't served",
    "leave out the type and the tick, or write a conversion: unsigned(..)",
);

pub const SECOND_INDEX: Said = (
    "isn't read here: a name has one index or slice",
    "assign the first part to a signal or variable, and index that",
);

/// Values in maps, and other values than literals in a default.
pub const ACTUAL: Said = (
    "begins what is no actual or default: a port map gives names of signals, a generic map whole numbers, a default \
     (others => '0') or (others => '1')",
    "give a generic a whole number; of a port assign the value to a signal first, and give that signal's name; a formal \
     has => behind it",
);

pub const DEFAULT: Said = (
    "can't stand here: a constant or default is one literal of its type, another constant, (others => value), or for \
     unsigned to_unsigned(5, 4)",
    "write (others => '0') or \"0101\" for a vector or unsigned, and to_unsigned(5, 4) for a number as unsigned; assign \
     what is computed to a signal",
);

/// What is no literal, behind `when` or `|`.
pub const CHOICE: Said = (
    "begins what is no choice: a choice is one literal of the selector's type or a constant, and | parts several",
    "write when \"00\" | \"01\" of a vector or unsigned, when '0' of one element, and a literal of an enumeration; numbers \
     are choices of case to_integer(u) is, with --wide",
);

/// Vector types without a range.
pub const VECTOR: Said = (
    "needs its range here, and no generic is of a vector type",
    "write std_logic_vector(7 downto 0); make a generic an integer, natural or positive",
);

/// Types of one element with a range.
pub const ELEMENT: Said = (
    "is one element: no range follows it, and no generic is of it",
    "write std_logic_vector(3 downto 0) for several; make a generic an integer, natural or positive",
);

pub const ORDER: Said = (
    "is served between unsigned and whole numbers alone",
    "write unsigned(v) < unsigned(w); compare elements and literals of an enumeration by = and /=",
);

pub const DYNAMIC_INDEX: Said = (
    "isn't read here: it is called with --wide alone",
    "give --wide, or write n = 5 for to_integer(n) = 5, and case v is, with choices as \"011\", for case \
     to_integer(unsigned(v)) is; for v(to_integer(p)) compare in a loop: for i in 0 to 3 loop if p = i then y <= v(i); \
     end if; end loop;",
);

/// Functions of numeric_std that are left out.
pub const FUNCTION: Said = (
    "is a function that isn't served here",
    "write n(5 downto 0) & n(7 downto 6) for rotate_left(n, 2) of 8 elements, a when a < b else b for minimum(a, b), and \
     v(3) = '1' and v(0) = '0' for std_match(v, \"1--0\")",
);

pub const SIGNED: Said = (
    "isn't served: numbers are unsigned",
    "use unsigned, with the sign extended by hand",
);

pub const TRUTH: Said = (
    "is a value of type boolean, which is read with --wide alone",
    "give --wide, or write '1' for true and '0' for false, as rst = '0', and 1 or 0 for a generic; a test needs no = \
     true, and is negated as not (n = 3)",
);

/// A library, or a package of one.
pub const LIBRARY: Said = (
    "is no library or package that is read here",
    "library ieee; use ieee.std_logic_1164.all; and use ieee.numeric_std.all; are read: see the spelling, or write what \
     another one gives by hand, as 4 for log2 of 16",
);

/// What else is left out.
pub const OTHER: Said = (
    "is VHDL that isn't served here, or not in this place",
    "see docs/LANGUAGE.md for what is read, and for the way round",
);
