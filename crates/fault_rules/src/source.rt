//! The rules on the text of a source: on its tokens, its grammar, its names and types, and its
//! elaboration.

ghost use Rattle.fault_rules.specs.Rules.{
  AreWords,
  elaboration_words,
  grammar_words,
  lexing_words,
  naming_words,
};

use crate::words::{Words, rule};

/// The rules on tokens.
#[derive(Clone, Copy)]
pub enum LexRule {
    BadByte,
    OpenComment,
    OpenString,
    BadIdentifier,
    BadNumber,
    TooLong,
}

/// What is said of each, in their order.
static LEXING: [Words<&str>; 6] = [
    rule! { lex 1 BadByte: WORD "begins nothing that is read here"
        => "write printable ASCII alone, in strings too: no accents, no typographic quotes, no byte order mark; ?=, ^ \
            and names in backslashes aren't read; for @(posedge clk) write process (clk), and if rising_edge(clk) \
            then in it" },
    rule! { lex 2 OpenComment: WORD "opens a comment that isn't closed"
        => "close it by */, or begin each line of it with --" },
    rule! { lex 3 OpenString: WORD "opens a string that isn't closed on its line"
        => "put the closing quotation mark on the same line, and join long strings by &; one element stands between \
            two ticks, as '0'" },
    rule! { lex 4 BadIdentifier: WORD "is no name: an underscore stands alone, between letters or digits"
        => "drop the underscore at the beginning or end, or the second of two" },
    rule! { lex 5 BadNumber: WORD "begins a number that isn't read"
        => "write a whole number up to 2147483647 in decimal digits, or a string of bits as x\"1F\", o\"17\" or \
            b\"01\"; a name begins with a letter" },
    rule! { lex 6 TooLong: WORD "stands behind the 4194304 bytes that a source may have"
        => "split the design, and check its parts one by one" },
];

impl LexRule {
    /// What is said of it.
    pub fn words(self) -> &'static Words<&'static str>
        ensures { AreWords (lexing_words self) result.now }
    {
        &LEXING[self as usize]
    }
}

/// The rules of grammar.
#[derive(Clone, Copy)]
pub enum SyntaxRule {
    /// No file goes on so. The sentence and the help are those of the form that stands there.
    Unexpected,
    EndOfFile,
    TooDeep,
}

/// What is said of each, in their order.
static GRAMMAR: [Words<&str>; 3] = [
    rule! { syntax 1 Unexpected },
    rule! { syntax 2 EndOfFile: WORD "comes where something more has to stand"
        => "see which unit, process, if, case or loop lacks its end, and whether the last end lacks its `;`" },
    rule! { syntax 3 TooDeep: WORD "is more than 64 parentheses, ifs, cases and loops deep"
        => "take the innermost part out into a signal, a process or an entity of its own" },
];

impl SyntaxRule {
    /// What is said of it.
    pub fn words(self) -> &'static Words<&'static str>
        ensures { AreWords (grammar_words self) result.now }
    {
        &GRAMMAR[self as usize]
    }
}

/// The rules on names and types.
#[derive(Clone, Copy)]
pub enum NameRule {
    Undeclared,
    Twice,
    WrongKind,
    TypeMismatch,
    NotVisible,
    WriteOfIn,
    NoOthers,
    ChoiceTwice,
    SecondArchitecture,
    NoSensitivity,
    /// It is VHDL that is left out. The sentence and the help are those of the form that stands
    /// there.
    LeftOut,
}

/// What is said of each, in their order.
static NAMING: [Words<&str>; 11] = [
    rule! { name 1 Undeclared: WORD "isn't declared before this place, or not within sight of it"
        => "correct its spelling, or declare it above; where it is an entity in another file, give that file by \
            --with; an instance without a component names its entity as entity work.stage" },
    rule! { name 2 Twice: WORD "is declared or associated a second time"
        => "give one of the two another name, or drop it; in one architecture each port, signal, constant, literal, \
            label and component has a name of its own, capitals and small letters alike" },
    rule! { name 3 WrongKind: WORD "names something else than what has to stand here, or stands in the wrong place"
        => "see what it is declared as: a value is that of a signal, port, variable, constant, generic or literal; a \
            declaration has a type behind its colon, an instance an entity or a component" },
    rule! { name 4 TypeMismatch: WORD "or what begins with it has a type that doesn't fit here, or it takes no such \
        operand, index or argument"
        => "see how each side is declared: one element, a vector, unsigned, a literal of an enumeration, a whole \
            number or a test; unsigned(v), std_logic_vector(n) and to_unsigned(5, 8) convert" },
    rule! { name 5 NotVisible: WORD "is in a package that no use clause names"
        => "write library ieee; use ieee.std_logic_1164.all; and, for unsigned, use ieee.numeric_std.all; before the \
            entity" },
    rule! { name 6 WriteOfIn: WORD "is an in port, which can't be assigned inside"
        => "declare it as out, or assign a signal" },
    rule! { name 7 NoOthers: WORD "doesn't name each value that its selector may have, and has no others"
        => "let others be the last choice: in a case `when others =>`, in a with .. select `, b when others`; \
            std_logic has nine values and not two" },
    rule! { name 8 ChoiceTwice: WORD "is a choice that an earlier one has already"
        => "drop one of the two choices" },
    rule! { name 9 SecondArchitecture: WORD "is a second architecture of its entity"
        => "keep one architecture of the entity in all files together, or name behind `of` the entity that is meant" },
    rule! { name 10 NoSensitivity: WORD "has no sensitivity list"
        => "write process (all), or the clock and the asynchronous reset of a register: process (clk, rst)" },
    rule! { name 11 LeftOut },
];

impl NameRule {
    /// What is said of it.
    pub fn words(self) -> &'static Words<&'static str>
        ensures { AreWords (naming_words self) result.now }
    {
        &NAMING[self as usize]
    }
}

/// The rules of elaboration.
#[derive(Clone, Copy)]
pub enum ElabRule {
    NoTop,
    NoGeneric,
    GenericRange,
    StaticError,
    Length,
    Index,
    TooWide,
    Unassociated,
    TwoUnresolved,
    ReadOfShared,
    TooDeep,
    TooMany,
}

/// What is said of each, in their order.
static ELABORATION: [Words<&str>; 12] = [
    rule! { elab 1 NoTop: WORD "the entity that is named here or as TOP isn't in the text, or has no architecture"
        => "see the spelling of TOP; the architecture stands in the same file, or in one that is given by --with" },
    rule! { elab 2 NoGeneric: WORD "is a generic that gets no value and has no default"
        => "give it a value in the generic map of each instance of this entity, or a default here; the top has no \
            generic map, so that its generics need defaults" },
    rule! { elab 3 GenericRange: WORD "is a value outside of its type"
        => "see its default and what each generic map gives it: a natural is at least 0, a positive at least 1, what \
            has a range lies in that, and all are at most 2147483647" },
    rule! { elab 4 StaticError: WORD "can't be computed"
        => "see whether it divides by 0, goes past what an integer holds, or is negative where a length or count \
            stands" },
    rule! { elab 5 Length: WORD "stands where lengths of " LENGTHS " meet that have to be equal"
        => "write both with one length: a slice, a & at the end, or resize(n, 8)" },
    rule! { elab 6 Index: WORD "has an index or slice outside of what is declared or against its direction, or a range \
        without elements"
        => "see the bounds and their direction: (7 downto 0) or (0 to 7); both sides of and, and branches that are \
            never taken, are computed too" },
    rule! { elab 7 TooWide: WORD "has more than 64 elements"
        => "split the vector into several of at most 64 elements" },
    rule! { elab 8 Unassociated: WORD "leaves an in port open that has no default"
        => "associate it in the port map, or give the port a default" },
    rule! { elab 9 TwoUnresolved: WORD "has two sources and is of an unresolved type"
        => "let one process drive it; std_logic resolves several, and std_ulogic, integers, booleans and \
            enumerations don't" },
    rule! { elab 10 ReadOfShared: WORD "is an out port that is read inside, and several drive it or one of its elements"
        => "see whether two slices that are assigned overlap, and let one process or instance drive each element; \
            where several are meant, read a signal that one alone drives, and assign the port from it" },
    rule! { elab 11 TooDeep: WORD "is more than 32 instances deep"
        => "see whether an entity instantiates itself without an end" },
    rule! { elab 12 TooMany: WORD "goes past the limits: 65536 processes, 65536 instances, 1048576 nets"
        => "see the ranges of generates, and split the design" },
];

impl ElabRule {
    /// What is said of it.
    pub fn words(self) -> &'static Words<&'static str>
        ensures { AreWords (elaboration_words self) result.now }
    {
        &ELABORATION[self as usize]
    }
}
