//! What is wrong with a name, a type, a range or an instance, with what is told of each.

use crate::help::{ALL, ENTITY, IN, LIBRARY, MAP, OBJECT, SIGNAL, TO, TYPE, VARIABLE};
use crate::reading::MOST_TOKENS;
use crate::row::{Row, here, in_place, row};
use crate::texts::SPARE;
use vhdl_lexer::TokenKind;
use vhdl_parser_rules::Said;

const UNDERSCORE: &str = "write an underscore in its place, as in last_pulse";

const HYPHEN: Said = ("can't stand here: no hyphen stands in a name", UNDERSCORE);

const DASH: Said = (
    "can't stand here: a comment begins with two hyphens",
    "write -- before a comment",
);

const END_NAME: Said = (
    "can't stand here: behind an end stands one name at most",
    "write end architecture rtl; or end rtl;",
);

const USE_NAMES: Said = (
    "can't stand here: use names a library, a package of it, and all, with points between them",
    "write use ieee.numeric_std.all;",
);

const GENERICS_BEFORE: Said = (
    "can't stand here: `generic map` is expected before the parenthesis before it",
    MAP,
);

const UNDECLARED: Said = (
    "can't stand here: a declaration begins with its word, and has its type behind a `:`",
    "write signal s : std_logic; in an architecture, variable v : std_logic; in a process, and begin before the first statement",
);

const RANGE: Said = (
    "can't stand here: parentheses are expected around the range that it begins",
    TO,
);

/// What is wrong with a name, an end or a library.
pub static NAMES: [Row; 14] = [
    here!(HYPHEN, 1, [Identifier Minus Identifier] [Identifier Colon Identifier Assign Integer]),
    here!(HYPHEN, 1, [Identifier Minus Identifier] [Identifier RightParen Semicolon]),
    row!(HYPHEN, 1, [Identifier Minus Identifier Minus Identifier] 5, [Identifier]),
    row!(HYPHEN, 1, [Identifier Minus Identifier] 3, [Identifier]),
    row!(HYPHEN, 1, [Identifier Minus Integer] 3, [Identifier]),
    here!(("can't stand here: no hyphen stands in the name before it", UNDERSCORE),
        3, [Identifier Minus Identifier Arrow] [Identifier Arrow Identifier RightParen Semicolon]),
    row!(END_NAME, 3, [End Architecture Identifier Of Identifier] 5, [End Architecture Identifier]),
    row!(END_NAME, 2, [End Identifier Of Identifier] 4, [End Identifier]),
    row!(("can't stand here: `use` is expected in place of the library before it", LIBRARY),
        2, [Library Identifier Dot] 1, [Use]),
    in_place!("`use`", LIBRARY, [Identifier Identifier Dot] Use),
    row!(USE_NAMES, 3, [Use Identifier Dot All] 1, [Use Identifier Dot]),
    row!(USE_NAMES, 3, [Comma Identifier Dot All] 1, [Comma Identifier Dot]),
    row!(("can't stand here: `all` is expected in its place", "write process (all), or the names that it reads"),
        1, [LeftParen Star] 2, [LeftParen All]),
    here!(("can't stand here: all stands alone in a sensitivity list", "write process (all), or each name that is read"),
        1, [All] [All RightParen Begin]),
];

/// What is wrong with what is mapped; and a word too many.
pub static MAPPED: [Row; 14] = [
    row!(("can't stand here: the index of a loop has no type", IN), 0, [Colon Identifier In] 3, [In]),
    in_place!("`all`", ALL, [Star] All),
    row!(("can't stand here: parentheses are expected around it", "write process (all)"),
        0, [All] 1, [LeftParen All RightParen]),
    row!(("can't stand here: `entity` is expected in place of the component before it", ENTITY),
        2, [Component Identifier Dot] 1, [Entity]),
    row!(("can't stand here: the name of an architecture stands in parentheses behind its entity",
        "write entity work.e(rtl)"),
        2, [Dot Identifier Dot Identifier] 4, [Dot Identifier LeftParen Identifier RightParen]),
    row!(("can't stand here: `port map` is expected before the parenthesis before it", MAP),
        2, [LeftParen Identifier Arrow] 1, [Port Map LeftParen]),
    row!(GENERICS_BEFORE, 2, [LeftParen Identifier Arrow] 1, [Generic Map LeftParen]),
    row!(GENERICS_BEFORE, 1, [LeftParen Integer] 1, [Generic Map LeftParen]),
    row!(GENERICS_BEFORE, 3, [LeftParen Integer RightParen Port] 1, [Generic Map LeftParen]),
    here!(DASH, 0, [Minus] [Identifier LessEqual LeftParen Others Arrow Integer RightParen Semicolon]),
    here!(DASH, 0, [Minus][Signal]),
    row!(SPARE, 1, [In Range] 2, [In]),
    row!(SPARE, 1, [In Signal] 2, [In]),
    row!(SPARE, 1, [Out Signal] 2, [Out]),
];

/// What is wrong with a type.
pub static TYPES: [Row; 10] = [
    here!(("can't stand here: `(` is expected before it", TYPE),
        1, [Is Identifier Comma] [Is LeftParen Identifier RightParen Semicolon]),
    here!(("can't stand here: a type is declared by its values, and not by another type",
        "write type t is (a, b, c); and std_logic_vector(7 downto 0) itself at each signal that has that type"),
        1, [Is Identifier] [Is LeftParen Identifier RightParen Semicolon]),
    // Behind a range: so a label before a statement isn't taken for a name with its type.
    here!(("can't stand here: the name of a type is expected before it",
        "write type t is (a, b, c); above it, and then signal s : t;"),
        1, [Colon LeftParen Identifier Comma] [Colon Identifier LeftParen Integer Downto Integer RightParen Semicolon]),
    here!(("can't stand here: a range stands behind the type, and not behind the name",
        "write signal v : std_logic_vector(7 downto 0);"),
        1, [Identifier LeftParen] [Identifier Colon Identifier Assign Integer]),
    row!(("can't stand here: a type and `:=` are expected before the value", "write n : natural := 3"),
        1, [Colon Integer] 1, [Colon Identifier Assign]),
    // Behind another constant: so a name alone isn't taken for one.
    row!(("can't stand here: `:=` and a value are expected before it", "write constant n : integer := 9;"),
        0, [Semicolon] 0, [Assign Integer Semicolon Constant Identifier Colon Identifier Assign Integer]),
    // Before another signal: so a name alone isn't taken for one.
    row!(("can't stand here: `:` and a type are expected before it", "write signal s : std_logic;"),
        0, [Semicolon] 0, [Colon Identifier Semicolon Signal Identifier Colon Identifier]),
    in_place!("`signal` or `constant`", OBJECT, [Identifier Identifier Colon] Constant),
    in_place!("`signal`", SIGNAL, [Identifier Identifier Colon] Signal),
    in_place!("`variable`", VARIABLE, [Identifier Identifier Colon] Variable),
];

/// What is wrong with a range, or with the beginning of a declaration.
pub static RANGES: [Row; 11] = [
    in_place!("`type`", TYPE, [Identifier Identifier Is] Type),
    row!(UNDECLARED, 0, [Identifier Identifier] 2, [Signal Identifier Colon Identifier]),
    row!(UNDECLARED, 0, [Identifier Identifier] 2, [Variable Identifier Colon Identifier]),
    here!(UNDECLARED, 0, [Identifier LeftParen] [Signal Identifier Colon Identifier Semicolon]),
    here!(UNDECLARED, 0, [Identifier LeftParen] [Variable Identifier Colon Identifier Semicolon]),
    in_place!("`to` or `downto`", TO, [Comma] To),
    row!(("can't stand here: `downto` or `to`, and a bound, is expected before it",
        "write (7 downto 0) or (width - 1 downto 0), and not the length alone"),
        0, [RightParen] 0, [Downto Integer]),
    row!(("can't stand here: a range, an index or an argument is expected before it",
        "write v(7 downto 0), v(0) or rising_edge(clk), or leave the parentheses out"),
        1, [LeftParen RightParen] 1, [LeftParen Integer Downto Integer]),
    here!(RANGE, 0, [Integer Downto] [LeftParen Integer Downto Integer RightParen Semicolon]),
    here!(RANGE, 0, [Integer To] [LeftParen Integer To Integer RightParen Semicolon]),
    here!(RANGE, 0, [Identifier Minus Integer Downto] [LeftParen Integer Downto Integer RightParen Semicolon]),
];
