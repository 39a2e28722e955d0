//! What is told of a change: what is wrong, and what helps.

use crate::help::{ASSIGN, COMPARE, END, OUTSIDE, SELECT, TO};
use vhdl_parser_rules::Said;

pub const TWICE: Said = ("is written twice", "leave one of the two out");

pub const SHIFT: Said = (
    "can't stand here: a shift is a function of unsigned",
    "write shift_left(u, 1) or shift_right(u, 1)",
);

pub const SIGN: Said = (
    "can't stand here: no sign stands behind an operator",
    "write u - 1 for u + -1, and u + 1 for u - -1",
);

pub const BOUND: Said = ("can't stand here: a bound is expected before it", TO);

pub const RELATION: Said = (
    "can't stand here: a relation stands before it, and none follows another",
    "join relations by and or or: a = '1' and b = '0'",
);

pub const OTHERS: Said = (
    "can't stand here: parentheses are expected around it and its value",
    "write (others => '0')",
);

pub const ALONE: Said = (
    "can't stand here: (others => value) stands alone behind <= or :=, since its length is that of the target",
    "write a literal of its length in place of it: \"000\" & d",
);

pub const STEP: Said = (
    "can't stand here: an assignment has no operator in it",
    "write n <= n + 1; for a signal, and n := n + 1; for a variable",
);

pub const UNTYPED: Said = (
    "can't stand here: `:` and a type are expected before the value",
    "write constant n : integer := 9; or signal s : std_logic := '0';",
);

pub const OF_GENERATE: Said = (
    "can't follow this end: it ends a generate",
    "write end generate;",
);

pub const RESERVED: Said = (
    "is a reserved word, and no name",
    "take another name, wherever it stands",
);

pub const UNEQUAL: Said = (
    "can't stand here: `/=` is expected in place of it and the delimiter before it",
    COMPARE,
);

pub const BLANK: Said = (
    "can't stand here: no blank stands within a delimiter",
    "write <=, >=, :=, => and /= in one",
);

pub const LITERAL: Said = (
    "can't stand here: a literal of one element has a ' on both sides",
    "write '0', or '1'",
);

pub const SPARE_BEFORE: Said = (
    "can't stand here: the `;` before it is one too many",
    "leave that out",
);

pub const PARTED: Said = (
    "can't stand here: `,` is expected in place of the `;` before it",
    SELECT,
);

pub const VALUE: Said = ("can't stand here: `:=` is expected before it", ASSIGN);

pub const ASSIGNED: Said = ("can't stand here: `<=` is expected before it", ASSIGN);

pub const EITHER: Said = (
    "can't stand here: `<=` or `:=` is expected before it",
    ASSIGN,
);

pub const AROUND: Said = (
    "can't stand here: parentheses are expected around it",
    "write process (a, b)",
);

pub const MODE_IN: Said = (
    "can't stand here: the mode of a port stands between its `:` and its type",
    "write a : in std_logic",
);

pub const MODE_OUT: Said = (
    "can't stand here: the mode of a port stands between its `:` and its type",
    "write y : out std_logic",
);

pub const NO_PORT: Said = (
    "can't stand here: ports alone have a mode, and are declared in the entity",
    "declare it in the port list of the entity, or as a signal without a mode: signal a : std_logic;",
);

pub const NO_DECLARATION: Said = (
    "can't stand here: an entity has generics and ports alone here",
    "declare it in the architecture, before its begin; what the range of a port names is a generic",
);

pub const TWO_MODES: Said = (
    "can't stand here: a port has one mode, in or out",
    "take an in port and an out port in place of one that is both; an out port can be read",
);

pub const TARGET: Said = (
    "can't stand here: the target of an assignment is one name",
    "write its name alone, or : behind a label",
);

pub const INDEX: Said = (
    "can't stand here: an operator, a comma or `downto` is expected before it",
    "write (7 downto 0), (i + 1), or (n, 8) in a conversion",
);

pub const NO_END: Said = (
    "can't stand here: `end` is expected before the word before it",
    END,
);

pub const NO_IF: Said = (
    "can't stand here: no if is open above it, or the else of that has begun",
    "write if .. then above it, move it before the end if; that is above it, or put the else last; in a case write when others =>",
);

pub const ELSE_BEGUN: Said = (
    "can't stand here: the else of the if above it has begun, or `end if;` is expected before it",
    "put the else of an if last, behind each elsif; or end an if inside another one by end if;",
);

pub const NO_CASE: Said = (
    "can't stand here: no case has begun above it",
    "write case s is above its first when",
);

pub const NO_PROCESS: Said = (
    "can't stand here: it belongs in a process",
    "write process (all) begin above it, and end process; below its end",
);

pub const OPEN_PROCESS: Said = (
    "can't stand in a process: `end process;` is expected above it",
    OUTSIDE,
);

pub const ARGUMENT: Said = (
    "isn't read here: no attribute takes an argument",
    "leave the (1) of 'length(1) or 'range(1) out, and write the value itself in place of 'image, 'pos or 'val",
);

pub const OPERATOR: Said = (
    "can't stand here: an operator, as `and` or `&`, is expected before it",
    "write what joins it to the name, literal or parenthesis before it",
);

pub const UNREAD: Said = (
    "isn't read here",
    "see docs/LANGUAGE.md for what is read, and for the way round",
);

pub const SPARE: Said = (
    "can't stand here, and what follows goes on without it",
    "leave it out",
);

pub const COMMENT: Said = (
    "can't stand here: a comment begins with -- on each of its lines, and elsewhere no words follow one another so",
    "write -- before what is a comment",
);

pub const MERGE: Said = (
    "can't stand here: the mark of a merge isn't VHDL",
    "keep one of the two texts, and drop the lines <<<<<<<, ======= and >>>>>>>",
);
