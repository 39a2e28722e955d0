//! Slips of the pen: what is said of each.

use crate::form::Said;

pub const LOOP_RANGE: Said = (
    "can't stand here: it follows the range of a for, which has both bounds",
    "write for i in 0 to 3 loop; an if goes on with then",
);

pub const GENERATE: Said = (
    "can't stand here: loops stand in processes, and outside of them a for or if goes on with generate",
    "write g : for i in 0 to 3 generate, and end generate; behind its statements",
);

pub const ELSE_GENERATE: Said = (
    "can't stand here: a generate has no else or elsif, and in an assignment else follows a condition, with no `;` between",
    "write y <= a when s = '1' else b;, and in place of else generate another generate of the opposite condition",
);

pub const CASE_GENERATE: Said = (
    "can't stand here: a case stands in a process, and no generate is one",
    "write process (all) begin above it, and end process; below its end; in place of case generate write an if \
     generate for each choice: g0 : if n = 0 generate",
);

pub const GENERICS: Said = (
    "can't stand here: generics stand before ports",
    "move it before the ports: generic (..); port (..); in an entity, generic map (..) port map (..) in an instance",
);

pub const UNENDED: Said = (
    "can't follow this end: what begins last above it is ended by its own word",
    "write end if, end case, end loop, end process, end generate, end component or the unit's own end, as it has \
     to be ended, before anything else ends",
);

pub const CONDITIONAL: Said = (
    "isn't read here: an assignment has when outside of processes alone",
    "write if .. then .. else .. end if; write end process; above it, where that is missing",
);

/// `when` outside of processes, where no assignment goes on with it.
pub const WHEN: Said = (
    "can't stand here: it follows a value, with no `;` between and outside of parentheses",
    "write y <= a when s = '1' else b; without parentheses round it, and with one `;` at its end",
);

pub const CASE_IS: Said = (
    "can't stand here: a case goes on with is",
    "write case a is before its first when",
);

pub const SELECTED: Said = (
    "can't stand here: no assignment begins before it",
    "in a selected assignment write a comma, and no `;`, between a choice and the next value",
);

pub const WHEN_LINE: Said = (
    "can't stand here, at the beginning of a line",
    "put at the end of the line before a `;` or is, where that is missing; in a process no assignment has \
     when: write if .. then .. else .. end if",
);

/// The next alternative of a case, in which something isn't ended.
pub const ALTERNATIVE: Said = (
    "can't stand here: an if or loop above it lacks its end, or its case is ended above it",
    "write end if; or end loop; above it where that is missing; else if opens an if of its own, which needs \
     its own end: write elsif",
);

pub const OTHERS: Said = (
    "can't stand here: (others => value) stands alone behind <= or :=, and others alone as a choice",
    "assign (others => '0') to a signal and name that here; in place of (a, others => '0') assign the whole \
     first and then the element that differs",
);

/// `=>` in place of `<=`, `:=` or `>=`.
pub const ARROW: Said = (
    "can't stand here: it follows a choice, a formal or others",
    "assign a signal by <= and a variable by :=, compare by >=, and write when before a choice",
);

pub const COMMA: Said = (
    "can't stand here: (a, b) isn't read, and ports, generics and statements are parted by `;`",
    "write a & b for the vector (a, b), or `;` where one declaration ends and the next begins",
);

pub const CHOICES: Said = (
    "can't stand here: choices are parted by |",
    "write when a | b",
);

pub const CHOICE_RANGE: Said = (
    "isn't read here: a choice is one value, and no range",
    "write each value, parted by |: when \"00\" | \"01\"; a whole number has when 0 to 3 with --wide",
);

pub const NAMES: Said = (
    "can't stand here: the names of a list are parted by commas",
    "write process (a, b) in place of process (a or b)",
);

pub const MIXED_LOGIC: Said = (
    "can't follow here: different logical operators need parentheses between them, and so do nand and nor",
    "put parentheses: (a and b) or c",
);

pub const LOGIC: Said = (
    "can't stand here: logical operators are words, and | parts choices",
    "write and for &&, or for | and ||",
);

pub const EQUALITY: Said = (
    "doesn't assign: it compares two values",
    "assign a signal by <= and a variable by :=, and write := before the value in a declaration",
);

pub const EQUALITIES: Said = (
    "follows another =, and one = compares",
    "write a = b where both are equal, and a /= b where they differ",
);

pub const ELSE_CONDITION: Said = (
    "can't stand here: behind else stands a value or a statement, and no condition",
    "write elsif b = '1' then, or else a when b = '1', where the else has a condition; assign a signal by <= \
     and a variable by :=",
);

pub const COMMENT: Said = (
    "can't stand here: it divides two values, and a comment begins with --",
    "write -- in place of //, and /= in place of =/",
);

pub const QUOTES: Said = (
    "can't stand here: one character stands between two single quotes, and several between double quotes",
    "write '0' for one element, and \"0101\" for several",
);

pub const FORMAL: Said = (
    "can't stand here: no point stands before a formal",
    "write port map (a => b) for .a(b)",
);

pub const PORT_MAP: Said = (
    "can't stand here: in parentheses behind a name stands one index or range, and the ports of an instance \
     stand behind port map",
    "write u : entity work.k port map (a => a, y => y)",
);

/// A range behind a type where a declaration doesn't go on so.
pub const VECTOR_GENERIC: Said = (
    "can't stand here: a generic is an integer, natural or positive",
    "make the generic a natural, and convert it where it is used",
);

pub const TARGET: Said = (
    "can't stand here: the target of an assignment is one name",
    "assign each part by a statement of its own: c <= v(1); s <= v(0);",
);

pub const NAME: Said = (
    "can't stand here: a declaration goes on with a name",
    "take another name: it begins with a letter, and reserved words as next, bus, range or open are none",
);

pub const LOOP_NAME: Said = (
    "can't stand here: the name of an index follows for, and no parenthesis",
    "write for i in 0 to 3 loop, or g : for i in 0 to 3 generate",
);

/// `begin` behind a `)` that isn't that of a process.
pub const BEGIN: Said = (
    "can't stand here: it begins the statements of a process, an architecture or a generate",
    "see whether the word process before it is misspelt; an if goes on with then, a loop with loop, a case with is",
);

pub const BEGIN_LINE: Said = (
    "can't stand here, at the beginning of a line",
    "put a `;` at the end of the line before, where that is missing; see whether the word process is misspelt there",
);

pub const DECLARATION: Said = (
    "can't stand here: a process declares variables alone, and no declaration stands among statements",
    "declare it in the architecture, before its begin, for a generate as a vector with an element for each turn",
);

pub const VARIABLE: Said = (
    "can't stand here: a variable is declared in a process, before its begin",
    "move it between process (..) and the begin of that; in an architecture declare a signal",
);

pub const DECLARATION_LINE: Said = (
    "can't stand here, at the beginning of a line",
    "put a `;` at the end of the line before, where that is missing; a process declares variables alone: \
     declare it in the architecture, before its begin, for a generate as a vector with an element for each turn",
);

pub const LIST_END: Said = (
    "can't stand here: a `;` stands before it, and none stands behind the last port or generic of a list",
    "drop the `;` behind the last port or generic, or the `)` where it ends no list",
);

pub const NEW_LINE: Said = (
    "can't stand here, at the beginning of a line",
    "put at the end of the line before what is missing there: a `;`, or then, is, begin, loop or generate",
);

/// Anything else.
pub const SLIP: Said = (
    "can't stand here",
    "see whether a word as then or is, an end if, a parenthesis or a `;` before it is missing or misspelt",
);
