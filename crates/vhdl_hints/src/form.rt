//! What is told of one word, and what helps.

use vhdl_slips::Said;

pub const NO_EDGE: Said = (
    "is for something else than an edge alone, so that nothing is known to resume the process",
    "write wait until rising_edge(clk), and what stands beside the edge in an if behind it; a \
     process without an edge is process (all)",
);

pub const NO_NAME: Said = (
    "stands at the end of what has no name at its beginning",
    "leave it out, or put it and a colon before what ends here",
);

pub const LITERALS: Said = (
    "doesn't name each literal of its enumeration, and has no others",
    "add a choice for the literal that is missing, or others as the last one",
);

pub const INDEX: Said = (
    "is the index of a loop or generate above, and isn't known behind the end of that",
    "use it between loop and end loop, or generate and end generate; write a number or a constant elsewhere",
);

pub const BELOW: Said = (
    "is declared below, and not within sight of this place",
    "move its declaration above this place",
);

pub const ELSEWHERE: Said = (
    "is declared in this file, but not within sight of this place",
    "declare it above this place as a signal of this architecture: a variable is known in its process alone, and a \
     signal or constant in its architecture alone; what the range of a port names is a generic",
);

pub const FORMAL_TWICE: Said = (
    "is associated a second time in one map",
    "see which port or generic is meant here: each is associated once",
);

pub const PORT_TWICE: Said = (
    "is a port of the entity already",
    "leave out this declaration, or take another name for the signal",
);

pub const NO_VARIABLE: Said = (
    "is no variable, and := assigns variables alone",
    "assign a signal by <=; a constant, a generic and the index of a loop aren't assigned",
);

pub const NO_SIGNAL: Said = (
    "is no signal, and <= assigns signals alone",
    "assign a variable by :=; a constant, a generic and the index of a loop aren't assigned",
);

pub const ITSELF: Said = (
    "is the name of this declaration itself, and no type",
    "write a type behind the colon, as std_logic, or the name of a type that is declared above",
);

pub const LIBRARY: Said = (
    "is a library that no library clause of this unit names",
    "see its spelling, and write library ieee; above a use of ieee; an entity is one of library work: entity work.stage",
);

pub const FORMAL_ARROW: Said = (
    "is a generic or port of the entity here, and => follows it in a map",
    "write => between it and what it is connected to, as clk => clk or width => 8",
);

pub const LISTED: Said = (
    "is no signal or port, and a sensitivity list names these alone",
    "name the signal alone, as process (clk) for process (rising_edge(clk)), or leave it out: a constant or generic \
     doesn't change in a run, and a variable is known in its process alone",
);

pub const CAST: Said = (
    "is a type of one element, of whole numbers or boolean, and converts nothing",
    "leave it and its parentheses out: one element of a vector or of unsigned is a std_logic already; with --wide \
     to_integer(n) is a whole number of unsigned n, and s = '1' a boolean of one element s",
);

pub const OTHERS: Said = (
    "is the last choice, and stands alone",
    "put the choice others last, and join no other one to it by |",
);

/// Words of the packages that are read, and one that is reserved, which may be meant.
pub static WORDS: [&str; 14] = [
    "others",
    "rising_edge",
    "falling_edge",
    "std_logic",
    "std_logic_vector",
    "std_ulogic",
    "std_ulogic_vector",
    "unsigned",
    "to_unsigned",
    "resize",
    "shift_left",
    "shift_right",
    "integer",
    "natural",
];

pub const ARCHITECTURE: Said = (
    "is no architecture of this entity",
    "write the name between the words architecture and of, as rtl in entity work.k(rtl), or leave the parentheses out",
);
