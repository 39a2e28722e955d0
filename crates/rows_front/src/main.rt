//! Rows of the values, the lexer and the parser, and of explanations of what is refused: reads the
//! tables in `data/`, and prints for each row what is made of it.
//!
//! A row that is as expected is printed as it stands in its table; of any other it is said what was
//! found. So the transcript is the tables, comments aside, and what is told of the files whose
//! beginnings are parsed.
#![tactic(auto)]

mod answers;
mod asked;
mod beginnings;
mod calls;
mod explained;
mod fault;
mod operands;
mod problems;
mod source;
mod table;
mod tokens;
mod trees;

use beginnings::tell_beginnings;
use fault::push_fault;
use rows_calls::{Text, tell_table};
use std::io;
use std::rt::Files;
use table::Table;
use vhdl_lexer::LexFault;
use vhdl_parser_rules::SyntaxFault;

/// The tables of the front end, with what their rows are.
static TABLES: [(&str, Table); 14] = [
    ("values/std_logic_1164.rows", Table::Values),
    ("values/numeric_std.rows", Table::Values),
    ("values/lengths.rows", Table::Values),
    ("values/calls.rows", Table::Values),
    ("lexer/tokens.rows", Table::Tokens),
    ("lexer/faults.rows", Table::Tokens),
    ("lexer/integers.rows", Table::Integers),
    ("parser/units.rows", Table::Texts),
    ("parser/concurrent.rows", Table::Texts),
    ("parser/sequential.rows", Table::Texts),
    ("parser/expressions.rows", Table::Texts),
    ("parser/levels.rows", Table::Texts),
    ("parser/trees.rows", Table::Trees),
    ("parser/faults.rows", Table::Trees),
];

/// The files of whose beginnings it is told what is made.
const FILES: [&str; 5] = [
    "parser/entity.vhd",
    "parser/declarations.vhd",
    "parser/processes.vhd",
    "parser/expressions.vhd",
    "parser/units.vhd",
];

fn main(rt: HostRuntime) -> io::Result<()> {
    for (file, table) in &TABLES {
        tell_table(&rt, file, table)?;
    }
    tell_refusals(&rt)?;
    for file in &FILES {
        tell_beginnings(&rt, file)?;
    }
    tell_table(&rt, "refused.rows", &Table::Refused)?;
    tell_table(&rt, "problems.rows", &Table::Problems)
}

/// Prints what is told where memory is refused.
fn tell_refusals(rt: &(impl Files + Print + AllocGlobal)) -> io::Result<()> {
    let (list, tree) = (LexFault::NoMemory, SyntaxFault::NoMemory);
    let mut told = Text::new(rt.alloc());
    told.push("\na list that cannot grow → ");
    push_fault(&mut told, list.number(), list.byte(), &list);
    told.push("\nwhat cannot grow → ");
    push_fault(&mut told, tree.number(), tree.byte(), &tree);
    told.push("\n");
    told.print(rt)
}
