//! What the program prints for the rows of a table of small sources, in the words of the table.

use crate::calls::by_tool;
use crate::frame::Frame;
use crate::program::Program;
use crate::table::{Teller, tell_otherwise, tell_table};
use crate::text::Text;
use std::alloc::Global;
use std::io;
use std::rt::Files;

/// What the rows of a table tell of the program's answer.
#[derive(Clone, Copy)]
pub enum Told {
    /// Whether names and types are right.
    Names,
    /// The lines of the netlist.
    Lines,
    /// How many nets and processes the netlist has.
    Counts,
}

/// Prints tables of small sources, as rows_calls reads them: a row is a call of `net`, of which it
/// tells a few words. With `--wide` the rows are printed that are answered otherwise then.
///
/// # Errors
///
/// Those of reading a table, of printing, and of memory.
pub fn tell_sources<R: Files + Print + AllocGlobal, P: Program>(
    rt: &R,
    program: &P,
    tables: &[(&str, Told)],
    is_wide: bool,
) -> io::Result<()> {
    for (table, told) in tables {
        let teller = Calls {
            program,
            told: *told,
            is_wide,
        };
        if is_wide {
            tell_otherwise(rt, table, &teller)?;
        } else {
            tell_table(rt, table, &teller)?;
        }
    }
    Ok(())
}

/// The program, and what rows tell of its answers.
#[derive(Drop)]
struct Calls<'a, P: Program> {
    program: &'a P,
    told: Told,
    is_wide: bool,
}

impl<P: Program> Teller for Calls<'_, P> {
    /// The answer to a call of `net`: what is told of the netlist, or the fault's name, where it
    /// stands at the text's mark if it has one.
    fn told(&self, alloc: Global, frame: Frame<'_>, written: &str, found: &mut Text) {
        let (source, place) = frame.source_of(alloc, written);
        let words = ["net", "--wide", "@", self.told.top()];
        let plain = ["net", "@", self.told.top()];
        let words: &[&str] = if self.is_wide { &words } else { &plain };
        let answer = by_tool(alloc, self.program, words, source.as_bytes());
        found.heed(&source);
        if answer.status == 0 {
            push_lines(found, answer.out.as_str(), self.told.most_lines());
        } else {
            let mark = written.find('^').is_some().then_some(place);
            self.told.push_line(found, answer.err.as_str().trim(), mark);
        }
    }
}

impl Told {
    /// The top: no source has one that is no identifier, and so the answer is NoTop where names and
    /// types are right.
    fn top(self) -> &'static str {
        match self {
            Told::Names => "0",
            Told::Lines | Told::Counts => "t",
        }
    }

    /// How many lines of a netlist are told at most.
    fn most_lines(self) -> usize {
        match self {
            Told::Counts => 2,
            Told::Names | Told::Lines => usize::MAX,
        }
    }

    /// Adds what is told of a fault's line: the line itself where the fault isn't at the mark.
    fn push_line(self, found: &mut Text, line: &str, mark: Option<usize>) {
        match line.split_once(" at ") {
            Some((said, byte)) if mark.is_none() || byte.parse::<usize>().ok() == mark => {
                self.push_fault(found, said)
            }
            _ => found.push(line),
        }
    }

    /// Adds what is told of a fault, of a text `rtlsim: LAYER NUMBER NAME`.
    fn push_fault(self, found: &mut Text, said: &str) {
        let (_, said) = said.split_once(' ').unwrap_or((said, ""));
        let (layer, said) = said.split_once(' ').unwrap_or((said, ""));
        let (number, name) = said.split_once(' ').unwrap_or((said, ""));
        if layer == "lex" {
            found.push("lexer's fault ");
            found.push(number);
        } else if layer == "syntax" {
            found.push("syntax ");
            found.push(number);
        } else if layer == "elab" && matches!(self, Told::Names) {
            found.push("analysed");
        } else {
            found.push(name);
        }
    }
}

/// Adds the first lines of a text, with `; ` between them.
fn push_lines(found: &mut Text, text: &str, most: usize) {
    let mut between: &[u8] = b"";
    for line in text.lines().take(most) {
        found.push_bytes(between);
        found.push(line);
        between = b"; ";
    }
}
