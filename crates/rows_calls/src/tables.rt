//! What is printed of tables of calls.

use crate::answer::Answer;
use crate::calls::{WAYS, Way, wrong_answer};
use crate::names::named;
use crate::program::Program;
use crate::row::Row;
use crate::text::Text;
use std::rt::Files;
use std::{fs, io};

/// Prints tables of calls, each row with its answer and its calls, and what a call gives that
/// answers otherwise. It is told of a row or a call, too, that it isn't known. With `--wide` the
/// rows are printed that are answered otherwise then, with that answer.
///
/// # Errors
///
/// Those of reading a table, of printing, and of memory.
pub fn tell_calls<R: Files + Print + AllocGlobal, P: Program>(
    rt: &R,
    program: &P,
    tables: &[&str],
    is_wide: bool,
) -> io::Result<()> {
    for table in tables {
        if !is_wide {
            println!(rt; "{table}")?;
        }
        let text = fs::read_to_string(rt, table)?;
        tell_rows(rt, program, text.as_str(), is_wide)?;
    }
    Ok(())
}

/// Prints the rows of a table, each of which begins with `$` at the head of a line.
fn tell_rows<R: Files + Print + AllocGlobal, P: Program>(
    rt: &R,
    program: &P,
    text: &str,
    is_wide: bool,
) -> io::Result<()> {
    if let Some((_, rows)) = text.split_once("\n$") {
        for part in rows.split("\n$") {
            let told = if is_wide {
                told_widely(rt, program, part)
            } else {
                told_row(rt, program, part)
            };
            told.print(rt)?;
        }
    }
    Ok(())
}

/// A row with its answer and its calls, and what a call gives that answers otherwise.
fn told_row<R: Files + AllocGlobal, P: Program>(rt: &R, program: &P, part: &str) -> Text {
    let mut told = Text::new(rt.alloc());
    let row = Row::read(rt, part);
    told.heed(&row.input);
    told.heed(&row.answer.out);
    told.heed(&row.answer.err);
    push_row(&mut told, &row);
    for call in row.calls.split(' ') {
        push_call(&mut told, rt, program, &row, call);
    }
    told
}

/// A row's words and what a call gives with `--wide`, where that is another answer.
fn told_widely<R: Files + AllocGlobal, P: Program>(rt: &R, program: &P, part: &str) -> Text {
    let mut told = Text::new(rt.alloc());
    let mut row = Row::read(rt, part);
    if row.widen()
        && let Some(answer) = wrong_answer(rt, program, &row, &Way::Files)
    {
        told.push(row.line);
        told.push(", with --wide: ");
        push_answer(&mut told, &answer);
    }
    told
}

/// Adds a row's words, its answer and its calls.
fn push_row(told: &mut Text, row: &Row<'_>) {
    told.push(row.line);
    told.push(": ");
    told.push_number(usize::from(row.answer.status));
    told.push(" ");
    told.push(row.told());
    told.push(", by ");
    told.push_line(row.calls);
    if row.is_wrong {
        told.push_line("NOT read");
    }
}

/// Adds what a call gives, where it isn't what the row says.
fn push_call<R: Files + AllocGlobal, P: Program>(
    told: &mut Text,
    rt: &R,
    program: &P,
    row: &Row<'_>,
    call: &str,
) {
    let Some(way) = named(&WAYS, call) else {
        return told.push_line("NOT by a call that is known");
    };
    if let Some(answer) = wrong_answer(rt, program, row, way) {
        told.push("NOT by ");
        told.push(call);
        told.push(": ");
        push_answer(told, &answer);
    }
}

/// Adds a status, and what went to both outputs.
fn push_answer(told: &mut Text, answer: &Answer) {
    told.push_number(usize::from(answer.status));
    told.push("\n");
    told.push(answer.out.as_str());
    told.push_line(answer.err.as_str());
}
