//! The beginnings of an input.

use crate::answer::Answer;
use crate::calls::by_tool;
use crate::program::Program;
use crate::row::Row;
use crate::text::Text;
use std::alloc::Global;

/// How many beginnings of a row's input, the whole among them, are told by `tool` as each line of
/// the row says behind a number: with this status, and a first line that begins so.
pub fn by_beginnings<P: Program>(alloc: Global, program: &P, row: &Row<'_>) -> Answer {
    let told = told_of_each(alloc, program, row);
    let mut answer = Answer::new(alloc);
    for line in row.answer.err.as_str().lines() {
        let (_, text) = line.split_once(' ').unwrap_or((line, ""));
        answer.err.push_number(count_of(told.as_str(), text));
        answer.err.push(" ");
        answer.err.push_line(text);
    }
    answer.err.heed(&told);
    answer
}

/// A line for each beginning: the status, and the first line of the error output.
fn told_of_each<P: Program>(alloc: Global, program: &P, row: &Row<'_>) -> Text {
    let mut told = Text::new(alloc);
    let input = row.input.as_bytes();
    for end in 0..input.len() + 1 {
        let answer = by_tool(alloc, program, &row.words, &input[..end]);
        told.heed(&answer.err);
        told.push_number(usize::from(answer.status));
        told.push(" ");
        told.push_line(answer.err.as_str().lines().next().unwrap_or(""));
    }
    told
}

/// How many lines begin with a text.
fn count_of(lines: &str, text: &str) -> usize {
    lines.lines().filter(|line| line.starts_with(text)).count()
}
