//! The calls by which a row is made.

use crate::answer::Answer;
use crate::beginnings::by_beginnings;
use crate::failing::{wrong_by_endless, wrong_by_reads, wrong_by_shows, wrong_by_writes};
use crate::program::Program;
use crate::row::Row;
use crate::text::Text;
use byte_streams::{In, Reader};
use std::alloc::Global;
use std::rt::Files;

/// How a row is made.
pub enum Way {
    /// By `tool` over words and the input.
    Tool,
    /// The same over a reader of the system.
    Stream,
    /// By `tool_with` over files.
    Files,
    /// By `tool_first_line`, where the line of the words ends so.
    Line(&'static str),
    /// By the library's call.
    Library,
    /// By a run over trees and a map.
    Trees,
    /// By `tool` over each beginning of the input.
    Beginnings,
    /// By `tool` over readers without an end.
    Endless,
    /// By `tool`, where reads fail.
    Reads,
    /// The same, where writes fail.
    Writes,
    /// The same, where writes of what shows how far a run is fail.
    Shows,
}

/// The names of the calls.
pub static WAYS: [(&str, Way); 12] = [
    ("tool", Way::Tool),
    ("stream", Way::Stream),
    ("files", Way::Files),
    ("line", Way::Line("\n")),
    ("crlf", Way::Line("\r\n")),
    ("library", Way::Library),
    ("trees", Way::Trees),
    ("beginnings", Way::Beginnings),
    ("endless", Way::Endless),
    ("reads", Way::Reads),
    ("writes", Way::Writes),
    ("shows", Way::Shows),
];

/// What a call gives, where it isn't what the row says.
pub fn wrong_answer<R: Files + AllocGlobal, P: Program>(
    rt: &R,
    program: &P,
    row: &Row<'_>,
    way: &Way,
) -> Option<Answer> {
    let alloc = rt.alloc();
    match way {
        Way::Reads => wrong_by_reads(alloc, program, row),
        Way::Writes => wrong_by_writes(alloc, program, row),
        Way::Shows => wrong_by_shows(alloc, program, row),
        Way::Endless => wrong_by_endless(alloc, program, row),
        _ => unless_told(row, by_call(rt, program, row, way)),
    }
}

/// What a call gives that doesn't fail.
fn by_call<R: Files + AllocGlobal, P: Program>(
    rt: &R,
    program: &P,
    row: &Row<'_>,
    way: &Way,
) -> Answer {
    let (alloc, input) = (rt.alloc(), row.input.as_bytes());
    match way {
        Way::Files => by_files(rt, program, row),
        Way::Line(end) => by_line(rt, program, row, end),
        Way::Library => by_library(alloc, program, row),
        Way::Trees => by_trees(alloc, program, row),
        Way::Beginnings => by_beginnings(alloc, program, row),
        Way::Stream => by_tool(alloc, program, &row.words, In::new(input)),
        _ => by_tool(alloc, program, &row.words, input),
    }
}

/// The answer, where it isn't the row's.
pub fn unless_told(row: &Row<'_>, answer: Answer) -> Option<Answer> {
    if is_told(row, &answer) {
        None
    } else {
        Some(answer)
    }
}

/// Whether an answer is the row's.
fn is_told(row: &Row<'_>, answer: &Answer) -> bool {
    if row.parts.is_empty() {
        return answer.is(
            row.answer.status,
            row.answer.out.as_bytes(),
            row.answer.err.as_bytes(),
        ) && answer.shows(row.answer.progress.as_bytes());
    }
    answer.status == row.answer.status
        && answer.out.as_bytes().is_empty()
        && answer.shows(b"")
        && answer.err.as_bytes().ends_with(b"\n")
        && row
            .parts
            .iter()
            .all(|part| answer.err.as_str().find(*part).is_some())
}

/// `tool` over words and a reader.
pub fn by_tool<P: Program, R: Reader + Drop>(
    alloc: Global,
    program: &P,
    words: &[&str],
    reader: R,
) -> Answer {
    let mut answer = Answer::new(alloc);
    answer.status = program.tool(
        alloc,
        words,
        reader,
        &mut answer.out,
        &mut answer.err,
        &mut answer.progress,
    );
    answer
}

/// `tool_with` over the input and the files of the folder.
fn by_files<R: Files + AllocGlobal, P: Program>(rt: &R, program: &P, row: &Row<'_>) -> Answer {
    let mut answer = Answer::new(rt.alloc());
    answer.status = program.tool_with(
        rt.alloc(),
        &row.words,
        (rt, row.input.as_bytes()),
        &mut answer.out,
        &mut answer.err,
        &mut answer.progress,
    );
    answer
}

/// `tool_first_line` over a line of the words, and behind it the input. Where there are no words,
/// the input has the line.
fn by_line<R: Files + AllocGlobal, P: Program>(
    rt: &R,
    program: &P,
    row: &Row<'_>,
    end: &str,
) -> Answer {
    let all = with_line(rt.alloc(), row, end);
    let mut answer = Answer::new(rt.alloc());
    answer.status = program.tool_first_line(
        rt.alloc(),
        (rt, all.as_bytes()),
        &mut answer.out,
        &mut answer.err,
        &mut answer.progress,
    );
    answer.err.heed(&all);
    answer
}

/// The input, behind a line of the words where there are some.
fn with_line(alloc: Global, row: &Row<'_>, end: &str) -> Text {
    let mut all = Text::new(alloc);
    if !row.words.is_empty() {
        all.push(row.line);
        all.push(end);
    }
    all.push_bytes(row.input.as_bytes());
    all
}

/// The library's call over the input. It tells a fault by its answer, and so the error output is
/// the row's.
fn by_library<P: Program>(alloc: Global, program: &P, row: &Row<'_>) -> Answer {
    let mut answer = Answer::new(alloc);
    let input = row.input.as_bytes();
    if let Some(status) = program.library(alloc, &row.words, input, &mut answer.out) {
        answer.status = status;
        answer.err.push_bytes(row.answer.err.as_bytes());
    }
    answer
}

/// The run over trees and a map. Of a refusal it tells the status alone, and so the error output is
/// the row's then.
fn by_trees<P: Program>(alloc: Global, program: &P, row: &Row<'_>) -> Answer {
    let mut answer = Answer::new(alloc);
    let (words, input) = (&row.words, row.input.as_bytes());
    let status = program.by_trees(alloc, words, input, &mut answer.out, &mut answer.err);
    answer.status = status.unwrap_or(u8::MAX);
    if answer.err.as_bytes().is_empty() {
        answer.err.push_bytes(row.answer.err.as_bytes());
    }
    answer
}
