//! The calls by which a row is made where a read or a write fails.

use crate::answer::Answer;
use crate::calls::{by_tool, unless_told};
use crate::faulty::{Endless, FailingReader, FailingWriter, Failure};
use crate::program::Program;
use crate::row::Row;
use crate::text::Text;
use byte_streams::{In, Out};
use std::alloc::Global;

/// After how many writes an output fails, and how.
type Fails = (usize, Failure);

/// An output that doesn't fail.
const NEVER: Fails = (usize::MAX, Failure::Once);

/// `tool`, where each read in turn fails: it tells so, and nothing else. Where none does, it is the
/// row's.
pub fn wrong_by_reads<P: Program>(alloc: Global, program: &P, row: &Row<'_>) -> Option<Answer> {
    for (failure, last) in [(Failure::Once, usize::MAX), (Failure::Interrupted, 0)] {
        for reads in 0..=row.input.as_bytes().len().min(last) {
            let answer = by_reader(alloc, program, row, (reads, failure));
            if !answer.is(8, b"", row.failed_read()) {
                return Some(answer);
            }
        }
    }
    unless_told(row, by_reader(alloc, program, row, NEVER))
}

/// `tool` over a reader that fails after so many reads.
fn by_reader<P: Program>(alloc: Global, program: &P, row: &Row<'_>, fails: Fails) -> Answer {
    let reader = FailingReader::new(row.input.as_bytes(), fails.0, fails.1);
    by_tool(alloc, program, &row.words, In::new(reader))
}

/// `tool` over a reader that gives as many bytes as are asked for without end, and over one that
/// gives a byte a call.
pub fn wrong_by_endless<P: Program>(alloc: Global, program: &P, row: &Row<'_>) -> Option<Answer> {
    for most in [usize::MAX, 1] {
        let reader = In::new(Endless { most });
        let wrong = unless_told(row, by_tool(alloc, program, &row.words, reader));
        if wrong.is_some() {
            return wrong;
        }
    }
    None
}

/// `tool`, where each write in turn fails: a beginning went out. Where none does, it is the row's.
pub fn wrong_by_writes<P: Program>(alloc: Global, program: &P, row: &Row<'_>) -> Option<Answer> {
    let (out, err) = (row.answer.out.as_bytes(), row.answer.err.as_bytes());
    for (failure, most) in [
        (Failure::Once, usize::MAX),
        (Failure::Interrupted, 1),
        (Failure::Stuck, 1),
    ] {
        for writes in 0..out.len().min(most) {
            let answer = by_writers(alloc, program, row, [(writes, failure), NEVER, NEVER]);
            if !answer.is(8, &out[..writes], b"rtlsim: output\n") {
                return Some(answer);
            }
        }
        for writes in 0..err.len().min(most) {
            let answer = by_writers(alloc, program, row, [NEVER, (writes, failure), NEVER]);
            if !answer.is(8, out, &err[..writes]) {
                return Some(answer);
            }
        }
    }
    unless_told(row, by_writers(alloc, program, row, [NEVER; 3]))
}

/// `tool`, where each write of what shows how far a run is fails in turn: a beginning of that went
/// out, and all else is the row's.
pub fn wrong_by_shows<P: Program>(alloc: Global, program: &P, row: &Row<'_>) -> Option<Answer> {
    let wanted = &row.answer;
    let shown = wanted.progress.as_bytes();
    for writes in 0..shown.len() {
        let answer = by_writers(alloc, program, row, [NEVER, NEVER, (writes, Failure::Once)]);
        if !answer.is(wanted.status, wanted.out.as_bytes(), wanted.err.as_bytes())
            || !answer.shows(&shown[..writes])
        {
            return Some(answer);
        }
    }
    unless_told(row, by_writers(alloc, program, row, [NEVER; 3]))
}

/// `tool` over outputs, the third of which shows how far a run is, that fail after so many writes.
fn by_writers<P: Program>(
    alloc: Global,
    program: &P,
    row: &Row<'_>,
    [out_fails, err_fails, progress_fails]: [Fails; 3],
) -> Answer {
    let mut out = Out::new(FailingWriter::new(alloc, out_fails.0, out_fails.1));
    let mut err = Out::new(FailingWriter::new(alloc, err_fails.0, err_fails.1));
    let mut progress = Out::new(FailingWriter::new(alloc, progress_fails.0, progress_fails.1));
    let reader = row.input.as_bytes();
    let status = program.tool(alloc, &row.words, reader, &mut out, &mut err, &mut progress);
    Answer {
        status,
        out: Text::of(out.into_inner().taken),
        err: Text::of(err.into_inner().taken),
        progress: Text::of(progress.into_inner().taken),
    }
}
