//! What is elaborated of a text, in words.

use rows_calls::{Frame, Teller, Text};
use rows_on_net::push_processes;
use std::alloc::Global;
use vhdl_expand_rules::{ElabFault, ElabProblem};
use vhdl_front::{Asked, SourceFault, open};

/// What each process of a netlist drives, reads and is sensitive to, and what its variables start
/// with.
#[derive(Clone, Copy)]
pub struct Processes;

impl Teller for Processes {
    /// Adds what is elaborated of a text in a frame: its netlist, or the fault's name, where it
    /// stands at the text's mark if it has one.
    fn told(&self, alloc: Global, frame: Frame<'_>, written: &str, found: &mut Text) {
        let (source, place) = frame.source_of(alloc, written);
        let mark = written.find('^').is_some().then_some(place);
        found.heed(&source);
        push_elaborated(alloc, source.as_bytes(), mark, found);
    }
}

/// Adds what is elaborated of a source: the processes of its netlist, or its fault.
fn push_elaborated(alloc: Global, source: &[u8], mark: Option<usize>, found: &mut Text) {
    match open(alloc, Asked::plain(source, b"t")) {
        Ok(net) => push_processes(alloc, &net, found),
        Err(SourceFault::Elab(ElabFault::At { problem, at })) => {
            push_problem(found, problem, at, mark.unwrap_or(at));
        }
        Err(fault) => found.push_shown(&fault),
    }
}

/// Adds the name of what is wrong at a byte, and both bytes where that isn't the marked one.
fn push_problem(found: &mut Text, problem: ElabProblem, at: usize, mark: usize) {
    found.push(problem.rule().words().name);
    if at != mark {
        found.push(" at byte ");
        found.push_number(at);
        found.push(", and not at byte ");
        found.push_number(mark);
    }
}
