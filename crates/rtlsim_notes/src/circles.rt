//! Notes at the processes of a circle, and where its nets are read.

ghost use Rattle.std.specs.Prelude.{◌≡◌, ◌++◌, map, slice_get, OnOk};
ghost use Rattle.rtlsim_notes.specs.Notes as spec;
ghost use Rattle.rtlsim_notes.specs.Notes.{note_view};
ghost use Rattle.vhdl_slips.specs.Words.{read_of};

use crate::lists::read_from;
use crate::noted::{Note, push_note};
use crate::sayings::{look_text, step_text};
use rtl_body_facts::body_has_event;
use rtl_net::{Net, NoMemory, Process, Statement};
use rtlsim_circles::first_or;
use rtlsim_findings::at_process;
use rtlsim_listing::driver_of;
use std::alloc::Global;
use vhdl_slips::{Lexed, text_of};

/// Appends the notes at the processes of a circle behind the first.
pub(crate) fn push_steps(
    alloc: Global,
    net: &Net,
    processes: &[usize],
    notes: &mut Vec<Note>,
) -> Result<(), NoMemory>
    ensures { OnOk result (map note_view notes.new.items
        ≡ map note_view notes.old.items ++ spec.step_notes net.now processes.now) }
{
    match processes {
        [first, rest @ ..] => push_behind(alloc, net, *first, rest, notes),
        [] => Ok(()),
    }
}

/// Appends the notes at these processes of a circle, which stand behind the first.
fn push_behind(
    alloc: Global,
    net: &Net,
    first: usize,
    processes: &[usize],
    notes: &mut Vec<Note>,
) -> Result<(), NoMemory>
    ensures { OnOk result (map note_view notes.new.items
        ≡ map note_view notes.old.items ++ spec.steps_from net.now first first processes.now) }
{
    let mut before = first;
    let mut left = processes;
    while let [this, rest @ ..] = left {
        let text = step_text(alloc, net, before, *this, first_or(first, rest))?;
        push_at(at_process(net, Some(*this)), text, notes)?;
        before = *this;
        left = rest;
    }
    Ok(())
}

/// Appends a note of this text, where it has a byte.
fn push_at(at: Option<usize>, text: Vec<u8>, notes: &mut Vec<Note>) -> Result<(), NoMemory>
    ensures { OnOk result (map note_view notes.new.items
        ≡ map note_view notes.old.items ++ spec.step_at at text.items) }
{
    match at {
        Some(at) => push_note(at, text, notes),
        None => Ok(()),
    }
}

/// So many nets of a circle are told.
const MOST: usize = 20;

/// Appends the notes where the processes that drive a circle's nets read the next ones.
pub(crate) fn push_looks(
    alloc: Global,
    source: Lexed<'_>,
    net: &Net,
    nets: &[usize],
    notes: &mut Vec<Note>,
) -> Result<(), NoMemory>
    ensures { OnOk result (map note_view notes.new.items
        ≡ map note_view notes.old.items ++ spec.look_notes (read_of source.entry) net.now nets.now) }
{
    match nets {
        [first, ..] => push_looks_from(alloc, source, net, *first, nets, notes),
        [] => Ok(()),
    }
}

/// Appends the notes of these nets, the last of which looks at the first.
fn push_looks_from(
    alloc: Global,
    source: Lexed<'_>,
    net: &Net,
    first: usize,
    nets: &[usize],
    notes: &mut Vec<Note>,
) -> Result<(), NoMemory>
    ensures { OnOk result (map note_view notes.new.items
        ≡ map note_view notes.old.items ++ spec.looks_from (read_of source.entry) net.now first 20 nets.now) }
{
    let mut room = MOST;
    let mut left = nets;
    while let [number, rest @ ..] = left {
        if room == 0 {
            return Ok(());
        }
        push_look(alloc, source, net, *number, first_or(first, rest), notes)?;
        room -= 1;
        left = rest;
    }
    Ok(())
}

/// The byte at which a statement starts that is an if.
fn if_at(statement: &Statement) -> Option<usize>
    ensures { result ≡ spec.if_at statement.now }
{
    match statement {
        Statement::If { at, .. } => Some(*at as usize),
        _ => None,
    }
}

/// The same of the last of some statements.
fn last_if(statements: &[Statement]) -> Option<usize>
    ensures { result ≡ spec.last_if statements.now }
{
    match statements.last() {
        Some(statement) => if_at(statement),
        None => None,
    }
}

/// From which byte on it's looked for where what a process drives looks at a net.
fn start_in(process: &Process) -> Option<usize>
    ensures { result ≡ spec.start_in process.now }
{
    if body_has_event(&process.body) {
        return last_if(&process.body);
    }
    Some(process.at as usize)
}

/// The same of the process of this number, if there is one.
fn look_start(net: &Net, process: usize) -> Option<usize>
    ensures { result ≡ spec.look_start (slice_get net.now.processes process) }
{
    match net.processes().get(process) {
        Some(process) => start_in(process),
        None => None,
    }
}

/// Appends the note where the process that drives a net reads the next.
fn push_look(
    alloc: Global,
    source: Lexed<'_>,
    net: &Net,
    number: usize,
    next: usize,
    notes: &mut Vec<Note>,
) -> Result<(), NoMemory>
    ensures { OnOk result (map note_view notes.new.items
        ≡ map note_view notes.old.items ++ spec.looks_at (read_of source.entry) net.now number next) }
{
    let Some(process) = driver_of(net, number) else {
        return Ok(());
    };
    let start = look_start(net, process);
    let Some(token) = read_from(alloc, source, net, process, next, start)? else {
        return Ok(());
    };
    let name = text_of(source.text, token);
    let text = look_text(alloc, net, number, next, name)?;
    push_note(token.start as usize, text, notes)
}
