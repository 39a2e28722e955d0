//! Rows of agendas: changes pushed in some order of times, and what is taken off.

ghost use Rattle.std.specs.Prelude.{◌≡◌, [], None};

use crate::texts::push_count;
use byte_streams::{Sink, push_line, push_text};
use rtl_agenda::{Agenda, MapAgenda, NoMemory, Wheel};
use std::alloc::Global;
use vhdl_values::Nine;

/// Tells what each kind of agenda gives, time by time.
pub fn tell_agendas<S: Sink>(alloc: Global, out: &mut S) {
    push_line(out, b"an agenda over a map");
    tell_agenda(&mut MapAgenda::new(alloc), out);
    push_line(out, b"an agenda over 4 slots");
    match Wheel::new(alloc, 4) {
        Ok(mut wheel) => tell_agenda(&mut wheel, out),
        Err(_) => push_line(out, b"memory"),
    }
}

/// Takes five times off an agenda in which changes wait for four, and tells each with its changes.
fn tell_agenda<A: Agenda, S: Sink>(agenda: &mut A, out: &mut S)
    requires waiting { (A.state agenda.old).waiting ≡ [] }
    requires last { (A.state agenda.old).last ≡ None }
{
    if push_some(agenda).is_err() {
        push_line(out, b"memory");
    }
    for _ in 0..5 {
        match agenda.next() {
            Some(time) => push_count(out, "  ", time),
            None => push_text(out, b"  no time waits"),
        }
        push_changes(out, agenda.changes());
    }
}

/// Pushes two changes for a time, and one each for times before and after it; one time is far
/// behind the others.
fn push_some<A: Agenda>(agenda: &mut A) -> Result<(), NoMemory>
    requires waiting { (A.state agenda.old).waiting ≡ [] }
    requires last { (A.state agenda.old).last ≡ None }
{
    agenda.push(9, (2, Nine::One))?;
    agenda.push(1, (7, Nine::Zero))?;
    agenda.push(5, (3, Nine::H))?;
    agenda.push(1_000_000_000_000_000, (2, Nine::U))?;
    agenda.push(5, (2, Nine::Z))?;
    Ok(())
}

/// Writes changes behind their time, each with its net and value.
fn push_changes<S: Sink>(out: &mut S, changes: &[(usize, Nine)]) {
    push_text(out, b":");
    for (net, value) in changes {
        push_count(out, " ", *net as u64);
        push_text(out, &[b' ', value.byte()]);
    }
    push_text(out, b"\n");
}
