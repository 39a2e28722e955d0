//! What is told where the words are refused, or an input isn't read.

ghost use Rattle.std.specs.Prelude.{◌≡◌};
ghost use Rattle.rtlsim_commands.specs.Served.{both, ended};
ghost use Rattle.byte_streams.specs.Written.{Goes};
ghost use Rattle.rtlsim_command_line.specs.Words.{IsOfWords};
ghost use Rattle.rtlsim.specs.Tools.{RefusesWords};
ghost use Rattle.rtlsim.specs.Unread as unread;

use crate::problem::InputProblem;
use crate::unread::ReadFault;
use byte_streams::{Sink, push_text};
use rtlsim_command_line::Refused;
use rtlsim_commands::{Status, ended_by_writes, push_memory};
use std::alloc::Global;

/// Tells why the words are refused, and answers the status.
pub(crate) fn refuse_words<O: Sink, E: Sink>(refused: &Refused, out: &O, err: &mut E) -> Status
    ensures { RefusesWords (IsOfWords refused.now) result
        (both (O.state out.now) (O.state out.now) (E.state err.old) (E.state err.new)) }
{
    match refused {
        Refused::NoMemory => {
            push_memory(err);
            ended_by_writes(Status::Memory, out, err)
        }
        Refused::Words(text) => {
            push_text(err, text.as_bytes());
            ended_by_writes(Status::Words, out, err)
        }
    }
}

/// The refusal of words that are no text.
pub(crate) fn not_text(alloc: Global) -> Refused {
    match String::from_str(alloc, "error: the words are not UTF-8\n") {
        Ok(text) => Refused::Words(text),
        Err(refused) => Refused::from(refused),
    }
}

/// Tells why an input isn't read, with an explanation where that is asked for, and answers the
/// status.
pub(crate) fn refuse_input<O: Sink, E: Sink>(
    fault: ReadFault<'_>,
    explains: bool,
    out: &O,
    err: &mut E,
) -> Status
    ensures told { Goes (E.state err.old) (E.state err.new)
        (unread.fault_text explains (unread.unread_of fault.entry)) }
    ensures status { result ≡ ended (unread.fault_status (unread.unread_of fault.entry)) (O.state out.now)
        (E.state err.new) }
{
    push_fault(fault, explains, err);
    ended_by_writes(fault.status(), out, err)
}

/// Writes why an input isn't read, or that memory was refused.
fn push_fault<S: Sink>(fault: ReadFault<'_>, explains: bool, sink: &mut S)
    ensures { Goes (S.state sink.old) (S.state sink.new) (unread.fault_text explains (unread.unread_of fault.entry)) }
{
    match fault {
        ReadFault::Unread { name, problem } => push_unread(name, problem, explains, sink),
        ReadFault::NoMemory => push_memory(sink),
    }
}

/// Writes why an input isn't read.
fn push_unread<S: Sink>(name: &str, problem: InputProblem, explains: bool, sink: &mut S)
    ensures { Goes (S.state sink.old) (S.state sink.new)
        (unread.input_text explains (record { name = name.now; problem = problem })) }
{
    push_text(sink, b"rtlsim: input\n");
    if explains {
        explain_input(name, problem, sink);
    }
}

/// Writes what is behind it.
fn explain_input<S: Sink>(name: &str, problem: InputProblem, sink: &mut S)
    ensures { Goes (S.state sink.old) (S.state sink.new)
        (unread.input_explained (record { name = name.now; problem = problem })) }
{
    push_text(sink, name.as_bytes());
    push_text(sink, b": input: ");
    push_text(sink, problem.reason().as_bytes());
    push_text(sink, b"\nhelp: ");
    push_text(sink, problem.help().as_bytes());
    push_text(sink, b"\n");
}
