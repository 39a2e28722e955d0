//! What is told of an answer, and the status that a command ends with.

ghost use Rattle.std.specs.Prelude.{◌≡◌};
ghost use Rattle.byte_streams.specs.Written.{IsIntact};
ghost use Rattle.rtlsim_command_faults.specs.Explanations.{files_of};
ghost use Rattle.rtlsim_command_faults.specs.Faults.{of_source};
ghost use Rattle.rtlsim_command_faults.specs.Places.{byte_of};
ghost use Rattle.rtlsim_commands.specs.Wider as wider;
ghost use Rattle.rtlsim_commands.specs.Wider.{TellsWider};
ghost use Rattle.rtlsim_commands.specs.Refused.{RefusesSource};
ghost use Rattle.rtlsim_commands.specs.Served.{ended};
ghost use Rattle.rtlsim_commands.specs.Told as told;
ghost use Rattle.rtlsim_commands.specs.Unsettled.{NamesIf, TellsRun};
ghost use Rattle.vhdl_front_rules.specs.Asking.{asked_view};

use crate::command::Site;
use crate::wider::push_wider;
use byte_streams::Sink;
use rtl_net::Net;
use rtlsim_command_faults::{
    Fault, Status, Telling, push_further_faults, tell_changing, tell_fault, tell_source_fault,
};
use std::alloc::Global;
use vhdl_front_rules::{Asked, Front, SourceFault};
use vhdl_lexer::Language;

/// Tells why a source is refused, and where that is told whole and explanations are asked for, how
/// far the wider language reads it and its other faults too, and answers the status.
pub(crate) fn refuse_source<F: Front, O: Sink, E: Sink>(
    alloc: Global,
    asked: Asked<'_>,
    telling: &Telling<'_>,
    fault: SourceFault,
    out: &O,
    err: &mut E,
) -> Status
    ensures { (said : Status) × RefusesSource telling.now (asked_view asked.entry) (of_source fault) (E.state err.old)
        (E.state err.new) said
        × (result ≡ ended said (O.state out.now) (E.state err.new)) }
{
    let said = tell_source_fault(alloc, telling, fault, err);
    let fault = Fault::from(fault);
    tell_wider::<F, E>(alloc, asked, telling, &fault, said, err);
    tell_others::<F, E>(alloc, asked, telling, &fault, said, err);
    ended_by_writes(said, out, err)
}

/// Tells how far the wider language reads a source that is refused, where that is asked for.
fn tell_wider<F: Front, E: Sink>(
    alloc: Global,
    asked: Asked<'_>,
    telling: &Telling<'_>,
    first: &Fault,
    said: Status,
    err: &mut E,
)
    ensures { TellsWider (wider.asks_wider telling.now.explains telling.now.language said) (files_of telling.now)
        (asked_view asked.entry) (byte_of first.now) (E.state err.old) (E.state err.new) }
{
    if asks_wider(telling.explains, telling.language, said) {
        push_wider::<F, E>(alloc, telling.files, asked, first, err);
    }
}

/// Whether that is asked for behind a first fault that was told with this status: where the
/// narrower language was read.
fn asks_wider(explains: bool, language: Language, said: Status) -> bool
    ensures { result ≡ wider.asks_wider explains language said }
{
    match language {
        Language::Profile => explains && !matches!(said, Status::Memory),
        Language::Wide => false,
    }
}

/// Tells the other faults of a source that is refused behind its first, where they are asked for.
fn tell_others<F: Front, E: Sink>(
    alloc: Global,
    asked: Asked<'_>,
    telling: &Telling<'_>,
    first: &Fault,
    said: Status,
    err: &mut E,
)
    ensures { told.TellsOthers (told.asks_others telling.now.explains first.now said) telling.now
        (asked_view asked.entry) first.now (E.state err.old) (E.state err.new) }
{
    if asks_others(telling.explains, first, said) {
        push_further_faults::<F, E>(alloc, telling, asked, first, err);
    }
}

/// Whether the others are told behind this first fault, which was told with this status.
fn asks_others(explains: bool, first: &Fault, said: Status) -> bool
    ensures { result ≡ told.asks_others explains first.now said }
{
    let has_others = matches!(first, Fault::Syntax(_) | Fault::Name(_));
    explains && has_others && !matches!(said, Status::Memory)
}

/// Tells a fault of a netlist with its names, and below its explanation the nets of these numbers
/// where a moment doesn't settle, and answers the status.
pub(crate) fn refuse_net<E: Sink>(
    site: Site<'_>,
    telling: &Telling<'_>,
    fault: &Fault,
    changing: &[usize],
    err: &mut E,
) -> Status
    requires { IsIntact (E.state err.old) }
    ensures { TellsRun telling.now site.entry.net.now fault.now changing.now
        (E.state err.old) (E.state err.new) result }
{
    let Site { alloc, net } = site;
    let said = tell_fault(alloc, telling, net, fault, err);
    tell_behind(alloc, telling.explains, net, fault, changing, err);
    said
}

/// Tells the nets of these numbers where a moment doesn't settle and explanations are asked for.
fn tell_behind<E: Sink>(
    alloc: Global,
    explains: bool,
    net: &Net,
    fault: &Fault,
    changing: &[usize],
    err: &mut E,
)
    ensures { NamesIf explains net.now changing.now fault.now (E.state err.old) (E.state err.new) }
{
    if !explains {
        return;
    }
    if let Fault::NoSettling { .. } = fault {
        let _whole = tell_changing(alloc, net, changing, err);
    }
}

/// The status, where no write failed.
pub fn ended_by_writes<O: Sink, E: Sink>(status: Status, out: &O, err: &E) -> Status
    ensures { result ≡ ended status (O.state out.now) (E.state err.now) }
{
    if out.failed() || err.failed() {
        return Status::Failed;
    }
    status
}
