//! What a reset is made of that may come and go within a moment.

ghost use Rattle.std.specs.Prelude.{◌≡◌, ◌<◌, length, true};
ghost use Rattle.rtl_copy_ends.specs.Steps.{AreWalks};
ghost use Rattle.rtl_mixed_reasons.specs.Unsteady as spec;

use crate::beside::at_or;
use crate::reason::{Reason, ReasonKind};
use rtl_body_facts::ProcessKind;
use rtl_copy_ends::{End, Standing, Walks, driven_by, kind_in};
use rtl_net::{Net, Process, Statement};
use rtl_process_kinds::asked_last;

/// The kind of the reason that a reset looks at this net, which a process drives, or else a clock.
fn seen_kind(net: &Net, seen: Option<usize>) -> ReasonKind
    ensures { result ≡ spec.seen_kind net.now seen }
{
    if let Some(seen) = seen
        && driven_by(net, seen).is_some()
    {
        ReasonKind::UnsteadyGate
    } else {
        ReasonKind::UnsteadyClock
    }
}

/// What is told of a net that a process makes: the lowest net that it looks at and that doesn't
/// come from outside.
fn made_of(net: &Net, walks: &Walks, at: u32, number: usize) -> Reason
    requires { AreWalks net.now walks.now }
    ensures { result ≡ spec.made_of net.now at number }
{
    let second = walks.seen_by(net, number);
    Reason {
        kind: seen_kind(net, second),
        at,
        net: Some(number),
        driver: None,
        second,
    }
}

/// What is told where copies end so.
fn told_of(net: &Net, walks: &Walks, at: u32, end: End) -> Option<Reason>
    requires { AreWalks net.now walks.now }
    ensures { result ≡ spec.told_of net.now at end }
{
    match end {
        End::Nothing => None,
        End::Starts { net: number } => Some(Reason::naming(ReasonKind::UnsteadyStart, at, number)),
        End::Made { net: number } => Some(made_of(net, walks, at, number)),
        End::Register { net: number, reset } => Some(Reason::naming_two(
            ReasonKind::UnsteadyRegister,
            at,
            number,
            reset,
        )),
        End::Circle { net: number } => Some(Reason::naming(ReasonKind::UnsteadyCircle, at, number)),
    }
}

/// The byte at which the last statement starts.
fn last_at(body: &[Statement]) -> u32
    ensures { result ≡ spec.last_at body.now }
{
    match body.last() {
        Some(statement) => at_or(0, statement),
        None => 0,
    }
}

/// The reset of a process, with the values at which it holds.
fn reset_in(net: &Net, process: &Process) -> Option<Standing>
    ensures { result ≡ spec.reset_in net.now process.now }
{
    let ProcessKind::Clocked(clocking) = kind_in(net, process) else {
        return None;
    };
    let reset = clocking.reset?;
    let asked = asked_last(&process.body)?;
    Some(Standing {
        net: reset,
        asked,
        copied: false,
    })
}

/// What is told of the reset of a process, if it has one, where the netlist is wide.
pub(crate) fn unsteady(net: &Net, walks: &Walks, process: &Process) -> Option<Reason>
    requires walks { net.now.wide ≡ true → AreWalks net.now walks.now }
    requires some { 0 < length net.now.processes }
    ensures { result ≡ spec.unsteady net.now process.now }
{
    if !net.is_wide() {
        return None;
    }
    let reset = reset_in(net, process)?;
    let end = walks.end_of(net, reset);
    told_of(net, walks, last_at(&process.body), end)
}
