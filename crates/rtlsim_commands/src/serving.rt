//! One way to serve each command.

ghost use Rattle.std.specs.Prelude.{◌≡◌, IfErr, take};
ghost use Rattle.rtl_simulation.specs.Simulated as spec;
ghost use Rattle.byte_streams.specs.Written.{IsIntact};
ghost use Rattle.rtl_stim.specs.Ports.{HasOwnPorts};
ghost use Rattle.rtlsim_commands.specs.Sights.{Seeing, IsOfNet, events_of};
ghost use Rattle.rtlsim_commands.specs.Refused.{TellsAnswer};
ghost use Rattle.rtlsim_commands.specs.Served.{Serves, ServesObject, ServesOr, Unrefused, both};
ghost use Rattle.vhdl_front_rules.specs.Asking.{asked_view};
ghost use Rattle.vhdl_front_rules.specs.Designs.{IsNetOf};

use crate::command::{Answer, Command, Site};
use crate::ending::{ended_by_writes, refuse_net, refuse_source};
use crate::freed::tell_freed;
use crate::listing::Form;
use crate::noting::{Noting, Numbers};
use crate::printing::CheckNet;
use crate::remarking::tell_remarks;
use byte_streams::{Sink, Unwatched, Watch};
use rtl_net::Net;
use rtlsim_command_faults::{Fault, Status, Telling, describe_refusal};
use std::alloc::Global;
use std::mem;
use vhdl_front_rules::{Asked, Front};

/// Serves a command, while this watch looks on: opens the source, does the command on its netlist,
/// writes what is told of its answer or the lines of a fault to `err`, and answers the status.
/// Behind the explanation of a moment that doesn't settle stand the nets that still change. The
/// netlist isn't freed, since serving a command is the last that a program does.
pub fn serve<F: Front, C: Command, V: Watch, O: Sink, E: Sink>(
    alloc: Global,
    asked: Asked<'_>,
    telling: &Telling<'_>,
    command: &mut C,
    watch: &mut V,
    out: &mut O,
    err: &mut E,
) -> Status
    requires out { IsIntact (O.state out.old) }
    requires err { IsIntact (E.state err.old) }
    ensures { Serves (Seeing (C.sight command.old) (C.does command.old) (λ stands. V.told watch.old stands watch.new))
        (record { text = C.Answer.text; status = C.Answer.said; events = events_of (C.sight command.old) }) telling.now
        (asked_view asked.entry) result
        (both (O.state out.old) (O.state out.new) (E.state err.old) (E.state err.new)) }
{
    match F::open(alloc, asked) {
        Ok(net) => {
            let site = Site { alloc, net: &net };
            let said = serve_net::<F, C, V, O, E>(site, asked, telling, command, watch, out, err);
            mem::forget(net);
            said
        }
        Err(fault) => refuse_source::<F, O, E>(alloc, asked, telling, fault, out, err),
    }
}

/// Serves the object of `check`: opens the source, and writes the verdict on its netlist as an
/// object, or that of a source that is refused. What is told of a fault goes to `err`, and it
/// answers the status. Where memory for the object is refused, that is told in place of the fault.
pub fn describe<F: Front, O: Sink, E: Sink>(
    alloc: Global,
    asked: Asked<'_>,
    telling: &Telling<'_>,
    out: &mut O,
    err: &mut E,
) -> Status
    requires out { IsIntact (O.state out.old) }
    requires err { IsIntact (E.state err.old) }
    ensures { ServesObject telling.now (asked_view asked.entry) result
        (both (O.state out.old) (O.state out.new) (E.state err.old) (E.state err.new)) }
{
    match F::open(alloc, asked) {
        Ok(net) => {
            let form = Form::Object(telling);
            let mut command = CheckNet { form };
            let site = Site { alloc, net: &net };
            let mut watch = Unwatched;
            serve_net::<F, _, _, O, E>(site, asked, telling, &mut command, &mut watch, out, err)
        }
        Err(fault) => {
            let told = describe_refusal::<F, O>(alloc, telling.files, asked, fault, out);
            refuse_source::<F, O, E>(alloc, asked, telling, told, out, err)
        }
    }
}

/// Serves a command on the netlist of a source. Below what is told of its answer stands which of
/// the checker's rules the source doesn't break in the wider language.
fn serve_net<F: Front, C: Command, V: Watch, O: Sink, E: Sink>(
    site: Site<'_>,
    asked: Asked<'_>,
    telling: &Telling<'_>,
    command: &mut C,
    watch: &mut V,
    out: &mut O,
    err: &mut E,
) -> Status
    requires net { IsNetOf (asked_view asked) site.net.now }
    requires ports { HasOwnPorts site.net.now }
    requires out { IsIntact (O.state out.old) }
    requires err { IsIntact (E.state err.old) }
    ensures { ServesOr Unrefused (Seeing (C.sight command.old) (C.does command.old)
        (λ stands. V.told watch.old stands watch.new))
        (record { text = C.Answer.text; status = C.Answer.said; events = events_of (C.sight command.old) }) telling.now
        (asked_view asked.entry) result
        (both (O.state out.old) (O.state out.new) (E.state err.old) (E.state err.new)) }
{
    let (answer, changing) = on_net_noting(site.alloc, site.net, command, watch, out);
    let said = tell_answer(site, telling, &answer, &changing, err);
    tell_freed::<F, E>(site, asked, telling, said, err);
    ended_by_writes(said, out, err)
}

/// Tells what a command answers, of a fault with the nets of these numbers, and answers the status.
fn tell_answer<A: Answer, E: Sink>(
    site: Site<'_>,
    telling: &Telling<'_>,
    answer: &Result<A, Fault>,
    changing: &[usize],
    err: &mut E,
) -> Status
    requires { IsIntact (E.state err.old) }
    ensures { TellsAnswer A.text A.said telling.now site.entry.net.now changing.now answer.now (E.state err.old)
        (E.state err.new) result }
{
    match answer {
        Ok(answer) => {
            let said = answer.tell(err);
            tell_remarks(site.alloc, telling, site.net, err);
            said
        }
        Err(fault) => refuse_net(site, telling, fault, changing, err),
    }
}

/// Does a command on a netlist, and answers beside that which nets still change where a moment
/// doesn't settle.
fn on_net_noting<C: Command, V: Watch, S: Sink>(
    alloc: Global,
    net: &Net,
    command: &mut C,
    watch: &mut V,
    out: &mut S,
) -> (Result<C::Answer, Fault>, Numbers)
    requires ports { HasOwnPorts net.now }
    requires intact { IsIntact (S.state out.old) }
    ensures does { Seeing (C.sight command.old) (C.does command.old) (λ stands. V.told watch.old stands watch.new)
        net.now result.0
        (S.state out.old) (S.state out.new) }
    ensures faults { IfErr result.0
        (IsOfNet (C.sight command.old) (λ stands before now at. result.1.items ≡ take 17 (spec.changing before now))
        net.now) }
{
    let mut noting = Noting {
        changing: Numbers::new(),
        other: watch,
    };
    let answer = command.on_net(Site { alloc, net }, &mut noting, out);
    let Noting {
        changing,
        other: _watch,
    } = noting;
    (answer, changing)
}
