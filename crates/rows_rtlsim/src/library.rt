//! The library's calls.

ghost use Rattle.byte_streams.specs.Written.{IsIntact};

use rows_calls::bytes_of;
use rows_on_net::{Run, run_by_trees};
use rtlsim::{
    Call, Fault, Forward, Order, Pick, Request, Reverse, Sink, Status, eval, halves_at_line, run,
    run_event, run_levels, show_check, show_check_dot, show_net,
};
use std::alloc::Global;
use vhdl_front::{Asked, Vhdl, open};

/// Makes a call, and gives the status, which stands for its fault if it has one.
pub fn answer_by_library<S: Sink>(alloc: Global, call: &Call<'_>, input: &[u8], out: &mut S) -> u8
    requires { IsIntact (S.state out.old) }
{
    let top = call.top.as_bytes();
    match call.request {
        Request::Eval => evaluate(alloc, input, top, &call.sets, out),
        Request::Net => status_of(show_net::<Vhdl, _>(alloc, input, top, out)),
        Request::Check => status_of_check(show_check::<Vhdl, _>(alloc, input, top, out)),
        Request::Dot => status_of_check(show_check_dot::<Vhdl, _>(alloc, input, top, out)),
        // The library has no call that writes the object of a source's verdict.
        Request::Json => Status::Failed.code(),
        Request::Run { is_event, order } => match order {
            Order::Forward => simulate(alloc, is_event, input, top, &mut Forward, out),
            Order::Reverse => simulate(alloc, is_event, input, top, &mut Reverse, out),
        },
        Request::Levels => {
            let (source, stimulus) = halves_at_line(input);
            status_of(run_levels::<Vhdl, _>(alloc, source, top, stimulus, out))
        }
    }
}

/// Makes a run by delta cycles over trees and a map, if that is asked for, and gives the status.
pub fn answer_by_trees<S: Sink, E: Sink>(
    alloc: Global,
    call: &Call<'_>,
    input: &[u8],
    out: &mut S,
    err: &mut E,
) -> Option<u8>
    requires { IsIntact (S.state out.old) }
{
    let Request::Run { is_event, order } = call.request else {
        return None;
    };
    let (source, stimulus) = halves_at_line(input);
    let Ok(net) = open(alloc, Asked::plain(source, call.top.as_bytes())) else {
        return Some(Status::Source.code());
    };
    let run = Run { stimulus, is_event };
    Some(match order {
        Order::Forward => run_by_trees(alloc, &net, &run, &mut Forward, out, err),
        Order::Reverse => run_by_trees(alloc, &net, &run, &mut Reverse, out, err),
    })
}

/// Evaluates a source under the words of its inputs.
fn evaluate<S: Sink>(alloc: Global, input: &[u8], top: &[u8], sets: &[&str], out: &mut S) -> u8
    requires { IsIntact (S.state out.old) }
{
    match bytes_of(alloc, sets) {
        Ok(sets) => status_of(eval::<Vhdl, _>(alloc, input, top, &sets, out)),
        Err(_) => Status::Memory.code(),
    }
}

/// Simulates the source that stands in an input, before its stimulus.
fn simulate<P: Pick, S: Sink>(
    alloc: Global,
    is_event: bool,
    input: &[u8],
    top: &[u8],
    pick: &mut P,
    out: &mut S,
) -> u8
    requires { IsIntact (S.state out.old) }
{
    let (source, stimulus) = halves_at_line(input);
    if is_event {
        status_of(run_event::<Vhdl, _, _>(alloc, source, top, stimulus, pick, out))
    } else {
        status_of(run::<Vhdl, _, _>(alloc, source, top, stimulus, pick, out))
    }
}

/// The status of a call.
fn status_of<T: Drop>(answer: Result<T, Fault>) -> u8 {
    match answer {
        Ok(_) => Status::Done.code(),
        Err(fault) => fault.status().code(),
    }
}

/// The status of a call that tells whether a netlist is accepted.
fn status_of_check(answer: Result<bool, Fault>) -> u8 {
    match answer {
        Ok(true) => Status::Done.code(),
        Ok(false) => Status::Rejected.code(),
        Err(fault) => fault.status().code(),
    }
}
