//! The kernel, step by step.

ghost use Rattle.std.specs.Prelude.{◌≡◌};
ghost use Rattle.rtl_kernel.specs.kernel.Kept.{RunBodies};
ghost use Rattle.rtl_model.specs.simulation.Moments.{HasNoneToRun};
ghost use Rattle.rtl_net.specs.Nets.{flat};

use crate::bodies::{Bodies, Stamped, with_stamps};
use crate::courses::{Course, Given};
use crate::nets::Nets;
use crate::pickers::Asked;
use crate::texts::{push_count, push_truth};
use byte_streams::{Sink, push_line, push_text};
use rtl_eval::{Exec, trees};
use rtl_eval_code::codes;
use rtl_kernel::Kernel;
use rtl_net::Net;
use std::alloc::Global;
use std::cell::Cell;

/// Starts a netlist, whose bodies have this form, and tells what it comes to at each step.
pub fn tell_course<N: Nets, S: Sink>(
    alloc: Global,
    nets: &N,
    course: &Course,
    form: Bodies,
    pick: &mut Asked,
    out: &mut S,
) {
    match nets.open(alloc, course.text.as_bytes(), course.top.as_bytes()) {
        Some(net) => tell_net(alloc, &net, course, form, pick, out),
        None => push_line(out, b"no netlist"),
    }
}

fn tell_net<S: Sink>(
    alloc: Global,
    net: &Net,
    course: &Course,
    form: Bodies,
    pick: &mut Asked,
    out: &mut S,
) {
    match form {
        Bodies::Trees => match trees(alloc, net) {
            Ok(trees) => tell_bodies(alloc, net, &trees, course, pick, out),
            Err(_) => push_line(out, b"memory"),
        },
        Bodies::Codes => match codes(alloc, net) {
            Ok(codes) => tell_bodies(alloc, net, &codes, course, pick, out),
            Err(_) => push_line(out, b"memory"),
        },
    }
}

fn tell_bodies<E: Exec, S: Sink>(
    alloc: Global,
    net: &Net,
    bodies: &[E],
    course: &Course,
    pick: &mut Asked,
    out: &mut S,
)
    requires { RunBodies E.process E.types (flat net.now) bodies.now }
{
    let count = Cell::new(0);
    match with_stamps(alloc, bodies, &count) {
        Ok(stamped) => tell_stamped(alloc, net, &stamped, course, pick, out),
        Err(_) => push_line(out, b"memory"),
    }
}

fn tell_stamped<E: Exec, S: Sink>(
    alloc: Global,
    net: &Net,
    bodies: &[Stamped<'_, E>],
    course: &Course,
    pick: &mut Asked,
    out: &mut S,
)
    requires { RunBodies (λ b. E.process b.body.now) (λ b. E.types b.body.now) (flat net.now) bodies.now }
{
    if course.initial.len() != net.inputs().len() {
        return push_line(out, b"no such inputs");
    }
    match Kernel::new(alloc, net, bodies, course.initial) {
        Ok(mut kernel) => {
            kernel.start(pick);
            tell_steps(net, bodies, &mut kernel, course, pick, out);
        }
        Err(_) => push_line(out, b"memory"),
    }
}

/// Tells what a netlist comes to behind its start.
fn tell_steps<E: Exec, S: Sink>(
    net: &Net,
    bodies: &[Stamped<'_, E>],
    kernel: &mut Kernel<'_, Stamped<'_, E>>,
    course: &Course,
    pick: &mut Asked,
    out: &mut S,
)
    requires net { kernel.old.net ≡ net.now }
    requires ready { HasNoneToRun kernel.old.state }
{
    for (given, limit) in course.steps {
        change(net, kernel, *given, pick);
        tell_step(kernel, *limit, pick, out);
        push_runs(bodies, out);
    }
}

/// Gives the first input what it gets, where there is one and no driver is active.
fn change<E: Exec>(
    net: &Net,
    kernel: &mut Kernel<'_, Stamped<'_, E>>,
    given: Given,
    pick: &mut Asked,
)
    requires net { kernel.old.net ≡ net.now }
    requires ready { HasNoneToRun kernel.old.state }
    ensures net { kernel.new.net ≡ kernel.old.net }
    ensures ready { HasNoneToRun kernel.new.state }
{
    let inputs = net.inputs();
    if inputs.is_empty() || !kernel.is_quiet() {
        return;
    }
    let input = inputs[0];
    match given {
        Given::Nothing => {}
        Given::Value(value) => kernel.apply(&[(input, value)], pick),
        Given::Both(first, last) => kernel.apply(&[(input, first), (input, last)], pick),
    }
}

/// Lets a netlist settle, and tells what it comes to: in how many delta cycles, the values of its
/// nets, and whether no driver is active.
fn tell_step<E: Exec, S: Sink>(
    kernel: &mut Kernel<'_, Stamped<'_, E>>,
    limit: u32,
    pick: &mut Asked,
    out: &mut S,
)
    requires ready { HasNoneToRun kernel.old.state }
    ensures net { kernel.new.net ≡ kernel.old.net }
    ensures ready { HasNoneToRun kernel.new.state }
{
    match kernel.settle(limit, pick) {
        Ok(deltas) => push_count(out, "  settled after ", deltas as u64),
        Err(_) => push_text(out, b"  not settled"),
    }
    push_count(out, " of ", limit as u64);
    push_values(kernel.values(), out);
    push_text(out, b", quiet ");
    push_truth(out, kernel.is_quiet());
}

/// Writes the values of nets.
fn push_values<S: Sink>(values: &[u8], out: &mut S) {
    push_text(out, b":");
    for value in values {
        push_count(out, " ", *value as u64);
    }
}

/// Writes of each body which run its last one was.
fn push_runs<E: Exec, S: Sink>(bodies: &[Stamped<'_, E>], out: &mut S) {
    push_text(out, b", runs");
    for body in bodies {
        push_count(out, " ", body.stamp.get() as u64);
    }
    push_text(out, b"\n");
}
