//! What each process of a netlist drives, reads and is sensitive to, in words.

use byte_streams::{Sink, push_number, push_text};
use rtl_net::{Net, Process, SignalKind, Variable};
use rtlsim_listing::net_name;
use std::alloc::Global;
use vhdl_values::Nine;

/// Writes the processes of a netlist, with `; ` between them: each with its number, the names of
/// nets, and its variables with the values that they start with.
pub fn push_processes<S: Sink>(alloc: Global, net: &Net, out: &mut S) {
    let processes = net.processes();
    for number in 0..processes.len() {
        if number > 0 {
            push_text(out, b"; ");
        }
        push_number(out, number as u64);
        push_process(alloc, net, &processes[number], out);
    }
}

fn push_process<S: Sink>(alloc: Global, net: &Net, process: &Process, out: &mut S) {
    push_text(out, b" drives");
    for driver in &process.drives {
        push_net(alloc, net, driver.net, out);
    }
    push_text(out, b" reads");
    push_nets(alloc, net, &process.reads, out);
    push_text(out, b" wakes");
    push_nets(alloc, net, &process.wakes, out);
    for variable in &process.variables {
        push_variable(out, variable);
    }
}

/// Writes the names of nets, each behind a space.
fn push_nets<S: Sink>(alloc: Global, net: &Net, numbers: &[usize], out: &mut S) {
    for number in numbers {
        push_net(alloc, net, *number, out);
    }
}

/// Writes the name of a net behind a space.
fn push_net<S: Sink>(alloc: Global, net: &Net, number: usize, out: &mut S) {
    push_text(out, b" ");
    match net_name(alloc, net, number) {
        Ok(name) => push_text(out, &name),
        Err(_) => push_text(out, b"memory"),
    }
}

/// Writes the name of a variable, and behind it what it starts with.
fn push_variable<S: Sink>(out: &mut S, variable: &Variable) {
    push_text(out, b" ");
    push_text(out, &variable.name);
    push_text(out, b" ");
    for start in &variable.starts {
        push_start(out, variable.kind, *start);
    }
}

/// Writes a value that an element starts with: a letter or digit of the nine values, or the number
/// of a literal.
fn push_start<S: Sink>(out: &mut S, kind: SignalKind, start: u8) {
    if let SignalKind::Enumeration { .. } = kind {
        return push_number(out, start as u64);
    }
    match Nine::from_code(start) {
        Some(value) => push_text(out, &[value.byte()]),
        None => push_number(out, start as u64),
    }
}
