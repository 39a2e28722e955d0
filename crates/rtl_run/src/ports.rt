//! The lines of a netlist's out ports.

ghost use Rattle.std.specs.Prelude.{◌≡◌, ◌≤◌, length, map, slice_index};
ghost use Rattle.rtl_net.specs.Nets.{signal_view};
ghost use Rattle.byte_streams.specs.Written.{Goes};
ghost use Rattle.rtl_run.specs.Evaluated as spec;
ghost use Rattle.rtl_run.specs.Evaluated.{port_lines, port_text, port_line};

use arrayvec::ArrayVec;
use byte_streams::{Sink, push_text};
use rtl_body_facts::contains_rising;
use rtl_net::{Net, Signal, value_text};

/// Writes the line of each out port of the top, in order of declaration, where the nets have these
/// values. It takes no memory.
pub fn push_ports<W: Sink>(net: &Net, values: &[u8], out: &mut W)
    ensures { Goes (W.state out.old) (W.state out.new) (port_lines net.now values.now) }
{
    net.is_elaborated();
    for signal in net.signals() {
        push_port(net, values, signal, out);
    }
}

/// Writes the line of a signal if it is an out port.
fn push_port<W: Sink>(net: &Net, values: &[u8], signal: &Signal, out: &mut W)
    requires some { 1 ≤ length signal.now.nets.items }
    requires few { length signal.now.nets.items ≤ 64 }
    ensures { Goes (W.state out.old) (W.state out.new) (port_text net.now values.now (signal_view signal.now)) }
{
    if is_out_port(net, signal) {
        push_line(signal, values, out);
    }
}

/// Whether a signal is an out port of the top.
fn is_out_port(net: &Net, signal: &Signal) -> bool
    requires some { 1 ≤ length signal.now.nets.items }
    ensures { result ≡ spec.is_out_port net.now (signal_view signal.now) }
{
    net.is_elaborated();
    signal.scope == 0 && signal.port && !contains_rising(net.inputs(), signal.nets[0])
}

/// Writes the line of a port.
fn push_line<W: Sink>(port: &Signal, values: &[u8], out: &mut W)
    requires some { 1 ≤ length port.now.nets.items }
    requires few { length port.now.nets.items ≤ 64 }
    ensures { Goes (W.state out.old) (W.state out.new) (port_line (signal_view port.now) values.now) }
{
    push_text(out, &port.name);
    push_text(out, b"=");
    push_text(out, &value_text(port.kind, &values_at(values, &port.nets)));
    push_text(out, b"\n");
}

/// The values of these nets.
fn values_at(values: &[u8], nets: &[usize]) -> ArrayVec<u8, 64>
    requires { length nets.now ≤ 64 }
    ensures { result.items ≡ map (slice_index values.now) nets.now }
{
    let mut found = ArrayVec::new();
    for net in nets {
        found.push(values.get(*net).copied().unwrap_or(0));
    }
    found
}
