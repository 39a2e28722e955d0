//! The lines of a netlist.

ghost use Rattle.std.specs.Prelude.{◌<◌, length};
ghost use Rattle.byte_streams.specs.Written.{Goes};
ghost use Rattle.rtlsim_listing.specs.NetText.{lines, net_line, process_line, counts_text, net_text};
ghost use Rattle.rtlsim_listing.specs.Printing.{Prints};

use crate::sources::{push_sources, push_start};
use byte_streams::{Sink, push_number, push_text};
use rtl_body_facts::contains_rising;
use rtl_net::{Net, NoMemory};

/// Writes how many nets and processes there are, then for each net its number, name, start and
/// sources, and for each process its number and name. It takes the memory of one name at a time;
/// where that is refused, what went out is a beginning of the text.
pub fn show_net<W: Sink>(net: &Net, out: &mut W) -> Result<(), NoMemory>
    ensures { Prints result (W.state out.old) (W.state out.new) (net_text net.now) }
{
    push_counts(net.nets(), net.processes().len(), out);
    push_nets(net, out)?;
    push_processes(net, out)
}

/// How many nets and processes there are.
fn push_counts<W: Sink>(nets: usize, processes: usize, out: &mut W)
    ensures { Goes (W.state out.old) (W.state out.new) (counts_text nets processes) }
{
    push_text(out, b"nets ");
    push_number(out, nets as u64);
    push_text(out, b"\nprocesses ");
    push_number(out, processes as u64);
    push_text(out, b"\n");
}

/// The lines of all nets.
fn push_nets<W: Sink>(net: &Net, out: &mut W) -> Result<(), NoMemory>
    ensures { Prints result (W.state out.old) (W.state out.new) (lines (net_line net.now) (length net.now.types)) }
{
    for number in 0..net.nets() {
        push_net(net, number, out)?;
    }
    Ok(())
}

/// The line of a net.
fn push_net<W: Sink>(net: &Net, number: usize, out: &mut W) -> Result<(), NoMemory>
    requires there { number < length net.now.types }
    ensures { Prints result (W.state out.old) (W.state out.new) (net_line net.now number) }
{
    net.is_elaborated();
    let name = net.net_name(number)?;
    push_number(out, number as u64);
    push_text(out, b" ");
    push_text(out, &name);
    push_text(out, b" ");
    push_start(net.kind(number), net.start(number), out);
    push_text(out, b" ");
    let is_input = contains_rising(net.inputs(), number);
    push_sources(is_input, net.sources(number), out);
    push_text(out, b"\n");
    Ok(())
}

/// The lines of all processes.
fn push_processes<W: Sink>(net: &Net, out: &mut W) -> Result<(), NoMemory>
    ensures { Prints result (W.state out.old) (W.state out.new)
        (lines (process_line net.now) (length net.now.processes)) }
{
    for number in 0..net.processes().len() {
        push_process(net, number, out)?;
    }
    Ok(())
}

/// The line of a process.
fn push_process<W: Sink>(net: &Net, number: usize, out: &mut W) -> Result<(), NoMemory>
    requires there { number < length net.now.processes }
    ensures { Prints result (W.state out.old) (W.state out.new) (process_line net.now number) }
{
    let name = net.process_name(number)?;
    push_text(out, b"process ");
    push_number(out, number as u64);
    push_text(out, b" ");
    push_text(out, &name);
    push_text(out, b"\n");
    Ok(())
}
