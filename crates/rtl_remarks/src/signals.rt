//! The nets of a netlist's signals.

ghost use Rattle.std.specs.Prelude.{◌≡◌, ◌<◌, ◌&&◌, ◌||◌, ℕ, All, length, IfOk, OnOk};
ghost use Rattle.std.specs.List.{list_any};
ghost use Rattle.rtl_net.specs.Nets.{signal_view};
ghost use Rattle.rtl_body_facts.specs.Reading.{is_in};
ghost use Rattle.rtl_outside_ranges.specs.Outside.{is_of_integers};
ghost use Rattle.rtl_remarks.specs.Remarks as spec;
ghost use Rattle.rtl_remarks.specs.Tables.{takes, AreThose, AreReaders};

use rtl_body_facts::sort_once;
use rtl_net::{Net, NoMemory, Signal, SignalKind};
use std::alloc::Global;

/// Which signals.
#[derive(Clone, Copy)]
pub(crate) enum Which {
    /// Signals that are no ports.
    Signals,
    /// Ports of the top.
    TopPorts,
    /// Integers.
    Integers,
}

impl Which {
    /// Whether a signal is one of them.
    fn takes(self, signal: &Signal) -> bool
        ensures { result ≡ takes self (signal_view signal.now) }
    {
        match self {
            Which::Signals => !signal.port,
            Which::TopPorts => signal.port && signal.scope == 0,
            Which::Integers => is_integer(signal.kind),
        }
    }
}

/// Whether elements of this kind are digits of an integer.
fn is_integer(kind: SignalKind) -> bool
    ensures { result ≡ is_of_integers kind }
{
    match kind {
        SignalKind::Integer { .. } => true,
        SignalKind::One
        | SignalKind::Vector { .. }
        | SignalKind::Enumeration { .. }
        | SignalKind::Boolean => false,
    }
}

/// Appends the nets of a signal, if it is one of these.
fn push_nets(which: Which, signal: &Signal, nets: &mut Vec<usize>) -> Result<(), NoMemory>
    ensures { OnOk result ((n : ℕ) → is_in n nets.new.items
        ≡ (is_in n nets.old.items || (takes which (signal_view signal.now) && is_in n signal.now.nets.items))) }
{
    if which.takes(signal) {
        nets.extend_from_slice(signal.nets.as_slice())?;
    }
    Ok(())
}

/// The nets of these signals, rising.
pub(crate) fn nets_of(alloc: Global, net: &Net, which: Which) -> Result<Vec<usize>, NoMemory>
    ensures { IfOk result (λ nets. AreThose (spec.is_of (takes which) net.now.signals) nets.items) }
{
    let mut nets = Vec::new(alloc);
    let signals = net.signals();
    for signal in signals {
        push_nets(which, signal, &mut nets)?;
    }
    sort_once(&mut nets);
    Ok(nets)
}

// ---- ports of the top of which an element is read

/// Whether some process reads one of these nets.
fn is_some_read(net: &Net, readers: &[Option<usize>], nets: &[usize]) -> bool
    requires readers { AreReaders net.now readers.now }
    requires there { All (λ n. n < length net.now.types) nets.now }
    ensures { result ≡ list_any (spec.is_read net.now) nets.now }
{
    for number in nets {
        if readers[*number].is_some() {
            return true;
        }
    }
    false
}

/// Appends the nets of a signal, if it is such a port.
fn push_read_port(
    net: &Net,
    readers: &[Option<usize>],
    signal: &Signal,
    nets: &mut Vec<usize>,
) -> Result<(), NoMemory>
    requires readers { AreReaders net.now readers.now }
    requires there { All (λ n. n < length net.now.types) signal.now.nets.items }
    ensures { OnOk result ((n : ℕ) → is_in n nets.new.items
        ≡ (is_in n nets.old.items
        || (spec.is_read_port net.now (signal_view signal.now) && is_in n signal.now.nets.items))) }
{
    if Which::TopPorts.takes(signal) && is_some_read(net, readers, signal.nets.as_slice()) {
        nets.extend_from_slice(signal.nets.as_slice())?;
    }
    Ok(())
}

/// The nets of these ports, rising.
pub(crate) fn read_ports(
    alloc: Global,
    net: &Net,
    readers: &[Option<usize>],
) -> Result<Vec<usize>, NoMemory>
    requires readers { AreReaders net.now readers.now }
    ensures { IfOk result (λ nets. AreThose (spec.is_of (spec.is_read_port net.now) net.now.signals) nets.items) }
{
    net.is_elaborated();
    let mut nets = Vec::new(alloc);
    let signals = net.signals();
    for signal in signals {
        push_read_port(net, readers, signal, &mut nets)?;
    }
    sort_once(&mut nets);
    Ok(nets)
}
