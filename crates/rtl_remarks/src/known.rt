//! What is known of a netlist while remarks on it are looked for.

ghost use Rattle.std.specs.Prelude.{IfOk};
ghost use Rattle.rtl_remarks.specs.Tables.{IsKnown};

use crate::clocks::clocks_of;
use crate::logic::logic_of;
use crate::readers::first_readers;
use crate::signals::{Which, nets_of, read_ports};
use rtl_net::{Net, NoMemory};
use std::alloc::Global;

/// What is known of a netlist. Each list of nets rises.
#[derive(Drop)]
pub(crate) struct Known {
    /// The nets of signals that are no ports.
    pub(crate) signals: Vec<usize>,
    /// Those of ports of the top, and of those in ports of which an element is read.
    pub(crate) ports: Vec<usize>,
    pub(crate) read_ports: Vec<usize>,
    pub(crate) clocks: Vec<usize>,
    /// The digits of integers.
    pub(crate) integers: Vec<usize>,
    /// What combinational processes drive.
    pub(crate) logic: Vec<usize>,
    /// Of each net the first process that reads it.
    pub(crate) readers: Vec<Option<usize>>,
}

/// What is known of a netlist.
pub(crate) fn known_of(alloc: Global, net: &Net) -> Result<Known, NoMemory>
    ensures { IfOk result (λ known. IsKnown net.now known) }
{
    let readers = first_readers(alloc, net)?;
    let read_ports = read_ports(alloc, net, &readers)?;
    let signals = nets_of(alloc, net, Which::Signals)?;
    let ports = nets_of(alloc, net, Which::TopPorts)?;
    let clocks = clocks_of(alloc, net)?;
    let integers = nets_of(alloc, net, Which::Integers)?;
    let logic = logic_of(alloc, net)?;
    Ok(Known {
        signals,
        ports,
        read_ports,
        clocks,
        integers,
        logic,
        readers,
    })
}
