//! A netlist of its parts, with the tables that `Net` keeps beside them.

ghost use Rattle.std.specs.Prelude.{◌≡◌, ℕ, ◌<◌, ◌++◌, [], All, length, map, Some, IfOk, OnOk};
ghost use Rattle.rtl_model.specs.nets.FlatNetlist.{drivers_of, all_drivers_of};
ghost use Rattle.rtl_model.specs.simulation.Netlist.{Idle};
ghost use Rattle.rtl_net.specs.declared.process.Driver.{Driver};
ghost use Rattle.rtl_net.specs.declared.process.Process.{Process};
ghost use Rattle.rtl_net.specs.Nets.{driver_view, process_view, signal_view};
ghost use Rattle.rtl_net.specs.Names.{Element, place_in, element_from};
ghost use Rattle.rtl_net.specs.Elaborated.{IsNet};
ghost use Rattle.rtl_net.specs.Parts.{assembled, idle_at, IdleAreThere};
ghost use Rattle.rtl_net.specs.steps.Tables.{nets_of, sources_at, owner_at, AddsSources, Owns, element_at};

use crate::net::{Net, NetKind, NoMemory, Owner, Source};
use crate::process::{Driver, Process};
use crate::signal::{Scope, Signal};
use smallvec::SmallVec;
use std::alloc::Global;

/// An out port of an instance that nothing drives: its net, and the value that it holds for ever.
#[derive(Clone, Copy)]
pub struct IdlePort {
    pub net: usize,
    pub start: u8,
}

/// What a netlist is made of.
#[derive(Drop)]
pub struct Parts {
    /// The type of each net.
    pub kinds: Vec<NetKind>,
    /// What each net starts with.
    pub starts: Vec<u8>,
    /// In order of the text.
    pub idle: Vec<IdlePort>,
    /// The nets of the top's in ports, rising.
    pub inputs: Vec<usize>,
    pub processes: Vec<Process>,
    /// The top first.
    pub scopes: Vec<Scope>,
    /// By scope, and in each its ports first.
    pub signals: Vec<Signal>,
}

impl Net {
    /// The netlist of these parts. It takes the memory of two tables over its nets, in time
    /// proportional to drivers, idle ports and elements of signals.
    pub fn new(alloc: Global, parts: Parts) -> Result<Net, NoMemory>
        requires elaborated { IsNet (assembled parts) }
        requires idle { IdleAreThere parts }
        ensures { IfOk result (λ net. net ≡ assembled parts) }
    {
        let nets = parts.kinds.len();
        let sources = sources(alloc, nets, &parts.processes, &parts.idle)?;
        let owners = owners(alloc, nets, &parts.signals)?;
        Ok(Net {
            kinds: parts.kinds,
            starts: parts.starts,
            sources,
            owners,
            inputs: parts.inputs,
            processes: parts.processes,
            scopes: parts.scopes,
            signals: parts.signals,
            wide: false,
        })
    }
}

/// The sources of each of so many nets.
fn sources(
    alloc: Global,
    nets: usize,
    processes: &[Process],
    idle: &[IdlePort],
) -> Result<Vec<SmallVec<Source, 1>>, NoMemory>
    requires drivers { All (λ (p : Process). All (λ (d : Driver). d.net < nets) p.drives.items) processes.now }
    requires ports { All (λ (p : IdlePort). p.net < nets) idle.now }
    ensures length { IfOk result (λ table. length table.items ≡ nets) }
    ensures each { IfOk result (λ table. (n : ℕ) → n < nets
        → sources_at table.items n ≡ all_drivers_of n 0 (map process_view processes.now)
        ++ map Idle (idle_at idle.now n)) }
{
    let mut table = no_sources(alloc, nets)?;
    for number in 0..processes.len() {
        add_drivers(&mut table, number, &processes[number].drives)?;
    }
    add_idle(&mut table, idle)?;
    Ok(table)
}

/// No source for each of so many nets.
fn no_sources(alloc: Global, nets: usize) -> Result<Vec<SmallVec<Source, 1>>, NoMemory>
    ensures length { IfOk result (λ table. length table.items ≡ nets) }
    ensures each { IfOk result (λ table. (n : ℕ) → sources_at table.items n ≡ []) }
{
    let mut table = Vec::with_capacity(alloc, nets)?;
    for _ in 0..nets {
        table.push(SmallVec::new(alloc))?;
    }
    Ok(table)
}

/// Adds the drivers of a process to the sources of their nets.
fn add_drivers(
    table: &mut Vec<SmallVec<Source, 1>>,
    process: usize,
    drives: &[Driver],
) -> Result<(), NoMemory>
    requires { All (λ (d : Driver). d.net < length table.old.items) drives.now }
    ensures { OnOk result (AddsSources (λ n. drivers_of n process 0 (nets_of drives.now)) table.old.items
        table.new.items) }
{
    for place in 0..drives.len() {
        let net = drives[place].net;
        table[net].push(Source::Driven { process, place })?;
    }
    Ok(())
}

/// Adds the idle ports to the sources of their nets.
fn add_idle(table: &mut Vec<SmallVec<Source, 1>>, idle: &[IdlePort]) -> Result<(), NoMemory>
    requires { All (λ (p : IdlePort). p.net < length table.old.items) idle.now }
    ensures { OnOk result (AddsSources (λ n. map Idle (idle_at idle.now n)) table.old.items table.new.items) }
{
    for port in idle {
        table[port.net].push(Source::Idle { start: port.start })?;
    }
    Ok(())
}

/// The element that each of so many nets was declared as: the first that has the net.
fn owners(alloc: Global, nets: usize, signals: &[Signal]) -> Result<Vec<Owner>, NoMemory>
    requires { All (λ (s : Signal). All (λ n. n < nets) s.nets.items) signals.now }
    ensures length { IfOk result (λ owners. length owners.items ≡ nets) }
    ensures each { IfOk result (λ owners. (n : ℕ) (e : Element) → n < nets
        → element_from 0 (map signal_view signals.now) n ≡ Some e
        → owner_at owners.items n e ≡ e) }
{
    let unknown = Owner {
        signal: 0,
        place: 0,
    };
    let mut owners = vec![in alloc; unknown; nets]?;
    let mut signal = signals.len();
    while signal > 0 {
        signal -= 1;
        own(&mut owners, signal, signals[signal].nets.as_slice());
    }
    Ok(owners)
}

/// Gives each of these nets its first place among them, as an element of a signal, as its owner.
fn own(owners: &mut Vec<Owner>, signal: usize, nets: &[usize])
    requires { All (λ n. n < length owners.old.items) nets.now }
    ensures { Owns (λ n. element_at signal (place_in nets.now n)) owners.old.items owners.new.items }
{
    let mut place = nets.len();
    while place > 0 {
        place -= 1;
        owners[nets[place]] = Owner { signal, place };
    }
}
