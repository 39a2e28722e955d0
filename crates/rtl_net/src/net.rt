//! The netlist of a design: its nets with their types and sources, and the names of its parts.

ghost use Rattle.std.specs.Prelude.{◌≡◌, ◌<◌, true, length, map, slice_get, slice_index, Some};
ghost use Rattle.rtl_model.specs.nets.FlatNetlist.{flat_sources};
ghost use Rattle.rtl_net.specs.Nets.{flat, type_of, source_view, scope_view, signal_view};
ghost use Rattle.rtl_net.specs.Elaborated.{IsNet};

use crate::process::Process;
use crate::signal::{Scope, Signal};
use drops::take_apart;
use smallvec::SmallVec;
use std::alloc::AllocError;
use std::marker::Model;

/// A growth was refused.
pub type NoMemory = AllocError;

/// The type of a net.
#[derive(Clone, Copy)]
pub enum NetKind {
    /// One element of std_logic or std_ulogic.
    Nine,
    /// One value of an enumeration with so many literals.
    Enumeration { count: u32 },
}

/// A source of a net (IEEE 1076-2008, 14.7.2).
#[derive(Clone, Copy)]
pub enum Source {
    /// A driver, by its process and its place in that process's `drives`.
    Driven { process: usize, place: usize },
    /// An out port that nothing drives, with the value that it holds for ever.
    Idle { start: u8 },
}

/// What stands at the unused places of a short list.
impl Default for Source {
    fn default() -> Source {
        Source::Idle { start: 0 }
    }
}

/// The element of a signal that a net was declared as: the signal's number, and the element's place
/// from the left.
#[derive(Clone, Copy)]
pub(crate) struct Owner {
    pub(crate) signal: usize,
    pub(crate) place: usize,
}

/// The flat netlist of an elaborated design (IEEE 1076-2008, 14.2 to 14.4), with the names of its
/// parts. Nets, processes, scopes and signals are numbered from 0, in order of the text. No call
/// but the names takes memory.
pub struct Net {
    pub(crate) kinds: Vec<NetKind>,
    pub(crate) starts: Vec<u8>,
    pub(crate) sources: Vec<SmallVec<Source, 1>>,
    pub(crate) owners: Vec<Owner>,
    pub(crate) inputs: Vec<usize>,
    pub(crate) processes: Vec<Process>,
    pub(crate) scopes: Vec<Scope>,
    pub(crate) signals: Vec<Signal>,
    pub(crate) wide: bool,
}

/// Written out, so that a crate that lets a netlist go proves nothing of what is in it.
impl Drop for Net {
    fn drop(self) {
        take_apart!(self: { kinds, starts, sources, owners, inputs, processes, scopes, signals, wide });
    }
}

impl Model for Net {
    ghost use Rattle.rtl_net.specs.Nets.{NetlistView};
    ghost use Rattle.rtl_net.specs.contracts.process.Process as process_contract;
    ghost use Rattle.std.specs.Coded.{codes};

    ghost Value = { NetlistView };

    ghost coded = { Prim.hlevel (codes, process_contract.the_row.coded) };

    ghost use Rattle.rtl_net.specs.NetOf.{net_of, IsKept};

    ghost view = { net_of };

    ghost invariant = { IsKept };
}

impl Net {
    /// What holds of every netlist, for a proof that asks it: nothing is computed.
    pub fn is_elaborated(&self)
        ensures { IsNet self.now }
    {
        let _kinds = self.kinds.len();
    }

    /// How many nets there are.
    pub fn nets(&self) -> usize
        ensures count { result ≡ length self.now.types }
        ensures elaborated { IsNet self.now }
    {
        self.kinds.len()
    }

    /// The type of a net.
    pub fn kind(&self, net: usize) -> NetKind
        requires there { net < length self.now.types }
        ensures { slice_get self.now.types net ≡ Some (type_of result) }
    {
        self.kinds[net]
    }

    /// The value that a net starts with: the code of one of the nine values, or the position of a
    /// literal.
    pub fn start(&self, net: usize) -> u8
        requires there { net < length self.now.types }
        ensures { slice_get self.now.starts net ≡ Some result }
    {
        self.starts[net]
    }

    /// The nets of the top's in ports, rising.
    pub fn inputs(&self) -> &[usize]
        ensures { result.now ≡ self.now.inputs }
    {
        self.inputs.as_slice()
    }

    /// The sources of a net: its drivers, by process and place, and behind them its idle out ports.
    pub fn sources(&self, net: usize) -> &[Source]
        requires there { net < length self.now.types }
        ensures { map source_view result.now ≡ flat_sources (flat self.now) net }
    {
        self.sources[net].as_slice()
    }

    /// The processes, in order of the text.
    pub fn processes(&self) -> &[Process]
        ensures { result.now ≡ self.now.processes }
    {
        self.processes.as_slice()
    }

    /// Whether it was read by the wider language.
    pub fn is_wide(&self) -> bool
        ensures { result ≡ self.now.wide }
    {
        self.wide
    }

    /// The netlist as one that was read by the wider language.
    pub fn widened(self) -> Net
        ensures { result ≡ record self { wide = true } }
    {
        let mut net = self;
        net.wide = true;
        net
    }

    /// The scopes: the top first, and then the instances in order of the text.
    pub fn scopes(&self) -> &[Scope]
        ensures { map scope_view result.now ≡ self.now.scopes }
    {
        self.scopes.as_slice()
    }

    /// The signals and ports, in order of their scopes, and in each its ports first.
    pub fn signals(&self) -> &[Signal]
        ensures { map signal_view result.now ≡ self.now.signals }
    {
        self.signals.as_slice()
    }
}
