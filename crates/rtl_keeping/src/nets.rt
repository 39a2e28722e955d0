//! The nets of a netlist, and those that are added for variables.

ghost use Rattle.std.specs.Prelude.{◌≡◌, ◌+◌, ◌<◌, ◌≤◌, ◌^◌, ◌∷◌, [], flat_map, length, IfOk, OnOk};
ghost use Rattle.std.specs.List.{range_with_len};
ghost use Rattle.rtl_net.specs.Limits.{most_nets};
ghost use Rattle.rtl_net.specs.Nets.{type_of, element_type, signal_view};
ghost use Rattle.rtl_keeping.specs.Kept.{kept_signal};
ghost use Rattle.rtl_keeping.specs.Steps.{marked, types_of, Adds, IsOrdered};

use crate::names::name_of;
use rtl_net::{NetKind, Process, Signal, SignalKind, Variable};
use smallvec::SmallVec;
use std::alloc::{AllocError, Global};

/// The nets of a netlist, and its signals.
#[derive(Drop)]
pub(crate) struct Nets {
    /// The type of each net.
    pub(crate) kinds: Vec<NetKind>,
    /// What each net starts with.
    pub(crate) starts: Vec<u8>,
    pub(crate) signals: Vec<Signal>,
}

impl Nets {
    /// Puts the signals in order of their scopes; those of a scope stay in the order that they
    /// have.
    pub(crate) fn put_in_order(&mut self) -> Result<(), AllocError>
        ensures { OnOk result (IsOrdered self.old self.new) }
    {
        self.signals.sort_by_key(|signal| signal.scope)?;
        Ok(())
    }

    /// Adds those of each variable of a process that is marked.
    pub(crate) fn add_all(
        &mut self,
        alloc: Global,
        process: &Process,
        number: usize,
        marks: &[bool],
    ) -> Result<(), AllocError>
        requires many { length marks.now ≡ length process.now.variables.items }
        requires room { length self.old.kinds.items
            + length (flat_map types_of (marked marks.now process.now.variables.items)) ≤ most_nets }
        ensures { OnOk result (Adds process.now number (marked marks.now process.now.variables.items)
            self.old self.new) }
    {
        for k in 0..marks.len() {
            if marks[k] {
                self.add(alloc, process, number, &process.variables[k])?;
            }
        }
        Ok(())
    }

    /// Adds those of a variable of a process.
    fn add(
        &mut self,
        alloc: Global,
        process: &Process,
        number: usize,
        variable: &Variable,
    ) -> Result<(), AllocError>
        requires room { length self.old.kinds.items + length variable.now.starts.items ≤ most_nets }
        ensures { OnOk result (Adds process.now number (variable.now ∷ []) self.old self.new) }
    {
        let first = self.kinds.len();
        let many = variable.starts.len();
        let signal = signal_of(alloc, process, number, variable, first)?;
        self.signals.push(signal)?;
        self.kinds.resize(first + many, net_kind(variable.kind))?;
        self.starts.extend_from_slice(&variable.starts)?;
        Ok(())
    }
}

/// The type of the nets of a variable of this kind.
fn net_kind(kind: SignalKind) -> NetKind
    ensures { type_of result ≡ element_type kind }
{
    match kind {
        SignalKind::Enumeration { count } => NetKind::Enumeration { count },
        _ => NetKind::Nine,
    }
}

/// The signal that a kept variable of a process is, whose elements have the nets from this one on.
fn signal_of(
    alloc: Global,
    process: &Process,
    number: usize,
    variable: &Variable,
    first: usize,
) -> Result<Signal, AllocError>
    requires { first + length variable.now.starts.items < 2 ^ 64 }
    ensures { IfOk result (λ signal. signal_view signal ≡ kept_signal process.now number first variable.now) }
{
    Ok(Signal {
        scope: process.scope,
        name: name_of(alloc, process, number, variable)?,
        port: false,
        kind: variable.kind,
        nets: numbers_from(alloc, first, variable.starts.len())?,
        at: process.at,
    })
}

/// So many numbers from this one on.
fn numbers_from(alloc: Global, first: usize, many: usize) -> Result<SmallVec<usize, 1>, AllocError>
    requires { first + many < 2 ^ 64 }
    ensures { IfOk result (λ numbers. numbers.items ≡ range_with_len first many) }
{
    let mut numbers = SmallVec::new(alloc);
    for k in 0..many {
        numbers.push(first + k)?;
    }
    Ok(numbers)
}
