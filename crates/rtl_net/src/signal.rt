//! Scopes and signals: the design as it is named.

ghost use Rattle.std.specs.Prelude.{◌≡◌, IfOk};
ghost use Rattle.rtl_net.specs.Nets.{signal_view};

use drops::take_apart;
use smallvec::SmallVec;
use std::alloc::{AllocError, Global};

/// An instance, or the top: its label and the scope in which it stands. The top's label is its
/// entity's name, an instance's has the labels of the generates round it before its own, joined by
/// dots.
pub struct Scope {
    pub label: Vec<u8>,
    /// The number of the scope round it; `None` for the top.
    pub parent: Option<usize>,
}

impl Drop for Scope {
    fn drop(self) {
        take_apart!(self: { label, parent });
    }
}

/// The type of a signal or variable, and of a vector its bounds as declared.
#[derive(Clone, Copy)]
pub enum SignalKind {
    /// One element of the nine values.
    One,
    Vector { left: u32, right: u32 },
    /// One value of an enumeration with so many literals.
    Enumeration { count: u32 },
    /// A whole number within these bounds, in as few digits as hold them all, the highest first:
    /// without a sign where none is below 0, else in two's complement.
    Integer { least: i32, greatest: i32 },
    /// `true` or `false`, in one element: 1 where it is true.
    Boolean,
}

/// A signal, or a port as its scope names it.
pub struct Signal {
    /// The number of the scope in which it is declared.
    pub scope: usize,
    pub name: Vec<u8>,
    /// Whether it is a port.
    pub port: bool,
    pub kind: SignalKind,
    /// Its elements' nets, from the left; a port's are those of its actual.
    pub nets: SmallVec<usize, 1>,
    /// The byte of the source at which it is declared.
    pub at: u32,
}

impl Signal {
    /// A copy. It takes the memory of its name, and of its nets where it has several.
    pub fn copied(&self, alloc: Global) -> Result<Signal, AllocError>
        ensures { IfOk result (λ copy. signal_view copy ≡ signal_view self.now) }
    {
        let name = Vec::from_slice(alloc, &self.name)?;
        let nets = SmallVec::from_slice(alloc, &self.nets)?;
        Ok(Signal {
            scope: self.scope,
            name,
            port: self.port,
            kind: self.kind,
            nets,
            at: self.at,
        })
    }
}

impl Drop for Signal {
    fn drop(self) {
        take_apart!(self: { scope, name, port, kind, nets, at });
    }
}
