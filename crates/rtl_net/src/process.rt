//! Processes.

use crate::body::Statement;
use crate::signal::SignalKind;
use drops::take_apart;
use smallvec::SmallVec;

/// A driver of a process: its net, and the value that it starts with (IEEE 1076-2008, 14.7.2).
#[derive(Clone, Copy)]
pub struct Driver {
    pub net: usize,
    pub start: u8,
}

/// A variable of a process, and the values of its elements at the start of each run, from the left.
pub struct Variable {
    pub name: Vec<u8>,
    pub kind: SignalKind,
    pub starts: SmallVec<u8, 8>,
}

impl Drop for Variable {
    fn drop(self) {
        take_apart!(self: { name, kind, starts });
    }
}

/// A process of the elaborated design.
pub struct Process {
    /// Its drivers, in order of declaration of what they drive. The places in its body's
    /// assignments count them.
    pub drives: Vec<Driver>,
    /// The nets that its body reads, rising.
    pub reads: Vec<usize>,
    /// The nets that it is sensitive to, rising.
    pub wakes: SmallVec<usize, 2>,
    /// Its variables, in order of declaration.
    pub variables: Vec<Variable>,
    pub body: Vec<Statement>,
    /// The number of the scope in which it stands.
    pub scope: usize,
    /// The labels of the generates round it in its scope, joined by dots; empty where there is
    /// none.
    pub generates: Vec<u8>,
    pub label: Option<Vec<u8>>,
    /// The byte of the source at which it starts, behind its label (IEEE 1076-2008, 11.3).
    pub at: u32,
}

impl Drop for Process {
    fn drop(self) {
        take_apart!(self: { drives, reads, wakes, variables, body, scope, generates, label, at });
    }
}
