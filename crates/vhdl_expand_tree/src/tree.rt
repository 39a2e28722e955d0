//! The tree: a design, its instances, and the objects and processes of these. Elements of an
//! instance's ports and signals are numbered from 0 in order of declaration, ports before signals,
//! and from the left; those of a process's variables in the same way.

use drops::take_apart;
use rtl_net::Statement;
use smallvec::SmallVec;
use vhdl_expand_rules::ObjectKind;

/// What an object is to its instance.
#[derive(Clone, Copy)]
pub enum Role {
    /// A port of mode in.
    Input,
    /// A port of mode out.
    Output,
    /// A signal.
    Internal,
}

/// A port or a signal (6.4.2.3, 6.5.2).
pub struct Object {
    pub name: Vec<u8>,
    pub role: Role,
    pub kind: ObjectKind,
    /// Whether several sources of an element are resolved.
    pub is_resolved: bool,
    /// What its elements start with, from the left: codes of the nine values, or a position.
    pub starts: SmallVec<u8, 8>,
    /// Of an associated port, the elements of its actual in the instance above, from the left.
    pub actual: Option<Vec<usize>>,
    /// The byte of the source at which it is declared.
    pub at: usize,
}

impl Drop for Object {
    fn drop(self) {
        take_apart!(self: { name, role, kind, is_resolved, starts, actual, at });
    }
}

/// A variable of a process (6.4.2.4), and what its elements start with, from the left.
pub struct Variable {
    pub name: Vec<u8>,
    pub kind: ObjectKind,
    pub starts: SmallVec<u8, 8>,
}

impl Drop for Variable {
    fn drop(self) {
        take_apart!(self: { name, kind, starts });
    }
}

/// What resumes a process (11.3).
pub enum Sensitivity {
    /// These elements, which a list names.
    Listed(Vec<usize>),
    /// Those of `( all )`: of the longest static prefixes of all names that it reads.
    Every(Vec<usize>),
    /// What it reads.
    AsRead,
}

impl Drop for Sensitivity {
    fn drop(self) {
        take_apart!(self: Listed(_) | Every(_) | AsRead);
    }
}

/// A process, or the process that a concurrent assignment is (11.3, 11.6).
pub struct Process {
    /// The labels of the generates round it, each with a dot behind it.
    pub prefix: Vec<u8>,
    pub label: Option<Vec<u8>>,
    /// The elements that it has a driver for, rising (14.7.2).
    pub drives: Vec<usize>,
    pub sensitivity: Sensitivity,
    /// In order of declaration.
    pub variables: Vec<Variable>,
    /// Its statements, in which elements stand for nets and for places of drivers.
    pub body: Vec<Statement>,
    /// How many turns its loops have together.
    pub turns: u32,
    /// The byte of the source at which it starts.
    pub at: usize,
}

impl Drop for Process {
    fn drop(self) {
        take_apart!(self: { prefix, label, drives, sensitivity, variables, body, turns, at });
    }
}

/// An instance of an entity with its architecture (14.3).
#[cycle(instance)]
pub struct Instance {
    /// Its ports and signals, in order of declaration.
    pub objects: Vec<Object>,
    /// How many turns its generates have together.
    pub turns: u32,
    /// In order of the text.
    pub parts: Vec<InstancePart>,
}

impl Drop for Instance {
    #[cycle(instance)]
    fn drop(self) {
        take_apart!(self: { objects, turns, parts });
    }
}

/// What stands in an instance.
#[cycle(instance)]
pub enum InstancePart {
    Process(Process),
    /// The label has those of the generates round it before it, joined by dots.
    Instance { label: Vec<u8>, instance: Instance },
}

impl Drop for InstancePart {
    #[cycle(instance)]
    fn drop(self) {
        take_apart!(self: Process(_) | Instance { label, instance });
    }
}

/// A design: the name of its top's entity, and the top.
pub struct Design {
    pub name: Vec<u8>,
    pub top: Instance,
}

impl Drop for Design {
    fn drop(self) {
        take_apart!(self: { name, top });
    }
}
