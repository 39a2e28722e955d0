//! Concurrent statements as they are analysed (IEEE 1076-2008, clause 11).

ghost use Rattle.std.specs.Prelude.{◌≡◌};
ghost use Rattle.vhdl_names_units.specs.views.Concurrent as views;

use crate::actuals::Actuals;
use crate::answers::Fixed;
use crate::declaration::Declaration;
use crate::sequential::Statement;
use drops::take_apart;
use vhdl_names_trees::{SignalPart, StaticRange, StaticTest};
use vhdl_tree::Identifier;

/// What resumes a process.
pub enum Sensitivity {
    Listed(Vec<SignalPart>),
    /// `( all )`.
    All,
    /// What a concurrent assignment reads.
    AsRead,
}

impl Drop for Sensitivity {
    fn drop(self) {
        take_apart!(self: Listed(_) | All | AsRead);
    }
}

/// A process or a concurrent assignment, and the byte at which it starts.
pub struct Process {
    pub at: usize,
    pub label: Option<Identifier>,
    pub declarations: Vec<Declaration>,
    pub sensitivity: Sensitivity,
    pub statements: Vec<Statement>,
}

impl Drop for Process {
    fn drop(self) {
        take_apart!(self: { at, label, declarations, sensitivity, statements });
    }
}

/// An instance of the unit of this number: each generic's actual, and each port's.
pub struct Instance {
    pub label: Identifier,
    pub unit: usize,
    pub generics: Actuals<Fixed>,
    pub ports: Actuals<SignalPart>,
}

impl Drop for Instance {
    fn drop(self) {
        take_apart!(self: { label, unit, generics, ports });
    }
}

/// A concurrent statement.
#[cycle(concurrent)]
pub enum Concurrent {
    Process(Process),
    Instance(Instance),
    Generate(Generate),
}

impl Drop for Concurrent {
    #[cycle(concurrent)]
    fn drop(self) {
        take_apart!(self: Process(_) | Instance(_) | Generate(_));
    }
}

/// What a generate goes by.
pub enum Scheme {
    For(StaticRange),
    If(StaticTest),
}

impl Drop for Scheme {
    fn drop(self) {
        take_apart!(self: For(_) | If(_));
    }
}

/// A generate, and the byte at which its scheme starts.
#[cycle(concurrent)]
pub struct Generate {
    pub label: Identifier,
    pub at: usize,
    pub scheme: Scheme,
    pub statements: Vec<Concurrent>,
}

impl Drop for Generate {
    #[cycle(concurrent)]
    fn drop(self) {
        take_apart!(self: { label, at, scheme, statements });
    }
}

impl Concurrent {
    /// A generate, whose scheme starts at byte `at`.
    pub fn generated(
        label: Identifier,
        at: usize,
        scheme: Scheme,
        statements: Vec<Concurrent>,
    ) -> Concurrent
        ensures { views.concurrent_view result
            ≡ views.generated label.text.items at (views.concurrents_of (views.concurrents_view statements)) scheme }
    {
        Concurrent::Generate(Generate {
            label,
            at,
            scheme,
            statements,
        })
    }
}
