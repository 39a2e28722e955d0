//! What the targets of assignments look at while a body is walked.

ghost use Rattle.std.specs.Prelude.{◌≡◌, [], if◌then◌else◌, OnOk};
ghost use Rattle.rtl_model.specs.bodies.Assigns.{Target, is_target};
ghost use Rattle.rtl_looks.specs.Targets.{target_of, look_of, was};

use crate::changes::Changes;
use crate::hubs::Look;
use crate::table::Table;
use std::alloc::{AllocError, Global};

/// What a number counts.
#[derive(Clone, Copy)]
pub(crate) enum Kind {
    /// Drivers of the process, by their places.
    Driver,
    /// Elements of its variables.
    Element,
}

/// What each target looks at so far.
#[derive(Drop)]
pub(crate) struct Env {
    pub(crate) drivers: Table,
    pub(crate) elements: Table,
}

impl Env {
    /// Where no target looks at anything.
    pub(crate) fn new(alloc: Global) -> Self
        ensures drivers { result.drivers.looks.items ≡ [] }
        ensures elements { result.elements.looks.items ≡ [] }
    {
        Env {
            drivers: Table::new(alloc),
            elements: Table::new(alloc),
        }
    }

    /// Makes a target look at this, which is noted as a change.
    pub(crate) fn put(
        &mut self,
        kind: Kind,
        number: usize,
        look: Option<Look>,
        changes: &mut Changes,
    ) -> Result<(), AllocError>
        ensures put { OnOk result ((t : Target) → look_of self.new t
            ≡ (if is_target (target_of kind number) t then look else look_of self.old t)) }
        ensures kept { OnOk result ((t : Target) → was changes.new self.new t ≡ was changes.old self.old t) }
    {
        match kind {
            Kind::Driver => self.drivers.put(number, look, &mut changes.drivers),
            Kind::Element => self.elements.put(number, look, &mut changes.elements),
        }
    }
}
