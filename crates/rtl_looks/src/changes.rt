//! What a part of a body changes.

ghost use Rattle.std.specs.Prelude.{◌≡◌, []};

use crate::table::Change;
use std::alloc::Global;

/// The changes that a part of a body makes, in order: of what drivers look at, and elements of
/// variables.
#[derive(Drop)]
pub(crate) struct Changes {
    pub(crate) drivers: Vec<Change>,
    pub(crate) elements: Vec<Change>,
}

impl Changes {
    /// No changes.
    pub(crate) fn new(alloc: Global) -> Self
        ensures drivers { result.drivers.items ≡ [] }
        ensures elements { result.elements.items ≡ [] }
    {
        Changes {
            drivers: Vec::new(alloc),
            elements: Vec::new(alloc),
        }
    }
}
