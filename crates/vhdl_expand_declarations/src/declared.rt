//! What is known of an instance, and of a process in one (IEEE 1076-2008, 14.3).

ghost use Rattle.std.specs.Prelude.{◌+◌, ◌^◌, ◌<◌};

use crate::region::Region;
use vhdl_expand_bodies::Layout;
use vhdl_expand_tree::{Object, Variable};

/// What is known of an instance, and its ports and signals so far.
#[derive(Drop)]
pub struct InstanceObjects {
    /// The values of its generics that are integers, and the positions of booleans.
    pub generics: Vec<i32>,
    pub region: Region,
    pub ports: Layout,
    pub signals: Layout,
    /// Its ports and signals, in order of declaration.
    pub objects: Vec<Object>,
    ghost few_elements: { ports.elements + signals.elements < 2 ^ 32 },
}

/// What is known in a process, and its variables so far.
#[derive(Drop)]
pub struct ProcessVariables {
    /// Its own constants and ranges.
    pub region: Region,
    pub layout: Layout,
    pub variables: Vec<Variable>,
    ghost few_elements: { layout.elements < 2 ^ 32 },
}
