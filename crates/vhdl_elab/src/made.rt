//! What is made of the instances of a design.

ghost use Rattle.vhdl_elab_rules.specs.Numbering.{nothing_numbered};
ghost use Rattle.vhdl_elab.specs.Made.{IsMade, role_of, is_of_top};
ghost use Rattle.vhdl_expand_tree.specs.Views.{role_view};
ghost use Rattle.std.specs.Prelude.{◌≡◌};

use rtl_net::{NetKind, Process, Scope, Signal};
use std::alloc::Global;
use vhdl_connect::Use;
use vhdl_expand_tree::Role;

/// What an element is part of.
#[derive(Clone, Copy)]
pub enum ElementRole {
    InputOfTop,
    OutputOfTop,
    SignalOfTop,
    /// An in port of an instance below the top; so are the others below.
    Input,
    Output,
    Signal,
}

impl ElementRole {
    /// Of an object with this role, in the top or in an instance below it.
    pub fn of(role: Role, is_top: bool) -> ElementRole
        ensures role { role_of result ≡ role_view role }
        ensures top { is_of_top result ≡ is_top }
    {
        match (role, is_top) {
            (Role::Input, true) => ElementRole::InputOfTop,
            (Role::Output, true) => ElementRole::OutputOfTop,
            (Role::Internal, true) => ElementRole::SignalOfTop,
            (Role::Input, false) => ElementRole::Input,
            (Role::Output, false) => ElementRole::Output,
            (Role::Internal, false) => ElementRole::Signal,
        }
    }
}

/// An element of a port or signal of an instance (IEEE 1076-2008, 6.4.2.3).
#[derive(Clone, Copy)]
pub struct Element {
    pub role: ElementRole,
    /// Whether several sources of it are resolved.
    pub is_resolved: bool,
    /// The default of the name.
    pub start: u8,
    pub net: u32,
    /// Whether the net is its own, and no actual's.
    pub is_own: bool,
    /// The byte of the source at which its object is declared.
    pub at: usize,
}

/// What is made of the instances of a design: the parts of its netlist, and beside them its
/// elements.
#[derive(Drop)]
pub struct Made {
    /// The top first, and instances in order of the text.
    pub scopes: Vec<Scope>,
    /// By scope, and in each in order of declaration.
    pub signals: Vec<Signal>,
    /// In order of the text.
    pub processes: Vec<Process>,
    /// The type of each net.
    pub kinds: Vec<NetKind>,
    /// The default of each net's own name.
    pub defaults: Vec<u8>,
    /// Those of all instances, by instance and in each in order of declaration.
    pub elements: Vec<Element>,
    /// What the instance of each of these elements does with it.
    pub uses: Vec<Use>,
}

impl Made {
    /// The tables of no instances. It takes no memory.
    pub fn nothing(alloc: Global) -> Made
        ensures { IsMade nothing_numbered result }
    {
        Made {
            scopes: Vec::new(alloc),
            signals: Vec::new(alloc),
            processes: Vec::new(alloc),
            kinds: Vec::new(alloc),
            defaults: Vec::new(alloc),
            elements: Vec::new(alloc),
            uses: Vec::new(alloc),
        }
    }
}
