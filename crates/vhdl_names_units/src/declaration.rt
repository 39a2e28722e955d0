//! Declarations as they are analysed (IEEE 1076-2008, clauses 5 and 6). One declaration of several
//! names stands once, with its names in order: its range and default are computed once.

use crate::answers::{Fixed, Form};
use drops::take_apart;
use vhdl_names_trees::{IntegerSubtype, Static, StaticRange, StaticTest};
use vhdl_tree::{Identifier, Mode};

/// What a generic is: an integer, a boolean, or of the nine values.
pub enum GenericType {
    Integers(IntegerSubtype),
    Truths,
    Values(Form),
}

impl Drop for GenericType {
    fn drop(self) {
        take_apart!(self: Integers(_) | Truths | Values(_));
    }
}

/// Generics of one declaration.
pub struct Generics {
    pub names: Vec<Identifier>,
    pub generic_type: GenericType,
    pub default: Option<Fixed>,
}

impl Drop for Generics {
    fn drop(self) {
        take_apart!(self: { names, generic_type, default });
    }
}

/// Signals, variables or ports of one declaration. `is_resolved` says whether several sources of an
/// element are resolved; a variable has none.
pub struct Objects {
    pub names: Vec<Identifier>,
    pub form: Form,
    pub is_resolved: bool,
    pub default: Option<Fixed>,
}

impl Drop for Objects {
    fn drop(self) {
        take_apart!(self: { names, form, is_resolved, default });
    }
}

/// Ports of one declaration.
pub struct Ports {
    pub mode: Mode,
    pub objects: Objects,
}

impl Drop for Ports {
    fn drop(self) {
        take_apart!(self: { mode, objects });
    }
}

/// A declaration of an architecture or a process: of objects, or of a subtype with a range.
pub enum Declaration {
    /// Constants of a type of integers. What is wrong with the value is told at its byte, or at
    /// the names.
    Integers {
        names: Vec<Identifier>,
        told_at: Option<usize>,
        subtype: IntegerSubtype,
        value: Static,
    },
    /// Boolean constants.
    Truths {
        names: Vec<Identifier>,
        value: StaticTest,
    },
    /// Any other constants.
    Constants {
        names: Vec<Identifier>,
        form: Form,
        value: Fixed,
    },
    Signals(Objects),
    /// Of a process alone.
    Variables(Objects),
    /// Subtypes with a range, and the byte at which their name starts.
    VectorSubtype(usize, StaticRange),
    IntegerSubtype(usize, IntegerSubtype),
}

impl Drop for Declaration {
    fn drop(self) {
        take_apart!(self: Integers { names, told_at, subtype, value } | Truths { names, value }
            | Constants { names, form, value } | Signals(_) | Variables(_) | VectorSubtype(_, _)
            | IntegerSubtype(_, _));
    }
}
