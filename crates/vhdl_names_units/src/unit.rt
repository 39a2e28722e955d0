//! The units of a file as they are analysed (IEEE 1076-2008, clauses 3 and 13).

use crate::concurrent::Concurrent;
use crate::declaration::{Declaration, Generics, Ports};
use drops::take_apart;
use vhdl_tree::Identifier;

/// An architecture.
pub struct Architecture {
    pub name: Identifier,
    pub declarations: Vec<Declaration>,
    pub statements: Vec<Concurrent>,
}

impl Drop for Architecture {
    fn drop(self) {
        take_apart!(self: { name, declarations, statements });
    }
}

/// An entity, and its architecture if the file has one.
pub struct Entity {
    pub name: Identifier,
    pub generics: Vec<Generics>,
    pub ports: Vec<Ports>,
    pub architecture: Option<Architecture>,
}

impl Drop for Entity {
    fn drop(self) {
        take_apart!(self: { name, generics, ports, architecture });
    }
}

/// The entities of a file in order of the text. Instances speak of one by its place here.
pub struct Units {
    pub entities: Vec<Entity>,
}

impl Drop for Units {
    fn drop(self) {
        take_apart!(self: { entities });
    }
}
