//! Design units and files (IEEE 1076-2008 clauses 3 and 13).

use crate::concurrent::{Assertion, Concurrent};
use crate::declaration::{Declaration, Generic, Port};
use crate::expression::Identifier;
use drops::take_apart;
use vhdl_lexer::TokenKind;

/// An entity, and the byte at which it starts. `attributes` are the texts behind `attribute`,
/// which are dropped; `statements` stand behind `begin`. `end_word` says whether `entity` stands
/// after `end`.
pub struct Entity {
    pub at: usize,
    pub name: Identifier,
    pub generics: Option<Vec<Generic>>,
    pub ports: Option<Vec<Port>>,
    pub attributes: Vec<Vec<TokenKind>>,
    pub statements: Option<Vec<Assertion>>,
    pub end_word: bool,
    pub end_name: Option<Identifier>,
}

impl Drop for Entity {
    fn drop(self) {
        take_apart!(self: { at, name, generics, ports, attributes, statements, end_word, end_name });
    }
}

/// An architecture, and the byte at which it starts. `end_word` says whether `architecture`
/// stands after `end`.
pub struct Architecture {
    pub at: usize,
    pub name: Identifier,
    pub entity: Identifier,
    pub declarations: Vec<Declaration>,
    pub statements: Vec<Concurrent>,
    pub end_word: bool,
    pub end_name: Option<Identifier>,
}

impl Drop for Architecture {
    fn drop(self) {
        take_apart!(self: { at, name, entity, declarations, statements, end_word, end_name });
    }
}

/// `library . name . all` of a use clause.
pub struct Selected {
    pub library: Identifier,
    pub name: Identifier,
}

impl Drop for Selected {
    fn drop(self) {
        take_apart!(self: { library, name });
    }
}

/// A library clause or a use clause.
pub enum ContextItem {
    Library(Vec<Identifier>),
    Use(Vec<Selected>),
}

impl Drop for ContextItem {
    fn drop(self) {
        take_apart!(self: Library(_) | Use(_));
    }
}

/// An entity or an architecture.
pub enum LibraryUnit {
    Entity(Entity),
    Architecture(Architecture),
}

impl Drop for LibraryUnit {
    fn drop(self) {
        take_apart!(self: Entity(_) | Architecture(_));
    }
}

/// An entity or architecture after its context clause.
pub struct DesignUnit {
    pub context: Vec<ContextItem>,
    pub unit: LibraryUnit,
}

impl Drop for DesignUnit {
    fn drop(self) {
        take_apart!(self: { context, unit });
    }
}

/// The design units of a file in order.
pub struct File {
    pub units: Vec<DesignUnit>,
}

/// Written out, so that a crate that lets a file go proves nothing of what is in it.
impl Drop for File {
    fn drop(self) {
        take_apart!(self: { units });
    }
}
