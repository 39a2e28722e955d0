//! Declarations (IEEE 1076-2008 clause 6).

use crate::expression::{DiscreteRange, Expr, Identifier, Value};
use drops::take_apart;
use vhdl_lexer::TokenKind;

/// A type's name, and the constraint after it (6.3).
pub struct Subtype {
    pub mark: Identifier,
    pub constraint: Option<Constraint>,
}

impl Drop for Subtype {
    fn drop(self) {
        take_apart!(self: { mark, constraint });
    }
}

/// What a subtype keeps of its type: `( range )`, the indices of a vector (5.3.2), or
/// `range range`, some of the numbers of an integer type (5.2.1).
pub enum Constraint {
    Index(DiscreteRange),
    Range(DiscreteRange),
}

impl Drop for Constraint {
    fn drop(self) {
        take_apart!(self: Index(_) | Range(_));
    }
}

/// The mode of a port.
#[derive(Clone, Copy, Debug)]
pub enum Mode {
    In,
    Out,
}

/// Generics of one subtype. `constant_word` and `in_word` say whether these words stand there.
pub struct Generic {
    pub constant_word: bool,
    pub names: Vec<Identifier>,
    pub in_word: bool,
    pub subtype: Subtype,
    pub default: Option<Expr>,
}

impl Drop for Generic {
    fn drop(self) {
        take_apart!(self: { constant_word, names, in_word, subtype, default });
    }
}

/// Ports of one mode and subtype. `signal_word` says whether `signal` stands there.
pub struct Port {
    pub signal_word: bool,
    pub names: Vec<Identifier>,
    pub mode: Option<Mode>,
    pub subtype: Subtype,
    pub default: Option<Value>,
}

impl Drop for Port {
    fn drop(self) {
        take_apart!(self: { signal_word, names, mode, subtype, default });
    }
}

/// Signals of one subtype.
pub struct Signals {
    pub names: Vec<Identifier>,
    pub subtype: Subtype,
    pub default: Option<Value>,
}

impl Drop for Signals {
    fn drop(self) {
        take_apart!(self: { names, subtype, default });
    }
}

/// Variables of a process, of one subtype (6.4.2.4).
pub struct Variables {
    pub names: Vec<Identifier>,
    pub subtype: Subtype,
    pub default: Option<Value>,
}

impl Drop for Variables {
    fn drop(self) {
        take_apart!(self: { names, subtype, default });
    }
}

/// Constants of one subtype and value.
pub struct Constants {
    pub names: Vec<Identifier>,
    pub subtype: Subtype,
    pub value: Value,
}

impl Drop for Constants {
    fn drop(self) {
        take_apart!(self: { names, subtype, value });
    }
}

/// An enumeration type and its literals in order.
pub struct Enumeration {
    pub name: Identifier,
    pub literals: Vec<Identifier>,
}

impl Drop for Enumeration {
    fn drop(self) {
        take_apart!(self: { name, literals });
    }
}

/// A subtype and its name (6.3).
pub struct SubtypeDeclaration {
    pub name: Identifier,
    pub subtype: Subtype,
}

impl Drop for SubtypeDeclaration {
    fn drop(self) {
        take_apart!(self: { name, subtype });
    }
}

/// A component. `is_word` says whether `is` stands after its name.
pub struct Component {
    pub name: Identifier,
    pub is_word: bool,
    pub generics: Option<Vec<Generic>>,
    pub ports: Option<Vec<Port>>,
    pub end_name: Option<Identifier>,
}

impl Drop for Component {
    fn drop(self) {
        take_apart!(self: { name, is_word, generics, ports, end_name });
    }
}

/// A declaration of an architecture.
pub enum Declaration {
    Signals(Signals),
    Constants(Constants),
    Enumeration(Enumeration),
    Component(Component),
    Subtype(SubtypeDeclaration),
    /// `attribute` and a text that is read and dropped (6.7, 7.2).
    Attribute(Vec<TokenKind>),
}

impl Drop for Declaration {
    fn drop(self) {
        take_apart!(self: Signals(_) | Constants(_) | Enumeration(_) | Component(_) | Subtype(_)
            | Attribute(_));
    }
}

/// A declaration of a process (11.3).
pub enum ProcessDeclaration {
    Variables(Variables),
    Constants(Constants),
    Enumeration(Enumeration),
    Subtype(SubtypeDeclaration),
}

impl Drop for ProcessDeclaration {
    fn drop(self) {
        take_apart!(self: Variables(_) | Constants(_) | Enumeration(_) | Subtype(_));
    }
}
