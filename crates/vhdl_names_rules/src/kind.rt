//! Kinds of values, types of objects and functions of the packages.

use vhdl_values::{Counted, Edge};

/// The kind of one element, or of a vector, of the nine values.
#[derive(Clone, Copy)]
pub enum ElementKind {
    Element,
    LogicVector,
    Unsigned,
    /// A vector whose type is found from where it stands.
    OpenVector,
}

/// The type of an object: of the nine values, the enumeration of this number, with so many
/// literals, or, in the wider language, of integers or boolean.
#[derive(Clone, Copy)]
pub enum ObjectType {
    Elements(ElementKind),
    Enumeration { number: usize, count: u16 },
    Integers,
    Booleans,
}

/// A function of the packages.
#[derive(Clone, Copy)]
pub enum Function {
    EdgeCall(Edge),
    /// A number by a count.
    ByCount(Counted),
    ToUnsigned,
    /// In the wider language.
    ToInteger,
}

impl ElementKind {
    ghost use Rattle.std.specs.Prelude.{◌≡◌};
    ghost use Rattle.vhdl_names_rules.specs.Operators as table;
    ghost use Rattle.vhdl_names_rules.specs.Expressions as expressions;

    /// The kind of two operands of one kind; an open vector takes the kind of the vector beside it.
    pub fn common(self, other: ElementKind) -> Option<ElementKind>
        ensures { result ≡ table.common_kind self other }
    {
        match (self, other) {
            (ElementKind::Element, ElementKind::Element) => Some(ElementKind::Element),
            (ElementKind::LogicVector, ElementKind::LogicVector | ElementKind::OpenVector)
            | (ElementKind::OpenVector, ElementKind::LogicVector) => Some(ElementKind::LogicVector),
            (ElementKind::Unsigned, ElementKind::Unsigned | ElementKind::OpenVector)
            | (ElementKind::OpenVector, ElementKind::Unsigned) => Some(ElementKind::Unsigned),
            (ElementKind::OpenVector, ElementKind::OpenVector) => Some(ElementKind::OpenVector),
            _ => None,
        }
    }

    /// The kind of a concatenation (IEEE 1076-2008, 9.2.5): an element stands beside any vector.
    pub fn joined(self, other: ElementKind) -> Option<ElementKind>
        ensures { result ≡ table.joined_kind self other }
    {
        match (self, other) {
            (ElementKind::Element, ElementKind::Element) => Some(ElementKind::OpenVector),
            (ElementKind::Element, vector) | (vector, ElementKind::Element) => Some(vector),
            _ => self.common(other),
        }
    }

    /// Whether numeric_std takes it for a number: unsigned, and an open vector.
    pub fn is_number(self) -> bool
        ensures { result ≡ table.is_number self }
    {
        matches!(self, ElementKind::Unsigned | ElementKind::OpenVector)
    }

    /// Whether a value of the other kind is given to a target of this kind.
    pub fn fits(self, other: ElementKind) -> bool
        ensures { result ≡ expressions.fits self other }
    {
        match self {
            ElementKind::Element => other == ElementKind::Element,
            ElementKind::LogicVector => matches!(
                other,
                ElementKind::LogicVector | ElementKind::OpenVector
            ),
            ElementKind::Unsigned => other.is_number(),
            ElementKind::OpenVector => false,
        }
    }

    /// Whether it is that of a vector of a known type.
    pub fn is_vector(self) -> bool
        ensures { result ≡ table.is_vector self }
    {
        matches!(self, ElementKind::LogicVector | ElementKind::Unsigned)
    }
}
