//! What expressions are.

ghost use Rattle.std.specs.Prelude.{◌≡◌};
ghost use Rattle.vhdl_names_rules.specs.Operators as table;
ghost use Rattle.vhdl_names_trees.specs.views.Expressions.{typed_view, typed_elements_view};

use crate::integer::{Index, Static, StaticRange};
use crate::test::Test;
use crate::vector::{Computed, Value, Vector};
use vhdl_names_rules::ElementKind;
use vhdl_tree::Direction;

/// What an expression is: a static integer, one that a run computes, one element or a vector of a
/// kind, a value of the enumeration of this number, which has so many literals, or a truth.
#[cycle(typed)]
#[derive(Drop)]
pub enum Typed {
    Integer(Static),
    Computed(Computed),
    Elements(ElementKind, Vector),
    Enumerated {
        number: usize,
        count: u16,
        value: Value,
    },
    Truth(Test),
    /// The range that a name is, which is no value.
    Interval(Box<StaticRange>),
    /// An aggregate, and the byte at which it starts: a value where its type is known.
    Composite(usize, Vec<TypedElement>),
}

/// An element of an aggregate: its choices, its value, and the byte at which that starts.
#[cycle(typed)]
#[derive(Drop)]
pub struct TypedElement {
    pub choices: Vec<TypedChoice>,
    pub at: usize,
    pub value: Typed,
}

/// A choice of an element: `others`, with the byte at which it starts, or indexes, with whether
/// they are locally static.
#[derive(Drop)]
pub enum TypedChoice {
    Others(usize),
    Place(bool, Index),
}

/// What stands in parentheses after an identifier, with its types.
#[derive(Drop)]
pub enum TypedSuffix {
    Plain,
    /// Whether it is one name alone, and what is there.
    Arguments(bool, Vec<Typed>),
    Range(Box<StaticRange>),
    /// Bounds of which a run computes one at least.
    ComputedRange {
        left: Computed,
        direction: Direction,
        right: Computed,
    },
}

impl Typed {
    /// An aggregate that starts at byte `at`.
    #[tactic(auto, using(crate::proofs::rows::Composites::view_composite))]
    pub fn composite(at: usize, elements: Vec<TypedElement>) -> Typed
        ensures { typed_view result ≡ table.composite at (typed_elements_view elements.items) }
    {
        Typed::Composite(at, elements)
    }
}
