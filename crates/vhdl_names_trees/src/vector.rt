//! Elements and vectors of the nine values, and values, as they are analysed.

ghost use Rattle.std.specs.Prelude.{◌≡◌, IfErr, IfOk};
ghost use Rattle.vhdl_names_trees.specs.declared.vector.SignalPart.{SignalPart};
ghost use Rattle.vhdl_names_trees.specs.declared.vector.Vector.TheVariants as vectors;
ghost use Rattle.vhdl_names_rules.specs.units.Expressions as units;
ghost use Rattle.vhdl_names_trees.specs.views.Integers.{static_view, range_view, option_range_view};
ghost use Rattle.vhdl_names_trees.specs.views.Vectors.{vector_view, start_view, linked, vector_chained, elements_view, computed_view, computed_start_view, computed_chained};

use crate::integer::{Index, Static, StaticRange};
use crate::test::StaticTest;
use drops::take_apart;
use std::alloc::{AllocError, Global};
use vhdl_names_rules::{Arithmetic, Numeric, VectorOperator};
use vhdl_tree::Direction;
use vhdl_values::{Counted, Nine, Shift};

/// A port or signal of the unit, by its number.
#[derive(Clone, Copy)]
pub enum Signal {
    Port(usize),
    Signal(usize),
}

/// The whole of what is declared, one element of it, or a slice.
pub enum Part {
    Whole,
    Element(Static),
    Slice(Box<StaticRange>),
}

impl Drop for Part {
    fn drop(self) {
        take_apart!(self: Whole | Element(_) | Slice(_));
    }
}

/// A signal or port or a part of one, and the byte at which its name starts.
pub struct SignalPart {
    pub at: usize,
    pub signal: Signal,
    pub part: Part,
}

impl Drop for SignalPart {
    fn drop(self) {
        take_apart!(self: { at, signal, part });
    }
}

/// One element of the nine values, or a vector of them. Offsets are the bytes at which a name, a
/// literal, a call or an operator starts.
#[cycle(vector)]
pub enum Vector {
    Signal(SignalPart),
    /// The variable of this number, or a part of it.
    Variable(usize, usize, Part),
    /// The constant of this number that is no integer, or a part of it.
    Constant(usize, usize, Part),
    /// What a run chooses of a signal, of a variable, and of a constant.
    InSignal(usize, Signal, Box<Chosen>),
    InVariable(usize, usize, Box<Chosen>),
    InConstant(usize, usize, Box<Chosen>),
    /// A character literal with no parentheses round it, nor round the operand on its left.
    Character(usize, Nine),
    /// Any other character literal.
    EnclosedCharacter(usize, Nine),
    /// A string or bit string.
    Literal(usize, Vec<Nine>),
    Not(usize, Box<Vector>),
    /// Operators, grouped from the left: the first one, and those after it.
    Chain(Box<VectorStart>, Vec<VectorLink>),
    /// A static integer, an operator, and a number.
    IntegerWith(Numeric, usize, Static, Box<Vector>),
    /// An integer that a run computes, an operator, and a number.
    ComputedWith(Numeric, usize, Box<Computed>, Box<Vector>),
    /// `to_unsigned`, of a number and a size; the number may be computed.
    Encoded(usize, Static, Static),
    ComputedEncoded(usize, Box<Computed>, Static),
    /// An operator, a number and a count.
    Counted(usize, Counted, Box<Vector>, Static),
    /// A shift, a number, and how many places, which a run computes.
    Shifted(usize, Shift, Box<Vector>, Box<Computed>),
    /// An aggregate: the range of its indexes where it is given to what has one, and its elements.
    Aggregate(usize, Option<Box<StaticRange>>, Vec<VectorElement>),
    /// As long as this range.
    Sized(usize, Box<StaticRange>, Box<Vector>),
}

impl Drop for Vector {
    #[cycle(vector)]
    fn drop(self) {
        take_apart!(self: Signal(_) | Variable(_, _, _) | Constant(_, _, _) | InSignal(_, _, _)
            | InVariable(_, _, _) | InConstant(_, _, _) | Character(_, _)
            | EnclosedCharacter(_, _) | Literal(_, _) | Not(_, _) | Chain(_, _)
            | IntegerWith(_, _, _, _) | ComputedWith(_, _, _, _) | Encoded(_, _, _)
            | ComputedEncoded(_, _, _) | Counted(_, _, _, _) | Shifted(_, _, _, _)
            | Aggregate(_, _, _) | Sized(_, _, _));
    }
}

/// An element of an aggregate: the next from the left, one for each of these indexes, or one for
/// each that is left, which is the last.
#[cycle(vector)]
pub enum VectorElement {
    Next(Vector),
    Chosen(Vec<Index>, Vector),
    Others(Vector),
}

impl Drop for VectorElement {
    #[cycle(vector)]
    fn drop(self) {
        take_apart!(self: Next(_) | Chosen(_, _) | Others(_));
    }
}

/// An operator on vectors, the byte at which it starts, and its right operand.
#[cycle(vector)]
pub enum VectorLink {
    Vector(VectorOperator, usize, Vector),
    Integer(Numeric, usize, Static),
    Computed(Numeric, usize, Computed),
}

impl Drop for VectorLink {
    #[cycle(vector)]
    fn drop(self) {
        take_apart!(self: Vector(_, _, _) | Integer(_, _, _) | Computed(_, _, _));
    }
}

/// A first operand and the first operator after it, with its right operand.
#[cycle(vector)]
pub struct VectorStart {
    pub first: Vector,
    pub link: VectorLink,
}

impl Drop for VectorStart {
    #[cycle(vector)]
    fn drop(self) {
        take_apart!(self: { first, link });
    }
}

/// An integer that a run computes. Offsets are the bytes at which a call or an operator starts.
#[cycle(vector)]
pub enum Computed {
    /// A static one beside such.
    Static(Static),
    /// `to_integer`, of a number.
    Number(usize, Box<Vector>),
    /// A signal, and the variable of this number, of an integer type.
    SignalNumber(Signal),
    VariableNumber(usize),
    /// A minus sign.
    Negated(usize, Box<Computed>),
    /// `abs`.
    Magnitude(usize, Box<Computed>),
    /// Operators, grouped from the left: the first one, and those after it.
    Chain(Box<ComputedStart>, Vec<ComputedLink>),
}

impl Drop for Computed {
    #[cycle(vector)]
    fn drop(self) {
        take_apart!(self: Static(_) | Number(_, _) | SignalNumber(_) | VariableNumber(_)
            | Negated(_, _) | Magnitude(_, _) | Chain(_, _));
    }
}

/// An operator on integers that a run computes, the byte at which it starts, and its right operand.
#[cycle(vector)]
pub struct ComputedLink {
    pub operator: Arithmetic,
    pub at: usize,
    pub operand: Computed,
}

impl Drop for ComputedLink {
    #[cycle(vector)]
    fn drop(self) {
        take_apart!(self: { operator, at, operand });
    }
}

/// A first operand and the first operator after it, with its right operand.
#[cycle(vector)]
pub struct ComputedStart {
    pub first: Computed,
    pub link: ComputedLink,
}

impl Drop for ComputedStart {
    #[cycle(vector)]
    fn drop(self) {
        take_apart!(self: { first, link });
    }
}

/// Of a vector, the part that a run chooses: an element by its index, or a slice by its bounds.
#[cycle(vector)]
pub enum Chosen {
    Element(Computed),
    Slice {
        left: Computed,
        direction: Direction,
        right: Computed,
    },
}

impl Drop for Chosen {
    #[cycle(vector)]
    fn drop(self) {
        take_apart!(self: Element(_) | Slice { left, direction, right });
    }
}

/// A part of an object: one that is there before the run, or one that a run chooses.
#[derive(Drop)]
pub enum AnyPart {
    Static(Part),
    Chosen(Chosen),
}

/// What is assigned, compared or selected by.
#[derive(Drop)]
pub enum Value {
    Elements(Vector),
    /// An enumeration's literal, by its position.
    Position(u8),
    /// A signal, or the variable of this number, of an enumeration.
    StateOf(Signal),
    StateOfVariable(usize),
    /// An integer.
    Computed(Computed),
    /// A boolean that is static: 1 where it is true, and 0 where it is false.
    StaticTruth(StaticTest),
}

/// A first operand with its operator, and further operators with their right operands.
#[tactic(auto, using(crate::proofs::rows::Vectors::view_chain))]
fn chain(start: Box<VectorStart>, links: Vec<VectorLink>) -> Vector
    ensures { vector_view result ≡ vector_chained (start_view start.value) links.items }
{
    Vector::Chain(start, links)
}

impl Vector {
    /// The signal, or part of one, that it is, or else the vector as it was.
    pub fn into_signal(self) -> Result<SignalPart, Vector>
        ensures place { IfOk result (λ p. self ≡ vectors.Signal p) }
        ensures same { IfErr result (λ v. v ≡ self) }
        ensures other { IfErr result (λ _. (p : SignalPart) → self ≡ vectors.Signal p → ⊥) }
    {
        match self {
            Vector::Signal(place) => Ok(place),
            vector => Err(vector),
        }
    }

    /// This operand with one more operator and its right operand. A chain goes on, so that its
    /// height doesn't grow. It takes the memory of a list.
    pub fn with_link(self, alloc: Global, link: VectorLink) -> Result<Vector, AllocError>
        ensures { IfOk result (λ v. vector_view v ≡ linked (vector_view self) link) }
    {
        match self {
            Vector::Chain(start, mut links) => {
                links.push(link)?;
                Ok(chain(start, links))
            }
            first => {
                let start = Box::new(alloc, VectorStart { first, link })?;
                Ok(chain(start, Vec::new(alloc)))
            }
        }
    }

    /// `not operand`, whose `not` starts at byte `at`. It takes the memory of a box.
    pub fn inverse(alloc: Global, at: usize, operand: Vector) -> Result<Vector, AllocError>
        ensures { IfOk result (λ v. vector_view v ≡ units.Vector.inverse (vector_view operand)) }
    {
        Ok(Vector::Not(at, Box::new(alloc, operand)?))
    }

    /// An integer, an operator that starts at byte `at`, and a number. It takes the memory of a
    /// box.
    pub fn integer_with(
        alloc: Global,
        operator: Numeric,
        at: usize,
        integer: Static,
        number: Vector,
    ) -> Result<Vector, AllocError>
        ensures { IfOk result (λ v. vector_view v ≡
            units.integer_with at operator (static_view integer) (vector_view number)) }
    {
        Ok(Vector::IntegerWith(operator, at, integer, Box::new(alloc, number)?))
    }

    /// An aggregate that starts at byte `at`.
    #[tactic(auto, using(crate::proofs::rows::Vectors::view_aggregate))]
    pub fn aggregate(
        at: usize,
        range: Option<Box<StaticRange>>,
        elements: Vec<VectorElement>,
    ) -> Vector
        ensures { vector_view result ≡ units.aggregate at (option_range_view range) (elements_view elements.items) }
    {
        Vector::Aggregate(at, range, elements)
    }

    /// This, as long as a range, as the type whose name starts at byte `at` wants it. It takes the
    /// memory of two boxes.
    pub fn sized(self, alloc: Global, at: usize, range: StaticRange) -> Result<Vector, AllocError>
        ensures { IfOk result (λ v. vector_view v ≡ units.sized at (range_view range) (vector_view self)) }
    {
        let range = Box::new(alloc, range)?;
        Ok(Vector::Sized(at, range, Box::new(alloc, self)?))
    }
}

/// A first operand with its operator, and further operators with their right operands.
#[tactic(auto, using(crate::proofs::rows::Vectors::view_computed_chain))]
fn computed_chain(start: Box<ComputedStart>, links: Vec<ComputedLink>) -> Computed
    ensures { computed_view result ≡ computed_chained (computed_start_view start.value) links.items }
{
    Computed::Chain(start, links)
}

impl Computed {
    /// `to_integer`, whose name starts at byte `at`, of a number. It takes the memory of a box, as
    /// `negated` and `magnitude` do.
    pub fn number_of(alloc: Global, at: usize, number: Vector) -> Result<Computed, AllocError>
        ensures { IfOk result (λ x. computed_view x ≡ units.number_of at (vector_view number)) }
    {
        Ok(Computed::Number(at, Box::new(alloc, number)?))
    }

    /// `-operand`, whose sign starts at byte `at`.
    pub fn negated(alloc: Global, at: usize, operand: Computed) -> Result<Computed, AllocError>
        ensures { IfOk result (λ x. computed_view x ≡ units.Computed.negated at (computed_view operand)) }
    {
        Ok(Computed::Negated(at, Box::new(alloc, operand)?))
    }

    /// `abs operand`, whose `abs` starts at byte `at`.
    pub fn magnitude(alloc: Global, at: usize, operand: Computed) -> Result<Computed, AllocError>
        ensures { IfOk result (λ x. computed_view x ≡ units.magnitude at (computed_view operand)) }
    {
        Ok(Computed::Magnitude(at, Box::new(alloc, operand)?))
    }

    /// An operator, which starts at byte `at`, with its right operand after this one. A chain goes
    /// on, so that its height doesn't grow. It takes the memory of a list.
    pub fn binary(
        self,
        alloc: Global,
        operator: Arithmetic,
        at: usize,
        operand: Computed,
    ) -> Result<Computed, AllocError>
        ensures { IfOk result (λ x. computed_view x ≡
            units.calculated at operator (computed_view self) (computed_view operand)) }
    {
        let link = ComputedLink {
            operator,
            at,
            operand,
        };
        match self {
            Computed::Chain(start, mut links) => {
                links.push(link)?;
                Ok(computed_chain(start, links))
            }
            first => {
                let start = Box::new(alloc, ComputedStart { first, link })?;
                Ok(computed_chain(start, Vec::new(alloc)))
            }
        }
    }
}
