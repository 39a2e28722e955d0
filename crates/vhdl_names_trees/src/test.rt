//! Truths as they are analysed.

ghost use Rattle.std.specs.Prelude.{◌≡◌, false, IfOk, IfErr, option_map};
ghost use Rattle.vhdl_names_trees.specs.views.Parted as parts;
ghost use Rattle.vhdl_names_rules.specs.Operators as table;
ghost use Rattle.vhdl_names_rules.specs.units.Expressions as units;
ghost use Rattle.vhdl_names_trees.specs.views.Integers.{static_view};
ghost use Rattle.vhdl_names_trees.specs.views.Vectors.{place_view, value_view, vector_view};
ghost use Rattle.vhdl_names_trees.specs.views.Tests.{static_test_view, test_view, start_view, test_chained, parts_view, is_fixed};

use crate::chains::{chain_of, chain_with, parted_chain, static_chain_of, static_chain_with};
use crate::integer::Static;
use crate::vector::{Computed, SignalPart, Value, Vector};
use drops::take_apart;
use std::alloc::{AllocError, Global};
use vhdl_values::{Cmp, Edge, Logic};

/// Truth over static integers alone. Offsets are the bytes at which an operator starts.
#[cycle(static_test)]
pub enum StaticTest {
    /// A boolean by its position, 0 for false and 1 for true.
    Known(usize, Static),
    Compared(Cmp, usize, Static, Static),
    Not(Box<StaticTest>),
    /// Logical operators, grouped from the left: the first one, and those after it.
    Chain(Box<StaticTestStart>, Vec<StaticTestLink>),
}

impl Drop for StaticTest {
    #[cycle(static_test)]
    fn drop(self) {
        take_apart!(self: Known(_, _) | Compared(_, _, _, _) | Not(_) | Chain(_, _));
    }
}

/// A logical operator and its right operand.
#[cycle(static_test)]
pub struct StaticTestLink {
    pub operator: Logic,
    pub operand: StaticTest,
}

impl Drop for StaticTestLink {
    #[cycle(static_test)]
    fn drop(self) {
        take_apart!(self: { operator, operand });
    }
}

/// A first operand and the first operator after it, with its right operand.
#[cycle(static_test)]
pub struct StaticTestStart {
    pub first: StaticTest,
    pub link: StaticTestLink,
}

impl Drop for StaticTestStart {
    #[cycle(static_test)]
    fn drop(self) {
        take_apart!(self: { first, link });
    }
}

/// A truth. Offsets are the bytes at which an operator or a call starts.
#[cycle(truth)]
pub enum Test {
    /// One element as a condition.
    Holds(Vector),
    Fixed(StaticTest),
    /// Equality of the values, and its negation.
    Alike(usize, Box<Value>, Box<Value>),
    Unlike(usize, Box<Value>, Box<Value>),
    /// Of two numbers, of a number and a static integer, and of a static integer and a number.
    Compared(Cmp, usize, Box<Vector>, Box<Vector>),
    ComparedTo(Cmp, usize, Box<Vector>, Static),
    ComparedWith(Cmp, usize, Static, Box<Vector>),
    /// The same, where a run computes the integer, and of two integers of which it computes one at
    /// least.
    ComparedToComputed(Cmp, usize, Box<Vector>, Box<Computed>),
    ComparedWithComputed(Cmp, usize, Box<Computed>, Box<Vector>),
    ComputedCompared(Cmp, usize, Box<Computed>, Box<Computed>),
    /// `rising_edge` and `falling_edge`, and `'event`.
    Edge(Edge, SignalPart),
    Event(SignalPart),
    Not(Box<Test>),
    /// Logical operators, grouped from the left: the first one, and those after it.
    Chain(Box<TestStart>, Vec<TestLink>),
}

impl Drop for Test {
    #[cycle(truth)]
    fn drop(self) {
        take_apart!(self: Holds(_) | Fixed(_) | Alike(_, _, _) | Unlike(_, _, _)
            | Compared(_, _, _, _) | ComparedTo(_, _, _, _) | ComparedWith(_, _, _, _)
            | ComparedToComputed(_, _, _, _) | ComparedWithComputed(_, _, _, _)
            | ComputedCompared(_, _, _, _) | Edge(_, _) | Event(_) | Not(_) | Chain(_, _));
    }
}

/// A logical operator and its right operand.
#[cycle(truth)]
pub struct TestLink {
    pub operator: Logic,
    pub operand: Test,
}

impl Drop for TestLink {
    #[cycle(truth)]
    fn drop(self) {
        take_apart!(self: { operator, operand });
    }
}

/// A first operand and the first operator after it, with its right operand.
#[cycle(truth)]
pub struct TestStart {
    pub first: Test,
    pub link: TestLink,
}

impl Drop for TestStart {
    #[cycle(truth)]
    fn drop(self) {
        take_apart!(self: { first, link });
    }
}

impl TestLink {
    /// The right operand.
    pub(crate) fn into_operand(self) -> Test
        ensures { result ≡ self.operand }
    {
        let TestLink {
            operator: _,
            operand,
        } = self;
        operand
    }
}

impl TestStart {
    /// The first operand, and the operator behind it with its own.
    pub(crate) fn into_parts(self) -> (Test, TestLink)
        ensures first { result.0 ≡ self.first }
        ensures link { result.1 ≡ self.link }
    {
        let TestStart { first, link } = self;
        (first, link)
    }
}

/// A logical operator between truths over static integers alone.
fn fixed_both(
    alloc: Global,
    left: StaticTest,
    operator: Logic,
    right: StaticTest,
) -> Result<Test, AllocError>
    ensures { IfOk result (λ t. test_view t ≡
        units.Test.fixed (units.StaticTest.both operator (static_test_view left) (static_test_view right))) }
{
    Ok(Test::Fixed(left.both(alloc, operator, right)?))
}

impl StaticTest {
    /// `not` this. It takes the memory of a box.
    pub fn negated(self, alloc: Global) -> Result<StaticTest, AllocError>
        ensures { IfOk result (λ t. static_test_view t ≡ units.StaticTest.negated (static_test_view self)) }
    {
        Ok(StaticTest::Not(Box::new(alloc, self)?))
    }

    /// A logical operator with its right operand after this one. A chain goes on, so that its
    /// height doesn't grow. It takes the memory of a list.
    pub fn both(
        self,
        alloc: Global,
        operator: Logic,
        operand: StaticTest,
    ) -> Result<StaticTest, AllocError>
        ensures { IfOk result (λ t. static_test_view t ≡
            units.StaticTest.both operator (static_test_view self) (static_test_view operand)) }
    {
        let link = StaticTestLink { operator, operand };
        match self {
            StaticTest::Chain(start, links) => static_chain_with(start, links, link),
            first => static_chain_of(alloc, first, link),
        }
    }
}

impl Test {
    /// A first operand with its operator, and further operators with their right operands.
    #[tactic(auto, using(crate::proofs::rows::Tests::view_chain))]
    pub fn chained(start: Box<TestStart>, links: Vec<TestLink>) -> Test
        ensures { test_view result ≡ test_chained (start_view start.value) links.items }
    {
        Test::Chain(start, links)
    }

    /// Equality of two values, by `=` at byte `at`. It takes the memory of two boxes, as `unlike`
    /// does.
    pub fn alike(alloc: Global, at: usize, left: Value, right: Value) -> Result<Test, AllocError>
        ensures { IfOk result (λ t. test_view t ≡ units.alike at (value_view left) (value_view right)) }
    {
        let left = Box::new(alloc, left)?;
        Ok(Test::Alike(at, left, Box::new(alloc, right)?))
    }

    /// Its negation, by `/=` at byte `at`.
    pub fn unlike(alloc: Global, at: usize, left: Value, right: Value) -> Result<Test, AllocError>
        ensures { IfOk result (λ t. test_view t ≡ units.unlike at (value_view left) (value_view right)) }
    {
        let left = Box::new(alloc, left)?;
        Ok(Test::Unlike(at, left, Box::new(alloc, right)?))
    }

    /// A relation of two numbers, by the operator at byte `at`. It takes the memory of two boxes.
    pub fn compared(
        alloc: Global,
        comparison: Cmp,
        at: usize,
        left: Vector,
        right: Vector,
    ) -> Result<Test, AllocError>
        ensures { IfOk result (λ t. test_view t ≡
            units.Test.compared at comparison (vector_view left) (vector_view right)) }
    {
        let left = Box::new(alloc, left)?;
        Ok(Test::Compared(comparison, at, left, Box::new(alloc, right)?))
    }

    /// A relation of a number and a static integer. It takes the memory of a box, as
    /// `compared_with` does.
    pub fn compared_to(
        alloc: Global,
        comparison: Cmp,
        at: usize,
        left: Vector,
        right: Static,
    ) -> Result<Test, AllocError>
        ensures { IfOk result (λ t. test_view t ≡
            units.compared_to at comparison (vector_view left) (static_view right)) }
    {
        let left = Box::new(alloc, left)?;
        Ok(Test::ComparedTo(comparison, at, left, right))
    }

    /// A relation of a static integer and a number.
    pub fn compared_with(
        alloc: Global,
        comparison: Cmp,
        at: usize,
        left: Static,
        right: Vector,
    ) -> Result<Test, AllocError>
        ensures { IfOk result (λ t. test_view t ≡
            units.compared_with at comparison (static_view left) (vector_view right)) }
    {
        let right = Box::new(alloc, right)?;
        Ok(Test::ComparedWith(comparison, at, left, right))
    }

    /// A logical operator with its right operand after this one, over signals.
    fn linked(self, alloc: Global, operator: Logic, operand: Test) -> Result<Test, AllocError>
        ensures { IfOk result (λ t. test_view t ≡ units.Test.both operator (test_view self) (test_view operand)) }
    {
        let link = TestLink { operator, operand };
        match self {
            Test::Chain(start, links) => chain_with(start, links, link),
            first => chain_of(alloc, first, link),
        }
    }

    /// The truth over static integers alone that this is, or else this.
    pub fn as_fixed(self) -> Result<StaticTest, Test>
        ensures fixed { IfOk result (λ t. test_view self ≡ units.Test.fixed (static_test_view t)) }
        ensures same { IfErr result (λ t. t ≡ self) }
        ensures other { IfErr result (λ t. is_fixed (test_view t) ≡ false) }
    {
        match self {
            Test::Fixed(test) => Ok(test),
            test => Err(test),
        }
    }

    /// What `and` joins last, or else the test as it was.
    #[tactic(auto, using(crate::proofs::rows::Tests::view_chain))]
    pub fn parted(self) -> Result<(Test, Test), Test>
        ensures { parts_view result ≡ parts.parted (test_view self) }
    {
        match self {
            Test::Chain(start, links) => parted_chain(start, links),
            test => Err(test),
        }
    }

    /// The edge by a call that this is, or else this.
    pub fn into_edge(self) -> Result<(Edge, SignalPart), Test>
        ensures edge { IfOk result (λ p. test_view self ≡ units.edge p.0 (place_view p.1)) }
        ensures same { IfErr result (λ t. t ≡ self) }
        ensures other { IfErr result (λ t. parts.is_call (test_view t) ≡ false) }
    {
        match self {
            Test::Edge(kind, place) => Ok((kind, place)),
            test => Err(test),
        }
    }

    /// The signal of which this is an event, if it is one.
    pub fn into_event(self) -> Option<SignalPart>
        ensures { option_map place_view result ≡ parts.event_of (test_view self) }
    {
        match self {
            Test::Event(place) => Some(place),
            _ => None,
        }
    }

    /// The two values of which this asks whether they are alike, if it does.
    pub fn into_alike(self) -> Option<(Value, Value)>
        ensures { option_map (λ p. (value_view p.0, value_view p.1)) result ≡ parts.values_alike (test_view self) }
    {
        match self {
            Test::Alike(_, left, right) => Some((Box::into_inner(left), Box::into_inner(right))),
            _ => None,
        }
    }

    /// `not` this; over static integers alone it stays so. It takes the memory of a box.
    #[tactic(auto, using(crate::proofs::rows::Tests::negated_other))]
    pub fn negated(self, alloc: Global) -> Result<Test, AllocError>
        ensures { IfOk result (λ t. test_view t ≡ table.negated (test_view self)) }
    {
        match self.as_fixed() {
            Ok(test) => Ok(Test::Fixed(test.negated(alloc)?)),
            Err(test) => Ok(Test::Not(Box::new(alloc, test)?)),
        }
    }

    /// A logical operator with its right operand after this one; over static integers alone it
    /// stays so. A chain goes on, so that its height doesn't grow. It takes the memory of a list.
    #[tactic(auto, using(crate::proofs::rows::Tests::both_left, crate::proofs::rows::Tests::both_right))]
    pub fn both(self, alloc: Global, operator: Logic, operand: Test) -> Result<Test, AllocError>
        ensures { IfOk result (λ t. test_view t ≡ table.both operator (test_view self) (test_view operand)) }
    {
        match self.as_fixed() {
            Err(left) => left.linked(alloc, operator, operand),
            Ok(left) => match operand.as_fixed() {
                Ok(right) => fixed_both(alloc, left, operator, right),
                Err(right) => Test::Fixed(left).linked(alloc, operator, right),
            },
        }
    }
}
