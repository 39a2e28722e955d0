//! Conditions, expanded (IEEE 1076-2008, 9.2.2, 9.2.3, 9.2.9, 16.2.4; numeric_std).
#![tactic(auto, unfolding(vhdl_expand_rules::specs::Expressions::test))]

ghost use Rattle.std.specs.Prelude.{◌≡◌};
ghost use Rattle.rtl_net.specs.Bodies.{test_view, test_links_of};
ghost use Rattle.vhdl_names_trees.specs.views.Integers.{static_view};
ghost use Rattle.vhdl_names_trees.specs.views.Tests as analysed;
ghost use Rattle.vhdl_names_trees.specs.views.Vectors.{place_view, value_view, vector_view};
ghost use Rattle.vhdl_expand_rules.specs.Expressions as definition;
ghost use Rattle.vhdl_expand_operands.specs.Results.{Expands};
ghost use Rattle.vhdl_expand_bodies.specs.Sites.{IsSite, site_view};
ghost use Rattle.vhdl_expand_bodies.specs.Conditions.{chain_view};
ghost use Rattle.vhdl_expand_bodies.specs.steps.Chains.{chained};
ghost use Rattle.vhdl_expand_bodies.specs.steps.Tests as steps;

use crate::site::{Site, element, elements};
use rtl_net::{Expr, Test, TestLink};
use std::alloc::Global;
use vhdl_expand_choices::{character_of, edge_test, name_of, turned};
use vhdl_expand_numbers::{compared_to, compared_with, relation};
use vhdl_expand_operands::both;
use vhdl_expand_rules::ElabFault;
use vhdl_names_trees as analysed;
use vhdl_names_trees::{SignalPart, Static, TestStart, Value, Vector};
use vhdl_values::{Cmp, Nine, Vec9};

/// A first operand, and the logical operators after it so far.
#[derive(Drop)]
pub(crate) struct TestChain {
    pub first: Box<Test>,
    pub rest: Vec<TestLink>,
}

impl TestChain {
    /// The whole of it.
    #[tactic(auto, using(rtl_net::proofs::Rows::view_combined))]
    fn whole(self) -> Test
        ensures { test_view result ≡ test_links_of (test_view self.first.value) self.rest.items }
    {
        Test::Combined {
            first: self.first,
            rest: self.rest,
        }
    }
}

impl Site<'_> {
    /// A condition, expanded; a fault is StaticError, Length, Index or TooWide.
    #[cycle(condition)]
    pub fn expanded_test(&self, alloc: Global, test: &analysed::Test) -> Result<Test, ElabFault>
        requires { IsSite self.now }
        ensures { Expands test_view (definition.test (site_view self.now) (analysed.test_view test.now)) result }
    {
        match test {
            analysed::Test::Holds(vector) => {
                let operand = self.expanded(alloc, vector)?;
                Ok(Test::Condition(operand.expr))
            }
            analysed::Test::Fixed(decided) => {
                let holds = self.integers.decision(decided)?;
                Ok(Test::Decided(holds))
            }
            analysed::Test::Alike(at, left, right) => self.alike(alloc, left, right, *at),
            analysed::Test::Unlike(at, left, right) => self.unlike(alloc, left, right, *at),
            analysed::Test::Compared(relation, _, left, right) => {
                self.compared(alloc, *relation, left, right)
            }
            analysed::Test::ComparedTo(relation, at, vector, integer) => {
                self.compared_to(alloc, *relation, vector, integer, *at)
            }
            analysed::Test::ComparedWith(relation, at, integer, vector) => {
                let number = self.integers.natural(integer, *at)?;
                let operand = self.expanded(alloc, vector)?;
                Ok(Test::ComparedTo(turned(*relation), operand.expr, number))
            }
            analysed::Test::ComparedToComputed(relation, at, vector, integer) => {
                let operand = self.expanded(alloc, vector)?;
                let (operand, number) = both(operand, self.computed(alloc, integer, *at))?;
                Ok(compared_to(alloc, *relation, operand, number)?)
            }
            analysed::Test::ComparedWithComputed(relation, at, integer, vector) => {
                let number = self.computed(alloc, integer, *at)?;
                let (number, operand) = both(number, self.expanded(alloc, vector))?;
                Ok(compared_with(alloc, *relation, number, operand)?)
            }
            analysed::Test::ComputedCompared(compare, at, left, right) => {
                let left = self.computed(alloc, left, *at)?;
                let (left, right) = both(left, self.computed(alloc, right, *at))?;
                Ok(relation(alloc, *compare, left, right)?)
            }
            analysed::Test::Edge(edge, place) => {
                let element = self.signal_element(place.signal, &place.part, place.at)?;
                Ok(edge_test(alloc, *edge, element)?)
            }
            analysed::Test::Event(place) => {
                let element = self.signal_element(place.signal, &place.part, place.at)?;
                Ok(Test::Event(element))
            }
            analysed::Test::Not(operand) => {
                let operand = self.expanded_test(alloc, operand)?;
                Ok(Test::Negated(Box::new(alloc, operand)?))
            }
            analysed::Test::Chain(start, links) => {
                let mut chain = self.started_test(alloc, start)?;
                self.add_tests(alloc, links, &mut chain)?;
                Ok(chain.whole())
            }
        }
    }

    /// Equality of two values: of one element of a signal and a character literal, the level of the
    /// element.
    fn alike(
        &self,
        alloc: Global,
        left: &Value,
        right: &Value,
        at: usize,
    ) -> Result<Test, ElabFault>
        requires { IsSite self.now }
        ensures { Expands test_view (steps.alike (site_view self.now) at (value_view left.now) (value_view right.now))
            result }
    {
        if let Some(place) = name_of(left) {
            if let Some(character) = character_of(right) {
                return self.level(character.is_plain, place, character.literal);
            }
        } else if let Some(character) = character_of(left) {
            if let Some(place) = name_of(right) {
                return self.level(false, place, character.literal);
            }
        }
        self.equal(alloc, left, right, at)
    }

    /// Equality of two values, element by element.
    fn equal(
        &self,
        alloc: Global,
        left: &Value,
        right: &Value,
        at: usize,
    ) -> Result<Test, ElabFault>
        requires { IsSite self.now }
        ensures { Expands test_view (steps.equal (site_view self.now) at (value_view left.now) (value_view right.now))
            result }
    {
        let left = self.expanded_value(alloc, left, at)?;
        let (left, right) = both(left, self.expanded_value(alloc, right, at))?;
        Ok(Test::Equal(left.value, right.value))
    }

    /// Inequality of two values.
    fn unlike(
        &self,
        alloc: Global,
        left: &Value,
        right: &Value,
        at: usize,
    ) -> Result<Test, ElabFault>
        requires { IsSite self.now }
        ensures { Expands test_view (steps.unlike (site_view self.now) at (value_view left.now) (value_view right.now))
            result }
    {
        let left = self.expanded_value(alloc, left, at)?;
        let (left, right) = both(left, self.expanded_value(alloc, right, at))?;
        Ok(Test::Unequal(left.value, right.value))
    }

    /// A relation of two numbers.
    fn compared(
        &self,
        alloc: Global,
        relation: Cmp,
        left: &Vector,
        right: &Vector,
    ) -> Result<Test, ElabFault>
        requires { IsSite self.now }
        ensures { Expands test_view (steps.compared (site_view self.now) relation (vector_view left.now)
            (vector_view right.now)) result }
    {
        let left = self.expanded(alloc, left)?;
        let (left, right) = both(left, self.expanded(alloc, right))?;
        Ok(Test::Compared(relation, left.expr, right.expr))
    }

    /// A relation of a number and a static integer.
    fn compared_to(
        &self,
        alloc: Global,
        relation: Cmp,
        vector: &Vector,
        integer: &Static,
        at: usize,
    ) -> Result<Test, ElabFault>
        requires { IsSite self.now }
        ensures { Expands test_view (steps.compared_to (site_view self.now) at relation (vector_view vector.now)
            (static_view integer.now)) result }
    {
        let operand = self.expanded(alloc, vector)?;
        let (operand, number) = both(operand, self.integers.natural(integer, at))?;
        Ok(Test::ComparedTo(relation, operand.expr, number))
    }

    /// Equality of a signal's name and a character literal.
    fn level(&self, plain: bool, place: &SignalPart, value: Nine) -> Result<Test, ElabFault>
        requires { IsSite self.now }
        ensures { Expands test_view (steps.level (site_view self.now) plain (place_view place.now) value) result }
    {
        let run = self.signal_elements(place.signal, &place.part, place.at)?;
        if run.len == 1 {
            let net = element(run);
            return Ok(Test::Level { plain, net, value });
        }
        let elements = elements(run);
        Ok(Test::Equal(
            rtl_net::Value::Elements(Expr::Signal(elements)),
            rtl_net::Value::Elements(Expr::Constant(Vec9::fill(value, 1))),
        ))
    }

    /// The first operator of a chain.
    #[cycle(condition)]
    fn started_test(&self, alloc: Global, start: &TestStart) -> Result<TestChain, ElabFault>
        requires { IsSite self.now }
        ensures { Expands chain_view (steps.started (site_view self.now) start.now) result }
    {
        let first = self.expanded_test(alloc, &start.first)?;
        let first = Box::new(alloc, first)?;
        let mut chain = TestChain {
            first,
            rest: Vec::new(alloc),
        };
        self.add_test(alloc, &start.link, &mut chain)?;
        Ok(chain)
    }

    /// Puts further operators behind a chain.
    #[cycle(condition)]
    fn add_tests(
        &self,
        alloc: Global,
        links: &[analysed::TestLink],
        chain: &mut TestChain,
    ) -> Result<(), ElabFault>
        requires { IsSite self.now }
        ensures { Expands (λ _. chain_view chain.new)
            (chained (steps.linked (site_view self.now)) (chain_view chain.old) links.now) result }
    {
        for link in links {
            self.add_test(alloc, link, chain)?;
        }
        Ok(())
    }

    /// Puts an operator with its right operand behind a chain.
    #[cycle(condition)]
    fn add_test(
        &self,
        alloc: Global,
        link: &analysed::TestLink,
        chain: &mut TestChain,
    ) -> Result<(), ElabFault>
        requires { IsSite self.now }
        ensures { Expands (λ _. chain_view chain.new)
            (steps.linked (site_view self.now) (chain_view chain.old) link.now) result }
    {
        let operand = self.expanded_test(alloc, &link.operand)?;
        let operator = link.operator;
        chain.rest.push(TestLink { operator, operand })?;
        Ok(())
    }
}
