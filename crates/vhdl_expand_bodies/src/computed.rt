//! Integers that a run computes, and what they choose of vectors, expanded (IEEE 1076-2008, 8.4,
//! 8.5, 9.2; numeric_std).

ghost use Rattle.std.specs.Prelude.{Ok};
ghost use Rattle.vhdl_names_trees.specs.views.Vectors.{chosen_view, computed_view};
ghost use Rattle.vhdl_expand_rules.specs.Expressions as definition;
ghost use Rattle.vhdl_expand_rules.specs.views.Kinds.{bounds_view};
ghost use Rattle.vhdl_expand_operands.specs.Results.{Expands};
ghost use Rattle.vhdl_expand_numbers.specs.Views.{number_view, row_view, measured_view};
ghost use Rattle.vhdl_expand_bodies.specs.steps.Chains.{chained};
ghost use Rattle.vhdl_expand_bodies.specs.Sites.{HasFew, IsSite, site_view};
ghost use Rattle.vhdl_expand_bodies.specs.steps.Computed as steps;

use crate::site::Site;
use std::alloc::Global;
use vhdl_expand_numbers::{Measured, Number, Row, operation};
use vhdl_expand_operands::both;
use vhdl_expand_rules::{Bounds, ElabFault};
use vhdl_names_trees::{Chosen, Computed, ComputedLink};

impl Site<'_> {
    /// An integer that a run computes; what is wrong with a static one is told at its operator, or
    /// else at byte `at`. A fault is StaticError, Length, Index or TooWide.
    #[cycle(vector)]
    #[tactic(auto, unfolding(vhdl_expand_rules::specs::Expressions::computed))]
    pub fn computed(
        &self,
        alloc: Global,
        integer: &Computed,
        at: usize,
    ) -> Result<Number, ElabFault>
        requires { IsSite self.now }
        ensures { Expands number_view (definition.computed (site_view self.now) at (computed_view integer.now)) result }
    {
        match integer {
            Computed::Static(integer) => Ok(Number::known(self.integers.integer(integer, at)?)),
            Computed::Number(at, number) => Number::read(self.expanded(alloc, number)?, alloc, *at),
            Computed::SignalNumber(signal) => self.signal_number(alloc, *signal, at),
            Computed::VariableNumber(number) => self.variable_number(alloc, *number, at),
            Computed::Negated(at, operand) => {
                let operand = self.computed(alloc, operand, *at)?;
                Ok(operand.negative(alloc)?)
            }
            Computed::Magnitude(at, operand) => {
                let operand = self.computed(alloc, operand, *at)?;
                Ok(operand.magnitude(alloc)?)
            }
            Computed::Chain(start, links) => {
                let first = self.computed(alloc, &start.first, start.link.at)?;
                let begun = self.linked(alloc, first, &start.link)?;
                self.all_linked(alloc, begun, links)
            }
        }
    }

    /// An operator with its right operand, behind a number.
    #[cycle(vector)]
    fn linked(&self, alloc: Global, first: Number, link: &ComputedLink) -> Result<Number, ElabFault>
        requires { IsSite self.now }
        ensures { Expands number_view (steps.linked (site_view self.now) (number_view first) link.now) result }
    {
        let operand = self.computed(alloc, &link.operand, link.at);
        let (first, operand) = both(first, operand)?;
        operation(alloc, link.operator, first, operand, link.at)
    }

    /// Further operators behind a number.
    #[cycle(vector)]
    fn all_linked(
        &self,
        alloc: Global,
        first: Number,
        links: &[ComputedLink],
    ) -> Result<Number, ElabFault>
        requires { IsSite self.now }
        ensures { Expands number_view
            (chained (steps.linked (site_view self.now)) (number_view first) links.now) result }
    {
        let mut done = first;
        for link in links {
            done = self.linked(alloc, done, link)?;
        }
        Ok(done)
    }

    /// The same integer as a number and as a sum of terms.
    #[cycle(vector)]
    #[tactic(auto, unfolding(vhdl_expand_rules::specs::Expressions::measured))]
    fn measured(&self, alloc: Global, integer: &Computed, at: usize) -> Result<Measured, ElabFault>
        requires { IsSite self.now }
        ensures { Expands measured_view (definition.measured (site_view self.now) at (computed_view integer.now))
            result }
    {
        match integer {
            Computed::Static(integer) => {
                let integer = self.integers.integer(integer, at)?;
                Ok(Measured::known(alloc, integer))
            }
            Computed::Negated(at, operand) => {
                let operand = self.measured(alloc, operand, *at)?;
                operand.negative(alloc, *at)
            }
            Computed::Chain(start, links) => {
                let first = self.measured(alloc, &start.first, start.link.at)?;
                let mut done = self.measured_link(alloc, first, &start.link)?;
                for link in links {
                    done = self.measured_link(alloc, done, link)?;
                }
                Ok(done)
            }
            Computed::Number(at, number) => {
                let number = Number::read(self.expanded(alloc, number)?, alloc, *at)?;
                Ok(Measured::term(number))
            }
            Computed::SignalNumber(signal) => {
                let number = self.signal_number(alloc, *signal, at)?;
                Ok(Measured::term(number))
            }
            Computed::VariableNumber(number) => {
                let number = self.variable_number(alloc, *number, at)?;
                Ok(Measured::term(number))
            }
            Computed::Magnitude(at, operand) => {
                let operand = self.computed(alloc, operand, *at)?;
                Ok(Measured::term(operand.magnitude(alloc)?))
            }
        }
    }

    /// An operator with its right operand, behind what is measured.
    #[cycle(vector)]
    fn measured_link(
        &self,
        alloc: Global,
        first: Measured,
        link: &ComputedLink,
    ) -> Result<Measured, ElabFault>
        requires { IsSite self.now }
        ensures { Expands measured_view
            (steps.measured_linked (site_view self.now) (measured_view first) link.now) result }
    {
        let operand = self.measured(alloc, &link.operand, link.at);
        let (first, operand) = both(first, operand)?;
        first.operated(alloc, link.operator, operand, link.at)
    }

    /// The row that a run chooses of a vector with these bounds, whose name starts at byte `at`.
    #[cycle(vector)]
    #[tactic(auto, unfolding(vhdl_expand_rules::specs::Expressions::chosen_row))]
    pub fn row(
        &self,
        alloc: Global,
        bounds: Bounds,
        part: &Chosen,
        at: usize,
    ) -> Result<Row, ElabFault>
        requires site { IsSite self.now }
        requires few { HasFew bounds }
        ensures { Expands row_view
            (definition.chosen_row (site_view self.now) at (bounds_view bounds) (chosen_view part.now)) result }
    {
        match part {
            Chosen::Element(index) => {
                let index = self.computed(alloc, index, at)?;
                Ok(Row::element(alloc, bounds, index)?)
            }
            Chosen::Slice {
                left,
                direction,
                right,
            } => {
                let left = self.measured(alloc, left, at)?;
                let (left, right) = both(left, self.measured(alloc, right, at))?;
                Row::slice(alloc, bounds, *direction, left, right, at)
            }
        }
    }
}
