//! Aggregates, expanded (IEEE 1076-2008, 9.3.3), and what is as long as its type wants it (9.3.5,
//! 9.3.6).

ghost use Rattle.std.specs.Prelude.{[], map, option_map};
ghost use Rattle.vhdl_names_rules.specs.units.Expressions as units;
ghost use Rattle.vhdl_names_trees.specs.views.Integers.{range_view};
ghost use Rattle.vhdl_names_trees.specs.views.Vectors.{elements_view, vector_view};
ghost use Rattle.vhdl_expand_rules.specs.Declarations.{known_values};
ghost use Rattle.vhdl_expand_rules.specs.Expressions as definition;
ghost use Rattle.vhdl_expand_rules.specs.Kinds.{written_range};
ghost use Rattle.vhdl_expand_rules.specs.views.Kinds.{kind_view};
ghost use Rattle.vhdl_expand_operands.specs.Operands.{operand_view};
ghost use Rattle.vhdl_expand_operands.specs.Placings.{indexes_view, placed_view};
ghost use Rattle.vhdl_expand_operands.specs.Results.{Expands};
ghost use Rattle.vhdl_expand_bodies.specs.Sites.{IsSite, site_view};
ghost use Rattle.vhdl_expand_bodies.specs.steps.Vectors as steps;

use crate::site::Site;
use std::alloc::Global;
use vhdl_expand_choices::{chosen_indexes, given_indexes};
use vhdl_expand_operands::{Element, Indexes, Operand, Placed, both, composed};
use vhdl_expand_rules::{ElabFault, ElabProblem, ObjectKind};
use vhdl_names_trees::{StaticRange, Vector, VectorElement};
use vhdl_values::Vec9;

impl Site<'_> {
    /// A vector of one element, expanded; a fault is StaticError, Length, Index or TooWide.
    #[cycle(vector)]
    pub(crate) fn one_element(
        &self,
        alloc: Global,
        vector: &Vector,
        at: usize,
    ) -> Result<Element, ElabFault>
        requires { IsSite self.now }
        ensures { Expands (λ e. operand_view e.operand)
            (steps.one_element (site_view self.now) at (vector_view vector.now)) result }
    {
        let operand = self.expanded(alloc, vector)?;
        let found = operand.width.len;
        if found != 1 {
            drop(operand);
            return Err(ElabProblem::Length { found, needed: 1 }.at(at));
        }
        Ok(Element { operand })
    }

    /// An element of an aggregate, which starts at byte `at`.
    #[cycle(vector)]
    fn placed_element(
        &self,
        alloc: Global,
        all: &Option<Indexes>,
        element: &VectorElement,
        taken: &mut Vec<i32>,
        at: usize,
    ) -> Result<Placed, ElabFault>
        requires { IsSite self.now }
        ensures { Expands (λ x. (placed_view x, taken.new.items))
            (steps.placed (site_view self.now) at (option_map indexes_view all.now) taken.old.items element.now)
            result }
    {
        match element {
            VectorElement::Next(value) => {
                let operand = self.expanded(alloc, value)?;
                Ok(Placed::Next(operand))
            }
            VectorElement::Chosen(choices, value) => {
                let chosen = chosen_indexes(alloc, &self.integers, all, choices, taken)?;
                let (chosen, value) = both(chosen, self.one_element(alloc, value, at))?;
                Ok(Placed::Chosen(chosen, value))
            }
            VectorElement::Others(value) => {
                let value = self.one_element(alloc, value, at)?;
                Ok(Placed::Others(value))
            }
        }
    }

    /// The elements of an aggregate that starts at byte `at`.
    #[cycle(vector)]
    fn placed_elements(
        &self,
        alloc: Global,
        all: &Option<Indexes>,
        elements: &[VectorElement],
        at: usize,
    ) -> Result<Vec<Placed>, ElabFault>
        requires { IsSite self.now }
        ensures { Expands (λ v. map placed_view v.items)
            (definition.elements (site_view self.now) at (option_map indexes_view all.now) []
            (elements_view elements.now)) result }
    {
        let mut taken = Vec::new(alloc);
        let mut placed = Vec::new(alloc);
        for element in elements {
            let next = self.placed_element(alloc, all, element, &mut taken, at)?;
            placed.push(next)?;
            if let VectorElement::Others(_) = element {
                return Ok(placed);
            }
        }
        Ok(placed)
    }

    /// An aggregate that starts at byte `at`, given to what has this range, if it has one; a fault
    /// is StaticError, Length, Index or TooWide.
    #[cycle(vector)]
    pub(crate) fn aggregate(
        &self,
        alloc: Global,
        range: Option<&StaticRange>,
        elements: &[VectorElement],
        at: usize,
    ) -> Result<Operand, ElabFault>
        requires { IsSite self.now }
        ensures { Expands operand_view (definition.vector (site_view self.now)
            (units.aggregate at (option_map (λ r. range_view r.now) range.entry) (elements_view elements.now))) result }
    {
        let all = given_indexes(alloc, &self.integers, range, at)?;
        let placed = self.placed_elements(alloc, &all, elements, at)?;
        composed(alloc, &all, &placed, at)
    }

    /// The values of an aggregate that starts at byte `at` and is given to what is of this kind,
    /// where it names no signal and no variable; a fault is StaticError, Length, Index or TooWide.
    pub fn aggregate_values(
        &self,
        alloc: Global,
        kind: ObjectKind,
        elements: &[VectorElement],
        at: usize,
    ) -> Result<Vec9, ElabFault>
        requires { IsSite self.now }
        ensures { Expands (λ values. values)
            (known_values (definition.vector (site_view self.now)
            (units.aggregate at (written_range (kind_view kind)) (elements_view elements.now)))) result }
    {
        let range = kind.written_range();
        let whole = self.aggregate(alloc, range.as_ref(), elements, at)?;
        Ok(whole.known())
    }

    /// A vector that is as long as a range; a fault is StaticError, Length, Index or TooWide.
    #[cycle(vector)]
    pub(crate) fn sized(
        &self,
        alloc: Global,
        range: &StaticRange,
        operand: &Vector,
        at: usize,
    ) -> Result<Operand, ElabFault>
        requires { IsSite self.now }
        ensures { Expands operand_view (steps.sized (site_view self.now) at (range_view range.now)
            (vector_view operand.now)) result }
    {
        let operand = self.expanded(alloc, operand)?;
        let (operand, bounds) = both(operand, self.integers.declared_bounds(range, at))?;
        let found = operand.width.len;
        let needed = bounds.size();
        if found != needed {
            drop(operand);
            return Err(ElabProblem::Length { found, needed }.at(at));
        }
        Ok(operand)
    }
}
