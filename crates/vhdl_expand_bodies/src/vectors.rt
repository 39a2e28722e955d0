//! Elements and vectors of the nine values, expanded (IEEE 1076-2008, clause 9; numeric_std).

ghost use Rattle.std.specs.Prelude.{◌≡◌, option_map};
ghost use Rattle.vhdl_names_trees.specs.views.Integers.{option_range_view, range_view, static_view};
ghost use Rattle.vhdl_names_rules.specs.units.Expressions as units;
ghost use Rattle.vhdl_names_trees.specs.views.Vectors.{part_view, signal_view, chosen_view, vector_view};
ghost use Rattle.vhdl_expand_rules.specs.Expressions as definition;
ghost use Rattle.vhdl_expand_operands.specs.Results.{Expands};
ghost use Rattle.vhdl_expand_numbers.specs.Views.{number_view};
ghost use Rattle.vhdl_expand_bodies.specs.Sites.{IsSite, site_view};
ghost use Rattle.vhdl_expand_bodies.specs.steps.Chains.{chained};
ghost use Rattle.vhdl_expand_bodies.specs.steps.Vectors as steps;
ghost use Rattle.vhdl_expand_operands.specs.Operands.{operand_view, chain_view};

use crate::site::{Site, elements};
use rtl_net::{Expr, RowsOf};
use std::alloc::Global;
use vhdl_expand_numbers::{Number, listed};
use vhdl_expand_operands::{Chain, Operand, Width, both, numeric, operator};
use vhdl_expand_rules::{ElabFault, ElabProblem};
use vhdl_names_rules::Numeric;
use vhdl_names_trees::{
    Chosen, Part, Signal, Static, StaticRange, Vector, VectorLink, VectorStart,
};
use vhdl_values::{Counted, Nine, Vec9};

/// A string or bit string; a fault is Index or TooWide.
fn literal(values: &[Nine], at: usize) -> Result<Operand, ElabFault>
    ensures { Expands operand_view (steps.literal at values.now) result }
{
    if values.is_empty() {
        return Err(ElabProblem::Index.at(at));
    }
    if values.len() > 64 {
        return Err(ElabProblem::TooWide.at(at));
    }
    Ok(Operand::constant(Vec9::of(values)))
}

/// The range of what an aggregate is given to, if it has one.
fn lent_range(range: &Option<Box<StaticRange>>) -> Option<&StaticRange>
    ensures { option_map (λ r. range_view r.now) result ≡ option_range_view range.now }
{
    match range {
        Some(range) => Some(range),
        None => None,
    }
}

impl Site<'_> {
    /// A vector, expanded; a fault is StaticError, Length, Index or TooWide.
    #[cycle(vector)]
    #[tactic(auto, unfolding(vhdl_expand_rules::specs::Expressions::vector))]
    pub(crate) fn expanded(&self, alloc: Global, vector: &Vector) -> Result<Operand, ElabFault>
        requires { IsSite self.now }
        ensures { Expands operand_view (definition.vector (site_view self.now) (vector_view vector.now)) result }
    {
        match vector {
            Vector::Signal(place) => self.signal(place.signal, &place.part, place.at),
            Vector::Variable(at, number, part) => self.variable(*number, part, *at),
            Vector::Constant(at, number, part) => {
                let values = self.constant_values(*number, part, *at)?;
                Ok(Operand::constant(values))
            }
            Vector::InSignal(at, signal, part) => self.in_signal(alloc, *signal, part, *at),
            Vector::InVariable(at, number, part) => self.in_variable(alloc, *number, part, *at),
            Vector::InConstant(at, number, part) => self.in_constant(alloc, *number, part, *at),
            Vector::Character(_, value) | Vector::EnclosedCharacter(_, value) => {
                Ok(Operand::constant(Vec9::fill(*value, 1)))
            }
            Vector::Literal(at, values) => literal(values, *at),
            Vector::Not(_, operand) => {
                let operand = self.expanded(alloc, operand)?;
                Ok(operand.inverse(alloc)?)
            }
            Vector::Chain(start, links) => {
                let mut chain = self.started(alloc, start)?;
                self.add_links(alloc, links, &mut chain)?;
                Ok(chain.whole())
            }
            Vector::IntegerWith(operator, at, integer, operand) => {
                self.integer_with(alloc, *operator, operand, integer, *at)
            }
            Vector::ComputedWith(operator, at, integer, operand) => {
                let number = self.computed(alloc, integer, *at)?;
                self.computed_with(alloc, *operator, number, operand, *at)
            }
            Vector::Encoded(at, number, size) => self.encoded(number, size, *at),
            Vector::ComputedEncoded(at, number, size) => {
                let number = self.computed(alloc, number, *at)?;
                let (number, len) = both(number, self.integers.size_of(size, *at))?;
                Ok(number.natural_digits(alloc, len as usize)?)
            }
            Vector::Counted(at, operator, operand, count) => {
                self.by_count(alloc, *operator, operand, count, *at)
            }
            Vector::Shifted(at, operator, operand, count) => {
                let operand = self.expanded(alloc, operand)?;
                let (operand, count) = both(operand, self.computed(alloc, count, *at))?;
                Ok(operand.shifted(alloc, *operator, count.operand)?)
            }
            Vector::Aggregate(at, range, elements) => {
                self.aggregate(alloc, lent_range(range), elements, *at)
            }
            Vector::Sized(at, range, operand) => self.sized(alloc, range, operand, *at),
        }
    }

    /// A signal, port or part of one, by its elements.
    pub(crate) fn signal(
        &self,
        signal: Signal,
        part: &Part,
        at: usize,
    ) -> Result<Operand, ElabFault>
        requires { IsSite self.now }
        ensures { Expands operand_view (steps.signal (site_view self.now) at (signal_view signal) (part_view part.now))
            result }
    {
        let run = self.signal_elements(signal, part, at)?;
        let elements = elements(run);
        Ok(Operand {
            expr: Expr::Signal(elements),
            width: Width { len: run.len },
        })
    }

    /// A variable or part of one, by its elements.
    pub(crate) fn variable(
        &self,
        number: usize,
        part: &Part,
        at: usize,
    ) -> Result<Operand, ElabFault>
        requires { IsSite self.now }
        ensures { Expands operand_view (steps.variable (site_view self.now) at number (part_view part.now)) result }
    {
        let run = self.variable_elements(number, part, at)?;
        let elements = elements(run);
        Ok(Operand {
            expr: Expr::Variable(elements),
            width: Width { len: run.len },
        })
    }

    /// What a run chooses of a signal or port.
    #[cycle(vector)]
    #[tactic(auto, unfolding(vhdl_expand_rules::specs::Expressions::vector))]
    fn in_signal(
        &self,
        alloc: Global,
        signal: Signal,
        part: &Chosen,
        at: usize,
    ) -> Result<Operand, ElabFault>
        requires { IsSite self.now }
        ensures { Expands operand_view
            (definition.vector (site_view self.now) (units.in_signal at (signal_view signal) (chosen_view part.now)))
            result }
    {
        let run = self.signal_elements(signal, &Part::Whole, at)?;
        let bounds = self.signal_bounds(signal, at)?;
        let row = self.row(alloc, bounds, part, at)?;
        Ok(
            row.index
                .choose(alloc, row.width, RowsOf::Signals(elements(run)))?,
        )
    }

    /// What a run chooses of a variable.
    #[cycle(vector)]
    #[tactic(auto, unfolding(vhdl_expand_rules::specs::Expressions::vector))]
    fn in_variable(
        &self,
        alloc: Global,
        number: usize,
        part: &Chosen,
        at: usize,
    ) -> Result<Operand, ElabFault>
        requires { IsSite self.now }
        ensures { Expands operand_view
            (definition.vector (site_view self.now) (units.in_variable at number (chosen_view part.now))) result }
    {
        let run = self.variable_elements(number, &Part::Whole, at)?;
        let bounds = self.variable_bounds(number, at)?;
        let row = self.row(alloc, bounds, part, at)?;
        Ok(
            row.index
                .choose(alloc, row.width, RowsOf::Variables(elements(run)))?,
        )
    }

    /// What a run chooses of a constant. It takes the memory of the constant's values.
    #[cycle(vector)]
    #[tactic(auto, unfolding(vhdl_expand_rules::specs::Expressions::vector))]
    fn in_constant(
        &self,
        alloc: Global,
        number: usize,
        part: &Chosen,
        at: usize,
    ) -> Result<Operand, ElabFault>
        requires { IsSite self.now }
        ensures { Expands operand_view
            (definition.vector (site_view self.now) (units.in_constant at number (chosen_view part.now))) result }
    {
        let values = self.constant_values(number, &Part::Whole, at)?;
        let bounds = self.constant_bounds(number, at)?;
        let row = self.row(alloc, bounds, part, at)?;
        let rows = RowsOf::Constants(listed(alloc, &values)?);
        Ok(row.index.choose(alloc, row.width, rows)?)
    }

    /// A computed number, an operator and a vector: the number stands for its last digits, as many
    /// as the vector has.
    #[cycle(vector)]
    fn computed_with(
        &self,
        alloc: Global,
        operator: Numeric,
        number: Number,
        operand: &Vector,
        at: usize,
    ) -> Result<Operand, ElabFault>
        requires { IsSite self.now }
        ensures { Expands operand_view
            (steps.computed_with (site_view self.now) at operator (number_view number) (vector_view operand.now))
            result }
    {
        let (number, operand) = both(number, self.expanded(alloc, operand))?;
        let digits = number.natural_digits(alloc, operand.width.len)?;
        let mut chain = digits.begin(alloc)?;
        chain.add(numeric(operator), operand, at)?;
        Ok(chain.whole())
    }

    /// `to_unsigned`.
    #[tactic(auto, using(crate::proofs::Places::size_fits))]
    fn encoded(&self, number: &Static, size: &Static, at: usize) -> Result<Operand, ElabFault>
        ensures { Expands operand_view (steps.encoded (site_view self.now) at (static_view number.now)
            (static_view size.now)) result }
    {
        let number = self.integers.natural(number, at)?;
        let len = self.integers.size_of(size, at)?;
        Ok(Operand::constant(Vec9::of_nat(u64::from(number), len as usize)))
    }

    /// An operator with a count.
    #[cycle(vector)]
    #[tactic(auto, using(vhdl_expand_rules::proofs::laws::Operands::count_is_count))]
    fn by_count(
        &self,
        alloc: Global,
        operator: Counted,
        operand: &Vector,
        count: &Static,
        at: usize,
    ) -> Result<Operand, ElabFault>
        requires { IsSite self.now }
        ensures { Expands operand_view
            (steps.by_count (site_view self.now) at operator (vector_view operand.now) (static_view count.now)) result }
    {
        let operand = self.expanded(alloc, operand)?;
        let (operand, count) = both(operand, self.integers.count_of(operator, count, at))?;
        Ok(operand.by_count(alloc, operator, count)?)
    }

    /// A static integer, an operator and a vector: the integer stands for its last digits, as many
    /// as the vector has.
    #[cycle(vector)]
    fn integer_with(
        &self,
        alloc: Global,
        operator: Numeric,
        operand: &Vector,
        integer: &Static,
        at: usize,
    ) -> Result<Operand, ElabFault>
        requires { IsSite self.now }
        ensures { Expands operand_view
            (steps.integer_with (site_view self.now) at operator (static_view integer.now) (vector_view operand.now))
            result }
    {
        let number = self.integers.natural(integer, at)?;
        let operand = self.expanded(alloc, operand)?;
        operand.behind(alloc, number, numeric(operator), at)
    }

    /// The first operator of a chain.
    #[cycle(vector)]
    fn started(&self, alloc: Global, start: &VectorStart) -> Result<Chain, ElabFault>
        requires { IsSite self.now }
        ensures { Expands chain_view (steps.started (site_view self.now) start.now) result }
    {
        let first = self.expanded(alloc, &start.first)?;
        let mut chain = first.begin(alloc)?;
        self.add_link(alloc, &start.link, &mut chain)?;
        Ok(chain)
    }

    /// Puts further operators behind a chain.
    #[cycle(vector)]
    fn add_links(
        &self,
        alloc: Global,
        links: &[VectorLink],
        chain: &mut Chain,
    ) -> Result<(), ElabFault>
        requires { IsSite self.now }
        ensures { Expands (λ _. chain_view chain.new)
            (chained (steps.linked (site_view self.now)) (chain_view chain.old) links.now) result }
    {
        for link in links {
            self.add_link(alloc, link, chain)?;
        }
        Ok(())
    }

    /// Puts an operator with its right operand behind a chain.
    #[cycle(vector)]
    fn add_link(&self, alloc: Global, link: &VectorLink, chain: &mut Chain) -> Result<(), ElabFault>
        requires { IsSite self.now }
        ensures { Expands (λ _. chain_view chain.new)
            (steps.linked (site_view self.now) (chain_view chain.old) link.now) result }
    {
        match link {
            VectorLink::Vector(kind, at, operand) => {
                let operand = self.expanded(alloc, operand)?;
                chain.add(operator(*kind), operand, *at)
            }
            VectorLink::Integer(kind, at, integer) => {
                let number = self.integers.natural(integer, *at)?;
                let digits = Operand::constant(Vec9::of_nat(u64::from(number), chain.width.len));
                chain.add(numeric(*kind), digits, *at)
            }
            VectorLink::Computed(kind, at, integer) => {
                let number = self.computed(alloc, integer, *at)?;
                let digits = number.natural_digits(alloc, chain.width.len)?;
                chain.add(numeric(*kind), digits, *at)
            }
        }
    }
}
