//! Objects of integer types, expanded: what they are as numbers (IEEE 1076-2008, 5.2.3).

ghost use Rattle.std.specs.Prelude.{option_map};
ghost use Rattle.vhdl_names_trees.specs.views.Vectors.{signal_view};
ghost use Rattle.vhdl_expand_rules.specs.Expressions as definition;
ghost use Rattle.vhdl_expand_rules.specs.Site as sites;
ghost use Rattle.vhdl_expand_rules.specs.views.Integers.{range_view, Makes};
ghost use Rattle.vhdl_expand_rules.specs.views.Kinds.{kind_view};
ghost use Rattle.vhdl_expand_operands.specs.Results.{Expands};
ghost use Rattle.vhdl_expand_numbers.specs.Views.{number_view};
ghost use Rattle.vhdl_expand_bodies.specs.Sites.{IsSite, site_view};

use crate::site::Site;
use std::alloc::Global;
use vhdl_expand_numbers::Number;
use vhdl_expand_operands::both;
use vhdl_expand_rules::{ElabFault, ElabProblem, IntegerRange, ObjectKind};
use vhdl_names_trees::{Part, Signal};

/// The range of what is an integer; a fault is Index.
fn integer_range(kind: Option<ObjectKind>, at: usize) -> Result<IntegerRange, ElabFault>
    ensures { Makes range_view (sites.integer_range at (option_map kind_view kind)) result }
{
    match kind {
        Some(ObjectKind::Integer(range)) => Ok(range),
        Some(ObjectKind::One)
        | Some(ObjectKind::Vector(_))
        | Some(ObjectKind::Enumeration(_))
        | Some(ObjectKind::Boolean)
        | None => Err(ElabProblem::Index.at(at)),
    }
}

impl Site<'_> {
    /// The number that a signal or port of an integer type has; a fault is Index. It takes the
    /// memory of boxes and a list.
    #[tactic(auto, unfolding(vhdl_expand_rules::specs::Expressions::signal_number))]
    pub(crate) fn signal_number(
        &self,
        alloc: Global,
        signal: Signal,
        at: usize,
    ) -> Result<Number, ElabFault>
        requires { IsSite self.now }
        ensures { Expands number_view
            (definition.signal_number (site_view self.now) at (signal_view signal)) result }
    {
        let operand = self.signal(signal, &Part::Whole, at)?;
        let (operand, range) = both(operand, integer_range(self.signal_kind(signal), at))?;
        Ok(Number::of_object(operand, alloc, range)?)
    }

    /// The number that a variable of an integer type has, likewise.
    #[tactic(auto, unfolding(vhdl_expand_rules::specs::Expressions::variable_number))]
    pub(crate) fn variable_number(
        &self,
        alloc: Global,
        number: usize,
        at: usize,
    ) -> Result<Number, ElabFault>
        requires { IsSite self.now }
        ensures { Expands number_view (definition.variable_number (site_view self.now) at number) result }
    {
        let operand = self.variable(number, &Part::Whole, at)?;
        let (operand, range) = both(operand, integer_range(self.variable_kind(number), at))?;
        Ok(Number::of_object(operand, alloc, range)?)
    }
}
