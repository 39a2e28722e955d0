//! What assignments give, expanded (IEEE 1076-2008, 10.5, 10.6). Lengths agree, whether a statement
//! is run or not.

ghost use Rattle.std.specs.Prelude.{option_map, Some};
ghost use Rattle.rtl_net.specs.Bodies.{expr_view};
ghost use Rattle.vhdl_names_trees.specs.views.Vectors.{computed_view};
ghost use Rattle.vhdl_expand_rules.specs.Kinds.{integer};
ghost use Rattle.vhdl_expand_rules.specs.Statements as definition;
ghost use Rattle.vhdl_expand_rules.specs.views.Integers.{range_view};
ghost use Rattle.vhdl_expand_rules.specs.views.Kinds.{kind_view};
ghost use Rattle.vhdl_expand_operands.specs.Results.{Expands};
ghost use Rattle.vhdl_expand_operands.specs.Selecteds.{selected_view};
ghost use Rattle.vhdl_expand_bodies.specs.Sites.{IsSite, site_view};
ghost use Rattle.vhdl_names_units.specs.views.Answers as analysed;

use crate::site::Site;
use crate::values::elements_of;
use rtl_net::{Expr, Value};
use std::alloc::Global;
use vhdl_expand_operands::{Operand, Selected, Width, both};
use vhdl_expand_rules::{ElabFault, ElabProblem, IntegerRange, Numbers, ObjectKind};
use vhdl_names_trees as names;
use vhdl_names_trees::Computed;
use vhdl_names_units::Given;
use vhdl_numbers::digits_of;

impl Site<'_> {
    /// What is given to so many elements; a fault is StaticError, Length, Index or TooWide.
    #[tactic(auto, unfolding(vhdl_expand_rules::specs::Statements::value_given))]
    pub fn given(
        &self,
        alloc: Global,
        width: Width,
        given: &Given,
        at: usize,
    ) -> Result<Selected, ElabFault>
        requires { IsSite self.now }
        ensures { Expands selected_view (definition.value_given (site_view self.now) at width.len
            (analysed.given_view given.now)) result }
    {
        match given {
            Given::Single(value) => {
                let selected = self.expanded_value(alloc, value, at)?;
                let found = selected.width.len;
                let needed = width.len;
                if found != needed {
                    drop(selected);
                    return Err(ElabProblem::Length { found, needed }.at(at));
                }
                Ok(selected)
            }
            Given::Filled(element) => {
                let element = self.one_element(alloc, element, at)?;
                let filled = element.filled(alloc, width)?;
                Ok(Selected {
                    value: Value::Elements(filled.expr),
                    width,
                })
            }
        }
    }

    /// What is given to an integer of a range: a static one lies within it, and a computed one
    /// outside is X. A fault is GenericRange, StaticError, Length, Index or TooWide.
    #[tactic(auto, using(crate::proofs::Kept::chain_is_kept))]
    fn number_given(
        &self,
        alloc: Global,
        range: IntegerRange,
        integer: &Computed,
        at: usize,
    ) -> Result<Selected, ElabFault>
        requires { IsSite self.now }
        ensures { Expands selected_view
            (definition.number_given (site_view self.now) at (range_view range) (computed_view integer.now)) result }
    {
        match integer {
            Computed::Static(integer) => {
                let numbers = Numbers::Range(range);
                let number = self.integers.integer_among(numbers, integer, at)?;
                let digits = digits_of(number, range.size());
                Ok(elements_of(Operand::constant(digits)))
            }
            Computed::Number(_, _)
            | Computed::SignalNumber(_)
            | Computed::VariableNumber(_)
            | Computed::Negated(_, _)
            | Computed::Magnitude(_, _)
            | Computed::Chain(_, _) => {
                let number = self.computed(alloc, integer, at)?;
                let kept = number.kept_in(alloc, range)?;
                Ok(elements_of(kept))
            }
        }
    }

    /// What is given to so many elements of an integer of a range.
    fn given_in(
        &self,
        alloc: Global,
        range: IntegerRange,
        width: Width,
        given: &Given,
        at: usize,
    ) -> Result<Selected, ElabFault>
        requires { IsSite self.now }
        ensures { Expands selected_view (definition.given_to (site_view self.now) at
            (Some (integer (range_view range))) width.len (analysed.given_view given.now)) result }
    {
        match given {
            Given::Single(value) => match &**value {
                names::Value::Computed(integer) => self.number_given(alloc, range, integer, at),
                names::Value::Elements(_)
                | names::Value::Position(_)
                | names::Value::StateOf(_)
                | names::Value::StateOfVariable(_)
                | names::Value::StaticTruth(_) => self.given(alloc, width, given, at),
            },
            Given::Filled(_) => self.given(alloc, width, given, at),
        }
    }

    /// What is given to so many elements of an object of this kind; a fault is GenericRange,
    /// StaticError, Length, Index or TooWide.
    pub fn given_to(
        &self,
        alloc: Global,
        kind: Option<ObjectKind>,
        width: Width,
        given: &Given,
        at: usize,
    ) -> Result<Selected, ElabFault>
        requires { IsSite self.now }
        ensures { Expands selected_view (definition.given_to (site_view self.now) at (option_map kind_view kind)
            width.len (analysed.given_view given.now)) result }
    {
        match kind {
            Some(ObjectKind::Integer(range)) => self.given_in(alloc, range, width, given, at),
            Some(ObjectKind::One)
            | Some(ObjectKind::Vector(_))
            | Some(ObjectKind::Enumeration(_))
            | Some(ObjectKind::Boolean)
            | None => self.given(alloc, width, given, at),
        }
    }

    /// What is given to so many elements of the nine values; a fault is StaticError, Length, Index
    /// or TooWide.
    #[tactic(auto, unfolding(vhdl_expand_rules::specs::Statements::elements_given))]
    pub fn elements_given(
        &self,
        alloc: Global,
        width: Width,
        given: &Given,
        at: usize,
    ) -> Result<Expr, ElabFault>
        requires { IsSite self.now }
        ensures { Expands expr_view
            (definition.elements_given (site_view self.now) at width.len (analysed.given_view given.now)) result }
    {
        let needed = width.len;
        match given {
            Given::Single(value) => match &**value {
                names::Value::Elements(vector) => {
                    let operand = self.expanded(alloc, vector)?;
                    let found = operand.width.len;
                    if found != needed {
                        drop(operand);
                        return Err(ElabProblem::Length { found, needed }.at(at));
                    }
                    Ok(operand.expr)
                }
                names::Value::Position(_)
                | names::Value::StateOf(_)
                | names::Value::StateOfVariable(_)
                | names::Value::Computed(_)
                | names::Value::StaticTruth(_) => {
                    Err(ElabProblem::Length { found: 1, needed }.at(at))
                }
            },
            Given::Filled(element) => {
                let element = self.one_element(alloc, element, at)?;
                Ok(element.filled(alloc, width)?.expr)
            }
        }
    }
}
