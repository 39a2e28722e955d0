//! Values, expanded (IEEE 1076-2008, clause 9).

ghost use Rattle.std.specs.Prelude.{◌≡◌};
ghost use Rattle.rtl_model.specs.bodies.Body as bodies;
ghost use Rattle.vhdl_names_trees.specs.views.Vectors as analysed;
ghost use Rattle.vhdl_names_trees.specs.views.Vectors.{part_view, signal_view};
ghost use Rattle.vhdl_expand_rules.specs.Expressions as definition;
ghost use Rattle.vhdl_expand_rules.specs.Site.{signal_elements, the_element};
ghost use Rattle.vhdl_expand_operands.specs.Operands.{operand_view};
ghost use Rattle.vhdl_expand_operands.specs.Results.{Expands};
ghost use Rattle.vhdl_expand_operands.specs.Selecteds.{selected_view};
ghost use Rattle.vhdl_expand_bodies.specs.Sites.{IsSite, site_view};

use crate::site::{Site, element};
use std::alloc::Global;
use vhdl_expand_operands::{Operand, Selected, Width};
use vhdl_expand_rules::ElabFault;
use vhdl_names_trees::{Part, Signal, Value};
use vhdl_values::{Nine, Vec9};

/// A value of elements.
pub fn elements_of(operand: Operand) -> Selected
    ensures { selected_view result ≡ bodies.elements (operand_view operand) }
{
    Selected {
        width: operand.width,
        value: rtl_net::Value::Elements(operand.expr),
    }
}

/// A value that an enumeration's literal is, by its position.
fn position(number: u8) -> Selected
    ensures { selected_view result ≡ bodies.Value.position number }
{
    Selected {
        value: rtl_net::Value::Position(number),
        width: Width { len: 1 },
    }
}

impl Site<'_> {
    /// The element that a signal or port, or part of one, is; a fault is StaticError or Index.
    pub(crate) fn signal_element(
        &self,
        signal: Signal,
        part: &Part,
        at: usize,
    ) -> Result<u32, ElabFault>
        requires { IsSite self.now }
        ensures { Expands (λ n. n) (the_element at
            (signal_elements (site_view self.now) at (signal_view signal) (part_view part.now))) result }
    {
        let run = self.signal_elements(signal, part, at)?;
        Ok(element(run))
    }

    /// A value, expanded; a fault is StaticError, Length, Index or TooWide.
    #[tactic(auto, unfolding(vhdl_expand_rules::specs::Expressions::value))]
    pub fn expanded_value(
        &self,
        alloc: Global,
        value: &Value,
        at: usize,
    ) -> Result<Selected, ElabFault>
        requires { IsSite self.now }
        ensures { Expands selected_view (definition.value (site_view self.now) at (analysed.value_view value.now))
            result }
    {
        match value {
            Value::Elements(vector) => {
                let operand = self.expanded(alloc, vector)?;
                Ok(elements_of(operand))
            }
            Value::Position(number) => Ok(position(*number)),
            Value::StateOf(signal) => {
                let element = self.signal_element(*signal, &Part::Whole, at)?;
                Ok(Selected {
                    value: rtl_net::Value::PositionOf(element),
                    width: Width { len: 1 },
                })
            }
            Value::StateOfVariable(number) => {
                let run = self.variable_elements(*number, &Part::Whole, at)?;
                let element = element(run);
                Ok(Selected {
                    value: rtl_net::Value::PositionIn(element),
                    width: Width { len: 1 },
                })
            }
            Value::Computed(integer) => {
                let number = self.computed(alloc, integer, at)?;
                Ok(elements_of(number.operand))
            }
            Value::StaticTruth(test) => {
                let holds = self.integers.decision(test)?;
                let truth = Vec9::fill(Nine::of_truth(holds), 1);
                Ok(elements_of(Operand::constant(truth)))
            }
        }
    }
}
