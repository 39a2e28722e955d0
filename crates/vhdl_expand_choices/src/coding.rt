//! The codes of choices (IEEE 1076-2008, 10.9).

ghost use Rattle.std.specs.Prelude.{map};
ghost use Rattle.rtl_net.specs.Bodies as net;
ghost use Rattle.vhdl_names_units.specs.views.Answers.{choice_view};
ghost use Rattle.vhdl_expand_rules.specs.Elab.{each};
ghost use Rattle.vhdl_expand_rules.specs.Statements as definition;
ghost use Rattle.vhdl_expand_rules.specs.views.Integers.{integers_view};
ghost use Rattle.vhdl_expand_operands.specs.Results.{Expands};
ghost use Rattle.vhdl_expand_choices.specs.Views.{codes_by};

use crate::number::NumberChoices;
use rtl_net::Choice;
use std::alloc::Global;
use vhdl_expand_operands::{Width, add};
use vhdl_expand_rules::{ElabFault, ElabProblem, Integers};
use vhdl_names_units as analysed;
use vhdl_values::Vec9;

/// What makes the codes of the choices of a case.
#[derive(Clone, Copy)]
pub enum Coding {
    /// Of one on so many elements, or on an enumeration.
    Elements(Width),
    /// Of one on an integer.
    Numbers(NumberChoices),
}

/// A choice of a case whose selector has so many elements; a fault is Length.
#[tactic(auto, unfolding(vhdl_expand_rules::specs::Statements::choice))]
fn choice(len: Width, choice: &analysed::Choice, at: usize) -> Result<Choice, ElabFault>
    ensures { Expands net.choice_view (definition.choice at len.len (choice_view choice.now)) result }
{
    let needed = len.len;
    match choice {
        analysed::Choice::Values(values) => {
            let found = values.len();
            if found != needed {
                return Err(ElabProblem::Length { found, needed }.at(at));
            }
            Ok(Choice::Elements(Vec9::of(values)))
        }
        analysed::Choice::Position(position) => Ok(Choice::Position(*position)),
        analysed::Choice::Numbers(_) => Err(ElabProblem::Length { found: 1, needed }.at(at)),
    }
}

/// The choices of an alternative whose selector has so many elements; a fault is Length.
fn choices(
    alloc: Global,
    width: Width,
    list: &[analysed::Choice],
    at: usize,
) -> Result<Vec<Choice>, ElabFault>
    ensures { Expands (λ v. map net.choice_view v.items)
        (each (definition.choice at width.len) (map choice_view list.now)) result }
{
    let mut choices = Vec::new(alloc);
    for item in list {
        add(&mut choices, choice(width, item, at))?;
    }
    Ok(choices)
}

impl Coding {
    /// The codes of the choices of an alternative; a fault is StaticError, GenericRange or Length.
    /// It takes the memory of lists.
    pub fn codes(
        self,
        alloc: Global,
        integers: &Integers,
        list: &[analysed::Choice],
        at: usize,
    ) -> Result<Vec<Choice>, ElabFault>
        ensures { Expands (λ v. map net.choice_view v.items)
            (codes_by (integers_view integers.now) at self (map choice_view list.now)) result }
    {
        match self {
            Coding::Elements(width) => choices(alloc, width, list, at),
            Coding::Numbers(numbers) => numbers.spread(alloc, integers, list),
        }
    }
}
