//! The choices of a case on an integer (IEEE 1076-2008, 10.9).

ghost use Rattle.std.specs.Prelude.{◌≡◌, map};
ghost use Rattle.rtl_net.specs.Bodies as net;
ghost use Rattle.rtl_model.specs.bodies.Fits.{width};
ghost use Rattle.vhdl_names_trees.specs.views.Vectors.{computed_view};
ghost use Rattle.vhdl_names_units.specs.views.Answers.{choice_view};
ghost use Rattle.vhdl_names_units.specs.views.Sequential.{alternative_view};
ghost use Rattle.vhdl_expand_rules.specs.Statements as definition;
ghost use Rattle.vhdl_expand_rules.specs.views.Integers.{integers_view};
ghost use Rattle.vhdl_expand_numbers.specs.Views.{limits_view, number_view};
ghost use Rattle.vhdl_expand_operands.specs.Results.{Expands};
ghost use Rattle.vhdl_expand_choices.specs.Views.{all_choices, counted, served, spread_by};

use crate::apart::are_apart;
use crate::spans::{add_alternatives, add_choices};
use crate::spread::{add_digits, numbers_count};
use rtl_net::Choice;
use std::alloc::Global;
use vhdl_expand_numbers::{INTEGERS, Limits, Number};
use vhdl_expand_operands::Width;
use vhdl_expand_rules::{ElabFault, ElabProblem, Integers, extent};
use vhdl_names_trees::Computed;
use vhdl_names_units as analysed;
use vhdl_names_units::Alternative;
use vhdl_tree::Direction;

/// The most numbers of a case that are spread.
const MAX_NUMBERS: usize = 4096;

/// What a case is on: among which numbers its choices have to lie, which its integer may be, and in
/// how many digits.
#[derive(Clone, Copy)]
pub struct NumberChoices {
    pub among: Limits,
    pub all: Limits,
    pub width: Width,
}

/// Among which numbers the choices of a case have to lie: of the name of an object, those of its
/// range, else any integers.
#[tactic(auto, using(crate::proofs::Chains::chain_is_no_object))]
fn may_choose(integer: &Computed, number: &Number) -> Limits
    ensures { limits_view result ≡ definition.may_choose (computed_view integer.now) (number_view number.now) }
{
    match integer {
        Computed::SignalNumber(_) | Computed::VariableNumber(_) => number.limits(),
        Computed::Static(_)
        | Computed::Number(_, _)
        | Computed::Negated(_, _)
        | Computed::Magnitude(_, _)
        | Computed::Chain(_, _) => INTEGERS,
    }
}

impl NumberChoices {
    /// Those of a case on an integer, which is this number.
    pub fn of(integer: &Computed, number: &Number) -> NumberChoices
        ensures among { limits_view result.among ≡
            definition.may_choose (computed_view integer.now) (number_view number.now) }
        ensures all { limits_view result.all ≡ (number_view number.now).span }
        ensures width { result.width.len ≡ width (number_view number.now).digits }
    {
        NumberChoices {
            among: may_choose(integer, number),
            all: number.limits(),
            width: number.operand.width,
        }
    }

    /// Sees that choices serve, `last` being those of an alternative that stands as others: none is
    /// chosen twice, each number has a choice, and those of the other alternatives are 4,096 at
    /// most. A fault is StaticError, GenericRange or Index at a choice, or StaticError or TooMany
    /// at byte `at`. It takes the memory of a list.
    pub fn serve(
        self,
        alloc: Global,
        integers: &Integers,
        alternatives: &[Alternative],
        last: &[analysed::Choice],
        at: usize,
    ) -> Result<(), ElabFault>
        ensures { Expands (λ _. tt) (served (integers_view integers.now) at (limits_view self.among)
            (limits_view self.all) (all_choices (map alternative_view alternatives.now))
            (map choice_view last.now)) result }
    {
        let mut spans = Vec::new(alloc);
        add_alternatives(integers, self.among, alternatives, &mut spans)?;
        let spread = numbers_count(self.all, &spans);
        add_choices(integers, self.among, last, &mut spans)?;
        are_apart(&spans)?;
        let needed = extent(Direction::To, self.all.least, self.all.greatest) as usize;
        if !last.is_empty() && numbers_count(self.all, &spans) != needed {
            return Err(ElabProblem::StaticError.at(at));
        }
        if spread > MAX_NUMBERS {
            return Err(ElabProblem::TooMany.at(at));
        }
        Ok(())
    }

    /// How many numbers of choices the integer may be, or the most that a word holds; a fault is
    /// StaticError or GenericRange. It takes the memory of a list.
    pub fn count(
        self,
        alloc: Global,
        integers: &Integers,
        alternatives: &[Alternative],
    ) -> Result<usize, ElabFault>
        ensures { Expands (λ n. n) (counted (limits_view self.all)
            (definition.choices_spans (integers_view integers.now) (limits_view self.among)
            (all_choices (map alternative_view alternatives.now)))) result }
    {
        let mut spans = Vec::new(alloc);
        add_alternatives(integers, self.among, alternatives, &mut spans)?;
        Ok(numbers_count(self.all, &spans))
    }

    /// The digits of each number of choices that the integer may be; a fault is StaticError or
    /// GenericRange. It takes the memory of lists.
    pub(crate) fn spread(
        self,
        alloc: Global,
        integers: &Integers,
        choices: &[analysed::Choice],
    ) -> Result<Vec<Choice>, ElabFault>
        ensures { Expands (λ v. map net.choice_view v.items)
            (spread_by (integers_view integers.now) self (map choice_view choices.now)) result }
    {
        let mut spans = Vec::new(alloc);
        add_choices(integers, self.among, choices, &mut spans)?;
        let mut codes = Vec::new(alloc);
        for span in &spans {
            add_digits(self.all, self.width, span.limits, &mut codes)?;
        }
        Ok(codes)
    }
}
