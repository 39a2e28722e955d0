//! The numbers of choices of a case on an integer, with where the choices start (IEEE 1076-2008,
//! 10.9).

ghost use Rattle.std.specs.Prelude.{map};
ghost use Rattle.vhdl_names_rules.specs.units.Statements as units;
ghost use Rattle.vhdl_names_trees.specs.views.Integers.{index_view};
ghost use Rattle.vhdl_names_units.specs.views.Answers.{choice_view};
ghost use Rattle.vhdl_names_units.specs.views.Sequential.{alternative_view};
ghost use Rattle.vhdl_expand_rules.specs.Statements as definition;
ghost use Rattle.vhdl_expand_rules.specs.views.Integers.{integers_view};
ghost use Rattle.vhdl_expand_numbers.specs.Views.{limits_view};
ghost use Rattle.vhdl_expand_operands.specs.Results.{Expands};
ghost use Rattle.vhdl_expand_choices.specs.Views.{spanned_view, all_choices, put_behind};

use crate::ranges::index_range;
use vhdl_expand_numbers::Limits;
use vhdl_expand_rules::{ElabFault, ElabProblem, Integers, is_null};
use vhdl_names_trees::Index;
use vhdl_names_units::{Alternative, Choice};

/// Where a choice starts, and its numbers.
#[derive(Clone, Copy)]
pub struct Spanned {
    pub at: usize,
    pub limits: Limits,
}

/// Puts the numbers of a choice, which lie among others, behind those of the choices before it: a
/// null range has none. A fault is StaticError or GenericRange. It takes the memory of the list, as
/// those below do.
fn add_numbers(
    integers: &Integers,
    among: Limits,
    numbers: &Index,
    spans: &mut Vec<Spanned>,
) -> Result<(), ElabFault>
    ensures { Expands (λ _. map spanned_view spans.new.items)
        (put_behind (map spanned_view spans.old.items)
        (definition.choice_spans (integers_view integers.now) (limits_view among)
        (units.numbers (index_view numbers.now)))) result }
{
    let range = index_range(integers, numbers)?;
    if is_null(range.direction, range.left, range.right) {
        return Ok(());
    }
    let at = numbers.at();
    let limits = Limits::of_range(range);
    if !among.span().covers(limits.span()) {
        return Err(ElabProblem::GenericRange.at(at));
    }
    spans.push(Spanned { at, limits })?;
    Ok(())
}

/// The same of a choice of any case: of one that isn't on an integer it has none.
fn add_choice(
    integers: &Integers,
    among: Limits,
    choice: &Choice,
    spans: &mut Vec<Spanned>,
) -> Result<(), ElabFault>
    ensures { Expands (λ _. map spanned_view spans.new.items)
        (put_behind (map spanned_view spans.old.items)
        (definition.choice_spans (integers_view integers.now) (limits_view among) (choice_view choice.now))) result }
{
    match choice {
        Choice::Numbers(numbers) => add_numbers(integers, among, numbers, spans),
        Choice::Values(_) | Choice::Position(_) => Ok(()),
    }
}

/// The same of several choices.
pub(crate) fn add_choices(
    integers: &Integers,
    among: Limits,
    choices: &[Choice],
    spans: &mut Vec<Spanned>,
) -> Result<(), ElabFault>
    ensures { Expands (λ _. map spanned_view spans.new.items)
        (put_behind (map spanned_view spans.old.items)
        (definition.choices_spans (integers_view integers.now) (limits_view among) (map choice_view choices.now)))
        result }
{
    for choice in choices {
        add_choice(integers, among, choice, spans)?;
    }
    Ok(())
}

/// Of several alternatives.
pub(crate) fn add_alternatives(
    integers: &Integers,
    among: Limits,
    alternatives: &[Alternative],
    spans: &mut Vec<Spanned>,
) -> Result<(), ElabFault>
    ensures { Expands (λ _. map spanned_view spans.new.items)
        (put_behind (map spanned_view spans.old.items)
        (definition.choices_spans (integers_view integers.now) (limits_view among)
        (all_choices (map alternative_view alternatives.now)))) result }
{
    for alternative in alternatives {
        add_choices(integers, among, &alternative.choices, spans)?;
    }
    Ok(())
}
