//! What case statements are on, expanded, and the numbers that they spread (IEEE 1076-2008, 10.9).

ghost use Rattle.std.specs.Prelude.{◌-◌, ◌^◌, min, List, map, Ok};
ghost use Rattle.vhdl_names_rules.specs.units.Statements as units;
ghost use Rattle.vhdl_names_rules.specs.units.Statements.{Choice};
ghost use Rattle.vhdl_names_trees.specs.views.Vectors.{computed_view, value_view};
ghost use Rattle.vhdl_names_units.specs.declared.sequential.Case.{out-Case};
ghost use Rattle.vhdl_names_units.specs.views.Answers.{choices_view};
ghost use Rattle.vhdl_names_units.specs.views.Sequential as analysed;
ghost use Rattle.vhdl_expand_rules.specs.Statements.{or_none, spread_count as spread_count_of};
ghost use Rattle.vhdl_expand_operands.specs.Results.{Expands};
ghost use Rattle.vhdl_expand_bodies.specs.Sites.{IsSite, site_view};
ghost use Rattle.vhdl_expand_statements.specs.Statements.{selector_view};
ghost use Rattle.vhdl_expand_statements.specs.steps.Statements as steps;

use std::alloc::Global;
use vhdl_expand_bodies::{Site, elements_of};
use vhdl_expand_choices::{Coding, NumberChoices};
use vhdl_expand_operands::{Selected, both};
use vhdl_expand_rules::ElabFault;
use vhdl_names_trees::{Computed, Value};
use vhdl_names_units::{Alternative, Case};

/// What a case is on, and what makes the codes of its choices, which serve; a fault is
/// GenericRange, StaticError, Length, Index, TooWide or TooMany.
pub(crate) fn selector(
    site: &Site,
    alloc: Global,
    selection: &Case,
) -> Result<(Selected, Coding), ElabFault>
    requires { IsSite site.now }
    ensures { Expands (selector_view (site_view site.now).integers (out-Case selection.now).at)
        (steps.selector (site_view site.now) (out-Case selection.now).at
        (value_view (out-Case selection.now).selector)
        (analysed.alternatives_view (out-Case selection.now).alternatives)
        (choices_view (out-Case selection.now).last)) result }
{
    let at = selection.at;
    match &selection.selector {
        Value::Computed(integer) => {
            let number = site.computed(alloc, integer, at)?;
            let numbers = NumberChoices::of(integer, &number);
            let (alternatives, last) = (&selection.alternatives, &selection.last);
            let served = numbers.serve(alloc, &site.integers, alternatives, last, at);
            let (number, ()) = both(number, served)?;
            Ok((elements_of(number.operand), Coding::Numbers(numbers)))
        }
        Value::Elements(_)
        | Value::Position(_)
        | Value::StateOf(_)
        | Value::StateOfVariable(_)
        | Value::StaticTruth(_) => {
            let selected = site.expanded_value(alloc, &selection.selector, at)?;
            let coding = Coding::Elements(selected.width);
            Ok((selected, coding))
        }
    }
}

/// How many numbers of a case on an integer are spread, or the most that a word holds; a fault
/// is GenericRange, StaticError, Length, Index or TooWide.
fn spread_count(
    site: &Site,
    alloc: Global,
    integer: &Computed,
    alternatives: &[Alternative],
    at: usize,
) -> Result<usize, ElabFault>
    requires { IsSite site.now }
    ensures { Expands (λ n. n) (steps.spread_number (site_view site.now) at (computed_view integer.now)
        (map analysed.alternative_view alternatives.now)) result }
{
    let number = site.computed(alloc, integer, at)?;
    let numbers = NumberChoices::of(integer, &number);
    drop(number);
    numbers.count(alloc, &site.integers, alternatives)
}

/// How many turns the numbers of a case on an integer count for, or the most that a word holds:
/// none where something is wrong with them, which is told where they are expanded. It takes the
/// memory of lists.
pub fn spread_turns(
    site: &Site,
    alloc: Global,
    integer: &Computed,
    alternatives: &[Alternative],
    at: usize,
) -> Result<usize, ElabFault>
    requires { IsSite site.now }
    ensures { (last : List Choice) (others : units.Statements) → Expands (λ n. n)
        (Ok (min (2 ^ 64 - 1) (or_none (spread_count_of (site_view site.now) at (computed_view integer.now)
        (analysed.alternatives_of (map analysed.alternative_view alternatives.now)
        (analysed.last_alternative last others)))))) result }
{
    match spread_count(site, alloc, integer, alternatives, at) {
        Ok(count) => Ok(count),
        Err(ElabFault::At { .. }) => Ok(0),
        Err(ElabFault::NoMemory) => Err(ElabFault::NoMemory),
    }
}
