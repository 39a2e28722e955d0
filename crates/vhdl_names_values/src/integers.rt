//! Subtype indications of integers (IEEE 1076-2008, 6.3).

ghost use Rattle.std.specs.Prelude.{◌≡◌, option_map, IfErr};
ghost use Rattle.vhdl_names_rules.specs.problems.Broken.{Tells, ◌▸◌};
ghost use Rattle.vhdl_names_rules.specs.problems.Subtypes as broken;
ghost use Rattle.vhdl_names_rules.specs.declared.fault.NameProblem.TheVariants.{LeftOut};
ghost use Rattle.vhdl_names_rules.specs.Gives.{Gives};
ghost use Rattle.vhdl_names_rules.specs.Subtypes as rules;
ghost use Rattle.vhdl_names_rules.specs.Visibility as visibility;
ghost use Rattle.vhdl_names_trees.specs.views.Integers.{range_view, subtype_view};
ghost use Rattle.vhdl_names_rules.specs.views.Ranges.{base_view};
ghost use Rattle.vhdl_names_sight.specs.Views.{entry_of};
ghost use Rattle.vhdl_names_values.specs.Marking as steps;
ghost use Rattle.vhdl_names_values.specs.Constraining.{constraint_breaks};
ghost use Rattle.vhdl_tree.specs.View.{constraint_view, subtype_view as tree_subtype_view, discrete_range_view};

use vhdl_names_asked::{range_start, static_range};
use vhdl_names_rules::{IntegerBase, NameFault, NameProblem};
use vhdl_names_sight::{Entry, Meaning, Sight};
use vhdl_names_trees::{IntegerSubtype, StaticRange};
use vhdl_tree::{Constraint, Direction, DiscreteRange, Subtype as TreeSubtype};

/// The integers of a type, or of a subtype with a range.
pub fn integers_of(entry: &Entry) -> Option<IntegerBase>
    ensures { (n : visibility.Name) → option_map base_view result ≡ rules.integers_of (entry_of n entry.now) }
{
    match (&entry.meaning, entry.range) {
        (Meaning::IntegerType(own), None) => Some(IntegerBase::Type(*own)),
        (Meaning::IntegerType(_), Some(range)) => Some(IntegerBase::Range(range.number)),
        _ => None,
    }
}

/// Whether bounds or a range attribute stand there, and no subtype.
fn is_range(range: &DiscreteRange) -> bool
    ensures { result ≡ rules.is_range (discrete_range_view range.now) }
{
    match range {
        DiscreteRange::Bounds(_) => true,
        DiscreteRange::Name(name) => name.attribute.is_some(),
    }
}

/// The range behind `range`, and the byte at which it starts. Behind a mark at byte `mark_at` no
/// range in parentheses is read.
fn value_range(
    sight: &Sight,
    constraint: &Constraint,
    mark_at: usize,
) -> Result<(usize, StaticRange), NameFault>
    ensures given { Gives (λ r. (r.0, range_view r.1)) (rules.value_range sight.now (constraint_view constraint.now))
        result }
    ensures told { IfErr result (Tells (constraint_breaks sight.now mark_at (constraint_view constraint.now))) }
{
    match constraint {
        Constraint::Index(_) => Err(NameProblem::LeftOut.at(mark_at)),
        Constraint::Range(range) => {
            let at = range_start(range);
            if !is_range(range) {
                return Err(NameProblem::LeftOut.at(at));
            }
            let bounds = static_range(sight, range)?;
            Ok((at, bounds))
        }
    }
}

/// A subtype of integers of this base. It takes memory for what is analysed.
pub fn integer_subtype(
    sight: &Sight,
    base: IntegerBase,
    indication: &TreeSubtype,
) -> Result<IntegerSubtype, NameFault>
    ensures given { Gives subtype_view
        (steps.integers_with sight.now (base_view base) (option_map constraint_view indication.now.constraint))
        result }
    ensures told { IfErr result (Tells (broken.integer_subtype sight.now (tree_subtype_view indication.now))) }
{
    match &indication.constraint {
        None => Ok(IntegerSubtype { base, range: None }),
        Some(constraint) => {
            let range = value_range(sight, constraint, indication.mark.at)?;
            Ok(IntegerSubtype {
                base,
                range: Some(range),
            })
        }
    }
}

/// The direction of a subtype of integers of this mark, if it has a range.
pub fn numbers_direction(mark: &Entry, subtype: &IntegerSubtype) -> Option<Direction>
    ensures { (n : visibility.Name) → result
        ≡ rules.numbers_direction (entry_of n mark.now) (subtype_view subtype.now) }
{
    match (&subtype.range, mark.range) {
        (Some((_, range)), _) => Some(range.direction),
        (None, Some(range)) => Some(range.direction),
        (None, None) => None,
    }
}
