//! Ranges of static integers, which may be names (IEEE 1076-2008, 5.2.1). Each takes memory for
//! what is analysed.

ghost use Rattle.std.specs.Prelude.{◌≡◌, IfErr};
ghost use Rattle.vhdl_names_rules.specs.problems.Broken.{Tells, refused};
ghost use Rattle.vhdl_names_rules.specs.problems.Expressions as broken;
ghost use Rattle.vhdl_names_rules.specs.problems.Places as places;
ghost use Rattle.vhdl_names_rules.specs.declared.fault.NameProblem.TheVariants.{TypeMismatch};
ghost use Rattle.vhdl_names_rules.specs.Expressions as rules;
ghost use Rattle.vhdl_names_rules.specs.Gives.{Gives};
ghost use Rattle.vhdl_names_trees.specs.views.Integers.{range_view};
ghost use Rattle.vhdl_names_trees.specs.views.Expressions.{typed_view};
ghost use Rattle.vhdl_names_sight.specs.Views.{meaning_view};
ghost use Rattle.vhdl_tree.specs.View.{name_view, discrete_range_view};
ghost use Rattle.vhdl_names_asked.specs.Asked as asked;
ghost use Rattle.vhdl_names_asked.specs.Asked.{subtype_range as subtype_range_of};

use vhdl_names_expressions::{bounds, named, start, typed_suffix, wider_range};
use vhdl_names_rules::{NameFault, NameProblem, without};
use vhdl_names_sight::{Meaning, Sight, declaration_of};
use vhdl_names_trees::{StaticRange, Typed};
use vhdl_tree::{DiscreteRange, Name};

/// The byte at which a range starts.
pub fn range_start(range: &DiscreteRange) -> usize
    ensures { result ≡ places.range_start (discrete_range_view range.now) }
{
    match range {
        DiscreteRange::Bounds(range) => start(&range.left),
        DiscreteRange::Name(name) => name.identifier.at,
    }
}

/// What is wrong with a name of this meaning as a range without an attribute.
fn no_range(meaning: &Meaning) -> NameProblem
    ensures { result ≡ broken.no_range (meaning_view meaning.now) }
{
    match meaning {
        Meaning::IntegerType(_)
        | Meaning::BooleanType
        | Meaning::ElementType { .. }
        | Meaning::VectorType(..)
        | Meaning::EnumerationType { .. } => NameProblem::LeftOut,
        Meaning::Unfinished => NameProblem::Undeclared,
        _ => NameProblem::WrongKind,
    }
}

/// The range of a subtype of integers, by its name alone.
fn subtype_range(sight: &Sight, name: &Name) -> Result<StaticRange, NameFault>
    ensures given { Gives range_view (subtype_range_of sight.now (name_view name.now)) result }
    ensures told { IfErr result (Tells (broken.subtype_range sight.now (name_view name.now))) }
{
    let entry = declaration_of(sight, &name.identifier)?;
    let suffix = typed_suffix(sight, &name.suffix)?;
    match wider_range(sight.language, entry, &suffix) {
        Some(range) => Ok(range),
        None => {
            let problem = no_range(&entry.meaning);
            Err(without(suffix, problem.at(name.identifier.at)))
        }
    }
}

/// The range that an operand is, whose name is at byte `at`.
fn as_range(operand: Typed, at: usize) -> Result<StaticRange, NameFault>
    ensures given { Gives range_view (rules.as_range (typed_view operand)) result }
    ensures told { IfErr result (Tells (refused TypeMismatch at)) }
{
    match operand {
        Typed::Interval(range) => Ok(Box::into_inner(range)),
        operand => Err(without(operand, NameProblem::TypeMismatch.at(at))),
    }
}

/// The range that a name with an attribute is.
fn attribute_range(sight: &Sight, name: &Name) -> Result<StaticRange, NameFault>
    ensures given { Gives range_view (asked.attribute_range sight.now (name_view name.now)) result }
    ensures told { IfErr result (Tells (asked.attribute_range_breaks sight.now (name_view name.now))) }
{
    let operand = named(sight, name)?;
    as_range(operand, name.identifier.at)
}

/// A range of static integers: its bounds, or a name.
pub fn static_range(sight: &Sight, range: &DiscreteRange) -> Result<StaticRange, NameFault>
    ensures given { Gives range_view (rules.static_range sight.now (discrete_range_view range.now)) result }
    ensures told { IfErr result (Tells (broken.static_range sight.now (discrete_range_view range.now))) }
{
    match range {
        DiscreteRange::Bounds(range) => bounds(sight, range),
        DiscreteRange::Name(name) => match name.attribute {
            None => subtype_range(sight, name),
            Some(_) => attribute_range(sight, name),
        },
    }
}
