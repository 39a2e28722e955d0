//! Subtype indications of objects that are no integers (IEEE 1076-2008, 6.3).

ghost use Rattle.std.specs.Prelude.{◌≡◌, Some, None, option_map, IfErr};
ghost use Rattle.vhdl_names_rules.specs.problems.Broken.{Tells, ◌▸◌, unless};
ghost use Rattle.vhdl_names_rules.specs.problems.Subtypes as broken;
ghost use Rattle.vhdl_names_rules.specs.Gives.{Gives};
ghost use Rattle.vhdl_names_rules.specs.Subtypes as rules;
ghost use Rattle.vhdl_names_rules.specs.Visibility as visibility;
ghost use Rattle.vhdl_tree.specs.View as trees;
ghost use Rattle.vhdl_names_sight.specs.Views.{meaning_view, entry_of};
ghost use Rattle.vhdl_names_values.specs.Marking as steps;
ghost use Rattle.vhdl_names_units.specs.views.Answers.{subtype_view};

use vhdl_names_asked::static_range;
use vhdl_names_rules::{ElementKind, NameFault, NameProblem, ObjectType};
use vhdl_names_sight::{Entry, Meaning, Sight, declaration_of};
use vhdl_names_trees::StaticRange;
use vhdl_names_units::{Form, Subtype};
use vhdl_tree::{Constraint, Subtype as TreeSubtype};

/// What is wrong with a type mark: it is no type, or its range is missing or too much.
fn mark_problem(meaning: &Meaning) -> NameProblem
    ensures { result ≡ broken.mark_problem (meaning_view meaning.now) }
{
    match meaning {
        Meaning::IntegerType(_)
        | Meaning::BooleanType
        | Meaning::ElementType { .. }
        | Meaning::VectorType(..)
        | Meaning::EnumerationType { .. } => NameProblem::LeftOut,
        Meaning::Unfinished => NameProblem::Undeclared,
        _ => NameProblem::WrongKind,
    }
}

/// What objects of a type mark are with nothing behind it.
fn marked_alone(entry: &Entry) -> Option<Subtype>
    ensures { (n : visibility.Name) → option_map subtype_view result ≡ steps.marked_alone (entry_of n entry.now) }
{
    match (&entry.meaning, entry.range) {
        (Meaning::ElementType { is_resolved }, None) => Some(Subtype {
            object_type: ObjectType::Elements(ElementKind::Element),
            form: Form::Element,
            is_resolved: *is_resolved,
        }),
        (Meaning::VectorType(kind, is_resolved), Some(range)) => Some(Subtype {
            object_type: ObjectType::Elements(*kind),
            form: Form::Vector(StaticRange::declared(range)),
            is_resolved: *is_resolved,
        }),
        (Meaning::EnumerationType { number, count }, None) => Some(Subtype {
            object_type: ObjectType::Enumeration {
                number: *number,
                count: *count,
            },
            form: Form::Enumeration(*count),
            is_resolved: false,
        }),
        _ => None,
    }
}

/// The same, where the mark is at byte `at`, or else what is wrong with it.
fn marked(entry: &Entry, at: usize) -> Result<Subtype, NameFault>
    ensures given { (n : visibility.Name) → Gives subtype_view (steps.marked_alone (entry_of n entry.now)) result }
    ensures told { (n : visibility.Name) → IfErr result (Tells
        (unless (broken.mark_problem (meaning_view entry.now.meaning)) at
        (broken.is_marked (entry_of n entry.now) None))) }
{
    match marked_alone(entry) {
        Some(subtype) => Ok(subtype),
        None => Err(mark_problem(&entry.meaning).at(at)),
    }
}

/// What objects of a type mark are with a constraint behind it, where the mark is at byte `at`: a
/// vector type without a range takes indexes.
fn ranged(
    sight: &Sight,
    entry: &Entry,
    constraint: &Constraint,
    at: usize,
) -> Result<Subtype, NameFault>
    ensures given { (n : visibility.Name) → Gives subtype_view
        (steps.marked_with sight.now (entry_of n entry.now) (trees.constraint_view constraint.now)) result }
    ensures told { (n : visibility.Name) → IfErr result (Tells
        (unless (broken.mark_problem (meaning_view entry.now.meaning)) at
        (broken.is_marked (entry_of n entry.now) (Some (trees.constraint_view constraint.now)))
        ▸ broken.constraint sight.now (trees.constraint_view constraint.now))) }
{
    match &entry.meaning {
        Meaning::VectorType(kind, is_resolved) => match entry.range {
            Some(_) => Err(NameProblem::LeftOut.at(at)),
            None => match constraint {
                Constraint::Range(_) => Err(NameProblem::LeftOut.at(at)),
                Constraint::Index(range) => {
                    let range = static_range(sight, range)?;
                    Ok(Subtype {
                        object_type: ObjectType::Elements(*kind),
                        form: Form::Vector(range),
                        is_resolved: *is_resolved,
                    })
                }
            },
        },
        meaning => Err(mark_problem(meaning).at(at)),
    }
}

/// The type of a signal, port or variable, or of a constant that is no integer: a type mark, with
/// one range where it is of vectors, its own or one that stands there, and else none. It takes
/// memory for what is analysed, and fails at the first byte where a rule is broken.
#[tactic(auto, using(crate::proofs::Marks::subtype_alone, crate::proofs::Marks::subtype_ranged))]
pub fn subtype(sight: &Sight, indication: &TreeSubtype) -> Result<Subtype, NameFault>
    ensures given { Gives subtype_view (rules.subtype sight.now (trees.subtype_view indication.now)) result }
    ensures told { IfErr result (Tells (broken.subtype sight.now (trees.subtype_view indication.now))) }
{
    let entry = declaration_of(sight, &indication.mark)?;
    match &indication.constraint {
        None => marked(entry, indication.mark.at),
        Some(constraint) => ranged(sight, entry, constraint, indication.mark.at),
    }
}
