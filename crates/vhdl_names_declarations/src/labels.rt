//! The labels that stand directly among concurrent statements (IEEE 1076-2008, 11.1 and 12.1).

ghost use Rattle.std.specs.Prelude.{◌≡◌, ◌≢◌, ◌∷◌, [], map, IfErr};
ghost use Rattle.vhdl_names_declarations.specs.Entered.{more};
ghost use Rattle.vhdl_names_rules.specs.Concurrent as rules;
ghost use Rattle.vhdl_names_rules.specs.Files.{labelled};
ghost use Rattle.vhdl_names_rules.specs.Gives.{Gives};
ghost use Rattle.vhdl_names_rules.specs.declared.fault.NameProblem.TheVariants.{Twice};
ghost use Rattle.vhdl_names_rules.specs.Rules.{rule};
ghost use Rattle.vhdl_names_rules.specs.Statements.{label_names};
ghost use Rattle.vhdl_names_rules.specs.Visibility.{are_distinct};
ghost use Rattle.vhdl_tree.specs.Tree.{concurrents_of};
ghost use Rattle.vhdl_tree.specs.View.{option_ident_view, concurrent_view};
ghost use Rattle.vhdl_names_sight.specs.Views.{region_view};
ghost use Rattle.vhdl_names_rules.specs.declared.fault.NameFault.TheVariants.{NoMemory};
ghost use Rattle.vhdl_names_rules.specs.problems.Broken.{Tells};
ghost use Rattle.vhdl_names_rules.specs.problems.Declarations.{standing_twice};
ghost use Rattle.vhdl_names_rules.specs.problems.Labels.{label_if_any, label_of, labels_of};
ghost use Rattle.vhdl_names_rules.specs.problems.Twice.{twice};

use crate::region::declare;
use indexmap::IndexMap;
use std::alloc::Global;
use vhdl_names_rules::NameFault;
use vhdl_names_sight::{Meaning, Region, names_are_apart};
use vhdl_tree::{Concurrent, Identifier};

/// A label, if there is one. It takes the memory of the label and its entry.
pub fn declare_if_any(
    alloc: Global,
    region: &mut Region,
    label: &Option<Identifier>,
) -> Result<(), NameFault>
    ensures given { Gives (λ _. region_view region.new)
        (more (region_view region.old) (labelled (label_names (option_ident_view label.now)))) result }
    ensures told { IfErr result (Tells
        (standing_twice (region_view region.old) (label_if_any (option_ident_view label.now)))) }
    ensures kept { IfErr result (λ f. f ≢ NoMemory → region_view region.new ≡ region_view region.old) }
{
    names_are_apart(region);
    match label {
        None => Ok(()),
        Some(label) => declare(alloc, region, label, Meaning::Label),
    }
}

/// The label of a statement, if it has one, declared in a region. It takes the memory of the label
/// and its entry.
pub fn declare_label(
    alloc: Global,
    region: &mut Region,
    statement: &Concurrent,
) -> Result<(), NameFault>
    ensures given { Gives (λ _. region_view region.new)
        (more (region_view region.old) (labelled (rules.concurrent_label (concurrent_view statement.now)))) result }
    ensures told { IfErr result (Tells
        (standing_twice (region_view region.old) (label_of (concurrent_view statement.now)))) }
    ensures kept { IfErr result (λ f. f ≢ NoMemory → region_view region.new ≡ region_view region.old) }
{
    match statement {
        Concurrent::Assignment(assignment) => declare_if_any(alloc, region, &assignment.label),
        Concurrent::Selected { label, .. } => declare_if_any(alloc, region, label),
        Concurrent::Process { label, .. } => declare_if_any(alloc, region, label),
        Concurrent::Instance { label, .. } => declare(alloc, region, label, Meaning::Label),
        Concurrent::Assert(assertion) => declare_if_any(alloc, region, &assertion.label),
        Concurrent::Generate(generate) => {
            declare(alloc, region, &generate.label, Meaning::Label)
        }
    }
}

/// The labels that stand directly among statements, declared in their region. It takes the memory
/// of the labels and their entries.
pub fn declare_labels(
    alloc: Global,
    region: &mut Region,
    statements: &[Concurrent],
) -> Result<(), NameFault>
    ensures given { Gives (λ _. region_view region.new)
        (more (region_view region.old) (labelled
        (rules.concurrent_labels (concurrents_of (map concurrent_view statements.now))))) result }
    ensures told { IfErr result (Tells
        (standing_twice (region_view region.old) (labels_of (concurrents_of (map concurrent_view statements.now))))) }
{
    names_are_apart(region);
    for statement in statements {
        declare_label(alloc, region, statement)?;
    }
    names_are_apart(region);
    Ok(())
}

/// No label stands twice directly among statements, as those of a generate; else it is Twice. It
/// takes the memory of the labels and their entries.
pub fn labels_are_distinct(alloc: Global, statements: &[Concurrent]) -> Result<(), NameFault>
    ensures given { Gives (λ x. x) (rule Twice
        (are_distinct (rules.concurrent_labels (concurrents_of (map concurrent_view statements.now))))) result }
    ensures told { IfErr result (Tells (twice [] (labels_of (concurrents_of (map concurrent_view statements.now))))) }
{
    let mut region: Region = IndexMap::new(alloc);
    declare_labels(alloc, &mut region, statements)?;
    Ok(())
}
