//! Enumeration types (IEEE 1076-2008, 5.2.2).

ghost use Rattle.std.specs.Prelude.{◌≡◌, ◌≤◌, ◌++◌, [], map, length, OnOk, IfErr};
ghost use Rattle.vhdl_names_declarations.specs.Counts.{AreCounts};
ghost use Rattle.vhdl_names_declarations.specs.Entered.{more, entering, entering_variables};
ghost use Rattle.vhdl_names_declarations.specs.Enumerating.{enumerated, of_process};
ghost use Rattle.vhdl_names_rules.specs.Declarations as rules;
ghost use Rattle.vhdl_names_rules.specs.Gives.{Gives};
ghost use Rattle.vhdl_names_rules.specs.Visibility.{names_of};
ghost use Rattle.vhdl_tree.specs.View.{ident_view, enumeration_view};
ghost use Rattle.vhdl_names_sight.specs.Views.{region_view};
ghost use Rattle.vhdl_names_rules.specs.problems.Broken.{Tells};
ghost use Rattle.vhdl_names_rules.specs.problems.Declarations as broken;

use crate::counts::Counts;
use crate::region::declare;
use std::alloc::Global;
use vhdl_names_rules::{NameFault, NameProblem};
use vhdl_names_sight::{Meaning, Region, Sight, names_are_apart};
use vhdl_tree::{Enumeration, Identifier};

/// The literals of an enumeration, by position.
fn literals(
    alloc: Global,
    region: &mut Region,
    number: usize,
    literals: &[Identifier],
) -> Result<(), NameFault>
    requires { length literals.now ≤ 256 }
    ensures given { Gives (λ _. region_view region.new)
        (more (region_view region.old) (rules.literals number (length literals.now) 0
        (names_of (map ident_view literals.now)))) result }
    ensures told { IfErr result (Tells (broken.standing_twice (region_view region.old) (map ident_view literals.now))) }
{
    names_are_apart(region);
    let count = literals.len() as u16;
    for (position, literal) in literals.iter().enumerate() {
        let meaning = Meaning::Literal {
            number,
            count,
            position: position as u8,
        };
        declare(alloc, region, literal, meaning)?;
    }
    names_are_apart(region);
    Ok(())
}

/// An enumeration type of a number, and its literals, in a region. More than 256 literals are left
/// out. It takes the memory of the names and their entries.
fn enumeration_in(
    alloc: Global,
    region: &mut Region,
    number: usize,
    declaration: &Enumeration,
) -> Result<(), NameFault>
    ensures given { Gives (λ _. region_view region.new)
        (enumerated (region_view region.old) number (enumeration_view declaration.now)) result }
    ensures told { IfErr result (Tells
        (broken.enumeration_in (region_view region.old) (enumeration_view declaration.now))) }
{
    let count = declaration.literals.len();
    if count > 256 {
        return Err(NameProblem::LeftOut.at(declaration.name.at));
    }
    let meaning = Meaning::EnumerationType {
        number,
        count: count as u16,
    };
    declare(alloc, region, &declaration.name, meaning)?;
    literals(alloc, region, number, &declaration.literals)
}

/// An enumeration type of a region, of the next number.
pub fn enumeration(
    sight: &mut Sight,
    counts: Counts,
    declaration: &Enumeration,
) -> Result<(), NameFault>
    requires { AreCounts counts sight.old.region }
    ensures given { Gives (λ _. (sight.new, []))
        (entering rules.enumeration sight.old (enumeration_view declaration.now)) result }
    ensures kept { OnOk result (sight.new ≡ record sight.old { region = sight.new.region }) }
    ensures told { IfErr result (Tells (broken.enumeration sight.old (enumeration_view declaration.now))) }
{
    enumeration_in(
        sight.alloc,
        &mut sight.region,
        counts.enumerations,
        declaration,
    )
}

/// The same of a process.
pub fn process_enumeration(
    sight: &mut Sight,
    counts: Counts,
    declaration: &Enumeration,
) -> Result<(), NameFault>
    requires { AreCounts counts (sight.old.region ++ sight.old.variables) }
    ensures given { Gives (λ _. (sight.new, []))
        (entering_variables of_process sight.old (enumeration_view declaration.now)) result }
    ensures kept { OnOk result (sight.new ≡ record sight.old { variables = sight.new.variables }) }
    ensures told { IfErr result (Tells
        (broken.enumeration_in sight.old.variables (enumeration_view declaration.now))) }
{
    enumeration_in(
        sight.alloc,
        &mut sight.variables,
        counts.enumerations,
        declaration,
    )
}
