//! Declarations of a process (IEEE 1076-2008, 11.3): they have those before them in sight, and hide
//! outer ones.

ghost use Rattle.std.specs.Prelude.{◌≡◌, ◌++◌, map, OnOk, IfErr};
ghost use Rattle.vhdl_names_declarations.specs.Counts.{AreCounts};
ghost use Rattle.vhdl_names_declarations.specs.Entered.{entering_variables};
ghost use Rattle.vhdl_names_declarations.specs.Subtyping.{analysed_view};
ghost use Rattle.vhdl_names_rules.specs.Declarations as rules;
ghost use Rattle.vhdl_names_rules.specs.Gives.{Gives};
ghost use Rattle.vhdl_names_rules.specs.Visibility.{with_variables};
ghost use Rattle.vhdl_tree.specs.View as tree;
ghost use Rattle.vhdl_names_units.specs.views.Declarations.{declarations_view};
ghost use Rattle.vhdl_names_rules.specs.problems.Broken.{Tells};
ghost use Rattle.vhdl_names_rules.specs.problems.Declarations as broken;

use crate::constants::process_constants;
use crate::counts::Counts;
use crate::enumeration::process_enumeration;
use crate::objects::variables;
use crate::subtypes::process_subtype;
use std::alloc::AllocError;
use vhdl_names_rules::NameFault;
use vhdl_names_sight::{Sight, names_are_apart};
use vhdl_names_units::Declaration;
use vhdl_tree::ProcessDeclaration;

/// One declaration of a process, numbered from here on, and what is analysed of it.
fn declaration(
    sight: &mut Sight,
    counts: Counts,
    declaration: &ProcessDeclaration,
) -> Result<Option<Declaration>, NameFault>
    requires { AreCounts counts (sight.old.region ++ sight.old.variables) }
    ensures given { Gives (λ o. (sight.new, analysed_view o))
        (entering_variables rules.process_declaration sight.old (tree.process_declaration_view declaration.now))
        result }
    ensures kept { OnOk result (sight.new ≡ record sight.old { variables = sight.new.variables }) }
    ensures told { IfErr result (Tells
        (broken.process_declaration sight.old (tree.process_declaration_view declaration.now))) }
{
    match declaration {
        ProcessDeclaration::Variables(one) => Ok(Some(variables(sight, counts, one)?)),
        ProcessDeclaration::Constants(one) => Ok(Some(process_constants(sight, counts, one)?)),
        ProcessDeclaration::Enumeration(one) => {
            process_enumeration(sight, counts, one)?;
            Ok(None)
        }
        ProcessDeclaration::Subtype(one) => process_subtype(sight, counts, one),
    }
}

/// One more, if there is one.
#[tactic(auto, using(crate::proofs::Listed::none_more, crate::proofs::Listed::one_more))]
pub fn push_if_any(done: &mut Vec<Declaration>, one: Option<Declaration>) -> Result<(), AllocError>
    ensures { OnOk result (declarations_view done.new ≡ declarations_view done.old ++ analysed_view one) }
{
    match one {
        None => Ok(()),
        Some(one) => {
            done.push(one)?;
            Ok(())
        }
    }
}

/// The declarations of a process, which are in sight of what follows. `counts` are those of its
/// region. It takes memory for what is declared and analysed.
pub fn process_declarations(
    sight: &mut Sight,
    counts: Counts,
    all: &[ProcessDeclaration],
) -> Result<Vec<Declaration>, NameFault>
    requires { AreCounts counts (sight.old.region ++ sight.old.variables) }
    ensures given { Gives (λ v. (sight.new, declarations_view v))
        (entering_variables (rules.in_order with_variables rules.process_declaration) sight.old
        (map tree.process_declaration_view all.now)) result }
    ensures told { IfErr result (Tells
        (broken.in_order with_variables rules.process_declaration broken.process_declaration sight.old
        (map tree.process_declaration_view all.now))) }
{
    let mut done = Vec::new(sight.alloc);
    names_are_apart(&sight.variables);
    let mut counts = counts;
    for one in all {
        let first = sight.variables.len();
        let next = declaration(sight, counts, one)?;
        push_if_any(&mut done, next)?;
        counts = counts.further(&sight.region, &sight.variables, first);
    }
    Ok(done)
}
