//! The architectures of a file, in order of the text (IEEE 1076-2008, 3.3).

ghost use Rattle.std.specs.Prelude.{◌≡◌, ◌∷◌, [], false, true, IfOk, length, map, Option, Some, None, option_map, replicate};
ghost use Rattle.vhdl_names.specs.Finding.{Finds};
ghost use Rattle.vhdl_names.specs.Views.{is_hidden};
ghost use Rattle.vhdl_names.specs.steps.Architectures as steps;
ghost use Rattle.vhdl_names.specs.steps.Architectures.{options_view};
ghost use Rattle.vhdl_names_instances.specs.Table.{AreEntities};
ghost use Rattle.vhdl_names_interfaces.specs.Views.{entities_view};
ghost use Rattle.vhdl_names_units.specs.Lists.{in_turn};
ghost use Rattle.vhdl_names_units.specs.Once.{names_view};
ghost use Rattle.vhdl_names_rules.specs.problems.Broken.{Broken, any_of};
ghost use Rattle.vhdl_names_rules.specs.problems.Declarations as declarations;
ghost use Rattle.vhdl_names_rules.specs.Packages.{no_context};
ghost use Rattle.vhdl_names_rules.specs.problems.Files as broken;
ghost use Rattle.vhdl_names_rules.specs.Files.{architectures_of as all_of};
ghost use Rattle.vhdl_names_rules.specs.Visibility.{Name};
ghost use Rattle.vhdl_names_rules.specs.units.Units as u;
ghost use Rattle.vhdl_tree.specs.View as view;
ghost use Rattle.vhdl_names_units.specs.views.Units.{architecture_view};

use crate::bodies::architecture;
use crate::mentions::is_of_hidden;
use crate::tables::Given;
use std::alloc::{AllocError, Global};
use vhdl_lexer::Language;
use vhdl_names_packages::{Context, context_after};
use vhdl_names_rules::NameFault;
use vhdl_names_units::Architecture;
use vhdl_tree as syntax;
use vhdl_tree::{ContextItem, DesignUnit, File, LibraryUnit};

/// What is wrong with context items, whatever the context clause of their entity names.
fn context(language: Language, items: &[ContextItem]) -> Result<(), NameFault>
    ensures { Finds (declarations.context (record (no_context language) { has_ieee = true })
        (map view.context_view items.now)) result }
{
    let before = Context {
        has_ieee: true,
        ..Context::none(language)
    };
    let _context = context_after(before, items)?;
    Ok(())
}

/// An architecture as it was read, where it is told what is wrong with it: behind the name of an
/// entity that isn't given nothing is.
fn up_to_hidden(
    given: &Given<'_, '_>,
    tree: &syntax::Architecture,
    read: Result<Architecture, NameFault>,
) -> Result<Option<Architecture>, NameFault>
    ensures told { (b : Broken) → Finds b read
        → Finds (broken.up_to_hidden (is_hidden given.now) (view.architecture_view tree.now) b) result }
    ensures given { ((n : Name) → is_hidden given.now n ≡ false) → (o : Option u.Architecture)
        → IfOk read (λ a. o ≡ Some (architecture_view a))
        → IfOk result (λ a. option_map Some o ≡ Some (option_map architecture_view a)) }
{
    match read {
        Ok(architecture) => Ok(Some(architecture)),
        Err(fault) => {
            if is_of_hidden(given, tree, fault) {
                Ok(None)
            } else {
                Err(fault)
            }
        }
    }
}

/// One more architecture, which becomes that of its entity; where the entity isn't given its
/// context items alone are read.
fn add_architecture(
    alloc: Global,
    given: &Given<'_, '_>,
    all: &mut [Option<Architecture>],
    items: &[ContextItem],
    tree: &syntax::Architecture,
) -> Result<(), NameFault>
    requires table { AreEntities given.now.formals.now (entities_view given.now.entities.now) }
    requires room { length all.old ≡ length (entities_view given.now.entities.now) }
    ensures room { length all.new ≡ length all.old }
    ensures told { Finds (broken.described given.now.language (names_view given.now.names.now)
        (entities_view given.now.entities.now)
        (map view.context_view items.now, view.architecture_view tree.now)) result }
    ensures given { ((n : Name) → is_hidden given.now n ≡ false) → IfOk result (λ _.
        steps.with_described (entities_view given.now.entities.now) (map (option_map architecture_view) all.old)
        (map view.context_view items.now, view.architecture_view tree.now) ≡
        Some (map (option_map architecture_view) all.new)) }
{
    match given.entities.get_full(tree.entity.text.as_slice()) {
        None => context(given.language, items),
        Some((place, _, entity)) => {
            let read = architecture(alloc, given, entity, items, tree);
            all[place] = up_to_hidden(given, tree, read)?;
            Ok(())
        }
    }
}

/// One more unit, which may be an architecture.
fn add_unit(
    alloc: Global,
    given: &Given<'_, '_>,
    all: &mut [Option<Architecture>],
    unit: &DesignUnit,
) -> Result<(), NameFault>
    requires table { AreEntities given.now.formals.now (entities_view given.now.entities.now) }
    requires room { length all.old ≡ length (entities_view given.now.entities.now) }
    ensures room { length all.new ≡ length all.old }
    ensures told { Finds (any_of (broken.described given.now.language (names_view given.now.names.now)
        (entities_view given.now.entities.now))
        (all_of (view.unit_view unit.now ∷ []))) result }
    ensures given { ((n : Name) → is_hidden given.now n ≡ false) → IfOk result (λ _.
        steps.with_unit (entities_view given.now.entities.now) (map (option_map architecture_view) all.old)
        (view.unit_view unit.now)
        ≡ Some (map (option_map architecture_view) all.new)) }
{
    match &unit.unit {
        LibraryUnit::Entity(_) => Ok(()),
        LibraryUnit::Architecture(tree) => {
            add_architecture(alloc, given, all, &unit.context, tree)
        }
    }
}

/// No architecture of each of so many entities.
fn none_of_each(alloc: Global, count: usize) -> Result<Vec<Option<Architecture>>, AllocError>
    ensures { IfOk result (λ v. options_view v ≡ replicate count None) }
{
    let mut all = Vec::new(alloc);
    for _ in 0..count {
        all.push(None)?;
    }
    Ok(all)
}

/// The architecture of each entity, if the file has one; and where one is at fault the first in
/// order of the text. It takes memory for what is declared in each and analysed of it.
pub fn architectures_of(
    alloc: Global,
    file: &File,
    given: &Given<'_, '_>,
) -> Result<Vec<Option<Architecture>>, NameFault>
    requires table { AreEntities given.now.formals.now (entities_view given.now.entities.now) }
    ensures told { Finds (any_of (broken.described given.now.language (names_view given.now.names.now)
        (entities_view given.now.entities.now))
        (all_of (view.units_view file.now.units))) result }
    ensures given { ((n : Name) → is_hidden given.now n ≡ false) → IfOk result (λ v.
        in_turn (steps.with_unit (entities_view given.now.entities.now))
        (replicate (length (entities_view given.now.entities.now)) None)
        (view.units_view file.now.units) ≡ Some (options_view v)) }
{
    let mut all = none_of_each(alloc, given.entities.len())?;
    for unit in &file.units {
        add_unit(alloc, given, &mut all, unit)?;
    }
    Ok(all)
}
