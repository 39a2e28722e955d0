//! What context clauses bring in sight (IEEE 1076-2008, 12.4 and 13.4).

ghost use Rattle.std.specs.Prelude.{◌≡◌, ◌≢◌, false, ◌&&◌, ◌||◌, ◌∷◌, [], map, IfErr};
ghost use Rattle.std.specs.List.{list_any};
ghost use Rattle.vhdl_names_packages.specs.Contexts.{context_view, libraries_named, packages_used};
ghost use Rattle.vhdl_names_rules.specs.Gives.{Gives};
ghost use Rattle.vhdl_names_rules.specs.declared.fault.NameFault.TheVariants.{NoMemory};
ghost use Rattle.vhdl_names_rules.specs.Packages as rules;
ghost use Rattle.vhdl_tree.specs.View.{ident_view, selected_view, context_view as item_view};
ghost use Rattle.vhdl_names_rules.specs.problems.Broken.{Tells, any_of};
ghost use Rattle.vhdl_names_rules.specs.problems.Declarations as broken;

use vhdl_lexer::Language;
use vhdl_names_rules::{NameFault, NameProblem};
use vhdl_tree::{ContextItem, Identifier, Selected};

/// The language that is read, whether library ieee is named, and which of its packages are used.
#[derive(Clone, Copy)]
pub struct Context {
    pub language: Language,
    pub has_ieee: bool,
    pub has_logic: bool,
    pub has_numbers: bool,
}

impl Context {
    /// Before any context clause.
    pub fn none(language: Language) -> Context
        ensures { context_view result ≡ rules.no_context language }
    {
        Context {
            language,
            has_ieee: false,
            has_logic: false,
            has_numbers: false,
        }
    }
}

fn is_ieee(name: &Identifier) -> bool
    ensures { result ≡ rules.is_ieee (ident_view name.now) }
{
    name.text.as_slice() == b"ieee".as_slice()
}

/// Whether a library clause may name it.
fn is_library(name: &Identifier) -> bool
    ensures { result ≡ rules.is_library (ident_view name.now) }
{
    is_ieee(name)
        || name.text.as_slice() == b"work".as_slice()
        || name.text.as_slice() == b"std".as_slice()
}

fn is_logic(selected: &Selected) -> bool
    ensures { result ≡ rules.is_logic (selected_view selected.now) }
{
    is_ieee(&selected.library) && selected.name.text.as_slice() == b"std_logic_1164".as_slice()
}

fn is_numbers(selected: &Selected) -> bool
    ensures { result ≡ rules.is_numbers (selected_view selected.now) }
{
    is_ieee(&selected.library) && selected.name.text.as_slice() == b"numeric_std".as_slice()
}

fn names_ieee(names: &[Identifier]) -> bool
    ensures { result ≡ list_any rules.is_ieee (map ident_view names.now) }
{
    for name in names {
        if is_ieee(name) {
            return true;
        }
    }
    false
}

fn uses_logic(all: &[Selected]) -> bool
    ensures { result ≡ list_any rules.is_logic (map selected_view all.now) }
{
    for selected in all {
        if is_logic(selected) {
            return true;
        }
    }
    false
}

fn uses_numbers(all: &[Selected]) -> bool
    ensures { result ≡ list_any rules.is_numbers (map selected_view all.now) }
{
    for selected in all {
        if is_numbers(selected) {
            return true;
        }
    }
    false
}

fn either(one: bool, other: bool) -> bool
    ensures { result ≡ one || other }
{
    one || other
}

/// The libraries of a clause. Another than ieee, work and std is left out.
fn libraries(before: Context, names: &[Identifier]) -> Result<Context, NameFault>
    ensures given { Gives context_view (libraries_named (context_view before) (map ident_view names.now)) result }
    ensures told { IfErr result (Tells (any_of broken.library_named (map ident_view names.now))) }
{
    for name in names {
        if !is_library(name) {
            return Err(NameProblem::LeftOut.at(name.at));
        }
    }
    Ok(Context {
        has_ieee: either(before.has_ieee, names_ieee(names)),
        ..before
    })
}

/// Why a use clause names no package that is offered.
fn use_fault(before: Context, selected: &Selected) -> NameFault
    ensures given { result ≢ NoMemory }
    ensures told { (before.has_ieee
        && (rules.is_logic (selected_view selected.now) || rules.is_numbers (selected_view selected.now))) ≡ false
        → Tells (broken.package_used (context_view before) (selected_view selected.now)) result }
{
    if !is_ieee(&selected.library) {
        return NameProblem::LeftOut.at(selected.library.at);
    }
    if !before.has_ieee {
        return NameProblem::Undeclared.at(selected.library.at);
    }
    NameProblem::LeftOut.at(selected.name.at)
}

/// The packages of a use clause: of library ieee, which a clause names before it, the two that are
/// offered. Without that clause ieee is Undeclared; any other package is left out.
fn uses(before: Context, all: &[Selected]) -> Result<Context, NameFault>
    ensures given { Gives context_view (packages_used (context_view before) (map selected_view all.now)) result }
    ensures told { IfErr result (Tells (broken.packages_used (context_view before) (map selected_view all.now))) }
{
    for selected in all {
        let is_offered = either(is_logic(selected), is_numbers(selected));
        if !before.has_ieee || !is_offered {
            return Err(use_fault(before, selected));
        }
    }
    if !before.has_ieee {
        return Err(NameProblem::Undeclared.at(0));
    }
    Ok(Context {
        has_logic: either(before.has_logic, uses_logic(all)),
        has_numbers: either(before.has_numbers, uses_numbers(all)),
        ..before
    })
}

fn context_item(before: Context, item: &ContextItem) -> Result<Context, NameFault>
    ensures given { Gives context_view (rules.context (context_view before) (item_view item.now ∷ [])) result }
    ensures told { IfErr result (Tells (broken.context (context_view before) (item_view item.now ∷ []))) }
{
    match item {
        ContextItem::Library(names) => libraries(before, names),
        ContextItem::Use(all) => uses(before, all),
    }
}

/// What context items bring in sight, after what stands before them.
pub fn context_after(before: Context, items: &[ContextItem]) -> Result<Context, NameFault>
    ensures given { Gives context_view (rules.context (context_view before) (map item_view items.now)) result }
    ensures told { IfErr result (Tells (broken.context (context_view before) (map item_view items.now))) }
{
    let mut now = before;
    for item in items {
        now = context_item(now, item)?;
    }
    Ok(now)
}
