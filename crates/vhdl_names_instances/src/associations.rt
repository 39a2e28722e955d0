//! Which formal each association is for (IEEE 1076-2008, 6.5.7).

ghost use Rattle.std.specs.Prelude.{◌≡◌, IfOk, IfErr, OnErr, false, not, map, option_map, Some};
ghost use Rattle.vhdl_names_instances.specs.Breaking as breaking;
ghost use Rattle.vhdl_names_instances.specs.steps.Associations as steps;
ghost use Rattle.vhdl_names_instances.specs.Views.{actuals_view};
ghost use Rattle.vhdl_names_units.specs.Once.{names_view};
ghost use Rattle.vhdl_names_rules.specs.problems.Broken.{Tells, lacking, unless};
ghost use Rattle.vhdl_names_rules.specs.problems.Places.{association_place};
ghost use Rattle.vhdl_names_rules.specs.Gives.{Gives};
ghost use Rattle.vhdl_names_rules.specs.Instances as rules;
ghost use Rattle.vhdl_names_rules.specs.declared.fault.NameProblem.TheVariants.{Twice, WrongKind};
ghost use Rattle.vhdl_tree.specs.View.{view, option_ident_view, association_view};

use indexmap::IndexSet;
use std::alloc::{AllocError, Global};
use vhdl_names_expressions::start;
use vhdl_names_rules::{NameFault, NameProblem};
use vhdl_tree::{Actual, Association, Expr};

/// Names in order, each of which stands once.
pub type Names = IndexSet<Vec<u8>>;

/// The byte at which an association starts.
fn place(association: &Association) -> usize
    ensures { result ≡ association_place (association_view association.now) }
{
    match (&association.formal, &association.actual) {
        (Some(formal), _) => formal.at,
        (None, Actual::Expr(e)) => start(e),
        (None, Actual::Open { at }) => *at,
    }
}

/// Whether an association names its formal.
pub(crate) fn is_named(association: &Association) -> bool
    ensures { result ≡ rules.is_named (association_view association.now) }
{
    match association.formal {
        Some(_) => true,
        None => false,
    }
}

/// The name of the formal that an association at a place is for.
#[tactic(auto, using(crate::proofs::Associating::named_at))]
pub(crate) fn formal_at<'a>(
    formals: &'a Names,
    index: usize,
    association: &'a Association,
) -> Result<&'a [u8], NameFault>
    ensures given { Gives (λ n. n.now)
        (steps.formal_at (names_view formals.now) index (option_ident_view association.now.formal)) result }
    ensures told { IfErr result (Tells
        (lacking WrongKind (association_place (association_view association.now))
        (steps.formal_at (names_view formals.now) index (option_ident_view association.now.formal)))) }
{
    match &association.formal {
        Some(formal) => Ok(formal.text.as_slice()),
        None => match formals.get_index(index) {
            Some(formal) => Ok(formal.as_slice()),
            None => Err(NameProblem::WrongKind.at(place(association))),
        },
    }
}

/// A copy of a name.
fn copied(alloc: Global, name: &[u8]) -> Result<Vec<u8>, AllocError>
    ensures { IfOk result (λ v. v.items ≡ name.now) }
{
    name.to_vec(alloc)
}

/// One more name, which none before it is. It stands at byte `at`.
pub fn add_name(alloc: Global, taken: &mut Names, name: &[u8], at: usize) -> Result<(), NameFault>
    ensures given { Gives (λ _. names_view taken.new) (steps.one_name (names_view taken.old) name.now) result }
    ensures told { IfErr result (Tells (unless Twice at (not (steps.is_among name.now (names_view taken.old))))) }
    ensures kept { OnErr result (names_view taken.new ≡ names_view taken.old) }
{
    let name = copied(alloc, name)?;
    if taken.insert(name)? {
        Ok(())
    } else {
        Err(NameProblem::Twice.at(at))
    }
}

/// Whether a name is among some.
fn has_name(names: &Names, name: &[u8]) -> bool
    ensures { result ≡ steps.is_among name.now (names_view names.now) }
{
    names.contains(name)
}

/// One more association, which is for a formal that none before it is for.
pub(crate) fn take(
    alloc: Global,
    formals: &Names,
    taken: &mut Names,
    index: usize,
    is_behind_named: bool,
    association: &Association,
) -> Result<(), NameFault>
    ensures given { Gives (λ _. names_view taken.new)
        (steps.one_taken (names_view formals.now) index is_behind_named (names_view taken.old)
        (association_view association.now)) result }
    ensures told { IfErr result (Tells
        (breaking.one_association (names_view formals.now) index is_behind_named (names_view taken.old)
        (association_view association.now))) }
    ensures kept { OnErr result (names_view taken.new ≡ names_view taken.old) }
{
    if is_behind_named && !is_named(association) {
        return Err(NameProblem::WrongKind.at(place(association)));
    }
    let name = formal_at(formals, index, association)?;
    if !has_name(formals, name) {
        return Err(NameProblem::Undeclared.at(place(association)));
    }
    add_name(alloc, taken, name, place(association))
}

/// The names of the formals that associations are for, in the order of the associations, behind
/// those that are taken.
fn take_all(
    alloc: Global,
    formals: &Names,
    taken: &mut Names,
    list: &[Association],
) -> Result<(), NameFault>
    ensures { Gives (λ _. names_view taken.new)
        (steps.taking (names_view formals.now) 0 false (names_view taken.old) (map association_view list.now)) result }
{
    let mut is_behind_named = false;
    for (index, association) in list.iter().enumerate() {
        take(alloc, formals, taken, index, is_behind_named, association)?;
        is_behind_named = is_named(association);
    }
    Ok(())
}

/// What an association associates, if it isn't open.
pub(crate) fn expression_of(association: &Association) -> Option<&Expr>
    ensures { option_map (λ e. view e.now) result ≡ rules.expression_of (association_view association.now).actual }
{
    match &association.actual {
        Actual::Expr(e) => Some(e),
        Actual::Open { .. } => None,
    }
}

/// What an association at a place associates.
#[tactic(auto, using(crate::proofs::Associating::association_at))]
fn actual_at<'a>(list: &'a [Association], index: usize) -> Option<&'a Expr>
    ensures { option_map (λ e. view e.now) result ≡ steps.actual_at (map association_view list.now) (Some index) }
{
    match list.get(index) {
        None => None,
        Some(association) => expression_of(association),
    }
}

/// What is associated with the formal of a name, where associations are for these formals.
fn actual_of<'a>(taken: &Names, list: &'a [Association], name: &[u8]) -> Option<&'a Expr>
    ensures { option_map (λ e. view e.now) result ≡
        rules.actual_of name.now (names_view taken.now) (map association_view list.now) }
{
    match taken.get_index_of(name) {
        None => None,
        Some(index) => actual_at(list, index),
    }
}

/// What is associated with each formal.
fn actuals<'a>(
    alloc: Global,
    formals: &Names,
    taken: &Names,
    list: &'a [Association],
) -> Result<Vec<Option<&'a Expr>>, AllocError>
    ensures { IfOk result (λ v. actuals_view v
        ≡ steps.actuals (names_view formals.now) (names_view taken.now) (map association_view list.now)) }
{
    let mut all = Vec::new(alloc);
    for name in formals.as_slice() {
        all.push(actual_of(taken, list, name))?;
    }
    Ok(all)
}

/// The actual of each formal, in the order of the formals: None where it is open or not
/// associated. It fails at the first association that is behind a named one and names none, is
/// for no formal, or is for one that another is for; or where memory is refused.
#[tactic(auto, using(crate::proofs::Associating::in_order))]
pub(crate) fn associated<'a>(
    alloc: Global,
    formals: &Names,
    list: &'a [Association],
) -> Result<Vec<Option<&'a Expr>>, NameFault>
    ensures { Gives actuals_view (rules.associated (names_view formals.now) (map association_view list.now)) result }
{
    let mut taken = IndexSet::new(alloc);
    take_all(alloc, formals, &mut taken, list)?;
    Ok(actuals(alloc, formals, &taken, list)?)
}
