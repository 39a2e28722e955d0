//! The nets that a body assigns on every syntactic path.

ghost use Rattle.std.specs.Prelude.{◌≡◌, ◌||◌, ◌&&◌, ℕ, IfOk, OnOk};
ghost use Rattle.std.specs.List.{list_any, list_all, filter};
ghost use Rattle.std.specs.List.Sorted.{IsStrictlyIncreasing};
ghost use Rattle.rtl_net.specs.Indices.{numbers};
ghost use Rattle.rtl_net.specs.Bodies.{statement_view, statements_of};
ghost use Rattle.rtl_model.specs.bodies.Assigns as m;
ghost use Rattle.rtl_body_facts.specs.Reading.{is_in};
ghost use Rattle.rtl_body_facts.specs.Paths.{covers, to_net, branch_covers, alternative_covers};

use crate::rising::{contains_rising, sort_once};
use rtl_net::{Alternative, Branch, Driver, Indices, Statement};
use std::alloc::{AllocError, Global};

/// Appends the net of the driver at this place, if there is one.
fn push_target(drives: &[Driver], place: usize, nets: &mut Vec<usize>) -> Result<(), AllocError>
    ensures { OnOk result ((n : ℕ) → is_in n nets.new.items ≡ (is_in n nets.old.items || covers drives.now n place)) }
{
    if place < drives.len() {
        nets.push(drives[place].net)?;
    }
    Ok(())
}

/// Appends those of so many places from the first on.
fn push_run(
    drives: &[Driver],
    first: u32,
    len: u32,
    nets: &mut Vec<usize>,
) -> Result<(), AllocError>
    ensures { OnOk result ((n : ℕ) → is_in n nets.new.items ≡
        (is_in n nets.old.items || list_any (covers drives.now n) (numbers (Indices.Run first len)))) }
{
    for i in 0..len {
        push_target(drives, first as usize + i as usize, nets)?;
    }
    Ok(())
}

/// Appends those of these places.
fn push_listed(drives: &[Driver], places: &[u32], nets: &mut Vec<usize>) -> Result<(), AllocError>
    ensures { OnOk result ((n : ℕ) → is_in n nets.new.items ≡
        (is_in n nets.old.items || list_any (covers drives.now n) places.now)) }
{
    for place in places {
        push_target(drives, *place as usize, nets)?;
    }
    Ok(())
}

/// The same.
fn push_targets(
    drives: &[Driver],
    places: &Indices,
    nets: &mut Vec<usize>,
) -> Result<(), AllocError>
    ensures { OnOk result ((n : ℕ) → is_in n nets.new.items ≡
        (is_in n nets.old.items || list_any (covers drives.now n) (numbers places.now))) }
{
    match places {
        Indices::Run { first, len } => push_run(drives, *first, *len, nets),
        Indices::List(listed) => push_listed(drives, listed.as_slice(), nets),
    }
}

/// The nets of the drivers at these places.
pub fn target_nets(
    alloc: Global,
    drives: &[Driver],
    places: &Indices,
) -> Result<Vec<usize>, AllocError>
    ensures { IfOk result (λ v. (n : ℕ) → is_in n v.items ≡ list_any (covers drives.now n) (numbers places.now)) }
{
    let mut nets = Vec::new(alloc);
    push_targets(drives, places, &mut nets)?;
    Ok(nets)
}

/// The numbers that stand in both lists.
fn common_of(alloc: Global, left: &[usize], right: &[usize]) -> Result<Vec<usize>, AllocError>
    requires { IsStrictlyIncreasing right.now }
    ensures { IfOk result (λ v. v.items ≡ filter (λ n. is_in n right.now) left.now) }
{
    left.iter()
        .copied()
        .filter(|n| contains_rising(right, *n))
        .collect(alloc)
}

/// Appends the nets that a statement assigns on every syntactic path.
#[cycle(every_path)]
fn push_assigned(
    alloc: Global,
    drives: &[Driver],
    statement: &Statement,
    nets: &mut Vec<usize>,
) -> Result<(), AllocError>
    ensures { OnOk result ((n : ℕ) → is_in n nets.new.items ≡
        (is_in n nets.old.items || m.stmt_must_assign (to_net drives.now n) (statement_view statement.now))) }
{
    match statement {
        Statement::Null => Ok(()),
        Statement::Assign { places, .. } => push_targets(drives, places, nets),
        Statement::Set { .. } => Ok(()),
        Statement::AssignAt { .. } => Ok(()),
        Statement::SetAt { .. } => Ok(()),
        Statement::If {
            branches,
            otherwise,
            ..
        } => match otherwise {
            Some(last) => {
                let common = assigned_nets(alloc, drives, last)?;
                let common = common_with_branches(alloc, drives, branches, common)?;
                nets.extend_from_slice(&common)?;
                Ok(())
            }
            None => Ok(()),
        },
        Statement::Case {
            alternatives,
            others,
            ..
        } => {
            let common = assigned_nets(alloc, drives, others)?;
            let common = common_with_alternatives(alloc, drives, alternatives, common)?;
            nets.extend_from_slice(&common)?;
            Ok(())
        }
    }
}

/// The nets that a sequence with these drivers assigns on every syntactic path, rising. It takes
/// time in proportion to the body, but for sorting and for the levels that are open in it, and
/// memory for the nets that it assigns.
#[cycle(every_path)]
pub fn assigned_nets(
    alloc: Global,
    drives: &[Driver],
    statements: &[Statement],
) -> Result<Vec<usize>, AllocError>
    ensures rise { IfOk result (λ v. IsStrictlyIncreasing v.items) }
    ensures are { IfOk result (λ v. (n : ℕ)
        → is_in n v.items ≡ m.must_assign (to_net drives.now n) (statements_of statements.now)) }
{
    let mut nets = Vec::new(alloc);
    for statement in statements {
        push_assigned(alloc, drives, statement, &mut nets)?;
    }
    sort_once(&mut nets);
    Ok(nets)
}

/// Those of some nets that all branches of an if assign.
#[cycle(every_path)]
fn common_with_branches(
    alloc: Global,
    drives: &[Driver],
    branches: &[Branch],
    mut common: Vec<usize>,
) -> Result<Vec<usize>, AllocError>
    ensures { IfOk result (λ v. (n : ℕ)
        → is_in n v.items ≡ (list_all (branch_covers drives.now n) branches.now && is_in n common.items)) }
{
    for branch in branches {
        let nets = assigned_nets(alloc, drives, &branch.statements)?;
        common = common_of(alloc, &common, &nets)?;
    }
    Ok(common)
}

/// Those that all alternatives of a case but its last assign.
#[cycle(every_path)]
fn common_with_alternatives(
    alloc: Global,
    drives: &[Driver],
    alternatives: &[Alternative],
    mut common: Vec<usize>,
) -> Result<Vec<usize>, AllocError>
    ensures { IfOk result (λ v. (n : ℕ)
        → is_in n v.items ≡ (list_all (alternative_covers drives.now n) alternatives.now && is_in n common.items)) }
{
    for alternative in alternatives {
        let nets = assigned_nets(alloc, drives, &alternative.statements)?;
        common = common_of(alloc, &common, &nets)?;
    }
    Ok(common)
}
