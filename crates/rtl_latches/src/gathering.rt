//! One walk over a body, which gathers for all nets whether it assigns them on every syntactic
//! path, and where it leaves them out.

ghost use Rattle.std.specs.Prelude.{◌≡◌, ◌∷◌, [], ℕ, All, map, IfOk, OnOk};
ghost use Rattle.std.specs.List.Sorted.{IsStrictlyIncreasing};
ghost use Rattle.rtl_body_facts.specs.Paths.{to_net};
ghost use Rattle.rtl_latches.specs.Parts as spec;
ghost use Rattle.rtl_latches.specs.declared.parts.Part.{Part};

use crate::choosing::{Counted, choose};
use crate::omission::Omission;
use crate::parts::{Part, touched};
use rtl_body_facts::{assigned_nets, target_nets};
use rtl_net::{Alternative, Branch, Driver, Statement};
use std::alloc::{AllocError, Global};
use std::slice;

/// Lists what a statement of a process with these drivers does.
#[cycle(gathering)]
fn gather_statement(
    alloc: Global,
    drives: &[Driver],
    statement: &Statement,
    part: &mut Part,
) -> Result<(), AllocError>
    ensures { OnOk result ((n : ℕ) → spec.told n part.new
        ≡ spec.both (spec.told n part.old) (spec.told_of (to_net drives.now n) (statement.now ∷ []))) }
{
    match statement {
        Statement::Null => Ok(()),
        Statement::Assign { .. } => {
            let nets = assigned_nets(alloc, drives, slice::from_ref(statement))?;
            part.assign(&nets)
        }
        Statement::Set { .. } => Ok(()),
        Statement::AssignAt { at, places, .. } => {
            let nets = target_nets(alloc, drives, places)?;
            part.leave_out(&nets, Omission::Row { at: *at })
        }
        Statement::SetAt { .. } => Ok(()),
        Statement::If {
            at,
            branches,
            otherwise,
        } => {
            let mut parts = gather_branches(alloc, drives, branches)?;
            match otherwise {
                None => {
                    let nets = touched(alloc, &parts)?;
                    part.leave_out(&nets, Omission::NoElse { at: *at })
                }
                Some(last) => {
                    let last = gather(alloc, drives, last)?;
                    parts.push(last)?;
                    choose(alloc, Counted::Branches { at: *at }, &parts, part)
                }
            }
        }
        Statement::Case {
            at,
            alternatives,
            others,
            ..
        } => {
            let mut parts = gather_alternatives(alloc, drives, alternatives)?;
            let last = gather(alloc, drives, others)?;
            parts.push(last)?;
            choose(alloc, Counted::Alternatives { at: *at }, &parts, part)
        }
    }
}

/// What a sequence does.
#[cycle(gathering)]
pub(crate) fn gather(
    alloc: Global,
    drives: &[Driver],
    statements: &[Statement],
) -> Result<Part, AllocError>
    ensures rise { IfOk result (λ part. IsStrictlyIncreasing part.assigned.items) }
    ensures told { IfOk result (λ part. (n : ℕ) → spec.told n part
        ≡ spec.told_of (to_net drives.now n) statements.now) }
{
    let mut part = Part::new(alloc);
    for statement in statements {
        gather_statement(alloc, drives, statement, &mut part)?;
    }
    part.sort();
    Ok(part)
}

/// What each branch of an if does.
#[cycle(gathering)]
fn gather_branches(
    alloc: Global,
    drives: &[Driver],
    branches: &[Branch],
) -> Result<Vec<Part>, AllocError>
    ensures rise { IfOk result (λ parts. All (λ (p : Part). IsStrictlyIncreasing p.assigned.items) parts.items) }
    ensures told { IfOk result (λ parts. (n : ℕ) → map (spec.told n) parts.items
        ≡ map (spec.of_branch drives.now n) branches.now) }
{
    let mut parts = Vec::new(alloc);
    for branch in branches {
        let inner = gather(alloc, drives, &branch.statements)?;
        parts.push(inner)?;
    }
    Ok(parts)
}

/// What each alternative of a case but its last does.
#[cycle(gathering)]
fn gather_alternatives(
    alloc: Global,
    drives: &[Driver],
    alternatives: &[Alternative],
) -> Result<Vec<Part>, AllocError>
    ensures rise { IfOk result (λ parts. All (λ (p : Part). IsStrictlyIncreasing p.assigned.items) parts.items) }
    ensures told { IfOk result (λ parts. (n : ℕ) → map (spec.told n) parts.items
        ≡ map (spec.of_alternative drives.now n) alternatives.now) }
{
    let mut parts = Vec::new(alloc);
    for alternative in alternatives {
        let inner = gather(alloc, drives, &alternative.statements)?;
        parts.push(inner)?;
    }
    Ok(parts)
}
