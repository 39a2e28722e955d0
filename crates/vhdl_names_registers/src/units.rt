//! Units with their registers as the checker knows them.

ghost use Rattle.std.specs.Prelude.{◌≡◌, IfOk, OnOk, map};
ghost use Rattle.vhdl_names_rules.specs.Registers as rules;
ghost use Rattle.vhdl_names_rules.specs.units.Units as units;
ghost use Rattle.vhdl_names_units.specs.views.Concurrent.{process_view, concurrent_view, concurrents_of};
ghost use Rattle.vhdl_names_units.specs.views.Units as views;

use crate::registers::body_written;
use std::alloc::{AllocError, Global};
use std::mem;
use vhdl_names_units::{Concurrent, Entity, Process, Units};

/// A process with its registers so.
fn process(alloc: Global, x: &mut Process) -> Result<(), AllocError>
    ensures { OnOk result (units.process (process_view x.new) ≡
        rules.concurrent_written (units.process (process_view x.old))) }
{
    let body = mem::replace(&mut x.statements, Vec::new(alloc));
    x.statements = body_written(alloc, body)?;
    Ok(())
}

/// A concurrent statement with its registers so.
#[cycle(concurrent)]
fn concurrent(alloc: Global, statement: &mut Concurrent) -> Result<(), AllocError>
    ensures { OnOk result (concurrent_view statement.new ≡ rules.concurrent_written (concurrent_view statement.old)) }
{
    match statement {
        Concurrent::Process(x) => process(alloc, x),
        Concurrent::Instance(_) => Ok(()),
        Concurrent::Generate(x) => concurrents(alloc, &mut x.statements),
    }
}

/// Concurrent statements with their registers so.
#[cycle(concurrent)]
fn concurrents(alloc: Global, all: &mut [Concurrent]) -> Result<(), AllocError>
    ensures { OnOk result (concurrents_of (map concurrent_view all.new) ≡
        rules.concurrents_written (concurrents_of (map concurrent_view all.old))) }
{
    for index in 0..all.len() {
        concurrent(alloc, &mut all[index])?;
    }
    Ok(())
}

/// An entity with the registers of its architecture so.
fn entity(alloc: Global, x: &mut Entity) -> Result<(), AllocError>
    ensures { OnOk result (views.entity_view x.new ≡ rules.entity_written (views.entity_view x.old)) }
{
    if let Some(architecture) = &mut x.architecture {
        concurrents(alloc, &mut architecture.statements)?;
    }
    Ok(())
}

/// Units with their registers as the checker knows them. It takes memory for the conditions of an
/// if at a time, for an if more where conditions stand beside an edge, and for the statements of a
/// process in which an edge is.
pub fn written(alloc: Global, units: Units) -> Result<Units, AllocError>
    ensures { IfOk result (λ found. views.units_view found ≡ rules.units_written (views.units_view units)) }
{
    let mut units = units;
    for index in 0..units.entities.len() {
        entity(alloc, &mut units.entities[index])?;
    }
    Ok(units)
}
