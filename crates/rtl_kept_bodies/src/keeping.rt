//! A process, with nets in place of its variables where it is a register.

ghost use Rattle.std.specs.Prelude.{◌≡◌, ◌++◌, ◌+◌, ◌≤◌, ◌<◌, ◌^◌, ◌&&◌, List, true, false, length, map, replicate, nat_le, nat_lt, IfOk, IfErr, OnOk};
ghost use Rattle.std.specs.List.{range_with_len};
ghost use Rattle.rtl_model.specs.bodies.Body.{followed_by};
ghost use Rattle.rtl_model.specs.bodies.Types.{ElementType};
ghost use Rattle.rtl_model.specs.nets.FlatNetlist.{ProcessInRange, element_starts};
ghost use Rattle.rtl_net.specs.Bodies.{statements_of};
ghost use Rattle.rtl_net.specs.Elaborated.{ReadsOfBody};
ghost use Rattle.rtl_net.specs.Limits.{most_nets};
ghost use Rattle.rtl_net.specs.Nets.{variable_view, process_view, body_of};
ghost use Rattle.rtl_variable_registers.specs.Bodies as spec;
ghost use Rattle.rtl_variable_registers.specs.Known.{at_start, with_constants};
ghost use Rattle.rtl_variable_registers.specs.Processes.{kept_elements, kept_process};
ghost use Rattle.rtl_kept_bodies.specs.declared.keeping.KeepFault.TheVariants.{NoMemory};
ghost use Rattle.rtl_kept_bodies.specs.Rules.{byte_of, keeps_each, HasRoom, NamedAlike, Refused};
ghost use Rattle.rtl_kept_bodies.specs.Steps.{recall_all, remember_all, all_at_reset, place_at, CanCompute, AreKept};

use crate::drivers::{add_all_drivers, add_nets};
use crate::edge::keep_at_edge;
use crate::forms::{replace_edge, replace_reset};
use crate::kept::{Kept, count_kept, flags_of, kept_of, starts_of};
use crate::marks::{kept_elements, no_flags};
use crate::registers::is_register;
use crate::reset::{Places, keep_at_reset};
use crate::values::make_constants;
use rtl_net::{Process, Statement};
use std::alloc::{AllocError, AllocFailed, Global};

/// Why variables can't be kept.
#[derive(Clone, Copy)]
pub enum KeepFault {
    /// There would be more nets than a netlist has, or more drivers or elements of variables than a
    /// body can number.
    TooMany,
    /// Memory was refused.
    NoMemory,
}

impl From<AllocError> for KeepFault {
    ghost from_gives = { λ _ fault. fault ≡ NoMemory };

    fn from(_refused: AllocError) -> KeepFault {
        KeepFault::NoMemory
    }
}

impl<T: Drop> From<AllocFailed<T>> for KeepFault {
    ghost from_gives = { λ _ fault. fault ≡ NoMemory };

    fn from(_refused: AllocFailed<T>) -> KeepFault {
        KeepFault::NoMemory
    }
}

/// Changes the branch of a reset.
fn keep_reset(
    alloc: Global,
    places: &Places,
    starts: &[u8],
    reset: &mut [Statement],
) -> Result<(), AllocError>
    requires { CanCompute starts.now (statements_of reset.old) }
    ensures { OnOk result (statements_of reset.new
        ≡ all_at_reset (place_at places.now) (with_constants (at_start starts.now) (statements_of reset.old))) }
{
    make_constants(alloc, starts, reset)?;
    keep_at_reset(alloc, places, reset)
}

/// Changes the branches of a register's body.
fn keep_body(
    alloc: Global,
    kept: &[Kept],
    places: &Places,
    starts: &[u8],
    body: &mut [Statement],
) -> Result<(), AllocError>
    requires { CanCompute starts.now (spec.reset_branch (statements_of body.old)) }
    ensures body { OnOk result (statements_of body.new ≡ spec.with_branches
        (λ a. all_at_reset (place_at places.now) (with_constants (at_start starts.now) a))
        (λ s. followed_by (recall_all kept.now) (followed_by s (remember_all kept.now))) (statements_of body.old)) }
    ensures bytes { OnOk result (map byte_of body.new ≡ map byte_of body.old) }
{
    let mut reset = replace_reset(alloc, body, Vec::new(alloc));
    keep_reset(alloc, places, starts, &mut reset)?;
    let _nothing = replace_reset(alloc, body, reset);
    let mut edge = replace_edge(alloc, body, Vec::new(alloc));
    keep_at_edge(alloc, kept, &mut edge)?;
    let _nothing = replace_edge(alloc, body, edge);
    Ok(())
}

/// Keeps the variables of a register that are listed, whose elements start so.
fn keep_listed(
    alloc: Global,
    process: &mut Process,
    kept: &[Kept],
    starts: &[u8],
    first: usize,
    many: usize,
) -> Result<(), AllocError>
    requires register { spec.is_register (body_of process.old) ≡ true }
    requires kept { AreKept first (process_view process.old) kept.now }
    requires computes { CanCompute starts.now (spec.reset_branch (body_of process.old)) }
    requires starts { starts.now ≡ element_starts (map variable_view process.old.variables.items) }
    requires many { many ≡ length (kept_elements (process_view process.old)) }
    requires nets { first + many ≤ most_nets }
    requires drivers { length process.old.drives.items + many < 2 ^ 32 }
    ensures process { OnOk result (process_view process.new ≡ kept_process first (process_view process.old)) }
    ensures reads { OnOk result (process.new.reads.items ≡ process.old.reads.items ++ range_with_len first many) }
    ensures named { OnOk result (NamedAlike process.old process.new) }
{
    let behind = (process.drives.len() + many) as u32;
    let places = Places::new(alloc, kept, starts.len(), behind)?;
    keep_body(alloc, kept, &places, starts, &mut process.body)?;
    add_all_drivers(kept, starts, &mut process.drives)?;
    add_nets(first, many, &mut process.reads)?;
    Ok(())
}

/// Whether there is room for so many nets more, behind so many nets and so many drivers, of a
/// process with so many elements of variables.
fn has_room(many: usize, nets: usize, drivers: usize, elements: usize) -> bool
    requires { nets ≤ most_nets }
    ensures { result ≡ (nat_le (nets + many) most_nets
        && (nat_lt (drivers + many) (2 ^ 32) && nat_lt elements (2 ^ 32))) }
{
    let word = u32::MAX as usize;
    many <= 1_048_576 - nets && drivers <= word - many && elements <= word
}

/// Whether each variable of a process is kept, of so many elements in all.
fn flags_in(
    alloc: Global,
    process: &mut Process,
    is_register: bool,
    elements: usize,
) -> Result<Vec<bool>, AllocError>
    requires register { is_register ≡ spec.is_register (body_of process.old) }
    requires elements { elements ≡ length (element_starts (map variable_view process.old.variables.items)) }
    ensures kept { IfOk result (λ v. v.items
        ≡ keeps_each (spec.keeps_element (body_of process.old)) 0 (map variable_view process.old.variables.items)) }
    ensures body { OnOk result (body_of process.new ≡ body_of process.old) }
    ensures drives { OnOk result (process.new.drives ≡ process.old.drives) }
    ensures reads { OnOk result (process.new.reads ≡ process.old.reads) }
    ensures named { OnOk result (NamedAlike process.old process.new) }
{
    if !is_register {
        return no_flags(alloc, process.variables.len());
    }
    let marks = kept_elements(alloc, &mut process.body, elements)?;
    flags_of(alloc, &process.variables, &marks)
}

/// Keeps the variables of a process that are flagged, whose elements start so, if there is room for
/// them.
fn keep_flagged(
    alloc: Global,
    process: &mut Process,
    is_register: bool,
    flags: &[bool],
    starts: &[u8],
    first: usize,
) -> Result<(), KeepFault>
    requires register { is_register ≡ spec.is_register (body_of process.old) }
    requires flags { flags.now
        ≡ keeps_each (spec.keeps_element (body_of process.old)) 0 (map variable_view process.old.variables.items) }
    requires starts { starts.now ≡ element_starts (map variable_view process.old.variables.items) }
    requires reads { ReadsOfBody process.old }
    requires in_range { (types : List ElementType) × ProcessInRange types (process_view process.old)
        × (length types ≤ first) }
    requires limit { first ≤ most_nets }
    ensures process { OnOk result (process_view process.new ≡ kept_process first (process_view process.old)) }
    ensures reads { OnOk result (ReadsOfBody process.new) }
    ensures named { OnOk result (NamedAlike process.old process.new) }
    ensures room { OnOk result (HasRoom first (process_view process.old)) }
    ensures fault { IfErr result (Refused first (process_view process.old)) }
{
    let many = count_kept(&process.variables, flags);
    let drivers = process.drives.len();
    if !has_room(many, first, drivers, starts.len()) {
        return Err(KeepFault::TooMany);
    }
    if !is_register {
        return Ok(());
    }
    let kept = kept_of(alloc, &process.variables, flags, first, drivers)?;
    keep_listed(alloc, process, &kept, starts, first, many)?;
    Ok(())
}

/// Keeps the variables of a process whose elements a register's body stores, or its reset sets: the
/// nets of these elements stand from `first` on. It tells of each variable whether it is kept. It
/// takes the memory of its elements' nets and drivers, and time in proportion to the body.
///
/// # Errors
///
/// `TooMany` where there would be more nets than a netlist has, or 2 ^ 32 drivers or elements of
/// variables, and `NoMemory`.
pub fn keep(alloc: Global, process: &mut Process, first: usize) -> Result<Vec<bool>, KeepFault>
    requires reads { ReadsOfBody process.old }
    requires in_range { (types : List ElementType) × ProcessInRange types (process_view process.old)
        × (length types ≤ first) }
    requires limit { first ≤ most_nets }
    ensures kept { IfOk result (λ v. v.items
        ≡ keeps_each (spec.keeps_element (body_of process.old)) 0 (map variable_view process.old.variables.items)) }
    ensures process { OnOk result (process_view process.new ≡ kept_process first (process_view process.old)) }
    ensures reads { OnOk result (ReadsOfBody process.new) }
    ensures named { OnOk result (NamedAlike process.old process.new) }
    ensures room { OnOk result (HasRoom first (process_view process.old)) }
    ensures fault { IfErr result (Refused first (process_view process.old)) }
{
    let starts = starts_of(alloc, &process.variables)?;
    let is_register = is_register(alloc, &mut process.body, starts.len())?;
    let flags = flags_in(alloc, process, is_register, starts.len())?;
    keep_flagged(alloc, process, is_register, &flags, &starts, first)?;
    Ok(flags)
}
