//! Where the process of a latch leaves out the assignment.

ghost use Rattle.std.specs.HashMap.{get};
ghost use Rattle.std.specs.Prelude.{◌≡◌, ◌++◌, ℕ, nat_eq, slice_get, decimal, IfOk, OnOk};
ghost use Rattle.rtl_check.specs.Views.{fault_view};
ghost use Rattle.rtlsim_findings.specs.Omitted as spec;
ghost use Rattle.rtlsim_findings.specs.steps.Walked.{AreOf};

use rtl_check::CheckFault;
use rtl_latches::{Omission, omissions};
use rtl_net::{Net, NoMemory};
use rtlsim_listing::push_decimal;
use std::alloc::Global;
use std::collections::HashMap;

/// Where one process leaves out assignments, by their nets.
#[derive(Drop)]
pub(crate) struct Omissions {
    process: usize,
    places: HashMap<usize, Omission>,
}

impl Omissions {
    /// Of no process yet.
    pub(crate) fn new(alloc: Global, net: &Net) -> Omissions
        ensures { AreOf net.now result }
    {
        Omissions {
            process: net.processes().len(),
            places: HashMap::new(alloc),
        }
    }

    /// Where the process of a latch leaves out the net's assignment. One walk over a process serves
    /// all latches of it that follow.
    pub(crate) fn left_out(
        &mut self,
        alloc: Global,
        net: &Net,
        fault: &CheckFault,
    ) -> Result<Option<Omission>, NoMemory>
        requires { AreOf net.now self.old }
        ensures is { IfOk result (λ omission. omission ≡ spec.left_out net.now (fault_view fault.now)) }
        ensures are { OnOk result (AreOf net.now self.new) }
    {
        match fault {
            CheckFault::Latch {
                process,
                net: number,
            } => {
                self.turn_to(alloc, net, *process)?;
                Ok(self.places.get(number).copied())
            }
            _ => Ok(None),
        }
    }

    /// Turns to another process, where it is another.
    fn turn_to(&mut self, alloc: Global, net: &Net, process: usize) -> Result<(), NoMemory>
        requires { AreOf net.now self.old }
        ensures is { OnOk result (self.new.process ≡ process) }
        ensures are { OnOk result (AreOf net.now self.new) }
    {
        if self.process == process {
            return Ok(());
        }
        self.places = places_of(alloc, net, process)?;
        self.process = process;
        Ok(())
    }
}

/// Where a process leaves out assignments, by their nets.
fn places_of(alloc: Global, net: &Net, process: usize) -> Result<HashMap<usize, Omission>, NoMemory>
    ensures { IfOk result (λ places. (n : ℕ) → get nat_eq places n
        ≡ spec.omission_at n (slice_get net.now.processes process)) }
{
    match net.processes().get(process) {
        Some(process) => Ok(omissions(alloc, &process.body, &process.drives)?),
        None => Ok(HashMap::new(alloc)),
    }
}

/// What leaves it out.
pub(crate) fn said(alloc: Global, omission: Omission) -> Result<Vec<u8>, NoMemory>
    ensures { IfOk result (λ text. text.items ≡ spec.said omission) }
{
    match omission {
        Omission::NoElse { .. } => Ok(Vec::from_slice(
            alloc,
            b"where no condition of this if holds, nothing assigns it",
        )?),
        Omission::Branch { number, .. } => {
            counted(alloc, b"branch ", number, b" of this if doesn't assign it")
        }
        Omission::Alternative { number, .. } => counted(
            alloc,
            b"alternative ",
            number,
            b" of this case doesn't assign it",
        ),
        Omission::Row { .. } => Ok(Vec::from_slice(
            alloc,
            b"where its index names another element, this assignment doesn't assign it",
        )?),
    }
}

/// A number in decimal digits between two texts.
fn counted(alloc: Global, before: &[u8], number: usize, after: &[u8]) -> Result<Vec<u8>, NoMemory>
    ensures { IfOk result (λ text. text.items ≡ before.now ++ decimal number ++ after.now) }
{
    let mut text = Vec::from_slice(alloc, before)?;
    push_decimal(number, &mut text)?;
    text.extend_from_slice(after)?;
    Ok(text)
}
