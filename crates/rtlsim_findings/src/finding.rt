//! Findings: the faults of one cause.

ghost use Rattle.std.specs.Prelude.{◌≡◌, ◌||◌, ℕ, map, IfOk, OnOk};
ghost use Rattle.std.specs.List.Sorted.{IsStrictlyIncreasing};
ghost use Rattle.rtl_check.specs.Views.{fault_view};
ghost use Rattle.rtl_body_facts.specs.Reading.{is_in};
ghost use Rattle.rtlsim_findings.specs.Findings as spec;
ghost use Rattle.rtlsim_findings.specs.Findings.{finding_view};
ghost use Rattle.rtlsim_findings.specs.steps.Joining.{causes_of};
ghost use Rattle.rtlsim_findings.specs.steps.Walked.{AreOf, IfMade};

use crate::cause::{Cause, cause_of};
use crate::mixed::why;
use crate::omitted::Omissions;
use indexmap::IndexSet;
use rtl_body_facts::{contains_rising, sort_once};
use rtl_check::CheckFault;
use rtl_copy_ends::Walks;
use rtl_mixed_reasons::Reason;
use rtl_net::{Net, NoMemory};
use std::alloc::Global;

/// The faults of one cause.
#[derive(Drop)]
pub struct Finding<'a> {
    /// What they have in common.
    pub cause: Cause,
    /// Why the process of the first is neither clocked nor combinational, or its reset not calm,
    /// where it tells that.
    pub reason: Option<Reason>,
    /// The first of them.
    pub first: &'a CheckFault,
    /// The others, in order.
    pub others: Vec<&'a CheckFault>,
}

/// The findings of a rejection with these faults. It takes memory for each fault and for the body
/// of one process at a time, which is walked over once while its latches follow each other, and in
/// a wide netlist, where a fault is one of kinds or resets, for each process and net; and time in
/// proportion to these and all bodies, but for the logarithms of sorted lists and of the number of
/// processes.
pub fn findings<'a>(
    alloc: Global,
    net: &Net,
    faults: &'a [CheckFault],
) -> Result<Vec<Finding<'a>>, NoMemory>
    ensures { IfOk result (λ found. map finding_view found.items ≡ spec.findings net.now faults.now) }
{
    let gated = gated_nets(alloc, faults)?;
    let mut walks = None;
    let mut walked = Omissions::new(alloc, net);
    let mut causes = IndexSet::new(alloc);
    let mut found = Vec::new(alloc);
    let mut left = faults;
    while let [fault, rest @ ..] = left {
        if !is_left_out(&gated, fault) {
            join(
                alloc,
                net,
                &mut walks,
                fault,
                &mut walked,
                &mut causes,
                &mut found,
            )?;
        }
        left = rest;
    }
    Ok(found)
}

/// Puts a fault to the first finding of its cause, or begins one.
fn join<'a>(
    alloc: Global,
    net: &Net,
    walks: &mut Option<Walks>,
    fault: &'a CheckFault,
    walked: &mut Omissions,
    causes: &mut IndexSet<Cause>,
    found: &mut Vec<Finding<'a>>,
) -> Result<(), NoMemory>
    requires made { IfMade net.now walks.old }
    requires are { AreOf net.now walked.old }
    requires causes { causes.old.keys ≡ causes_of (map finding_view found.old.items) }
    ensures made { OnOk result (IfMade net.now walks.new) }
    ensures are { OnOk result (AreOf net.now walked.new) }
    ensures causes { OnOk result (causes.new.keys ≡ causes_of (map finding_view found.new.items)) }
    ensures is { OnOk result (map finding_view found.new.items
        ≡ spec.joined net.now (map finding_view found.old.items) (fault_view fault.now)) }
{
    let reason = why(alloc, net, walks, fault)?;
    let cause = cause_of(alloc, net, fault, reason, walked)?;
    let (number, _) = causes.insert_full(cause)?;
    if number < found.len() {
        let finding = &mut found[number];
        finding.others.push(fault)?;
        return Ok(());
    }
    let others = Vec::new(alloc);
    found.push(Finding {
        cause,
        reason,
        first: fault,
        others,
    })?;
    Ok(())
}

/// Whether a fault tells of one of these nets, which rise, that it is read as data.
fn is_left_out(gated: &[usize], fault: &CheckFault) -> bool
    requires { IsStrictlyIncreasing gated.now }
    ensures { result ≡ spec.is_left_out (λ n. is_in n gated.now) (fault_view fault.now) }
{
    match fault {
        CheckFault::ClockAsData { net, .. } => contains_rising(gated, *net),
        _ => false,
    }
}

/// The nets of which these faults tell that they are no clock that may be, rising.
fn gated_nets(alloc: Global, faults: &[CheckFault]) -> Result<Vec<usize>, NoMemory>
    ensures rise { IfOk result (λ nets. IsStrictlyIncreasing nets.items) }
    ensures are { IfOk result (λ nets. (n : ℕ) → is_in n nets.items ≡ spec.any_gated faults.now n) }
{
    let mut nets = Vec::new(alloc);
    let mut left = faults;
    while let [fault, rest @ ..] = left {
        push_gated(fault, &mut nets)?;
        left = rest;
    }
    sort_once(&mut nets);
    Ok(nets)
}

/// Appends the net of which a fault tells that, if it does.
fn push_gated(fault: &CheckFault, nets: &mut Vec<usize>) -> Result<(), NoMemory>
    ensures { OnOk result ((n : ℕ) → is_in n nets.new.items
        ≡ (is_in n nets.old.items || spec.is_gated n (fault_view fault.now))) }
{
    match fault {
        CheckFault::ClockNotInput { net, .. } => Ok(nets.push(*net)?),
        _ => Ok(()),
    }
}
