//! What faults have in common that are told together.

ghost use Rattle.std.specs.Prelude.{◌≡◌, slice_get, option_map, IfOk, OnOk};
ghost use Rattle.rtl_check.specs.Views.{fault_view};
ghost use Rattle.rtlsim_findings.specs.Causes as spec;
ghost use Rattle.rtlsim_findings.specs.Mixed.{why};
ghost use Rattle.rtlsim_findings.specs.steps.Walked.{AreOf};

use crate::omitted::Omissions;
use fault_rules::{Place, Subject};
use rtl_check::CheckFault;
use rtl_latches::Omission;
use rtl_mixed_reasons::Reason;
use rtl_net::{Net, NoMemory};
use rtlsim_listing::{Circle, circle_of, driver_of, report_of};
use std::alloc::Global;

/// What makes a process neither clocked nor combinational.
#[derive(Clone, Copy, PartialEq, Eq, Hash)]
pub struct Obstacle {
    /// The number of the reason's kind.
    pub kind: u8,
    /// The byte of the source at which it's told.
    pub at: u32,
}

/// What faults have in common that are told together.
#[derive(Clone, Copy, PartialEq, Eq, Hash)]
pub struct Cause {
    /// The number of the rule.
    pub number: u8,
    /// The byte at which the first process is declared, if there is one.
    pub first: Option<usize>,
    /// Of two drivers, the same of the second.
    pub second: Option<usize>,
    /// Of a latch, where the assignment is left out.
    pub omission: Option<Omission>,
    /// Of a process that is neither clocked nor combinational, what makes it so.
    pub obstacle: Option<Obstacle>,
}

/// The cause of a fault that has this reason.
pub(crate) fn cause_of(
    alloc: Global,
    net: &Net,
    fault: &CheckFault,
    reason: Option<Reason>,
    walked: &mut Omissions,
) -> Result<Cause, NoMemory>
    requires reason { reason ≡ why net.now (fault_view fault.now) }
    requires are { AreOf net.now walked.old }
    ensures is { IfOk result (λ cause. cause ≡ spec.cause_of net.now (fault_view fault.now)) }
    ensures are { OnOk result (AreOf net.now walked.new) }
{
    let omission = walked.left_out(alloc, net, fault)?;
    Ok(Cause {
        number: report_of(fault).rule.words().number,
        first: at_process(net, told_at(net, fault)),
        second: at_process(net, second_process(fault)),
        omission,
        obstacle: obstacle_of(reason),
    })
}

/// The kind and the place of a reason.
fn obstacle_of(reason: Option<Reason>) -> Option<Obstacle>
    ensures { result ≡ option_map spec.obstacle_of reason }
{
    let reason = reason?;
    Some(Obstacle {
        kind: reason.kind.number(),
        at: reason.at,
    })
}

/// Whether two faults are told of the same processes.
pub(crate) fn is_of(before: &CheckFault, fault: &CheckFault) -> bool
    ensures { result ≡ spec.is_of (fault_view before.now) (fault_view fault.now) }
{
    is_same_number(first_process(before), first_process(fault))
        && is_same_number(second_process(before), second_process(fault))
}

/// Whether both are one number, or neither is.
pub(crate) fn is_same_number(first: Option<usize>, second: Option<usize>) -> bool
    ensures { result ≡ spec.is_same_number first second }
{
    match (first, second) {
        (None, None) => true,
        (Some(first), Some(second)) => first == second,
        _ => false,
    }
}

/// The first process that a fault is told of; of an idle port there is none.
pub fn first_process(fault: &CheckFault) -> Option<usize>
    ensures { result ≡ spec.first_process (fault_view fault.now) }
{
    match report_of(fault).place {
        Place::Process(process) => Some(process),
        _ => None,
    }
}

/// The process at whose place a fault is told: of a loop of nets the one that drives the first.
fn told_at(net: &Net, fault: &CheckFault) -> Option<usize>
    ensures { result ≡ spec.told_at net.now (fault_view fault.now) }
{
    match circle_of(fault) {
        Circle::Processes(_) => first_process(fault),
        Circle::Nets(nets) => first_driver(net, nets),
    }
}

/// The process that drives the first of these nets.
fn first_driver(net: &Net, nets: &[usize]) -> Option<usize>
    ensures { result ≡ spec.first_driver net.now nets.now }
{
    match nets {
        [first, ..] => driver_of(net, *first),
        [] => None,
    }
}

/// Of two drivers the process of the second.
pub(crate) fn second_process(fault: &CheckFault) -> Option<usize>
    ensures { result ≡ spec.second_process (fault_view fault.now) }
{
    match report_of(fault).subject {
        Subject::Sources { second, .. } => second,
        _ => None,
    }
}

/// The byte of the source at which a process is declared, where one is named that is there.
pub fn at_process(net: &Net, process: Option<usize>) -> Option<usize>
    ensures { result ≡ spec.at_process net.now process }
{
    declared_at(net, process?)
}

/// The byte of the source at which a process starts, behind its label.
fn declared_at(net: &Net, process: usize) -> Option<usize>
    ensures { result ≡ spec.declared_at (slice_get net.now.processes process) }
{
    match net.processes().get(process) {
        Some(process) => Some(process.at as usize),
        None => None,
    }
}
