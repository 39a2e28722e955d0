//! What a finding says.

ghost use Rattle.std.specs.Prelude.{◌≡◌, if◌then◌else◌, [], ◌∷◌, ◌++◌, codes, flat_map, map, IfOk, OnOk};
ghost use Rattle.rtl_check.specs.Views.{fault_view};
ghost use Rattle.fault_rules.specs.Rules.{AreWords};
ghost use Rattle.rtl_net.specs.Names.{process_name};
ghost use Rattle.rtlsim_findings.specs.Findings.{finding_view};
ghost use Rattle.rtlsim_listing.specs.Reports.{circle_view};
ghost use Rattle.rtlsim_findings.specs.Sayings as spec;
ghost use Rattle.rtlsim_findings.specs.steps.Pairs as steps;

use crate::cause::{first_process, second_process};
use crate::finding::Finding;
use crate::mixed::reason_text;
use crate::naming::{culprits, ranges_of};
use crate::omitted::said;
use fault_rules::{Subject, Words};
use indexmap::IndexSet;
use rtl_check::CheckFault;
use rtl_mixed_reasons::Reason;
use rtl_net::{Net, NoMemory};
use rtlsim_listing::{Circle, circle_of, process_name, report_of, words_for};
use std::alloc::Global;

/// What is said of a process whose reset isn't calm, in place of what its rule says.
static UNSTEADY_RESET: Words<&str> = Words {
    layer: "fault",
    number: 2,
    name: "Mixed",
    opening: "process ",
    middle: " has a reset that may come and go within a moment",
    closing: "",
    help: "reset it by an in port that is no clock, by what one process makes of such alone, or by a register that one \
        of these resets, if any, to the value with which it starts",
};

/// Whether a reason is one of a reset that isn't calm.
fn is_unsteady(reason: Option<Reason>) -> bool
    ensures { result ≡ spec.is_unsteady reason }
{
    match reason {
        Some(reason) => reason.kind.number() > 16,
        None => false,
    }
}

/// What is said of a finding.
pub fn words_in(finding: &Finding<'_>) -> &'static Words<&'static str>
    ensures { AreWords (spec.words_in (finding_view finding.now)) result.now }
{
    if is_unsteady(finding.reason) {
        return &UNSTEADY_RESET;
    }
    words_for(finding.first)
}

/// The sentence of a finding.
pub fn message(alloc: Global, net: &Net, finding: &Finding<'_>) -> Result<Vec<u8>, NoMemory>
    ensures { IfOk result (λ text. text.items ≡ spec.message net.now (finding_view finding.now)) }
{
    let ranges = ranges_of(alloc, net, finding)?;
    let nets = listed(alloc, &ranges)?;
    let culprits = culprits(alloc, net, finding.first)?;
    sentence(alloc, words_in(finding), &culprits, &nets)
}

/// The sentence of these words, with its processes and nets.
pub(crate) fn sentence(
    alloc: Global,
    words: &Words<&str>,
    culprits: &[u8],
    nets: &[u8],
) -> Result<Vec<u8>, NoMemory>
    ensures { IfOk result (λ text. text.items ≡ spec.said_by words.now culprits.now nets.now) }
{
    let mut text = Vec::from_slice(alloc, words.opening.as_bytes())?;
    text.extend_from_slice(culprits)?;
    text.extend_from_slice(words.middle.as_bytes())?;
    text.extend_from_slice(nets)?;
    text.extend_from_slice(words.closing.as_bytes())?;
    Ok(text)
}

/// These texts, with a comma between two.
fn listed(alloc: Global, texts: &[Vec<u8>]) -> Result<Vec<u8>, NoMemory>
    ensures { IfOk result (λ text. text.items ≡ spec.listed (map (λ t. t.items) texts.now)) }
{
    let mut text = Vec::new(alloc);
    let [first, others @ ..] = texts else {
        return Ok(text);
    };
    text.extend_from_slice(first)?;
    push_others(others, &mut text)?;
    Ok(text)
}

/// Appends these texts, each behind a comma.
fn push_others(texts: &[Vec<u8>], text: &mut Vec<u8>) -> Result<(), NoMemory>
    ensures { OnOk result (text.new.items ≡ text.old.items ++ flat_map spec.another (map (λ t. t.items) texts.now)) }
{
    for next in texts {
        text.extend_from_slice(b", ")?;
        text.extend_from_slice(next)?;
    }
    Ok(())
}

/// Of each process that a finding is told of, or pair of drivers, but those of its first fault, the
/// first fault, in order.
pub fn also<'a>(alloc: Global, finding: &Finding<'a>) -> Result<Vec<&'a CheckFault>, NoMemory>
    ensures { IfOk result (λ faults. map (λ f. fault_view f.now) faults.items ≡ spec.also (finding_view finding.now)) }
{
    let mut told: Told = IndexSet::new(alloc);
    told.insert(pair_of(finding.first))?;
    let mut faults = Vec::new(alloc);
    let mut left = finding.others.as_slice();
    while let [fault, rest @ ..] = left {
        let (_, is_new) = told.insert_full(pair_of(fault))?;
        push_if(is_new, *fault, &mut faults)?;
        left = rest;
    }
    Ok(faults)
}

/// The processes, or pairs of drivers, of some faults.
type Told = IndexSet<(Option<usize>, Option<usize>)>;

/// The processes that tell apart the faults of a finding.
fn pair_of(fault: &CheckFault) -> (Option<usize>, Option<usize>)
    ensures { result ≡ steps.pair_of (fault_view fault.now) }
{
    (first_process(fault), second_process(fault))
}

/// Appends a fault, if so.
fn push_if<'a>(
    so: bool,
    fault: &'a CheckFault,
    faults: &mut Vec<&'a CheckFault>,
) -> Result<(), NoMemory>
    ensures { OnOk result (map (λ f. fault_view f.now) faults.new.items
        ≡ map (λ f. fault_view f.now) faults.old.items ++ (if so then fault_view fault.now ∷ [] else [])) }
{
    if so {
        faults.push(fault)?;
    }
    Ok(())
}

/// All processes that a finding is told of: those of its first fault, and those of the other
/// instances. An idle port has none.
pub fn processes(alloc: Global, finding: &Finding<'_>) -> Result<Vec<Option<usize>>, NoMemory>
    ensures { IfOk result (λ processes. processes.items ≡ spec.processes (finding_view finding.now)) }
{
    let others = also(alloc, finding)?;
    let mut processes = Vec::new(alloc);
    push_processes(finding.first, &mut processes)?;
    push_each(&others, &mut processes)?;
    Ok(processes)
}

/// Appends the processes that these faults are told of.
fn push_each(faults: &[&CheckFault], processes: &mut Vec<Option<usize>>) -> Result<(), NoMemory>
    ensures { OnOk result (processes.new.items
        ≡ processes.old.items ++ flat_map spec.processes_in (map (λ f. fault_view f.now) faults.now)) }
{
    for fault in faults {
        push_processes(fault, processes)?;
    }
    Ok(())
}

/// Appends the processes that a fault is told of.
fn push_processes(fault: &CheckFault, processes: &mut Vec<Option<usize>>) -> Result<(), NoMemory>
    ensures { OnOk result (processes.new.items ≡ processes.old.items ++ spec.processes_in (fault_view fault.now)) }
{
    match report_of(fault).subject {
        Subject::Sources { first, second, .. } => {
            Ok(processes.extend_from_slice(&[first, second])?)
        }
        Subject::ProcessNet { process, .. }
        | Subject::Process { process }
        | Subject::Element { process, .. } => Ok(processes.push(Some(process))?),
        Subject::Circle => push_circle(circle_of(fault), processes),
        _ => Ok(()),
    }
}

/// Appends the processes of a circle of processes.
fn push_circle(circle: Circle<'_>, processes: &mut Vec<Option<usize>>) -> Result<(), NoMemory>
    ensures { OnOk result (processes.new.items
        ≡ processes.old.items ++ spec.processes_round (circle_view circle.entry)) }
{
    match circle {
        Circle::Processes(circle) => push_round(circle, processes),
        Circle::Nets(_) => Ok(()),
    }
}

/// Appends these processes.
fn push_round(circle: &[usize], processes: &mut Vec<Option<usize>>) -> Result<(), NoMemory>
    ensures { OnOk result (processes.new.items ≡ processes.old.items ++ map spec.one circle.now) }
{
    for process in circle {
        processes.push(Some(*process))?;
    }
    Ok(())
}

/// Whether a fault is a latch.
fn is_latch(fault: &CheckFault) -> bool
    ensures { result ≡ spec.is_latch (fault_view fault.now) }
{
    match fault {
        CheckFault::Latch { .. } => true,
        _ => false,
    }
}

/// The byte at which the note beside a finding stands, if it has one: where the second driver is
/// declared, where a latch leaves the assignment out, or where a process has what makes it neither
/// clocked nor combinational; at the process of a latch whose net nothing in it assigns.
pub fn note_at(finding: &Finding<'_>) -> Option<usize>
    ensures { result ≡ spec.note_at (finding_view finding.now) }
{
    let cause = finding.cause;
    match (cause.second, cause.omission, cause.obstacle) {
        (Some(at), _, _) => Some(at),
        (None, Some(omission), _) => Some(omission.at() as usize),
        (None, None, Some(obstacle)) => Some(obstacle.at as usize),
        (None, None, None) => {
            if is_latch(finding.first) {
                return cause.first;
            }
            None
        }
    }
}

/// What the note says.
pub fn note_text(alloc: Global, net: &Net, finding: &Finding<'_>) -> Result<Vec<u8>, NoMemory>
    ensures { IfOk result (λ text. text.items ≡ spec.note_text net.now (finding_view finding.now)) }
{
    let second = second_process(finding.first);
    match (second, finding.cause.omission, finding.reason) {
        (Some(process), _, _) => too_text(alloc, net, process),
        (None, Some(omission), _) => said(alloc, omission),
        (None, None, Some(reason)) => reason_text(alloc, net, reason),
        (None, None, None) => unassigned_text(alloc, is_latch(finding.first)),
    }
}

/// What is said of another driver.
fn too_text(alloc: Global, net: &Net, process: usize) -> Result<Vec<u8>, NoMemory>
    ensures { IfOk result (λ text. text.items ≡ process_name net.now process ++ codes " drives it too") }
{
    let mut text = process_name(alloc, net, process)?;
    text.extend_from_slice(b" drives it too")?;
    Ok(text)
}

/// What is said of a latch whose net nothing in the process assigns, and of no other fault.
fn unassigned_text(alloc: Global, latch: bool) -> Result<Vec<u8>, NoMemory>
    ensures { IfOk result (λ text. text.items ≡ spec.unassigned_text latch) }
{
    let text: &[u8] = if latch {
        b"no turn of a loop assigns it; a loop runs up by to and down by downto"
    } else {
        b""
    };
    Ok(Vec::from_slice(alloc, text)?)
}
