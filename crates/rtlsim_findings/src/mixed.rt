//! Why the process of a fault is neither clocked nor combinational, or its reset not calm.

ghost use Rattle.std.specs.Prelude.{◌≡◌, IfOk, OnOk};
ghost use Rattle.rtl_check.specs.Views.{fault_view};
ghost use Rattle.rtl_mixed_reasons.specs.Unsteady.{reason_of};
ghost use Rattle.rtlsim_findings.specs.Mixed as spec;
ghost use Rattle.rtlsim_findings.specs.steps.Walked.{IfMade};

use rtl_check::CheckFault;
use rtl_copy_ends::Walks;
use rtl_mixed_reasons::{Reason, reason_of};
use rtl_net::{Net, NoMemory};
use rtlsim_circles::name_of_net;
use rtlsim_listing::process_name;
use std::alloc::Global;

/// The reason of a process, by the walks, which the first such question makes.
fn reason_by(
    alloc: Global,
    net: &Net,
    walks: &mut Option<Walks>,
    process: usize,
) -> Result<Option<Reason>, NoMemory>
    requires { IfMade net.now walks.old }
    ensures is { IfOk result (λ reason. reason ≡ reason_of net.now process) }
    ensures made { OnOk result (IfMade net.now walks.new) }
{
    if let Some(made) = &*walks {
        return reason_of(alloc, net, made, process);
    }
    let made = Walks::of(alloc, net)?;
    let reason = reason_of(alloc, net, &made, process)?;
    *walks = Some(made);
    Ok(reason)
}

/// Why the process is neither clocked nor combinational, or its reset not calm, where a fault tells
/// that.
pub(crate) fn why(
    alloc: Global,
    net: &Net,
    walks: &mut Option<Walks>,
    fault: &CheckFault,
) -> Result<Option<Reason>, NoMemory>
    requires { IfMade net.now walks.old }
    ensures is { IfOk result (λ reason. reason ≡ spec.why net.now (fault_view fault.now)) }
    ensures made { OnOk result (IfMade net.now walks.new) }
{
    match fault {
        CheckFault::Mixed { process } => reason_by(alloc, net, walks, *process),
        _ => Ok(None),
    }
}

/// What is said of a reason.
pub(crate) fn reason_text(alloc: Global, net: &Net, reason: Reason) -> Result<Vec<u8>, NoMemory>
    ensures { IfOk result (λ text. text.items ≡ spec.reason_text net.now reason) }
{
    let note = reason.kind.note();
    let mut text = Vec::from_slice(alloc, note.opening.as_bytes())?;
    text.extend_from_slice(&name_of_net(alloc, net, reason.net)?)?;
    text.extend_from_slice(note.middle.as_bytes())?;
    text.extend_from_slice(&name_of_process(alloc, net, reason.driver)?)?;
    text.extend_from_slice(&name_of_net(alloc, net, reason.second)?)?;
    text.extend_from_slice(note.closing.as_bytes())?;
    Ok(text)
}

/// The name of a process, empty where there is none.
pub(crate) fn name_of_process(
    alloc: Global,
    net: &Net,
    process: Option<usize>,
) -> Result<Vec<u8>, NoMemory>
    ensures { IfOk result (λ text. text.items ≡ spec.name_of_process net.now process) }
{
    match process {
        Some(process) => process_name(alloc, net, process),
        None => Ok(Vec::new(alloc)),
    }
}
