//! Branches of clocked processes.

ghost use Rattle.std.specs.Prelude.{◌≡◌, option_map};
ghost use Rattle.std.specs.List.Sorted.{IsStrictlyIncreasing};
ghost use Rattle.rtl_model.specs.bodies.Kinds.{clocking};
ghost use Rattle.rtl_net.specs.Bodies.{statements_of};
ghost use Rattle.rtl_net.specs.Nets.{body_of};
ghost use Rattle.rtl_remarks.specs.Tables as spec;

use rtl_body_facts::{ProcessKind, kind_of};
use rtl_net::{Process, Statement};
use rtl_process_kinds::reset_branch;

/// Whether a clocked process has a reset.
fn has_reset(wide: bool, inputs: &[usize], process: &Process) -> Option<bool>
    requires { IsStrictlyIncreasing inputs.now }
    ensures { result ≡ spec.has_reset (clocking wide inputs.now (body_of process.now)) }
{
    match kind_of(wide, inputs, &process.body) {
        ProcessKind::Combinational => None,
        ProcessKind::Clocked(clocking) => Some(clocking.reset.is_some()),
        ProcessKind::Mixed => None,
    }
}

/// The branch that a clocked process runs alone while its reset holds, or at the edge, where it has
/// no reset. Of a reset that stands behind the edge, which holds nothing back, there is none.
pub(crate) fn guarded<'a>(
    wide: bool,
    inputs: &[usize],
    process: &'a Process,
    reset: bool,
) -> Option<&'a [Statement]>
    requires { IsStrictlyIncreasing inputs.now }
    ensures { option_map (λ statements. statements_of statements.now) result
        ≡ spec.guarded reset (clocking wide inputs.now (body_of process.now)) }
{
    let Some(has) = has_reset(wide, inputs, process) else {
        return None;
    };
    if has != reset {
        return None;
    }
    if process.body.len() != 1 {
        return None;
    }
    Some(reset_branch(&process.body))
}
