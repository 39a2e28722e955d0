//! Which processes are clocked, and what moves them.

ghost use Rattle.std.specs.Prelude.{◌≡◌, map, IfOk};
ghost use Rattle.rtl_levels.specs.Scheduled.{is_clocked_kind, kind_moves};

use rtl_body_facts::{Clocking, ProcessKind};
use std::alloc::{AllocError, Global};

/// Whether each process is clocked, by the kinds of all.
pub fn clocked_processes(alloc: Global, kinds: &[ProcessKind]) -> Result<Vec<bool>, AllocError>
    ensures { IfOk result (λ clocked. clocked.items ≡ map is_clocked_kind kinds.now) }
{
    let mut clocked = Vec::with_capacity(alloc, kinds.len())?;
    for kind in kinds {
        clocked.push(is_clocked(*kind))?;
    }
    Ok(clocked)
}

/// Whether this is a clocked process's kind.
fn is_clocked(kind: ProcessKind) -> bool
    ensures { result ≡ is_clocked_kind kind }
{
    match kind {
        ProcessKind::Clocked(_) => true,
        _ => false,
    }
}

/// Whether a change of this net, to which a process of this kind is sensitive, may move what a
/// visit of the process settles: of a clocked one, if it is its reset's net.
pub fn moves(kind: ProcessKind, net: usize) -> bool
    ensures { result ≡ kind_moves kind net }
{
    match kind {
        ProcessKind::Combinational => true,
        ProcessKind::Clocked(
            Clocking {
                reset: Some(reset),
                ..
            },
        ) => reset == net,
        _ => false,
    }
}
