//! Processes: which drives a net, and their kinds.

ghost use Rattle.std.specs.Prelude.{◌≡◌, map, IfOk};
ghost use Rattle.rtl_copy_ends.specs.Ends as spec;

use rtl_body_facts::{ProcessKind, kind_of};
use rtl_net::{Net, Process, Source};
use std::alloc::{AllocError, Global};

/// The first process that drives a net.
pub fn driven_by(net: &Net, number: usize) -> Option<usize>
    ensures { result ≡ spec.driven_by net.now number }
{
    if number >= net.nets() {
        return None;
    }
    match net.sources(number) {
        [Source::Driven { process, .. }, ..] => Some(*process),
        _ => None,
    }
}

/// The kind of a process.
pub fn kind_in(net: &Net, process: &Process) -> ProcessKind
    ensures { result ≡ spec.kind_in net.now process.now }
{
    net.is_elaborated();
    let inputs = net.inputs();
    kind_of(net.is_wide(), inputs, &process.body)
}

/// The kinds of all processes.
pub(crate) fn all_kinds(alloc: Global, net: &Net) -> Result<Vec<ProcessKind>, AllocError>
    ensures { IfOk result (λ kinds. kinds.items ≡ spec.all_kinds net.now) }
{
    let mut kinds = Vec::new(alloc);
    for process in net.processes() {
        kinds.push(kind_in(net, process))?;
    }
    Ok(kinds)
}
