//! Which process reads a net first.

ghost use Rattle.std.specs.Prelude.{◌≡◌, ◌<◌, ℕ, if◌then◌else◌, length, slice_index_or, Some, None, IfOk};
ghost use Rattle.rtl_body_facts.specs.Reading.{is_in};
ghost use Rattle.rtl_remarks.specs.Tables.{AreReaders};

use rtl_net::{Net, NoMemory};
use std::alloc::Global;

/// Of each net the first process that reads it. It takes memory for a table over the nets.
pub(crate) fn first_readers(alloc: Global, net: &Net) -> Result<Vec<Option<usize>>, NoMemory>
    ensures { IfOk result (λ readers. AreReaders net.now readers.items) }
{
    let mut readers = vec![in alloc; None; net.nets()]?;
    let processes = net.processes();
    let mut process = processes.len();
    while process > 0 {
        process -= 1;
        note(process, &processes[process].reads, &mut readers);
    }
    Ok(readers)
}

/// Has this process as the reader of these nets.
fn note(process: usize, nets: &[usize], readers: &mut Vec<Option<usize>>)
    ensures length { length readers.new.items ≡ length readers.old.items }
    ensures each { (n : ℕ) → n < length readers.old.items
        → slice_index_or readers.new.items n None
        ≡ (if is_in n nets.now then Some process else slice_index_or readers.old.items n None) }
{
    for net in nets {
        if *net < readers.len() {
            readers[*net] = Some(process);
        }
    }
}
