//! The nets that resume a process (IEEE 1076-2008, 11.3, 11.6).

ghost use Rattle.std.specs.Prelude.{◌≡◌, ℕ, ◌↔◌, Contains, map, slice_index, IfOk};
ghost use Rattle.std.specs.List.Sorted.{IsStrictlyIncreasing};
ghost use Rattle.rtl_model.specs.bodies.Reads.{reads};
ghost use Rattle.vhdl_expand_rules.specs.Tree as tree;
ghost use Rattle.vhdl_elab_rules.specs.Wiring.{sensitive_to};
ghost use Rattle.vhdl_expand_tree.specs.Views.{sensitivity_view};
ghost use Rattle.vhdl_connect_processes.specs.Woken.{IsInOrder};

use crate::connection::Connection;
use rtl_body_facts::order_once;
use smallvec::SmallVec;
use std::alloc::{AllocError, Global};
use vhdl_expand_tree::Sensitivity;

/// The nets of elements. It takes the memory of the list.
fn nets_of(connection: &Connection, elements: &[usize]) -> Result<Vec<usize>, AllocError>
    ensures { IfOk result (λ v. v.items ≡ map (slice_index connection.now.nets.now) elements.now) }
{
    let mut found = Vec::new(connection.alloc);
    for element in elements {
        found.push(connection.net(*element) as usize)?;
    }
    Ok(found)
}

/// These numbers as a short list. It takes the memory of the list, where they are more than two.
fn short(alloc: Global, numbers: &[usize]) -> Result<SmallVec<usize, 2>, AllocError>
    ensures { IfOk result (λ v. v.items ≡ numbers.now) }
{
    let mut copied = SmallVec::new(alloc);
    for number in numbers {
        copied.push(*number)?;
    }
    Ok(copied)
}

/// The nets of elements, rising, each once. It takes the memory of their list, and at most as much
/// again to put it in order.
fn nets_in_order(
    connection: &Connection,
    elements: &[usize],
) -> Result<SmallVec<usize, 2>, AllocError>
    ensures { IfOk result (λ v. IsInOrder (map (slice_index connection.now.nets.now) elements.now) v.items) }
{
    let mut found = nets_of(connection, elements)?;
    order_once(connection.alloc, &mut found)?;
    short(connection.alloc, &found)
}

/// The nets that a process is sensitive to, rising, each once, where its body reads these nets:
/// those of a list's names, of all names that it reads, or those that it reads. It takes the memory
/// of the list, at most as much again to put it in order, and time to do so.
pub fn wakes(
    connection: &Connection,
    sensitivity: &Sensitivity,
    nets_read: &[usize],
) -> Result<SmallVec<usize, 2>, AllocError>
    requires rise { IsStrictlyIncreasing nets_read.now }
    ensures { (p : tree.Process) → p.sensitivity ≡ sensitivity_view sensitivity.now
        → ((n : ℕ) → Contains nets_read.now n ↔ Contains (map (slice_index connection.now.nets.now) (reads p.body)) n)
        → IfOk result (λ v. IsInOrder (map (slice_index connection.now.nets.now) (sensitive_to p)) v.items) }
{
    match sensitivity {
        Sensitivity::Listed(elements) => nets_in_order(connection, elements),
        Sensitivity::Every(elements) => nets_in_order(connection, elements),
        Sensitivity::AsRead => short(connection.alloc, nets_read),
    }
}
