//! Which nets begin a group.

ghost use Rattle.std.specs.Prelude.{◌≡◌, ◌+◌, ◌-◌, ◌<◌, ℕ, false, All, length, slice_index, IfOk};
ghost use Rattle.rtl_net_groups.specs.steps.Marks.{IsMarked, KeepsMarks, AreListedAlike, AreDeclaredAlike, AreMarkedApart};

use crate::lists::Lists;
use std::alloc::{AllocError, Global};

/// Whether each net begins a group, which it does where it isn't like the net before it.
pub fn beginnings(
    alloc: Global,
    declared: &[usize],
    nets_of: &Lists<usize>,
) -> Result<Vec<bool>, AllocError>
    requires there { All (λ nets. All (λ n. n < length declared.now) nets) nets_of.now }
    ensures as_many { IfOk result (λ begins. length begins.items ≡ length declared.now) }
    ensures first { IfOk result (λ begins. IsMarked begins.items 0) }
    ensures apart { IfOk result (λ begins. AreMarkedApart begins.items declared.now nets_of.now) }
{
    let mut begins = by_declaration(alloc, declared)?;
    for process in 0..nets_of.count() {
        mark_ends(&mut begins, nets_of.get(process));
    }
    Ok(begins)
}

/// Whether each net is the first of its declaration, as they stand.
fn by_declaration(alloc: Global, declared: &[usize]) -> Result<Vec<bool>, AllocError>
    ensures as_many { IfOk result (λ begins. length begins.items ≡ length declared.now) }
    ensures first { IfOk result (λ begins. IsMarked begins.items 0) }
    ensures alike { IfOk result (λ begins. AreDeclaredAlike begins.items declared.now) }
{
    let mut begins = Vec::with_capacity(alloc, declared.len())?;
    for net in 0..declared.len() {
        begins.push(is_another(declared, net))?;
    }
    Ok(begins)
}

/// Whether a net is the first, or of another declaration than the one before it.
fn is_another(declared: &[usize], net: usize) -> bool
    requires { net < length declared.now }
    ensures { result ≡ false → (0 < net) × (slice_index declared.now (net - 1) ≡ slice_index declared.now net) }
{
    net == 0 || declared[net - 1] != declared[net]
}

/// Marks where runs of nets in this list begin, and what follows them.
fn mark_ends(begins: &mut Vec<bool>, nets: &[usize])
    requires there { All (λ n. n < length begins.old.items) nets.now }
    ensures kept { KeepsMarks begins.old.items begins.new.items }
    ensures alike { AreListedAlike begins.new.items nets.now }
{
    let mut expected = 0;
    for net in nets {
        if *net != expected {
            mark(begins, expected);
            mark(begins, *net);
        }
        expected = *net + 1;
    }
    mark(begins, expected);
}

/// Marks a net, if it is there.
fn mark(begins: &mut Vec<bool>, net: usize)
    ensures kept { KeepsMarks begins.old.items begins.new.items }
    ensures marked { IsMarked begins.new.items net }
{
    if net < begins.len() {
        begins[net] = true;
    }
}
