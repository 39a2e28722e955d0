//! The nets of an instance's elements, and what these start with (IEEE 1076-2008, 6.4.2.3,
//! 6.5.6.3).

ghost use Rattle.std.specs.Prelude.{◌≡◌, ◌+◌, ◌≤◌, ◌-◌, ◌++◌, map, slice_index, IfOk, OnOk};
ghost use Rattle.std.specs.List.{range_with_len};
ghost use Rattle.rtl_net.specs.Limits.{most_nets};
ghost use Rattle.vhdl_elab_rules.specs.Numbering as numbering;
ghost use Rattle.vhdl_elab_rules.specs.Wiring as wiring;
ghost use Rattle.vhdl_expand_tree.specs.Views.{object_view};

use std::alloc::{AllocError, Global};
use vhdl_connect_processes::net_at;
use vhdl_expand_tree::Object;

/// What the elements of objects start with, in order of declaration. It takes the memory of the
/// list.
pub fn defaults_of(alloc: Global, objects: &[Object]) -> Result<Vec<u8>, AllocError>
    ensures { IfOk result (λ v. v.items ≡ wiring.defaults_of (map object_view objects.now)) }
{
    let mut defaults = Vec::new(alloc);
    for object in objects {
        defaults.extend_from_slice(object.starts.as_slice())?;
    }
    Ok(defaults)
}

/// The nets of the elements of objects, in order of declaration, where the elements of the instance
/// above have these nets, and the first net of their own has this number. It takes the memory of
/// the list.
pub fn element_nets(
    alloc: Global,
    above: &[u32],
    first: usize,
    objects: &[Object],
) -> Result<Vec<u32>, AllocError>
    requires { first + numbering.own_sizes (map object_view objects.now) ≤ most_nets }
    ensures { IfOk result (λ v. v.items ≡ numbering.element_nets above.now first (map object_view objects.now)) }
{
    let mut nets = Vec::new(alloc);
    let mut next = first;
    for object in objects {
        next = push_object(above, next, object, &mut nets)?;
    }
    Ok(nets)
}

/// Puts the nets of an object's elements behind others, and gives the number of the next net.
fn push_object(
    above: &[u32],
    first: usize,
    object: &Object,
    nets: &mut Vec<u32>,
) -> Result<usize, AllocError>
    requires { first + numbering.own_size (object_view object.now) ≤ most_nets }
    ensures next { IfOk result (λ next. next ≡ first + numbering.own_size (object_view object.now)) }
    ensures nets { OnOk result (nets.new.items ≡ nets.old.items
        ++ numbering.object_nets above.now first (object_view object.now)) }
{
    match &object.actual {
        Some(actual) => push_actual(above, first, actual, nets),
        None => push_own(first, object.kind.size(), nets),
    }
}

/// Puts the nets of an actual's elements behind others, and gives the number of the next net, which
/// stays the same.
fn push_actual(
    above: &[u32],
    first: usize,
    actual: &[usize],
    nets: &mut Vec<u32>,
) -> Result<usize, AllocError>
    ensures next { IfOk result (λ next. next ≡ first) }
    ensures nets { OnOk result (nets.new.items ≡ nets.old.items ++ map (slice_index above.now) actual.now) }
{
    for element in actual {
        nets.push(net_at(above, *element))?;
    }
    Ok(first)
}

/// Puts so many nets, from this one on, behind others, and gives the number of the next net.
fn push_own(first: usize, len: usize, nets: &mut Vec<u32>) -> Result<usize, AllocError>
    requires { first + len ≤ most_nets }
    ensures next { IfOk result (λ next. next ≡ first + len) }
    ensures nets { OnOk result (nets.new.items ≡ nets.old.items ++ range_with_len first len) }
{
    for k in 0..len {
        nets.push((first + k) as u32)?;
    }
    Ok(first + len)
}
