//! The nets that are an object's own, and no actual's: their types, and what they start with (IEEE
//! 1076-2008, 6.4.2.3, 6.5.6.3).

ghost use Rattle.std.specs.Prelude.{◌≡◌, ◌++◌, map, replicate, slice_index, OnOk};
ghost use Rattle.std.specs.List.{range_with_len};
ghost use Rattle.rtl_net.specs.Nets.{type_of};
ghost use Rattle.vhdl_expand_rules.specs.Kinds.{size, element_type};
ghost use Rattle.vhdl_expand_rules.specs.views.Kinds.{kind_view};
ghost use Rattle.vhdl_expand_tree.specs.Views.{object_view};
ghost use Rattle.vhdl_elab.specs.Adding.{own_starts, own_types};

use rtl_net::NetKind;
use std::alloc::AllocError;
use vhdl_expand_rules::ObjectKind;
use vhdl_expand_tree::Object;

/// What an element starts with.
pub(crate) fn start_at(starts: &[u8], element: usize) -> u8
    ensures { result ≡ slice_index starts.now element }
{
    match starts.get(element) {
        Some(start) => *start,
        None => 0,
    }
}

/// The type of the nets of an object of this kind.
fn net_kind(kind: ObjectKind) -> NetKind
    ensures { type_of result ≡ element_type (kind_view kind) }
{
    match kind {
        ObjectKind::One => NetKind::Nine,
        ObjectKind::Vector(_) => NetKind::Nine,
        ObjectKind::Integer(_) => NetKind::Nine,
        ObjectKind::Boolean => NetKind::Nine,
        ObjectKind::Enumeration(count) => NetKind::Enumeration {
            count: count as u32,
        },
    }
}

/// Puts the types of the nets of an object of this kind behind others.
fn push_kinds(kinds: &mut Vec<NetKind>, kind: ObjectKind) -> Result<(), AllocError>
    ensures { OnOk result (map type_of kinds.new.items ≡ map type_of kinds.old.items
        ++ replicate (size (kind_view kind)) (element_type (kind_view kind))) }
{
    let net = net_kind(kind);
    for _ in 0..kind.size() {
        kinds.push(net)?;
    }
    Ok(())
}

/// Puts what so many elements start with behind others.
fn push_defaults(defaults: &mut Vec<u8>, starts: &[u8], len: usize) -> Result<(), AllocError>
    ensures { OnOk result (defaults.new.items ≡ defaults.old.items
        ++ map (slice_index starts.now) (range_with_len 0 len)) }
{
    for k in 0..len {
        defaults.push(start_at(starts, k))?;
    }
    Ok(())
}

/// Puts the types of the nets that are an object's own behind others.
pub(crate) fn push_own_kinds(kinds: &mut Vec<NetKind>, object: &Object) -> Result<(), AllocError>
    ensures { OnOk result (map type_of kinds.new.items ≡ map type_of kinds.old.items
        ++ own_types (object_view object.now)) }
{
    match &object.actual {
        Some(_) => Ok(()),
        None => push_kinds(kinds, object.kind),
    }
}

/// Puts what the nets that are an object's own start with behind others.
pub(crate) fn push_own_defaults(defaults: &mut Vec<u8>, object: &Object) -> Result<(), AllocError>
    ensures { OnOk result (defaults.new.items ≡ defaults.old.items ++ own_starts (object_view object.now)) }
{
    match &object.actual {
        Some(_) => Ok(()),
        None => push_defaults(defaults, object.starts.as_slice(), object.kind.size()),
    }
}
