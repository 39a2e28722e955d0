//! Labels of generates before the labels in them.

ghost use Rattle.std.specs.Prelude.{◌≡◌, ◌++◌, codes, IfOk, OnOk};
ghost use Rattle.std.specs.Fmt.{signed_decimal};
ghost use Rattle.vhdl_expand_rules.specs.Expansion.{with_dot};

use itoa::Buffer;
use std::alloc::{AllocError, Global};

/// Appends `label(i)`, as a turn of a for generate is named.
fn push_turn(prefix: &mut Vec<u8>, label: &[u8], parameter: i32) -> Result<(), AllocError>
    ensures { OnOk result (prefix.new.items ≡ prefix.old.items
        ++ with_dot (label.now ++ (codes "(" ++ (signed_decimal parameter ++ codes ")")))) }
{
    let mut buffer = Buffer::new();
    prefix.extend_from_slice(label)?;
    prefix.extend_from_slice(b"(")?;
    prefix.extend_from_slice(buffer.format(parameter).as_bytes())?;
    prefix.extend_from_slice(b").")?;
    Ok(())
}

/// The labels round what stands in a turn of a for generate, and that generate's own with the value
/// of its parameter. It takes the memory of the text.
#[inline(never)]
pub(crate) fn turn_prefix(
    alloc: Global,
    outer: &[u8],
    label: &[u8],
    parameter: i32,
) -> Result<Vec<u8>, AllocError>
    ensures { IfOk result (λ v. v.items ≡ outer.now
        ++ with_dot (label.now ++ (codes "(" ++ (signed_decimal parameter ++ codes ")")))) }
{
    let mut prefix = outer.to_vec(alloc)?;
    push_turn(&mut prefix, label, parameter)?;
    Ok(prefix)
}

/// The labels round what stands in an if generate, and that generate's own. It takes the memory of
/// the text.
#[inline(never)]
pub(crate) fn branch_prefix(
    alloc: Global,
    outer: &[u8],
    label: &[u8],
) -> Result<Vec<u8>, AllocError>
    ensures { IfOk result (λ v. v.items ≡ outer.now ++ with_dot label.now) }
{
    let mut prefix = outer.to_vec(alloc)?;
    prefix.extend_from_slice(label)?;
    prefix.extend_from_slice(b".")?;
    Ok(prefix)
}

/// The label of an instance behind those of the generates round it. It takes the memory of the
/// text.
pub(crate) fn labelled(alloc: Global, outer: &[u8], label: &[u8]) -> Result<Vec<u8>, AllocError>
    ensures { IfOk result (λ v. v.items ≡ outer.now ++ label.now) }
{
    let mut name = outer.to_vec(alloc)?;
    name.extend_from_slice(label)?;
    Ok(name)
}
