//! Which elements of variables a register's body keeps.

ghost use Rattle.std.specs.Prelude.{◌≡◌, ◌==◌, ◌+◌, ◌<◌, ◌^◌, true, false, map, replicate, IfOk, OnOk};
ghost use Rattle.std.specs.List.{list_any, range_with_len};
ghost use Rattle.rtl_net.specs.Bodies.{statements_of};
ghost use Rattle.rtl_net.specs.Indices.{numbers};
ghost use Rattle.rtl_variable_registers.specs.Bodies.{is_register, keeps_element};
ghost use Rattle.rtl_kept_bodies.specs.Rules.{byte_of};
ghost use Rattle.rtl_kept_bodies.specs.Steps.{Marked, Marks};

use crate::forms::replace_reset;
use crate::sets::mark_all_set;
use rtl_net::{Indices, Statement};
use rtl_stored::stored_elements;
use std::alloc::{AllocError, Global};

/// So many flags that aren't set.
pub(crate) fn no_flags(alloc: Global, many: usize) -> Result<Vec<bool>, AllocError>
    ensures { IfOk result (λ v. v.items ≡ replicate many false) }
{
    vec![in alloc; false; many]
}

/// Marks the element of this number, if it is there.
fn mark(element: usize, marks: &mut [bool])
    ensures { Marked (λ e. element == e) marks.old marks.new }
{
    if element < marks.len() {
        marks[element] = true;
    }
}

/// Marks so many elements from this one on.
fn mark_run(first: usize, len: usize, marks: &mut [bool])
    requires { first + len < 2 ^ 64 }
    ensures { Marked (λ e. list_any (λ d. d == e) (range_with_len first len)) marks.old marks.new }
{
    for k in 0..len {
        mark(first + k, marks);
    }
}

/// Marks these elements.
fn mark_listed(elements: &[u32], marks: &mut [bool])
    ensures { Marked (λ e. list_any (λ d. d == e) elements.now) marks.old marks.new }
{
    for element in elements {
        mark(*element as usize, marks);
    }
}

/// Marks the elements of a name.
pub(crate) fn mark_named(elements: &Indices, marks: &mut [bool])
    ensures { Marked (λ e. list_any (λ d. d == e) (numbers elements.now)) marks.old marks.new }
{
    match elements {
        Indices::Run { first, len } => mark_run(*first as usize, *len as usize, marks),
        Indices::List(listed) => mark_listed(listed.as_slice(), marks),
    }
}

/// Of so many elements of variables, whether a register's body keeps each. Its reset's branch is
/// taken out meanwhile.
pub(crate) fn kept_elements(
    alloc: Global,
    body: &mut [Statement],
    many: usize,
) -> Result<Vec<bool>, AllocError>
    requires { is_register (statements_of body.old) ≡ true }
    ensures same { OnOk result (statements_of body.new ≡ statements_of body.old) }
    ensures bytes { OnOk result (map byte_of body.new ≡ map byte_of body.old) }
    ensures are { IfOk result (λ v. Marks many (keeps_element (statements_of body.old)) v.items) }
{
    let reset = replace_reset(alloc, body, Vec::new(alloc));
    let mut marks = stored_elements(alloc, body, many)?;
    mark_all_set(&reset, &mut marks);
    let _nothing = replace_reset(alloc, body, reset);
    Ok(marks)
}
