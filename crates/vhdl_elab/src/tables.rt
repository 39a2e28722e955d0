//! What is told of a design by its elements and their uses: inputs, idle out ports, and what is
//! refused of it as a whole (IEEE 1076-2008, 6.4.2.3, 6.5.6.3, 14.7.2).

ghost use Rattle.std.specs.Prelude.{◌≡◌, nat_le, length, IfOk};
ghost use Rattle.std.specs.List.{zip};
ghost use Rattle.vhdl_connect.specs.Held.{items_at};
ghost use Rattle.vhdl_elab.specs.Tables as tables;

use crate::made::{Element, ElementRole};
use rtl_net::IdlePort;
use smallvec::SmallVec;
use std::alloc::{AllocError, Global};
use vhdl_connect::{Sources, Use};

/// The nets of the top's in ports, in order. It takes the memory of the list.
pub fn inputs(alloc: Global, elements: &[Element]) -> Result<Vec<usize>, AllocError>
    ensures { IfOk result (λ v. v.items ≡ tables.inputs_in elements.now) }
{
    let mut inputs = Vec::new(alloc);
    for element in elements {
        if is_input_of_top(element) {
            inputs.push(element.net as usize)?;
        }
    }
    Ok(inputs)
}

/// Whether it is of an in port of the top.
fn is_input_of_top(element: &Element) -> bool
    ensures { result ≡ tables.is_input_of_top element.now }
{
    match element.role {
        ElementRole::InputOfTop => true,
        _ => false,
    }
}

/// The out ports' elements below the top without a source in their instance, in order. It takes the
/// memory of the list.
pub fn idle_ports(
    alloc: Global,
    elements: &[Element],
    uses: &[Use],
) -> Result<Vec<IdlePort>, AllocError>
    requires { length uses.now ≡ length elements.now }
    ensures { IfOk result (λ v. v.items ≡ tables.idle_in (zip elements.now uses.now)) }
{
    let mut idle = Vec::new(alloc);
    for i in 0..elements.len() {
        if is_idle(&elements[i], &uses[i]) {
            idle.push(idle_port(&elements[i]))?;
        }
    }
    Ok(idle)
}

/// Whether it is of an out port below the top, and has no source in its instance.
fn is_idle(element: &Element, used: &Use) -> bool
    ensures { result ≡ tables.is_idle (element.now, used.now) }
{
    match (element.role, used.sources) {
        (ElementRole::Output, Sources::Zero) => true,
        (_, _) => false,
    }
}

/// What it holds for ever.
fn idle_port(element: &Element) -> IdlePort
    ensures { result ≡ tables.idle_port element.now }
{
    IdlePort {
        net: element.net as usize,
        start: element.start,
    }
}

/// Where the first unresolved element with several sources of its own is declared.
pub fn two_unresolved(elements: &[Element], uses: &[Use]) -> Option<usize>
    requires { length uses.now ≡ length elements.now }
    ensures { result ≡ tables.first_at tables.is_two_unresolved (zip elements.now uses.now) }
{
    for i in 0..elements.len() {
        if is_two_unresolved(&elements[i], &uses[i]) {
            return Some(elements[i].at);
        }
    }
    None
}

/// Whether it is unresolved, and has several sources of its own.
fn is_two_unresolved(element: &Element, used: &Use) -> bool
    ensures { result ≡ tables.is_two_unresolved (element.now, used.now) }
{
    match used.sources {
        Sources::Several => !element.is_resolved,
        Sources::One => false,
        Sources::Zero => false,
    }
}

/// Where the first element of an out port is declared that is read in its instance, and whose net
/// has several sources, where the sources of each net hold these values.
pub fn read_of_shared(elements: &[Element], uses: &[Use], held: &[SmallVec<u8, 1>]) -> Option<usize>
    requires { length uses.now ≡ length elements.now }
    ensures { result ≡ tables.first_at (tables.is_read_of_shared held.now) (zip elements.now uses.now) }
{
    for i in 0..elements.len() {
        if is_read_of_shared(&elements[i], &uses[i], held) {
            return Some(elements[i].at);
        }
    }
    None
}

/// Whether it is of an out port that is read in its instance, and its net has several sources.
fn is_read_of_shared(element: &Element, used: &Use, held: &[SmallVec<u8, 1>]) -> bool
    ensures { result ≡ tables.is_read_of_shared held.now (element.now, used.now) }
{
    match element.role {
        ElementRole::OutputOfTop | ElementRole::Output => {
            used.is_read && is_shared(held, element.net as usize)
        }
        _ => false,
    }
}

/// Whether a net has several sources.
fn is_shared(held: &[SmallVec<u8, 1>], net: usize) -> bool
    ensures { result ≡ nat_le 2 (length (items_at held.now net)) }
{
    match held.get(net) {
        Some(values) => values.len() >= 2,
        None => false,
    }
}
