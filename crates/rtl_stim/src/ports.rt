//! The inputs of a netlist.

ghost use Rattle.std.specs.Prelude.{◌≡◌, ◌<◌, ◌≤◌, All, length, map, option_map, slice_get, Some, IfOk};
ghost use Rattle.rtl_net.specs.Nets.{signal_view};
ghost use Rattle.rtl_stim_lines.specs.View as kept;
ghost use Rattle.rtl_stim_lines.specs.Inputs.{small};
ghost use Rattle.rtl_stim.specs.Ports as ports;
ghost use Rattle.rtl_stim.specs.Ports.{HasOwnPorts, element_on, input_of};

use indexmap::IndexMap;
use rtl_net::{Net, Signal, SignalKind};
use rtl_stim_lines::{Element, Input, InputTable, ValueType, add_input};
use std::alloc::{AllocError, Global};
use vhdl_values::Nine;

/// The in ports of the top, in order of declaration. It takes memory for each.
pub fn inputs_of(alloc: Global, net: &Net) -> Result<InputTable, AllocError>
    requires { HasOwnPorts net.now }
    ensures { IfOk result (λ inputs. kept.inputs_view inputs ≡ ports.inputs_of net.now) }
{
    net.is_elaborated();
    let mut inputs = IndexMap::new(alloc);
    for signal in net.signals() {
        if is_in_port(net, signal) {
            add_input(
                alloc,
                &mut inputs,
                &signal.name,
                input_of(alloc, net, signal)?,
            )?;
        }
    }
    Ok(inputs)
}

/// Whether a signal is an in port of the top.
fn is_in_port(net: &Net, signal: &Signal) -> bool
    requires some { 1 ≤ length signal.now.nets.items }
    ensures { result ≡ ports.is_in_port net.now (signal_view signal.now) }
{
    signal.scope == 0 && signal.port && is_input(net, signal.nets[0])
}

/// Whether a net is an input.
fn is_input(net: &Net, number: usize) -> bool
    ensures { result ≡ ports.is_input net.now number }
{
    net.is_elaborated();
    net.inputs().binary_search(&number).is_ok()
}

/// An in port as an input.
fn input_of(alloc: Global, net: &Net, port: &Signal) -> Result<Input, AllocError>
    requires { All (λ n. n < length net.now.types) port.now.nets.items }
    ensures { IfOk result (λ input. kept.named_input (small port.now.name.items) input ≡
        input_of net.now (signal_view port.now)) }
{
    Ok(Input {
        is_scalar: matches!(port.kind, SignalKind::One),
        values: value_type(port.kind),
        elements: elements_of(alloc, net, &port.nets)?,
    })
}

/// What the values of a port of this kind are.
fn value_type(kind: SignalKind) -> ValueType
    ensures { kept.value_type_view result ≡ ports.value_type kind }
{
    match kind {
        SignalKind::Integer { least, greatest } => ValueType::Integers { least, greatest },
        SignalKind::Boolean => ValueType::Truths,
        SignalKind::One | SignalKind::Vector { .. } | SignalKind::Enumeration { .. } => {
            ValueType::Nines
        }
    }
}

/// The elements with these nets.
fn elements_of(alloc: Global, net: &Net, nets: &[usize]) -> Result<Vec<Element>, AllocError>
    requires { All (λ n. n < length net.now.types) nets.now }
    ensures { IfOk result (λ elements. map kept.element_view elements.items ≡ map (element_on net.now) nets.now) }
{
    let mut elements = Vec::with_capacity(alloc, nets.len())?;
    for number in nets {
        let start = Nine::from_code(net.start(*number)).unwrap_or(Nine::X);
        elements.push(Element {
            net: *number,
            start,
        })?;
    }
    Ok(elements)
}

/// The elements of the input at a place, from the left.
pub fn elements_at(inputs: &InputTable, place: usize) -> &[Element]
    requires { place < length (kept.inputs_view inputs.now) }
    ensures { option_map (λ input. input.elements) (slice_get (kept.inputs_view inputs.now) place) ≡
        Some (map kept.element_view result.now) }
{
    match inputs.get_index(place) {
        Some((_, input)) => input.elements.as_slice(),
        None => &[],
    }
}
