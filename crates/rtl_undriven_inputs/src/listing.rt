//! All remarks on a stimulus.

ghost use Rattle.std.specs.Prelude.{◌≡◌, ◌<◌, ◌++◌, not, ◌&&◌, length, IfOk, OnOk};
ghost use Rattle.std.specs.List.Sorted.{IsStrictlyIncreasing};
ghost use Rattle.rtl_body_facts.specs.Reading.{is_in};
ghost use Rattle.rtl_remarks.specs.Remarks.{is_clock, of_nets};
ghost use Rattle.rtl_remarks.specs.Tables.{AreThose};
ghost use Rattle.rtl_undriven_inputs.specs.Naming as spec;

use crate::ports::named_nets;
use rtl_body_facts::contains_rising;
use rtl_net::{Net, NoMemory};
use rtl_remarks::{Remark, RemarkKind, clocks_of, is_chosen};
use std::alloc::Global;

/// The remarks on the stimulus of this text: the clocks that none of its lines drives, and then the
/// other inputs, each by net. It takes time in proportion to the netlist and the text, but for the
/// logarithms of sorted lists, and memory for lists of nets and for the lines.
pub fn stimulus_remarks(alloc: Global, net: &Net, text: &[u8]) -> Result<Vec<Remark>, NoMemory>
    ensures { IfOk result (λ remarks. remarks.items ≡ spec.stimulus_remarks_of net.now text.now) }
{
    let named = named_nets(alloc, net, text)?;
    let clocks = clocks_of(alloc, net)?;
    let mut remarks = Vec::new(alloc);
    push_inputs(net, &named, &clocks, true, &mut remarks)?;
    push_inputs(net, &named, &clocks, false, &mut remarks)?;
    Ok(remarks)
}

/// Whether a net is an input that isn't among these.
fn is_without_line(net: &Net, named: &[usize], number: usize) -> bool
    requires rise { IsStrictlyIncreasing named.now }
    ensures { result ≡ (is_in number net.now.inputs && not (is_in number named.now)) }
{
    net.is_elaborated();
    contains_rising(net.inputs(), number) && !contains_rising(named, number)
}

/// The kind of a remark on a clock, or on another input.
fn kind_of(clock: bool) -> RemarkKind
    ensures { result ≡ spec.kind_of clock }
{
    if clock {
        RemarkKind::ClockWithoutLine
    } else {
        RemarkKind::InputWithoutLine
    }
}

/// Appends the remark on a net, if it is a clock that isn't among these, or another input.
fn push_input(
    net: &Net,
    named: &[usize],
    clocks: &[usize],
    clock: bool,
    number: usize,
    remarks: &mut Vec<Remark>,
) -> Result<(), NoMemory>
    requires rise { IsStrictlyIncreasing named.now }
    requires clocks { AreThose (is_clock net.now) clocks.now }
    ensures { OnOk result (remarks.new.items
        ≡ remarks.old.items ++ spec.without net.now clock (λ n. is_in n named.now) number) }
{
    if is_without_line(net, named, number) && is_chosen(clocks, number, clock) {
        remarks.push(Remark::at_net(kind_of(clock), number))?;
    }
    Ok(())
}

/// Appends the remarks on clocks that aren't among these, or on other inputs.
fn push_inputs(
    net: &Net,
    named: &[usize],
    clocks: &[usize],
    clock: bool,
    remarks: &mut Vec<Remark>,
) -> Result<(), NoMemory>
    requires rise { IsStrictlyIncreasing named.now }
    requires clocks { AreThose (is_clock net.now) clocks.now }
    ensures { OnOk result (remarks.new.items ≡ remarks.old.items
        ++ of_nets (spec.without net.now clock (λ n. is_in n named.now)) (length net.now.types)) }
{
    for number in 0..net.nets() {
        push_input(net, named, clocks, clock, number, remarks)?;
    }
    Ok(())
}
