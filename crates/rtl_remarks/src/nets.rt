//! Remarks on nets.

ghost use Rattle.std.specs.Prelude.{◌≡◌, ◌<◌, ◌++◌, length, map, OnOk};
ghost use Rattle.std.specs.List.{list_any};
ghost use Rattle.std.specs.Option.{option_to_list};
ghost use Rattle.rtl_net.specs.Nets.{source_view};
ghost use Rattle.rtl_remarks.specs.Remarks as spec;
ghost use Rattle.rtl_remarks.specs.Tables.{IsKnown};

use crate::known::Known;
use crate::remark::{Remark, RemarkKind};
use rtl_body_facts::contains_rising;
use rtl_net::{Net, NoMemory, Source};

/// Whether nothing drives a net, and it is no in port of the top.
fn has_no_driver(net: &Net, number: usize) -> bool
    requires there { number < length net.now.types }
    ensures { result ≡ spec.has_no_driver net.now number }
{
    net.is_elaborated();
    !contains_rising(net.inputs(), number) && net.sources(number).is_empty()
}

/// The remark on a signal's net that nothing drives and that a process reads.
fn undriven(net: &Net, known: &Known, number: usize) -> Option<Remark>
    requires known { IsKnown net.now known.now }
    requires there { number < length net.now.types }
    ensures { option_to_list result ≡ spec.undriven net.now number }
{
    if !contains_rising(&known.signals, number) || !has_no_driver(net, number) {
        return None;
    }
    let process = known.readers[number]?;
    Some(Remark::at_process(RemarkKind::Undriven, process, number))
}

/// The remark on a net of a port of the top that nothing drives.
fn unassigned(net: &Net, known: &Known, number: usize) -> Option<Remark>
    requires known { IsKnown net.now known.now }
    requires there { number < length net.now.types }
    ensures { option_to_list result ≡ spec.unassigned net.now number }
{
    if contains_rising(&known.ports, number) && has_no_driver(net, number) {
        return Some(Remark::at_net(RemarkKind::Unassigned, number));
    }
    None
}

/// Whether a source is an out port that nothing drives.
fn is_idle(source: Source) -> bool
    ensures { result ≡ spec.is_idle (source_view source) }
{
    match source {
        Source::Driven { .. } => false,
        Source::Idle { .. } => true,
    }
}

/// Whether one of these is.
fn has_idle(sources: &[Source]) -> bool
    ensures { result ≡ list_any spec.is_idle (map source_view sources.now) }
{
    for source in sources {
        if is_idle(*source) {
            return true;
        }
    }
    false
}

/// The remark on a net that an idle port drives.
fn idle(net: &Net, number: usize) -> Option<Remark>
    requires there { number < length net.now.types }
    ensures { option_to_list result ≡ spec.idle net.now number }
{
    if has_idle(net.sources(number)) {
        return Some(Remark::at_net(RemarkKind::IdlePort, number));
    }
    None
}

/// The remark on a net that nothing reads, of an in port of the top of which another element is
/// read.
fn unread(net: &Net, known: &Known, number: usize) -> Option<Remark>
    requires known { IsKnown net.now known.now }
    requires there { number < length net.now.types }
    ensures { option_to_list result ≡ spec.unread net.now number }
{
    net.is_elaborated();
    if contains_rising(net.inputs(), number)
        && contains_rising(&known.read_ports, number)
        && known.readers[number].is_none()
    {
        return Some(Remark::at_net(RemarkKind::UnreadElement, number));
    }
    None
}

/// The remark of a kind on a net.
fn on_net(net: &Net, known: &Known, kind: RemarkKind, number: usize) -> Option<Remark>
    requires known { IsKnown net.now known.now }
    requires there { number < length net.now.types }
    ensures { option_to_list result ≡ spec.on_net net.now kind number }
{
    match kind {
        RemarkKind::Undriven => undriven(net, known, number),
        RemarkKind::Unassigned => unassigned(net, known, number),
        RemarkKind::IdlePort => idle(net, number),
        RemarkKind::UnreadElement => unread(net, known, number),
        _ => None,
    }
}

/// Appends a remark, if there is one.
fn push_told(told: Option<Remark>, remarks: &mut Vec<Remark>) -> Result<(), NoMemory>
    ensures { OnOk result (remarks.new.items ≡ remarks.old.items ++ option_to_list told) }
{
    if let Some(remark) = told {
        remarks.push(remark)?;
    }
    Ok(())
}

/// Appends the remarks of a kind on nets.
pub(crate) fn push_on_nets(
    net: &Net,
    known: &Known,
    kind: RemarkKind,
    remarks: &mut Vec<Remark>,
) -> Result<(), NoMemory>
    requires { IsKnown net.now known.now }
    ensures { OnOk result (remarks.new.items ≡ remarks.old.items ++ spec.on_nets net.now kind) }
{
    for number in 0..net.nets() {
        push_told(on_net(net, known, kind, number), remarks)?;
    }
    Ok(())
}
