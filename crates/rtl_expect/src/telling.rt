//! The line that tells what differs.

ghost use Rattle.std.specs.Prelude.{◌≡◌, ◌≤◌, length, slice_get, slice_index};
ghost use Rattle.vhdl_values.specs.Scalar.{letter_of, value_of_code};
ghost use Rattle.byte_streams.specs.Written.{Goes};
ghost use Rattle.rtl_expect.specs.Telling as spec;
ghost use Rattle.rtl_expect.specs.Watching.{difference_view, told_view};

use crate::difference::{Codes, Difference, FirstDifferences};
use byte_streams::{Sink, push_number, push_text};
use rtl_net::{Net, SignalKind, value_text};
use rtl_signal_names::push_name;
use vhdl_values::Nine;

/// Writes the line that tells the first difference. It takes no memory.
pub fn push_first<S: Sink>(net: &Net, differences: &FirstDifferences, sink: &mut S)
    ensures { Goes (S.state sink.old) (S.state sink.new) (spec.first_line net.now (told_view differences.now)) }
{
    if differences.told.is_empty() {
        return;
    }
    push_difference(net, &differences.told[0], sink);
}

/// Writes the line that tells a difference from what a netlist's signals were expected to be:
/// `rtlsim: expect 1 Differs TIME NAME is VALUE line LINE`, the time in ns, or `rtlsim: expect 2
/// AfterStop line LINE`.
fn push_difference<S: Sink>(net: &Net, difference: &Difference, sink: &mut S)
    ensures { Goes (S.state sink.old) (S.state sink.new)
        (spec.difference_line net.now (difference_view difference.now)) }
{
    push_text(sink, b"rtlsim: expect ");
    push_differing(net, difference, sink);
    push_text(sink, b" line ");
    push_number(sink, difference.line as u64);
    push_text(sink, b"\n");
}

/// Writes what differs.
fn push_differing<S: Sink>(net: &Net, difference: &Difference, sink: &mut S)
    ensures { Goes (S.state sink.old) (S.state sink.new)
        (spec.difference_text net.now (difference_view difference.now) (difference_view difference.now).found) }
{
    match &difference.found {
        None => push_text(sink, b"2 AfterStop"),
        Some(found) => {
            push_text(sink, b"1 Differs ");
            push_found(net, difference.time, difference.signal, found, sink);
        }
    }
}

/// Writes what was found of the signal of this number at a time.
fn push_found<S: Sink>(net: &Net, time: u64, number: usize, found: &Codes, sink: &mut S)
    ensures { Goes (S.state sink.old) (S.state sink.new)
        (spec.of_signal_found net.now time (slice_get net.now.signals number) found.now.items) }
{
    net.is_elaborated();
    let Some(signal) = net.signals().get(number) else {
        return;
    };
    push_number(sink, time);
    push_text(sink, b" ");
    push_name(net.scopes(), signal, sink);
    push_text(sink, b" is ");
    push_value(signal.kind, found, sink);
}

/// Writes the value of a signal of this kind.
fn push_value<S: Sink>(kind: SignalKind, found: &Codes, sink: &mut S)
    ensures { Goes (S.state sink.old) (S.state sink.new) (spec.found_text kind found.now.items) }
{
    match kind {
        SignalKind::Enumeration { .. } => push_number(sink, position(found)),
        _ => push_text(sink, &value_text(kind, found)),
    }
}

/// The position that the first of these codes is.
pub(crate) fn position(found: &[u8]) -> u64
    ensures { result ≡ slice_index found.now 0 }
{
    u64::from(found.first().copied().unwrap_or(0))
}

/// The letter of the value with this code.
pub(crate) fn letter(code: u8) -> u8
    ensures { result ≡ letter_of (value_of_code code) }
{
    Nine::from_code(code).unwrap_or(Nine::X).byte()
}
