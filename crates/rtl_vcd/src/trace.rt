//! The parts of a trace behind its header.

ghost use Rattle.std.specs.Prelude.{◌≡◌, ◌++◌, if◌then◌else◌, All, length, map, OnOk, OnErr, IfOk};
ghost use Rattle.byte_streams.specs.Written.{IsIntact, HasFailed, Goes};
ghost use Rattle.rtl_net.specs.Nets.{signal_view};
ghost use Rattle.rtl_net.specs.Showing.{IsShown};
ghost use Rattle.rtl_vcd_values.specs.Values.{numbered};
ghost use Rattle.rtl_vcd.specs.Trace.{printed, changes, time_line, first_text, stamped, are_some, moment_text, end_text};

use crate::change::change_line;
use crate::fault::VcdFault;
use byte_streams::{Sink, finish, push_number, push_text};
use rtl_net::{Shown, Signal};

/// Writes what every name that is shown prints at 0, where the nets have these values, one for each
/// net. Takes no memory.
///
/// # Errors
///
/// `Write` where the sink failed: what went out is a beginning of the text.
pub fn first<W: Sink>(shown: Shown<'_>, values: &[u8], out: &mut W) -> Result<(), VcdFault>
    requires intact { IsIntact (W.state out.old) }
    requires valuation { length values.now ≡ length shown.net.now.types }
    ensures text { Goes (W.state out.old) (W.state out.new)
        (first_text (map signal_view shown.entry.signals.now) values.now) }
    ensures ok { OnOk result (IsIntact (W.state out.new)) }
    ensures err { OnErr result (HasFailed (W.state out.new)) }
{
    push_time(out, 0);
    push_text(out, b"$dumpvars\n");
    push_all(shown.signals, values, out);
    push_text(out, b"$end\n");
    written(out)
}

/// Writes the time of the stop where the last time printed is before it. Takes no memory.
///
/// # Errors
///
/// `Write` where the sink failed: what went out is a beginning of the text.
pub fn end<W: Sink>(last: u64, stop: u64, out: &mut W) -> Result<(), VcdFault>
    requires intact { IsIntact (W.state out.old) }
    ensures text { Goes (W.state out.old) (W.state out.new) (end_text last stop) }
    ensures ok { OnOk result (IsIntact (W.state out.new)) }
    ensures err { OnErr result (HasFailed (W.state out.new)) }
{
    if last < stop {
        push_time(out, stop);
    }
    written(out)
}

/// The answer of a call that wrote.
pub(crate) fn written<W: Sink>(out: &W) -> Result<(), VcdFault>
    ensures ok { OnOk result (IsIntact (W.state out.now)) }
    ensures err { OnErr result (HasFailed (W.state out.now)) }
{
    match finish(out) {
        Ok(()) => Ok(()),
        Err(_) => Err(VcdFault::Write),
    }
}

/// `#`, the time and a line feed.
pub(crate) fn push_time<W: Sink>(out: &mut W, time: u64)
    ensures { Goes (W.state out.old) (W.state out.new) (time_line time) }
{
    push_text(out, b"#");
    push_number(out, time);
    push_text(out, b"\n");
}

/// What each of the names prints.
fn push_all<W: Sink>(signals: &[Signal], values: &[u8], out: &mut W)
    requires shown { All (IsShown (length values.now)) (map signal_view signals.now) }
    ensures { Goes (W.state out.old) (W.state out.new)
        (numbered (λ k s. printed k s values.now) 0 (map signal_view signals.now)) }
{
    for (number, signal) in signals.iter().enumerate() {
        push_text(out, &change_line(number, signal, values));
    }
}
